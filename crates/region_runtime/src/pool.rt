// The pool's calls.

ghost use Rattle.std.specs.Prelude.{◌≡◌, ◌+◌, ◌-◌, ◌≤◌, ℕ, Bool, true, false, IfOk, is_ok, ◌&&◌, nat_eq, nat_le, nat_lt, if◌then◌else◌};
ghost use Rattle.arena_laws.specs.Counts.{free_pages, is_full, room_of};
ghost use Rattle.arena_laws.specs.Holdings.{fresh, is_in_arena, is_live_in, is_none, is_some};
ghost use Rattle.arena_laws.specs.Lawful.{region_free};
ghost use Rattle.arena_laws.specs.Laws.{Does, answer_of, is_block_refused, is_refused_full, loaded, region_alloc, region_new, stored};
ghost use Rattle.raw_pages.specs.Raw.{is_no_page_count, is_pages_fault};
ghost use Rattle.region_runtime.specs.Calls.{Gets, said_address, said_done, said_handle, tags_set, tags_with, tags_without, word_seen, words_set};
ghost use Rattle.region_runtime.specs.Headers.{AreBlank, word_in};
ghost use Rattle.region_runtime.specs.Touches.{Touched, alloc_least, reads_link, touches_field, touches_for, used_after, used_with_block};
ghost use Rattle.region_runtime.specs.Pool.{AreApart, byte_at, changed_words, held, is_free_field, is_taken, tag_of, word_of};

use crate::book::{Book, OWNER, TAKEN, USED};
use crate::handle::Handle;
use crate::refusal::Refusal;
use crate::walk::is_held;
use arena_laws::{BASE, LIMIT, PAGE, room_for, run_for};
use raw_pages::{PagesFault, RawPages};
use std::alloc::Global;
use std::marker::Model;

/// A pool of 1 to 4,096 pages of 4,096 bytes, whose addresses begin at 0x10000000. It takes memory
/// when it is made and never again. `held` is what it holds, by the laws of every store; `tag_of` the
/// tag of each live region, `is_taken` and `word_of` the pages got by `take_page` and their words, and
/// `byte_at` the byte at each address, which nothing but `store8` changes.
#[derive(Drop)]
pub struct Pool {
    book: Book,
}

impl Model for Pool {
    ghost use Rattle.region_runtime.specs.Pool.{Pooled};
    ghost use Rattle.region_runtime.specs.Sound.{IsSound};
    ghost use Rattle.region_runtime.specs.Steps.{pool_of};

    ghost Value = { Pooled };

    ghost view = { λ p. pool_of p.book };

    ghost invariant = { λ p. IsSound (pool_of p.book) };
}

impl Pool {
    /// A pool of `pages` pages, all free, whose bytes are 0. Pages where `pages` isn't 1 to 4,096,
    /// looked for first; Memory where the allocator refuses.
    pub fn new(alloc: Global, pages: u32) -> Result<Pool, PagesFault>
        ensures made { IfOk result (λ p. held p ≡ fresh pages) }
        ensures tags { IfOk result (λ p. tag_of p ≡ (λ h. None)) }
        ensures taken { IfOk result (λ p. is_taken p ≡ (λ page. false)) }
        ensures zeros { IfOk result (λ p. byte_at p ≡ (λ q. 0)) }
        ensures unused { IfOk result (λ p. p.ever_used ≡ 0) }
        ensures apart { IfOk result (λ p. AreApart p) }
        ensures pages { is_pages_fault result ≡ is_no_page_count pages }
    {
        let raw = RawPages::new(alloc, pages)?;
        let book = Book {
            raw,
            first_freed: 0,
            freed: 0,
            ever_used: 0,
            heap_last: 0,
            touched: 0,
        };
        Ok(Pool { book })
    }

    /// Makes a region, which takes a page at once: its handle, from 1 up, differs from each live
    /// one. Its tag is 0. None where no page is free.
    pub fn region_new(&mut self) -> Option<Handle>
        ensures does { Does (said_handle result) (held self.new) (region_new (answer_of (said_handle result)) (held self.old)) }
        ensures full { is_none result ≡ is_full (held self.old).counts }
        ensures tags { tag_of self.new ≡ tags_with result (tag_of self.old) }
        ensures taken { is_taken self.new ≡ is_taken self.old }
        ensures words { word_of self.new ≡ word_of self.old }
        ensures bytes { byte_at self.new ≡ byte_at self.old }
        ensures fresh { self.new.ever_used ≡ used_after (is_some result) (held self.old) self.old.ever_used }
        ensures touches { self.new.touched ≡ (if is_some result then 6 + reads_link (held self.old) else 0) }
        ensures apart { AreApart self.new }
        ensures unchanged { is_some result ≡ false → self.new.words ≡ self.old.words }
    {
        self.book.begin();
        if self.book.is_full() {
            return None;
        }
        let page = self.book.take();
        self.book.start(page);
        Some(Handle(page + 1))
    }

    /// A block of `bytes` bytes in a live region, or in the heap (0): its address, a multiple of 8.
    /// The room is the bytes rounded up to 8 (0 to 8), and meets no live room. BadHandle where the
    /// handle is of no live region, looked for first; Full above 1,048,576 bytes. A room above 4,096
    /// takes a run of neighbouring pages that were never used, and is Full where fewer are left; the
    /// region's last page stays. Another room is Full where it is more than what is left of the last
    /// page and no page is free.
    pub fn region_alloc(&mut self, handle: Handle, bytes: u32) -> Result<u32, Refusal>
        ensures does { Does (said_address result) (held self.new) (region_alloc handle.0 bytes (answer_of (said_address result)) (held self.old)) }
        ensures full { is_refused_full (said_address result) ≡ is_block_refused handle.0 bytes (held self.old) }
        ensures tags { tag_of self.new ≡ tag_of self.old }
        ensures taken { is_taken self.new ≡ is_taken self.old }
        ensures words { word_of self.new ≡ word_of self.old }
        ensures bytes { byte_at self.new ≡ byte_at self.old }
        ensures fresh { self.new.ever_used ≡ (if is_ok result then used_with_block handle.0 (room_of bytes) (held self.old) self.old.ever_used else self.old.ever_used) }
        ensures touches { Touched (is_ok result) (alloc_least handle.0 (room_of bytes) (held self.old)) 1 3 self.new.touched }
        ensures apart { AreApart self.new }
        ensures unchanged { is_ok result ≡ false → self.new.words ≡ self.old.words }
    {
        self.book.begin();
        let number = handle.0;
        if !self.book.serves(number) {
            return Err(Refusal::BadHandle);
        }
        if bytes > LIMIT {
            return Err(Refusal::Full);
        }
        let room = room_for(bytes);
        if room > PAGE {
            if run_for(room) > self.book.unused() {
                return Err(Refusal::Full);
            }
            let page = self.book.ever_used;
            self.book.run(number, room);
            return Ok(BASE + PAGE * page);
        }
        let last = self.book.last(number);
        if room <= self.book.left(last) {
            return Ok(self.book.cut(last - 1, room));
        }
        if self.book.is_full() {
            return Err(Refusal::Full);
        }
        let page = self.book.take();
        self.book.grow(number, page, room);
        Ok(BASE + PAGE * page)
    }

    /// Frees a region: its blocks and all its pages, by two writes of header words. BadHandle where
    /// the handle is of no live region (the heap's too).
    pub fn region_free(&mut self, handle: Handle) -> Result<(), Refusal>
        ensures does { Does (said_done result) (held self.new) (region_free handle.0 (held self.old)) }
        ensures tags { tag_of self.new ≡ tags_without handle.0 result (tag_of self.old) }
        ensures taken { is_taken self.new ≡ is_taken self.old }
        ensures words { word_of self.new ≡ word_of self.old }
        ensures bytes { byte_at self.new ≡ byte_at self.old }
        ensures few { changed_words self.old.words self.new.words ≤ 8 }
        ensures touched { self.new.touched ≤ 5 }
        ensures counted { changed_words self.old.words self.new.words ≤ self.new.touched }
        ensures touches { self.new.touched ≡ touches_for (is_some (tag_of self.old handle.0)) 5 (held self.old).pages handle.0 }
        ensures fresh { self.new.ever_used ≡ self.old.ever_used }
        ensures apart { AreApart self.new }
        ensures unchanged { is_ok result ≡ false → self.new.words ≡ self.old.words }
    {
        self.book.begin();
        if !self.book.knows(handle.0) {
            return Err(Refusal::BadHandle);
        }
        self.book.splice(handle.0);
        Ok(())
    }

    /// The tag of a live region; none for another handle, and for the heap's.
    pub fn tag(&mut self, handle: Handle) -> Option<u32>
        ensures tag { result ≡ tag_of self.old handle.0 }
        ensures holds { held self.new ≡ held self.old }
        ensures tags { tag_of self.new ≡ tag_of self.old }
        ensures taken { is_taken self.new ≡ is_taken self.old }
        ensures words { word_of self.new ≡ word_of self.old }
        ensures bytes { byte_at self.new ≡ byte_at self.old }
        ensures headers { self.new.words ≡ self.old.words }
        ensures touched { self.new.touched ≤ 2 }
        ensures touches { self.new.touched ≡ touches_for (is_some (tag_of self.old handle.0)) 2 (held self.old).pages handle.0 }
        ensures fresh { self.new.ever_used ≡ self.old.ever_used }
    {
        self.book.begin();
        if self.book.knows(handle.0) {
            Some(self.book.tag(handle.0))
        } else {
            None
        }
    }

    /// Sets the tag of a live region; false and nothing changed for another handle, and for the
    /// heap's.
    pub fn set_tag(&mut self, handle: Handle, value: u32) -> bool
        ensures says { result ≡ is_some (tag_of self.old handle.0) }
        ensures tags { tag_of self.new ≡ tags_set handle.0 value (tag_of self.old) }
        ensures holds { held self.new ≡ held self.old }
        ensures taken { is_taken self.new ≡ is_taken self.old }
        ensures words { word_of self.new ≡ word_of self.old }
        ensures bytes { byte_at self.new ≡ byte_at self.old }
        ensures touches { self.new.touched ≡ touches_for (is_some (tag_of self.old handle.0)) 2 (held self.old).pages handle.0 }
        ensures fresh { self.new.ever_used ≡ self.old.ever_used }
        ensures apart { AreApart self.new }
        ensures unchanged { result ≡ false → self.new.words ≡ self.old.words }
    {
        self.book.begin();
        if !self.book.knows(handle.0) {
            return false;
        }
        self.book.set_tag(handle.0, value);
        true
    }

    /// Takes a free page, which no region has then: its number. None where no page is free.
    pub fn take_page(&mut self) -> Option<u32>
        ensures gets { Gets self.old self.new result }
        ensures full { is_none result ≡ is_full (held self.old).counts }
        ensures tags { tag_of self.new ≡ tag_of self.old }
        ensures bytes { byte_at self.new ≡ byte_at self.old }
        ensures fresh { self.new.ever_used ≡ used_after (is_some result) (held self.old) self.old.ever_used }
        ensures touches { self.new.touched ≡ (if is_some result then 1 + reads_link (held self.old) else 0) }
        ensures apart { AreApart self.new }
        ensures unchanged { is_some result ≡ false → self.new.words ≡ self.old.words }
    {
        self.book.begin();
        if self.book.is_full() {
            return None;
        }
        let page = self.book.take();
        self.book.mark_taken(page);
        Some(page)
    }

    /// A header word of a page got by `take_page`, at a field from 4 to 15; else none.
    pub fn page_word(&self, page: u32, field: u32) -> Option<u32>
        ensures { result ≡ word_seen self.now page field }
    {
        if field < 4 || field > 15 {
            return None;
        }
        if page >= self.pages() {
            return None;
        }
        if self.book.raw.word(page, OWNER) != TAKEN {
            return None;
        }
        Some(self.book.raw.word(page, field))
    }

    /// Sets a header word of a page got by `take_page`, at a field from 4 to 15; else false and
    /// nothing changed.
    pub fn set_page_word(&mut self, page: u32, field: u32, value: u32) -> bool
        ensures says { result ≡ (is_taken self.old page && is_free_field field) }
        ensures words { word_of self.new ≡ words_set self.old page field value }
        ensures holds { held self.new ≡ held self.old }
        ensures tags { tag_of self.new ≡ tag_of self.old }
        ensures taken { is_taken self.new ≡ is_taken self.old }
        ensures bytes { byte_at self.new ≡ byte_at self.old }
        ensures touches { self.new.touched ≡ touches_field result 2 (is_free_field field) (held self.old).pages page }
        ensures fresh { self.new.ever_used ≡ self.old.ever_used }
        ensures apart { AreApart self.new }
        ensures unchanged { result ≡ false → self.new.words ≡ self.old.words }
    {
        self.book.begin();
        if field < 4 || field > 15 {
            return false;
        }
        if !self.book.is_taken(page) {
            return false;
        }
        self.book.set_own_word(page, field, value);
        true
    }

    /// How many pages are free.
    pub fn free_pages(&self) -> u32
        ensures { result ≡ free_pages (held self.now).counts }
    {
        self.book.freed + self.fresh_pages()
    }

    /// How many pages were never used. They are free, they come last, and their header words are 0.
    /// A page that is taken is one of them only where no freed one is there.
    pub fn fresh_pages(&self) -> u32
        ensures fresh { result ≡ (held self.now).pages - self.now.ever_used }
        ensures count { result ≡ (held self.now).counts.fresh }
        ensures unused { AreBlank self.now.ever_used (word_in self.now.words) }
    {
        self.pages() - self.book.ever_used
    }

    /// How many header words the last call with `&mut self` read or wrote.
    pub fn touched(&self) -> u32
        ensures { result ≡ self.now.touched }
    {
        self.book.touched
    }

    /// How many pages the pool has.
    pub fn pages(&self) -> u32
        ensures count { result ≡ (held self.now).pages }
        ensures few { result ≤ 4096 }
    {
        self.book.raw.pages()
    }

    /// Whether an address lies in the room of a live region's block, or of the heap's.
    pub fn is_live(&self, at: u32) -> bool
        ensures { result ≡ is_live_in (held self.now) at }
    {
        if at < BASE {
            return false;
        }
        let page = (at - BASE) / PAGE;
        if page >= self.pages() {
            return false;
        }
        if (at - BASE) % PAGE >= self.book.raw.word(page, USED) {
            return false;
        }
        is_held(&self.book.raw, page)
    }

    /// The byte at an address; none outside the arena.
    pub fn load8(&self, at: u32) -> Option<u8>
        ensures { result ≡ loaded at (held self.now) (byte_at self.now) }
    {
        if at < BASE {
            return None;
        }
        self.book.raw.byte(at - BASE)
    }

    /// Stores a byte; false and nothing changed outside the arena.
    pub fn store8(&mut self, at: u32, byte: u8) -> bool
        ensures says { result ≡ is_in_arena (held self.old) at }
        ensures bytes { byte_at self.new ≡ stored at byte (held self.old) (byte_at self.old) }
        ensures holds { held self.new ≡ held self.old }
        ensures tags { tag_of self.new ≡ tag_of self.old }
        ensures taken { is_taken self.new ≡ is_taken self.old }
        ensures page_words { word_of self.new ≡ word_of self.old }
        ensures words { self.new.words ≡ self.old.words }
        ensures touches { self.new.touched ≡ 0 }
        ensures fresh { self.new.ever_used ≡ self.old.ever_used }
        ensures apart { AreApart self.new }
    {
        self.book.touched = 0;
        if at < BASE {
            return false;
        }
        self.book.raw.set_byte(at - BASE, byte)
    }
}
