// The calls of unique blocks, and the pool's beside.

ghost use Rattle.std.specs.Prelude.{◌≡◌, ◌+◌, ◌-◌, ◌*◌, ◌/◌, ◌%◌, ◌<◌, ◌≤◌, ℕ, true, false, is_ok, ◌&&◌, if◌then◌else◌, slice_index};
ghost use Rattle.arena_laws.specs.Counts.{class_of, free_pages, is_full, is_full_for_slot, room_of, slot_needs_page};
ghost use Rattle.arena_laws.specs.Holdings.{is_in_arena, is_live_in, is_none, is_some};
ghost use Rattle.arena_laws.specs.Lawful.{region_free, unique_free};
ghost use Rattle.arena_laws.specs.Laws.{Does, answer_of, is_block_refused, is_refused_full, loaded, region_alloc, region_new, stored, unique_alloc};
ghost use Rattle.region_runtime.specs.Calls.{said_address, said_done, said_handle, tags_set, tags_with, tags_without};
ghost use Rattle.region_runtime.specs.Headers.{AreBlank, word_in};
ghost use Rattle.region_runtime.specs.Pool.{changed_words};
ghost use Rattle.region_runtime.specs.Touches.{Touched, alloc_least, reads_link, touches_for, used_after, used_with_block};
ghost use Rattle.region_runtime.specs.Pool as pooled;
ghost use Rattle.unique_blocks.specs.Blocks.{byte_at, held, slots_in, tag_of};
ghost use Rattle.unique_blocks.specs.Calls.{IsOpened, IsSlotGiven, IsSlotTaken, IsUnopened, said_block, said_freed, slot_least};
ghost use Rattle.unique_blocks.specs.Slots.{address_of, alone_at, place_of};

use crate::class::place_for;
use crate::refusal::UniqueRefusal;
use crate::slots::{
    CLASS, NEXT, cut, finds, first_vacant, forget_pages, give_slot, is_set, read, set_next,
    take_slot, word,
};
use arena_laws::{BASE, PAGE, class_for};
use region_runtime::{Handle, Pool, Refusal};
use std::marker::Model;

/// A pool with unique blocks. `held` is what it holds, by the laws of every store; `tag_of` the tag
/// of each live region, and `byte_at` the byte at each address, which nothing but `store8` changes.
/// It takes no memory.
#[derive(Drop)]
pub struct UniqueBlocks {
    pool: Pool,
    heads: [u32; 8],
    touched: u32,
}

impl Model for UniqueBlocks {
    ghost use Rattle.unique_blocks.specs.Blocks.{Slotted, IsSound};

    ghost Value = { Slotted };

    ghost view = { λ u. record { pool = u.pool; heads = u.heads; touched = u.touched } };

    ghost invariant = { λ u. IsSound (record { pool = u.pool; heads = u.heads; touched = u.touched }) };
}

impl UniqueBlocks {
    /// Unique blocks over a pool. Pages that were got by `take_page` before stay taken, and have no
    /// block.
    pub fn new(mut pool: Pool) -> UniqueBlocks
        ensures held { held result ≡ pooled.held pool }
        ensures tags { tag_of result ≡ pooled.tag_of pool }
        ensures bytes { byte_at result ≡ pooled.byte_at pool }
        ensures fresh { result.pool.ever_used ≡ pool.ever_used }
    {
        forget_pages(&mut pool);
        UniqueBlocks {
            pool,
            heads: [0; 8],
            touched: 0,
        }
    }

    /// Takes a page for a class with no vacant slot, and cuts it: whether a page was free.
    fn open(&mut self, class: u32, place: usize) -> bool
        requires class { class_of class ≡ class }
        requires place { place ≡ place_of class }
        requires few { place < 8 }
        requires empty { slice_index self.old.heads place ≡ 0 }
        requires touches { self.old.touched < 100 }
        ensures opened { result ≡ true → IsOpened self.old self.new class }
        ensures unopened { result ≡ false → IsUnopened self.old self.new class }
        ensures unchanged { result ≡ false → self.new.pool.words ≡ self.old.pool.words }
        ensures touches { self.new.touched ≡ self.old.touched + (if result then 15 + reads_link (held self.old) else 0) }
    {
        match self.pool.take_page() {
            None => {
                self.touched += self.pool.touched();
                false
            }
            Some(page) => {
                self.touched += self.pool.touched();
                cut(&mut self.pool, &mut self.touched, page, class);
                let head = page + 1;
                self.heads[place] = head;
                true
            }
        }
    }

    /// Makes the first vacant slot of the class's first page live: its address.
    fn take(&mut self, class: u32, place: usize) -> u32
        requires class { class_of class ≡ class }
        requires place { place ≡ place_of class }
        requires few { place < 8 }
        requires some { 0 < slice_index self.old.heads place }
        requires touches { self.old.touched < 200 }
        ensures taken { IsSlotTaken self.old self.new class result }
        ensures least { self.old.touched + 10 ≤ self.new.touched }
        ensures most { self.new.touched ≤ self.old.touched + 18 }
    {
        let page = self.heads[place] - 1;
        let slot = first_vacant(&self.pool, &mut self.touched, page);
        let live = take_slot(&mut self.pool, &mut self.touched, page, slot);
        if live == PAGE / class {
            self.heads[place] = read(&self.pool, &mut self.touched, page, NEXT);
        }
        BASE + PAGE * page + slot * class
    }

    /// A unique block of `bytes` bytes: its address, a multiple of 8. The room is the smallest of
    /// 32, 64, 128, 256, 512, 1,024, 2,048 and 4,096 that holds it, and meets no live room. Full
    /// above 4,096 bytes, or where no page of that class has a vacant slot and no page is free.
    pub fn unique_alloc(&mut self, bytes: u32) -> Result<u32, UniqueRefusal>
        ensures does { Does (said_block result) (held self.new) (unique_alloc bytes (answer_of (said_block result)) (held self.old)) }
        ensures full { is_refused_full (said_block result) ≡ is_full_for_slot bytes (held self.old).counts }
        ensures tags { tag_of self.new ≡ tag_of self.old }
        ensures bytes { byte_at self.new ≡ byte_at self.old }
        ensures fresh { let needs = slot_needs_page (class_of bytes) (held self.old).counts in
            self.new.pool.ever_used ≡ used_after (is_ok result && needs) (held self.old) self.old.pool.ever_used }
        ensures touches { let needs = slot_needs_page (class_of bytes) (held self.old).counts in
            Touched (is_ok result) (slot_least needs (reads_link (held self.old))) 8 0 self.new.touched }
        ensures unchanged { is_ok result ≡ false → self.new.pool.words ≡ self.old.pool.words }
    {
        self.touched = 0;
        if bytes > PAGE {
            return Err(UniqueRefusal::Full);
        }
        let class = class_for(bytes);
        let place = place_for(bytes);
        if self.heads[place] == 0 && !self.open(class, place) {
            return Err(UniqueRefusal::Full);
        }
        Ok(self.take(class, place))
    }

    /// Makes a live slot vacant.
    fn give(&mut self, page: u32, class: u32, slot: u32)
        requires class { (slots_in self.old).class page ≡ class }
        requires some { 0 < class }
        requires slot { slot < 4096 / class }
        requires live { (slots_in self.old).bit page slot ≡ true }
        requires touches { self.old.touched < 100 }
        ensures given { IsSlotGiven self.old self.new class (address_of page class slot) }
        ensures least { self.old.touched + 8 ≤ self.new.touched }
        ensures most { self.new.touched ≤ self.old.touched + 10 }
    {
        let live = give_slot(&mut self.pool, &mut self.touched, page, slot);
        if live == PAGE / class {
            let place = place_for(class);
            set_next(&mut self.pool, &mut self.touched, page, self.heads[place]);
            self.heads[place] = page + 1;
        }
    }

    /// Frees the unique block that begins at an address; its page stays with its class. NotABlock
    /// where no live unique block begins there.
    pub fn unique_free(&mut self, at: u32) -> Result<(), UniqueRefusal>
        ensures does { Does (said_freed result) (held self.new) (unique_free at (held self.old)) }
        ensures tags { tag_of self.new ≡ tag_of self.old }
        ensures bytes { byte_at self.new ≡ byte_at self.old }
        ensures touches { Touched (is_ok result) 12 2 4 self.new.touched }
        ensures fresh { self.new.pool.ever_used ≡ self.old.pool.ever_used }
        ensures unchanged { is_ok result ≡ false → self.new.pool.words ≡ self.old.pool.words }
    {
        self.touched = 0;
        if at < BASE {
            return Err(UniqueRefusal::NotABlock);
        }
        let page = (at - BASE) / PAGE;
        let class = read(&self.pool, &mut self.touched, page, CLASS);
        if class == 0 {
            return Err(UniqueRefusal::NotABlock);
        }
        if (at - BASE) % PAGE % class != 0 {
            return Err(UniqueRefusal::NotABlock);
        }
        let slot = (at - BASE) % PAGE / class;
        if !finds(&self.pool, &mut self.touched, page, slot) {
            return Err(UniqueRefusal::NotABlock);
        }
        self.give(page, class, slot);
        Ok(())
    }

    /// Whether an address lies in a live slot.
    fn is_in_slot(&self, at: u32) -> bool
        ensures { result ≡ is_some (alone_at (slots_in self.now) at) }
    {
        if at < BASE {
            return false;
        }
        let page = (at - BASE) / PAGE;
        let class = word(&self.pool, page, CLASS);
        if class == 0 {
            return false;
        }
        is_set(&self.pool, page, (at - BASE) % PAGE / class)
    }

    /// Whether an address lies in the room of a live block: a region's, the heap's or a unique one.
    pub fn is_live(&self, at: u32) -> bool
        ensures { result ≡ is_live_in (held self.now) at }
    {
        self.pool.is_live(at) || self.is_in_slot(at)
    }
    /// Makes a region, which takes a page at once: its handle, from 1 up, differs from each live
    /// one. Its tag is 0. None where no page is free.
    pub fn region_new(&mut self) -> Option<Handle>
        ensures does { Does (said_handle result) (held self.new) (region_new (answer_of (said_handle result)) (held self.old)) }
        ensures full { is_none result ≡ is_full (held self.old).counts }
        ensures tags { tag_of self.new ≡ tags_with result (tag_of self.old) }
        ensures bytes { byte_at self.new ≡ byte_at self.old }
        ensures fresh { self.new.pool.ever_used ≡ used_after (is_some result) (held self.old) self.old.pool.ever_used }
        ensures touches { self.new.touched ≡ (if is_some result then 6 + reads_link (held self.old) else 0) }
        ensures unchanged { is_some result ≡ false → self.new.pool.words ≡ self.old.pool.words }
    {
        let made = self.pool.region_new();
        self.touched = self.pool.touched();
        made
    }

    /// A block of `bytes` bytes in a live region, or in the heap (0): its address, a multiple of 8.
    /// The room is the bytes rounded up to 8 (0 to 8), and meets no live room. BadHandle where the
    /// handle is of no live region, looked for first; Full above 1,048,576 bytes. A room above 4,096
    /// takes a run of neighbouring pages that were never used, and is Full where fewer are left; the
    /// region's last page stays. Another room is Full where it is more than what is left of the last
    /// page and no page is free.
    pub fn region_alloc(&mut self, handle: Handle, bytes: u32) -> Result<u32, Refusal>
        ensures does { Does (said_address result) (held self.new) (region_alloc handle.0 bytes (answer_of (said_address result)) (held self.old)) }
        ensures full { is_refused_full (said_address result) ≡ is_block_refused handle.0 bytes (held self.old) }
        ensures tags { tag_of self.new ≡ tag_of self.old }
        ensures bytes { byte_at self.new ≡ byte_at self.old }
        ensures fresh { self.new.pool.ever_used ≡ (if is_ok result then used_with_block handle.0 (room_of bytes) (held self.old) self.old.pool.ever_used else self.old.pool.ever_used) }
        ensures touches { Touched (is_ok result) (alloc_least handle.0 (room_of bytes) (held self.old)) 1 3 self.new.touched }
        ensures unchanged { is_ok result ≡ false → self.new.pool.words ≡ self.old.pool.words }
    {
        let placed = self.pool.region_alloc(handle, bytes);
        self.touched = self.pool.touched();
        placed
    }

    /// Frees a region: its blocks and all its pages, by two writes of header words. BadHandle where
    /// the handle is of no live region (the heap's too).
    pub fn region_free(&mut self, handle: Handle) -> Result<(), Refusal>
        ensures does { Does (said_done result) (held self.new) (region_free handle.0 (held self.old)) }
        ensures tags { tag_of self.new ≡ tags_without handle.0 result (tag_of self.old) }
        ensures bytes { byte_at self.new ≡ byte_at self.old }
        ensures few { changed_words self.old.pool.words self.new.pool.words ≤ 8 }
        ensures touched { self.new.touched ≤ 5 }
        ensures counted { changed_words self.old.pool.words self.new.pool.words ≤ self.new.touched }
        ensures touches { self.new.touched ≡ touches_for (is_some (tag_of self.old handle.0)) 5 (held self.old).pages handle.0 }
        ensures fresh { self.new.pool.ever_used ≡ self.old.pool.ever_used }
        ensures unchanged { is_ok result ≡ false → self.new.pool.words ≡ self.old.pool.words }
    {
        let freed = self.pool.region_free(handle);
        self.touched = self.pool.touched();
        freed
    }

    /// The tag of a live region; none for another handle, and for the heap's.
    pub fn tag(&mut self, handle: Handle) -> Option<u32>
        ensures tag { result ≡ tag_of self.old handle.0 }
        ensures holds { held self.new ≡ held self.old }
        ensures tags { tag_of self.new ≡ tag_of self.old }
        ensures bytes { byte_at self.new ≡ byte_at self.old }
        ensures headers { self.new.pool.words ≡ self.old.pool.words }
        ensures touched { self.new.touched ≤ 2 }
        ensures touches { self.new.touched ≡ touches_for (is_some (tag_of self.old handle.0)) 2 (held self.old).pages handle.0 }
        ensures fresh { self.new.pool.ever_used ≡ self.old.pool.ever_used }
    {
        let tag = self.pool.tag(handle);
        self.touched = self.pool.touched();
        tag
    }

    /// Sets the tag of a live region; false and nothing changed for another handle, and for the
    /// heap's.
    pub fn set_tag(&mut self, handle: Handle, value: u32) -> bool
        ensures says { result ≡ is_some (tag_of self.old handle.0) }
        ensures tags { tag_of self.new ≡ tags_set handle.0 value (tag_of self.old) }
        ensures holds { held self.new ≡ held self.old }
        ensures bytes { byte_at self.new ≡ byte_at self.old }
        ensures touches { self.new.touched ≡ touches_for (is_some (tag_of self.old handle.0)) 2 (held self.old).pages handle.0 }
        ensures fresh { self.new.pool.ever_used ≡ self.old.pool.ever_used }
        ensures unchanged { result ≡ false → self.new.pool.words ≡ self.old.pool.words }
    {
        let set = self.pool.set_tag(handle, value);
        self.touched = self.pool.touched();
        set
    }

    /// How many pages are free.
    pub fn free_pages(&self) -> u32
        ensures { result ≡ free_pages (held self.now).counts }
    {
        self.pool.free_pages()
    }

    /// How many pages were never used. They are free, they come last, and their header words are 0.
    /// A page that is taken is one of them only where no freed one is there.
    pub fn fresh_pages(&self) -> u32
        ensures fresh { result ≡ (held self.now).pages - self.now.pool.ever_used }
        ensures count { result ≡ (held self.now).counts.fresh }
        ensures unused { AreBlank self.now.pool.ever_used (word_in self.now.pool.words) }
    {
        self.pool.fresh_pages()
    }

    /// How many header words the last call with `&mut self` read or wrote, over all calls that it made
    /// of the pool.
    pub fn touched(&self) -> u32
        ensures { result ≡ self.now.touched }
    {
        self.touched
    }

    /// How many pages the pool has.
    pub fn pages(&self) -> u32
        ensures count { result ≡ (held self.now).pages }
        ensures few { result ≤ 4096 }
    {
        self.pool.pages()
    }

    /// The byte at an address; none outside the arena.
    pub fn load8(&self, at: u32) -> Option<u8>
        ensures { result ≡ loaded at (held self.now) (byte_at self.now) }
    {
        self.pool.load8(at)
    }

    /// Stores a byte; false and nothing changed outside the arena.
    pub fn store8(&mut self, at: u32, byte: u8) -> bool
        ensures says { result ≡ is_in_arena (held self.old) at }
        ensures bytes { byte_at self.new ≡ stored at byte (held self.old) (byte_at self.old) }
        ensures holds { held self.new ≡ held self.old }
        ensures tags { tag_of self.new ≡ tag_of self.old }
        ensures words { self.new.pool.words ≡ self.old.pool.words }
        ensures touches { self.new.touched ≡ 0 }
        ensures fresh { self.new.pool.ever_used ≡ self.old.pool.ever_used }
    {
        let stored = self.pool.store8(at, byte);
        self.touched = self.pool.touched();
        stored
    }
}
