// The calls on keys, and those on the regions below.

ghost use Rattle.std.specs.Prelude.{◌≡◌, ◌+◌, ◌-◌, ◌≤◌, true, false, is_ok, ◌&&◌, if◌then◌else◌};
ghost use Rattle.arena_laws.specs.Counts.{free_pages, is_full, room_of};
ghost use Rattle.arena_laws.specs.Holdings.{is_in_arena, is_live_in, is_none, is_some};
ghost use Rattle.arena_laws.specs.Lawful.{key_close, key_free, key_open, region_free, without_number};
ghost use Rattle.arena_laws.specs.Laws.{Does, answer_of, is_block_refused, is_refused_full, key_new, loaded, region_alloc, region_new, stored};
ghost use Rattle.region_runtime.specs.Calls.{said_address, said_done, said_handle, tags_set};
ghost use Rattle.region_runtime.specs.Pool.{changed_words};
ghost use Rattle.region_runtime.specs.Headers.{AreBlank, word_in};
ghost use Rattle.region_runtime.specs.Touches.{Touched, alloc_least, reads_link, touches_for, used_after, used_with_block};
ghost use Rattle.dynamic_region.specs.Calls as key_calls;
ghost use Rattle.dynamic_region.specs.Calls.{said_key, said_opened};
ghost use Rattle.dynamic_region.specs.Keyed.{held_by, is_closed_key, standing_of};

use crate::key::Key;
use crate::refusal::KeyRefusal;
use crate::regions::Regions;
use arena_laws::Standing;
use region_runtime::{Handle, Refusal};

/// The tag of a lexical region. A region that was just made has it.
const LEXICAL: u32 = 0;

/// The tag of a dynamic region whose key is closed.
const CLOSED: u32 = 1;

/// The tag of a dynamic region whose key is open.
const OPENED: u32 = 2;

/// Whether a number that stands for this is a closed key's.
fn is_closed(standing: Option<Standing>) -> bool
    ensures { result ≡ is_closed_key standing }
{
    match standing {
        None => false,
        Some(Standing::Lexical) => false,
        Some(Standing::Opened) => false,
        Some(Standing::Closed) => true,
    }
}

/// Dynamic regions and their keys over `regions`, whose regions with another tag than 0 are the
/// keys'. `held_by` is what they hold, keys too, by the laws of every store. `touched` counts the
/// header words that the last call read or wrote.
#[derive(Drop)]
pub struct Keys<R: Regions> {
    pub(crate) regions: R,
    pub(crate) touched: u64,
}

impl<R: Regions> Keys<R> {
    /// Keys over regions. A region whose tag is 1 counts as a closed key's, and one with a greater
    /// tag as an open key's.
    pub fn new(regions: R) -> Keys<R>
        ensures regions { result.regions ≡ regions }
        ensures touched { result.touched ≡ 0 }
    {
        Keys {
            regions,
            touched: 0,
        }
    }

    /// What a number stands for.
    fn standing(&mut self, number: u32) -> Option<Standing>
        ensures value { result ≡ standing_of (R.tag_of self.old.regions number) }
        ensures tags { R.tag_of self.new.regions ≡ R.tag_of self.old.regions }
        ensures holds { R.holdings self.new.regions ≡ R.holdings self.old.regions }
        ensures bytes { R.byte_at self.new.regions ≡ R.byte_at self.old.regions }
        ensures same { R.headers self.new.regions ≡ R.headers self.old.regions }
        ensures sums { self.new.touched ≡ touches_for (is_some (R.tag_of self.old.regions number)) 2 (R.holdings self.old.regions).pages number }
        ensures fresh { R.ever_used self.new.regions ≡ R.ever_used self.old.regions }
        ensures touched { self.new.touched ≤ 2 }
    {
        let tag = self.regions.tag(Handle(number));
        self.touched = u64::from(self.regions.touched());
        match tag {
            None => None,
            Some(LEXICAL) => Some(Standing::Lexical),
            Some(CLOSED) => Some(Standing::Closed),
            Some(_) => Some(Standing::Opened),
        }
    }

    /// A live region is marked by a tag.
    fn mark(&mut self, number: u32, tag: u32)
        requires live { is_some (R.tag_of self.old.regions number) ≡ true }
        requires few { self.old.touched ≤ 2 }
        ensures tags { R.tag_of self.new.regions ≡ tags_set number tag (R.tag_of self.old.regions) }
        ensures holds { R.holdings self.new.regions ≡ R.holdings self.old.regions }
        ensures bytes { R.byte_at self.new.regions ≡ R.byte_at self.old.regions }
        ensures sums { self.new.touched ≡ self.old.touched + 2 }
        ensures fresh { R.ever_used self.new.regions ≡ R.ever_used self.old.regions }
    {
        self.regions.set_tag(Handle(number), tag);
        self.touched += u64::from(self.regions.touched());
    }

    /// A live region is freed.
    fn release(&mut self, number: u32)
        requires live { is_some (R.tag_of self.old.regions number) ≡ true }
        requires touches { self.old.touched ≤ 2 }
        ensures holds { let held = held_by R.holdings R.tag_of in held self.new.regions ≡ without_number number (held self.old.regions) }
        ensures bytes { R.byte_at self.new.regions ≡ R.byte_at self.old.regions }
        ensures sums { self.new.touched ≡ self.old.touched + 5 }
        ensures fresh { R.ever_used self.new.regions ≡ R.ever_used self.old.regions }
        ensures few { changed_words (R.headers self.old.regions) (R.headers self.new.regions) ≤ 8 }
        ensures touched { self.new.touched ≤ self.old.touched + 5 }
        ensures counted { changed_words (R.headers self.old.regions) (R.headers self.new.regions) ≤ self.new.touched }
    {
        let _freed = self.regions.region_free(Handle(number));
        self.touched += u64::from(self.regions.touched());
    }

    /// Makes a dynamic region, which takes a page at once: its key, from 1 up, differs from each live
    /// handle and key, and is closed. Full where no page is free.
    pub fn key_new(&mut self) -> Result<Key, KeyRefusal>
        ensures does { let held = held_by R.holdings R.tag_of in
            Does (said_key result) (held self.new.regions) (key_new (answer_of (said_key result)) (held self.old.regions)) }
        ensures full { is_refused_full (said_key result) ≡ is_full (R.holdings self.old.regions).counts }
        ensures bytes { R.byte_at self.new.regions ≡ R.byte_at self.old.regions }
        ensures fresh { R.ever_used self.new.regions ≡ used_after (is_ok result) (R.holdings self.old.regions) (R.ever_used self.old.regions) }
        ensures sums { self.new.touched ≡ (if is_ok result then 8 + reads_link (R.holdings self.old.regions) else 0) }
        ensures unchanged { is_ok result ≡ false → R.headers self.new.regions ≡ R.headers self.old.regions }
    {
        let made = self.regions.region_new();
        let touched = u64::from(self.regions.touched());
        match made {
            Some(handle) => {
                self.regions.set_tag(handle, CLOSED);
                self.touched = touched + u64::from(self.regions.touched());
                Ok(Key(handle.0))
            }
            None => {
                self.touched = touched;
                Err(KeyRefusal::Full)
            }
        }
    }

    /// Opens a closed key: the handle of its region, which is the key's own number. BadKey where the
    /// number is no live key's, Open where the key is open.
    pub fn key_open(&mut self, key: Key) -> Result<Handle, KeyRefusal>
        ensures does { let held = held_by R.holdings R.tag_of in
            Does (said_opened result) (held self.new.regions) (key_open key.0 (held self.old.regions)) }
        ensures bytes { R.byte_at self.new.regions ≡ R.byte_at self.old.regions }
        ensures sums { self.new.touched ≡ touches_for (is_some (R.tag_of self.old.regions key.0)) 2 (R.holdings self.old.regions).pages key.0 + (if is_ok result then 2 else 0) }
        ensures fresh { R.ever_used self.new.regions ≡ R.ever_used self.old.regions }
        ensures unchanged { is_ok result ≡ false → R.headers self.new.regions ≡ R.headers self.old.regions }
    {
        match self.standing(key.0) {
            Some(Standing::Closed) => {
                self.mark(key.0, OPENED);
                Ok(Handle(key.0))
            }
            Some(Standing::Opened) => Err(KeyRefusal::Open),
            _ => Err(KeyRefusal::BadKey),
        }
    }

    /// Closes an open key; its blocks stay live, and its number is no handle. BadKey where the number
    /// is no live key's, NotOpen where the key is closed.
    pub fn key_close(&mut self, key: Key) -> Result<(), KeyRefusal>
        ensures does { let held = held_by R.holdings R.tag_of in
            Does (key_calls.said_done result) (held self.new.regions) (key_close key.0 (held self.old.regions)) }
        ensures bytes { R.byte_at self.new.regions ≡ R.byte_at self.old.regions }
        ensures sums { self.new.touched ≡ touches_for (is_some (R.tag_of self.old.regions key.0)) 2 (R.holdings self.old.regions).pages key.0 + (if is_ok result then 2 else 0) }
        ensures fresh { R.ever_used self.new.regions ≡ R.ever_used self.old.regions }
        ensures unchanged { is_ok result ≡ false → R.headers self.new.regions ≡ R.headers self.old.regions }
    {
        match self.standing(key.0) {
            Some(Standing::Opened) => {
                self.mark(key.0, CLOSED);
                Ok(())
            }
            Some(Standing::Closed) => Err(KeyRefusal::NotOpen),
            _ => Err(KeyRefusal::BadKey),
        }
    }

    /// Frees a closed key: its blocks and all its pages, by a fixed number of header words. BadKey
    /// where the number is no live key's, Open where the key is open.
    #[tactic(auto, using(crate::proofs::Unchanged::none_changed))]
    pub fn key_free(&mut self, key: Key) -> Result<(), KeyRefusal>
        ensures does { let held = held_by R.holdings R.tag_of in
            Does (key_calls.said_done result) (held self.new.regions) (key_free key.0 (held self.old.regions)) }
        ensures bytes { R.byte_at self.new.regions ≡ R.byte_at self.old.regions }
        ensures sums { self.new.touched ≡ touches_for (is_some (R.tag_of self.old.regions key.0)) 2 (R.holdings self.old.regions).pages key.0 + (if is_ok result then 5 else 0) }
        ensures fresh { R.ever_used self.new.regions ≡ R.ever_used self.old.regions }
        ensures few { changed_words (R.headers self.old.regions) (R.headers self.new.regions) ≤ 8 }
        ensures touched { self.new.touched ≤ 8 }
        ensures counted { changed_words (R.headers self.old.regions) (R.headers self.new.regions) ≤ self.new.touched }
        ensures unchanged { is_ok result ≡ false → R.headers self.new.regions ≡ R.headers self.old.regions }
    {
        match self.standing(key.0) {
            Some(Standing::Closed) => {
                self.release(key.0);
                Ok(())
            }
            Some(Standing::Opened) => Err(KeyRefusal::Open),
            _ => Err(KeyRefusal::BadKey),
        }
    }

    /// Makes a lexical region, which takes a page at once: its handle, from 1 up, differs from each
    /// live handle and key. None where no page is free.
    pub fn region_new(&mut self) -> Option<Handle>
        ensures does { let held = held_by R.holdings R.tag_of in
            Does (said_handle result) (held self.new.regions) (region_new (answer_of (said_handle result)) (held self.old.regions)) }
        ensures full { is_none result ≡ is_full (R.holdings self.old.regions).counts }
        ensures bytes { R.byte_at self.new.regions ≡ R.byte_at self.old.regions }
        ensures fresh { R.ever_used self.new.regions ≡ used_after (is_some result) (R.holdings self.old.regions) (R.ever_used self.old.regions) }
        ensures sums { self.new.touched ≡ (if is_some result then 6 + reads_link (R.holdings self.old.regions) else 0) }
        ensures unchanged { is_some result ≡ false → R.headers self.new.regions ≡ R.headers self.old.regions }
    {
        let made = self.regions.region_new();
        self.touched = u64::from(self.regions.touched());
        made
    }

    /// A block of `bytes` bytes in a live region, in the heap (0), or in an open key's region under
    /// the key's number: its address, a multiple of 8. BadHandle where the number is no such handle (a
    /// closed key's too); Full above 1,048,576 bytes, or where a page or a run of pages is
    /// needed and there is none.
    pub fn region_alloc(&mut self, handle: Handle, bytes: u32) -> Result<u32, Refusal>
        ensures does { let held = held_by R.holdings R.tag_of in
            Does (said_address result) (held self.new.regions) (region_alloc handle.0 bytes (answer_of (said_address result)) (held self.old.regions)) }
        ensures full { is_refused_full (said_address result) ≡ is_block_refused handle.0 bytes (held_by R.holdings R.tag_of self.old.regions) }
        ensures bytes { R.byte_at self.new.regions ≡ R.byte_at self.old.regions }
        ensures fresh { R.ever_used self.new.regions ≡ (if is_ok result then used_with_block handle.0 (room_of bytes) (R.holdings self.old.regions) (R.ever_used self.old.regions) else R.ever_used self.old.regions) }
        ensures sums { let tag = touches_for (is_some (R.tag_of self.old.regions handle.0)) 2 (R.holdings self.old.regions).pages handle.0 in
            Touched (is_ok result) (tag + alloc_least handle.0 (room_of bytes) (R.holdings self.old.regions)) 1 5 self.new.touched }
        ensures unchanged { is_ok result ≡ false → R.headers self.new.regions ≡ R.headers self.old.regions }
    {
        let standing = self.standing(handle.0);
        if is_closed(standing) {
            return Err(Refusal::BadHandle);
        }
        let placed = self.regions.region_alloc(handle, bytes);
        self.touched += u64::from(self.regions.touched());
        placed
    }

    /// Frees a lexical region: its blocks and all its pages, by a fixed number of header words.
    /// BadHandle where the number is no live lexical region's (the heap's and a key's number too).
    #[tactic(auto, using(crate::proofs::Unchanged::none_changed))]
    pub fn region_free(&mut self, handle: Handle) -> Result<(), Refusal>
        ensures does { let held = held_by R.holdings R.tag_of in
            Does (said_done result) (held self.new.regions) (region_free handle.0 (held self.old.regions)) }
        ensures bytes { R.byte_at self.new.regions ≡ R.byte_at self.old.regions }
        ensures sums { self.new.touched ≡ touches_for (is_some (R.tag_of self.old.regions handle.0)) 2 (R.holdings self.old.regions).pages handle.0 + (if is_ok result then 5 else 0) }
        ensures fresh { R.ever_used self.new.regions ≡ R.ever_used self.old.regions }
        ensures few { changed_words (R.headers self.old.regions) (R.headers self.new.regions) ≤ 8 }
        ensures touched { self.new.touched ≤ 8 }
        ensures counted { changed_words (R.headers self.old.regions) (R.headers self.new.regions) ≤ self.new.touched }
        ensures unchanged { is_ok result ≡ false → R.headers self.new.regions ≡ R.headers self.old.regions }
    {
        match self.standing(handle.0) {
            Some(Standing::Lexical) => {
                self.release(handle.0);
                Ok(())
            }
            _ => Err(Refusal::BadHandle),
        }
    }

    /// How many pages are free.
    pub fn free_pages(&self) -> u32
        ensures { result ≡ free_pages (R.holdings self.now.regions).counts }
    {
        self.regions.free_pages()
    }

    /// How many pages were never used. They are free, they come last, and their header words are 0.
    /// A page that is taken is one of them only where no freed one is there.
    pub fn fresh_pages(&self) -> u32
        ensures fresh { result ≡ (R.holdings self.now.regions).pages - R.ever_used self.now.regions }
        ensures count { result ≡ (R.holdings self.now.regions).counts.fresh }
        ensures unused { AreBlank (R.ever_used self.now.regions) (word_in (R.headers self.now.regions)) }
    {
        self.regions.fresh_pages()
    }

    /// How many header words the last call with `&mut self` read or wrote, over all calls that it
    /// made of the regions below.
    pub fn touched(&self) -> u64
        ensures { result ≡ self.now.touched }
    {
        self.touched
    }

    /// How many pages there are.
    pub fn pages(&self) -> u32
        ensures count { result ≡ (R.holdings self.now.regions).pages }
        ensures few { result ≤ 4096 }
    {
        self.regions.pages()
    }

    /// Whether an address lies in the room of a live block.
    pub fn is_live(&self, at: u32) -> bool
        ensures { result ≡ is_live_in (R.holdings self.now.regions) at }
    {
        self.regions.is_live(at)
    }

    /// The byte at an address; none outside the arena.
    pub fn load8(&self, at: u32) -> Option<u8>
        ensures { result ≡ loaded at (R.holdings self.now.regions) (R.byte_at self.now.regions) }
    {
        self.regions.load8(at)
    }

    /// Stores a byte; false and nothing changed outside the arena.
    pub fn store8(&mut self, at: u32, byte: u8) -> bool
        ensures says { result ≡ is_in_arena (R.holdings self.old.regions) at }
        ensures bytes { R.byte_at self.new.regions ≡ stored at byte (R.holdings self.old.regions) (R.byte_at self.old.regions) }
        ensures holds { let held = held_by R.holdings R.tag_of in held self.new.regions ≡ held self.old.regions }
        ensures same { R.headers self.new.regions ≡ R.headers self.old.regions }
        ensures sums { self.new.touched ≡ 0 }
        ensures fresh { R.ever_used self.new.regions ≡ R.ever_used self.old.regions }
    {
        let stored = self.regions.store8(at, byte);
        self.touched = u64::from(self.regions.touched());
        stored
    }
}
