// The allocator as a store: keys over regions with unique blocks.

ghost use Rattle.std.specs.Prelude.{◌≡◌, ◌≢◌, ◌+◌, ◌≤◌, false, is_ok, if◌then◌else◌, IfOk};
ghost use Rattle.arena_laws.specs.Asked.{KeyNew, RegionAlloc, RegionNew, UniqueAlloc, is_short};
ghost use Rattle.arena_laws.specs.Counts.{class_of, room_of, slot_needs_page};
ghost use Rattle.arena_laws.specs.Holdings.{fresh, is_in_arena, is_some};
ghost use Rattle.arena_laws.specs.Lawful.{Lacks, key_close, key_free, key_open, region_free, unique_free};
ghost use Rattle.arena_laws.specs.Laws.{Does, answer_of, is_refused_full, key_new, region_alloc, region_new, stored, unique_alloc, unit_result};
ghost use Rattle.dynamic_region.specs.Calls as key_calls;
ghost use Rattle.dynamic_region.specs.Keyed.{held_by};
ghost use Rattle.region_runtime.specs.Calls as region_calls;
ghost use Rattle.raw_pages.specs.Raw.{is_no_page_count, is_pages_fault};
ghost use Rattle.region_runtime.specs.Pool.{changed_words};
ghost use Rattle.region_runtime.specs.Touches.{Touched, alloc_least, reads_link, touches_for};
ghost use Rattle.unique_blocks.specs.Blocks as blocks;
ghost use Rattle.unique_blocks.specs.Calls as block_calls;
ghost use Rattle.unique_blocks.specs.Calls.{slot_least};

use crate::store::BlockStore;
use arena_laws::StoreRefusal;
use dynamic_region::{Blocks, Key, KeyRefusal, Keys};
use raw_pages::PagesFault;
use region_runtime::{Handle, Pool, Refusal};
use std::alloc::Global;
use unique_blocks::{UniqueBlocks, UniqueRefusal};

/// A region's refusal, as a store's.
fn of_region(why: Refusal) -> StoreRefusal
    ensures { result ≡ region_calls.refusal_of why }
{
    match why {
        Refusal::Full => StoreRefusal::Full,
        Refusal::BadHandle => StoreRefusal::BadHandle,
    }
}

/// A key's refusal, as a store's.
fn of_key(why: KeyRefusal) -> StoreRefusal
    ensures { result ≡ key_calls.refusal_of why }
{
    match why {
        KeyRefusal::Full => StoreRefusal::Full,
        KeyRefusal::BadKey => StoreRefusal::BadKey,
        KeyRefusal::Open => StoreRefusal::Open,
        KeyRefusal::NotOpen => StoreRefusal::NotOpen,
    }
}

/// A unique block's refusal, as a store's.
fn of_block(why: UniqueRefusal) -> StoreRefusal
    ensures { result ≡ block_calls.refusal_of why }
{
    match why {
        UniqueRefusal::Full => StoreRefusal::Full,
        UniqueRefusal::NotABlock => StoreRefusal::NotABlock,
    }
}

/// A store over regions with unique blocks beside them, which takes memory when it is made and never
/// again: no call answers Memory. Freeing a region or a key takes the same few header words, whatever
/// the number of its pages.
#[derive(Drop)]
pub struct PagedStore<R: Blocks> {
    keys: Keys<R>,
}

impl PagedStore<UniqueBlocks> {
    /// A store of `pages` pages, all free, whose bytes are 0. Pages where `pages` isn't 1 to 4,096,
    /// looked for first; Memory where the allocator refuses.
    pub fn new(alloc: Global, pages: u32) -> Result<PagedStore<UniqueBlocks>, PagesFault>
        ensures made { IfOk result (λ s. held_by blocks.held blocks.tag_of s.keys.regions ≡ fresh pages) }
        ensures zeros { IfOk result (λ s. blocks.byte_at s.keys.regions ≡ (λ q. 0)) }
        ensures pages { is_pages_fault result ≡ is_no_page_count pages }
    {
        let pool = Pool::new(alloc, pages)?;
        Ok(PagedStore::over(UniqueBlocks::new(pool)))
    }
}

impl<R: Blocks> PagedStore<R> {
    /// A store over regions with unique blocks.
    pub fn over(blocks: R) -> PagedStore<R>
        ensures { result.keys.regions ≡ blocks }
    {
        PagedStore {
            keys: Keys::new(blocks),
        }
    }

    /// How many header words the last call with `&mut self` read or wrote, over all calls that it made
    /// of the stores below.
    pub fn touched(&self) -> u64
        ensures { result ≡ self.now.keys.touched }
    {
        self.keys.touched()
    }
}

impl<R: Blocks> BlockStore for PagedStore<R> {
    ghost holdings = { λ s. held_by R.holdings R.tag_of s.keys.regions };

    ghost byte_at = { λ s. R.byte_at s.keys.regions };

    ghost headers = { λ s. R.headers s.keys.regions };

    ghost may_lack = { false };

    fn region_new(&mut self) -> Result<u32, StoreRefusal>
        ensures does { let held = held_by R.holdings R.tag_of in
            Does result (held self.new.keys.regions) (region_new (answer_of result) (held self.old.keys.regions)) }
        ensures bytes { R.byte_at self.new.keys.regions ≡ R.byte_at self.old.keys.regions }
        ensures full { is_refused_full result ≡ is_short RegionNew (held_by R.holdings R.tag_of self.old.keys.regions) }
        ensures never { answer_of result ≢ Lacks }
        ensures sums { self.new.keys.touched ≡ (if is_ok result then 6 + reads_link (R.holdings self.old.keys.regions) else 0) }
        ensures unchanged { is_ok result ≡ false → R.headers self.new.keys.regions ≡ R.headers self.old.keys.regions }
    {
        match self.keys.region_new() {
            Some(handle) => Ok(handle.0),
            None => Err(StoreRefusal::Full),
        }
    }

    fn region_alloc(&mut self, handle: u32, bytes: u32) -> Result<u32, StoreRefusal>
        ensures does { let held = held_by R.holdings R.tag_of in
            Does result (held self.new.keys.regions) (region_alloc handle bytes (answer_of result) (held self.old.keys.regions)) }
        ensures bytes { R.byte_at self.new.keys.regions ≡ R.byte_at self.old.keys.regions }
        ensures full { is_refused_full result ≡ is_short (RegionAlloc handle bytes) (held_by R.holdings R.tag_of self.old.keys.regions) }
        ensures never { answer_of result ≢ Lacks }
        ensures sums { let tag = touches_for (is_some (R.tag_of self.old.keys.regions handle)) 2 (R.holdings self.old.keys.regions).pages handle in
            Touched (is_ok result) (tag + alloc_least handle (room_of bytes) (R.holdings self.old.keys.regions)) 1 5 self.new.keys.touched }
        ensures unchanged { is_ok result ≡ false → R.headers self.new.keys.regions ≡ R.headers self.old.keys.regions }
    {
        match self.keys.region_alloc(Handle(handle), bytes) {
            Ok(at) => Ok(at),
            Err(why) => Err(of_region(why)),
        }
    }

    fn region_free(&mut self, handle: u32) -> Result<(), StoreRefusal>
        ensures does { let held = held_by R.holdings R.tag_of in
            Does (unit_result result) (held self.new.keys.regions) (region_free handle (held self.old.keys.regions)) }
        ensures bytes { R.byte_at self.new.keys.regions ≡ R.byte_at self.old.keys.regions }
        ensures few { changed_words (R.headers self.old.keys.regions) (R.headers self.new.keys.regions) ≤ 8 }
        ensures touched { self.new.keys.touched ≤ 8 }
        ensures counted { changed_words (R.headers self.old.keys.regions) (R.headers self.new.keys.regions) ≤ self.new.keys.touched }
        ensures sums { self.new.keys.touched ≡ touches_for (is_some (R.tag_of self.old.keys.regions handle)) 2 (R.holdings self.old.keys.regions).pages handle + (if is_ok result then 5 else 0) }
        ensures unchanged { is_ok result ≡ false → R.headers self.new.keys.regions ≡ R.headers self.old.keys.regions }
    {
        match self.keys.region_free(Handle(handle)) {
            Ok(()) => Ok(()),
            Err(why) => Err(of_region(why)),
        }
    }

    fn unique_alloc(&mut self, bytes: u32) -> Result<u32, StoreRefusal>
        ensures does { let held = held_by R.holdings R.tag_of in
            Does result (held self.new.keys.regions) (unique_alloc bytes (answer_of result) (held self.old.keys.regions)) }
        ensures bytes { R.byte_at self.new.keys.regions ≡ R.byte_at self.old.keys.regions }
        ensures full { is_refused_full result ≡ is_short (UniqueAlloc bytes) (held_by R.holdings R.tag_of self.old.keys.regions) }
        ensures never { answer_of result ≢ Lacks }
        ensures sums { let needs = slot_needs_page (class_of bytes) (R.holdings self.old.keys.regions).counts in
            Touched (is_ok result) (slot_least needs (reads_link (R.holdings self.old.keys.regions))) 8 0 self.new.keys.touched }
        ensures unchanged { is_ok result ≡ false → R.headers self.new.keys.regions ≡ R.headers self.old.keys.regions }
    {
        match self.keys.unique_alloc(bytes) {
            Ok(at) => Ok(at),
            Err(why) => Err(of_block(why)),
        }
    }

    fn unique_free(&mut self, at: u32) -> Result<(), StoreRefusal>
        ensures does { let held = held_by R.holdings R.tag_of in
            Does (unit_result result) (held self.new.keys.regions) (unique_free at (held self.old.keys.regions)) }
        ensures bytes { R.byte_at self.new.keys.regions ≡ R.byte_at self.old.keys.regions }
        ensures sums { Touched (is_ok result) 12 2 4 self.new.keys.touched }
        ensures unchanged { is_ok result ≡ false → R.headers self.new.keys.regions ≡ R.headers self.old.keys.regions }
    {
        match self.keys.unique_free(at) {
            Ok(()) => Ok(()),
            Err(why) => Err(of_block(why)),
        }
    }

    fn key_new(&mut self) -> Result<u32, StoreRefusal>
        ensures does { let held = held_by R.holdings R.tag_of in
            Does result (held self.new.keys.regions) (key_new (answer_of result) (held self.old.keys.regions)) }
        ensures bytes { R.byte_at self.new.keys.regions ≡ R.byte_at self.old.keys.regions }
        ensures full { is_refused_full result ≡ is_short KeyNew (held_by R.holdings R.tag_of self.old.keys.regions) }
        ensures never { answer_of result ≢ Lacks }
        ensures sums { self.new.keys.touched ≡ (if is_ok result then 8 + reads_link (R.holdings self.old.keys.regions) else 0) }
        ensures unchanged { is_ok result ≡ false → R.headers self.new.keys.regions ≡ R.headers self.old.keys.regions }
    {
        match self.keys.key_new() {
            Ok(key) => Ok(key.0),
            Err(why) => Err(of_key(why)),
        }
    }

    fn key_open(&mut self, key: u32) -> Result<u32, StoreRefusal>
        ensures does { let held = held_by R.holdings R.tag_of in
            Does result (held self.new.keys.regions) (key_open key (held self.old.keys.regions)) }
        ensures bytes { R.byte_at self.new.keys.regions ≡ R.byte_at self.old.keys.regions }
        ensures sums { self.new.keys.touched ≡ touches_for (is_some (R.tag_of self.old.keys.regions key)) 2 (R.holdings self.old.keys.regions).pages key + (if is_ok result then 2 else 0) }
        ensures unchanged { is_ok result ≡ false → R.headers self.new.keys.regions ≡ R.headers self.old.keys.regions }
    {
        match self.keys.key_open(Key(key)) {
            Ok(handle) => Ok(handle.0),
            Err(why) => Err(of_key(why)),
        }
    }

    fn key_close(&mut self, key: u32) -> Result<(), StoreRefusal>
        ensures does { let held = held_by R.holdings R.tag_of in
            Does (unit_result result) (held self.new.keys.regions) (key_close key (held self.old.keys.regions)) }
        ensures bytes { R.byte_at self.new.keys.regions ≡ R.byte_at self.old.keys.regions }
        ensures sums { self.new.keys.touched ≡ touches_for (is_some (R.tag_of self.old.keys.regions key)) 2 (R.holdings self.old.keys.regions).pages key + (if is_ok result then 2 else 0) }
        ensures unchanged { is_ok result ≡ false → R.headers self.new.keys.regions ≡ R.headers self.old.keys.regions }
    {
        match self.keys.key_close(Key(key)) {
            Ok(()) => Ok(()),
            Err(why) => Err(of_key(why)),
        }
    }

    fn key_free(&mut self, key: u32) -> Result<(), StoreRefusal>
        ensures does { let held = held_by R.holdings R.tag_of in
            Does (unit_result result) (held self.new.keys.regions) (key_free key (held self.old.keys.regions)) }
        ensures bytes { R.byte_at self.new.keys.regions ≡ R.byte_at self.old.keys.regions }
        ensures few { changed_words (R.headers self.old.keys.regions) (R.headers self.new.keys.regions) ≤ 8 }
        ensures touched { self.new.keys.touched ≤ 8 }
        ensures counted { changed_words (R.headers self.old.keys.regions) (R.headers self.new.keys.regions) ≤ self.new.keys.touched }
        ensures sums { self.new.keys.touched ≡ touches_for (is_some (R.tag_of self.old.keys.regions key)) 2 (R.holdings self.old.keys.regions).pages key + (if is_ok result then 5 else 0) }
        ensures unchanged { is_ok result ≡ false → R.headers self.new.keys.regions ≡ R.headers self.old.keys.regions }
    {
        match self.keys.key_free(Key(key)) {
            Ok(()) => Ok(()),
            Err(why) => Err(of_key(why)),
        }
    }

    fn load8(&self, at: u32) -> Option<u8> {
        self.keys.load8(at)
    }

    fn store8(&mut self, at: u32, byte: u8) -> bool
        ensures says { result ≡ is_in_arena (held_by R.holdings R.tag_of self.old.keys.regions) at }
        ensures bytes { R.byte_at self.new.keys.regions ≡ stored at byte (held_by R.holdings R.tag_of self.old.keys.regions) (R.byte_at self.old.keys.regions) }
        ensures holds { let held = held_by R.holdings R.tag_of in held self.new.keys.regions ≡ held self.old.keys.regions }
        ensures same { R.headers self.new.keys.regions ≡ R.headers self.old.keys.regions }
        ensures sums { self.new.keys.touched ≡ 0 }
    {
        self.keys.store8(at, byte)
    }

    fn is_live(&self, at: u32) -> bool {
        self.keys.is_live(at)
    }

    fn pages(&self) -> u32 {
        self.keys.pages()
    }
}
