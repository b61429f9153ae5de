// What the calls of tables are made on: stores, and the unique blocks over a pool below them.

use crate::stores::calls::Call;
use arena_laws::StoreRefusal;
use cyc_arena::{BlockStore, PagedStore, PlainStore};
use dynamic_region::Regions;
use region_runtime::{Handle, Refusal};
use unique_blocks::{UniqueBlocks, UniqueRefusal};

/// What is said to a call: a number, where none is granted 0, and 1 for what holds; or the name of a refusal.
pub type Said = Result<u32, &'static str>;

/// What calls are made on.
pub trait Asked {
    /// A call, on the region or key `base`, or at the address that is `number` bytes behind `base`.
    fn ask(&mut self, call: Call, base: u32, number: u32) -> Said;

    /// Stores a byte of the arena; false outside it.
    fn put(&mut self, at: u32, byte: u8) -> bool;
}

/// A refusal, which has a name.
trait Named {
    /// Its name.
    fn name(self) -> &'static str;
}

impl Named for StoreRefusal {
    fn name(self) -> &'static str {
        match self {
            StoreRefusal::Full => "Full",
            StoreRefusal::BadHandle => "BadHandle",
            StoreRefusal::NotABlock => "NotABlock",
            StoreRefusal::BadKey => "BadKey",
            StoreRefusal::Open => "Open",
            StoreRefusal::NotOpen => "NotOpen",
            StoreRefusal::Memory => "Memory",
        }
    }
}

impl Named for Refusal {
    fn name(self) -> &'static str {
        match self {
            Refusal::Full => "Full",
            Refusal::BadHandle => "BadHandle",
        }
    }
}

impl Named for UniqueRefusal {
    fn name(self) -> &'static str {
        match self {
            UniqueRefusal::Full => "Full",
            UniqueRefusal::NotABlock => "NotABlock",
        }
    }
}

/// What is said with a number.
fn numbered<E: Named + Drop>(said: Result<u32, E>) -> Said {
    match said {
        Ok(number) => Ok(number),
        Err(why) => Err(why.name()),
    }
}

/// What is said without one.
fn done<E: Named + Drop>(said: Result<(), E>) -> Said {
    match said {
        Ok(()) => Ok(0),
        Err(why) => Err(why.name()),
    }
}

/// A number, if there is one.
fn given(said: Option<u32>) -> Said {
    match said {
        Some(number) => Ok(number),
        None => Err("none"),
    }
}

/// A byte, if there is one.
fn byte_given(said: Option<u8>) -> Said {
    match said {
        Some(byte) => Ok(u32::from(byte)),
        None => Err("none"),
    }
}

/// A count of touched words, if it is small.
fn few(count: u64) -> Said {
    if count <= 8 { Ok(0) } else { Err("many") }
}

/// A call on a store.
fn ask_store<S: BlockStore>(store: &mut S, call: Call, base: u32, number: u32) -> Said {
    let at = base.wrapping_add(number);
    match call {
        Call::RegionNew => numbered(store.region_new()),
        Call::RegionAlloc => numbered(store.region_alloc(base, number)),
        Call::RegionFree => done(store.region_free(base)),
        Call::UniqueAlloc => numbered(store.unique_alloc(number)),
        Call::UniqueFree => done(store.unique_free(at)),
        Call::KeyNew => numbered(store.key_new()),
        Call::KeyOpen => numbered(store.key_open(base)),
        Call::KeyClose => done(store.key_close(base)),
        Call::KeyFree => done(store.key_free(base)),
        Call::Load8 => byte_given(store.load8(at)),
        Call::Store8 => Ok(u32::from(store.store8(at, 9))),
        Call::Live => Ok(u32::from(store.is_live(at))),
        Call::Pages => Ok(store.pages()),
        _ => Err("another call"),
    }
}

impl Asked for PlainStore {
    fn ask(&mut self, call: Call, base: u32, number: u32) -> Said {
        ask_store(self, call, base, number)
    }

    fn put(&mut self, at: u32, byte: u8) -> bool {
        self.store8(at, byte)
    }
}

impl Asked for PagedStore<UniqueBlocks> {
    fn ask(&mut self, call: Call, base: u32, number: u32) -> Said {
        match call {
            Call::Touched => few(self.touched()),
            _ => ask_store(self, call, base, number),
        }
    }

    fn put(&mut self, at: u32, byte: u8) -> bool {
        self.store8(at, byte)
    }
}

/// What is said to a call that makes a region.
fn region_made(said: Option<Handle>) -> Said {
    match said {
        Some(handle) => Ok(handle.0),
        None => Err("Full"),
    }
}

/// A call on regions.
fn ask_regions<R: Regions>(regions: &mut R, call: Call, base: u32, number: u32) -> Said {
    let (handle, at) = (Handle(base), base.wrapping_add(number));
    match call {
        Call::RegionNew => region_made(regions.region_new()),
        Call::RegionAlloc => numbered(regions.region_alloc(handle, number)),
        Call::RegionFree => done(regions.region_free(handle)),
        Call::Tag => given(regions.tag(handle)),
        Call::SetTag => Ok(u32::from(regions.set_tag(handle, number))),
        Call::Free => Ok(regions.free_pages()),
        Call::Fresh => Ok(regions.fresh_pages()),
        Call::Touched => few(u64::from(regions.touched())),
        Call::Load8 => byte_given(regions.load8(at)),
        Call::Store8 => Ok(u32::from(regions.store8(at, 9))),
        Call::Live => Ok(u32::from(regions.is_live(at))),
        Call::Pages => Ok(regions.pages()),
        _ => Err("another call"),
    }
}

impl Asked for UniqueBlocks {
    fn ask(&mut self, call: Call, base: u32, number: u32) -> Said {
        match call {
            Call::UniqueAlloc => numbered(self.unique_alloc(number)),
            Call::UniqueFree => done(self.unique_free(base.wrapping_add(number))),
            _ => ask_regions(self, call, base, number),
        }
    }

    fn put(&mut self, at: u32, byte: u8) -> bool {
        UniqueBlocks::store8(self, at, byte)
    }
}
