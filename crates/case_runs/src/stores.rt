// Calls of a store, and runs over it, to be timed by `bench/run`.

use cyc_arena::{BlockStore, PagedStore, PlainStore};
use cyc_host::{Ending, run};
use cyc_image::{Image, load};
use cyc_words::Counted;
use rv32_machine::Machine;
use std::alloc::Global;
use std::io;
use std::time::{Duration, Instant};

/// The pages of a store.
const STORE_PAGES: u32 = 4096;

/// The bytes of the longest block.
const LARGE: u32 = 1048576;

/// A region with 1,000 blocks of 16 bytes, which is freed: whether each call was granted.
fn fills_a_region<S: BlockStore>(store: &mut S) -> bool {
    let Ok(handle) = store.region_new() else {
        return false;
    };
    let mut granted = true;
    for _ in 0..1000 {
        granted = store.region_alloc(handle, 16).is_ok() && granted;
    }
    store.region_free(handle).is_ok() && granted
}

/// A unique block of 24 bytes, which is freed: whether both calls were granted.
fn makes_a_block<S: BlockStore>(store: &mut S) -> bool {
    match store.unique_alloc(24) {
        Ok(at) => store.unique_free(at).is_ok(),
        Err(_) => false,
    }
}

/// The nanoseconds of a region: of all its calls, and of its freeing alone.
#[derive(Clone, Copy)]
struct Taken {
    all: u128,
    freeing: u128,
}

impl Taken {
    /// The lesser of each.
    fn least(self, other: Taken) -> Taken {
        Taken {
            all: self.all.min(other.all),
            freeing: self.freeing.min(other.freeing),
        }
    }
}

/// The blocks of a region: how many, and the bytes of each.
#[derive(Clone, Copy)]
struct Blocks {
    count: u32,
    bytes: u32,
}

/// Makes a region with such blocks and frees it: how long that took, or none where a call was refused.
fn frees_a_region<S: BlockStore>(
    rt: &HostRuntime,
    store: &mut S,
    blocks: Blocks,
) -> io::Result<Option<Taken>> {
    let start = Instant::now(rt)?;
    let Ok(handle) = store.region_new() else {
        return Ok(None);
    };
    for _ in 0..blocks.count {
        if store.region_alloc(handle, blocks.bytes).is_err() {
            return Ok(None);
        }
    }
    let made = Instant::now(rt)?;
    let freed = store.region_free(handle).is_ok();
    let freeing = made.elapsed(rt)?.as_nanos();
    let all = start.elapsed(rt)?.as_nanos();
    Ok(if freed {
        Some(Taken { all, freeing })
    } else {
        None
    })
}

/// Makes and frees regions with such blocks: the least times of one.
fn least<S: BlockStore>(
    rt: &HostRuntime,
    store: &mut S,
    times: u32,
    blocks: Blocks,
) -> io::Result<Option<Taken>> {
    let mut least: Option<Taken> = None;
    for _ in 0..times {
        let Some(taken) = frees_a_region(rt, store, blocks)? else {
            return Ok(None);
        };
        least = Some(least.unwrap_or(taken).least(taken));
    }
    Ok(least)
}

/// Writes the least nanoseconds of a region with such blocks, of all its calls and of its freeing: whether all calls were granted.
fn shows_least<S: BlockStore>(
    rt: &HostRuntime,
    store: &mut S,
    times: u32,
    blocks: Blocks,
) -> io::Result<bool> {
    match least(rt, store, times, blocks)? {
        Some(Taken { all, freeing }) => {
            println!(rt; "{all} {freeing}")?;
            Ok(true)
        }
        None => Ok(false),
    }
}

/// The calls of a loop, how often they are made, and the number of pages that a command gives.
#[derive(Clone, Copy)]
struct Work<'a> {
    name: &'a str,
    times: u32,
    pages: u32,
}

/// Makes the calls of a loop: whether all were granted.
fn drive<S: BlockStore>(rt: &HostRuntime, store: &mut S, work: Work<'_>) -> io::Result<bool> {
    let mut granted = true;
    match work.name {
        "regions" => {
            for _ in 0..work.times {
                granted = fills_a_region(store) && granted;
            }
        }
        "blocks" => {
            for _ in 0..work.times {
                granted = makes_a_block(store) && granted;
            }
        }
        "frees" => {
            let blocks = Blocks {
                count: work.pages,
                bytes: 4096,
            };
            granted = shows_least(rt, store, work.times, blocks)?;
        }
        "large" => {
            let blocks = Blocks {
                count: 1,
                bytes: LARGE,
            };
            granted = shows_least(rt, store, work.times, blocks)?;
        }
        _ => {}
    }
    Ok(granted)
}

/// Makes a store, and its calls: whether all were granted. The words are STORE LOOP TIMES PAGES.
///
/// STORE is `paged` or `plain`, with 4,096 pages. LOOP is `regions` (a region, 1,000 blocks of 16 bytes, and
/// the region freed), `blocks` (a unique block of 24 bytes, and that freed), `frees` (a region of PAGES pages
/// is made and freed), `large` (a region with one block of 1,048,576 bytes, of which a store with 4,096 pages
/// holds 15), or `none`. For `frees` and `large` the nanoseconds of a whole region and of its freeing are
/// written.
pub fn makes_calls(rt: &HostRuntime, words: &[String]) -> io::Result<bool> {
    let [store, name, times, pages] = words else {
        return Ok(false);
    };
    let work = Work {
        name: name.as_str(),
        times: times.as_str().parse().unwrap_or(0),
        pages: pages.as_str().parse().unwrap_or(0),
    };
    if store.as_str() == "plain" {
        match PlainStore::new(rt.alloc(), STORE_PAGES) {
            Ok(mut store) => drive(rt, &mut store, work),
            Err(_) => Ok(false),
        }
    } else {
        match PagedStore::new(rt.alloc(), STORE_PAGES) {
            Ok(mut store) => drive(rt, &mut store, work),
            Err(_) => Ok(false),
        }
    }
}

/// Runs an image over a store, without input: whether it ended with 0.
fn ends_well<S: BlockStore + Drop>(alloc: Global, image: &Image, store: S) -> bool {
    let Ok(mut machine) = Machine::new(alloc, image, store) else {
        return false;
    };
    let mut reader = Counted::new([].as_slice());
    let mut writer = Counted::new(Vec::new(alloc));
    matches!(
        run(&mut machine, &mut reader, &mut writer, u64::MAX),
        Ending::Ended(0)
    )
}

/// Runs the image that bytes are over a store, `paged` or `plain`, with as many pages as it asks for and without input: whether it
/// ended with 0.
pub fn is_image_run(alloc: Global, store: &str, bytes: &[u8]) -> bool {
    let Ok(image) = load(alloc, bytes) else {
        return false;
    };
    if store == "plain" {
        match PlainStore::new(alloc, image.pages()) {
            Ok(store) => ends_well(alloc, &image, store),
            Err(_) => false,
        }
    } else {
        match PagedStore::new(alloc, image.pages()) {
            Ok(store) => ends_well(alloc, &image, store),
            Err(_) => false,
        }
    }
}
