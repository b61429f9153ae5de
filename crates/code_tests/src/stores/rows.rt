// What is said call by call, by the tables.

use crate::stores::BASE;
use crate::stores::asked::{Asked, Said};
use crate::stores::calls::{Call, call_of};
use crate::stores::tables::TABLES;
use crate::texts::{number_of, parted, refuse};
use cyc_arena::{PagedStore, PlainStore};
use raw_pages::PagesFault;
use region_runtime::Pool;
use std::alloc::Global;
use std::test::Fail;
use unique_blocks::UniqueBlocks;

// what calls are made on: the region or key that was made last, at first the heap, and the block, at first the arena's first address
#[derive(Clone, Copy)]
struct Last {
    region: u32,
    block: u32,
}

impl Last {
    /// What a call is made on.
    fn base(self, call: Call) -> u32 {
        match call {
            Call::UniqueFree | Call::Load8 | Call::Store8 | Call::Live => self.block,
            _ => self.region,
        }
    }

    /// The same behind a call that was said this.
    fn after(self, call: Call, said: Said) -> Last {
        let Last { region, block } = self;
        match (said, call) {
            (Ok(region), Call::RegionNew | Call::KeyNew) => Last { region, block },
            (Ok(block), Call::RegionAlloc | Call::UniqueAlloc) => Last { region, block },
            _ => self,
        }
    }
}

/// Stores FF to every byte of the arena, of at most 64 pages.
fn fill<A: Asked>(asked: &mut A) {
    for place in 0..64 * 4096 {
        if !asked.put(BASE + place, 255) {
            return;
        }
    }
}

/// Whether this is what a row wants: `Ok` is any number.
fn is_wanted(said: Said, wanted: &str) -> bool {
    match said {
        Ok(number) => wanted == "Ok" || wanted.parse() == Ok(number),
        Err(why) => why == wanted,
    }
}

/// Makes a call so often as a row says, and fills the arena before one that may change what is held: what is last then, if all that is said is wanted.
fn done<A: Asked>(asked: &mut A, last: Last, row: &str) -> Option<Last> {
    let (times, rest) = parted(row);
    let (name, rest) = parted(rest);
    let (number, wanted) = parted(rest);
    let (mut last, number, call) = (last, number_of(number), call_of(name)?);
    if name.contains('_') {
        fill(asked);
    }
    for _ in 0..number_of(times) {
        let said = asked.ask(call, last.base(call), number);
        if !is_wanted(said, wanted) {
            return None;
        }
        last = last.after(call, said);
    }
    Some(last)
}

/// The first row that is answered otherwise, or none.
fn unlike<'t, A: Asked>(asked: &mut A, rows: &'t str) -> Option<&'t str> {
    let mut last = Last {
        region: 0,
        block: BASE,
    };
    for row in rows.lines() {
        last = match done(asked, last, row) {
            Some(last) => last,
            None => return Some(row),
        };
    }
    None
}

/// The same of what was made for it.
fn unlike_of<A: Asked + Drop>(
    made: Result<A, PagesFault>,
    rows: &str,
) -> Result<Option<&str>, PagesFault> {
    match made {
        Ok(mut asked) => Ok(unlike(&mut asked, rows)),
        Err(fault) => Err(fault),
    }
}

/// Unique blocks over a pool.
fn blocks(alloc: Global, pages: u32) -> Result<UniqueBlocks, PagesFault> {
    Ok(UniqueBlocks::new(Pool::new(alloc, pages)?))
}

/// The first row that is answered otherwise by what the head of a table names, or none.
fn wrong_row<'t>(alloc: Global, head: &str, rows: &'t str) -> Result<Option<&'t str>, PagesFault> {
    let (sort, pages) = parted(head);
    let pages = number_of(pages);
    match sort {
        "plain" => unlike_of(PlainStore::new(alloc, pages), rows),
        "paged" => unlike_of(PagedStore::new(alloc, pages), rows),
        _ => unlike_of(blocks(alloc, pages), rows),
    }
}

/// The first row of tables that is answered otherwise, or none.
fn wrong_row_of(alloc: Global, tables: &str) -> Result<Option<&str>, PagesFault> {
    for table in tables.split("\n\n") {
        let (heads, rows) = table.split_once(":\n").unwrap_or((table, "no rows"));
        for head in heads.split(", ") {
            if let Some(row) = wrong_row(alloc, head, rows)? {
                return Ok(Some(row));
            }
        }
    }
    Ok(None)
}

/// Where memory lacks as under rt try --test --fail-alloc, no store is made, and one that is made never lacks any.
#[test]
fn where_memory_lacks_no_store_is_made(rt: HostRuntime) {
    let is_right = match wrong_row_of(rt.alloc(), TABLES) {
        Ok(row) => row.is_none(),
        Err(PagesFault::Memory) => true,
        Err(PagesFault::Pages) => false,
    };
    assert!(rt; is_right);
}

/// Wants the same stores.
#[test]
fn stores_answer_by_their_laws(rt: HostRuntime) -> Result<(), Fail> {
    refuse(wrong_row_of(rt.alloc(), TABLES)?)
}
