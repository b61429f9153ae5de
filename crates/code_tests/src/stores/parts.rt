// What stores stand on, call by call, where a store has no such call: pages and their words, pages that are taken, and keys over a pool.

use crate::stores::BASE;
use crate::texts::refuse;
use dynamic_region::{Key, KeyRefusal, Keys};
use raw_pages::RawPages;
use region_runtime::Pool;
use std::alloc::Global;
use std::test::Fail;
use unique_blocks::UniqueBlocks;

/// Whether a page has what is written to it: a word, a byte, and a range that is lent.
fn are_written(alloc: Global) -> bool {
    let Ok(mut pages) = RawPages::new(alloc, 1) else {
        return false;
    };
    pages.set_word(0, 15, 7);
    let is_set = pages.set_byte(4095, 9);
    for byte in pages.slice_mut(0..2) {
        *byte = 5;
    }
    is_set
        && pages.word(0, 15) == 7
        && pages.byte(4095) == Some(9)
        && pages.slice(0..2) == [5; 2].as_slice()
        && pages.pages() == 1
}

/// Whether the one page of a pool has words once it is taken, and then no region has it.
fn has_words(pool: &mut Pool) -> bool {
    if pool.page_word(0, 4).is_some() {
        return false;
    }
    let Some(page) = pool.take_page() else {
        return false;
    };
    let is_set = pool.set_page_word(page, 15, 9) && !pool.set_page_word(page, 3, 9);
    let is_bounded = pool.page_word(page, 3).is_none() && pool.page_word(page, 16).is_none();
    is_set
        && is_bounded
        && pool.page_word(page, 15) == Some(9)
        && pool.take_page().is_none()
        && pool.region_new().is_none()
}

/// Whether the same holds of a pool that is made.
fn are_words(alloc: Global) -> bool {
    match Pool::new(alloc, 1) {
        Ok(mut pool) => has_words(&mut pool),
        Err(_) => false,
    }
}

/// Whether the handle of a region is no key, in two pages.
fn are_apart(keys: &mut Keys<Pool>) -> bool {
    let (Some(handle), Ok(key)) = (keys.region_new(), keys.key_new()) else {
        return false;
    };
    let bad = Err(KeyRefusal::BadKey);
    let is_no_key = keys.key_open(Key(handle.0)) == bad && keys.key_open(Key(0)) == bad;
    let is_whole = keys.region_new().is_none() && keys.region_alloc(handle, 4096).is_ok();
    handle.0 != key.0
        && is_no_key
        && is_whole
        && keys.region_free(handle) == Ok(())
        && keys.touched() <= 8
        && (keys.free_pages(), keys.fresh_pages(), keys.pages()) == (1, 0, 2)
}

/// Whether the same holds of keys that are made.
fn are_keys_apart(alloc: Global) -> bool {
    match Pool::new(alloc, 2) {
        Ok(pool) => are_apart(&mut Keys::new(pool)),
        Err(_) => false,
    }
}

/// Whether a page that was taken before has no block, of two pages.
fn has_no_block(alloc: Global) -> Option<bool> {
    let mut pool = Pool::new(alloc, 2).ok()?;
    let page = pool.take_page()?;
    let is_set = pool.set_page_word(page, 4, 32) && pool.set_page_word(page, 5, 1);
    let mut blocks = UniqueBlocks::new(pool);
    let is_none = !blocks.is_live(BASE) && blocks.unique_free(BASE).is_err();
    Some(is_set && is_none && blocks.unique_alloc(32) == Ok(BASE + 4096))
}

/// What doesn't hold, if there is such.
fn wrong(alloc: Global) -> Option<&'static str> {
    if !are_written(alloc) {
        Some("pages have what is written")
    } else if !are_words(alloc) {
        Some("taken pages have words")
    } else if !are_keys_apart(alloc) {
        Some("a region's handle is no key")
    } else if has_no_block(alloc) != Some(true) {
        Some("a page that was taken before has no block")
    } else {
        None
    }
}

#[test]
fn what_stores_stand_on_is_so(rt: HostRuntime) -> Result<(), Fail> {
    refuse(wrong(rt.alloc()))
}
