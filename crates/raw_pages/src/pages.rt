// Pages of memory, as two rows of one block.

ghost use Rattle.std.specs.Prelude.{◌≡◌, ◌+◌, ◌*◌, ◌<◌, ◌≤◌, IfOk, length, nat_lt, slice_get, slice_set, drop, take, ◌-◌};
ghost use Rattle.std.specs.Borrow.{sem};
ghost use Rattle.raw_pages.specs.Lending.{LendsBytes};
ghost use Rattle.raw_pages.specs.Raw.{AreZero, count, is_no_page_count, is_pages_fault, word_at};

use crate::block::{Block, allocate, filled, free};
use crate::fault::PagesFault;
use std::alloc::Global;
use std::marker::Model;
use std::ops::Range;
use std_alloc::vec::Lodged;

/// So many pages of sixteen header words and 4,096 payload bytes, freed when dropped. Header words
/// are named by page and field, payload bytes by their place in the whole payload.
pub struct RawPages {
    words: Vec<u32, Lodged>,
    bytes: Vec<u8, Lodged>,
    block: Block<Global>,
    alloc: Global,
}

impl Model for RawPages {
    ghost use Rattle.std.specs.Prelude.{◌≡◌};
    ghost use Rattle.raw_pages.specs.Raw.{Raw, IsWhole};
    ghost use Rattle.raw_pages.specs.Seated.{IsSeated};

    ghost Value = { Raw };

    ghost view = { λ r. record { words = r.words.items; bytes = r.bytes.items } };

    ghost invariant = { λ r. IsWhole r.words.items r.bytes.items × IsSeated r.words r.bytes r.block × (r.block.alloc ≡ r.alloc) };
}

impl Drop for RawPages {
    fn drop(self) {
        let RawPages {
            words,
            bytes,
            block,
            alloc,
        } = self;
        free(&alloc, words, bytes, block);
    }
}

impl RawPages {
    /// So many pages, all of whose words and bytes are 0. Pages where `pages` isn't 1 to 4,096, looked
    /// for first; Memory where the allocator refuses.
    pub fn new(alloc: Global, pages: u32) -> Result<RawPages, PagesFault>
        ensures zeros { IfOk result (λ r. AreZero pages r) }
        ensures pages { is_pages_fault result ≡ is_no_page_count pages }
    {
        if pages == 0 || pages > 4096 {
            return Err(PagesFault::Pages);
        }
        let Ok((words, bytes, block)) = allocate(&alloc, pages as usize) else {
            return Err(PagesFault::Memory);
        };
        Ok(RawPages {
            words: filled(words, 0),
            bytes: filled(bytes, 0),
            block,
            alloc,
        })
    }

    /// How many pages there are.
    pub fn pages(&self) -> u32
        ensures { result ≡ count self.now }
    {
        (self.words.len() / 16) as u32
    }

    /// A word of a page's header: field 0 to 15.
    pub fn word(&self, page: u32, field: u32) -> u32
        requires page { page < count self.now }
        requires field { field < 16 }
        ensures { result ≡ word_at self.now page field }
    {
        let place = 16 * page as usize + field as usize;
        self.words[place]
    }

    /// Sets a word of a page's header. Nothing else changes.
    pub fn set_word(&mut self, page: u32, field: u32, value: u32)
        requires page { page < count self.old }
        requires field { field < 16 }
        ensures words { self.new.words ≡ slice_set self.old.words (16 * page + field) value }
        ensures bytes { self.new.bytes ≡ self.old.bytes }
    {
        self.words[16 * page as usize + field as usize] = value;
    }

    /// The payload's byte at a place; none behind the payload.
    pub fn byte(&self, at: u32) -> Option<u8>
        ensures { result ≡ slice_get self.now.bytes at }
    {
        let place = at as usize;
        if place < self.bytes.len() {
            Some(self.bytes[place])
        } else {
            None
        }
    }

    /// Sets the payload's byte at a place; false and nothing changed behind the payload. Nothing else changes.
    pub fn set_byte(&mut self, at: u32, value: u8) -> bool
        ensures says { result ≡ nat_lt at (length self.old.bytes) }
        ensures words { self.new.words ≡ self.old.words }
        ensures bytes { self.new.bytes ≡ slice_set self.old.bytes at value }
    {
        let place = at as usize;
        if place < self.bytes.len() {
            self.bytes[place] = value;
            true
        } else {
            false
        }
    }

    /// The payload's bytes from `range.start` to before `range.end`.
    pub fn slice(&self, range: Range<u32>) -> &[u8]
        requires ordered { range.start ≤ range.end }
        requires within { range.end ≤ length self.now.bytes }
        ensures { result.now ≡ take (range.end - range.start) (drop range.start self.now.bytes) }
    {
        &self.bytes[range.start as usize..range.end as usize]
    }

    /// The same bytes, to be written. Nothing else changes.
    pub fn slice_mut(&mut self, range: Range<u32>) -> &mut [u8]
        requires ordered { range.start ≤ range.end }
        requires within { range.end ≤ length self.old.bytes }
        ensures* lends { sem 𝓛 (LendsBytes self.entry range.start result) }
        ensures value { result.now ≡ take (range.end - range.start) (drop range.start self.old.bytes) }
    {
        self.bytes
            .slice_mut(range.start as usize..range.end as usize)
    }
}
