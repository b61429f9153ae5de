// The pages of the arena that a run has taken, derived from its requests.

use arena_laws::{BASE, PAGE};
use rv32_machine::{KEY_FREE, KEY_NEW, REGION_ALLOC, REGION_FREE, REGION_NEW, UNIQUE_ALLOC};
use std::alloc::{AllocError, Global};

/// The greatest number of pages of an arena.
const MOST_PAGES: u32 = 4096;

/// The owner of a page.
#[derive(Clone, Copy)]
enum Owner {
    /// The page is free.
    Nobody,
    /// The region or key with this number, or the heap (0).
    Region(u32),
    /// The page is cut into slots of unique blocks.
    Slots,
}

/// The owners of an arena's pages, how many pages are taken, the most that were taken at once, and how many were ever taken, which are the first ones. A
/// region's or key's number is its first page plus 1.
#[derive(Drop)]
pub struct Pages {
    owners: Vec<Owner>,
    taken: u32,
    most: u32,
    used: u32,
}

impl Pages {
    /// No pages: nothing is recorded.
    pub fn none(alloc: Global) -> Pages {
        Pages {
            owners: Vec::new(alloc),
            taken: 0,
            most: 0,
            used: 0,
        }
    }

    /// The pages of an arena, all free.
    pub fn new(alloc: Global) -> Result<Pages, AllocError> {
        Ok(Pages {
            owners: vec![in alloc; Owner::Nobody; MOST_PAGES as usize]?,
            taken: 0,
            most: 0,
            used: 0,
        })
    }

    /// How many pages are taken.
    pub fn taken(&self) -> u32 {
        self.taken
    }

    /// How many pages were ever taken.
    pub fn used(&self) -> u32 {
        self.used
    }

    /// The most pages that were taken at once.
    pub fn most(&self) -> u32 {
        self.most
    }

    /// Records a request that was granted: its number, its arguments, and its result.
    pub fn grant(&mut self, number: u32, arguments: (u32, u32), answer: u32) {
        let (first, second) = arguments;
        match number {
            REGION_NEW | KEY_NEW => self.take(answer.wrapping_sub(1), Owner::Region(answer)),
            REGION_ALLOC => self.take_run(answer, second, Owner::Region(first)),
            UNIQUE_ALLOC => self.take_run(answer, first, Owner::Slots),
            REGION_FREE | KEY_FREE => self.release(first),
            _ => {}
        }
    }

    /// Takes the pages of the block of `bytes` bytes at an address.
    fn take_run(&mut self, address: u32, bytes: u32, owner: Owner) {
        let start = address.wrapping_sub(BASE);
        let last = start.saturating_add(bytes.saturating_sub(1)) / PAGE;
        for page in start / PAGE..=last.min(MOST_PAGES) {
            self.take(page, owner);
        }
    }

    /// Takes a page, if it isn't taken.
    fn take(&mut self, page: u32, owner: Owner) {
        if let Some(old) = self.owners.get_mut(page as usize) {
            let was_free = matches!(*old, Owner::Nobody);
            *old = owner;
            if was_free {
                self.used = self.used.max(page.saturating_add(1));
                self.taken = self.taken.saturating_add(1);
                self.most = self.most.max(self.taken);
            }
        }
    }

    /// Frees the pages of a region or key.
    fn release(&mut self, number: u32) {
        for page in 0..self.owners.len() {
            self.free(page, number);
        }
    }

    /// Frees a page, if it is this region's or key's.
    fn free(&mut self, page: usize, number: u32) {
        if let Some(owner) = self.owners.get_mut(page) {
            if matches!(*owner, Owner::Region(of) if of == number) {
                *owner = Owner::Nobody;
                self.taken = self.taken.saturating_sub(1);
            }
        }
    }
}
