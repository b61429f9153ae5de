// Pages that join the heap or a live region, each with a block.

ghost use Rattle.std.specs.Prelude.{◌≡◌, ◌+◌, ◌-◌, ◌*◌, ◌%◌, ◌<◌, ◌≤◌, length, nat_eq, true, false, if◌then◌else◌};
ghost use Rattle.raw_pages.specs.Raw.{count};
ghost use Rattle.arena_laws.specs.Counts.{block_limit, run_of};
ghost use Rattle.arena_laws.specs.Holdings.{arena_base};
ghost use Rattle.region_runtime.specs.Headers.{owner_of, count_of, is_live_number};
ghost use Rattle.region_runtime.specs.Touches.{run_words};
ghost use Rattle.region_runtime.specs.Steps.{seen, with_first, with_heap_joined, with_heap_page, with_joined, with_more, with_newest, with_page, without_fresh};
ghost use Rattle.region_runtime.specs.Runs.{IsRun};
ghost use Rattle.region_runtime.specs.Sound.{IsOrdered, no_page};

use crate::book::{Book, COUNT, CURRENT, HEAP, LINK, NEWEST, OWNER, TAG, USED};
use arena_laws::PAGE;

impl Book {
    /// Makes a page the first page of a new region, whose number is the page's plus 1. It has no block yet.
    pub(crate) fn start(&mut self, page: u32)
        requires page { page < count self.old.raw }
        requires small { page < 4096 }
        requires few { self.old.touched < 50 }
        ensures shape { seen self.new ≡ with_first page (seen self.old) }
        ensures long { length self.new.raw.words ≡ length self.old.raw.words }
        ensures bytes { self.new.raw.bytes ≡ self.old.raw.bytes }
        ensures touched { self.new.touched ≡ self.old.touched + 6 }
    {
        self.write(page, OWNER, page + 1);
        self.write(page, USED, 0);
        self.write(page, NEWEST, page);
        self.write(page, COUNT, 1);
        self.write(page, TAG, 0);
        self.write(page, CURRENT, page);
    }

    /// Adds a page to the heap, with a block of `room` bytes.
    fn join_heap(&mut self, page: u32, room: u32)
        requires page { page < count self.old.raw }
        requires few { self.old.touched < 8000 }
        ensures shape { seen self.new ≡ with_heap_joined page room (seen self.old) }
        ensures long { length self.new.raw.words ≡ length self.old.raw.words }
        ensures bytes { self.new.raw.bytes ≡ self.old.raw.bytes }
        ensures touched { self.new.touched ≡ self.old.touched + 2 }
    {
        self.write(page, USED, room);
        self.write(page, OWNER, HEAP);
    }

    /// Adds a page to a live region, with a block of `room` bytes, and links it as the newest.
    fn join_region(&mut self, number: u32, page: u32, room: u32)
        requires page { page < count self.old.raw }
        requires some { 0 < number }
        requires first { number - 1 < count self.old.raw }
        requires other { nat_eq page (number - 1) ≡ false }
        requires small { count_of (seen self.old).word number ≤ 4096 }
        requires few { self.old.touched < 8000 }
        ensures shape { seen self.new ≡ with_joined number page room (seen self.old) }
        ensures long { length self.new.raw.words ≡ length self.old.raw.words }
        ensures bytes { self.new.raw.bytes ≡ self.old.raw.bytes }
        ensures touched { self.new.touched ≡ self.old.touched + 7 }
    {
        let newest = self.read(number - 1, NEWEST);
        let pages = self.read(number - 1, COUNT);
        self.write(page, USED, room);
        self.write(page, OWNER, number);
        self.write(page, LINK, newest);
        self.write(number - 1, NEWEST, page);
        self.write(number - 1, COUNT, pages + 1);
    }

    /// Adds a page to the heap (number 0) or to a live region, with a block of `room` bytes.
    fn join(&mut self, number: u32, page: u32, room: u32)
        requires page { page < count self.old.raw }
        requires first { 0 < number → number - 1 < count self.old.raw }
        requires other { 0 < number → nat_eq page (number - 1) ≡ false }
        requires few { 0 < number → count_of (seen self.old).word number ≤ 4096 }
        requires touches { self.old.touched < 8000 }
        ensures shape { seen self.new ≡ with_more number page room (seen self.old) }
        ensures long { length self.new.raw.words ≡ length self.old.raw.words }
        ensures bytes { self.new.raw.bytes ≡ self.old.raw.bytes }
        ensures touched { self.new.touched ≡ self.old.touched + (if nat_eq number 0 then 2 else 7) }
    {
        if number == 0 {
            self.join_heap(page, room);
        } else {
            self.join_region(number, page, room);
        }
    }

    /// Adds the first page that was never used to the heap or to a live region, with a block of `room` bytes.
    fn extend(&mut self, number: u32, room: u32)
        requires page { self.old.ever_used < count self.old.raw }
        requires small { count self.old.raw ≤ 4096 }
        requires first { 0 < number → number - 1 < count self.old.raw }
        requires other { 0 < number → nat_eq self.old.ever_used (number - 1) ≡ false }
        requires few { 0 < number → count_of (seen self.old).word number ≤ 4096 }
        requires touches { self.old.touched < 8000 }
        ensures shape { seen self.new ≡ with_more number self.old.ever_used room (without_fresh (seen self.old)) }
        ensures long { length self.new.raw.words ≡ length self.old.raw.words }
        ensures bytes { self.new.raw.bytes ≡ self.old.raw.bytes }
        ensures touched { self.new.touched ≡ self.old.touched + (if nat_eq number 0 then 2 else 7) }
    {
        let page = self.ever_used;
        self.ever_used += 1;
        self.join(number, page, room);
    }

    /// Adds a run of pages that were never used to the heap or to a live region: one block of `room` bytes lies in them.
    pub(crate) fn run(&mut self, number: u32, room: u32)
        requires ordered { IsOrdered (seen self.old) no_page }
        requires live { 0 < number → is_live_number (owner_of (seen self.old).word) number ≡ true }
        requires eights { room % 8 ≡ 0 }
        requires some { 0 < room }
        requires limit { room ≤ block_limit }
        requires pages { self.old.ever_used + run_of room ≤ count self.old.raw }
        requires few { self.old.touched < 60 }
        ensures run { IsRun (seen self.old) (seen self.new) number (arena_base + 4096 * self.old.ever_used) room (run_of room) }
        ensures long { length self.new.raw.words ≡ length self.old.raw.words }
        ensures bytes { self.new.raw.bytes ≡ self.old.raw.bytes }
        ensures touched { self.new.touched ≡ self.old.touched + run_words number (run_of room) }
    {
        let mut left = room;
        'pages: while left > PAGE {
            self.extend(number, PAGE);
            left -= PAGE;
        }
        self.extend(number, left);
    }

    /// Adds a page to the heap and makes it the heap's last, from which the next blocks are cut.
    fn grow_heap(&mut self, page: u32, room: u32)
        requires page { page < count self.old.raw }
        requires small { count self.old.raw ≤ 4096 }
        requires few { self.old.touched < 50 }
        ensures shape { seen self.new ≡ with_heap_page page room (seen self.old) }
        ensures long { length self.new.raw.words ≡ length self.old.raw.words }
        ensures bytes { self.new.raw.bytes ≡ self.old.raw.bytes }
        ensures touched { self.new.touched ≡ self.old.touched + 2 }
    {
        self.join_heap(page, room);
        self.heap_last = page + 1;
    }

    /// Adds a page to a live region and makes it the region's current one, from which the next blocks are cut.
    fn grow_region(&mut self, number: u32, page: u32, room: u32)
        requires page { page < count self.old.raw }
        requires some { 0 < number }
        requires first { number - 1 < count self.old.raw }
        requires other { nat_eq page (number - 1) ≡ false }
        requires small { count_of (seen self.old).word number ≤ 4096 }
        requires few { self.old.touched < 50 }
        ensures shape { seen self.new ≡ with_newest number page room (seen self.old) }
        ensures long { length self.new.raw.words ≡ length self.old.raw.words }
        ensures bytes { self.new.raw.bytes ≡ self.old.raw.bytes }
        ensures touched { self.new.touched ≡ self.old.touched + 8 }
    {
        self.join_region(number, page, room);
        self.write(number - 1, CURRENT, page);
    }

    /// Adds a page to the heap or to a live region, with a block of `room` bytes; the next blocks are cut from it.
    pub(crate) fn grow(&mut self, number: u32, page: u32, room: u32)
        requires page { page < count self.old.raw }
        requires first { 0 < number → number - 1 < count self.old.raw }
        requires other { 0 < number → nat_eq page (number - 1) ≡ false }
        requires small { count self.old.raw ≤ 4096 }
        requires few { 0 < number → count_of (seen self.old).word number ≤ 4096 }
        requires touches { self.old.touched < 50 }
        ensures shape { seen self.new ≡ with_page number page room (seen self.old) }
        ensures long { length self.new.raw.words ≡ length self.old.raw.words }
        ensures bytes { self.new.raw.bytes ≡ self.old.raw.bytes }
        ensures touched { self.new.touched ≡ self.old.touched + (if nat_eq number 0 then 2 else 8) }
    {
        if number == 0 {
            self.grow_heap(page, room);
        } else {
            self.grow_region(number, page, room);
        }
    }
}
