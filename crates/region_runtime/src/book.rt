// A pool's pages with their header words: each read and each write of a header word is counted.

ghost use Rattle.std.specs.Prelude.{◌≡◌, ◌+◌, ◌-◌, ◌*◌, ◌<◌, ◌≤◌, length, nat_eq, slice_set, true, false, nat_lt, if◌then◌else◌};
ghost use Rattle.raw_pages.specs.Raw.{count};
ghost use Rattle.arena_laws.specs.Counts.{is_full};
ghost use Rattle.arena_laws.specs.Holdings.{arena_base};
ghost use Rattle.arena_laws.specs.Lawful.{takes_blocks};
ghost use Rattle.region_runtime.specs.Headers.{word_in, owner_of, count_of, is_live_number, used_of, tag_in};
ghost use Rattle.region_runtime.specs.Pool.{counts_of, last_of, left_of, changed_words, is_taken_by, standing_by};
ghost use Rattle.region_runtime.specs.Touches.{one_if, reads_number, reads_page};
ghost use Rattle.region_runtime.specs.Steps.{next_page, seen, with_freed, with_taken, with_word, without_page};

use arena_laws::{BASE, PAGE};
use raw_pages::RawPages;

/// The field of the next page on a chain.
pub(crate) const LINK: u32 = 0;

/// The field of a page's owner: a region's number, a mark, or 0. A freed page may keep a stale owner.
pub(crate) const OWNER: u32 = 1;

/// The field of the number of bytes that are used of a page.
pub(crate) const USED: u32 = 2;

/// The field of the page that joined a region last, in the region's first page. The region's chain begins there.
pub(crate) const NEWEST: u32 = 3;

/// The field of the number of a region's pages, in its first page.
pub(crate) const COUNT: u32 = 4;

/// The field of a region's tag, in its first page.
pub(crate) const TAG: u32 = 5;

/// The field of a region's current page, from which blocks are cut, in its first page.
pub(crate) const CURRENT: u32 = 6;

/// The owner of the heap's pages.
pub(crate) const HEAP: u32 = 4097;

/// The owner of pages got by `take_page`.
pub(crate) const TAKEN: u32 = 4098;

/// The pages with their headers, and what is known of them without a look at a header.
#[derive(Drop)]
pub(crate) struct Book {
    pub(crate) raw: RawPages,
    /// The first page of the chain of freed pages.
    pub(crate) first_freed: u32,
    /// The number of freed pages.
    pub(crate) freed: u32,
    /// The number of pages that were ever used. These are the first ones.
    pub(crate) ever_used: u32,
    /// The heap's last page plus 1, or 0.
    pub(crate) heap_last: u32,
    /// The number of header words that the current call has read or written.
    pub(crate) touched: u32,
}

impl Book {
    /// Reads a header word, and counts it.
    pub(crate) fn read(&mut self, page: u32, field: u32) -> u32
        requires page { page < count self.old.raw }
        requires field { field < 16 }
        requires few { self.old.touched < 8192 }
        ensures value { result ≡ word_in self.old.raw.words page field }
        ensures raw { self.new.raw ≡ self.old.raw }
        ensures shape { seen self.new ≡ seen self.old }
        ensures touched { self.new.touched ≡ self.old.touched + 1 }
    {
        self.touched += 1;
        self.raw.word(page, field)
    }

    /// Writes a header word, and counts it.
    pub(crate) fn write(&mut self, page: u32, field: u32, value: u32)
        requires page { page < count self.old.raw }
        requires field { field < 16 }
        requires few { self.old.touched < 8192 }
        ensures words { self.new.raw.words ≡ slice_set self.old.raw.words (16 * page + field) value }
        ensures shape { seen self.new ≡ with_word page field value (seen self.old) }
        ensures bytes { self.new.raw.bytes ≡ self.old.raw.bytes }
        ensures touched { self.new.touched ≡ self.old.touched + 1 }
    {
        self.touched += 1;
        self.raw.set_word(page, field, value);
    }

    /// Begins a call: no header word is counted yet.
    pub(crate) fn begin(&mut self)
        ensures raw { self.new.raw ≡ self.old.raw }
        ensures shape { seen self.new ≡ seen self.old }
        ensures touched { self.new.touched ≡ 0 }
    {
        self.touched = 0;
    }

    /// Whether a number is a live region's.
    pub(crate) fn knows(&mut self, number: u32) -> bool
        requires few { self.old.touched < 60 }
        ensures value { result ≡ is_live_number (owner_of (seen self.old).word) number }
        ensures raw { self.new.raw ≡ self.old.raw }
        ensures shape { seen self.new ≡ seen self.old }
        ensures touched { self.new.touched ≡ self.old.touched + reads_number (count self.old.raw) number }
        ensures live { result ≡ true → self.new.touched ≡ self.old.touched + 1 }
        ensures few { self.new.touched ≤ self.old.touched + 1 }
    {
        if number == 0 {
            return false;
        }
        if number > self.raw.pages() {
            return false;
        }
        self.read(number - 1, OWNER) == number
    }

    /// Whether blocks are taken under a number: the heap's, or a live region's.
    pub(crate) fn serves(&mut self, number: u32) -> bool
        requires few { self.old.touched < 60 }
        ensures value { result ≡ takes_blocks number (standing_by (owner_of (seen self.old).word) number) }
        ensures raw { self.new.raw ≡ self.old.raw }
        ensures shape { seen self.new ≡ seen self.old }
        ensures touched { self.new.touched ≡ self.old.touched + reads_number (count self.old.raw) number }
        ensures few { self.new.touched ≤ self.old.touched + 1 }
    {
        if number == 0 {
            return true;
        }
        self.knows(number)
    }

    /// Whether no page is free.
    pub(crate) fn is_full(&self) -> bool
        requires { self.now.ever_used ≤ count self.now.raw }
        ensures { result ≡ is_full (counts_of (seen self.now)) }
    {
        self.freed == 0 && self.ever_used == self.raw.pages()
    }

    /// Takes a free page: the first freed one, or else the first one that was never used.
    #[tactic(auto, unfolding(crate::specs::Steps::without_page))]
    pub(crate) fn take(&mut self) -> u32
        requires page { next_page (seen self.old) < count self.old.raw }
        requires small { count self.old.raw ≤ 4096 }
        requires few { self.old.touched < 60 }
        ensures page { result ≡ next_page (seen self.old) }
        ensures raw { self.new.raw ≡ self.old.raw }
        ensures shape { seen self.new ≡ without_page (seen self.old) }
        ensures touched { self.new.touched ≡ self.old.touched + one_if (nat_lt 0 self.old.freed) }
        ensures few { self.new.touched ≤ self.old.touched + 1 }
    {
        if self.freed > 0 {
            let page = self.first_freed;
            self.first_freed = self.read(page, LINK);
            self.freed -= 1;
            page
        } else {
            let page = self.ever_used;
            self.ever_used += 1;
            page
        }
    }

    /// The last page of the heap, or the current page of a live region, plus 1; 0 where there is none.
    pub(crate) fn last(&mut self, number: u32) -> u32
        requires live { 0 < number → is_live_number (owner_of (seen self.old).word) number ≡ true }
        requires first { 0 < number → number - 1 < count self.old.raw }
        requires page { last_of (seen self.old) number ≤ count self.old.raw }
        requires small { count self.old.raw ≤ 4096 }
        requires few { self.old.touched < 60 }
        ensures value { result ≡ last_of (seen self.old) number }
        ensures raw { self.new.raw ≡ self.old.raw }
        ensures shape { seen self.new ≡ seen self.old }
        ensures touched { self.new.touched ≡ self.old.touched + (if nat_eq number 0 then 0 else 1) }
    {
        if number == 0 {
            self.heap_last
        } else {
            self.read(number - 1, CURRENT) + 1
        }
    }

    /// The number of bytes that are free in a last page, which is given by its number plus 1.
    pub(crate) fn left(&mut self, last: u32) -> u32
        requires page { last ≤ count self.old.raw }
        requires within { used_of (seen self.old).word (last - 1) ≤ 4096 }
        requires few { self.old.touched < 60 }
        ensures value { result ≡ left_of (used_of (seen self.old).word) last }
        ensures raw { self.new.raw ≡ self.old.raw }
        ensures shape { seen self.new ≡ seen self.old }
        ensures touched { self.new.touched ≡ self.old.touched + (if nat_eq last 0 then 0 else 1) }
    {
        if last == 0 {
            0
        } else {
            PAGE - self.read(last - 1, USED)
        }
    }

    /// Cuts a block of `room` bytes from a last page, and returns its address.
    pub(crate) fn cut(&mut self, page: u32, room: u32) -> u32
        requires page { page < count self.old.raw }
        requires small { count self.old.raw ≤ 4096 }
        requires within { used_of (seen self.old).word page + room ≤ 4096 }
        requires few { self.old.touched < 60 }
        ensures value { result ≡ arena_base + 4096 * page + used_of (seen self.old).word page }
        ensures shape { seen self.new ≡ with_word page 2 (used_of (seen self.old).word page + room) (seen self.old) }
        ensures long { length self.new.raw.words ≡ length self.old.raw.words }
        ensures bytes { self.new.raw.bytes ≡ self.old.raw.bytes }
        ensures touched { self.new.touched ≡ self.old.touched + 2 }
    {
        let used = self.read(page, USED);
        self.write(page, USED, used + room);
        BASE + PAGE * page + used
    }

    /// The number of pages that were never used.
    pub(crate) fn unused(&self) -> u32
        requires { self.now.ever_used ≤ count self.now.raw }
        ensures { result ≡ (counts_of (seen self.now)).fresh }
    {
        self.raw.pages() - self.ever_used
    }

    /// Frees a live region: its chain goes in front of the chain of freed pages, and its number is live no more.
    pub(crate) fn splice(&mut self, number: u32)
        requires some { 0 < number }
        requires first { number - 1 < count self.old.raw }
        requires small { count_of (seen self.old).word number + self.old.freed ≤ 4096 }
        requires few { self.old.touched < 50 }
        ensures shape { seen self.new ≡ with_freed number (seen self.old) }
        ensures long { length self.new.raw.words ≡ length self.old.raw.words }
        ensures bytes { self.new.raw.bytes ≡ self.old.raw.bytes }
        ensures changed { changed_words self.old.raw.words self.new.raw.words ≤ 2 }
        ensures touched { self.new.touched ≡ self.old.touched + 4 }
    {
        let newest = self.read(number - 1, NEWEST);
        let pages = self.read(number - 1, COUNT);
        self.write(number - 1, LINK, self.first_freed);
        self.write(number - 1, OWNER, 0);
        self.first_freed = newest;
        self.freed = pages + self.freed;
    }

    /// Marks a page as got by `take_page`.
    pub(crate) fn mark_taken(&mut self, page: u32)
        requires page { page < count self.old.raw }
        requires few { self.old.touched < 60 }
        ensures shape { seen self.new ≡ with_taken page (seen self.old) }
        ensures long { length self.new.raw.words ≡ length self.old.raw.words }
        ensures bytes { self.new.raw.bytes ≡ self.old.raw.bytes }
        ensures touched { self.new.touched ≡ self.old.touched + 1 }
    {
        self.write(page, OWNER, TAKEN);
    }

    /// A live region's tag.
    pub(crate) fn tag(&mut self, number: u32) -> u32
        requires some { 0 < number }
        requires first { number - 1 < count self.old.raw }
        requires few { self.old.touched < 60 }
        ensures value { result ≡ tag_in (seen self.old).word number }
        ensures raw { self.new.raw ≡ self.old.raw }
        ensures shape { seen self.new ≡ seen self.old }
        ensures touched { self.new.touched ≡ self.old.touched + 1 }
    {
        self.read(number - 1, TAG)
    }

    /// Sets a live region's tag.
    pub(crate) fn set_tag(&mut self, number: u32, value: u32)
        requires some { 0 < number }
        requires first { number - 1 < count self.old.raw }
        requires few { self.old.touched < 60 }
        ensures shape { seen self.new ≡ with_word (number - 1) 5 value (seen self.old) }
        ensures long { length self.new.raw.words ≡ length self.old.raw.words }
        ensures bytes { self.new.raw.bytes ≡ self.old.raw.bytes }
        ensures touched { self.new.touched ≡ self.old.touched + 1 }
    {
        self.write(number - 1, TAG, value);
    }

    /// Whether a page was got by `take_page`.
    pub(crate) fn is_taken(&mut self, page: u32) -> bool
        requires few { self.old.touched < 60 }
        ensures value { result ≡ is_taken_by (seen self.old).word page }
        ensures raw { self.new.raw ≡ self.old.raw }
        ensures shape { seen self.new ≡ seen self.old }
        ensures touched { self.new.touched ≡ self.old.touched + reads_page (count self.old.raw) page }
        ensures taken { result ≡ true → self.new.touched ≡ self.old.touched + 1 }
        ensures few { self.new.touched ≤ self.old.touched + 1 }
    {
        if page >= self.raw.pages() {
            return false;
        }
        self.read(page, OWNER) == TAKEN
    }

    /// Sets a header word of a taken page.
    pub(crate) fn set_own_word(&mut self, page: u32, field: u32, value: u32)
        requires page { page < count self.old.raw }
        requires field { field < 16 }
        requires few { self.old.touched < 60 }
        ensures shape { seen self.new ≡ with_word page field value (seen self.old) }
        ensures long { length self.new.raw.words ≡ length self.old.raw.words }
        ensures bytes { self.new.raw.bytes ≡ self.old.raw.bytes }
        ensures touched { self.new.touched ≡ self.old.touched + 1 }
    {
        self.write(page, field, value);
    }
}
