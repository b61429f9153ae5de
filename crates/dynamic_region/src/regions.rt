// What keys are made over.

ghost use Rattle.std.specs.Prelude.{◌≡◌, ◌+◌, ◌-◌, ◌≤◌, ℕ, List, Option, false, is_ok, ◌&&◌, if◌then◌else◌};
ghost use Rattle.arena_laws.specs.Counts.{free_pages, is_full, room_of};
ghost use Rattle.arena_laws.specs.Holdings.{Holdings, is_in_arena, is_live_in, is_none, is_some};
ghost use Rattle.arena_laws.specs.Lawful.{region_free};
ghost use Rattle.arena_laws.specs.Laws.{Does, answer_of, is_block_refused, is_refused_full, loaded, region_alloc, region_new, stored};
ghost use Rattle.region_runtime.specs.Calls.{said_address, said_done, said_handle, tags_set, tags_with, tags_without};
ghost use Rattle.region_runtime.specs.Pool.{byte_at, changed_words, held, tag_of};
ghost use Rattle.region_runtime.specs.Headers.{AreBlank, word_in};
ghost use Rattle.region_runtime.specs.Touches.{Touched, alloc_least, reads_link, touches_for, used_after, used_with_block};
ghost use Rattle.dynamic_region.specs.Keyed.{AreTagged};
ghost use Rattle.dynamic_region.specs.Tagged.{pool_tagged};

use region_runtime::{Handle, Pool, Refusal};

/// Lexical regions over an arena, each with a tag: `Pool`, or a layer on it. `holdings` is what they
/// hold, by the laws of every store; `tag_of` the tag of each live region but the heap, `byte_at` the
/// byte at each address, `headers` the words of all headers, `ever_used` how many pages were ever
/// used, and `touches` how many header words the last call with `&mut self` read or wrote, over all
/// calls that it made of a layer below.
pub trait Regions {
    ghost holdings: { Self → Holdings };

    ghost tag_of: { Self → ℕ → Option ℕ };

    ghost byte_at: { Self → ℕ → ℕ };

    ghost headers: { Self → List ℕ };

    ghost ever_used: { Self → ℕ };

    ghost touches: { Self → ℕ };

    /// Makes a region, which takes a page at once: its handle, from 1 up, differs from each live
    /// one. Its tag is 0. None where no page is free.
    fn region_new(&mut self) -> Option<Handle>
        ensures does { Does (said_handle result) (holdings self.new) (region_new (answer_of (said_handle result)) (holdings self.old)) }
        ensures full { is_none result ≡ is_full (holdings self.old).counts }
        ensures tags { tag_of self.new ≡ tags_with result (tag_of self.old) }
        ensures bytes { byte_at self.new ≡ byte_at self.old }
        ensures fresh { ever_used self.new ≡ used_after (is_some result) (holdings self.old) (ever_used self.old) }
        ensures touched { touches self.new ≡ (if is_some result then 6 + reads_link (holdings self.old) else 0) }
        ensures unchanged { is_some result ≡ false → headers self.new ≡ headers self.old };

    /// A block of `bytes` bytes in a live region, or in the heap (0): its address, a multiple of 8.
    /// BadHandle where the handle is of no live region; Full above 1,048,576 bytes, or where a page or
    /// a run of pages is needed and there is none.
    fn region_alloc(&mut self, handle: Handle, bytes: u32) -> Result<u32, Refusal>
        ensures does { Does (said_address result) (holdings self.new) (region_alloc handle.0 bytes (answer_of (said_address result)) (holdings self.old)) }
        ensures full { is_refused_full (said_address result) ≡ is_block_refused handle.0 bytes (holdings self.old) }
        ensures tags { tag_of self.new ≡ tag_of self.old }
        ensures bytes { byte_at self.new ≡ byte_at self.old }
        ensures fresh { ever_used self.new ≡ (if is_ok result then used_with_block handle.0 (room_of bytes) (holdings self.old) (ever_used self.old) else ever_used self.old) }
        ensures touched { Touched (is_ok result) (alloc_least handle.0 (room_of bytes) (holdings self.old)) 1 3 (touches self.new) }
        ensures unchanged { is_ok result ≡ false → headers self.new ≡ headers self.old };

    /// Frees a region: its blocks and all its pages. BadHandle where the handle is of no live region
    /// (the heap's too). At most 8 header words change, and at most 5 are touched.
    fn region_free(&mut self, handle: Handle) -> Result<(), Refusal>
        ensures does { Does (said_done result) (holdings self.new) (region_free handle.0 (holdings self.old)) }
        ensures tags { tag_of self.new ≡ tags_without handle.0 result (tag_of self.old) }
        ensures bytes { byte_at self.new ≡ byte_at self.old }
        ensures few { changed_words (headers self.old) (headers self.new) ≤ 8 }
        ensures touched { touches self.new ≤ 5 }
        ensures counted { changed_words (headers self.old) (headers self.new) ≤ touches self.new }
        ensures sums { touches self.new ≡ touches_for (is_some (tag_of self.old handle.0)) 5 (holdings self.old).pages handle.0 }
        ensures fresh { ever_used self.new ≡ ever_used self.old }
        ensures unchanged { is_ok result ≡ false → headers self.new ≡ headers self.old };

    /// The tag of a live region; none for another handle, and for the heap's. At most 2 header words
    /// are touched.
    fn tag(&mut self, handle: Handle) -> Option<u32>
        ensures tag { result ≡ tag_of self.old handle.0 }
        ensures holds { holdings self.new ≡ holdings self.old }
        ensures tags { tag_of self.new ≡ tag_of self.old }
        ensures bytes { byte_at self.new ≡ byte_at self.old }
        ensures same { headers self.new ≡ headers self.old }
        ensures touched { touches self.new ≤ 2 }
        ensures sums { touches self.new ≡ touches_for (is_some (tag_of self.old handle.0)) 2 (holdings self.old).pages handle.0 }
        ensures fresh { ever_used self.new ≡ ever_used self.old };

    /// Sets the tag of a live region; false and nothing changed for another handle, and for the
    /// heap's.
    fn set_tag(&mut self, handle: Handle, value: u32) -> bool
        ensures says { result ≡ is_some (tag_of self.old handle.0) }
        ensures tags { tag_of self.new ≡ tags_set handle.0 value (tag_of self.old) }
        ensures holds { holdings self.new ≡ holdings self.old }
        ensures bytes { byte_at self.new ≡ byte_at self.old }
        ensures touched { touches self.new ≡ touches_for (is_some (tag_of self.old handle.0)) 2 (holdings self.old).pages handle.0 }
        ensures fresh { ever_used self.new ≡ ever_used self.old }
        ensures unchanged { result ≡ false → headers self.new ≡ headers self.old };

    /// How many pages are free.
    fn free_pages(&self) -> u32
        ensures { result ≡ free_pages (holdings self.now).counts };

    /// How many pages were never used. They are free, they come last, and their header words are 0.
    /// A page that is taken is one of them only where no freed one is there.
    fn fresh_pages(&self) -> u32
        ensures fresh { result ≡ (holdings self.now).pages - ever_used self.now }
        ensures count { result ≡ (holdings self.now).counts.fresh }
        ensures unused { AreBlank (ever_used self.now) (word_in (headers self.now)) };

    /// How many header words the last call with `&mut self` read or wrote.
    fn touched(&self) -> u32
        ensures { result ≡ touches self.now };

    /// How many pages there are.
    fn pages(&self) -> u32
        ensures count { result ≡ (holdings self.now).pages }
        ensures few { result ≤ 4096 };

    /// Whether an address lies in the room of a live block.
    fn is_live(&self, at: u32) -> bool
        ensures { result ≡ is_live_in (holdings self.now) at };

    /// The byte at an address; none outside the arena.
    fn load8(&self, at: u32) -> Option<u8>
        ensures { result ≡ loaded at (holdings self.now) (byte_at self.now) };

    /// Stores a byte; false and nothing changed outside the arena.
    fn store8(&mut self, at: u32, byte: u8) -> bool
        ensures says { result ≡ is_in_arena (holdings self.old) at }
        ensures bytes { byte_at self.new ≡ stored at byte (holdings self.old) (byte_at self.old) }
        ensures holds { holdings self.new ≡ holdings self.old }
        ensures tags { tag_of self.new ≡ tag_of self.old }
        ensures same { headers self.new ≡ headers self.old }
        ensures touched { touches self.new ≡ 0 }
        ensures fresh { ever_used self.new ≡ ever_used self.old };

    ghost tagged: { (x : Self) → AreTagged (holdings x) (tag_of x) };
}

impl Regions for Pool {
    ghost holdings = { held };

    ghost tag_of = { tag_of };

    ghost byte_at = { byte_at };

    ghost headers = { λ p. p.words };

    ghost ever_used = { λ p. p.ever_used };

    ghost touches = { λ p. p.touched };

    ghost tagged = { pool_tagged };

    fn region_new(&mut self) -> Option<Handle> {
        Pool::region_new(self)
    }

    fn region_alloc(&mut self, handle: Handle, bytes: u32) -> Result<u32, Refusal> {
        Pool::region_alloc(self, handle, bytes)
    }

    fn region_free(&mut self, handle: Handle) -> Result<(), Refusal> {
        Pool::region_free(self, handle)
    }

    fn tag(&mut self, handle: Handle) -> Option<u32> {
        Pool::tag(self, handle)
    }

    fn set_tag(&mut self, handle: Handle, value: u32) -> bool {
        Pool::set_tag(self, handle, value)
    }

    fn free_pages(&self) -> u32 {
        Pool::free_pages(self)
    }

    fn fresh_pages(&self) -> u32 {
        Pool::fresh_pages(self)
    }

    fn touched(&self) -> u32 {
        Pool::touched(self)
    }

    fn pages(&self) -> u32 {
        Pool::pages(self)
    }

    fn is_live(&self, at: u32) -> bool {
        Pool::is_live(self, at)
    }

    fn load8(&self, at: u32) -> Option<u8> {
        Pool::load8(self, at)
    }

    fn store8(&mut self, at: u32, byte: u8) -> bool {
        Pool::store8(self, at, byte)
    }
}
