// Unique blocks beside the regions.

ghost use Rattle.std.specs.Prelude.{◌≡◌, false, is_ok, ◌&&◌};
ghost use Rattle.arena_laws.specs.Counts.{class_of, is_full_for_slot, slot_needs_page};
ghost use Rattle.arena_laws.specs.Lawful.{unique_free};
ghost use Rattle.arena_laws.specs.Laws.{Does, answer_of, is_refused_full, unique_alloc};
ghost use Rattle.region_runtime.specs.Touches.{Touched, reads_link, used_after};
ghost use Rattle.dynamic_region.specs.Keyed.{held_by};
ghost use Rattle.unique_blocks.specs.Calls.{said_block, said_freed, slot_least};

use crate::keys::Keys;
use crate::regions::Regions;
use unique_blocks::UniqueRefusal;

/// Regions with unique blocks beside them, whose pages and addresses are theirs alone.
pub trait Blocks: Regions {
    /// A unique block of `bytes` bytes: its address, a multiple of 8. The room is the smallest class
    /// that holds it. Full above 4,096 bytes, or where no page of that class has a free slot and no
    /// page is free.
    fn unique_alloc(&mut self, bytes: u32) -> Result<u32, UniqueRefusal>
        ensures does { Does (said_block result) (Self.holdings self.new) (unique_alloc bytes (answer_of (said_block result)) (Self.holdings self.old)) }
        ensures full { is_refused_full (said_block result) ≡ is_full_for_slot bytes (Self.holdings self.old).counts }
        ensures tags { Self.tag_of self.new ≡ Self.tag_of self.old }
        ensures bytes { Self.byte_at self.new ≡ Self.byte_at self.old }
        ensures fresh { let needs = slot_needs_page (class_of bytes) (Self.holdings self.old).counts in
            Self.ever_used self.new ≡ used_after (is_ok result && needs) (Self.holdings self.old) (Self.ever_used self.old) }
        ensures touched { let needs = slot_needs_page (class_of bytes) (Self.holdings self.old).counts in
            let link = reads_link (Self.holdings self.old) in
            Touched (is_ok result) (slot_least needs link) 8 0 (Self.touches self.new) }
        ensures unchanged { is_ok result ≡ false → Self.headers self.new ≡ Self.headers self.old };

    /// Frees the unique block that begins at an address; its page stays with its class. NotABlock
    /// where no live unique block begins there.
    fn unique_free(&mut self, at: u32) -> Result<(), UniqueRefusal>
        ensures does { Does (said_freed result) (Self.holdings self.new) (unique_free at (Self.holdings self.old)) }
        ensures tags { Self.tag_of self.new ≡ Self.tag_of self.old }
        ensures bytes { Self.byte_at self.new ≡ Self.byte_at self.old }
        ensures touched { Touched (is_ok result) 12 2 4 (Self.touches self.new) }
        ensures fresh { Self.ever_used self.new ≡ Self.ever_used self.old }
        ensures unchanged { is_ok result ≡ false → Self.headers self.new ≡ Self.headers self.old };
}

impl<R: Blocks> Keys<R> {
    /// A unique block of `bytes` bytes: its address, a multiple of 8. The room is the smallest class
    /// that holds it. Full above 4,096 bytes, or where no page of that class has a free slot and no
    /// page is free.
    pub fn unique_alloc(&mut self, bytes: u32) -> Result<u32, UniqueRefusal>
        ensures does { let held = held_by R.holdings R.tag_of in
            Does (said_block result) (held self.new.regions) (unique_alloc bytes (answer_of (said_block result)) (held self.old.regions)) }
        ensures full { is_refused_full (said_block result) ≡ is_full_for_slot bytes (R.holdings self.old.regions).counts }
        ensures bytes { R.byte_at self.new.regions ≡ R.byte_at self.old.regions }
        ensures fresh { let needs = slot_needs_page (class_of bytes) (R.holdings self.old.regions).counts in
            R.ever_used self.new.regions ≡ used_after (is_ok result && needs) (R.holdings self.old.regions) (R.ever_used self.old.regions) }
        ensures touched { let needs = slot_needs_page (class_of bytes) (R.holdings self.old.regions).counts in
            let link = reads_link (R.holdings self.old.regions) in
            Touched (is_ok result) (slot_least needs link) 8 0 self.new.touched }
        ensures unchanged { is_ok result ≡ false → R.headers self.new.regions ≡ R.headers self.old.regions }
    {
        let given = self.regions.unique_alloc(bytes);
        self.touched = u64::from(self.regions.touched());
        given
    }

    /// Frees the unique block that begins at an address; its page stays with its class. NotABlock
    /// where no live unique block begins there.
    pub fn unique_free(&mut self, at: u32) -> Result<(), UniqueRefusal>
        ensures does { let held = held_by R.holdings R.tag_of in
            Does (said_freed result) (held self.new.regions) (unique_free at (held self.old.regions)) }
        ensures bytes { R.byte_at self.new.regions ≡ R.byte_at self.old.regions }
        ensures touched { Touched (is_ok result) 12 2 4 self.new.touched }
        ensures fresh { R.ever_used self.new.regions ≡ R.ever_used self.old.regions }
        ensures unchanged { is_ok result ≡ false → R.headers self.new.regions ≡ R.headers self.old.regions }
    {
        let freed = self.regions.unique_free(at);
        self.touched = u64::from(self.regions.touched());
        freed
    }
}
