// Regions in what is stored: how they are born, become others and are freed, and get blocks.

ghost use Rattle.std.specs.Prelude.{◌≡◌, ◌∷◌, ◌++◌, suc, [], Some, None, false, if◌then◌else◌, map, length, option_map, IfOk, OnOk};
ghost use Rattle.core_eval.specs.Elements.{cells_of};
ghost use Rattle.core_eval.specs.Regions.{live_at, regions_of, single_freed, turned, turned_region};
ghost use Rattle.core_eval.specs.Blocks.{grown, next_place, stored_of};

use crate::kept::{kept_of_block, kept_of_objects};
use crate::long_block::keep_block;
use crate::memory::Memory;
use crate::region::{Region, Standing, push_block};
use crate::value::{Area, Object, Place};
use cyc_core::Layout;
use std::alloc::{AllocError, Global};
use std::rc::Rc;

impl Memory {
    /// A region is born with these blocks: how many were born before it. Fails only where no host memory is left, or 2^64 - 1 regions were born.
    pub fn make_region(
        &mut self,
        alloc: Global,
        standing: Standing,
        objects: Vec<Object>,
    ) -> Result<u64, AllocError>
        ensures birth { IfOk result (λ birth. birth ≡ suc (length (regions_of self.old.regions))) }
        ensures regions { OnOk result (regions_of self.new.regions
            ≡ regions_of self.old.regions ++ Some (record { standing = standing; objects = map cells_of objects.items }) ∷ []) }
        ensures blocks { OnOk result (self.new.blocks ≡ self.old.blocks) }
        ensures entered { OnOk result (self.new.entered ≡ self.old.entered) }
        ensures owns { OnOk result (self.new.owns ≡ self.old.owns) }
        ensures called { OnOk result (self.new.called ≡ self.old.called) }
        ensures globals { OnOk result (self.new.globals ≡ self.old.globals) }
        ensures long_blocks { OnOk result (self.new.long_blocks ≡ self.old.long_blocks) }
    {
        let bytes = kept_of_objects(&objects);
        let birth = self.regions.push(alloc, Region::Held(standing, objects))?;
        self.spare.count(bytes);
        Ok(birth)
    }

    /// The region with this number becomes another one, or is freed, if it is what it has to be, and answers whether it is.
    fn turn_counted(&mut self, number: u64, from: Standing, to: Option<Standing>) -> bool
        ensures regions { turned_region (regions_of self.old.regions) number from to
            ≡ (if result then Some (regions_of self.new.regions) else None) }
        ensures kept { result ≡ false → regions_of self.new.regions ≡ regions_of self.old.regions }
        ensures blocks { self.new.blocks ≡ self.old.blocks }
        ensures entered { self.new.entered ≡ self.old.entered }
        ensures owns { self.new.owns ≡ self.old.owns }
        ensures called { self.new.called ≡ self.old.called }
        ensures globals { self.new.globals ≡ self.old.globals }
        ensures long_blocks { self.new.long_blocks ≡ self.old.long_blocks }
    {
        let bytes = match to {
            Some(_) => 0,
            None => self.regions.kept_of(number),
        };
        let is_done = self.regions.turn(number, from, to);
        self.spare.uncount(if is_done { bytes } else { 0 });
        is_done
    }

    /// A region becomes another one by its birth, or is freed, if it is what it has to be, and answers whether it is: the heap stays what it is.
    pub fn turn_region(&mut self, birth: u64, from: Standing, to: Option<Standing>) -> bool
        ensures regions { turned (regions_of self.old.regions) birth from to
            ≡ (if result then Some (regions_of self.new.regions) else None) }
        ensures kept { result ≡ false → regions_of self.new.regions ≡ regions_of self.old.regions }
        ensures blocks { self.new.blocks ≡ self.old.blocks }
        ensures entered { self.new.entered ≡ self.old.entered }
        ensures owns { self.new.owns ≡ self.old.owns }
        ensures called { self.new.called ≡ self.old.called }
        ensures globals { self.new.globals ≡ self.old.globals }
        ensures long_blocks { self.new.long_blocks ≡ self.old.long_blocks }
    {
        birth != 0 && self.turn_counted(birth - 1, from, to)
    }

    /// The unique block of an area is freed, if the area is one's own, and answers whether it is.
    pub fn free_single(&mut self, area: Area) -> bool
        ensures regions { single_freed (regions_of self.old.regions) area
            ≡ (if result then Some (regions_of self.new.regions) else None) }
        ensures kept { result ≡ false → regions_of self.new.regions ≡ regions_of self.old.regions }
        ensures blocks { self.new.blocks ≡ self.old.blocks }
        ensures entered { self.new.entered ≡ self.old.entered }
        ensures owns { self.new.owns ≡ self.old.owns }
        ensures called { self.new.called ≡ self.old.called }
        ensures globals { self.new.globals ≡ self.old.globals }
        ensures long_blocks { self.new.long_blocks ≡ self.old.long_blocks }
    {
        match area {
            Area::Region(number) => self.turn_counted(number, Standing::Single, None),
            Area::Globals | Area::Block(_) | Area::Own(_) => false,
        }
    }

    /// The region with this number gets a block of a number of elements of a layout, if it isn't freed or closed: how many it had before.
    fn allocate_within(
        &mut self,
        alloc: Global,
        number: u64,
        layout: &Rc<Layout>,
        count: u32,
    ) -> Result<Option<usize>, AllocError>
        ensures before { IfOk result (λ before. before ≡ option_map length (live_at (regions_of self.old.regions) number)) }
        ensures stored { OnOk result (stored_of self.new ≡ grown (stored_of self.old) (suc number) layout.now.value count) }
        ensures entered { OnOk result (self.new.entered ≡ self.old.entered) }
        ensures called { OnOk result (self.new.called ≡ self.old.called) }
    {
        match self.regions.allocate(alloc, number, layout, count)? {
            Some(object) => {
                keep_block(
                    alloc,
                    &mut self.long_blocks,
                    number,
                    object,
                    layout.as_ref(),
                    count,
                )?;
                Ok(Some(object))
            }
            None => Ok(None),
        }
    }

    /// A region that isn't freed or closed gets a block of a number of elements of a layout, which hold nothing as yet: where the block begins.
    /// Fails only where no host memory is left.
    pub fn allocate(
        &mut self,
        alloc: Global,
        birth: u64,
        layout: &Rc<Layout>,
        count: u32,
    ) -> Result<Option<Place>, AllocError>
        ensures place { IfOk result (λ place. place ≡ next_place (stored_of self.old) birth) }
        ensures stored { OnOk result (stored_of self.new ≡ grown (stored_of self.old) birth layout.now.value count) }
        ensures entered { OnOk result (self.new.entered ≡ self.old.entered) }
        ensures called { OnOk result (self.new.called ≡ self.old.called) }
    {
        let (area, added) = match birth.checked_sub(1) {
            Some(number) => (
                Area::Region(number),
                self.allocate_within(alloc, number, layout, count)?,
            ),
            None => (
                Area::Globals,
                Some(push_block(alloc, &mut self.globals, layout, count)?),
            ),
        };
        match added {
            Some(object) => {
                self.spare.count(kept_of_block(layout.as_ref(), count));
                Ok(Some(Place {
                    area,
                    object,
                    byte: 0,
                    cell: 0,
                }))
            }
            None => Ok(None),
        }
    }
}
