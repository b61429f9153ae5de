// The regions that were born, in chunks: a chunk all of whose regions are freed keeps nothing.

ghost use Rattle.std.specs.Prelude.{
  ◌≡◌,
  ◌+◌,
  ◌<◌,
  ◌++◌,
  ◌∷◌,
  ℕ,
  [],
  Some,
  None,
  true,
  false,
  if◌then◌else◌,
  length,
  slice_get,
  nat_eq,
  option_map,
  IfOk,
  OnOk,
};
ghost use Rattle.std.specs.Borrow.{sem};
ghost use Rattle.core_eval.specs.Values.{cell_in};
ghost use Rattle.core_eval.specs.Elements.{block_cells, cells_of};
ghost use Rattle.core_eval.specs.Regions.{
  grown_region,
  held_at,
  held_region,
  item_held,
  live_at,
  put_region,
  region_at,
  regions_of,
  slot_within,
  turned_region,
};
ghost use Rattle.core_eval.specs.Whole.{fill_region, is_still};
ghost use Rattle.core_eval.specs.Lending.{LendsRegion};

use crate::held::Held;
use crate::kept::{bytes_of, kept_of_objects};
use crate::objects::{object_in, slot_in};
use crate::region::{Region, Standing};
use crate::value::{Object, Part, Slot, Value};
use cyc_core::Layout;
use std::alloc::{AllocError, Global};
use std::mem::size_of;
use std::rc::Rc;

/// The regions that were born, by how many were before each, in chunks of 64: a chunk all of whose regions are freed keeps nothing. A region
/// that has no item in its chunk is freed.
#[derive(Drop)]
pub struct Regions {
    chunks: Vec<Vec<Region>>,
    /// How many were born so far.
    born: u64,
    /// How many chunks have items. No promise rests on it.
    filled: u64,
}

/// A chunk gets items that are freed, until there is one at a position. Fails only where no host memory is left.
fn fill_up(chunk: &mut Vec<Region>, position: usize) -> Result<(), AllocError>
    ensures long { OnOk result (position < length chunk.new.items) }
    ensures held { OnOk result ((k : ℕ) → item_held (slice_get chunk.new.items k) ≡ item_held (slice_get chunk.old.items k)) }
{
    'items: while chunk.len() <= position {
        chunk.push(Region::Freed)?;
    }
    Ok(())
}

/// A chunk has a region at a position. Fails only where no host memory is left.
fn put_at(chunk: &mut Vec<Region>, position: usize, region: Region) -> Result<(), AllocError>
    ensures { OnOk result ((k : ℕ) → item_held (slice_get chunk.new.items k)
        ≡ (if nat_eq k position then held_region region else item_held (slice_get chunk.old.items k))) }
{
    fill_up(chunk, position)?;
    chunk[position] = region;
    Ok(())
}

/// Whether all regions of a chunk are freed.
fn are_freed(chunk: &[Region]) -> bool
    ensures { result ≡ true → (k : ℕ) → item_held (slice_get chunk.now k) ≡ None }
{
    'items: for region in chunk {
        if let Region::Held(_, _) = region {
            return false;
        }
    }
    true
}

impl Regions {
    /// None as yet.
    pub fn new(alloc: Global) -> Self
        ensures { regions_of result ≡ [] }
    {
        Regions {
            chunks: Vec::new(alloc),
            born: 0,
            filled: 0,
        }
    }

    /// The region with this number, if there is one that has an item.
    fn region(&self, number: u64) -> Option<&Region>
        ensures { region_at (regions_of self.now) number ≡ item_held (option_map (λ region. region.now) result) }
    {
        if number >= self.born {
            return None;
        }
        match self.chunks.get((number / 64) as usize) {
            Some(chunk) => chunk.get((number % 64) as usize),
            None => None,
        }
    }

    /// How many bytes are kept of the blocks of the region with this number, as `kept_of_objects` counts them.
    pub fn kept_of(&self, number: u64) -> u64 {
        match self.region(number) {
            Some(Region::Held(_, objects)) => kept_of_objects(objects),
            _ => 0,
        }
    }

    /// How many bytes are kept of the chunks: of each that has items, as if it had all.
    pub fn kept_of_chunks(&self) -> u64 {
        let lists = bytes_of(self.chunks.len() as u64, size_of::<Vec<Region>>());
        let items = bytes_of(self.filled, size_of::<Region>()).saturating_mul(64);
        lists.saturating_add(items)
    }

    /// The region with this number, to be changed, if there is one that has an item.
    fn region_mut(&mut self, number: u64) -> Option<&mut Region>
        ensures* lends { sem 𝓛 (LendsRegion self.entry number result) }
        ensures held { region_at (regions_of self.old) number ≡ item_held (option_map (λ region. region.now) result) }
    {
        if number >= self.born {
            return None;
        }
        match self.chunks.get_mut((number / 64) as usize) {
            Some(chunk) => chunk.get_mut((number % 64) as usize),
            None => None,
        }
    }

    /// There are chunks up to one with a number. Fails only where no host memory is left.
    fn add_chunks(&mut self, alloc: Global, chunk: usize) -> Result<(), AllocError>
        ensures long { OnOk result (chunk < length self.new.chunks.items) }
        ensures held { OnOk result ((n : ℕ) → held_at self.new.chunks.items n ≡ held_at self.old.chunks.items n) }
        ensures born { self.new.born ≡ self.old.born }
    {
        'chunks: while self.chunks.len() <= chunk {
            self.chunks.push(Vec::new(alloc))?;
        }
        Ok(())
    }

    /// A region is born. Fails only where no host memory is left, or 2^64 - 1 regions were born.
    pub fn push(&mut self, alloc: Global, region: Region) -> Result<u64, AllocError>
        ensures born { IfOk result (λ born. born ≡ length (regions_of self.old) + 1) }
        ensures regions { OnOk result (regions_of self.new ≡ regions_of self.old ++ held_region region ∷ []) }
    {
        let Some(born) = self.born.checked_add(1) else {
            return Err(AllocError);
        };
        let chunk = (self.born / 64) as usize;
        let position = (self.born % 64) as usize;
        self.add_chunks(alloc, chunk)?;
        put_at(&mut self.chunks[chunk], position, region)?;
        self.born = born;
        self.filled = self.filled.saturating_add(u64::from(position == 0));
        Ok(born)
    }

    /// Nothing is kept of a chunk all of whose regions are freed.
    fn drop_freed(&mut self, chunk: usize)
        ensures { regions_of self.new ≡ regions_of self.old }
    {
        match self.chunks.get_mut(chunk) {
            Some(regions) => {
                if are_freed(regions) {
                    regions.clear();
                    regions.shrink_to_fit();
                    self.filled = self.filled.saturating_sub(1);
                }
            }
            None => {}
        }
    }

    /// A cell of a block of the region with this number.
    pub fn slot(&self, number: u64, index: usize, cell: u64) -> Option<Slot>
        ensures { result ≡ slot_within (live_at (regions_of self.now) number) index cell }
    {
        match self.region(number) {
            Some(Region::Held(standing, objects)) if standing.is_open() => {
                slot_in(objects, index, cell)
            }
            _ => None,
        }
    }

    /// A block of the region with this number.
    pub fn object(&self, number: u64, index: usize) -> Option<&Object>
        ensures { (k : ℕ) → slot_within (live_at (regions_of self.now) number) index k ≡ cell_in (option_map (λ object. cells_of object.now) result) k }
    {
        match self.region(number) {
            Some(Region::Held(standing, objects)) if standing.is_open() => {
                object_in(objects, index)
            }
            _ => None,
        }
    }

    /// Whether the region with this number isn't freed or closed.
    pub fn is_held(&self, number: u64) -> bool
        ensures { result ≡ is_still (live_at (regions_of self.now) number) }
    {
        match self.region(number) {
            Some(Region::Held(standing, _)) => standing.is_open(),
            _ => false,
        }
    }

    /// Stores a value to a part of a block of the region with this number, if it isn't freed or closed and there is one that lies there and is
    /// so wide, and answers whether there is. Fails only where no host memory is left.
    pub fn put(
        &mut self,
        number: u64,
        index: usize,
        part: Part,
        value: Value,
    ) -> Result<bool, AllocError>
        ensures put { IfOk result (λ is_put. put_region (regions_of self.old) number index part.cell part.byte part.number part.width value
            ≡ (if is_put then Some (regions_of self.new) else None)) }
        ensures kept { IfOk result (λ is_put. is_put ≡ false → regions_of self.new ≡ regions_of self.old) }
    {
        match self.region_mut(number) {
            Some(region) => region.put(index, part, value),
            None => Ok(false),
        }
    }

    /// The cells of a block of the region with this number get these values, from one on, if it isn't freed yet. Fails only where no host memory
    /// is left, or there would be a cell with a number over 2^64 - 1.
    pub fn fill(
        &mut self,
        number: u64,
        index: usize,
        cell: u64,
        values: &[Held],
    ) -> Result<(), AllocError>
        ensures { OnOk result (regions_of self.new ≡ fill_region (regions_of self.old) number index cell values.now) }
    {
        match self.region_mut(number) {
            Some(region) => region.fill(index, cell, values),
            None => Ok(()),
        }
    }

    /// The region with this number becomes another one, or is freed, if it is what it has to be, and answers whether it is.
    fn turn_item(&mut self, number: u64, from: Standing, to: Option<Standing>) -> bool
        ensures turned { turned_region (regions_of self.old) number from to ≡ (if result then Some (regions_of self.new) else None) }
        ensures kept { result ≡ false → regions_of self.new ≡ regions_of self.old }
    {
        match self.region_mut(number) {
            Some(region) => region.turn(from, to),
            None => false,
        }
    }

    /// The same, and nothing is kept of its chunk, if no more regions are born in it and all of them are freed.
    pub fn turn(&mut self, number: u64, from: Standing, to: Option<Standing>) -> bool
        ensures turned { turned_region (regions_of self.old) number from to ≡ (if result then Some (regions_of self.new) else None) }
        ensures kept { result ≡ false → regions_of self.new ≡ regions_of self.old }
    {
        let is_done = self.turn_item(number, from, to);
        if is_done && to.is_none() && number / 64 < self.born / 64 {
            self.drop_freed((number / 64) as usize);
        }
        is_done
    }

    /// The region with this number gets a block of a number of elements of a layout, if it isn't freed or closed: how many it had before.
    pub fn allocate(
        &mut self,
        alloc: Global,
        number: u64,
        layout: &Rc<Layout>,
        count: u32,
    ) -> Result<Option<usize>, AllocError>
        ensures number { IfOk result (λ before. before ≡ option_map length (live_at (regions_of self.old) number)) }
        ensures regions { OnOk result (regions_of self.new
            ≡ grown_region (regions_of self.old) number (block_cells false layout.now.value count)) }
    {
        match self.region_mut(number) {
            Some(region) => region.allocate(alloc, layout, count),
            None => Ok(None),
        }
    }
}
