// Blocks of regions that have a cell far from where they begin.

ghost use Rattle.std.specs.Prelude.{◌≡◌, ◌+◌, ◌*◌, map, slice_get, IfOk, OnOk};
ghost use Rattle.core_eval.specs.Leading.{lies_among, lies_in};
ghost use Rattle.core_eval.specs.LongBlocks.{has_far, is_long, long_block_of, with_long_block};

use crate::object::offset_in;
use cyc_core::{CellLayout, Layout};
use std::alloc::{AllocError, Global};

/// A pointer that goes this number of bytes from where its object begins, or more, has to lead to a cell. No object that is granted has this
/// number of bytes.
pub const TOO_FAR: u64 = 0x0200_0000;

/// Where the cells of a block of a region lie.
#[derive(Drop)]
pub struct LongBlock {
    /// How many regions were born before its own.
    pub region: u64,
    /// Its number in the region.
    pub object: usize,
    /// The cells of an element.
    pub cells: Vec<CellLayout>,
    /// How many bytes an element has.
    pub bytes: u32,
    /// How many elements there are.
    pub count: u32,
}

impl LongBlock {
    /// Whether the cell with this number lies this number of bytes on.
    fn lies(&self, cell: u64, byte: u64) -> bool
        ensures { result ≡ lies_in self.now.cells.items self.now.bytes self.now.count cell byte }
    {
        let count = self.count;
        let cells: &[CellLayout] = &self.cells;
        let size = cells.len() as u64;
        if size == 0 {
            return false;
        }
        let Ok(element) = u32::try_from(cell / size) else {
            return false;
        };
        match cell_at(cells, cell % size) {
            Some(layout) if element < count => {
                offset_in(element, self.bytes, layout.offset) == byte
            }
            _ => false,
        }
    }
}

/// The cell with this number, if there is one.
pub fn cell_at(cells: &[CellLayout], cell: u64) -> Option<CellLayout>
    ensures { result ≡ slice_get cells.now cell }
{
    match cells.get(cell as usize) {
        Some(layout) => Some(*layout),
        None => None,
    }
}

/// As many cells.
fn copy_of(alloc: Global, cells: &[CellLayout]) -> Result<Vec<CellLayout>, AllocError>
    ensures { IfOk result (λ copy. copy.items ≡ cells.now) }
{
    cells.to_vec(alloc)
}

/// Whether one of these cells lies too far on, in an element that lies this number of bytes on.
fn has_far(from: u64, cells: &[CellLayout]) -> bool
    ensures { result ≡ has_far from cells.now }
{
    'each: for cell in cells {
        if TOO_FAR.saturating_sub(from) <= u64::from(cell.offset) {
            return true;
        }
    }
    false
}

/// Whether a block of a number of elements has a cell too far on.
fn is_long(cells: &[CellLayout], bytes: u32, count: u32) -> bool
    ensures { result ≡ is_long cells.now bytes count }
{
    match count.checked_sub(1) {
        Some(last) => has_far(u64::from(last) * u64::from(bytes), cells),
        None => false,
    }
}

/// Keeps where the cells of a new block lie, of a number of elements of a layout, if one of them lies too far on.
pub fn keep_block(
    alloc: Global,
    blocks: &mut Vec<LongBlock>,
    region: u64,
    object: usize,
    layout: &Layout,
    count: u32,
) -> Result<(), AllocError>
    ensures { OnOk result (map long_block_of blocks.new.items ≡ with_long_block (map long_block_of blocks.old.items) region object layout.now count) }
{
    if is_long(&layout.cells, layout.bytes, count) {
        blocks.push(LongBlock {
            region,
            object,
            cells: copy_of(alloc, &layout.cells)?,
            bytes: layout.bytes,
            count,
        })?;
    }
    Ok(())
}

/// Whether the block with this number of a region is one of these, and its cell lies this number of bytes on.
pub fn lies_among(blocks: &[LongBlock], region: u64, object: usize, cell: u64, byte: u64) -> bool
    ensures { result ≡ lies_among (map long_block_of blocks.now) region object cell byte }
{
    'each: for block in blocks {
        if block.region == region && block.object == object && block.lies(cell, byte) {
            return true;
        }
    }
    false
}
