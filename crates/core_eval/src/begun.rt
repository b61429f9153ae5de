// Blocks of which the last elements hold nothing as yet.

ghost use Rattle.std.specs.Prelude.{◌≡◌, ◌-◌, ◌≤◌, Some, None, false, if◌then◌else◌, length, slice_get, slice_set, IfOk, OnOk};
ghost use Rattle.core_eval.specs.Values.{put_cell};
ghost use Rattle.core_eval.specs.Elements.{begun_cells, block_cells, elements_from};

use crate::long_block::cell_at;
use crate::object::{push_element, slot_from};
use crate::value::{Part, Slot, Value};
use cyc_core::{CellLayout, Layout};
use std::alloc::{AllocError, Global};
use std::rc::Rc;

/// A block of elements of a layout, of which the last ones hold nothing as yet, and aren't made before something is stored to them.
#[derive(Drop)]
pub struct Begun {
    /// The cells of those that are made.
    pub slots: Vec<Slot>,
    /// How many are made.
    pub made: u32,
    /// The layout of each.
    pub layout: Rc<Layout>,
    /// How many there are.
    pub count: u32,
}

/// A cell of the elements of a layout from one on, which hold nothing, by how many of their cells lie before it.
fn blank_slot(layout: &Layout, first: u32, count: u32, before: u64) -> Option<Slot>
    ensures { result ≡ slice_get (elements_from false layout.now.cells.items layout.now.bytes first (count - first)) before }
{
    let cells: &[CellLayout] = &layout.cells;
    let size = cells.len() as u64;
    if size == 0 {
        return None;
    }
    let later = before / size;
    if later >= u64::from(count.saturating_sub(first)) {
        return None;
    }
    match cell_at(cells, before % size) {
        Some(cell) => Some(slot_from(false, first + later as u32, layout.bytes, cell)),
        None => None,
    }
}

impl Begun {
    /// So many elements of a layout, none of which is made.
    pub fn new(alloc: Global, layout: &Rc<Layout>, count: u32) -> Result<Self, AllocError>
        ensures { IfOk result (λ begun. begun_cells begun ≡ block_cells false layout.now.value count) }
    {
        Ok(Begun {
            slots: Vec::new(alloc),
            made: 0,
            layout: layout.clone()?,
            count,
        })
    }

    /// The cell with this number, if there is one.
    pub fn slot(&self, cell: u64) -> Option<Slot>
        ensures { result ≡ slice_get (begun_cells self.now) cell }
    {
        match self.slots.get(cell as usize) {
            Some(slot) => Some(*slot),
            None => blank_slot(
                self.layout.as_ref(),
                self.made,
                self.count,
                cell - self.slots.len() as u64,
            ),
        }
    }

    /// Elements are made until there is the cell with this number, or all are made. Fails only where no host memory is left.
    fn make_up_to(&mut self, cell: u64) -> Result<(), AllocError>
        ensures same { OnOk result (begun_cells self.new ≡ begun_cells self.old) }
        ensures all { OnOk result (length self.new.slots.items ≤ cell → begun_cells self.new ≡ self.new.slots.items) }
    {
        if self.layout.cells.is_empty() {
            return Ok(());
        }
        'elements: while self.slots.len() as u64 <= cell && self.made < self.count {
            push_element(
                &mut self.slots,
                false,
                self.made,
                self.layout.bytes,
                &self.layout.cells,
            )?;
            self.made += 1;
        }
        Ok(())
    }

    /// Sets the cell with this number, if there is one. Fails only where no host memory is left.
    pub fn set(&mut self, cell: u64, slot: Slot) -> Result<(), AllocError>
        ensures { OnOk result (begun_cells self.new ≡ slice_set (begun_cells self.old) cell slot) }
    {
        self.make_up_to(cell)?;
        if let Some(old) = self.slots.get_mut(cell as usize) {
            *old = slot;
        }
        Ok(())
    }

    /// Stores a value to a part of it, if there is one that lies there and has this width, and answers whether there is. Fails only where no
    /// host memory is left.
    pub fn put(&mut self, part: Part, value: Value) -> Result<bool, AllocError>
        ensures put { IfOk result (λ is_put. put_cell (begun_cells self.old) part.cell part.byte part.number part.width value
            ≡ (if is_put then Some (begun_cells self.new) else None)) }
        ensures kept { IfOk result (λ is_put. is_put ≡ false → self.new ≡ self.old) }
    {
        let Some(mut slot) = self.slot(part.cell) else {
            return Ok(false);
        };
        let is_put = slot.put(part.byte, part.number, part.width, value);
        if is_put {
            self.set(part.cell, slot)?;
        }
        Ok(is_put)
    }
}
