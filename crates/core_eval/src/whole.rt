// Copies of whole objects, and objects that begin anew.

ghost use Rattle.std.specs.Prelude.{◌≡◌, ◌+◌, ◌++◌, true, List, IfOk, OnOk, map, option_map};
ghost use Rattle.core_meaning.specs.Core as core;
ghost use Rattle.cyc_core.specs.Trees.{layout_tree};
ghost use Rattle.core_eval.specs.Values.{cell_in};
ghost use Rattle.core_eval.specs.Elements.{cells_of};
ghost use Rattle.core_eval.specs.Blocks.{AreOrdered, stored_of};
ghost use Rattle.core_eval.specs.Pendings.{Execute, Wait, next_of};
ghost use Rattle.core_eval.specs.Standing.{known_of};
ghost use Rattle.core_eval.specs.Costs.{IsMove};
ghost use Rattle.core_eval.specs.Whole.{
  are_alike,
  are_cells,
  are_laid,
  begins_as,
  elements_alike,
  first_elements,
  has_elements,
  has_parts,
  held_as,
  held_by,
  is_alike,
  is_cell,
  same_object,
  slots_of,
  values_from,
};

use crate::frame::Frame;
use crate::held::Held;
use crate::memory::Memory;
use crate::pending::{Due, Flow, Now};
use crate::pointer::is_same_area;
use crate::value::{Object, Place, Slot, Value, further};
use cyc_core::{CellLayout, Layout, Temporary};
use std::alloc::{AllocError, Global};

/// Whether what a cell holds has the parts that another has, where `padding` bytes that hold nothing lie behind the one, and `behind`
/// such bytes behind the other. What has more words begins with the parts of what has fewer.
fn has_parts(own: Held, padding: u32, held: Held, behind: u32) -> bool
    ensures { result ≡ has_parts own padding held behind }
{
    match (own, held) {
        (Held::Byte(_), Held::Byte(_))
        | (Held::Word(_), Held::Word(_))
        | (Held::Fat(_, _, _), Held::Fat(_, _, _))
        | (Held::Tagged(_, _), Held::Tagged(_, _))
        | (Held::TaggedFat(_, _, _, _), Held::TaggedFat(_, _, _, _)) => behind <= padding,
        (Held::Fat(_, _, _), Held::Word(_))
        | (Held::Fat(_, _, _), Held::Tagged(_, _))
        | (Held::Tagged(_, _), Held::Word(_))
        | (Held::TaggedFat(_, _, _, _), Held::Word(_))
        | (Held::TaggedFat(_, _, _, _), Held::Tagged(_, _))
        | (Held::TaggedFat(_, _, _, _), Held::Fat(_, _, _)) => behind == 0,
        _ => false,
    }
}

/// Whether there is a cell that lies where a layout has it, from a byte on, and is made as it.
fn is_cell(slot: Option<Slot>, byte: u64, cell: CellLayout) -> bool
    ensures { result ≡ is_cell slot byte cell }
{
    match slot {
        Some(slot) => {
            byte <= slot.offset
                && slot.offset - byte == u64::from(cell.offset)
                && has_parts(
                    slot.held,
                    slot.padding,
                    Held::first(cell.cell),
                    cell.padding,
                )
        }
        None => false,
    }
}

/// Whether there is a cell that may have a pointer in the same part as a layout's.
fn is_alike(slot: Option<Slot>, cell: CellLayout) -> bool
    ensures { result ≡ is_alike slot cell }
{
    match slot {
        Some(slot) => slot.held.pointer_part() == Held::first(cell.cell).pointer_part(),
        None => false,
    }
}

/// A cell of an object, if there is one.
fn cell_of(object: Option<&Object>, cell: u64) -> Option<Slot>
    ensures { result ≡ cell_in (option_map (λ o. cells_of o.now) object.entry) cell }
{
    match object {
        Some(object) => object.slot(cell),
        None => None,
    }
}

/// Whether the cells of an object from a place on lie as a layout's. Fails only where there would be a cell with a number over 2^64 - 1, or one
/// lies so and may have a pointer in another part.
fn are_cells(
    object: Option<&Object>,
    place: Place,
    cells: &[CellLayout],
) -> Result<bool, AllocError>
    ensures laid { IfOk result (λ laid.
        laid ≡ are_cells (cell_in (option_map (λ o. cells_of o.now) object.entry)) place.cell place.byte cells.now) }
    ensures alike { IfOk result (λ laid.
        laid ≡ true → are_alike (cell_in (option_map (λ o. cells_of o.now) object.entry)) place.cell cells.now ≡ true) }
{
    let mut at = place.cell;
    'each: for cell in cells {
        let slot = cell_of(object, at);
        if !is_cell(slot, place.byte, *cell) {
            return Ok(false);
        }
        if !is_alike(slot, *cell) {
            return Err(AllocError);
        }
        at = further(at, 1)?;
    }
    Ok(true)
}

/// Whether a place leads to cells that lie as a layout's. Fails only where there would be a cell with a number over 2^64 - 1, or one lies so
/// and may have a pointer in another part.
fn are_laid(memory: &Memory, place: Place, cells: &[CellLayout]) -> Result<bool, AllocError>
    ensures laid { IfOk result (λ laid. AreOrdered memory.now
        → laid ≡ are_laid (stored_of memory.now) place cells.now) }
    ensures alike { IfOk result (λ laid. laid ≡ true → AreOrdered memory.now
        → are_alike (slots_of (stored_of memory.now) place) place.cell cells.now ≡ true) }
{
    if memory.is_held(place.area) {
        are_cells(memory.object(place.area, place.object), place, cells)
    } else {
        Ok(false)
    }
}

/// The place behind an element with these numbers of cells and bytes. Fails only where that has over 2^64 - 1 cells or bytes before it.
fn next_element(place: Place, cells: usize, bytes: u32) -> Result<Place, AllocError>
    ensures { IfOk result (λ next. next
        ≡ record { area = place.area; object = place.object; byte = place.byte + bytes; cell = place.cell + cells }) }
{
    match (
        place.cell.checked_add(cells as u64),
        place.byte.checked_add(u64::from(bytes)),
    ) {
        (Some(cell), Some(byte)) => Ok(Place {
            byte,
            cell,
            ..place
        }),
        _ => Err(AllocError),
    }
}

/// Whether a place leads to a number of elements of a layout. Fails only where a place behind one of them has over 2^64 - 1 cells or bytes before it,
/// or a cell lies as one of theirs and may have a pointer in another part.
fn has_elements(
    memory: &Memory,
    place: Place,
    layout: &Layout,
    count: u32,
) -> Result<bool, AllocError>
    ensures laid { IfOk result (λ laid. AreOrdered memory.now
        → laid ≡ has_elements (stored_of memory.now) place layout.now count) }
    ensures alike { IfOk result (λ laid. laid ≡ true → AreOrdered memory.now
        → elements_alike (slots_of (stored_of memory.now) place) place.cell layout.now.cells.items count ≡ true) }
{
    if !memory.is_held(place.area) {
        return Ok(false);
    }
    let object = memory.object(place.area, place.object);
    let cells: &[CellLayout] = &layout.cells;
    let mut at = place;
    'each: for _ in 0..count {
        if !are_cells(object, at, cells)? {
            return Ok(false);
        }
        at = next_element(at, cells.len(), layout.bytes)?;
    }
    Ok(true)
}

/// As much of what a cell holds as another has parts, where pointers are in the same part of both.
fn held_as(form: Held, held: Held) -> Held
    ensures { result ≡ held_as form held }
{
    match form {
        Held::Byte(_) => Held::Byte(held.value()),
        Held::Word(_) => Held::Word(held.value()),
        Held::Tagged(_, _) => match held {
            Held::TaggedFat(tag, member, _, _) => Held::Tagged(tag, member),
            _ => held,
        },
        Held::Fat(_, _, _) | Held::TaggedFat(_, _, _, _) => held,
    }
}

/// What a cell holds of what a layout's does, if there is one.
fn held_by(cell: CellLayout, slot: Option<Slot>) -> Held
    ensures { result ≡ held_by cell slot }
{
    let form = Held::first(cell.cell);
    match slot {
        Some(slot) => held_as(form, slot.held),
        None => form.blanked(),
    }
}

/// What as many cells of an object hold as a layout has, from one on.
fn values_from(
    alloc: Global,
    object: Option<&Object>,
    first: u64,
    cells: &[CellLayout],
) -> Result<Vec<Held>, AllocError>
    ensures { IfOk result (λ values. values.items ≡ values_from (cell_in (option_map (λ o. cells_of o.now) object.entry)) first cells.now) }
{
    let mut values = Vec::with_capacity(alloc, cells.len())?;
    let mut at = first;
    'each: for cell in cells {
        let slot = cell_of(object, at);
        values.push(held_by(*cell, slot))?;
        at = further(at, 1)?;
    }
    Ok(values)
}

/// What the cells of an element more begin as.
fn push_element(values: &mut Vec<Held>, cells: &[CellLayout]) -> Result<(), AllocError>
    ensures { OnOk result (values.new.items ≡ values.old.items ++ map begins_as cells.now) }
{
    'each: for cell in cells {
        values.push(Held::first(cell.cell))?;
    }
    Ok(())
}

/// What the cells of a number of elements begin as.
fn first_elements(alloc: Global, cells: &[CellLayout], count: u32) -> Result<Vec<Held>, AllocError>
    ensures { IfOk result (λ values. values.items ≡ first_elements cells.now count) }
{
    let mut values = Vec::with_capacity(alloc, cells.len().saturating_mul(count as usize))?;
    'each: for _ in 0..count {
        push_element(&mut values, cells)?;
    }
    Ok(values)
}

/// Whether two places are of the same object.
fn is_same_object(first: Place, second: Place) -> bool
    ensures { result ≡ same_object first second }
{
    is_same_area(first.area, second.area) && first.object == second.object
}

/// An object gets what another one holds.
pub fn copy<'p>(
    alloc: Global,
    frame: &Frame,
    memory: &mut Memory,
    to: Temporary,
    from: Temporary,
    layout: &Layout,
) -> Result<Due<'p>, AllocError>
    ensures { IfOk result (λ due. (ws : List Wait) →
        IsMove (Execute (core.Do (core.Copy to.0 from.0 (layout_tree layout.now)))) ws (known_of frame.now memory.old) (next_of due) ws
        (known_of frame.now memory.new)) }
{
    let Value::Pointer(target) = frame.temp(to) else {
        return Ok(Due::Wrong);
    };
    let Value::Pointer(source) = frame.temp(from) else {
        return Ok(Due::Wrong);
    };
    let cells: &[CellLayout] = &layout.cells;
    let is_there = are_laid(memory, target, cells)?;
    if !is_there {
        return Ok(Due::Wrong);
    }
    let has_source = are_laid(memory, source, cells)?;
    if !has_source {
        return Ok(Due::Wrong);
    }
    if is_same_object(target, source) {
        return Ok(Due::Wrong);
    }
    let object = memory.object(source.area, source.object);
    let values = values_from(alloc, object, source.cell, cells)?;
    memory.fill_to(target, &values)?;
    Ok(Due::Go(Now::Leave(Flow::Falls)))
}

/// So many elements get what they begin with.
pub fn clear<'p>(
    alloc: Global,
    frame: &Frame,
    memory: &mut Memory,
    place: Temporary,
    layout: &Layout,
    count: u32,
) -> Result<Due<'p>, AllocError>
    ensures { IfOk result (λ due. (ws : List Wait) →
        IsMove (Execute (core.Do (core.Clear place.0 (layout_tree layout.now) count))) ws (known_of frame.now memory.old) (next_of due) ws
        (known_of frame.now memory.new)) }
{
    let Value::Pointer(target) = frame.temp(place) else {
        return Ok(Due::Wrong);
    };
    let is_there = has_elements(memory, target, layout, count)?;
    if !is_there {
        return Ok(Due::Wrong);
    }
    let values = first_elements(alloc, &layout.cells, count)?;
    memory.fill_to(target, &values)?;
    Ok(Due::Go(Now::Leave(Flow::Falls)))
}
