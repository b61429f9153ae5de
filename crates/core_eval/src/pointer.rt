// Pointers: how far they may go, and whether two are the same.

ghost use Rattle.std.specs.Prelude.{◌≡◌, IfOk, None, true};
ghost use Rattle.core_eval.specs.Values.{null_of, same_area, same_cell};
ghost use Rattle.core_eval.specs.Blocks.{AreOrdered, same_places, same_values, stored_of};
ghost use Rattle.core_eval.specs.Leading.{lead_on, lies_far, recalls};

use crate::long_block::{TOO_FAR, lies_among};
use crate::memory::Memory;
use crate::value::{Area, Place, Value};
use std::alloc::AllocError;

/// Whether a value is NULL, if it is a pointer.
pub fn is_null(value: Value) -> Option<bool>
    ensures { result ≡ null_of value }
{
    match value {
        Value::Blank | Value::Word(_) | Value::Birth(_) => None,
        Value::Null => Some(true),
        Value::Pointer(_) => Some(false),
    }
}

/// Whether two areas are the same.
pub fn is_same_area(first: Area, second: Area) -> bool
    ensures { result ≡ same_area first second }
{
    match (first, second) {
        (Area::Globals, Area::Globals) => true,
        (Area::Region(region), Area::Region(other)) => region == other,
        (Area::Block(block), Area::Block(other)) => block == other,
        (Area::Own(call), Area::Own(other)) => call == other,
        _ => false,
    }
}

/// Whether two places are the same cell.
fn is_same_cell(first: Place, second: Place) -> bool
    ensures { result ≡ same_cell first second }
{
    is_same_area(first.area, second.area)
        && first.object == second.object
        && first.cell == second.cell
}

/// Whether two places are the same cell, if both are there.
fn same_places(memory: &Memory, first: Place, second: Place) -> Option<bool>
    ensures { AreOrdered memory.now → result ≡ same_places (stored_of memory.now) first second }
{
    if memory.is_there(first) && memory.is_there(second) {
        Some(is_same_cell(first, second))
    } else {
        None
    }
}

/// Whether two values are the same pointer, if both are pointers, each NULL or to what there is.
pub fn same_place(memory: &Memory, first: Value, second: Value) -> Option<bool>
    ensures { AreOrdered memory.now → result ≡ same_values (stored_of memory.now) first second }
{
    match (first, second) {
        (Value::Null, _) => is_null(second),
        (Value::Pointer(_), Value::Null) => Some(false),
        (Value::Pointer(place), Value::Pointer(other)) => same_places(memory, place, other),
        _ => None,
    }
}

/// Whether a cell lies where a place leads, too far from where its object begins. Fails only where the block or the function that had the object
/// is left.
fn lies_far(memory: &Memory, place: Place) -> Result<bool, AllocError>
    ensures lies { IfOk result (λ lies. AreOrdered memory.now
        → lies ≡ lies_far (stored_of memory.now) place.area place.object place.cell place.byte) }
    ensures recalls { IfOk result (λ lies. AreOrdered memory.now → recalls (stored_of memory.now) place.area ≡ true) }
{
    match place.area {
        Area::Globals => Ok(memory.is_there(place)),
        Area::Region(region) => Ok(lies_among(
            &memory.long_blocks,
            region,
            place.object,
            place.cell,
            place.byte,
        )),
        Area::Block(_) | Area::Own(_) => {
            if memory.is_held(place.area) {
                Ok(memory.is_there(place))
            } else {
                Err(AllocError)
            }
        }
    }
}

/// The place this number of cells and this number of bytes on, if a pointer may lead there: where that is less than too far from where its
/// object begins, or a cell lies there. Fails only where over 2^64 - 1 cells or bytes would lie before it, or the block or the function that had the object
/// is left.
pub fn lead_on(
    memory: &Memory,
    place: Place,
    cells: u64,
    bytes: u64,
) -> Result<Option<Place>, AllocError>
    ensures leads { IfOk result (λ there. AreOrdered memory.now → there ≡ lead_on (stored_of memory.now) place cells bytes) }
    ensures recalls { IfOk result (λ there. there ≡ None → AreOrdered memory.now → recalls (stored_of memory.now) place.area ≡ true) }
{
    let Some(cell) = place.cell.checked_add(cells) else {
        return Err(AllocError);
    };
    let Some(byte) = place.byte.checked_add(bytes) else {
        return Err(AllocError);
    };
    let there = Place {
        byte,
        cell,
        ..place
    };
    if byte < TOO_FAR {
        return Ok(Some(there));
    }
    if lies_far(memory, there)? {
        Ok(Some(there))
    } else {
        Ok(None)
    }
}
