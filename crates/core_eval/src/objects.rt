// Objects by their numbers in a list.

ghost use Rattle.std.specs.Prelude.{◌≡◌, IfOk, IfSome, OnOk, Some, None, false, if◌then◌else◌, map, option_map, slice_get};
ghost use Rattle.core_eval.specs.Values.{put_in, slot_at, value_of};
ghost use Rattle.core_eval.specs.Elements.{cells_of};
ghost use Rattle.core_eval.specs.Whole.{fill_in};

use crate::held::Held;
use crate::value::{Object, Part, Slot, Value};
use cyc_core::Width;
use std::alloc::AllocError;

/// The object with this number, if there is one.
pub fn object_in(objects: &Vec<Object>, index: usize) -> Option<&Object>
    ensures { slice_get (map cells_of objects.now.items) index ≡ option_map (λ object. cells_of object.now) result }
{
    objects.get(index)
}

/// The cell of the object with this number, if there is one.
pub fn slot_in(objects: &[Object], index: usize, cell: u64) -> Option<Slot>
    ensures { result ≡ slot_at (map cells_of objects.now) index cell }
{
    match objects.get(index) {
        Some(object) => object.slot(cell),
        None => None,
    }
}

/// What a part of the object with this number holds, if there is one that lies there and has this width.
pub fn value_in(objects: &[Object], index: usize, part: Part) -> Option<Value>
    ensures { result ≡ value_of part.byte part.number part.width (slot_at (map cells_of objects.now) index part.cell) }
{
    match objects.get(index) {
        Some(object) => object.value(part),
        None => None,
    }
}

/// The word that the object with this number holds, if it is of one cell of one word.
pub fn word_in(objects: &[Object], index: usize) -> Option<u32>
    ensures { IfSome result (λ word. value_of 0 0 Width.Word (slot_at (map cells_of objects.now) index 0) ≡ Some (Value.Word word)) }
{
    match objects.get(index) {
        Some(object) => object.word(),
        None => None,
    }
}

/// Stores a value to a part of the object with this number, if there is one that lies there and has this width, and answers whether there is.
/// Fails only where no host memory is left.
pub fn put_in(
    objects: &mut Vec<Object>,
    index: usize,
    part: Part,
    value: Value,
) -> Result<bool, AllocError>
    ensures put { IfOk result (λ is_put. put_in (map cells_of objects.old.items) index part.cell part.byte part.number part.width value
        ≡ (if is_put then Some (map cells_of objects.new.items) else None)) }
    ensures kept { IfOk result (λ is_put. is_put ≡ false → objects.new.items ≡ objects.old.items) }
{
    match objects.get_mut(index) {
        Some(object) => object.put(part, value),
        None => Ok(false),
    }
}

/// The cells of the object with this number get these values, from one on. Fails only where no host memory is left, or there would be a cell
/// with a number over 2^64 - 1.
pub fn fill_in(
    objects: &mut Vec<Object>,
    index: usize,
    cell: u64,
    values: &[Held],
) -> Result<(), AllocError>
    ensures { OnOk result (map cells_of objects.new.items ≡ fill_in (map cells_of objects.old.items) index cell values.now) }
{
    match objects.get_mut(index) {
        Some(object) => object.fill(cell, values),
        None => Ok(()),
    }
}
