// How objects begin.

ghost use Rattle.std.specs.Prelude.{◌≡◌, ◌+◌, ◌*◌, ◌++◌, ◌∷◌, [], false, true, map, vec_len, IfOk, OnOk};
ghost use Rattle.core_eval.specs.Elements.{
  blank_object,
  block_cells,
  cells_of,
  char_slot,
  first_element,
  first_object,
  held_first,
  scalar,
  slot_from,
  text_cells,
};

use crate::begun::Begun;
use crate::held::{Bound, Held};
use crate::value::{Area, Object, Place, Slot, Value};
use cyc_core::{Cell, CellLayout, Datum, Layout, Local};
use std::alloc::{AllocError, Global};
use std::rc::Rc;

/// How many bytes of the object lie before a byte of the element with this number, where each element has `bytes` bytes.
pub fn offset_in(element: u32, bytes: u32, byte: u32) -> u64
    ensures { result ≡ element * bytes + byte }
{
    u64::from(element) * u64::from(bytes) + u64::from(byte)
}

/// An object of one cell. Fails only where no host memory is left.
fn scalar(alloc: Global, held: Held) -> Result<Object, AllocError>
    ensures { IfOk result (λ object. cells_of object ≡ scalar held) }
{
    match held {
        Held::Word(value) => Ok(Object::Word(value)),
        _ => {
            let slot = Box::new(
                alloc,
                Slot {
                    offset: 0,
                    padding: 0,
                    held,
                },
            )?;
            Ok(Object::Scalar(slot))
        }
    }
}

/// What a cell holds at first: what it begins as, or nothing as yet.
fn held_first(is_begun: bool, cell: Cell) -> Held
    ensures { result ≡ held_first is_begun cell }
{
    let first = Held::first(cell);
    if is_begun { first } else { first.blanked() }
}

/// A cell of the element with this number, where each element has `bytes` bytes.
pub fn slot_from(is_begun: bool, element: u32, bytes: u32, cell: CellLayout) -> Slot
    ensures { result ≡ slot_from is_begun (element * bytes) cell }
{
    Slot {
        offset: offset_in(element, bytes, cell.offset),
        padding: cell.padding,
        held: held_first(is_begun, cell.cell),
    }
}

/// The element with this number more, where each element has `bytes` bytes.
pub fn push_element(
    slots: &mut Vec<Slot>,
    is_begun: bool,
    element: u32,
    bytes: u32,
    cells: &[CellLayout],
) -> Result<(), AllocError>
    ensures { OnOk result (slots.new.items ≡ slots.old.items ++ map (slot_from is_begun (element * bytes)) cells.now) }
{
    'each: for cell in cells {
        slots.push(slot_from(is_begun, element, bytes, *cell))?;
    }
    Ok(())
}

/// The cells of a number of elements of a layout, which hold what they begin as, or nothing as yet. Fails only where no host memory is left.
pub fn block_cells(
    alloc: Global,
    is_begun: bool,
    layout: &Layout,
    count: u32,
) -> Result<Vec<Slot>, AllocError>
    ensures { IfOk result (λ slots. slots.items ≡ block_cells is_begun layout.now count) }
{
    let cells: &[CellLayout] = &layout.cells;
    let mut slots = Vec::with_capacity(alloc, cells.len().saturating_mul(count as usize))?;
    'each: for element in 0..count {
        push_element(&mut slots, is_begun, element, layout.bytes, cells)?;
    }
    Ok(slots)
}

/// The most cells of an object that are made when it begins.
const MOST_MADE: usize = 16;

/// A number of elements of a layout, which hold nothing as yet: where they have many cells they aren't made before something is stored to them. Fails
/// only where no host memory is left.
pub fn blank_block(alloc: Global, layout: &Rc<Layout>, count: u32) -> Result<Object, AllocError>
    ensures { IfOk result (λ block. cells_of block ≡ block_cells false layout.now.value count) }
{
    if layout.cells.len().saturating_mul(count as usize) > MOST_MADE {
        Ok(Object::Begun(Begun::new(alloc, layout, count)?))
    } else {
        Ok(Object::Whole(block_cells(alloc, false, layout.as_ref(), count)?))
    }
}

/// A local or a temporary object, which holds nothing as yet, and whether all its cells are made at once.
fn blank_object(alloc: Global, local: &Local, is_made: bool) -> Result<Object, AllocError>
    ensures { IfOk result (λ object. cells_of object ≡ blank_object local.now) }
{
    match local {
        Local::Scalar(cell) => scalar(alloc, Held::first(*cell).blanked()),
        Local::Whole(layout, count) => {
            if is_made {
                Ok(Object::Whole(block_cells(alloc, false, layout.as_ref(), *count)?))
            } else {
                blank_block(alloc, layout, *count)
            }
        }
    }
}

/// These locals or temporary objects more, which hold nothing as yet, and whether all their cells are made at once.
pub fn push_blanks(
    alloc: Global,
    objects: &mut Vec<Object>,
    locals: &[Local],
    is_made: bool,
) -> Result<(), AllocError>
    ensures { OnOk result (map cells_of objects.new.items ≡ map cells_of objects.old.items ++ map blank_object locals.now) }
{
    'each: for local in locals {
        objects.push(blank_object(alloc, local, is_made)?)?;
    }
    Ok(())
}

/// These temporary objects, which hold nothing as yet. A call may use few of them.
pub fn blank_objects(alloc: Global, locals: &[Local]) -> Result<Vec<Object>, AllocError>
    ensures { IfOk result (λ objects. map cells_of objects.items ≡ map blank_object locals.now) }
{
    let mut objects = Vec::with_capacity(alloc, locals.len())?;
    push_blanks(alloc, &mut objects, locals, false)?;
    Ok(objects)
}

/// A char of a string more, right behind the others. Fails only where no host memory is left.
fn push_char(slots: &mut Vec<Slot>, byte: u8) -> Result<(), AllocError>
    ensures { OnOk result (slots.new.items ≡ slots.old.items ++ char_slot (vec_len slots.old) byte ∷ []) }
{
    slots.push(Slot {
        offset: slots.len() as u64,
        padding: 0,
        held: Held::Byte(Value::Word(u32::from(byte))),
    })?;
    Ok(())
}

/// The cells of a string, and of the 0 behind its bytes.
fn text_cells(alloc: Global, bytes: &[u8]) -> Result<Vec<Slot>, AllocError>
    ensures { IfOk result (λ slots. slots.items ≡ text_cells 0 bytes.now) }
{
    let mut slots = Vec::new(alloc);
    'each: for byte in bytes {
        push_char(&mut slots, *byte)?;
    }
    push_char(&mut slots, 0)?;
    Ok(slots)
}

/// A pointer to the first element of the global or string of a number.
fn first_element(object: usize) -> Value
    ensures { result ≡ first_element object }
{
    Value::Pointer(Place {
        area: Area::Globals,
        object,
        byte: 0,
        cell: 0,
    })
}

/// What a global or a string begins as.
fn first_object(alloc: Global, datum: &Datum) -> Result<Object, AllocError>
    ensures { IfOk result (λ object. cells_of object ≡ first_object datum.now) }
{
    match datum {
        Datum::Byte(byte) => scalar(alloc, Held::Byte(Value::Word(*byte as u32))),
        Datum::Word(word) => scalar(alloc, Held::Word(Value::Word(*word))),
        Datum::Null => scalar(alloc, Held::Word(Value::Null)),
        Datum::Text(bytes) => Ok(Object::Whole(text_cells(alloc, bytes)?)),
        Datum::Address(object) => scalar(alloc, Held::Word(first_element(*object))),
        Datum::Bounds(object, count) => scalar(
            alloc,
            Held::Fat(first_element(*object), Bound::Word(*count), Bound::Word(0)),
        ),
        Datum::Whole(layout, count) => Ok(Object::Whole(block_cells(
            alloc,
            true,
            layout.as_ref(),
            *count,
        )?)),
    }
}

/// What the globals and strings begin as.
pub fn first_objects(alloc: Global, globals: &[Datum]) -> Result<Vec<Object>, AllocError>
    ensures { IfOk result (λ objects. map cells_of objects.items ≡ map first_object globals.now) }
{
    let mut objects = Vec::new(alloc);
    'each: for datum in globals {
        objects.push(first_object(alloc, datum)?)?;
    }
    Ok(objects)
}
