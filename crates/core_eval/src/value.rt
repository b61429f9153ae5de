// What temporaries and objects hold.

ghost use Rattle.std.specs.Prelude.{◌≡◌, ◌+◌, ◌∷◌, [], IfOk, IfSome, OnOk, Some, None, false, if◌then◌else◌, slice_get, slice_set};
ghost use Rattle.cyc_core.specs.Trees.{bytes_of};
ghost use Rattle.core_eval.specs.Values.{fitted, is_fit, is_kept, put_cell, put_within, same_width, value_of};
ghost use Rattle.core_eval.specs.Elements.{cells_of, word_slot};
ghost use Rattle.core_eval.specs.Whole.{fill_cells, fill_slot};

use crate::begun::Begun;
use crate::held::Held;
use cyc_core::Width;
use std::alloc::{AllocError, Global};

/// What has objects.
#[derive(Clone, Copy)]
pub enum Area {
    /// The program with its globals, and the heap, whose blocks come behind them.
    Globals,
    /// A region that was born, with its blocks, by how many were before it.
    Region(u64),
    /// A block, with its locals, by how many blocks were entered before it.
    Block(u64),
    /// A function that is active, with its temporary objects, by how many functions were called before it.
    Own(u64),
}

/// Where a pointer leads.
#[derive(Clone, Copy)]
pub struct Place {
    /// What has the object.
    pub area: Area,
    /// The number of the object there.
    pub object: usize,
    /// How many bytes of the object lie before.
    pub byte: u64,
    /// The number of the cell in the object.
    pub cell: u64,
}

/// A part of an object.
#[derive(Clone, Copy)]
pub struct Part {
    /// The number of its cell.
    pub cell: u64,
    /// How many bytes of the object lie before it.
    pub byte: u64,
    /// Its number in the cell.
    pub number: u8,
    /// How wide it is.
    pub width: Width,
}

impl Part {
    /// The first part of an object.
    pub fn first(width: Width) -> Self
        ensures { result ≡ record { cell = 0; byte = 0; number = 0; width = width } }
    {
        Part {
            cell: 0,
            byte: 0,
            number: 0,
            width,
        }
    }
}

/// What a temporary or a cell holds.
#[derive(Clone, Copy)]
pub enum Value {
    /// Nothing as yet.
    Blank,
    /// A word.
    Word(u32),
    /// No place.
    Null,
    /// A place.
    Pointer(Place),
    /// The handle or the key of a region: how many were born before it. The heap is the first.
    Birth(u64),
}

/// A cell of an object.
#[derive(Clone, Copy)]
pub struct Slot {
    /// How many bytes of the object lie before it.
    pub offset: u64,
    /// How many bytes behind its parts hold nothing.
    pub padding: u32,
    /// What it holds.
    pub held: Held,
}

impl Slot {
    /// What the part with this number holds, if there is one that lies this number of bytes on and has this width.
    fn value(&self, byte: u64, part: u8, width: Width) -> Option<Value>
        ensures { result ≡ value_of byte part width (Some self.now) }
    {
        if is_fit(byte, part, width, self) {
            self.held.part(part)
        } else {
            None
        }
    }

    /// Stores a value to the part with this number, if there is one that lies this number of bytes on and has this width, and answers whether
    /// there is.
    pub fn put(&mut self, byte: u64, part: u8, width: Width, value: Value) -> bool
        ensures put { put_within self.old byte part width value ≡ (if result then Some self.new else None) }
        ensures kept { result ≡ false → self.new ≡ self.old }
    {
        if is_fit(byte, part, width, self) {
            self.held.put(part, fitted(width, value))
        } else {
            false
        }
    }
}

/// The cell of an object of one word.
fn word_slot(value: Value) -> Slot
    ensures { result ≡ word_slot value }
{
    Slot {
        offset: 0,
        padding: 0,
        held: Held::Word(value),
    }
}

/// What a cell holds, if it is that of an object of one word.
#[tactic(auto, using(crate::proofs::WordCells::is_word))]
fn one_word(slot: Slot) -> Option<Value>
    ensures { IfSome result (λ value. slot ≡ word_slot value) }
{
    match slot.held {
        Held::Word(value) => {
            if slot.offset == 0 && slot.padding == 0 {
                Some(value)
            } else {
                None
            }
        }
        _ => None,
    }
}

/// Stores a value to a part of an object of one word, if there is one that lies there and has this width, and answers whether there is.
fn put_word(held: &mut Value, part: Part, value: Value) -> bool
    ensures put { put_cell (word_slot held.old ∷ []) part.cell part.byte part.number part.width value
        ≡ (if result then Some (word_slot held.new ∷ []) else None) }
    ensures kept { result ≡ false → held.new ≡ held.old }
{
    if part.cell != 0 {
        return false;
    }
    let mut slot = word_slot(*held);
    let is_put = slot.put(part.byte, part.number, part.width, value);
    if is_put {
        *held = slot.held.value();
        true
    } else {
        false
    }
}

/// A local, a temporary object, a global or a block of a region.
#[derive(Drop)]
pub enum Object {
    /// Of one cell of one word.
    Word(Value),
    /// Of one other cell.
    Scalar(Box<Slot>),
    /// Of these cells.
    Whole(Vec<Slot>),
    /// Of these elements.
    Begun(Begun),
}

impl Object {
    /// The cell with this number, if there is one.
    pub fn slot(&self, cell: u64) -> Option<Slot>
        ensures { result ≡ slice_get (cells_of self.now) cell }
    {
        match self {
            Object::Word(value) => {
                if cell == 0 {
                    Some(word_slot(*value))
                } else {
                    None
                }
            }
            Object::Scalar(slot) => { if cell == 0 { Some(**slot) } else { None } }
            Object::Whole(slots) => match slots.get(cell as usize) {
                Some(slot) => Some(*slot),
                None => None,
            },
            Object::Begun(begun) => begun.slot(cell),
        }
    }

    /// What a part of it holds, if there is one that lies there and has this width.
    pub fn value(&self, part: Part) -> Option<Value>
        ensures { result ≡ value_of part.byte part.number part.width (slice_get (cells_of self.now) part.cell) }
    {
        match self {
            Object::Word(value) => {
                if part.cell == 0 {
                    word_slot(*value).value(part.byte, part.number, part.width)
                } else {
                    None
                }
            }
            Object::Scalar(slot) => {
                if part.cell == 0 {
                    slot.value(part.byte, part.number, part.width)
                } else {
                    None
                }
            }
            Object::Whole(slots) => match slots.get(part.cell as usize) {
                Some(slot) => slot.value(part.byte, part.number, part.width),
                None => None,
            },
            Object::Begun(begun) => value_of(
                begun.slot(part.cell),
                part.byte,
                part.number,
                part.width,
            ),
        }
    }

    /// The word that it holds, if it is of one cell of one word.
    pub fn word(&self) -> Option<u32>
        ensures { IfSome result (λ word. value_of 0 0 Width.Word (slice_get (cells_of self.now) 0) ≡ Some (Value.Word word)) }
    {
        match self {
            Object::Word(value) => match value {
                Value::Word(word) => Some(*word),
                _ => None,
            },
            _ => None,
        }
    }

    /// Sets the cell with this number, if there is one. Fails only where no host memory is left, or it is the cell of an object of one word and would
    /// be another one.
    fn set(&mut self, cell: u64, slot: Slot) -> Result<(), AllocError>
        ensures { OnOk result (cells_of self.new ≡ slice_set (cells_of self.old) cell slot) }
    {
        match self {
            Object::Word(old) => {
                if cell == 0 {
                    let Some(value) = one_word(slot) else {
                        return Err(AllocError);
                    };
                    *old = value;
                }
            }
            Object::Scalar(old) => {
                if cell == 0 {
                    **old = slot;
                }
            }
            Object::Whole(slots) => {
                if let Some(old) = slots.get_mut(cell as usize) {
                    *old = slot;
                }
            }
            Object::Begun(begun) => begun.set(cell, slot)?,
        }
        Ok(())
    }

    /// The cell with this number gets other values in as many of its parts as these are, if there is one. Fails only where no host memory is
    /// left.
    fn fill_one(&mut self, cell: u64, held: Held) -> Result<(), AllocError>
        ensures { OnOk result (cells_of self.new ≡ fill_slot (cells_of self.old) cell held (slice_get (cells_of self.old) cell)) }
    {
        match self.slot(cell) {
            Some(slot) => self.set(
                cell,
                Slot {
                    held: slot.held.refilled(held),
                    ..slot
                },
            ),
            None => Ok(()),
        }
    }

    /// The cells from one on get these values. Fails only where no host memory is left, or there would be a cell with a number over 2^64 - 1.
    pub fn fill(&mut self, cell: u64, values: &[Held]) -> Result<(), AllocError>
        ensures { OnOk result (cells_of self.new ≡ fill_cells (cells_of self.old) cell values.now) }
    {
        let mut at = cell;
        'each: for held in values {
            self.fill_one(at, *held)?;
            at = further(at, 1)?;
        }
        Ok(())
    }

    /// Stores a value to a part of it, if there is one that lies there and has this width, and answers whether there is. Fails only where no
    /// host memory is left.
    pub fn put(&mut self, part: Part, value: Value) -> Result<bool, AllocError>
        ensures put { IfOk result (λ is_put. put_cell (cells_of self.old) part.cell part.byte part.number part.width value
            ≡ (if is_put then Some (cells_of self.new) else None)) }
        ensures kept { IfOk result (λ is_put. is_put ≡ false → self.new ≡ self.old) }
    {
        match self {
            Object::Word(held) => Ok(put_word(held, part, value)),
            Object::Scalar(slot) => Ok(
                part.cell == 0 && slot.put(part.byte, part.number, part.width, value),
            ),
            Object::Whole(slots) => {
                let Some(slot) = slots.get(part.cell as usize) else {
                    return Ok(false);
                };
                let mut changed = *slot;
                let is_put = changed.put(part.byte, part.number, part.width, value);
                if is_put {
                    slots[part.cell as usize] = changed;
                }
                Ok(is_put)
            }
            Object::Begun(begun) => begun.put(part, value),
        }
    }
}

/// Whether two widths are the same.
pub fn is_same(first: Width, second: Width) -> bool
    ensures { result ≡ same_width first second }
{
    match (first, second) {
        (Width::Byte, Width::Byte) | (Width::Word, Width::Word) => true,
        _ => false,
    }
}

/// What a part of a width can hold of a value: a byte has the low bits of a word, and nothing else.
fn fitted(width: Width, value: Value) -> Value
    ensures { result ≡ fitted width value }
{
    match (width, value) {
        (Width::Word, _) => value,
        (Width::Byte, Value::Word(word)) => Value::Word(word % 256),
        (Width::Byte, _) => Value::Blank,
    }
}

/// How many bytes a width is.
fn bytes_of(width: Width) -> u64
    ensures { result ≡ bytes_of width }
{
    match width {
        Width::Byte => 1,
        Width::Word => 4,
    }
}

/// Whether the part of a cell with this number lies this number of bytes on, and has this width.
fn is_fit(byte: u64, part: u8, width: Width, slot: &Slot) -> bool
    ensures { result ≡ is_fit byte part width slot.now }
{
    let own = slot.held.width();
    slot.offset <= byte
        && byte - slot.offset == u64::from(part) * bytes_of(own)
        && is_same(own, width)
}

/// Whether the part of a cell with this number may be one that has a value: behind the first part of a cell a byte is one that holds nothing.
pub fn is_kept(part: u8, width: Width) -> bool
    ensures { result ≡ is_kept part width }
{
    part == 0 || is_same(width, Width::Word)
}

/// What a part of a cell holds, if there is one, and it lies this number of bytes on and has this width.
pub fn value_of(slot: Option<Slot>, byte: u64, part: u8, width: Width) -> Option<Value>
    ensures { result ≡ value_of byte part width slot }
{
    match slot {
        Some(slot) => slot.value(byte, part, width),
        None => None,
    }
}

/// How many cells or bytes lie before what lies `by` further on, where `before` lie before the first. Fails only where that is over 2^64 - 1.
pub fn further(before: u64, by: u32) -> Result<u64, AllocError>
    ensures { IfOk result (λ n. n ≡ before + by) }
{
    match before.checked_add(u64::from(by)) {
        Some(sum) => Ok(sum),
        None => Err(AllocError),
    }
}
