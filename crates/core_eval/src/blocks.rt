// Blocks and functions that are active, each with its objects, the innermost first.

ghost use Rattle.std.specs.Prelude.{◌≡◌, ℕ, Some, None, false, if◌then◌else◌, map, option_map, IfOk, IfSome, OnOk};
ghost use Rattle.core_eval.specs.Blocks.{Descends, activation_of, position_of, put_through, slot_through};
ghost use Rattle.core_eval.specs.Values.{cell_in, value_of};
ghost use Rattle.core_eval.specs.Elements.{cells_of};
ghost use Rattle.core_eval.specs.Whole.{fill_through};

use crate::held::Held;
use crate::objects::{fill_in, object_in, put_in, slot_in, value_in, word_in};
use crate::value::{Object, Part, Slot, Value};
use cyc_core::Width;
use std::alloc::{AllocError, Global};
use std::collections::VecDeque;

/// The locals of a block that isn't left yet, or the temporary objects of a function that is active.
#[derive(Drop)]
pub struct Block {
    /// How many blocks were entered, or functions called, before it.
    pub number: u64,
    /// Its objects.
    pub objects: Vec<Object>,
}

/// Where the one with this number stands, if it isn't left yet.
pub fn position_of(blocks: &VecDeque<Block>, number: u64) -> Option<usize>
    ensures { (bound : ℕ) → Descends bound (map activation_of blocks.now.items) → result ≡ position_of (map activation_of blocks.now.items) number }
{
    let position = blocks.partition_point(|block| number < block.number);
    match blocks.get(position) {
        Some(block) if block.number == number => Some(position),
        _ => None,
    }
}

/// A cell of an object of the one that stands there.
fn slot_at(blocks: &VecDeque<Block>, position: usize, index: usize, cell: u64) -> Option<Slot>
    ensures { result ≡ slot_through (map activation_of blocks.now.items) (Some position) index cell }
{
    match blocks.get(position) {
        Some(block) => slot_in(&block.objects, index, cell),
        None => None,
    }
}

/// An object of the one that stands there.
fn object_at(blocks: &VecDeque<Block>, position: usize, index: usize) -> Option<&Object>
    ensures { (k : ℕ) → slot_through (map activation_of blocks.now.items) (Some position) index k
        ≡ cell_in (option_map (λ object. cells_of object.now) result) k }
{
    match blocks.get(position) {
        Some(block) => object_in(&block.objects, index),
        None => None,
    }
}

/// What a part of an object of the one that stands there holds, if there is one that lies there and has this width.
pub fn value_at(
    blocks: &VecDeque<Block>,
    position: usize,
    index: usize,
    part: Part,
) -> Option<Value>
    ensures { result ≡ value_of part.byte part.number part.width
        (slot_through (map activation_of blocks.now.items) (Some position) index part.cell) }
{
    match blocks.get(position) {
        Some(block) => value_in(&block.objects, index, part),
        None => None,
    }
}

/// The word that an object of the one that stands there holds, if it is of one cell of one word.
pub fn word_at(blocks: &VecDeque<Block>, position: usize, index: usize) -> Option<u32>
    ensures { IfSome result (λ word. value_of 0 0 Width.Word (slot_through (map activation_of blocks.now.items) (Some position) index 0) ≡ Some (Value.Word word)) }
{
    match blocks.get(position) {
        Some(block) => word_in(&block.objects, index),
        None => None,
    }
}

/// A cell of an object of the one with this number.
pub fn slot_by(blocks: &VecDeque<Block>, number: u64, index: usize, cell: u64) -> Option<Slot>
    ensures { (bound : ℕ) → Descends bound (map activation_of blocks.now.items)
        → result ≡ slot_through (map activation_of blocks.now.items) (position_of (map activation_of blocks.now.items) number) index cell }
{
    match position_of(blocks, number) {
        Some(position) => slot_at(blocks, position, index, cell),
        None => None,
    }
}

/// An object of the one with this number.
pub fn object_by(blocks: &VecDeque<Block>, number: u64, index: usize) -> Option<&Object>
    ensures { (bound : ℕ) → Descends bound (map activation_of blocks.now.items) → (k : ℕ)
        → slot_through (map activation_of blocks.now.items) (position_of (map activation_of blocks.now.items) number) index k
        ≡ cell_in (option_map (λ object. cells_of object.now) result) k }
{
    match position_of(blocks, number) {
        Some(position) => object_at(blocks, position, index),
        None => None,
    }
}

/// Stores a value to a part of an object of the one that stands there, if there is one that lies there and has this width, and answers whether
/// there is. Fails only where no host memory is left.
pub fn set_at(
    blocks: &mut VecDeque<Block>,
    position: usize,
    index: usize,
    part: Part,
    value: Value,
) -> Result<bool, AllocError>
    ensures put { IfOk result (λ is_put. put_through (map activation_of blocks.old.items) (Some position)
        index part.cell part.byte part.number part.width value
        ≡ (if is_put then Some (map activation_of blocks.new.items) else None)) }
    ensures kept { IfOk result (λ is_put. is_put ≡ false → map activation_of blocks.new.items ≡ map activation_of blocks.old.items) }
{
    match blocks.get_mut(position) {
        Some(block) => put_in(&mut block.objects, index, part, value),
        None => Ok(false),
    }
}

/// Stores a value to a part of an object of the one with this number, if it isn't left yet and there is one that lies there and has this width,
/// and answers whether there is. Fails only where no host memory is left.
pub fn set_by(
    blocks: &mut VecDeque<Block>,
    number: u64,
    index: usize,
    part: Part,
    value: Value,
) -> Result<bool, AllocError>
    ensures put { IfOk result (λ is_put. (bound : ℕ) → Descends bound (map activation_of blocks.old.items)
        → put_through (map activation_of blocks.old.items) (position_of (map activation_of blocks.old.items) number)
        index part.cell part.byte part.number part.width value
        ≡ (if is_put then Some (map activation_of blocks.new.items) else None)) }
    ensures kept { IfOk result (λ is_put. is_put ≡ false → map activation_of blocks.new.items ≡ map activation_of blocks.old.items) }
{
    match position_of(blocks, number) {
        Some(position) => set_at(blocks, position, index, part, value),
        None => Ok(false),
    }
}

/// The cells of an object of the one that stands there get these values, from one on. Fails only where no host memory is left, or there would
/// be a cell with a number over 2^64 - 1.
fn fill_at(
    blocks: &mut VecDeque<Block>,
    position: usize,
    index: usize,
    cell: u64,
    values: &[Held],
) -> Result<(), AllocError>
    ensures { OnOk result (map activation_of blocks.new.items
        ≡ fill_through (map activation_of blocks.old.items) (Some position) index cell values.now) }
{
    match blocks.get_mut(position) {
        Some(block) => fill_in(&mut block.objects, index, cell, values),
        None => Ok(()),
    }
}

/// The cells of an object of the one with this number get these values, from one on, if it isn't left yet. Fails only where no host
/// memory is left, or there would be a cell with a number over 2^64 - 1.
pub fn fill_by(
    blocks: &mut VecDeque<Block>,
    number: u64,
    index: usize,
    cell: u64,
    values: &[Held],
) -> Result<(), AllocError>
    ensures { OnOk result ((bound : ℕ) → Descends bound (map activation_of blocks.old.items)
        → map activation_of blocks.new.items
        ≡ fill_through (map activation_of blocks.old.items) (position_of (map activation_of blocks.old.items) number) index cell values.now) }
{
    match position_of(blocks, number) {
        Some(position) => fill_at(blocks, position, index, cell, values),
        None => Ok(()),
    }
}
