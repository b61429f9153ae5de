// Instructions for operations on pointers and on memory.

ghost use Rattle.std.specs.Prelude.{◌≡◌, ◌+◌, ◌<◌, true, ◌++◌, Some, None, OnOk};
ghost use Rattle.core_meaning.specs.Core as core;
ghost use Rattle.core_lines.specs.Held.{result_register};
ghost use Rattle.core_lines.specs.Operands.{number_kept};
ghost use Rattle.core_lines.specs.Selected.{exponent_of, times_code, element_code, further_code, operation_code, operand, has_operand, keep_result, nth};
ghost use Rattle.cyc_core.specs.Trees.{distance_tree};
ghost use Rattle.rv32_machine.specs.State.{data_base};
ghost use Rattle.rv32_select.specs.Places.{surroundings};

use crate::emit::{FIRST, SECOND, put, put_further, put_number, put_read, put_write};
use crate::held::result_register;
use crate::operands::{put_number_kept, put_operand, put_result, put_value};
use crate::place::Place;
use crate::words::put_binary;
use core_lines::Line;
use cyc_core::{Binary, Distance, Temporary};
use rv32_isa::{Instr, Register, ShiftAmount};
use std::alloc::AllocError;

/// Appends what gives a temporary the address this number of bytes above that in another one.
pub fn put_offset(
    lines: &mut Vec<Line>,
    place: &Place,
    keeps: bool,
    to: Temporary,
    pointer: Temporary,
    bytes: u32,
) -> Result<(), AllocError>
    ensures { let u = surroundings place.now in OnOk result (lines.new.items ≡ lines.old.items
        ++ operand u 5 pointer.0 ++ further_code (result_register to.0) (has_operand u 5 pointer.0) bytes ++ keep_result keeps u to.0) }
{
    let from = put_operand(lines, place, FIRST, pointer)?;
    put_further(lines, result_register(to), from, u64::from(bytes))?;
    put_result(lines, place, keeps, to)
}

/// Appends what puts the address of an element of one byte into a register.
fn put_byte_element(
    lines: &mut Vec<Line>,
    place: &Place,
    to: Register,
    pointer: Temporary,
    index: Temporary,
) -> Result<(), AllocError>
    ensures { OnOk result (lines.new.items ≡ lines.old.items ++ element_code (surroundings place.now) to pointer.0 index.0 1) }
{
    let count = put_operand(lines, place, FIRST, index)?;
    let from = put_operand(lines, place, SECOND, pointer)?;
    put(lines, Instr::Add(to, count, from))
}

/// Appends a multiplication of a register by an element's bytes.
fn put_product(lines: &mut Vec<Line>, left: Register, bytes: u32) -> Result<(), AllocError>
    ensures { OnOk result (lines.new.items ≡ lines.old.items ++ times_code None left bytes) }
{
    put_number(lines, SECOND, u64::from(bytes))?;
    put(lines, Instr::Mul(FIRST, left, SECOND))
}

/// Appends a shift of a register.
fn put_shift(lines: &mut Vec<Line>, left: Register, exponent: u8) -> Result<(), AllocError>
    requires { exponent < 32 }
    ensures { OnOk result (lines.new.items ≡ lines.old.items ++ times_code (Some exponent) left 0) }
{
    put(lines, Instr::Slli(FIRST, left, ShiftAmount::new(exponent)))
}

/// Appends what multiplies a register by an element's bytes: a shift where that does it.
fn put_times(lines: &mut Vec<Line>, left: Register, bytes: u32) -> Result<(), AllocError>
    ensures { OnOk result (lines.new.items ≡ lines.old.items ++ times_code (exponent_of bytes) left bytes) }
{
    match bytes {
        2 => put_shift(lines, left, 1),
        4 => put_shift(lines, left, 2),
        8 => put_shift(lines, left, 3),
        16 => put_shift(lines, left, 4),
        _ => put_product(lines, left, bytes),
    }
}

/// Appends what puts the address of an element of this number of bytes, which is not 1, into a register.
fn put_long_element(
    lines: &mut Vec<Line>,
    place: &Place,
    to: Register,
    pointer: Temporary,
    index: Temporary,
    bytes: u32,
) -> Result<(), AllocError>
    requires { (bytes ≡ 1) → ⊥ }
    ensures { OnOk result (lines.new.items ≡ lines.old.items ++ element_code (surroundings place.now) to pointer.0 index.0 bytes) }
{
    let count = put_operand(lines, place, FIRST, index)?;
    put_times(lines, count, bytes)?;
    let from = put_operand(lines, place, SECOND, pointer)?;
    put(lines, Instr::Add(to, FIRST, from))
}

/// Appends what puts the address of an element of this number of bytes into a register.
fn put_element_address(
    lines: &mut Vec<Line>,
    place: &Place,
    to: Register,
    pointer: Temporary,
    index: Temporary,
    bytes: u32,
) -> Result<(), AllocError>
    ensures { OnOk result (lines.new.items ≡ lines.old.items ++ element_code (surroundings place.now) to pointer.0 index.0 bytes) }
{
    if bytes == 1 {
        put_byte_element(lines, place, to, pointer, index)
    } else {
        put_long_element(lines, place, to, pointer, index, bytes)
    }
}

/// Appends what gives a temporary the address of an element of this number of bytes.
pub fn put_element(
    lines: &mut Vec<Line>,
    place: &Place,
    keeps: bool,
    to: Temporary,
    pointer: Temporary,
    index: Temporary,
    bytes: u32,
) -> Result<(), AllocError>
    ensures { let u = surroundings place.now in OnOk result (lines.new.items ≡ lines.old.items
        ++ element_code u (result_register to.0) pointer.0 index.0 bytes ++ keep_result keeps u to.0) }
{
    put_element_address(lines, place, result_register(to), pointer, index, bytes)?;
    put_result(lines, place, keeps, to)
}

/// Appends what gives a temporary whether two others are the same pointer.
pub fn put_same(
    lines: &mut Vec<Line>,
    place: &Place,
    keeps: bool,
    to: Temporary,
    first: Temporary,
    second: Temporary,
) -> Result<(), AllocError>
    ensures { OnOk result (lines.new.items ≡ lines.old.items
        ++ operation_code keeps (surroundings place.now) (core.SamePlace to.0 first.0 second.0)) }
{
    let left = put_operand(lines, place, FIRST, first)?;
    let right = put_operand(lines, place, SECOND, second)?;
    put_binary(lines, Binary::Equal, result_register(to), left, right)?;
    put_result(lines, place, keeps, to)
}

/// Appends what gives a temporary the part that lies so far from where another one points.
pub fn put_loaded_part(
    lines: &mut Vec<Line>,
    place: &Place,
    keeps: bool,
    to: Temporary,
    pointer: Temporary,
    distance: Distance,
) -> Result<(), AllocError>
    ensures { OnOk result (lines.new.items ≡ lines.old.items
        ++ operation_code keeps (surroundings place.now) (core.Load to.0 pointer.0 (distance_tree distance))) }
{
    let from = put_operand(lines, place, FIRST, pointer)?;
    let (own, bytes) = (result_register(to), u64::from(distance.bytes));
    put_read(lines, own, distance.width, from, bytes)?;
    put_result(lines, place, keeps, to)
}

/// Appends what gives the part that lies so far from where a temporary points the word of another one.
pub fn put_stored_part(
    lines: &mut Vec<Line>,
    place: &Place,
    pointer: Temporary,
    distance: Distance,
    from: Temporary,
) -> Result<(), AllocError>
    ensures { OnOk result (lines.new.items ≡ lines.old.items
        ++ operation_code true (surroundings place.now) (core.Store pointer.0 (distance_tree distance) from.0)) }
{
    let to = put_operand(lines, place, FIRST, pointer)?;
    let value = put_value(lines, place, from)?;
    put_write(lines, value, distance.width, to, u64::from(distance.bytes))
}

/// Appends what gives a temporary the address of a global.
pub fn put_data_address(
    lines: &mut Vec<Line>,
    place: &Place,
    keeps: bool,
    to: Temporary,
    object: usize,
) -> Result<(), AllocError>
    ensures { let u = surroundings place.now in OnOk result (lines.new.items ≡ lines.old.items
        ++ number_kept keeps u.passed to.0 (data_base + nth u.statics object)) }
{
    let address = place.data_address(object)?;
    put_number_kept(lines, place, keeps, to, address)
}
