// Instructions for an operation.

ghost use Rattle.std.specs.Prelude.{◌≡◌, ◌<◌, true, ◌++◌, OnOk};
ghost use Rattle.core_lines.specs.Frames.{environment_code};
ghost use Rattle.core_lines.specs.Selected.{argument_code, keep_answer, operation_code};
ghost use Rattle.cyc_core.specs.Trees.{operation_tree};
ghost use Rattle.rv32_select.specs.Places.{surroundings, calls_environment};

use crate::emit::put_environment;
use crate::locals::{put_get, put_own_address, put_put};
use crate::memory::{
    put_data_address, put_element, put_loaded_part, put_offset, put_same, put_stored_part,
};
use crate::nulls::put_is_null;
use crate::operands::{put_into, put_kept, put_moved, put_number_kept};
use crate::place::{HEAP, Place};
use crate::words::{put_apply, put_narrow};
use core_lines::Line;
use cyc_core::{Operation, Temporary};
use rv32_isa::Register;
use rv32_machine::{
    GETCHAR, KEY_CLOSE, KEY_FREE, KEY_NEW, KEY_OPEN, PUTCHAR, REGION_FREE, REGION_NEW, UNIQUE_FREE,
};
use std::alloc::AllocError;

/// Appends a call of the environment that gives a temporary its word.
fn put_made(
    lines: &mut Vec<Line>,
    place: &Place,
    keeps: bool,
    number: u32,
    to: Temporary,
) -> Result<(), AllocError>
    requires { number < 2048 }
    ensures { OnOk result (lines.new.items ≡ lines.old.items ++ environment_code number ++ keep_answer keeps (surroundings place.now) to.0) }
{
    put_environment(lines, number)?;
    put_kept(lines, place, keeps, Register::ARGUMENT_0, to)
}

/// Appends a call of the environment whose argument is a temporary's word.
fn put_given(
    lines: &mut Vec<Line>,
    place: &Place,
    number: u32,
    from: Temporary,
) -> Result<(), AllocError>
    requires { number < 2048 }
    ensures { OnOk result (lines.new.items ≡ lines.old.items ++ argument_code (surroundings place.now) from.0 ++ environment_code number) }
{
    put_into(lines, place, Register::ARGUMENT_0, from)?;
    put_environment(lines, number)
}

/// Appends the instructions of an operation that calls the environment.
fn put_environment_operation(
    lines: &mut Vec<Line>,
    place: &Place,
    keeps: bool,
    operation: Operation,
) -> Result<(), AllocError>
    requires { calls_environment operation ≡ true }
    ensures { OnOk result (lines.new.items ≡ lines.old.items ++ operation_code keeps (surroundings place.now) (operation_tree operation)) }
{
    match operation {
        Operation::Getchar(to) => put_made(lines, place, keeps, GETCHAR, to),
        Operation::Putchar(to, from) => {
            put_given(lines, place, PUTCHAR, from)?;
            put_kept(lines, place, keeps, Register::ARGUMENT_0, to)
        }
        Operation::RegionNew(to) => put_made(lines, place, keeps, REGION_NEW, to),
        Operation::RegionFree(handle) => put_given(lines, place, REGION_FREE, handle),
        Operation::UniqueFree(pointer) => put_given(lines, place, UNIQUE_FREE, pointer),
        Operation::KeyNew(to) => put_made(lines, place, keeps, KEY_NEW, to),
        Operation::KeyOpen(key) => put_given(lines, place, KEY_OPEN, key),
        Operation::KeyClose(key) => put_given(lines, place, KEY_CLOSE, key),
        Operation::KeyFree(key) => put_given(lines, place, KEY_FREE, key),
        _ => Ok(()),
    }
}

/// Appends the instructions of an operation.
pub fn put_operation(
    lines: &mut Vec<Line>,
    place: &Place,
    keeps: bool,
    operation: Operation,
) -> Result<(), AllocError>
    ensures { OnOk result (lines.new.items ≡ lines.old.items ++ operation_code keeps (surroundings place.now) (operation_tree operation)) }
{
    match operation {
        Operation::Constant(to, word) => put_number_kept(lines, place, keeps, to, u64::from(word)),
        Operation::NullPointer(to) => put_kept(lines, place, keeps, Register::ZERO, to),
        Operation::HeapHandle(to) => put_number_kept(lines, place, keeps, to, HEAP),
        Operation::DataAddress(to, object) => put_data_address(lines, place, keeps, to, object),
        Operation::Move(to, from) => put_moved(lines, place, keeps, to, from),
        Operation::Narrow(to, from) => put_narrow(lines, place, keeps, to, from),
        Operation::Apply(binary, to, left, right) => {
            put_apply(lines, place, keeps, binary, to, left, right)
        }
        Operation::LocalAddress(to, variable) => {
            let (offset, _) = place.local(variable);
            put_own_address(lines, place, keeps, to, offset)
        }
        Operation::OwnAddress(to, object) => {
            put_own_address(lines, place, keeps, to, place.own_offset(object))
        }
        Operation::Get(width, to, variable) => put_get(lines, place, keeps, to, variable, width),
        Operation::Put(width, from, variable) => put_put(lines, place, variable, width, from),
        Operation::Offset(to, pointer, _, bytes) => {
            put_offset(lines, place, keeps, to, pointer, bytes)
        }
        Operation::Element(to, pointer, index, _, bytes) => {
            put_element(lines, place, keeps, to, pointer, index, bytes)
        }
        Operation::IsNull(to, pointer) => put_is_null(lines, place, keeps, to, pointer),
        Operation::SamePlace(to, first, second) => put_same(lines, place, keeps, to, first, second),
        Operation::Load(to, from, part) => put_loaded_part(lines, place, keeps, to, from, part),
        Operation::Store(pointer, part, from) => put_stored_part(lines, place, pointer, part, from),
        _ => put_environment_operation(lines, place, keeps, operation),
    }
}
