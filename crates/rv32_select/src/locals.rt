// Instructions for an operation on a local or a temporary object.

ghost use Rattle.std.specs.Prelude.{◌≡◌, ◌++◌, OnOk, if◌then◌else◌, nat_eq};
ghost use Rattle.core_lines.specs.Held.{result_register};
ghost use Rattle.core_lines.specs.Operands.{into_code};
ghost use Rattle.core_lines.specs.Selected.{address_code, keep_result};
ghost use Rattle.core_lines.specs.Selected.{get_code, put_code, byte_code, local_home, local_offset};
ghost use Rattle.cyc_core.specs.Trees.{bytes_of};
ghost use Rattle.rv32_select.specs.Places.{surroundings};

use crate::emit::{SECOND, put, put_address, put_read, put_write};
use crate::held::result_register;
use crate::operands::{put_into, put_kept, put_operand, put_result, put_value};
use crate::place::Place;
use core_lines::Line;
use cyc_core::{Temporary, Variable, Width};
use rv32_isa::{Instr, Register, Signed12};
use std::alloc::AllocError;

/// Appends what gives a temporary what a local holds: nothing but its save where the local has a home.
#[tactic(auto, using(crate::proofs::Shrinking::got_without, crate::proofs::Shrinking::got_with))]
pub fn put_get(
    lines: &mut Vec<Line>,
    place: &Place,
    keeps: bool,
    to: Temporary,
    variable: Variable,
    width: Width,
) -> Result<(), AllocError>
    ensures { let u = surroundings place.now in OnOk result (lines.new.items ≡ lines.old.items
        ++ get_code keeps u (local_home u variable.out variable.index) to.0 (bytes_of width) (local_offset u variable.out variable.index)) }
{
    let (offset, home) = place.local(variable);
    if home.number() == 0 {
        let own = result_register(to);
        put_read(lines, own, width, Register::STACK_POINTER, offset)?;
        put_result(lines, place, keeps, to)
    } else {
        put_kept(lines, place, keeps, home, to)
    }
}

/// Appends what puts a temporary into the home of a local, of which a byte is kept as the word that it is.
fn put_home(
    lines: &mut Vec<Line>,
    place: &Place,
    home: Register,
    width: Width,
    from: Temporary,
) -> Result<(), AllocError>
    ensures { let u = surroundings place.now in OnOk result (lines.new.items ≡ lines.old.items
        ++ (if nat_eq (bytes_of width) 1 then byte_code u home from.0 else into_code u.passed u.held home from.0)) }
{
    match width {
        Width::Byte => {
            let register = put_operand(lines, place, SECOND, from)?;
            put(lines, Instr::Andi(home, register, Signed12::new(255)))
        }
        Width::Word => put_into(lines, place, home, from),
    }
}

/// Appends what gives a local what a temporary holds.
#[tactic(auto, using(crate::proofs::Shrinking::stored_without, crate::proofs::Shrinking::stored_with))]
pub fn put_put(
    lines: &mut Vec<Line>,
    place: &Place,
    variable: Variable,
    width: Width,
    from: Temporary,
) -> Result<(), AllocError>
    ensures { let u = surroundings place.now in OnOk result (lines.new.items ≡ lines.old.items
        ++ put_code u (local_home u variable.out variable.index) (bytes_of width) (local_offset u variable.out variable.index) from.0) }
{
    let (offset, home) = place.local(variable);
    if home.number() == 0 {
        let value = put_value(lines, place, from)?;
        put_write(lines, value, width, Register::STACK_POINTER, offset)
    } else {
        put_home(lines, place, home, width, from)
    }
}

/// Appends what gives a temporary the address this number of bytes above the stack pointer.
pub fn put_own_address(
    lines: &mut Vec<Line>,
    place: &Place,
    keeps: bool,
    to: Temporary,
    offset: u64,
) -> Result<(), AllocError>
    ensures { OnOk result (lines.new.items ≡ lines.old.items
        ++ address_code (result_register to.0) offset ++ keep_result keeps (surroundings place.now) to.0) }
{
    put_address(lines, result_register(to), offset)?;
    put_result(lines, place, keeps, to)
}
