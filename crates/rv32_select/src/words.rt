// Instructions for operations on words.

ghost use Rattle.std.specs.Prelude.{◌≡◌, ◌++◌, OnOk, Some, None, option_map};
ghost use Rattle.core_meaning.specs.Core as core;
ghost use Rattle.core_lines.specs.Held.{result_register, source_of, comparison_of, number_comparison_of};
ghost use Rattle.core_lines.specs.Selected.{binary_code, narrow_kept, operation_code, immediate_for, apply_code, computed_kept, judged_kept};
ghost use Rattle.cyc_core.specs.Trees.{binary_tree};
ghost use Rattle.rv32_select.specs.Immediates.{instruction_lines, with_code};
ghost use Rattle.rv32_select.specs.Places.{surroundings};

use crate::emit::{FIRST, SECOND, put};
use crate::held::{Source, result_register};
use crate::immediates::{Instructions, immediate_of, put_instructions};
use crate::operands::{
    put_moved, put_number_kept, put_numbered_kept, put_operand, put_result, put_verdict_kept,
};
use crate::place::Place;
use core_lines::Line;
use cyc_core::{Binary, Temporary};
use rv32_isa::{Instr, Register, Signed12};
use std::alloc::AllocError;

/// The instructions of an operation on the words of two registers, into one.
fn binary_instructions(
    operation: Binary,
    to: Register,
    left: Register,
    right: Register,
) -> Instructions
    ensures { instruction_lines result ≡ binary_code (binary_tree operation) to left right }
{
    let (none, one) = (Register::ZERO, Signed12::new(1));
    let (difference, inverted) = (Instr::Sub(to, left, right), Instr::Xori(to, to, one));
    match operation {
        Binary::Add => Instructions::One(Instr::Add(to, left, right)),
        Binary::Subtract => Instructions::One(difference),
        Binary::Multiply => Instructions::One(Instr::Mul(to, left, right)),
        Binary::Divide => Instructions::One(Instr::Div(to, left, right)),
        Binary::DivideUnsigned => Instructions::One(Instr::Divu(to, left, right)),
        Binary::Remainder => Instructions::One(Instr::Rem(to, left, right)),
        Binary::RemainderUnsigned => Instructions::One(Instr::Remu(to, left, right)),
        Binary::And => Instructions::One(Instr::And(to, left, right)),
        Binary::Or => Instructions::One(Instr::Or(to, left, right)),
        Binary::Xor => Instructions::One(Instr::Xor(to, left, right)),
        Binary::ShiftLeft => Instructions::One(Instr::Sll(to, left, right)),
        Binary::ShiftRight => Instructions::One(Instr::Sra(to, left, right)),
        Binary::ShiftRightUnsigned => Instructions::One(Instr::Srl(to, left, right)),
        Binary::Less => Instructions::One(Instr::Slt(to, left, right)),
        Binary::LessUnsigned => Instructions::One(Instr::Sltu(to, left, right)),
        Binary::Equal => Instructions::Two(difference, Instr::Sltiu(to, to, one)),
        Binary::NotEqual => Instructions::Two(difference, Instr::Sltu(to, none, to)),
        Binary::LessEqual => Instructions::Two(Instr::Slt(to, right, left), inverted),
        Binary::LessEqualUnsigned => Instructions::Two(Instr::Sltu(to, right, left), inverted),
    }
}

/// Appends an operation on the words of two registers, into one.
pub fn put_binary(
    lines: &mut Vec<Line>,
    operation: Binary,
    to: Register,
    left: Register,
    right: Register,
) -> Result<(), AllocError>
    ensures { OnOk result (lines.new.items ≡ lines.old.items ++ binary_code (binary_tree operation) to left right) }
{
    put_instructions(lines, binary_instructions(operation, to, left, right))
}

/// The instructions of an operation on a register and a temporary whose word is a number, into another register, if there are some.
fn immediate_for(
    place: &Place,
    operation: Binary,
    to: Register,
    left: Register,
    right: Temporary,
) -> Option<Instructions>
    ensures { option_map instruction_lines result ≡ immediate_for (binary_tree operation) to left (source_of place.now.held right.0) }
{
    match place.held.source(right) {
        Some(Source::Number(number)) => immediate_of(operation, to, left, number),
        Some(Source::Register(_))
        | Some(Source::Compared(_))
        | Some(Source::ComparedWith(_))
        | None => None,
    }
}

/// Appends an operation on a register and a temporary, into another register.
fn put_with(
    lines: &mut Vec<Line>,
    place: &Place,
    operation: Binary,
    to: Register,
    left: Register,
    right: Temporary,
) -> Result<(), AllocError>
    ensures { let u = surroundings place.now in OnOk result (lines.new.items ≡ lines.old.items
        ++ with_code u (binary_tree operation) to left right.0) }
{
    match immediate_for(place, operation, to, left, right) {
        Some(instructions) => put_instructions(lines, instructions),
        None => {
            let second = put_operand(lines, place, SECOND, right)?;
            put_binary(lines, operation, to, left, second)
        }
    }
}

/// Appends an operation on two temporaries, into a register.
pub fn put_applied(
    lines: &mut Vec<Line>,
    place: &Place,
    operation: Binary,
    to: Register,
    left: Temporary,
    right: Temporary,
) -> Result<(), AllocError>
    ensures { OnOk result (lines.new.items ≡ lines.old.items ++ apply_code (surroundings place.now) (binary_tree operation) to left.0 right.0) }
{
    let first = put_operand(lines, place, FIRST, left)?;
    put_with(lines, place, operation, to, first, right)
}

/// Appends what gives a temporary what an operation on two gives, which may be a comparison of two registers: that needs no code but
/// to be saved.
fn put_computed(
    lines: &mut Vec<Line>,
    place: &Place,
    keeps: bool,
    operation: Binary,
    to: Temporary,
    left: Temporary,
    right: Temporary,
) -> Result<(), AllocError>
    ensures { let u = surroundings place.now in OnOk result (lines.new.items ≡ lines.old.items
        ++ computed_kept keeps u (binary_tree operation) to.0 left.0 right.0
        (comparison_of (binary_tree operation) (source_of u.held left.0) (source_of u.held right.0))) }
{
    match place.held.comparison(operation, left, right) {
        Some(comparison) => put_verdict_kept(lines, place, keeps, to, comparison),
        None => {
            put_applied(lines, place, operation, result_register(to), left, right)?;
            put_result(lines, place, keeps, to)
        }
    }
}

/// The same, where it may also be a comparison of a register and a number.
fn put_judged(
    lines: &mut Vec<Line>,
    place: &Place,
    keeps: bool,
    operation: Binary,
    to: Temporary,
    left: Temporary,
    right: Temporary,
) -> Result<(), AllocError>
    ensures { let u = surroundings place.now in OnOk result (lines.new.items ≡ lines.old.items
        ++ judged_kept keeps u (binary_tree operation) to.0 left.0 right.0
        (number_comparison_of (binary_tree operation) (source_of u.held left.0) (source_of u.held right.0))
        (comparison_of (binary_tree operation) (source_of u.held left.0) (source_of u.held right.0))) }
{
    match place.held.number_comparison(operation, left, right) {
        Some(numbered) => put_numbered_kept(lines, place, keeps, to, numbered),
        None => put_computed(lines, place, keeps, operation, to, left, right),
    }
}

/// Appends what gives a temporary what an operation on two gives: the word of one of them where the other one is known to be 0 and added.
pub fn put_apply(
    lines: &mut Vec<Line>,
    place: &Place,
    keeps: bool,
    operation: Binary,
    to: Temporary,
    left: Temporary,
    right: Temporary,
) -> Result<(), AllocError>
    ensures { OnOk result (lines.new.items ≡ lines.old.items
        ++ operation_code keeps (surroundings place.now) (core.Apply (binary_tree operation) to.0 left.0 right.0)) }
{
    match place.held.same_as(operation, left, right) {
        Some(same) => put_moved(lines, place, keeps, to, same),
        None => put_judged(lines, place, keeps, operation, to, left, right),
    }
}

/// Appends what gives a temporary the lowest byte of another one, whose word isn't known to be a number.
fn put_masked(
    lines: &mut Vec<Line>,
    place: &Place,
    keeps: bool,
    to: Temporary,
    from: Temporary,
) -> Result<(), AllocError>
    ensures { OnOk result (lines.new.items ≡ lines.old.items ++ narrow_kept keeps (surroundings place.now) to.0 from.0 None) }
{
    let register = put_operand(lines, place, FIRST, from)?;
    let byte = Signed12::new(255);
    put(lines, Instr::Andi(result_register(to), register, byte))?;
    put_result(lines, place, keeps, to)
}

/// Appends what gives a temporary the lowest byte of another one.
pub fn put_narrow(
    lines: &mut Vec<Line>,
    place: &Place,
    keeps: bool,
    to: Temporary,
    from: Temporary,
) -> Result<(), AllocError>
    ensures { OnOk result (lines.new.items ≡ lines.old.items
        ++ operation_code keeps (surroundings place.now) (core.Narrow to.0 from.0)) }
{
    match place.held.number(from) {
        Some(word) => put_number_kept(lines, place, keeps, to, word % 256),
        None => put_masked(lines, place, keeps, to, from),
    }
}
