// Whether a pointer is NULL: what is known of that, and instructions for it.

ghost use Rattle.std.specs.Prelude.{◌≡◌, ◌++◌, None, OnOk, option_map};
ghost use Rattle.core_lines.specs.Held.{source_of, with_moved, null_source};
ghost use Rattle.core_lines.specs.Selected.{null_kept, operation_code};
ghost use Rattle.core_meaning.specs.Core as core;
ghost use Rattle.rv32_select.specs.Known.{source_tree};
ghost use Rattle.rv32_select.specs.Places.{surroundings};

use crate::emit::{FIRST, put};
use crate::held::{Known, Source, result_register};
use crate::operands::{put_operand, put_result, put_source_kept};
use crate::place::Place;
use core_lines::{Comparison, Condition, Line};
use cyc_core::Temporary;
use rv32_isa::{Instr, Register, Signed12};
use std::alloc::AllocError;

/// What is known of whether a word is 0, as NULL is: a number where the word is one, and else a comparison of the register that has it with x0.
#[tactic(auto, using(crate::proofs::NullTests::null_zero, crate::proofs::NullTests::null_other))]
fn null_source(source: Option<Source>) -> Option<Source>
    ensures { option_map source_tree result ≡ null_source (option_map source_tree source) }
{
    match source {
        Some(source) => match source {
            Source::Register(register) => Some(Source::Compared(Comparison {
                condition: Condition::Equal,
                left: register,
                right: Register::ZERO,
            })),
            Source::Number(word) => {
                if word == 0 {
                    Some(Source::Number(1))
                } else {
                    Some(Source::Number(0))
                }
            }
            Source::Compared(_) | Source::ComparedWith(_) => None,
        },
        None => None,
    }
}

/// A temporary gets whether another one is NULL.
#[tactic(auto, using(crate::proofs::NullTests::held_some, crate::proofs::NullTests::held_none))]
pub fn hold_null(
    known: &mut Known,
    temporary: Temporary,
    pointer: Temporary,
) -> Result<(), AllocError>
    ensures { OnOk result (known.new ≡ with_moved temporary.0 (null_source (source_of known.old pointer.0)) known.old) }
{
    match null_source(known.source(pointer)) {
        Some(source) => known.hold(temporary, source),
        None => known.hold_result(temporary),
    }
}

/// Appends what gives a temporary whether another one is NULL, of whose word nothing is known.
fn put_tested(
    lines: &mut Vec<Line>,
    place: &Place,
    keeps: bool,
    to: Temporary,
    pointer: Temporary,
) -> Result<(), AllocError>
    ensures { OnOk result (lines.new.items ≡ lines.old.items ++ null_kept keeps (surroundings place.now) to.0 pointer.0 None) }
{
    let from = put_operand(lines, place, FIRST, pointer)?;
    let one = Signed12::new(1);
    put(lines, Instr::Sltiu(result_register(to), from, one))?;
    put_result(lines, place, keeps, to)
}

/// Appends what gives a temporary whether another one is NULL.
pub fn put_is_null(
    lines: &mut Vec<Line>,
    place: &Place,
    keeps: bool,
    to: Temporary,
    pointer: Temporary,
) -> Result<(), AllocError>
    ensures { OnOk result (lines.new.items ≡ lines.old.items
        ++ operation_code keeps (surroundings place.now) (core.IsNull to.0 pointer.0)) }
{
    match null_source(place.held.source(pointer)) {
        Some(source) => put_source_kept(lines, place, keeps, to, source),
        None => put_tested(lines, place, keeps, to, pointer),
    }
}
