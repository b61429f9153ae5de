// How code comes by the words of temporaries, and which it saves.

ghost use Rattle.std.specs.Prelude.{◌≡◌, ◌++◌, ℕ, Some, IfOk, OnOk};
ghost use Rattle.core_lines.specs.Held.{result_register, source_of};
ghost use Rattle.core_lines.specs.Operands.{into_code, keep_code, number_kept, verdict_kept, numbered_kept, move_kept, test_in, test_ready};
ghost use Rattle.core_lines.specs.Operands.{stored_in, stored_code};
ghost use Rattle.core_lines.specs.Selected.{from_temp, to_temp, operand, has_operand, keep_result};
ghost use Rattle.rv32_select.specs.Known.{source_tree};
ghost use Rattle.rv32_select.specs.Places.{surroundings};

use crate::comparing::{is_some, put_verdict};
use crate::emit::{ADDRESS, FIRST, SECOND, put_copied, put_load, put_number, put_save};
use crate::held::{Source, result_register};
use crate::numbered::put_numbered;
use crate::place::Place;
use core_lines::{Comparison, Line, NumberComparison};
use cyc_core::Temporary;
use rv32_isa::Register;
use std::alloc::AllocError;

/// Appends the load of a temporary's slot into a register.
pub fn put_from(
    lines: &mut Vec<Line>,
    place: &Place,
    register: Register,
    from: Temporary,
) -> Result<(), AllocError>
    ensures { OnOk result (lines.new.items ≡ lines.old.items ++ from_temp (surroundings place.now) register from.0) }
{
    put_load(lines, register, place.slot(from))
}

/// Appends the save of a register into a temporary's slot.
pub fn put_to(
    lines: &mut Vec<Line>,
    place: &Place,
    register: Register,
    to: Temporary,
) -> Result<(), AllocError>
    ensures { OnOk result (lines.new.items ≡ lines.old.items ++ to_temp (surroundings place.now) register to.0) }
{
    put_save(lines, register, place.slot(to))
}

/// Appends what brings a temporary's word into a register, if it isn't in one: then into a spare one. Answers which one it is.
pub fn put_operand(
    lines: &mut Vec<Line>,
    place: &Place,
    spare: Register,
    from: Temporary,
) -> Result<Register, AllocError>
    ensures code { OnOk result (lines.new.items ≡ lines.old.items ++ operand (surroundings place.now) spare from.0) }
    ensures register { IfOk result (λ register. register ≡ has_operand (surroundings place.now) spare from.0) }
{
    match place.held.source(from) {
        Some(source) => match source {
            Source::Register(register) => Ok(register),
            Source::Number(word) => {
                put_number(lines, spare, word)?;
                Ok(spare)
            }
            Source::Compared(comparison) => {
                put_verdict(lines, spare, comparison)?;
                Ok(spare)
            }
            Source::ComparedWith(numbered) => {
                put_numbered(lines, spare, numbered)?;
                Ok(spare)
            }
        },
        None => {
            put_from(lines, place, spare, from)?;
            Ok(spare)
        }
    }
}

/// Appends what brings a word that is stored into a register, if it is in none. Answers which one it is: x0 where the word is known to be 0.
pub fn put_value(
    lines: &mut Vec<Line>,
    place: &Place,
    from: Temporary,
) -> Result<Register, AllocError>
    ensures code { OnOk result (lines.new.items ≡ lines.old.items ++ stored_code place.now.passed place.now.held 6 from.0) }
    ensures register { IfOk result (λ register. register ≡ stored_in place.now.held 6 from.0) }
{
    if place.held.is_zero(from) {
        Ok(Register::ZERO)
    } else {
        put_operand(lines, place, SECOND, from)
    }
}

/// Appends what stands before a branch that tests whether a temporary's word isn't 0. Answers what the branch compares.
pub fn put_test(
    lines: &mut Vec<Line>,
    place: &Place,
    spare: Register,
    from: Temporary,
) -> Result<Comparison, AllocError>
    ensures code { OnOk result (lines.new.items ≡ lines.old.items ++ test_ready place.now.passed place.now.held spare from.0) }
    ensures compared { IfOk result (λ comparison. comparison ≡ test_in place.now.held spare from.0) }
{
    match place.held.source(from) {
        Some(source) => match source {
            Source::Register(register) => Ok(is_some(register)),
            Source::Number(word) => {
                put_number(lines, spare, word)?;
                Ok(is_some(spare))
            }
            Source::Compared(comparison) => Ok(comparison),
            Source::ComparedWith(numbered) => {
                put_number(lines, ADDRESS, numbered.number)?;
                Ok(numbered.comparison)
            }
        },
        None => {
            put_from(lines, place, spare, from)?;
            Ok(is_some(spare))
        }
    }
}

/// Appends what puts a temporary's word into just this register.
pub fn put_into(
    lines: &mut Vec<Line>,
    place: &Place,
    to: Register,
    from: Temporary,
) -> Result<(), AllocError>
    ensures { OnOk result (lines.new.items ≡ lines.old.items ++ into_code place.now.passed place.now.held to from.0) }
{
    match place.held.source(from) {
        Some(source) => match source {
            Source::Register(register) => put_copied(lines, to, register),
            Source::Number(word) => put_number(lines, to, word),
            Source::Compared(comparison) => put_verdict(lines, to, comparison),
            Source::ComparedWith(numbered) => put_numbered(lines, to, numbered),
        },
        None => put_from(lines, place, to, from),
    }
}

/// Appends the save of a register into a temporary's slot, if it is to be saved.
pub fn put_kept(
    lines: &mut Vec<Line>,
    place: &Place,
    keeps: bool,
    register: Register,
    to: Temporary,
) -> Result<(), AllocError>
    ensures { OnOk result (lines.new.items ≡ lines.old.items ++ keep_code keeps place.now.passed register to.0) }
{
    if keeps {
        put_to(lines, place, register, to)
    } else {
        Ok(())
    }
}

/// Appends the save of a temporary's result, which is in its register, if it is to be saved.
pub fn put_result(
    lines: &mut Vec<Line>,
    place: &Place,
    keeps: bool,
    to: Temporary,
) -> Result<(), AllocError>
    ensures { OnOk result (lines.new.items ≡ lines.old.items ++ keep_result keeps (surroundings place.now) to.0) }
{
    put_kept(lines, place, keeps, result_register(to), to)
}

/// Appends the save of a number into a temporary's slot, if it is to be saved.
pub fn put_number_kept(
    lines: &mut Vec<Line>,
    place: &Place,
    keeps: bool,
    to: Temporary,
    word: u64,
) -> Result<(), AllocError>
    ensures { OnOk result (lines.new.items ≡ lines.old.items ++ number_kept keeps place.now.passed to.0 word) }
{
    if keeps {
        put_number(lines, FIRST, word)?;
        put_to(lines, place, FIRST, to)
    } else {
        Ok(())
    }
}

/// Appends the save of a comparison's verdict into a temporary's slot, if it is to be saved.
pub fn put_verdict_kept(
    lines: &mut Vec<Line>,
    place: &Place,
    keeps: bool,
    to: Temporary,
    comparison: Comparison,
) -> Result<(), AllocError>
    ensures { OnOk result (lines.new.items ≡ lines.old.items ++ verdict_kept keeps place.now.passed to.0 comparison) }
{
    if keeps {
        put_verdict(lines, FIRST, comparison)?;
        put_to(lines, place, FIRST, to)
    } else {
        Ok(())
    }
}

/// Appends the save of the verdict of a comparison with a number into a temporary's slot, if it is to be saved.
pub fn put_numbered_kept(
    lines: &mut Vec<Line>,
    place: &Place,
    keeps: bool,
    to: Temporary,
    numbered: NumberComparison,
) -> Result<(), AllocError>
    ensures { OnOk result (lines.new.items ≡ lines.old.items ++ numbered_kept keeps place.now.passed to.0 numbered) }
{
    if keeps {
        put_numbered(lines, FIRST, numbered)?;
        put_to(lines, place, FIRST, to)
    } else {
        Ok(())
    }
}

/// Appends the save of a word that is elsewhere too into a temporary's slot, if it is to be saved.
pub fn put_source_kept(
    lines: &mut Vec<Line>,
    place: &Place,
    keeps: bool,
    to: Temporary,
    source: Source,
) -> Result<(), AllocError>
    ensures { (own x : ℕ) → OnOk result (lines.new.items ≡ lines.old.items ++ move_kept keeps place.now.passed own to.0 x (Some (source_tree source))) }
{
    match source {
        Source::Register(register) => put_kept(lines, place, keeps, register, to),
        Source::Number(word) => put_number_kept(lines, place, keeps, to, word),
        Source::Compared(comparison) => put_verdict_kept(lines, place, keeps, to, comparison),
        Source::ComparedWith(numbered) => put_numbered_kept(lines, place, keeps, to, numbered),
    }
}

/// Appends what gives a temporary the word of another one.
pub fn put_moved(
    lines: &mut Vec<Line>,
    place: &Place,
    keeps: bool,
    to: Temporary,
    from: Temporary,
) -> Result<(), AllocError>
    ensures { OnOk result (lines.new.items ≡ lines.old.items
        ++ move_kept keeps place.now.passed (result_register to.0) to.0 from.0 (source_of place.now.held from.0)) }
{
    match place.held.source(from) {
        Some(source) => put_source_kept(lines, place, keeps, to, source),
        None => {
            put_from(lines, place, result_register(to), from)?;
            put_result(lines, place, keeps, to)
        }
    }
}
