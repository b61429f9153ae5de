// Instructions for calls and returns.

ghost use Rattle.std.specs.Prelude.{◌≡◌, ◌+◌, ◌<◌, ◌++◌, [], OnOk, IfOk, map, drop, length};
ghost use Rattle.core_lines.specs.Held.{with_results};
ghost use Rattle.core_lines.specs.Homes.{flag_at};
ghost use Rattle.core_lines.specs.Operands.{keep_code, pass_code, result_code, call_code, values_code, return_code};
ghost use Rattle.core_lines.specs.Selected.{holding, operand, has_operand};
ghost use Rattle.core_lines.specs.Frames.{save_code};
ghost use Rattle.cyc_core.specs.Trees.{temporary_tree, optional_tree};
ghost use Rattle.rv32_select.specs.Places.{surroundings, saves_left};

use crate::emit::{FIRST, put_lines, put_save};
use crate::layout::sum;
use crate::operands::{put_into, put_kept, put_operand};
use crate::place::Place;
use core_lines::Line;
use cyc_core::{Temporary, Words};
use rv32_isa::Register;
use std::alloc::AllocError;

/// Appends the passing of a word to a callee, into a slot.
fn put_argument(
    lines: &mut Vec<Line>,
    place: &Place,
    slot: u64,
    argument: Temporary,
) -> Result<(), AllocError>
    ensures { let u = surroundings place.now in OnOk result (lines.new.items ≡ lines.old.items
        ++ operand u 5 argument.0 ++ save_code (has_operand u 5 argument.0) slot) }
{
    let register = put_operand(lines, place, FIRST, argument)?;
    put_save(lines, register, slot)
}

/// Appends the passing of words to a callee: each into its slot, the first one into slot 1.
fn put_arguments(
    lines: &mut Vec<Line>,
    place: &Place,
    arguments: &[Temporary],
) -> Result<(), AllocError>
    ensures { OnOk result (lines.new.items ≡ lines.old.items ++ pass_code place.now.passed place.now.held 0 (map temporary_tree arguments.now)) }
{
    let mut passed = 0;
    'each: for argument in arguments {
        passed = sum(passed, 1)?;
        put_argument(lines, place, passed, *argument)?;
    }
    Ok(())
}

/// Appends the save of the next result, which is in this register, if it is to be saved.
fn put_next(
    lines: &mut Vec<Line>,
    place: &mut Place,
    register: Register,
    to: Temporary,
) -> Result<(), AllocError>
    ensures code { OnOk result (lines.new.items ≡ lines.old.items ++ keep_code (flag_at (saves_left place.old) 0) place.old.passed register to.0) }
    ensures saves { OnOk result (saves_left place.new ≡ drop 1 (saves_left place.old)) }
    ensures same { surroundings place.new ≡ surroundings place.old }
{
    let keeps = place.is_saved();
    put_kept(lines, place, keeps, register, to)?;
    place.pass_result();
    Ok(())
}

/// Appends the saves of a call's result, which comes in the registers of arguments.
fn put_results(
    lines: &mut Vec<Line>,
    place: &mut Place,
    to: Option<Words>,
) -> Result<(), AllocError>
    ensures code { OnOk result (lines.new.items ≡ lines.old.items ++ result_code (saves_left place.old) place.old.passed 9 (optional_tree to)) }
    ensures saves { OnOk result (saves_left place.new ≡ drop (length (optional_tree to)) (saves_left place.old)) }
    ensures same { surroundings place.new ≡ surroundings place.old }
{
    match to {
        Some(Words::One(to)) => put_next(lines, place, Register::ARGUMENT_0, to),
        Some(Words::Three(first, count, index)) => {
            put_next(lines, place, Register::ARGUMENT_0, first)?;
            put_next(lines, place, Register::ARGUMENT_1, count)?;
            put_next(lines, place, Register::ARGUMENT_2, index)
        }
        None => Ok(()),
    }
}

/// Appends a call: its arguments, the jump, and its result.
pub fn put_call(
    lines: &mut Vec<Line>,
    place: &mut Place,
    to: Option<Words>,
    function: usize,
    arguments: &[Temporary],
) -> Result<(), AllocError>
    ensures code { OnOk result (lines.new.items ≡ lines.old.items ++ call_code (saves_left place.old) place.old.passed place.old.held
        (optional_tree to) function (map temporary_tree arguments.now)) }
    ensures saves { OnOk result (saves_left place.new ≡ drop (length (optional_tree to)) (saves_left place.old)) }
    ensures same { surroundings place.new ≡ surroundings place.old }
{
    put_arguments(lines, place, arguments)?;
    put_lines(lines, &[Line::CallTo(function)])?;
    put_results(lines, place, to)
}

/// Goes on behind a call, whose results alone are known.
pub fn hold_called(place: &mut Place, to: Option<Words>) -> Result<(), AllocError>
    ensures same { OnOk result (surroundings place.new ≡ holding (with_results 9 (optional_tree to) []) (surroundings place.old)) }
    ensures saves { place.new.saves.items ≡ place.old.saves.items }
    ensures homes { place.new.homes.items ≡ place.old.homes.items }
{
    place.held.forget();
    place.held.hold_results(to)
}

/// Appends what puts a function's result into the registers in which it comes.
fn put_values(
    lines: &mut Vec<Line>,
    place: &mut Place,
    value: Option<Words>,
) -> Result<(), AllocError>
    ensures code { OnOk result (lines.new.items ≡ lines.old.items ++ values_code place.old.passed place.old.held 9 (optional_tree value)) }
    ensures same { surroundings place.new ≡ holding place.new.held (surroundings place.old) }
    ensures saves { place.new.saves.items ≡ place.old.saves.items }
{
    match value {
        Some(Words::One(from)) => put_into(lines, place, Register::ARGUMENT_0, from),
        Some(Words::Three(first, count, index)) => {
            put_into(lines, place, Register::ARGUMENT_0, first)?;
            place.held.forget_register(Register::ARGUMENT_0);
            put_into(lines, place, Register::ARGUMENT_1, count)?;
            place.held.forget_register(Register::ARGUMENT_1);
            put_into(lines, place, Register::ARGUMENT_2, index)
        }
        None => Ok(()),
    }
}

/// Appends a return, with what temporaries hold where it has a value: it goes on at the function's end. Nothing is known behind it.
pub fn put_return(
    lines: &mut Vec<Line>,
    place: &mut Place,
    value: Option<Words>,
) -> Result<(), AllocError>
    ensures code { OnOk result (lines.new.items ≡ lines.old.items ++ return_code place.old.passed place.old.held (optional_tree value) place.old.exit) }
    ensures same { OnOk result (surroundings place.new ≡ holding [] (surroundings place.old)) }
    ensures saves { OnOk result (place.new.saves.items ≡ place.old.saves.items) }
{
    put_values(lines, place, value)?;
    put_lines(lines, &[Line::Jump(place.exit)])?;
    place.held.forget();
    Ok(())
}
