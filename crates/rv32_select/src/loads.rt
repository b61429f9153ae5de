// Which temporaries code loads from their slots.

ghost use Rattle.std.specs.Prelude.{◌≡◌, true, [], ◌∷◌, OnOk, map, option_map, option_to_list};
ghost use Rattle.core_meaning.specs.Core as core;
ghost use Rattle.core_lines.specs.Held.{held_behind, held_behind_all};
ghost use Rattle.core_lines.specs.Loaded.{unknown_in, loads_of_operation, loads_of_values, loads_in, loads_of};
ghost use Rattle.core_lines.specs.Saved.{all_flagged};
ghost use Rattle.core_lines.specs.Selected.{names_after, names_after_all, holding, naming};
ghost use Rattle.cyc_core.specs.Trees.{operation_tree, optional_tree, temporary_tree, local_tree, statement_tree, body_tree};
ghost use Rattle.rv32_select.specs.Failures.{failure_loads};
ghost use Rattle.rv32_select.specs.Places.{surroundings};

use crate::answers::hold_answer;
use crate::behind::hold_behind;
use crate::calls::hold_called;
use crate::flags::Flags;
use crate::held::Known;
use crate::place::Place;
use cyc_core::{Failure, Local, Operation, Statement, Temporary, Words};
use rv32_isa::Register;
use std::alloc::AllocError;

/// A temporary, if its word isn't known to be elsewhere than in its slot.
pub fn if_unknown(held: &Known, temporary: Temporary) -> Option<Temporary>
    ensures { option_to_list (option_map temporary_tree result) ≡ unknown_in held.now (temporary.0 ∷ []) }
{
    match held.source(temporary) {
        Some(_) => None,
        None => Some(temporary),
    }
}

/// Flags a temporary, if there is one.
pub fn flag_some(flags: &mut Flags, temporary: Option<Temporary>) -> Result<(), AllocError>
    ensures { OnOk result (flags.new ≡ all_flagged true (option_to_list (option_map temporary_tree temporary)) flags.old) }
{
    match temporary {
        Some(temporary) => flags.set(temporary, true),
        None => Ok(()),
    }
}

/// Flags a temporary whose word isn't known to be elsewhere than in its slot.
pub fn flag_unknown(flags: &mut Flags, held: &Known, temporary: Temporary) -> Result<(), AllocError>
    ensures { OnOk result (flags.new ≡ all_flagged true (unknown_in held.now (temporary.0 ∷ [])) flags.old) }
{
    flag_some(flags, if_unknown(held, temporary))
}

/// Flags those of two temporaries.
pub fn flag_both(
    flags: &mut Flags,
    held: &Known,
    first: Temporary,
    second: Temporary,
) -> Result<(), AllocError>
    ensures { OnOk result (flags.new ≡ all_flagged true (unknown_in held.now (first.0 ∷ second.0 ∷ [])) flags.old) }
{
    flag_unknown(flags, held, first)?;
    flag_unknown(flags, held, second)
}

/// Flags those of several.
pub fn flag_arguments(
    flags: &mut Flags,
    held: &Known,
    arguments: &[Temporary],
) -> Result<(), AllocError>
    ensures { OnOk result (flags.new ≡ all_flagged true (unknown_in held.now (map temporary_tree arguments.now)) flags.old) }
{
    'each: for argument in arguments {
        flag_unknown(flags, held, *argument)?;
    }
    Ok(())
}

/// Flags what a failed check loads, beside what it tests.
pub fn flag_failure(flags: &mut Flags, held: &Known, failure: Failure) -> Result<(), AllocError>
    ensures { OnOk result (flags.new ≡ all_flagged true (failure_loads held.now failure) flags.old) }
{
    match failure {
        Failure::Always(_) => Ok(()),
        Failure::ByTest(test, _, _) => flag_unknown(flags, held, test),
    }
}

/// Flags what a check loads.
fn flag_check(
    flags: &mut Flags,
    held: &Known,
    test: Temporary,
    failure: Failure,
) -> Result<(), AllocError>
    ensures { OnOk result (flags.new ≡ all_flagged true (failure_loads held.now failure) (all_flagged true (unknown_in held.now (test.0 ∷ [])) flags.old)) }
{
    flag_unknown(flags, held, test)?;
    flag_failure(flags, held, failure)
}

/// Flags what an operation loads.
pub fn flag_operation(
    flags: &mut Flags,
    held: &Known,
    operation: Operation,
) -> Result<(), AllocError>
    ensures { OnOk result (flags.new ≡ all_flagged true (loads_of_operation held.now (operation_tree operation)) flags.old) }
{
    match operation {
        Operation::Move(_, from)
        | Operation::Narrow(_, from)
        | Operation::Offset(_, from, _, _)
        | Operation::Put(_, from, _)
        | Operation::Load(_, from, _)
        | Operation::IsNull(_, from)
        | Operation::Putchar(_, from)
        | Operation::RegionFree(from)
        | Operation::UniqueFree(from)
        | Operation::KeyOpen(from)
        | Operation::KeyClose(from)
        | Operation::KeyFree(from) => flag_unknown(flags, held, from),
        Operation::Apply(_, _, first, second)
        | Operation::Element(_, second, first, _, _)
        | Operation::Store(first, _, second)
        | Operation::SamePlace(_, first, second) => flag_both(flags, held, first, second),
        Operation::Constant(..)
        | Operation::NullPointer(..)
        | Operation::LocalAddress(..)
        | Operation::OwnAddress(..)
        | Operation::DataAddress(..)
        | Operation::Get(..)
        | Operation::Getchar(..)
        | Operation::HeapHandle(..)
        | Operation::RegionNew(..)
        | Operation::KeyNew(..) => Ok(()),
    }
}

/// Flags what puts the three words of a function's result into their registers loads. Less is known behind it.
fn flag_three(
    flags: &mut Flags,
    place: &mut Place,
    first: Temporary,
    count: Temporary,
    index: Temporary,
) -> Result<(), AllocError>
    ensures flags { OnOk result (flags.new ≡ all_flagged true (loads_of_values place.old.held 9 (first.0 ∷ count.0 ∷ index.0 ∷ [])) flags.old) }
    ensures same { surroundings place.new ≡ holding place.new.held (surroundings place.old) }
    ensures homes { place.new.homes.items ≡ place.old.homes.items }
{
    flag_unknown(flags, &place.held, first)?;
    place.held.forget_register(Register::ARGUMENT_0);
    flag_unknown(flags, &place.held, count)?;
    place.held.forget_register(Register::ARGUMENT_1);
    flag_unknown(flags, &place.held, index)
}

/// Flags what a return loads. Nothing is known behind it.
pub fn flag_return(
    flags: &mut Flags,
    place: &mut Place,
    value: Option<Words>,
) -> Result<(), AllocError>
    ensures flags { OnOk result (flags.new ≡ all_flagged true (loads_of_values place.old.held 9 (optional_tree value)) flags.old) }
    ensures same { OnOk result (surroundings place.new ≡ holding [] (surroundings place.old)) }
    ensures homes { OnOk result (place.new.homes.items ≡ place.old.homes.items) }
{
    match value {
        Some(Words::One(from)) => flag_unknown(flags, &place.held, from)?,
        Some(Words::Three(first, count, index)) => flag_three(flags, place, first, count, index)?,
        None => {}
    }
    place.held.forget();
    Ok(())
}

/// Flags what a statement loads, and goes on behind it.
#[cycle(loads)]
pub fn flag_statement(
    flags: &mut Flags,
    place: &mut Place,
    statement: &Statement,
) -> Result<(), AllocError>
    ensures flags { let u = surroundings place.old in OnOk result (flags.new
        ≡ all_flagged true (loads_in u.homes u.statics u.names u.held (statement_tree statement.now)) flags.old) }
    ensures same { let u = surroundings place.old in let s = statement_tree statement.now in
        OnOk result (surroundings place.new ≡ holding (held_behind u.homes u.statics u.held s) (naming (names_after s u.names) u)) }
    ensures homes { OnOk result (place.new.homes.items ≡ place.old.homes.items) }
{
    match statement {
        Statement::Do(_, operation) => {
            flag_operation(flags, &place.held, *operation)?;
            return hold_behind(place, *operation);
        }
        Statement::Call(call) => {
            flag_arguments(flags, &place.held, &call.arguments)?;
            return hold_called(place, call.result);
        }
        Statement::Check(test, failure, _) => {
            return flag_check(flags, &place.held, *test, *failure);
        }
        Statement::If(test, both) => return flag_if(flags, place, *test, &both.0, &both.1),
        Statement::While(again, both) => {
            return flag_while(flags, place, &both.0, *again, &both.1);
        }
        Statement::Block(block) => return flag_block(flags, place, &block.0, &block.1),
        Statement::Leave(body) => flag_all(flags, place, body)?,
        Statement::Return(value, _) => flag_return(flags, place, *value)?,
        Statement::RegionAlloc(to, handle, count, _) => {
            flag_both(flags, &place.held, *handle, *count)?;
            return hold_answer(place, *to);
        }
        Statement::UniqueAlloc(to, _) => return hold_answer(place, *to),
        Statement::Copy(first, second, _) => {
            flags.set(*first, true)?;
            flags.set(*second, true)?;
        }
        Statement::Clear(pointer, _, _) => flags.set(*pointer, true)?,
        Statement::Break(_) | Statement::Continue(_) | Statement::Raise(..) => {}
    }
    place.held.forget();
    Ok(())
}

/// The same of a choice.
#[cycle(loads)]
fn flag_if(
    flags: &mut Flags,
    place: &mut Place,
    test: Temporary,
    these: &[Statement],
    those: &[Statement],
) -> Result<(), AllocError>
    ensures flags { let u = surroundings place.old in OnOk result (flags.new ≡ all_flagged true
        (loads_in u.homes u.statics u.names u.held (core.If test.0 (body_tree these.now) (body_tree those.now))) flags.old) }
    ensures same { let u = surroundings place.old in let s = core.If test.0 (body_tree these.now) (body_tree those.now) in
        OnOk result (surroundings place.new ≡ holding (held_behind u.homes u.statics u.held s) (naming (names_after s u.names) u)) }
    ensures homes { OnOk result (place.new.homes.items ≡ place.old.homes.items) }
{
    flag_unknown(flags, &place.held, test)?;
    let known = place.known()?;
    flag_all(flags, place, these)?;
    let first = place.exchange(known);
    flag_all(flags, place, those)?;
    place.join(first, those);
    Ok(())
}

/// The same of a loop.
#[cycle(loads)]
pub fn flag_while(
    flags: &mut Flags,
    place: &mut Place,
    test: &[Statement],
    again: Temporary,
    body: &[Statement],
) -> Result<(), AllocError>
    ensures flags { let u = surroundings place.old in OnOk result (flags.new ≡ all_flagged true
        (loads_in u.homes u.statics u.names u.held (core.While (body_tree test.now) again.0 (body_tree body.now))) flags.old) }
    ensures same { let u = surroundings place.old in OnOk result (surroundings place.new
        ≡ holding [] (naming (names_after (core.While (body_tree test.now) again.0 (body_tree body.now)) u.names) u)) }
    ensures homes { OnOk result (place.new.homes.items ≡ place.old.homes.items) }
{
    place.held.forget();
    flag_all(flags, place, test)?;
    flag_unknown(flags, &place.held, again)?;
    place.held.forget();
    flag_all(flags, place, body)?;
    place.held.forget();
    Ok(())
}

/// The same of a block with these locals.
#[cycle(loads)]
fn flag_block(
    flags: &mut Flags,
    place: &mut Place,
    locals: &[Local],
    body: &[Statement],
) -> Result<(), AllocError>
    ensures flags { let u = surroundings place.old in OnOk result (flags.new ≡ all_flagged true
        (loads_in u.homes u.statics u.names u.held (core.Block (map local_tree locals.now) (body_tree body.now))) flags.old) }
    ensures same { let u = surroundings place.old in OnOk result (surroundings place.new
        ≡ holding [] (naming (names_after (core.Block (map local_tree locals.now) (body_tree body.now)) u.names) u)) }
    ensures homes { OnOk result (place.new.homes.items ≡ place.old.homes.items) }
{
    let low = place.enter(locals)?;
    flag_all(flags, place, body)?;
    place.leave(low);
    Ok(())
}

/// The same of statements, one after the other.
#[cycle(loads)]
pub fn flag_all(
    flags: &mut Flags,
    place: &mut Place,
    statements: &[Statement],
) -> Result<(), AllocError>
    ensures flags { let u = surroundings place.old in OnOk result (flags.new
        ≡ all_flagged true (loads_of u.homes u.statics u.names u.held (body_tree statements.now)) flags.old) }
    ensures same { let u = surroundings place.old in let ss = body_tree statements.now in OnOk result (surroundings place.new
        ≡ holding (held_behind_all u.homes u.statics u.held ss) (naming (names_after_all ss u.names) u)) }
    ensures homes { OnOk result (place.new.homes.items ≡ place.old.homes.items) }
{
    'each: for statement in statements {
        flag_statement(flags, place, statement)?;
    }
    Ok(())
}

/// Goes on behind statements.
pub fn pass(place: &mut Place, statements: &[Statement]) -> Result<(), AllocError>
    ensures same { let u = surroundings place.old in let ss = body_tree statements.now in OnOk result (surroundings place.new
        ≡ holding (held_behind_all u.homes u.statics u.held ss) (naming (names_after_all ss u.names) u)) }
    ensures homes { OnOk result (place.new.homes.items ≡ place.old.homes.items) }
{
    let mut none = Flags::new(place.alloc);
    flag_all(&mut none, place, statements)
}
