// Results that go straight into the home of a local, where the next statement puts them there.

ghost use Rattle.std.specs.Prelude.{◌≡◌, ◌++◌, [], drop, if◌then◌else◌, OnOk};
ghost use Rattle.core_lines.specs.Held.{source_of, same_as};
ghost use Rattle.core_lines.specs.Homes.{flag_at};
ghost use Rattle.core_lines.specs.Straight.{is_arithmetic, home_put, home_put_by, home_put_first, home_of_result, home_of_operation, home_behind};
ghost use Rattle.core_lines.specs.Straight.{first_code};
ghost use Rattle.cyc_core.specs.Trees.{binary_tree, operation_tree, statement_tree, body_tree};
ghost use Rattle.rv32_select.specs.Places.{surroundings, saves_left};

use crate::operands::put_kept;
use crate::place::Place;
use crate::words::put_applied;
use core_lines::Line;
use cyc_core::{Binary, Operation, Statement, Temporary, Width};
use rv32_isa::Register;
use std::alloc::AllocError;

/// The statements behind the first one.
pub fn behind_first(statements: &[Statement]) -> &[Statement]
    ensures { result.now ≡ drop 1 statements.now }
{
    match statements {
        [_, others @ ..] => others,
        [] => statements,
    }
}

/// Whether an operation's last instruction alone changes the result's register.
fn is_arithmetic(operation: Binary) -> bool
    ensures { result ≡ is_arithmetic (binary_tree operation) }
{
    match operation {
        Binary::Equal
        | Binary::NotEqual
        | Binary::Less
        | Binary::LessEqual
        | Binary::LessUnsigned
        | Binary::LessEqualUnsigned => false,
        _ => true,
    }
}

/// The home that an operation puts a temporary's whole word into, or x0.
fn home_put(place: &Place, temporary: Temporary, operation: Operation) -> Register
    ensures { result ≡ home_put (surroundings place.now).homes temporary.0 (operation_tree operation) }
{
    match operation {
        Operation::Put(Width::Word, from, variable) => {
            let (_, home) = place.local(variable);
            if from.0 == temporary.0 {
                home
            } else {
                Register::ZERO
            }
        }
        _ => Register::ZERO,
    }
}

/// The same of a statement.
fn home_put_by(place: &Place, temporary: Temporary, statement: &Statement) -> Register
    ensures { result ≡ home_put_by (surroundings place.now).homes temporary.0 (statement_tree statement.now) }
{
    match statement {
        Statement::Do(_, operation) => home_put(place, temporary, *operation),
        _ => Register::ZERO,
    }
}

/// The same of the first of statements.
fn home_put_first(place: &Place, temporary: Temporary, statements: &[Statement]) -> Register
    ensures { result ≡ home_put_first (surroundings place.now).homes temporary.0 (body_tree statements.now) }
{
    match statements {
        [first, ..] => home_put_by(place, temporary, first),
        [] => Register::ZERO,
    }
}

/// The home that the result of an operation on two words goes to, if it is computed.
fn home_of_result(
    place: &Place,
    operation: Binary,
    left: Temporary,
    right: Temporary,
    home: Register,
) -> Register
    ensures { let hs = place.now.held in result ≡ home_of_result (is_arithmetic (binary_tree operation))
        (same_as (binary_tree operation) left.0 right.0 (source_of hs left.0) (source_of hs right.0)) home }
{
    match place.held.same_as(operation, left, right) {
        Some(_) => Register::ZERO,
        None => {
            if is_arithmetic(operation) {
                home
            } else {
                Register::ZERO
            }
        }
    }
}

/// The home that the result of an operation goes straight into, or x0.
fn home_of_operation(place: &Place, operation: Operation, behind: &[Statement]) -> Register
    ensures { result ≡ home_of_operation (surroundings place.now).homes place.now.held (operation_tree operation) (body_tree behind.now) }
{
    match operation {
        Operation::Apply(binary, to, left, right) => {
            let home = home_put_first(place, to, behind);
            home_of_result(place, binary, left, right, home)
        }
        _ => Register::ZERO,
    }
}

/// The home that the result of a statement goes straight into, where these are next, or x0. There is none for a statement that puts a word there that is
/// there already.
pub fn home_behind(
    place: &Place,
    placed: bool,
    statement: &Statement,
    behind: &[Statement],
) -> Register
    ensures { result ≡ (if placed then 0 else
        home_behind (surroundings place.now).homes place.now.held (statement_tree statement.now) (body_tree behind.now)) }
{
    if placed {
        return Register::ZERO;
    }
    match statement {
        Statement::Do(_, operation) => home_of_operation(place, *operation, behind),
        _ => Register::ZERO,
    }
}

/// Appends the instructions of a statement whose result goes straight into a home, if it is none but x0.
pub fn put_straight(
    lines: &mut Vec<Line>,
    place: &Place,
    home: Register,
    statement: &Statement,
) -> Result<(), AllocError>
    ensures { OnOk result (lines.new.items ≡ lines.old.items
        ++ first_code home (flag_at (saves_left place.now) 0) (surroundings place.now) (statement_tree statement.now) []) }
{
    if home.number() == 0 {
        return Ok(());
    }
    match statement {
        Statement::Do(_, Operation::Apply(binary, to, left, right)) => {
            put_applied(lines, place, *binary, home, *left, *right)?;
            put_kept(lines, place, place.is_saved(), home, *to)
        }
        _ => Ok(()),
    }
}
