// Checks: choices that go on where a temporary isn't 0, and else do no more than raise an exception.

ghost use Rattle.std.specs.Prelude.{◌≡◌, ◌≤◌, ℕ, List, ◌+◌, ◌*◌, ◌∷◌, [], ◌++◌, IfOk, OnOk, None, Some, option_map, length, pos};
ghost use Rattle.core_lines.specs.declared.line.Line.TheVariants.{Plain};
ghost use Rattle.core_lines.specs.Checks.{kind_of, kind_in, either_failure, failure_of, failure_in, check_of};
ghost use Rattle.core_lines.specs.Checks.{either_code, failure_code, tested_code, check_code};
ghost use Rattle.core_lines.specs.Held.{Holding, source_of, number_in};
ghost use Rattle.core_lines.specs.Frames.{kind_number, raise_code};
ghost use Rattle.core_lines.specs.Lines.{code_length};
ghost use Rattle.cyc_core.specs.Trees.{statement_tree, body_tree};
ghost use Rattle.core_lines.specs.Comparisons.{branch_if};
ghost use Rattle.rv32_select.specs.Failures.{failure_tree, labels_kept};

use crate::emit::{FIRST, put, put_environment, put_lines};
use crate::operands::put_test;
use crate::place::Place;
use core_lines::{Comparison, Line};
use cyc_core::{Failure, Statement, Temporary};
use cyc_words::Kind;
use rv32_isa::{BranchOffset, Instr, Register, Signed12};
use rv32_machine::RAISE;
use std::alloc::AllocError;

/// The exception that a statement raises, if it does nothing else.
fn kind_of(statement: &Statement) -> Option<Kind>
    ensures { result ≡ kind_of (statement_tree statement.now) }
{
    match statement {
        Statement::Raise(kind, _) => Some(*kind),
        _ => None,
    }
}

/// The exception that statements raise, if they do nothing else.
#[tactic(auto, using(crate::proofs::Failing::several_kinds))]
fn kind_in(body: &[Statement]) -> Option<Kind>
    ensures { result ≡ kind_in (body_tree body.now) }
{
    match body {
        [statement] => kind_of(statement),
        _ => None,
    }
}

/// What a choice raises whose ways raise these exceptions, if they do nothing else.
fn either_failure(test: Temporary, first: Option<Kind>, second: Option<Kind>) -> Option<Failure>
    ensures { option_map failure_tree result ≡ either_failure test.0 first second }
{
    match first {
        Some(first) => match second {
            Some(second) => Some(Failure::ByTest(test, first, second)),
            None => None,
        },
        None => None,
    }
}

/// What a statement raises, if it does nothing else.
fn failure_of(statement: &Statement) -> Option<Failure>
    ensures { option_map failure_tree result ≡ failure_of (statement_tree statement.now) }
{
    match statement {
        Statement::If(test, both) => either_failure(*test, kind_in(&both.0), kind_in(&both.1)),
        Statement::Raise(kind, _) => Some(Failure::Always(*kind)),
        _ => None,
    }
}

/// What statements raise, if they do nothing else.
#[tactic(auto, using(crate::proofs::Failing::several_failures))]
fn failure_in(body: &[Statement]) -> Option<Failure>
    ensures { option_map failure_tree result ≡ failure_in (body_tree body.now) }
{
    match body {
        [statement] => failure_of(statement),
        _ => None,
    }
}

/// What a choice raises where its test is 0, if it is a check.
#[tactic(auto, using(crate::proofs::Failing::some_first))]
pub fn check_of(these: &[Statement], those: &[Statement]) -> Option<Failure>
    ensures { option_map failure_tree result ≡ check_of (body_tree these.now) (body_tree those.now) }
{
    if these.is_empty() {
        failure_in(those)
    } else {
        None
    }
}

/// How many labels are kept for a check.
fn labels_kept(failure: Failure) -> usize
    ensures { result ≡ labels_kept (failure_tree failure) }
{
    match failure {
        Failure::Always(_) => 2,
        Failure::ByTest(..) => 4,
    }
}

/// The number of an exception's kind.
fn kind_number(kind: Kind) -> Signed12
    ensures { result ≡ pos (kind_number kind) }
{
    match kind {
        Kind::NullException => Signed12::new(1),
        Kind::ArrayBounds => Signed12::new(2),
    }
}

/// Appends what ends the program with an exception: its kind's number is the argument of the call.
pub fn put_raise(lines: &mut Vec<Line>, kind: Kind) -> Result<(), AllocError>
    ensures { OnOk result (lines.new.items ≡ lines.old.items ++ raise_code kind) }
{
    put(
        lines,
        Instr::Addi(Register::ARGUMENT_0, Register::ZERO, kind_number(kind)),
    )?;
    put_environment(lines, RAISE)
}

/// Appends what raises one of two exceptions, by a test of what is known to be this number.
#[tactic(auto, using(crate::proofs::Decided::second_raised, crate::proofs::Decided::first_raised))]
fn put_known_failure(
    lines: &mut Vec<Line>,
    number: u64,
    first: Kind,
    second: Kind,
) -> Result<(), AllocError>
    ensures { (passed test : ℕ) → (hs : List Holding) → OnOk result (lines.new.items ≡ lines.old.items
        ++ either_code passed hs test first second (Some number)) }
{
    if number == 0 {
        put_raise(lines, second)
    } else {
        put_raise(lines, first)
    }
}

/// Appends what raises one of two exceptions, by a branch.
fn put_branched_failure(
    lines: &mut Vec<Line>,
    place: &Place,
    test: Temporary,
    first: Kind,
    second: Kind,
) -> Result<(), AllocError>
    ensures { OnOk result (lines.new.items ≡ lines.old.items ++ either_code place.now.passed place.now.held test.0 first second None) }
{
    let comparison = put_test(lines, place, FIRST, test)?;
    let over = BranchOffset::new(16);
    put(lines, comparison.inverse().branch(over))?;
    put_raise(lines, first)?;
    put_raise(lines, second)
}

/// Appends what raises one of two exceptions.
fn put_either(
    lines: &mut Vec<Line>,
    place: &Place,
    test: Temporary,
    first: Kind,
    second: Kind,
) -> Result<(), AllocError>
    ensures { OnOk result (lines.new.items ≡ lines.old.items
        ++ either_code place.now.passed place.now.held test.0 first second (number_in (source_of place.now.held test.0))) }
{
    match place.held.number(test) {
        Some(number) => put_known_failure(lines, number, first, second),
        None => put_branched_failure(lines, place, test, first, second),
    }
}

/// Appends what raises a failed check's exception.
fn put_failure(lines: &mut Vec<Line>, place: &Place, failure: Failure) -> Result<(), AllocError>
    ensures { OnOk result (lines.new.items ≡ lines.old.items ++ failure_code place.now.passed place.now.held (failure_tree failure)) }
{
    match failure {
        Failure::Always(kind) => put_raise(lines, kind),
        Failure::ByTest(test, first, second) => put_either(lines, place, test, first, second),
    }
}

/// What raises a failed check's exception.
fn failure_lines(place: &Place, failure: Failure) -> Result<Vec<Line>, AllocError>
    ensures { IfOk result (λ lines. lines.items ≡ failure_code place.now.passed place.now.held (failure_tree failure)) }
{
    let mut lines = Vec::new(place.alloc);
    put_failure(&mut lines, place, failure)?;
    Ok(lines)
}

/// Appends a branch over instructions, made where a comparison holds, and the instructions.
fn put_over(
    lines: &mut Vec<Line>,
    comparison: Comparison,
    skipped: &[Line],
) -> Result<(), AllocError>
    requires few { length skipped.now ≤ 10 }
    requires instructions { code_length skipped.now ≡ 4 * length skipped.now }
    ensures { OnOk result (lines.new.items ≡ lines.old.items ++ (Plain (branch_if comparison (pos (4 + code_length skipped.now))) ∷ skipped.now)) }
{
    let over = BranchOffset::new(4 + 4 * skipped.len() as i32);
    put(lines, comparison.branch(over))?;
    put_lines(lines, skipped)
}

/// Appends a check by a branch. What raises its exception is made apart, since the branch over that has its length.
fn put_branched_check(
    lines: &mut Vec<Line>,
    place: &Place,
    test: Temporary,
    failure: Failure,
) -> Result<(), AllocError>
    ensures { OnOk result (lines.new.items ≡ lines.old.items
        ++ tested_code place.now.passed place.now.held test.0 (failure_tree failure) None) }
{
    let raising = failure_lines(place, failure)?;
    let comparison = put_test(lines, place, FIRST, test)?;
    put_over(lines, comparison, &raising)
}

/// Appends a check of what is known to be this number.
#[tactic(auto, using(crate::proofs::Decided::fails_check, crate::proofs::Decided::passes_check))]
fn put_known_check(
    lines: &mut Vec<Line>,
    place: &Place,
    number: u64,
    failure: Failure,
) -> Result<(), AllocError>
    ensures { (test : ℕ) → OnOk result (lines.new.items ≡ lines.old.items
        ++ tested_code place.now.passed place.now.held test (failure_tree failure) (Some number)) }
{
    if number == 0 {
        put_failure(lines, place, failure)
    } else {
        Ok(())
    }
}

/// Appends a check of a temporary.
fn put_check(
    lines: &mut Vec<Line>,
    place: &Place,
    test: Temporary,
    failure: Failure,
) -> Result<(), AllocError>
    ensures { OnOk result (lines.new.items ≡ lines.old.items ++ check_code place.now.passed place.now.held test.0 (failure_tree failure)) }
{
    match place.held.number(test) {
        Some(number) => put_known_check(lines, place, number, failure),
        None => put_branched_check(lines, place, test, failure),
    }
}

/// Appends a check. Answers the next free label.
pub fn put_checked(
    lines: &mut Vec<Line>,
    place: &Place,
    next: usize,
    test: Temporary,
    failure: Failure,
) -> Result<usize, AllocError>
    ensures code { OnOk result (lines.new.items ≡ lines.old.items ++ check_code place.now.passed place.now.held test.0 (failure_tree failure)) }
    ensures free { IfOk result (λ n. n ≡ next + labels_kept (failure_tree failure)) }
{
    put_check(lines, place, test, failure)?;
    match next.checked_add(labels_kept(failure)) {
        Some(label) => Ok(label),
        None => Err(AllocError),
    }
}
