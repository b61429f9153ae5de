// Instructions for statements.

ghost use Rattle.std.specs.Prelude.{◌≡◌, ◌+◌, ◌<◌, ◌≤◌, ◌++◌, [], ◌∷◌, IfOk, OnOk, map, drop, length, None};
ghost use Rattle.core_meaning.specs.Core as core;
ghost use Rattle.core_lines.specs.declared.line.Line.TheVariants.{Label};
ghost use Rattle.cyc_core.specs.Trees.{operation_tree, optional_tree, temporary_tree, statement_tree, body_tree, local_tree};
ghost use Rattle.core_lines.specs.Checks.{check_of};
ghost use Rattle.core_lines.specs.Choosing.{far, choice_code};
ghost use Rattle.core_lines.specs.Held.{held_behind_operation, held_behind, held_behind_all, with_results};
ghost use Rattle.core_lines.specs.Homes.{flag_at};
ghost use Rattle.core_lines.specs.Operands.{call_code};
ghost use Rattle.core_lines.specs.Saved.{results_of, results_in, results_all};
ghost use Rattle.core_lines.specs.Selected.{operation_code, statement_code, statements_code, labels_in, labels_of, names_after, names_after_all};
ghost use Rattle.core_lines.specs.Selected.{holding, naming, first_code};
ghost use Rattle.rv32_select.specs.Places.{surroundings, saves_left};

use crate::behind::hold_behind;
use crate::calls::{hold_called, put_call, put_return};
use crate::checks::{check_of, put_checked, put_raise};
use crate::completing::{can_complete, can_complete_all, keep_reached};
use crate::emit::{FIRST, put_lines};
use crate::operands::put_test;
use crate::operation::put_operation;
use crate::place::Place;
use crate::starts::{Start, note, trim};
use crate::straight::{behind_first, home_behind, put_straight};
use crate::ways::{put_behind, put_between};
use crate::whole::{put_clear, put_copy, put_region_request, put_unique_request};
use core_lines::Line;
use cyc_core::{Local, Operation, Statement, Temporary, Words};
use rv32_isa::Register;
use std::alloc::{AllocError, Global};

/// How a statement can be left.
#[derive(Clone, Copy)]
pub struct Ways {
    /// The label behind the innermost loop, or behind the statements within it that a `Break` leaves.
    pub out: usize,
    /// The label at the innermost loop's start, before its test.
    pub again: usize,
}

/// The label after one. Fails where labels run out: no memory has that many lines.
pub fn following(label: usize) -> Result<usize, AllocError>
    ensures { IfOk result (λ n. n ≡ label + 1) }
{
    match label.checked_add(1) {
        Some(label) => Ok(label),
        None => Err(AllocError),
    }
}

/// Appends a label. Answers the next one.
fn put_label(lines: &mut Vec<Line>, label: usize) -> Result<usize, AllocError>
    ensures code { OnOk result (lines.new.items ≡ lines.old.items ++ Label label ∷ []) }
    ensures next { IfOk result (λ n. n ≡ label + 1) }
{
    put_lines(lines, &[Line::Label(label)])?;
    following(label)
}

/// Appends what goes on where a temporary isn't 0, and at a label where it is. Answers the next label.
fn put_choice(
    lines: &mut Vec<Line>,
    place: &Place,
    temporary: Temporary,
    label: usize,
) -> Result<usize, AllocError>
    ensures code { OnOk result (lines.new.items ≡ lines.old.items ++ choice_code far place.now.passed place.now.held temporary.0 label) }
    ensures next { IfOk result (λ n. n ≡ label + 1) }
{
    let comparison = put_test(lines, place, FIRST, temporary)?;
    put_lines(lines, &[Line::JumpUnless(comparison, label)])?;
    following(label)
}

/// Appends the instructions of an operation, and goes on behind it.
fn put_done(
    lines: &mut Vec<Line>,
    place: &mut Place,
    operation: Operation,
) -> Result<(), AllocError>
    ensures code { OnOk result (lines.new.items ≡ lines.old.items
        ++ operation_code (flag_at (saves_left place.old) 0) (surroundings place.old) (operation_tree operation)) }
    ensures same { let u = surroundings place.old in OnOk result (surroundings place.new
        ≡ holding (held_behind_operation u.homes u.statics u.held (operation_tree operation)) u) }
    ensures saves { OnOk result (saves_left place.new ≡ drop (length (results_of (operation_tree operation))) (saves_left place.old)) }
{
    let keeps = place.is_saved();
    put_operation(lines, place, keeps, operation)?;
    place.pass_operation(operation);
    hold_behind(place, operation)
}

/// Appends the instructions of a call, and goes on behind it.
fn put_called(
    lines: &mut Vec<Line>,
    place: &mut Place,
    to: Option<Words>,
    function: usize,
    arguments: &[Temporary],
) -> Result<(), AllocError>
    ensures code { let u = surroundings place.old in OnOk result (lines.new.items ≡ lines.old.items
        ++ call_code (saves_left place.old) u.passed u.held (optional_tree to) function (map temporary_tree arguments.now)) }
    ensures same { OnOk result (surroundings place.new ≡ holding (with_results 9 (optional_tree to) []) (surroundings place.old)) }
    ensures saves { OnOk result (saves_left place.new ≡ drop (length (optional_tree to)) (saves_left place.old)) }
{
    put_call(lines, place, to, function, arguments)?;
    hold_called(place, to)
}

/// Appends the instructions of a statement, whose labels are numbered from `next` on. Answers the next free label.
#[cycle(statement)]
fn put_statement(
    lines: &mut Vec<Line>,
    starts: &mut Vec<Start>,
    place: &mut Place,
    next: usize,
    ways: Ways,
    statement: &Statement,
) -> Result<usize, AllocError>
    ensures code { OnOk result (lines.new.items ≡ lines.old.items
        ++ statement_code (saves_left place.old) (surroundings place.old) next ways.out ways.again (statement_tree statement.now)) }
    ensures free { IfOk result (λ n. n ≡ next + labels_in (statement_tree statement.now)) }
    ensures same { let u = surroundings place.old in let s = statement_tree statement.now in
        OnOk result (surroundings place.new ≡ holding (held_behind u.homes u.statics u.held s) (naming (names_after s u.names) u)) }
    ensures saves { OnOk result (saves_left place.new ≡ drop (results_in (statement_tree statement.now)) (saves_left place.old)) }
{
    match statement {
        Statement::Do(_, operation) => {
            put_done(lines, place, *operation)?;
            return Ok(next);
        }
        Statement::Copy(to, from, layout) => put_copy(lines, place, *to, *from, layout.as_ref())?,
        Statement::Clear(pointer, layout, count) => {
            put_clear(lines, place, *pointer, layout.as_ref(), *count)?;
        }
        Statement::RegionAlloc(to, handle, count, layout) => {
            put_region_request(lines, place, *to, *handle, *count, layout.as_ref())?;
            return Ok(next);
        }
        Statement::UniqueAlloc(to, layout) => {
            put_unique_request(lines, place, *to, layout.as_ref())?;
            return Ok(next);
        }
        Statement::Check(test, failure, _) => {
            return put_checked(lines, place, next, *test, *failure);
        }
        Statement::If(test, both) => {
            return put_if(lines, starts, place, next, ways, *test, &both.0, &both.1);
        }
        Statement::While(flag, both) => {
            return put_while(lines, starts, place, next, ways, &both.0, *flag, &both.1);
        }
        Statement::Block(block) => {
            return put_block(lines, starts, place, next, ways, &block.0, &block.1);
        }
        Statement::Leave(body) => return put_leavable(lines, starts, place, next, ways, body),
        Statement::Break(_) => put_lines(lines, &[Line::Jump(ways.out)])?,
        Statement::Continue(_) => put_lines(lines, &[Line::Jump(ways.again)])?,
        Statement::Call(call) => {
            put_called(lines, place, call.result, call.function, &call.arguments)?;
            return Ok(next);
        }
        Statement::Return(value, _) => {
            put_return(lines, place, *value)?;
            return Ok(next);
        }
        Statement::Raise(kind, _) => put_raise(lines, *kind)?,
    }
    place.held.forget();
    Ok(next)
}

/// Appends the instructions of a statement whose result goes straight into a home, if it is none but x0: what the statement itself appends is dropped
/// then. Answers the next free label.
#[cycle(statement)]
fn put_first(
    lines: &mut Vec<Line>,
    starts: &mut Vec<Start>,
    place: &mut Place,
    next: usize,
    ways: Ways,
    home: Register,
    statement: &Statement,
) -> Result<usize, AllocError>
    ensures code { let s = statement_tree statement.now in let u = surroundings place.old in OnOk result (lines.new.items ≡ lines.old.items
        ++ first_code home (flag_at (saves_left place.old) 0) u s (statement_code (saves_left place.old) u next ways.out ways.again s)) }
    ensures free { IfOk result (λ n. n ≡ next + labels_in (statement_tree statement.now)) }
    ensures same { let u = surroundings place.old in let s = statement_tree statement.now in
        OnOk result (surroundings place.new ≡ holding (held_behind u.homes u.statics u.held s) (naming (names_after s u.names) u)) }
    ensures saves { OnOk result (saves_left place.new ≡ drop (results_in (statement_tree statement.now)) (saves_left place.old)) }
{
    put_straight(lines, place, home, statement)?;
    let kept = lines.len();
    let free = put_statement(lines, starts, place, next, ways, statement)?;
    keep_reached(lines, kept, home.number() == 0);
    Ok(free)
}

/// Appends the instructions of statements, one after the other, but for those behind one that can't complete, and those that put a result into a home where
/// it is already: what these append is dropped. Answers the next free label.
#[cycle(statement)]
pub fn put_statements(
    lines: &mut Vec<Line>,
    starts: &mut Vec<Start>,
    place: &mut Place,
    next: usize,
    ways: Ways,
    statements: &[Statement],
) -> Result<usize, AllocError>
    ensures code { OnOk result (lines.new.items ≡ lines.old.items
        ++ statements_code (saves_left place.old) (surroundings place.old) next ways.out ways.again (body_tree statements.now)) }
    ensures free { IfOk result (λ n. n ≡ next + labels_of (body_tree statements.now)) }
    ensures same { let u = surroundings place.old in let ss = body_tree statements.now in
        OnOk result (surroundings place.new ≡ holding (held_behind_all u.homes u.statics u.held ss) (naming (names_after_all ss u.names) u)) }
    ensures saves { OnOk result (saves_left place.new ≡ drop (results_all (body_tree statements.now)) (saves_left place.old)) }
{
    let mut free = next;
    let mut reached = true;
    let mut placed = false;
    let mut behind = statements;
    'each: for statement in statements {
        behind = behind_first(behind);
        let kept = lines.len();
        note(starts, kept, statement)?;
        let home = home_behind(place, placed, statement, behind);
        free = put_first(lines, starts, place, free, ways, home, statement)?;
        keep_reached(lines, kept, reached && !placed);
        let end = lines.len();
        trim(starts, end, reached);
        reached = reached && can_complete(statement);
        placed = home.number() != 0;
    }
    Ok(free)
}

/// Appends the instructions of a choice, which may be a check. Answers the next free label.
#[cycle(statement)]
fn put_if(
    lines: &mut Vec<Line>,
    starts: &mut Vec<Start>,
    place: &mut Place,
    next: usize,
    ways: Ways,
    test: Temporary,
    these: &[Statement],
    those: &[Statement],
) -> Result<usize, AllocError>
    ensures code { OnOk result (lines.new.items ≡ lines.old.items
        ++ statement_code (saves_left place.old) (surroundings place.old) next ways.out ways.again
        (core.If test.0 (body_tree these.now) (body_tree those.now))) }
    ensures free { IfOk result (λ n. n ≡ next + labels_in (core.If test.0 (body_tree these.now) (body_tree those.now))) }
    ensures same { let u = surroundings place.old in let s = core.If test.0 (body_tree these.now) (body_tree those.now) in
        OnOk result (surroundings place.new ≡ holding (held_behind u.homes u.statics u.held s) (naming (names_after s u.names) u)) }
    ensures saves { OnOk result (saves_left place.new ≡ drop (results_in (core.If test.0 (body_tree these.now) (body_tree those.now))) (saves_left place.old)) }
{
    match check_of(these, those) {
        Some(failure) => put_checked(lines, place, next, test, failure),
        None => put_ways(lines, starts, place, next, ways, test, these, those),
    }
}

/// Appends the instructions of a choice that is no check: the test, the first statements and a jump over the others; a label, the
/// others, and a label. Answers the next free label.
#[cycle(statement)]
fn put_ways(
    lines: &mut Vec<Line>,
    starts: &mut Vec<Start>,
    place: &mut Place,
    next: usize,
    ways: Ways,
    test: Temporary,
    these: &[Statement],
    those: &[Statement],
) -> Result<usize, AllocError>
    requires { check_of (body_tree these.now) (body_tree those.now) ≡ None }
    ensures code { OnOk result (lines.new.items ≡ lines.old.items
        ++ statement_code (saves_left place.old) (surroundings place.old) next ways.out ways.again
        (core.If test.0 (body_tree these.now) (body_tree those.now))) }
    ensures free { IfOk result (λ n. n ≡ next + labels_in (core.If test.0 (body_tree these.now) (body_tree those.now))) }
    ensures same { let u = surroundings place.old in let s = core.If test.0 (body_tree these.now) (body_tree those.now) in
        OnOk result (surroundings place.new ≡ holding (held_behind u.homes u.statics u.held s) (naming (names_after s u.names) u)) }
    ensures saves { OnOk result (saves_left place.new ≡ drop (results_in (core.If test.0 (body_tree these.now) (body_tree those.now))) (saves_left place.old)) }
{
    let inside = put_choice(lines, place, test, next)?;
    let known = place.known()?;
    let behind = put_statements(lines, starts, place, inside, ways, these)?;
    put_between(lines, can_complete_all(these), those, behind, next)?;
    let other = following(behind)?;
    let first = place.exchange(known);
    let free = put_statements(lines, starts, place, other, ways, those)?;
    put_behind(lines, those, behind)?;
    place.join(first, those);
    Ok(free)
}

/// Appends the instructions of a loop: a label, its test, its body and a jump back; and a label behind it. Answers
/// the next free label.
#[cycle(statement)]
fn put_while(
    lines: &mut Vec<Line>,
    starts: &mut Vec<Start>,
    place: &mut Place,
    next: usize,
    ways: Ways,
    test: &[Statement],
    flag: Temporary,
    body: &[Statement],
) -> Result<usize, AllocError>
    ensures code { OnOk result (lines.new.items ≡ lines.old.items
        ++ statement_code (saves_left place.old) (surroundings place.old) next ways.out ways.again
        (core.While (body_tree test.now) flag.0 (body_tree body.now))) }
    ensures free { IfOk result (λ n. n ≡ next + labels_in (core.While (body_tree test.now) flag.0 (body_tree body.now))) }
    ensures same { let u = surroundings place.old in OnOk result (surroundings place.new
        ≡ holding [] (naming (names_after (core.While (body_tree test.now) flag.0 (body_tree body.now)) u.names) u)) }
    ensures saves { OnOk result (saves_left place.new
        ≡ drop (results_in (core.While (body_tree test.now) flag.0 (body_tree body.now))) (saves_left place.old)) }
{
    let first = put_label(lines, next)?;
    place.held.forget();
    let behind = put_statements(lines, starts, place, first, ways, test)?;
    let within = put_choice(lines, place, flag, behind)?;
    place.held.forget();
    let inside = Ways {
        out: behind,
        again: next,
    };
    let free = put_statements(lines, starts, place, within, inside, body)?;
    put_lines(lines, &[Line::Jump(next), Line::Label(behind)])?;
    place.held.forget();
    Ok(free)
}

/// Appends the instructions of a block with these locals. Answers the next free label.
#[cycle(statement)]
fn put_block(
    lines: &mut Vec<Line>,
    starts: &mut Vec<Start>,
    place: &mut Place,
    next: usize,
    ways: Ways,
    locals: &[Local],
    body: &[Statement],
) -> Result<usize, AllocError>
    ensures code { OnOk result (lines.new.items ≡ lines.old.items
        ++ statement_code (saves_left place.old) (surroundings place.old) next ways.out ways.again
        (core.Block (map local_tree locals.now) (body_tree body.now))) }
    ensures free { IfOk result (λ n. n ≡ next + labels_in (core.Block (map local_tree locals.now) (body_tree body.now))) }
    ensures same { let u = surroundings place.old in OnOk result (surroundings place.new
        ≡ holding [] (naming (names_after (core.Block (map local_tree locals.now) (body_tree body.now)) u.names) u)) }
    ensures saves { OnOk result (saves_left place.new
        ≡ drop (results_in (core.Block (map local_tree locals.now) (body_tree body.now))) (saves_left place.old)) }
{
    let low = place.enter(locals)?;
    let free = put_statements(lines, starts, place, next, ways, body)?;
    place.leave(low);
    Ok(free)
}

/// Appends the instructions of statements that a `Break` among them leaves, and a label behind them. A `Continue` is that of the loop around. Answers
/// the next free label.
#[cycle(statement)]
fn put_leavable(
    lines: &mut Vec<Line>,
    starts: &mut Vec<Start>,
    place: &mut Place,
    next: usize,
    ways: Ways,
    body: &[Statement],
) -> Result<usize, AllocError>
    ensures code { OnOk result (lines.new.items ≡ lines.old.items
        ++ statement_code (saves_left place.old) (surroundings place.old) next ways.out ways.again (core.Leave (body_tree body.now))) }
    ensures free { IfOk result (λ n. n ≡ next + labels_in (core.Leave (body_tree body.now))) }
    ensures same { let u = surroundings place.old in OnOk result (surroundings place.new
        ≡ holding [] (naming (names_after (core.Leave (body_tree body.now)) u.names) u)) }
    ensures saves { OnOk result (saves_left place.new ≡ drop (results_in (core.Leave (body_tree body.now))) (saves_left place.old)) }
{
    let inside = Ways {
        out: next,
        again: ways.again,
    };
    let free = put_statements(lines, starts, place, following(next)?, inside, body)?;
    put_lines(lines, &[Line::Label(next)])?;
    place.held.forget();
    Ok(free)
}
