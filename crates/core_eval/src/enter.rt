// The first move of each statement.

ghost use Rattle.std.specs.Prelude.{◌≡◌, ◌∷◌, ◌+◌, List, IfOk, OnOk, map, true};
ghost use Rattle.core_meaning.specs.Core.{If, NoStatements};
ghost use Rattle.core_meaning.specs.Meaning.{values_of};
ghost use Rattle.core_meaning.specs.Steps.{Falls};
ghost use Rattle.cyc_core.specs.Trees.{body_tree, failure_body, optional_tree, statement_tree, temporary_tree};
ghost use Rattle.core_eval.specs.declared.memory.Memory.{Memory as TheMemory};
ghost use Rattle.core_eval.specs.Values.{AreRead, bound_value, content_of, temp_of, truth_of};
ghost use Rattle.core_eval.specs.Elements.{blank_object};
ghost use Rattle.core_eval.specs.Blocks.{activation_of};
ghost use Rattle.core_eval.specs.Pendings.{Block, Breakable, Execute, Follow, Go, Leave, Test, Wait, next_of, optional_value, wait_of, waits_behind, waits_of};
ghost use Rattle.core_eval.specs.Standing.{known_of};
ghost use Rattle.core_eval.specs.Costs.{IsMove};

use crate::frame::Frame;
use crate::held::Bound;
use crate::memory::Memory;
use crate::object::push_blanks;
use crate::operation::operate;
use crate::pending::{Due, Flow, Loop, Now, Pending, Returned};
use crate::request::{allocate, allocate_unique};
use crate::spare::Spare;
use crate::take::leave_function;
use crate::value::Value;
use crate::whole::{clear, copy};
use crate::words::operate_on_words;
use cyc_core::{Failure, Local, Origin, Statement, Temporary, Words};
use std::alloc::{AllocError, Global};

/// Puts what waits on top of the stack.
pub fn wait<'p>(stack: &mut Vec<Pending<'p>>, pending: Pending<'p>) -> Result<(), AllocError>
    ensures { OnOk result (waits_of stack.new.items ≡ wait_of pending.entry ∷ waits_of stack.old.items) }
{
    stack.push(pending)?;
    Ok(())
}

/// Whether a statement is over, and those after it are next.
fn is_over(due: &Due<'_>) -> bool
    ensures { result ≡ true → next_of due.entry.now ≡ Go (Leave Falls) }
{
    match due {
        Due::Go(Now::Leave(Flow::Falls)) => true,
        _ => false,
    }
}

/// Puts the statements after one on top of the stack, if there are any.
fn wait_for_others<'p>(
    stack: &mut Vec<Pending<'p>>,
    others: &'p [Statement],
) -> Result<(), AllocError>
    ensures { OnOk result (waits_of stack.new.items ≡ waits_behind (body_tree others.entry.now) (waits_of stack.old.items)) }
{
    if others.is_empty() {
        return Ok(());
    }
    wait(stack, Pending::Then(others))
}

/// Puts what waits on top of the stack, and these statements are next.
pub fn follow<'p>(
    stack: &mut Vec<Pending<'p>>,
    pending: Pending<'p>,
    statements: &'p [Statement],
) -> Result<Due<'p>, AllocError>
    ensures next { IfOk result (λ due. next_of due ≡ Go (Follow (body_tree statements.entry.now))) }
    ensures waits { OnOk result (waits_of stack.new.items ≡ wait_of pending.entry ∷ waits_of stack.old.items) }
{
    wait(stack, pending)?;
    Ok(Due::Go(Now::Follow(statements)))
}

/// Whether a value is true, if it is a word or a pointer.
pub fn truth(value: Value) -> Option<bool>
    ensures { result ≡ truth_of value }
{
    match value {
        Value::Blank => None,
        Value::Word(word) => Some(word != 0),
        Value::Null => Some(false),
        Value::Pointer(_) => Some(true),
        Value::Birth(_) => None,
    }
}

/// What these temporaries hold.
#[tactic(auto, using(crate::proofs::Lists::read_one))]
fn arguments_of(
    alloc: Global,
    frame: &Frame,
    spare: &mut Spare,
    arguments: &[Temporary],
) -> Result<Vec<Value>, AllocError>
    ensures { IfOk result (λ values. AreRead frame.now.temps.items (map temporary_tree arguments.now) values.items) }
{
    let mut values = spare.take_temps(alloc);
    values.reserve_exact(arguments.len())?;
    'each: for argument in arguments {
        values.push(frame.temp(*argument))?;
    }
    Ok(values)
}

/// What a temporary holds, if it is a count or an index. Fails where it is a pointer or a handle, which nothing is kept of there.
fn bound_of(frame: &Frame, temporary: Temporary) -> Result<Bound, AllocError>
    ensures { IfOk result (λ bound. content_of (bound_value bound) ≡ temp_of frame.now.temps.items temporary.0) }
{
    match Bound::kept(frame.temp(temporary)) {
        Some(bound) => Ok(bound),
        None => Err(AllocError),
    }
}

/// What the temporaries of a result hold. Fails only where a pointer or a handle would be a count or an index.
fn returned(frame: &Frame, words: Option<Words>) -> Result<Option<Returned>, AllocError>
    ensures { IfOk result (λ returned. values_of (temp_of frame.now.temps.items) (optional_tree words) ≡ optional_value returned) }
{
    match words {
        None => Ok(None),
        Some(Words::One(from)) => Ok(Some(Returned::One(frame.temp(from)))),
        Some(Words::Three(first, second, third)) => Ok(Some(Returned::Three(
            frame.temp(first),
            bound_of(frame, second)?,
            bound_of(frame, third)?,
        ))),
    }
}

/// The first move of a loop, and of each further turn: its test is next.
pub fn enter_loop<'p>(
    flag: Temporary,
    both: &'p Loop,
    stack: &mut Vec<Pending<'p>>,
) -> Result<Due<'p>, AllocError>
    ensures next { IfOk result (λ due. next_of due ≡ Go (Follow (body_tree both.entry.now.value.0.items))) }
    ensures waits { OnOk result (waits_of stack.new.items
        ≡ Test (body_tree both.entry.now.value.0.items) flag.0 (body_tree both.entry.now.value.1.items) ∷ waits_of stack.old.items) }
{
    follow(stack, Pending::Test(flag, both), &both.0)
}

/// The first move of a block: its locals hold nothing, and its statements are next.
fn enter_block<'p>(
    alloc: Global,
    locals: &[Local],
    body: &'p [Statement],
    stack: &mut Vec<Pending<'p>>,
    memory: &mut Memory,
) -> Result<Due<'p>, AllocError>
    ensures next { IfOk result (λ due. next_of due ≡ Go (Follow (body_tree body.entry.now))) }
    ensures waits { OnOk result (waits_of stack.new.items ≡ Block ∷ waits_of stack.old.items) }
    ensures blocks { OnOk result (map activation_of memory.new.blocks.items
        ≡ record { number = memory.old.entered; objects = map blank_object locals.now } ∷ map activation_of memory.old.blocks.items) }
    ensures entered { OnOk result (memory.new.entered ≡ memory.old.entered + 1) }
    ensures owns { OnOk result (memory.new.owns ≡ memory.old.owns) }
    ensures called { OnOk result (memory.new.called ≡ memory.old.called) }
    ensures globals { OnOk result (memory.new.globals ≡ memory.old.globals) }
    ensures regions { OnOk result (memory.new.regions ≡ memory.old.regions) }
    ensures long_blocks { OnOk result (memory.new.long_blocks ≡ memory.old.long_blocks) }
{
    let mut objects = memory.spare.take_objects(alloc);
    objects.reserve_exact(locals.len())?;
    push_blanks(alloc, &mut objects, locals, true)?;
    memory.enter_block(objects)?;
    follow(stack, Pending::Block, body)
}

/// The first move of a statement that a `Break` in its body ends: that body is next.
fn enter_breakable<'p>(
    body: &'p [Statement],
    stack: &mut Vec<Pending<'p>>,
) -> Result<Due<'p>, AllocError>
    ensures next { IfOk result (λ due. next_of due ≡ Go (Follow (body_tree body.entry.now))) }
    ensures waits { OnOk result (waits_of stack.new.items ≡ Breakable ∷ waits_of stack.old.items) }
{
    follow(stack, Pending::Breakable, body)
}

/// What a failed check raises.
fn fail<'p>(frame: &mut Frame, failure: Failure, origin: Origin) -> Due<'p>
    ensures { (ws : List Wait) (memory : TheMemory) → IsMove (Follow (failure_body failure)) ws (known_of frame.old memory)
        (next_of result) ws (known_of frame.new memory) }
{
    frame.at = origin;
    match failure {
        Failure::Always(kind) => Due::Raised(kind),
        Failure::ByTest(test, first, second) => match truth(frame.temp(test)) {
            Some(true) => Due::Raised(first),
            Some(false) => Due::Raised(second),
            None => Due::Wrong,
        },
    }
}

/// The first move of a check: it is over where its test holds, and else its exception is raised.
fn check<'p>(frame: &mut Frame, test: Temporary, failure: Failure, origin: Origin) -> Due<'p>
    ensures { (ws : List Wait) (memory : TheMemory) → IsMove (Execute (If test.0 NoStatements (failure_body failure))) ws (known_of frame.old memory)
        (next_of result) ws (known_of frame.new memory) }
{
    match truth(frame.temp(test)) {
        Some(true) => Due::Go(Now::Leave(Flow::Falls)),
        Some(false) => fail(frame, failure, origin),
        None => Due::Wrong,
    }
}

/// The first move of a statement. Fails only where an operation does, no host memory is left, 2^64 - 1 blocks were entered, there would be a
/// cell with a number over 2^64 - 1, an object would have a cell behind 2^32 - 1 bytes, a pointer or a handle would be a count or an index,
/// or a cell would be copied or cleared that may have a pointer in another part.
pub fn enter_statement<'p>(
    alloc: Global,
    statement: &'p Statement,
    stack: &mut Vec<Pending<'p>>,
    frame: &mut Frame,
    memory: &mut Memory,
) -> Result<Due<'p>, AllocError>
    ensures { IfOk result (λ due. IsMove (Execute (statement_tree statement.entry.now)) (waits_of stack.old.items) (known_of frame.old memory.old)
        (next_of due) (waits_of stack.new.items) (known_of frame.new memory.new)) }
{
    match statement {
        Statement::Do(_, operation) => operate(alloc, *operation, frame, memory),
        Statement::Copy(to, from, layout) => {
            copy(alloc, frame, memory, *to, *from, layout.as_ref())
        }
        Statement::Clear(place, layout, count) => {
            clear(alloc, frame, memory, *place, layout.as_ref(), *count)
        }
        Statement::RegionAlloc(to, region, count, layout) => allocate(
            alloc, frame, memory, *to, *region, *count, layout,
        ),
        Statement::UniqueAlloc(to, layout) => { allocate_unique(alloc, frame, memory, *to, layout) }
        Statement::Check(test, failure, origin) => Ok(check(frame, *test, *failure, *origin)),
        Statement::If(test, both) => match truth(frame.temp(*test)) {
            Some(true) => Ok(Due::Go(Now::Follow(&both.0))),
            Some(false) => Ok(Due::Go(Now::Follow(&both.1))),
            None => Ok(Due::Wrong),
        },
        Statement::While(flag, both) => enter_loop(*flag, both, stack),
        Statement::Block(block) => enter_block(alloc, &block.0, &block.1, stack, memory),
        Statement::Leave(body) => enter_breakable(body, stack),
        Statement::Break(_) => Ok(Due::Go(Now::Leave(Flow::Breaks))),
        Statement::Continue(_) => Ok(Due::Go(Now::Leave(Flow::Continues))),
        Statement::Call(call) => {
            frame.at = call.origin;
            let values = arguments_of(alloc, frame, &mut memory.spare, &call.arguments)?;
            Ok(Due::Call(call.result, call.function, values))
        }
        Statement::Return(words, _) => {
            let values = returned(frame, *words)?;
            leave_function(values, stack, frame, memory)
        }
        Statement::Raise(kind, origin) => {
            frame.at = *origin;
            Ok(Due::Raised(*kind))
        }
    }
}

/// The moves of statements that follow one another: operations are done here, one after the other, up to a statement of another sort, for whose
/// end the others wait. Fails only where a first move does, or no host memory is left.
pub fn follow_statements<'p>(
    alloc: Global,
    statements: &'p [Statement],
    stack: &mut Vec<Pending<'p>>,
    frame: &mut Frame,
    memory: &mut Memory,
) -> Result<Due<'p>, AllocError>
    ensures { IfOk result (λ due. IsMove (Follow (body_tree statements.entry.now)) (waits_of stack.old.items) (known_of frame.old memory.old)
        (next_of due) (waits_of stack.new.items) (known_of frame.new memory.new)) }
{
    let mut rest = statements;
    'each: loop {
        let Some((statement, others)) = rest.split_first() else {
            return Ok(Due::Go(Now::Leave(Flow::Falls)));
        };
        let Statement::Do(_, operation) = statement else {
            wait_for_others(stack, others)?;
            return enter_statement(alloc, statement, stack, frame, memory);
        };
        let is_done = operate_on_words(operation, frame, memory)?;
        if is_done {
            rest = others;
            continue 'each;
        }
        let due = operate(alloc, *operation, frame, memory)?;
        if !is_over(&due) {
            wait_for_others(stack, others)?;
            return Ok(due);
        }
        rest = others;
    }
}
