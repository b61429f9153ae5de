// What goes on at the end of a statement.

ghost use Rattle.std.specs.Prelude.{◌≡◌, ◌∷◌, [], ℕ, List, IfOk, OnOk, IfSome, IfNone, true, false};
ghost use Rattle.core_meaning.specs.Steps.{Returns};
ghost use Rattle.cyc_core.specs.Trees.{body_tree, optional_tree};
ghost use Rattle.core_eval.specs.declared.frame.Frame.{Frame as TheFrame};
ghost use Rattle.core_eval.specs.declared.memory.Memory.{Memory as TheMemory};
ghost use Rattle.core_eval.specs.Pendings.{
  Block,
  Body,
  Breakable,
  Leave,
  Test,
  Wait,
  caller_of,
  exit_of,
  next_of,
  optional_value,
  wait_of,
  waits_of,
  word_returned,
};
ghost use Rattle.core_eval.specs.Standing.{Known, LeavesCall, Takes, are_as_many, known_of};
ghost use Rattle.core_eval.specs.Costs.{EndsWithin, IsMove};

use crate::caller::Waiting;
use crate::enter::{enter_loop, truth};
use crate::frame::Frame;
use crate::memory::Memory;
use crate::pending::{Due, Flow, Loop, Now, Pending, Returned};
use crate::spare::Spare;
use crate::value::Value;
use cyc_core::{Temporary, Words};
use std::alloc::AllocError;

/// What is on top of the stack, which is taken off.
fn next<'p>(stack: &mut Vec<Pending<'p>>) -> Option<Pending<'p>>
    ensures some { IfSome result (λ pending. waits_of stack.old.items ≡ wait_of pending ∷ waits_of stack.new.items) }
    ensures none { IfNone result (waits_of stack.old.items ≡ []) }
    ensures still { IfNone result (waits_of stack.new.items ≡ []) }
{
    stack.pop()
}

/// A loop at the end of its test: a unit is due for another turn, or the loop is over.
fn take_test<'p>(flow: Flow, flag: Temporary, both: &'p Loop, frame: &Frame) -> Due<'p>
    ensures { (ws : List Wait) (memory : TheMemory)
        → IsMove (Leave (exit_of flow)) (Test (body_tree both.entry.now.value.0.items) flag.0 (body_tree both.entry.now.value.1.items) ∷ ws)
        (known_of frame.now memory) (next_of result) ws (known_of frame.now memory) }
{
    let Flow::Falls = flow else {
        return Due::Go(Now::Leave(flow));
    };
    match truth(frame.temp(flag)) {
        Some(true) => Due::Turn(flag, both),
        Some(false) => Due::Go(Now::Leave(Flow::Falls)),
        None => Due::Wrong,
    }
}

/// A loop at the end of its body: its test is next, or the loop is over.
fn take_body<'p>(
    flow: Flow,
    flag: Temporary,
    both: &'p Loop,
    stack: &mut Vec<Pending<'p>>,
) -> Result<Due<'p>, AllocError>
    ensures { IfOk result (λ due. (known : Known)
        → IsMove (Leave (exit_of flow))
        (Body (body_tree both.entry.now.value.0.items) flag.0 (body_tree both.entry.now.value.1.items) ∷ waits_of stack.old.items)
        known (next_of due) (waits_of stack.new.items) known) }
{
    match flow {
        Flow::Falls | Flow::Continues => enter_loop(flag, both, stack),
        Flow::Breaks => Ok(Due::Go(Now::Leave(Flow::Falls))),
    }
}

/// A block that is left: its locals end with it.
fn take_block<'p>(flow: Flow, memory: &mut Memory) -> Due<'p>
    ensures { (ws : List Wait) (frame : TheFrame) → IsMove (Leave (exit_of flow)) (Block ∷ ws) (known_of frame memory.old) (next_of result) ws
        (known_of frame memory.new) }
{
    memory.leave_block();
    Due::Go(Now::Leave(flow))
}

/// A statement that a `Break` in its body ends, at the end of that body.
fn take_breakable<'p>(flow: Flow) -> Due<'p>
    ensures { (ws : List Wait) (known : Known) → IsMove (Leave (exit_of flow)) (Breakable ∷ ws) known (next_of result) ws known }
{
    match flow {
        Flow::Falls | Flow::Breaks => Due::Go(Now::Leave(Flow::Falls)),
        Flow::Continues => Due::Go(Now::Leave(flow)),
    }
}

/// The temporaries of a result get what was returned, if that is as many words, and the answer is whether it is. Fails only where no host
/// memory is left.
fn take_result(
    frame: &mut Frame,
    to: Option<Words>,
    returned: Option<Returned>,
) -> Result<bool, AllocError>
    ensures fits { IfOk result (λ fits. fits ≡ are_as_many (optional_tree to) (optional_value returned)) }
    ensures taken { IfOk result (λ fits. fits ≡ true → Takes (optional_tree to) (optional_value returned) frame.old.temps.items frame.new.temps.items) }
    ensures kept { IfOk result (λ fits. fits ≡ false → frame.new.temps.items ≡ frame.old.temps.items) }
    ensures base { OnOk result (frame.new.base ≡ frame.old.base) }
{
    match (to, returned) {
        (None, None) => Ok(true),
        (Some(Words::One(to)), Some(Returned::One(value))) => {
            frame.set_temp(to, value)?;
            Ok(true)
        }
        (Some(Words::Three(first, second, third)), Some(Returned::Three(to, count, index))) => {
            frame.set_temp(first, to)?;
            frame.set_temp(second, count.value())?;
            frame.set_temp(third, index.value())?;
            Ok(true)
        }
        _ => Ok(false),
    }
}

/// A caller goes on with what it had, and its temporaries get the result, if there is one.
fn take_caller<'p>(
    returned: Option<Returned>,
    caller: Waiting,
    frame: &mut Frame,
    spare: &mut Spare,
) -> Result<Due<'p>, AllocError>
    ensures { IfOk result (λ due. (ws : List Wait) (memory after : TheMemory) → LeavesCall memory after
        → IsMove (Leave (Returns (optional_value returned))) (caller_of caller ∷ ws) (known_of frame.old memory)
        (next_of due) ws (known_of frame.new after)) }
{
    let to = caller.to;
    caller.go_on(frame, spare)?;
    let fits = take_result(frame, to, returned)?;
    if fits {
        Ok(Due::Go(Now::Leave(Flow::Falls)))
    } else {
        Ok(Due::Wrong)
    }
}

/// The word that was returned, if it is one.
fn word_returned(returned: Option<Returned>) -> Option<u32>
    ensures { result ≡ word_returned returned }
{
    match returned {
        Some(Returned::One(Value::Word(word))) => Some(word),
        _ => None,
    }
}

/// The status of a program whose `main` is left.
fn status<'p>(returned: Option<Returned>) -> Due<'p>
    ensures { (known : Known) → IsMove (Leave (Returns (optional_value returned))) [] known (next_of result) [] known }
{
    match word_returned(returned) {
        Some(word) => Due::Over(word),
        None => Due::Wrong,
    }
}

/// Ends what waits within a function that returns, as a block with its locals. The answer is the caller, where it is one that waits.
fn end_within(pending: Pending<'_>, memory: &mut Memory) -> Option<Waiting>
    ensures caller { IfSome result (λ caller. wait_of pending.entry ≡ caller_of caller) }
    ensures same { IfSome result (λ caller. memory.new ≡ memory.old) }
    ensures within { IfNone result (EndsWithin (wait_of pending.entry) memory.old memory.new) }
{
    match pending {
        Pending::Caller(caller) => Some(Box::into_inner(caller)),
        Pending::Block => {
            memory.leave_block();
            None
        }
        Pending::Then(_) => None,
        Pending::Test(_, _) => None,
        Pending::Body(_, _) => None,
        Pending::Breakable => None,
    }
}

/// A function returns: what waits within it ends, and its caller goes on, or the program is over. Fails only where no host memory is left.
pub fn leave_function<'p>(
    returned: Option<Returned>,
    stack: &mut Vec<Pending<'p>>,
    frame: &mut Frame,
    memory: &mut Memory,
) -> Result<Due<'p>, AllocError>
    ensures { IfOk result (λ due. IsMove (Leave (Returns (optional_value returned))) (waits_of stack.old.items) (known_of frame.old memory.old)
        (next_of due) (waits_of stack.new.items) (known_of frame.new memory.new)) }
{
    'waits: loop {
        let Some(pending) = next(stack) else {
            return Ok(status(returned));
        };
        if let Some(caller) = end_within(pending, memory) {
            memory.leave_call();
            return take_caller(returned, caller, frame, &mut memory.spare);
        }
    }
}

/// A statement was left, and what waits for that goes on. Fails only where no host memory is left.
pub fn take_flow<'p>(
    flow: Flow,
    stack: &mut Vec<Pending<'p>>,
    frame: &mut Frame,
    memory: &mut Memory,
) -> Result<Due<'p>, AllocError>
    ensures { IfOk result (λ due. IsMove (Leave (exit_of flow)) (waits_of stack.old.items) (known_of frame.old memory.old)
        (next_of due) (waits_of stack.new.items) (known_of frame.new memory.new)) }
{
    let Some(pending) = next(stack) else {
        return Ok(Due::Wrong);
    };
    match (pending, flow) {
        (Pending::Then(others), Flow::Falls) => Ok(Due::Go(Now::Follow(others))),
        (Pending::Then(_), _) => Ok(Due::Go(Now::Leave(flow))),
        (Pending::Test(flag, both), _) => Ok(take_test(flow, flag, both, frame)),
        (Pending::Body(flag, both), _) => take_body(flow, flag, both, stack),
        (Pending::Block, _) => Ok(take_block(flow, memory)),
        (Pending::Breakable, _) => Ok(take_breakable(flow)),
        (Pending::Caller(caller), _) => {
            memory.leave_call();
            Box::into_inner(caller).go_on(frame, &mut memory.spare)?;
            Ok(Due::Wrong)
        }
    }
}
