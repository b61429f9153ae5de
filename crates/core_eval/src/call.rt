// How calls, and programs, begin.

ghost use Rattle.std.specs.Prelude.{◌≡◌, [], ◌∷◌, IfOk, IfSome, IfNone, Some, None, slice_get, map};
ghost use Rattle.cyc_core.specs.Trees.{function_tree, optional_tree, program_tree};
ghost use Rattle.core_meaning.specs.Meaning.{start as start_of};
ghost use Rattle.core_eval.specs.Values.{content_of};
ghost use Rattle.core_eval.specs.Pendings.{next_of, waits_of};
ghost use Rattle.core_eval.specs.Standing.{IsCall, Stands, first_known, known_of};

use crate::caller::Waiting;
use crate::enter::wait;
use crate::frame::Frame;
use crate::object::blank_objects;
use crate::pending::{Due, Now, Pending, Run};
use crate::value::Value;
use cyc_core::{Function, Local, Origin, Program, Words};
use std::alloc::{AllocError, Global};
use std::mem;

/// The function with this number.
#[tactic(auto, using(crate::proofs::Calls::function_at, crate::proofs::Calls::no_function))]
fn function_at<'p>(functions: &'p [Function], number: usize) -> Option<&'p Function>
    ensures some { IfSome result (λ f. slice_get (map function_tree functions.entry.now) number ≡ Some (function_tree f.now)) }
    ensures none { IfNone result (slice_get (map function_tree functions.entry.now) number ≡ None) }
{
    functions.get(number)
}

/// The most temporaries that a function gets space for when it is called. Of more it may use few.
const MOST_RESERVED: u32 = 64;

/// How many calls are active before each further one is kept in less space.
const DEEP: usize = 1024;

/// A call: the temporaries that get the result, the function's number, and what it is passed.
#[derive(Drop)]
pub struct Call {
    pub to: Option<Words>,
    pub function: usize,
    pub arguments: Vec<Value>,
}

/// The activation of a function that was passed these, has so many temporaries, and outside of which there are so many blocks. Fails only where no
/// host memory is left.
fn callee_frame(arguments: Vec<Value>, temporaries: u32, base: usize) -> Result<Frame, AllocError>
    ensures temps { IfOk result (λ frame. frame.temps.items ≡ arguments.items) }
    ensures base { IfOk result (λ frame. frame.base ≡ base) }
{
    let mut temps = arguments;
    if temporaries <= MOST_RESERVED {
        let others = (temporaries as usize).saturating_sub(temps.len());
        temps.reserve_exact(others)?;
    }
    Ok(Frame {
        temps,
        base,
        at: Origin(0),
    })
}

/// The move of a call whose unit is paid: the callee's statements are next, and the caller waits.
pub fn enter_call<'p>(alloc: Global, call: Call, run: &mut Run<'p>) -> Result<Due<'p>, AllocError>
    ensures functions { run.new.functions ≡ run.old.functions }
    ensures enters { IfOk result (λ due. IsCall (map function_tree run.old.functions.now) (optional_tree call.to) call.function
        (map content_of call.arguments.items) (waits_of run.old.stack.items) (known_of run.old.frame run.old.memory)
        (next_of due) (waits_of run.new.stack.items) (known_of run.new.frame run.new.memory)) }
{
    let Call {
        to,
        function,
        arguments,
    } = call;
    let Some(callee) = function_at(run.functions, function) else {
        return Ok(Due::Wrong);
    };
    if callee.parameters as usize != arguments.len() {
        return Ok(Due::Wrong);
    }
    let begun = callee_frame(arguments, callee.temporaries, run.memory.blocks.len())?;
    let saved = mem::replace(&mut run.frame, begun);
    let is_deep = run.memory.owns.len() > DEEP;
    let caller = Waiting::new(alloc, to, function, saved, is_deep, &mut run.memory.spare)?;
    wait(&mut run.stack, Pending::Caller(caller))?;
    let own = blank_objects(alloc, &callee.own)?;
    run.memory.enter_call(own)?;
    Ok(Due::Go(Now::Follow(&callee.body)))
}

/// How a program begins: what is due, and the temporary objects of its `main`.
#[derive(Drop)]
pub struct Beginning<'p> {
    pub due: Due<'p>,
    pub own: &'p [Local],
}

/// The beginning of a program: the statements of `main` are next.
pub fn start<'p>(program: &'p Program) -> Beginning<'p>
    ensures { Stands program.entry.now.main (start_of (program_tree program.entry.now)) (next_of result.due) []
        (first_known program.entry.now.globals.items result.own.now) }
{
    let Some(main) = function_at(&program.functions, program.main) else {
        return Beginning {
            due: Due::Wrong,
            own: &[],
        };
    };
    if main.parameters != 0 {
        return Beginning {
            due: Due::Wrong,
            own: &[],
        };
    }
    Beginning {
        due: Due::Go(Now::Follow(&main.body)),
        own: &main.own,
    }
}
