// Calls of functions, after their arguments.

ghost use Rattle.std.specs.Prelude.{◌≡◌, ◌+◌, ◌∷◌, [], IfOk, Some, map};
ghost use Rattle.cyc_tree.specs.View.{function_tree, member_tree};
ghost use Rattle.cyc_core.specs.Trees.{temporary_tree, statement_tree};
ghost use Rattle.source_meaning.specs.Shapes.{IntShape, part_of, part_shapes};
ghost use Rattle.source_meaning.specs.Programs.{routine_of, world_of};
ghost use Rattle.source_lowering.specs.Lowered.{call_parameters, from_on, call_code};
ghost use Rattle.source_lowering.specs.Pieces.{function_call};
ghost use Rattle.lower_checks.specs.Room.{HasRoom};
ghost use Rattle.lower_checks.specs.Views.{shape_tree};
ghost use Rattle.lower_checks.specs.Writing.{Emits};

use crate::body::Body;
use crate::names::behind;
use crate::shape::Shape;
use crate::table::{Callee, Table};
use crate::vectors::append;
use cyc_core::{Call, Operation, Origin, Statement, Temporary};
use cyc_tree::Member;
use std::alloc::{AllocError, Global};

/// The shapes of parameters, in order.
fn part_shapes<'p>(alloc: Global, parameters: &'p [Member]) -> Result<Vec<Shape<'p>>, AllocError>
    ensures shapes { IfOk result (λ shapes. map shape_tree shapes.items ≡ part_shapes (map part_of (map member_tree parameters.entry.now))) }
{
    let mut shapes = Vec::new(alloc);
    'each: for parameter in parameters {
        append(&mut shapes, Shape::of(&parameter.of))?;
    }
    Ok(shapes)
}

/// The shapes of what `putchar` takes.
fn int_alone<'p>(alloc: Global) -> Result<Vec<Shape<'p>>, AllocError>
    ensures shapes { IfOk result (λ shapes. map shape_tree shapes.items ≡ IntShape ∷ []) }
{
    let mut shapes = Vec::new(alloc);
    append(&mut shapes, Shape::Int)?;
    Ok(shapes)
}

/// The shapes of what a function of a name takes; none where there is no such function.
pub fn call_parameters<'p>(
    alloc: Global,
    program: &Table<'p>,
    name: &[u8],
) -> Result<Vec<Shape<'p>>, AllocError>
    ensures shapes { IfOk result (λ shapes. map shape_tree shapes.items ≡ call_parameters (world_of program.now) name.now) }
{
    if name == b"getchar".as_slice() {
        return Ok(Vec::new(alloc));
    }
    if name == b"putchar".as_slice() {
        return int_alone(alloc);
    }
    match program.function_named(name) {
        Some(callee) => part_shapes(alloc, &callee.function.parameters),
        None => Ok(Vec::new(alloc)),
    }
}

/// So many temporaries, from one on.
fn passed_from(alloc: Global, count: u32, first: Temporary) -> Result<Vec<Temporary>, AllocError>
    requires room { HasRoom first.0 count }
    ensures passed { IfOk result (λ passed. map temporary_tree passed.items ≡ from_on first.0 count) }
{
    let mut passed = Vec::new(alloc);
    let mut next = first;
    'each: for _ in 0..count {
        if let Err(_) = passed.push(next) {
            return Err(AllocError);
        }
        next = behind(next, 1);
    }
    Ok(passed)
}

/// The call of a function, to which this number of words is passed, from this temporary on.
fn passing(
    alloc: Global,
    callee: Callee<'_>,
    words: u32,
    to: Temporary,
    at: Origin,
) -> Result<Statement, AllocError>
    requires room { HasRoom to.0 (words + 2) }
    ensures call { IfOk result
        (λ call. statement_tree call ∷ [] ≡ function_call (Some (routine_of (function_tree callee.entry.function.now))) callee.entry.number words to.0) }
{
    let result = Shape::of(&callee.function.result).result_in(to);
    let arguments = passed_from(alloc, words, to)?;
    let call = Call {
        result,
        function: callee.number,
        arguments,
        origin: at,
    };
    Ok(Statement::Call(Box::new(alloc, call)?))
}

/// Appends the call of a function that is found, to which this number of words is passed, from this temporary on.
fn lower_callee(body: &mut Body<'_>, callee: Callee<'_>, words: u32, to: Temporary, at: Origin)
    requires room { HasRoom to.0 (words + 2) }
    ensures { Emits body.old body.new (function_call (Some (routine_of (function_tree callee.entry.function.now))) callee.entry.number words to.0) }
{
    match passing(body.alloc, callee, words, to, at) {
        Ok(call) => body.emit(call),
        Err(_) => body.fail(),
    }
}

/// Appends the call of a function, to which this number of words is passed, from this temporary on.
pub fn lower_call(
    program: &Table<'_>,
    body: &mut Body<'_>,
    name: &[u8],
    words: u32,
    to: Temporary,
    at: Origin,
)
    requires room { HasRoom to.0 (words + 2) }
    ensures { Emits body.old body.new (call_code (world_of program.now) name.now words to.0) }
{
    if name == b"getchar".as_slice() {
        body.operation(Operation::Getchar(to));
    } else if name == b"putchar".as_slice() {
        body.operation(Operation::Putchar(to, to));
    } else if let Some(callee) = program.function_named(name) {
        lower_callee(body, callee, words, to, at);
    }
}
