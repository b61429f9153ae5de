// How many bytes the frames of a program's functions take.

ghost use Rattle.std.specs.Prelude.{◌≡◌, IfOk, map};
ghost use Rattle.core_lines.specs.Selected.{frame_bytes};
ghost use Rattle.cyc_core.specs.Trees.{function_tree, program_tree};

use crate::function::frame_bytes;
use crate::place::Place;
use cyc_core::{Function, Program};
use std::alloc::{AllocError, Global};

/// The bytes of a function's frame. The place goes on to the function's start.
fn frame_of(place: &mut Place, function: &Function) -> Result<u64, AllocError>
    ensures { IfOk result (λ bytes. bytes ≡ frame_bytes (function_tree function.now)) }
{
    place.begin(function, 0)?;
    frame_bytes(place, &function.body)
}

/// Those of several functions.
fn frames_of(alloc: Global, functions: &[Function]) -> Result<Vec<u64>, AllocError>
    ensures { IfOk result (λ frames. frames.items ≡ map frame_bytes (map function_tree functions.now)) }
{
    let mut place = Place::new(alloc, Vec::new(alloc));
    let mut frames = Vec::new(alloc);
    'each: for function in functions {
        frames.push(frame_of(&mut place, function)?)?;
    }
    Ok(frames)
}

/// How many bytes the frame of each function takes in the lines of `select`, in the order of the functions. Fails only where no host memory is left.
pub fn frames(alloc: Global, program: &Program) -> Result<Vec<u64>, AllocError>
    ensures { IfOk result (λ frames. frames.items ≡ map frame_bytes (program_tree program.now).functions) }
{
    frames_of(alloc, &program.functions)
}
