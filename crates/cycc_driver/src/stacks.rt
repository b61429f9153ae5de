// The stack that the calls of a text need.

ghost use Rattle.std.specs.Prelude.{◌≡◌, IfOk, IfErr, map};
ghost use Rattle.core_lines.specs.LocalPlaces.{frame_bytes};
ghost use Rattle.source_lowering.specs.Programs.{program_code};
ghost use Rattle.cycc_driver.specs.Refusals.{IsRefusedFor};
ghost use Rattle.cycc_driver.specs.Stack.{IsStackOf, IsTextStack};

use crate::compiling::front;
use crate::fault::{CompileFault, Place};
use accepted_programs::Checked;
use cyc_tree::Item;
use lower_checks::lower;
use rv32_select::frames;
use stack_needs::{Recursion, StackNeeds, call_site, function_names, recursion_of, stack_needs};
use std::alloc::{AllocError, Global};

/// How much stack a program's functions need, and which recursion is reached, if one is. Functions have numbers in the order of the text, from 0 on.
#[derive(Drop)]
pub struct StackUse {
    /// The names of the functions.
    pub names: Vec<Vec<u8>>,
    /// The bytes of the frame of each.
    pub frames: Vec<u64>,
    /// What each needs with all that it calls, and `main` among them.
    pub needs: StackNeeds,
    /// The recursion that is reached from `main`.
    pub recursion: Option<Recursion>,
    /// Where the last function of that recursion calls one that is on its path.
    pub closes: Option<Place>,
}

/// The bytes of the frames that the code of a checked program has.
fn frames_of(alloc: Global, checked: &Checked) -> Result<Vec<u64>, AllocError>
    ensures { IfOk result (λ frames. frames.items ≡ map frame_bytes (program_code checked.now).functions) }
{
    match lower(alloc, checked) {
        Ok(core) => frames(alloc, &core),
        Err(_) => Err(AllocError),
    }
}

/// Where a recursion is closed, if there is one.
fn closing(
    alloc: Global,
    text: &[u8],
    items: &[Item],
    recursion: Option<&Recursion>,
) -> Result<Option<Place>, AllocError> {
    let Some(found) = recursion else {
        return Ok(None);
    };
    let Some(last) = found.path.last() else {
        return Ok(None);
    };
    match call_site(alloc, items, *last, found.again)? {
        Some(offset) => Ok(Some(Place::at(text, offset))),
        None => Ok(None),
    }
}

/// What a checked program's functions need.
fn stack_of(alloc: Global, text: &[u8], checked: &Checked) -> Result<StackUse, AllocError>
    ensures { IfOk result (λ stack. IsStackOf checked.now stack) }
{
    let frames = frames_of(alloc, checked)?;
    let items = checked.program().items();
    let names = function_names(alloc, items)?;
    let needs = stack_needs(alloc, items, &frames)?;
    let recursion = recursion_of(alloc, items)?;
    let closes = closing(alloc, text, items, recursion.as_ref())?;
    Ok(StackUse {
        names,
        frames,
        needs,
        recursion,
        closes,
    })
}

/// How much stack the calls of an accepted text need, whatever its input.
///
/// A call counts where the text has it, whether or not it is ever made, with the frames that the code of `compile` has. Where a recursion is reached from
/// `main`, there is no such number, and one is named. Refuses what `check` refuses, with the same fault, and with `Memory` where no host memory is left.
pub fn stack(alloc: Global, text: &[u8]) -> Result<StackUse, CompileFault>
    // `main` fits the bytes and no fewer, or none: then a recursion is reached
    ensures needs { IfOk result (IsTextStack text.now) }
    // the fault is that of `check`
    ensures refused { IfErr result (λ fault. IsRefusedFor fault text.now) }
{
    let checked = match front(alloc, text) {
        Ok(checked) => checked,
        Err(fault) => return Err(fault),
    };
    Ok(stack_of(alloc, text, &checked)?)
}
