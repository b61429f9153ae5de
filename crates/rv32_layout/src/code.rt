// Placed code.

ghost use Rattle.std.specs.Prelude.{◌≡◌, ◌<◌, ◌≤◌, Err, IfOk, vec_len};
ghost use Rattle.cyc_image.specs.Format.{code_limit};
ghost use Rattle.core_lines.specs.Lines.{code_length, labels_placed, AreOnce};
ghost use Rattle.core_lines.specs.Relaxed.{shortened, wide_in};
ghost use Rattle.rv32_layout.specs.Placed.{AreInstructions, ArePlaced};
ghost use Rattle.rv32_layout.specs.Holding.{IsCodeOf};

use crate::fault::LayoutFault;
use crate::relaxed::relax;
use crate::words::words;
use rv32_select::Labelled;
use std::alloc::Global;

/// The code's bytes. It begins at the first.
#[derive(Drop)]
pub struct Code {
    pub bytes: Vec<u8>,
}

/// The code of the lines, each behind those before it, with each jump and call going to where its label stands: at the
/// first line that places it, or behind all lines where none does. A conditional jump is a branch of one word where it reaches its label,
/// from 4,096 bytes before it to 4,094 behind it, and else a branch over a jump: first all are of one word, then those that don't reach
/// become two, round for round, until all reach. An `Err` is `TooLarge` only where the code so placed would be over 1,048,576 bytes, and
/// else `Memory`.
pub fn place(alloc: Global, labelled: &Labelled) -> Result<Code, LayoutFault>
    // the bytes are the words of the lines with short branches, and no others are
    ensures placed { IfOk result (λ code. ArePlaced (shortened (wide_in labelled.now.lines) labelled.now.lines) code.bytes.items) }
    ensures words { IfOk result (λ code. AreInstructions code.bytes.items) }
    // no more bytes than those of the lines with short branches, and so than their words, where a conditional jump counts as two; none only where these are
    // none
    ensures short { IfOk result (λ code. vec_len code.bytes ≤ code_length (shortened (wide_in labelled.now.lines) labelled.now.lines)) }
    ensures length { IfOk result (λ code. vec_len code.bytes ≤ code_length labelled.now.lines) }
    ensures some { IfOk result (λ code. 0 < code_length labelled.now.lines → 0 < vec_len code.bytes) }
    ensures within { IfOk result (λ code. vec_len code.bytes ≤ code_limit) }
    // each machine with the code has the lines, where no label is placed twice, so what it does is what the lines do
    ensures has { IfOk result (λ code. AreOnce (labels_placed labelled.now.lines) → IsCodeOf labelled.now.lines code.bytes.items) }
    // the lines are over the limit, with short branches, and so are their words
    ensures too_large { result ≡ Err LayoutFault.TooLarge → code_limit < code_length (shortened (wide_in labelled.now.lines) labelled.now.lines) }
{
    let relaxed = relax(alloc, labelled)?;
    let bytes = words(alloc, relaxed.lines.as_slice(), &relaxed.places)?;
    Ok(Code { bytes })
}
