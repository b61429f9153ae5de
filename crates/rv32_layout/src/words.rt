// The words of lines.

ghost use Rattle.std.specs.Prelude.{◌≡◌, ◌+◌, ◌∷◌, [], pos, vec_len, OnOk, IfOk};
ghost use Rattle.rv32_isa.specs.declared.instruction.Instr.TheVariants.{Jal};
ghost use Rattle.core_lines.specs.Comparisons.{inverse, branch_if};
ghost use Rattle.cyc_image.specs.Format.{u32_bytes};
ghost use Rattle.core_lines.specs.Lines.{code_length, offset_to, instructions_of};
ghost use Rattle.rv32_layout.specs.Placed.{ArePlaced};
ghost use Rattle.rv32_layout.specs.Placing.{place_in, IsInReach, IsInBranch, Reaches, ArePlaceable, Appends};

use crate::places::Places;
use byteorder::{ByteOrder, LittleEndian};
use core_lines::{Comparison, Line};
use rv32_isa::{BranchOffset, Instr, JumpOffset, Register, encode};
use std::alloc::{AllocError, Global};

/// The bytes of a word, the lowest first.
pub(crate) fn word_bytes(word: u32) -> [u8; 4]
    ensures { result ≡ u32_bytes word }
{
    let mut four = [0; 4];
    LittleEndian::write_u32(&mut four, word);
    four
}

/// Appends an instruction's word.
fn put_word(bytes: &mut Vec<u8>, instr: Instr) -> Result<(), AllocError>
    ensures { OnOk result (Appends (instr ∷ []) bytes.old.items bytes.new.items) }
{
    bytes.extend_from_slice(&word_bytes(encode(instr)))?;
    Ok(())
}

/// Appends a jump to a place, which keeps the address behind it in the register. The bytes begin at the address 0.
fn put_jump(bytes: &mut Vec<u8>, link: Register, place: u32) -> Result<(), AllocError>
    requires { IsInReach place (vec_len bytes.old) }
    ensures { OnOk result (Appends (Jal link (offset_to place (vec_len bytes.old)) ∷ []) bytes.old.items bytes.new.items) }
{
    let offset = JumpOffset::new(place as i32 - bytes.len() as i32);
    put_word(bytes, Instr::Jal(link, offset))?;
    Ok(())
}

/// Appends a jump to a place that is made unless a comparison holds: a branch over a jump.
#[tactic(auto, using(crate::proofs::Appending::branch_and_jump))]
fn put_jump_unless(
    bytes: &mut Vec<u8>,
    comparison: Comparison,
    place: u32,
) -> Result<(), AllocError>
    requires { IsInReach place (vec_len bytes.old + 4) }
    ensures { OnOk result (Appends (branch_if comparison (pos 8) ∷ Jal 0 (offset_to place (vec_len bytes.old + 4)) ∷ []) bytes.old.items bytes.new.items) }
{
    let over_the_jump = BranchOffset::new(8);
    put_word(bytes, comparison.branch(over_the_jump))?;
    put_jump(bytes, Register::ZERO, place)?;
    Ok(())
}

/// Appends a branch to a place that is made unless a comparison holds.
fn put_branch_unless(
    bytes: &mut Vec<u8>,
    comparison: Comparison,
    place: u32,
) -> Result<(), AllocError>
    requires { IsInBranch place (vec_len bytes.old) }
    ensures { OnOk result (Appends (branch_if (inverse comparison) (offset_to place (vec_len bytes.old)) ∷ []) bytes.old.items bytes.new.items) }
{
    let offset = BranchOffset::new(place as i32 - bytes.len() as i32);
    put_word(bytes, comparison.inverse().branch(offset))?;
    Ok(())
}

/// Appends the words of a line.
fn put_line(bytes: &mut Vec<u8>, line: Line, places: &Places) -> Result<(), AllocError>
    requires { Reaches (place_in places.now) (vec_len bytes.old) line }
    ensures { OnOk result (Appends (instructions_of (place_in places.now) (vec_len bytes.old) line) bytes.old.items bytes.new.items) }
{
    match line {
        Line::Plain(instr) => put_word(bytes, instr)?,
        Line::Label(_) => {}
        Line::Jump(label) => put_jump(bytes, Register::ZERO, places.of(label))?,
        Line::JumpUnless(comparison, label) => {
            put_jump_unless(bytes, comparison, places.of(label))?;
        }
        Line::BranchUnless(comparison, label) => {
            put_branch_unless(bytes, comparison, places.of(label))?;
        }
        Line::CallTo(label) => put_jump(bytes, Register::RETURN_ADDRESS, places.of(label))?,
    }
    Ok(())
}

/// The bytes of all lines, whose labels stand at these places.
pub(crate) fn words(alloc: Global, lines: &[Line], places: &Places) -> Result<Vec<u8>, AllocError>
    requires { ArePlaceable lines.now places.now }
    ensures placed { IfOk result (λ bytes. ArePlaced lines.now bytes.items) }
    ensures length { IfOk result (λ bytes. vec_len bytes ≡ code_length lines.now) }
{
    let mut bytes = Vec::new(alloc);
    'each: for line in lines {
        put_line(&mut bytes, *line, places)?;
    }
    Ok(bytes)
}
