// Which conditional jumps are branches alone.

ghost use Rattle.std.specs.Prelude.{◌≡◌, ◌<◌, ◌≤◌, ◌↔◌, Err, IfOk, IsTrue, false};
ghost use Rattle.cyc_image.specs.Format.{code_limit};
ghost use Rattle.core_lines.specs.Lines.{code_length};
ghost use Rattle.core_lines.specs.declared.line.Line.TheVariants.{BranchUnless};
ghost use Rattle.core_lines.specs.Relaxed.{shorten, shortened, is_in_reach, none_wide, wide_in};
ghost use Rattle.rv32_layout.specs.Placing.{place_in, reaches, all_reach, lengthen, lengthened, ArePlaceable};

use crate::fault::LayoutFault;
use crate::length::{length, size};
use crate::places::{Places, find_places};
use core_lines::{Comparison, Line};
use cyc_image::CODE_LIMIT;
use rv32_select::Labelled;
use std::alloc::{AllocError, Global};

/// How far behind a branch its label may stand, in bytes.
const BEHIND: u64 = 4096;

/// How far ahead of a branch its label may stand, in bytes.
const AHEAD: u64 = 4094;

/// Lines as they are placed, and where their labels then stand.
#[derive(Drop)]
pub(crate) struct Relaxed {
    pub(crate) lines: Vec<Line>,
    pub(crate) places: Places,
}

/// Whether a branch at an address reaches a place.
fn is_in_reach(place: u32, at: u32) -> bool
    ensures { result ≡ is_in_reach place at }
{
    u64::from(at) <= u64::from(place) + BEHIND && u64::from(place) <= u64::from(at) + AHEAD
}

/// A conditional jump as a branch alone, and each other line as it is.
fn shorten(line: Line) -> Line
    ensures { result ≡ shorten false line }
{
    match line {
        Line::JumpUnless(comparison, label) => Line::BranchUnless(comparison, label),
        Line::Plain(_)
        | Line::Label(_)
        | Line::Jump(_)
        | Line::BranchUnless(_, _)
        | Line::CallTo(_) => line,
    }
}

/// The lines, all of whose conditional jumps are branches alone.
fn shortest(alloc: Global, lines: &[Line]) -> Result<Vec<Line>, AllocError>
    ensures { IfOk result (λ short. short.items ≡ shortened (none_wide lines.now) lines.now) }
{
    let mut short = Vec::new(alloc);
    'each: for line in lines {
        short.push(shorten(*line))?;
    }
    Ok(short)
}

/// Whether the code is over the limit even where all conditional jumps are branches alone.
fn is_too_large(lines: &[Line]) -> bool
    ensures { IsTrue result ↔ (code_limit < code_length (shortened (none_wide lines.now) lines.now)) }
{
    let mut length = 0;
    'each: for line in lines {
        length += size(shorten(*line));
        if length as usize > CODE_LIMIT {
            return true;
        }
    }
    false
}

/// Whether a line's branch reaches its label, where the line is a branch alone.
fn reaches(line: Line, places: &Places, at: u32) -> bool
    ensures { result ≡ reaches (place_in places.now) at line }
{
    match line {
        Line::BranchUnless(_, label) => is_in_reach(places.of(label), at),
        Line::Plain(_)
        | Line::Label(_)
        | Line::Jump(_)
        | Line::JumpUnless(_, _)
        | Line::CallTo(_) => true,
    }
}

/// A branch alone as a round leaves it: it stays one where it reaches its label.
fn branch_or_jump(comparison: Comparison, label: usize, places: &Places, at: u32) -> Line
    ensures { result ≡ lengthen (place_in places.now) at (BranchUnless comparison label) }
{
    if is_in_reach(places.of(label), at) {
        Line::BranchUnless(comparison, label)
    } else {
        Line::JumpUnless(comparison, label)
    }
}

/// A line as a round leaves it: a branch alone that doesn't reach its label becomes a branch over a jump.
fn lengthen(line: Line, places: &Places, at: u32) -> Line
    ensures { result ≡ lengthen (place_in places.now) at line }
{
    match line {
        Line::BranchUnless(comparison, label) => branch_or_jump(comparison, label, places, at),
        Line::Plain(_)
        | Line::Label(_)
        | Line::Jump(_)
        | Line::JumpUnless(_, _)
        | Line::CallTo(_) => line,
    }
}

/// Whether each branch alone reaches its label.
fn all_reach(lines: &[Line], places: &Places) -> bool
    requires { code_length lines.now ≤ code_limit }
    ensures { result ≡ all_reach (place_in places.now) 0 lines.now }
{
    let mut at = 0;
    'each: for line in lines {
        if !reaches(*line, places, at) {
            return false;
        }
        at += size(*line);
    }
    true
}

/// One round: the branches alone that don't reach their labels, where all stand now, become branches over jumps.
fn lengthened(alloc: Global, lines: &[Line], places: &Places) -> Result<Vec<Line>, AllocError>
    requires { code_length lines.now ≤ code_limit }
    ensures { IfOk result (λ long. long.items ≡ lengthened (place_in places.now) 0 lines.now) }
{
    let mut long = Vec::new(alloc);
    let mut at = 0;
    'each: for line in lines {
        long.push(lengthen(*line, places, at))?;
        at += size(*line);
    }
    Ok(long)
}

/// The lines as they are placed: each conditional jump is a branch alone, where it reaches its label. An `Err` is `TooLarge` only where their
/// code would be over the limit. Lines that are too large with the shortest of branches aren't copied.
pub(crate) fn relax(alloc: Global, labelled: &Labelled) -> Result<Relaxed, LayoutFault>
    ensures lines { IfOk result (λ relaxed. relaxed.lines.items ≡ shortened (wide_in labelled.now.lines) labelled.now.lines) }
    ensures placeable { IfOk result (λ relaxed. ArePlaceable relaxed.lines.items relaxed.places) }
    ensures too_large { result ≡ Err LayoutFault.TooLarge → code_limit < code_length (shortened (wide_in labelled.now.lines) labelled.now.lines) }
{
    let all = labelled.lines();
    if is_too_large(all) {
        return Err(LayoutFault::TooLarge);
    }
    let mut lines = shortest(alloc, all)?;
    'rounds: loop {
        if length(lines.as_slice()).is_none() {
            return Err(LayoutFault::TooLarge);
        }
        let places = find_places(alloc, lines.as_slice())?;
        if all_reach(lines.as_slice(), &places) {
            return Ok(Relaxed { lines, places });
        }
        lines = lengthened(alloc, lines.as_slice(), &places)?;
    }
}
