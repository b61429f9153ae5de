// How far a conditional jump reaches as one word.

use core_lines::{Comparison, Condition, Line};
use rv32_isa::{Instr, Register, Signed12};
use rv32_layout::place;
use rv32_select::Labelled;
use std::alloc::{AllocError, Global};
use std::test::Fail;

/// An instruction that does nothing.
fn nothing() -> Instr {
    Instr::Addi(Register::ZERO, Register::ZERO, Signed12::new(0))
}

/// Adds an instruction.
fn put(lines: &mut Vec<Line>, instruction: Instr) -> Result<(), AllocError> {
    lines.push(Line::Plain(instruction))?;
    Ok(())
}

/// Adds a jump to the label 0, made unless a register isn't 0, or that label, and an instruction behind it.
fn put_end(lines: &mut Vec<Line>, is_jump: bool, behind: Instr) -> Result<(), AllocError> {
    if is_jump {
        let comparison = Comparison {
            condition: Condition::NotEqual,
            left: Register::TEMPORARY_0,
            right: Register::ZERO,
        };
        lines.push(Line::JumpUnless(comparison, 0))?;
    } else {
        lines.push(Line::Label(0))?;
    }
    put(lines, behind)
}

/// Adds `count` instructions.
fn fill(lines: &mut Vec<Line>, count: u16) -> Result<(), AllocError> {
    for _ in 0..count {
        put(lines, nothing())?;
    }
    Ok(())
}

/// Adds a jump and its label, which is ahead or behind, with some instructions and these between them.
fn put_both(lines: &mut Vec<Line>, is_ahead: bool, between: u16) -> Result<(), AllocError> {
    put_end(lines, is_ahead, nothing())?;
    fill(lines, between)?;
    put_end(lines, !is_ahead, nothing())
}

/// How many words these lines are as they are placed.
fn placed(alloc: Global, lines: Vec<Line>, _sample: Instr) -> Result<usize, Fail> {
    let labelled = Labelled::new(lines).ok_or("no code")?;
    let code = place(alloc, &labelled).ok().ok_or("not placed")?;
    Ok(code.bytes.len() / 4)
}

/// How many words a jump and its label are with one instruction between them, these, and one behind them.
fn words(alloc: Global, is_ahead: bool, between: u16, sample: Instr) -> Result<usize, Fail> {
    let mut lines = Vec::new(alloc);
    put_both(&mut lines, is_ahead, between)?;
    placed(alloc, lines, sample)
}

/// Refuses other words than these.
fn expect(words: usize, wanted: usize) -> Result<(), Fail> {
    if words == wanted {
        Ok(())
    } else {
        Err(Fail::new("of other words"))
    }
}

// whether the label is ahead, how many instructions are between, and how many words all are then: those that reach furthest, and one more
const REACHES: [(bool, u16, usize); 4] = [
    (true, 1_021, 1_023 + 1),
    (true, 1_022, 1_024 + 2),
    (false, 1_023, 1_025 + 1),
    (false, 1_024, 1_026 + 2),
];

#[test]
fn a_jump_that_reaches_is_one_word(rt: HostRuntime) -> Result<(), Fail> {
    for (is_ahead, between, wanted) in REACHES.iter() {
        expect(words(rt.alloc(), *is_ahead, *between, nothing())?, *wanted)?;
    }
    Ok(())
}
