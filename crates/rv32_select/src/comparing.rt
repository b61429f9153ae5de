// Instructions that make a word of a comparison.

ghost use Rattle.std.specs.Prelude.{◌≡◌, ◌++◌, OnOk};
ghost use Rattle.core_lines.specs.Comparisons.{verdict_code, verdict_on};
ghost use Rattle.core_lines.specs.declared.comparison.Condition.TheVariants.{Equal, NotEqual};
ghost use Rattle.core_lines.specs.Operands.{is_some};
ghost use Rattle.rv32_select.specs.Immediates.{instruction_lines};

use crate::immediates::{Instructions, put_instructions};
use core_lines::{Comparison, Condition, Line};
use rv32_isa::{Instr, Register, Signed12};
use std::alloc::AllocError;

/// The comparison that holds where a register's word isn't 0.
pub fn is_some(register: Register) -> Comparison
    ensures { result ≡ is_some register }
{
    Comparison {
        condition: Condition::NotEqual,
        left: register,
        right: Register::ZERO,
    }
}

/// The instructions that tell whether two registers have the same word.
#[tactic(auto, using(crate::proofs::Verdicts::equal_none, crate::proofs::Verdicts::equal_some))]
fn equal(to: Register, left: Register, right: Register) -> Instructions
    ensures { instruction_lines result ≡ verdict_on Equal to left right }
{
    let one = Signed12::new(1);
    if right.number() == 0 {
        Instructions::One(Instr::Sltiu(to, left, one))
    } else {
        Instructions::Two(Instr::Sub(to, left, right), Instr::Sltiu(to, to, one))
    }
}

/// The instructions that tell whether the words of two registers differ.
#[tactic(auto, using(crate::proofs::Verdicts::differs_none, crate::proofs::Verdicts::differs_some))]
fn differs(to: Register, left: Register, right: Register) -> Instructions
    ensures { instruction_lines result ≡ verdict_on NotEqual to left right }
{
    let none = Register::ZERO;
    if right.number() == 0 {
        Instructions::One(Instr::Sltu(to, none, left))
    } else {
        Instructions::Two(Instr::Sub(to, left, right), Instr::Sltu(to, none, to))
    }
}

/// The instructions that put 1 into a register where a comparison holds, and else 0.
fn verdict(to: Register, comparison: Comparison) -> Instructions
    ensures { instruction_lines result ≡ verdict_code to comparison }
{
    let (left, right) = (comparison.left, comparison.right);
    let inverted = Instr::Xori(to, to, Signed12::new(1));
    match comparison.condition {
        Condition::Equal => equal(to, left, right),
        Condition::NotEqual => differs(to, left, right),
        Condition::Less => Instructions::One(Instr::Slt(to, left, right)),
        Condition::NotLess => Instructions::Two(Instr::Slt(to, left, right), inverted),
        Condition::LessUnsigned => Instructions::One(Instr::Sltu(to, left, right)),
        Condition::NotLessUnsigned => Instructions::Two(Instr::Sltu(to, left, right), inverted),
    }
}

/// Appends what puts 1 into a register where a comparison holds, and else 0.
pub fn put_verdict(
    lines: &mut Vec<Line>,
    to: Register,
    comparison: Comparison,
) -> Result<(), AllocError>
    ensures { OnOk result (lines.new.items ≡ lines.old.items ++ verdict_code to comparison) }
{
    put_instructions(lines, verdict(to, comparison))
}
