// Comparisons of a register's word with a number.

ghost use Rattle.std.specs.Prelude.{◌≡◌, ◌++◌, ◌&&◌, nat_eq, option_map, OnOk};
ghost use Rattle.core_lines.specs.Held.{source_of, some_number, numbered_by, number_comparison_of, with_judged};
ghost use Rattle.core_lines.specs.Numbered.{has_room, short_on};
ghost use Rattle.core_lines.specs.Comparisons.{verdict_code};
ghost use Rattle.core_lines.specs.Operands.{number_code, numbered_code};
ghost use Rattle.cyc_core.specs.Trees.{binary_tree};
ghost use Rattle.rv32_select.specs.Immediates.{instruction_lines};
ghost use Rattle.rv32_select.specs.Known.{source_tree, keeper_tree};

use crate::comparing::put_verdict;
use crate::emit::{ADDRESS, is_short, lower, put_number};
use crate::held::{Known, Source};
use crate::immediates::{Instructions, put_instructions, turned};
use crate::keeper::Keeper;
use core_lines::{Comparison, Condition, Line, NumberComparison};
use cyc_core::{Binary, Temporary};
use rv32_isa::{Instr, Register, Signed12};
use std::alloc::AllocError;

/// The number other than 0 that a word is known to be.
#[tactic(auto, using(crate::proofs::Numbering::some_zero, crate::proofs::Numbering::some_more))]
fn some_number(source: Option<Source>) -> Option<u64>
    ensures { result ≡ some_number (option_map source_tree source) }
{
    match source {
        Some(source) => match source {
            Source::Number(word) => { if word == 0 { None } else { Some(word) } }
            Source::Register(_) => None,
            Source::Compared(_) => None,
            Source::ComparedWith(_) => None,
        },
        None => None,
    }
}

/// The comparison of two words, by the registers that have them and the numbers that they are, if a register has one of them and the other
/// is a number.
fn numbered_by(
    condition: Condition,
    left: Keeper,
    first: Option<u64>,
    right: Keeper,
    second: Option<u64>,
) -> Option<NumberComparison>
    ensures { result ≡ numbered_by condition (keeper_tree left) first (keeper_tree right) second }
{
    match left {
        Keeper::In(left) => match second {
            Some(number) => Some(NumberComparison {
                comparison: Comparison {
                    condition,
                    left,
                    right: ADDRESS,
                },
                number,
            }),
            None => None,
        },
        Keeper::Nowhere => match first {
            Some(number) => match right {
                Keeper::In(right) => Some(NumberComparison {
                    comparison: Comparison {
                        condition,
                        left: ADDRESS,
                        right,
                    },
                    number,
                }),
                Keeper::Nowhere => None,
            },
            None => None,
        },
    }
}

impl Known {
    /// The comparison that an operation on two temporaries is, if a register has one's word and the other's is a number that isn't 0.
    pub fn number_comparison(
        &self,
        operation: Binary,
        left: Temporary,
        right: Temporary,
    ) -> Option<NumberComparison>
        ensures { result ≡ number_comparison_of (binary_tree operation) (source_of self.now left.0) (source_of self.now right.0) }
    {
        let (left_in, right_in) = (self.keeper(left), self.keeper(right));
        let first = some_number(self.source(left));
        let second = some_number(self.source(right));
        match operation {
            Binary::Equal => numbered_by(Condition::Equal, left_in, first, right_in, second),
            Binary::NotEqual => numbered_by(Condition::NotEqual, left_in, first, right_in, second),
            Binary::Less => numbered_by(Condition::Less, left_in, first, right_in, second),
            Binary::LessEqual => numbered_by(Condition::NotLess, right_in, second, left_in, first),
            Binary::LessUnsigned => numbered_by(
                Condition::LessUnsigned,
                left_in,
                first,
                right_in,
                second,
            ),
            Binary::LessEqualUnsigned => numbered_by(
                Condition::NotLessUnsigned,
                right_in,
                second,
                left_in,
                first,
            ),
            _ => None,
        }
    }

    /// A temporary gets what an operation on two gives, which may be a comparison with a number, or one of two registers.
    pub fn hold_judged(
        &mut self,
        temporary: Temporary,
        numbered: Option<NumberComparison>,
        comparison: Option<Comparison>,
    ) -> Result<(), AllocError>
        ensures { OnOk result (self.new ≡ with_judged temporary.0 numbered comparison self.old) }
    {
        match numbered {
            Some(numbered) => self.hold(temporary, Source::ComparedWith(numbered)),
            None => self.hold_computed(temporary, comparison),
        }
    }
}

/// Whether an instruction has room for the number of a comparison, on the right side.
fn has_room(comparison: Comparison, number: u64) -> bool
    ensures { result ≡ (nat_eq comparison.right 7 && has_room comparison.condition number) }
{
    if comparison.right.number() != ADDRESS.number() {
        return false;
    }
    match comparison.condition {
        Condition::Equal | Condition::NotEqual => is_short(turned(number)),
        _ => is_short(number),
    }
}

/// The instructions that tell whether a comparison of a register's word with such a number holds.
fn short_verdict(condition: Condition, to: Register, left: Register, number: u64) -> Instructions
    ensures { instruction_lines result ≡ short_on condition to left number }
{
    let (none, one) = (Register::ZERO, Signed12::new(1));
    let (low, inverted) = (lower(number), Instr::Xori(to, to, one));
    let difference = Instr::Addi(to, left, lower(turned(number)));
    match condition {
        Condition::Equal => Instructions::Two(difference, Instr::Sltiu(to, to, one)),
        Condition::NotEqual => Instructions::Two(difference, Instr::Sltu(to, none, to)),
        Condition::Less => Instructions::One(Instr::Slti(to, left, low)),
        Condition::NotLess => Instructions::Two(Instr::Slti(to, left, low), inverted),
        Condition::LessUnsigned => Instructions::One(Instr::Sltiu(to, left, low)),
        Condition::NotLessUnsigned => Instructions::Two(Instr::Sltiu(to, left, low), inverted),
    }
}

/// Appends the instructions that tell whether a comparison with such a number holds.
fn put_short(
    lines: &mut Vec<Line>,
    to: Register,
    comparison: Comparison,
    number: u64,
) -> Result<(), AllocError>
    ensures { OnOk result (lines.new.items ≡ lines.old.items ++ short_on comparison.condition to comparison.left number) }
{
    let instructions = short_verdict(comparison.condition, to, comparison.left, number);
    put_instructions(lines, instructions)
}

/// Appends what puts a number into x7, and what tells whether a comparison holds then.
fn put_long(
    lines: &mut Vec<Line>,
    to: Register,
    comparison: Comparison,
    number: u64,
) -> Result<(), AllocError>
    ensures { OnOk result (lines.new.items ≡ lines.old.items ++ number_code 7 number ++ verdict_code to comparison) }
{
    put_number(lines, ADDRESS, number)?;
    put_verdict(lines, to, comparison)
}

/// Appends what puts 1 into a register where a comparison with a number holds, and else 0.
pub fn put_numbered(
    lines: &mut Vec<Line>,
    to: Register,
    numbered: NumberComparison,
) -> Result<(), AllocError>
    ensures { OnOk result (lines.new.items ≡ lines.old.items ++ numbered_code to numbered) }
{
    if has_room(numbered.comparison, numbered.number) {
        put_short(lines, to, numbered.comparison, numbered.number)
    } else {
        put_long(lines, to, numbered.comparison, numbered.number)
    }
}
