// Operations whose second word is a number that an instruction has room for.

ghost use Rattle.std.specs.Prelude.{◌≡◌, ◌<◌, ◌^◌, ◌++◌, true, [], ◌∷◌, option_map, OnOk};
ghost use Rattle.core_lines.specs.declared.line.Line.TheVariants.{Plain};
ghost use Rattle.core_lines.specs.Selected.{short_code, turned, difference_code, immediate_code};
ghost use Rattle.core_meaning.specs.Core.{Equal, NotEqual};
ghost use Rattle.cyc_core.specs.Trees.{binary_tree};
ghost use Rattle.rv32_isa.specs.declared.instruction.Instr.TheVariants as instr;
ghost use Rattle.rv32_select.specs.Immediates.{instruction_lines, is_shift};

use crate::emit::{is_short, lower, put, put_two};
use core_lines::Line;
use cyc_core::Binary;
use rv32_isa::{Instr, Register, ShiftAmount, Signed12};
use std::alloc::AllocError;

/// One instruction or two.
#[derive(Clone, Copy)]
pub enum Instructions {
    /// One instruction.
    One(Instr),
    /// Two, one after the other.
    Two(Instr, Instr),
}

/// Appends one instruction or two.
pub fn put_instructions(lines: &mut Vec<Line>, instructions: Instructions) -> Result<(), AllocError>
    ensures { OnOk result (lines.new.items ≡ lines.old.items ++ instruction_lines instructions) }
{
    match instructions {
        Instructions::One(first) => put(lines, first),
        Instructions::Two(first, second) => put_two(lines, first, second),
    }
}

/// Instructions, where a number is short.
fn if_short(number: u64, instructions: Instructions) -> Option<Instructions>
    ensures { option_map instruction_lines result ≡ short_code number (instruction_lines instructions) }
{
    if is_short(number) {
        Some(instructions)
    } else {
        None
    }
}

/// A number with its sign turned, as a word.
pub fn turned(number: u64) -> u64
    ensures { result ≡ turned number }
{
    0x1_0000_0000_u64.saturating_sub(number) % 0x1_0000_0000
}

/// The difference of a register and a number, into another one.
fn difference(to: Register, left: Register, number: u64) -> Option<Instructions>
    ensures { option_map instruction_lines result ≡ difference_code to left number [] }
{
    let turned = turned(number);
    if_short(
        turned,
        Instructions::One(Instr::Addi(to, left, lower(turned))),
    )
}

/// The same, and an instruction on it.
fn difference_then(to: Register, left: Register, number: u64, next: Instr) -> Option<Instructions>
    ensures { option_map instruction_lines result ≡ difference_code to left number (Plain next ∷ []) }
{
    let turned = turned(number);
    if_short(
        turned,
        Instructions::Two(Instr::Addi(to, left, lower(turned)), next),
    )
}

/// 1 where a register has the number, else 0.
#[tactic(auto, using(crate::proofs::Zeros::equal_zero, crate::proofs::Zeros::equal_more))]
fn equal(to: Register, left: Register, number: u64) -> Option<Instructions>
    ensures { option_map instruction_lines result ≡ immediate_code Equal to left number }
{
    let one = Signed12::new(1);
    if number == 0 {
        Some(Instructions::One(Instr::Sltiu(to, left, one)))
    } else {
        difference_then(to, left, number, Instr::Sltiu(to, to, one))
    }
}

/// 0 where a register has the number, else 1.
#[tactic(auto, using(crate::proofs::Zeros::different_zero, crate::proofs::Zeros::different_more))]
fn different(to: Register, left: Register, number: u64) -> Option<Instructions>
    ensures { option_map instruction_lines result ≡ immediate_code NotEqual to left number }
{
    let none = Register::ZERO;
    if number == 0 {
        Some(Instructions::One(Instr::Sltu(to, none, left)))
    } else {
        difference_then(to, left, number, Instr::Sltu(to, none, to))
    }
}

/// A shift of a register by this number of bits, if that is under 32.
fn shift(operation: Binary, to: Register, left: Register, number: u64) -> Option<Instructions>
    requires { is_shift operation ≡ true }
    ensures { option_map instruction_lines result ≡ immediate_code (binary_tree operation) to left number }
{
    if number >= 32 {
        return None;
    }
    let amount = ShiftAmount::new(number as u8);
    match operation {
        Binary::ShiftLeft => Some(Instructions::One(Instr::Slli(to, left, amount))),
        Binary::ShiftRight => Some(Instructions::One(Instr::Srai(to, left, amount))),
        _ => Some(Instructions::One(Instr::Srli(to, left, amount))),
    }
}

/// An operation on a register and a number, into another register, or `None` where no instruction does it.
pub fn immediate_of(
    operation: Binary,
    to: Register,
    left: Register,
    number: u64,
) -> Option<Instructions>
    ensures { option_map instruction_lines result ≡ immediate_code (binary_tree operation) to left number }
{
    let low = lower(number);
    match operation {
        Binary::Add => if_short(number, Instructions::One(Instr::Addi(to, left, low))),
        Binary::Subtract => difference(to, left, number),
        Binary::And => if_short(number, Instructions::One(Instr::Andi(to, left, low))),
        Binary::Or => if_short(number, Instructions::One(Instr::Ori(to, left, low))),
        Binary::Xor => if_short(number, Instructions::One(Instr::Xori(to, left, low))),
        Binary::Equal => equal(to, left, number),
        Binary::NotEqual => different(to, left, number),
        Binary::Less => if_short(number, Instructions::One(Instr::Slti(to, left, low))),
        Binary::LessUnsigned => if_short(number, Instructions::One(Instr::Sltiu(to, left, low))),
        Binary::ShiftLeft | Binary::ShiftRight | Binary::ShiftRightUnsigned => {
            shift(operation, to, left, number)
        }
        _ => None,
    }
}
