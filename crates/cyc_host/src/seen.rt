// What is seen of a machine before it executes an instruction.

ghost use Rattle.std.specs.Prelude.{◌≡◌};
ghost use Rattle.rv32_machine.specs.Arrays.{arrays, state_of};
ghost use Rattle.rv32_machine.specs.State.{register_of};
ghost use Rattle.rv32_machine.specs.Step.{a7};

use cyc_arena::BlockStore;
use rv32_machine::{CODE_BASE, Machine};

/// How many registers there are in which locals live.
pub const HOMES: usize = 12;

/// An instruction, and what the registers held before it was executed.
#[derive(Clone, Copy)]
pub struct Seen {
    /// Its address.
    pub pc: u32,
    /// Its word; 0 outside the code.
    pub word: u32,
    /// The stack pointer, x2.
    pub stack: u32,
    /// The number of a request, x17.
    pub number: u32,
    /// The arguments of a request, x10 and x11.
    pub arguments: (u32, u32),
}

impl Seen {
    /// What a machine with this code executes next.
    pub fn of<S: BlockStore>(machine: &Machine<S>, code: &[u8]) -> Seen
        ensures pc { result.pc ≡ (state_of (arrays S.holdings S.byte_at machine.now)).pc }
        ensures number { result.number ≡ register_of (state_of (arrays S.holdings S.byte_at machine.now)) a7 }
    {
        let pc = machine.pc();
        Seen {
            pc,
            word: word_at(code, pc),
            stack: machine.reg(2),
            number: machine.reg(17),
            arguments: (machine.reg(10), machine.reg(11)),
        }
    }
}

/// The word at an address of the code; 0 outside it.
fn word_at(code: &[u8], address: u32) -> u32 {
    let offset = address.wrapping_sub(CODE_BASE) as usize;
    match code.get(offset..) {
        Some([first, second, third, fourth, ..]) => {
            u32::from_le_bytes([*first, *second, *third, *fourth])
        }
        _ => 0,
    }
}

/// The registers in which locals live: x8, x9 and x18 to x27.
pub fn homes_of<S: BlockStore>(machine: &Machine<S>) -> [u32; HOMES] {
    [
        machine.reg(8),
        machine.reg(9),
        machine.reg(18),
        machine.reg(19),
        machine.reg(20),
        machine.reg(21),
        machine.reg(22),
        machine.reg(23),
        machine.reg(24),
        machine.reg(25),
        machine.reg(26),
        machine.reg(27),
    ]
}

/// What the first register holds that a branch compares.
pub fn first_in<S: BlockStore>(machine: &Machine<S>, word: u32) -> u32 {
    machine.reg((word >> 15) & 31)
}

/// What the second register holds that a branch compares, or what a store stores.
pub fn second_in<S: BlockStore>(machine: &Machine<S>, word: u32) -> u32 {
    machine.reg((word >> 20) & 31)
}

/// A branch on unsigned numbers that was executed, and what it compared. The checks of indices are such.
#[derive(Clone, Copy)]
pub struct Comparison {
    /// Its address; 0 where none was executed.
    pub pc: u32,
    /// What its first register held.
    pub left: u32,
    /// What its second register held.
    pub right: u32,
}
