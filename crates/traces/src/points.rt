// Where in the code functions begin, and where raises and calls are.

use cyc_words::Kind;
use rv32_isa::{Instr, Register, decode};
use rv32_machine::{CODE_BASE, RAISE};
use std::alloc::{AllocError, Global};

/// How many bytes of a function stand before the branch of its test of the stack: where its frame is small, and where it is large.
const BEFORE_SMALL_TEST: u32 = 4;

const BEFORE_LARGE_TEST: u32 = 8;

/// The bytes from which on a frame is large.
const LARGE_FRAME: u32 = 2048;

/// What is at an address of the code.
#[derive(Clone, Copy)]
pub enum Sight {
    /// The branch of a function's test of the stack, for a frame of this size in bytes.
    Test(u32),
    /// An ECALL that raises this exception.
    Raise(Kind),
    /// A call of this address.
    Call(u32),
}

impl Sight {
    /// What is at an address of the code; none at another instruction.
    pub fn at(code: &[u8], address: u32) -> Option<Sight> {
        let instruction = instruction_at(code, address)?;
        match instruction {
            Instr::Ecall => Sight::of_request(code, address),
            Instr::Bgeu(left, _, _) => Sight::of_branch(code, address, left),
            Instr::Jal(to, offset) => {
                let is_call = to.number() == Register::RETURN_ADDRESS.number();
                is_call.then_some(Sight::Call(address.wrapping_add_signed(offset.value())))
            }
            _ => None,
        }
    }

    /// What an ECALL is, by the number that is put into x17 before it.
    fn of_request(code: &[u8], address: u32) -> Option<Sight> {
        let number = added_at(code, address.wrapping_sub(4), Register::ARGUMENT_7)?;
        if number == RAISE {
            Some(Sight::Raise(kind_before(code, address)?))
        } else {
            None
        }
    }

    /// What a branch is that compares a register: a test of the stack, if that is x2. No other branch compares it.
    fn of_branch(code: &[u8], address: u32, compared: Register) -> Option<Sight> {
        if compared.number() == Register::STACK_POINTER.number() {
            Some(Sight::Test(frame_behind(code, address)?))
        } else {
            None
        }
    }
}

/// The instruction at an address of the code.
pub fn instruction_at(code: &[u8], address: u32) -> Option<Instr> {
    let offset = address.checked_sub(CODE_BASE)? as usize;
    let (bytes, _) = code.get(offset..)?.split_first_chunk::<4>()?;
    decode(u32::from_le_bytes(*bytes))
}

/// The number, as a word, that the ADDI to a register adds which stands at an address.
fn added_at(code: &[u8], address: u32, register: Register) -> Option<u32> {
    match instruction_at(code, address)? {
        Instr::Addi(to, _, number) if to.number() == register.number() => {
            Some(0u32.wrapping_add_signed(number.value()))
        }
        _ => None,
    }
}

/// The exception whose number is put into x10 before the ECALL at an address.
fn kind_before(code: &[u8], address: u32) -> Option<Kind> {
    match added_at(code, address.wrapping_sub(8), Register::ARGUMENT_0)? {
        1 => Some(Kind::NullException),
        2 => Some(Kind::ArrayBounds),
        _ => None,
    }
}

/// The bytes of a frame, which come into x10 where the branch of its test isn't made: by ADDI, with LUI before it where the frame is large.
fn frame_behind(code: &[u8], address: u32) -> Option<u32> {
    let behind = address.wrapping_add(4);
    let Instr::Lui(_, upper) = instruction_at(code, behind)? else {
        return added_at(code, behind, Register::ARGUMENT_0);
    };
    let lower = added_at(code, behind.wrapping_add(4), Register::ARGUMENT_0)?;
    Some(upper.bits().wrapping_mul(4096).wrapping_add(lower))
}

/// An address of the code at which a function is tested, or a raise or a call is.
#[derive(Clone, Copy)]
pub struct Point {
    pub address: u32,
    pub sight: Sight,
}

impl Point {
    /// Where its function begins, of a test of the stack.
    pub fn start(self) -> u32 {
        let before = match self.sight {
            Sight::Test(frame) if frame < LARGE_FRAME => BEFORE_SMALL_TEST,
            _ => BEFORE_LARGE_TEST,
        };
        self.address.wrapping_sub(before)
    }

    /// Whether it is the test of a large frame, whose function begins with an address of the stack.
    pub fn is_large_test(self) -> bool {
        matches!(self.sight, Sight::Test(frame) if frame >= LARGE_FRAME)
    }

    /// Whether it is a function's test of the stack.
    pub fn is_test(self) -> bool {
        matches!(self.sight, Sight::Test(_))
    }
}

/// The functions, raises and calls of code, in its order.
#[derive(Drop)]
pub struct Points {
    pub all: Vec<Point>,
    /// The address behind the code.
    pub end: u32,
}

impl Points {
    /// Those of this code.
    pub fn of(alloc: Global, code: &[u8]) -> Result<Points, AllocError> {
        let mut points = Points {
            all: Vec::new(alloc),
            end: CODE_BASE,
        };
        for _word in code.chunks_exact(4) {
            points.add(code)?;
        }
        Ok(points)
    }

    /// Takes in the next word of the code.
    fn add(&mut self, code: &[u8]) -> Result<(), AllocError> {
        let address = self.end;
        self.end = address.wrapping_add(4);
        if let Some(sight) = Sight::at(code, address) {
            self.all.push(Point { address, sight })?;
        }
        Ok(())
    }

    /// The point at an address.
    pub fn at(&self, address: u32) -> Option<Point> {
        self.all
            .iter()
            .find(|point| point.address == address)
            .copied()
    }
}
