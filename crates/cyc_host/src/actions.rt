// What the instructions of a code do to the calls and requests of a run.

ghost use Rattle.std.specs.Prelude.{◌≡◌, Some, ◌+◌, ◌*◌, ◌≤◌, ◌/◌, ◌&&◌, nat_eq, if◌then◌else◌, IfOk, length};
ghost use Rattle.rv32_isa.specs.Table.{decoded};
ghost use Rattle.cyc_host.specs.Watched.{action, action_at, actions_of, code_word};

use byteorder::{ByteOrder, LittleEndian};
use rv32_isa::{Instr, Register, decode};
use rv32_machine::CODE_BASE;
use std::alloc::{AllocError, Global};

/// What an instruction does to the calls and requests of a run.
#[derive(Clone, Copy)]
pub enum Action {
    /// It calls: `jal x1, offset`.
    Calls,
    /// It returns: `jalr x0, imm(x1)`.
    Returns,
    /// It makes a request: `ecall`.
    Asks,
    /// None of these.
    Other,
}

/// What a JAL does, which calls if it keeps in x1 where to return to.
fn jump(to: Register) -> Action
    ensures { result ≡ (if nat_eq to 1 then Action.Calls else Action.Other) }
{
    if to.number() == 1 {
        Action::Calls
    } else {
        Action::Other
    }
}

/// What a JALR does, which returns if it goes by x1 and keeps nothing.
fn jump_back(to: Register, by: Register) -> Action
    ensures { result ≡ (if nat_eq to 0 && nat_eq by 1 then Action.Returns else Action.Other) }
{
    if to.number() == 0 && by.number() == 1 {
        Action::Returns
    } else {
        Action::Other
    }
}

/// What a word does that is this instruction, or none.
fn of_instruction(instruction: &Instr) -> Action
    ensures { result ≡ action (Some instruction.now) }
{
    match instruction {
        Instr::Jal(to, _) => jump(*to),
        Instr::Jalr(to, by, _) => jump_back(*to, *by),
        Instr::Ecall => Action::Asks,
        _ => Action::Other,
    }
}

/// What a word does, by the instruction that it is, if any.
fn of_word(found: &Option<Instr>) -> Action
    ensures { result ≡ action found.now }
{
    match found {
        Some(instruction) => of_instruction(instruction),
        None => Action::Other,
    }
}

/// The word with a number of a code.
fn word_of(code: &[u8], number: usize) -> u32
    requires { 4 * number + 4 ≤ length code.now }
    ensures { result ≡ code_word code.now number }
{
    LittleEndian::read_u32(&code[4 * number..])
}

/// What each word of a code does.
#[tactic(auto, using(crate::proofs::Acting::action_more))]
pub fn all_actions(alloc: Global, code: &[u8]) -> Result<Vec<Action>, AllocError>
    ensures { IfOk result (λ all. all.items ≡ actions_of code.now (length code.now / 4)) }
{
    let count = code.len() / 4;
    let mut all = Vec::with_capacity(alloc, count)?;
    'each: for number in 0..count {
        let found = decode(word_of(code, number));
        all.push(of_word(&found))?;
    }
    Ok(all)
}

/// What the word at an address does; nothing outside the code.
#[tactic(auto, using(crate::proofs::Acting::before_code, crate::proofs::Acting::word_action, crate::proofs::Acting::no_word_action))]
pub fn action_of(all: &[Action], address: u32) -> Action
    ensures { result ≡ action_at all.now address }
{
    if address < CODE_BASE {
        return Action::Other;
    }
    let number = ((address - CODE_BASE) / 4) as usize;
    if number < all.len() {
        all[number]
    } else {
        Action::Other
    }
}
