// Operations on words: most of those that a program does.

ghost use Rattle.std.specs.Prelude.{◌≡◌, true, false, IfOk, IfSome};
ghost use Rattle.core_eval.specs.Standing.{known_of};
ghost use Rattle.core_eval.specs.Costs.{GivesWord, IsDone};

use crate::arithmetic::apply;
use crate::frame::Frame;
use crate::memory::Memory;
use crate::value::Value;
use cyc_core::{Operation, Temporary};
use std::alloc::AllocError;

/// A word for a temporary.
#[derive(Clone, Copy)]
struct Given {
    to: Temporary,
    word: u32,
}

/// What an operation gives on two other temporaries' words.
fn computed(operation: &Operation, frame: &Frame, memory: &Memory) -> Option<Given>
    ensures { IfSome result (λ given. GivesWord operation.now frame.now memory.now given.to.0 given.word) }
{
    let Operation::Apply(binary, to, left, right) = operation else {
        return None;
    };
    let Some(x) = frame.word(*left) else {
        return None;
    };
    let Some(y) = frame.word(*right) else {
        return None;
    };
    Some(Given {
        to: *to,
        word: apply(*binary, x, y),
    })
}

/// The word that an operation gives a temporary, if that is all that it does, and it is found where it most often is.
fn word_given(operation: &Operation, frame: &Frame, memory: &Memory) -> Option<Given>
    ensures { IfSome result (λ given. GivesWord operation.now frame.now memory.now given.to.0 given.word) }
{
    match operation {
        Operation::Constant(to, word) => Some(Given {
            to: *to,
            word: *word,
        }),
        Operation::Apply(..) => computed(operation, frame, memory),
        Operation::Get(width, to, from) => match memory.word(frame.base, *from, *width) {
            Some(word) => Some(Given { to: *to, word }),
            None => None,
        },
        _ => None,
    }
}

/// Stores what a temporary holds to a local, if that is what an operation does, and answers whether it is done. Fails only where no host memory is
/// left.
fn put(operation: &Operation, frame: &Frame, memory: &mut Memory) -> Result<bool, AllocError>
    ensures done { IfOk result (λ is_done. is_done ≡ true → IsDone operation.now (known_of frame.now memory.old) (known_of frame.now memory.new)) }
    ensures kept { IfOk result (λ is_done. is_done ≡ false → known_of frame.now memory.new ≡ known_of frame.now memory.old) }
{
    match operation {
        Operation::Put(width, from, to) => {
            let value = frame.temp(*from);
            memory.set_local(frame.base, *to, *width, value)
        }
        _ => Ok(false),
    }
}

/// Does an operation that gives a temporary a word or stores one to a local, and answers whether it is done: else nothing has changed. Fails only
/// where no host memory is left.
pub fn operate_on_words(
    operation: &Operation,
    frame: &mut Frame,
    memory: &mut Memory,
) -> Result<bool, AllocError>
    ensures done { IfOk result (λ is_done. is_done ≡ true → IsDone operation.now (known_of frame.old memory.old) (known_of frame.new memory.new)) }
    ensures kept { IfOk result (λ is_done. is_done ≡ false → known_of frame.new memory.new ≡ known_of frame.old memory.old) }
{
    match word_given(operation, frame, memory) {
        Some(given) => {
            frame.set_temp(given.to, Value::Word(given.word))?;
            Ok(true)
        }
        None => put(operation, frame, memory),
    }
}
