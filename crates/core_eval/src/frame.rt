// A function's activation: its temporaries, and where its blocks begin.

ghost use Rattle.std.specs.Prelude.{◌≡◌, ℕ, [], OnOk, IfSome};
ghost use Rattle.core_meaning.specs.Memory.{Word};
ghost use Rattle.core_meaning.specs.Steps.{set_temp};
ghost use Rattle.core_eval.specs.Values.{content_of, temp_of};

use crate::value::Value;
use cyc_core::{Origin, Temporary};
use std::alloc::{AllocError, Global};

/// A function's activation.
#[derive(Drop)]
pub struct Frame {
    /// What the temporaries hold. Those behind the last of them hold nothing.
    pub temps: Vec<Value>,
    /// How many blocks there are outside of the function.
    pub base: usize,
    /// The phrase of the text at which it stands: its last call or raise. No promise rests on it.
    pub at: Origin,
}

impl Frame {
    /// Of a function that has got nothing, and outside of which there is no block.
    pub fn new(alloc: Global) -> Self
        ensures temps { result.temps.items ≡ [] }
        ensures base { result.base ≡ 0 }
    {
        Frame {
            temps: Vec::new(alloc),
            base: 0,
            at: Origin(0),
        }
    }

    /// What a temporary holds.
    #[tactic(auto, using(crate::proofs::Lists::temp_some, crate::proofs::Lists::temp_none))]
    pub fn temp(&self, temporary: Temporary) -> Value
        ensures { content_of result ≡ temp_of self.now.temps.items temporary.0 }
    {
        match self.temps.get(temporary.0 as usize) {
            Some(value) => *value,
            None => Value::Blank,
        }
    }

    /// The word that a temporary holds, if it is one.
    pub fn word(&self, temporary: Temporary) -> Option<u32>
        ensures { IfSome result (λ word. Word word ≡ temp_of self.now.temps.items temporary.0) }
    {
        match self.temp(temporary) {
            Value::Word(word) => Some(word),
            _ => None,
        }
    }

    /// Gives a temporary a value. Fails only where no host memory is left.
    pub fn set_temp(&mut self, temporary: Temporary, value: Value) -> Result<(), AllocError>
        ensures temps { OnOk result ((k : ℕ) → temp_of self.new.temps.items k ≡ set_temp temporary.0 (content_of value) (temp_of self.old.temps.items) k) }
        ensures base { self.new.base ≡ self.old.base }
    {
        let position = temporary.0 as usize;
        'grow: while self.temps.len() <= position {
            self.temps.push(Value::Blank)?;
        }
        self.temps[position] = value;
        Ok(())
    }
}
