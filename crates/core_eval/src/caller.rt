// Callers that wait, with what they had.

ghost use Rattle.std.specs.Prelude.{◌≡◌, IfOk, IfSome, OnOk, map};
ghost use Rattle.cyc_core.specs.Trees.{optional_tree};
ghost use Rattle.core_eval.specs.Values.{bound_value};
ghost use Rattle.core_eval.specs.Pendings.{Caller, caller_of, kept_temps};

use crate::frame::Frame;
use crate::held::Bound;
use crate::kept::{BESIDE, bytes_of, kept_of_temps};
use crate::spare::Spare;
use crate::value::Value;
use cyc_core::{Origin, Words};
use std::alloc::{AllocError, Global};
use std::mem;
use std::mem::size_of;

/// The most temporaries of which it is looked whether they are words.
const MOST_WORDS: usize = 32;

/// What the temporaries of a caller hold. Words take a sixth of what anything may take.
#[derive(Drop)]
pub enum Temps {
    /// Words, or nothing as yet.
    Words(Vec<Bound>),
    /// Anything.
    Values(Vec<Value>),
}

/// A caller that waits for the end of a call.
#[derive(Drop)]
pub struct Waiting {
    /// The temporaries that get the result.
    pub to: Option<Words>,
    /// The phrase of the text at which it stands. No promise rests on it.
    pub at: Origin,
    /// The number of the function that it called.
    pub function: usize,
    /// What its temporaries hold.
    pub temps: Temps,
    /// How many blocks there are outside of it.
    pub base: usize,
}

/// The same values as words, if all of them are words or nothing as yet, and they are few. Fails only where no host memory is left.
fn words_of(alloc: Global, values: &[Value]) -> Result<Option<Vec<Bound>>, AllocError>
    ensures { IfOk result (λ words. IfSome words (λ ws. map bound_value ws.items ≡ values.now)) }
{
    if values.len() > MOST_WORDS {
        return Ok(None);
    }
    let mut words = Vec::with_capacity(alloc, values.len())?;
    'each: for value in values {
        match Bound::kept(*value) {
            Some(word) => words.push(word)?,
            None => return Ok(None),
        }
    }
    Ok(Some(words))
}

/// What temporaries hold, as it is kept of one of many callers. Fails only where no host memory is left.
fn kept(alloc: Global, temps: Vec<Value>, spare: &mut Spare) -> Result<Temps, AllocError>
    ensures { IfOk result (λ kept. kept_temps kept ≡ temps.items) }
{
    match words_of(alloc, &temps)? {
        Some(words) => {
            spare.keep_temps(temps);
            Ok(Temps::Words(words))
        }
        None => Ok(Temps::Values(temps)),
    }
}

/// The same, where the caller is one of many, and else at once. Fails only where no host memory is left.
fn kept_if(
    alloc: Global,
    temps: Vec<Value>,
    is_deep: bool,
    spare: &mut Spare,
) -> Result<Temps, AllocError>
    ensures { IfOk result (λ kept. kept_temps kept ≡ temps.items) }
{
    if is_deep {
        kept(alloc, temps, spare)
    } else {
        Ok(Temps::Values(temps))
    }
}

/// These temporaries hold words. Fails only where no host memory is left.
fn put_words(temps: &mut Vec<Value>, words: &[Bound]) -> Result<(), AllocError>
    ensures { OnOk result (temps.new.items ≡ map bound_value words.now) }
{
    temps.clear();
    'each: for word in words {
        temps.push(word.value())?;
    }
    Ok(())
}

impl Waiting {
    /// How many bytes are kept of it.
    fn bytes(&self) -> u64 {
        let own = bytes_of(1, size_of::<Waiting>()).saturating_add(BESIDE);
        let temps = match &self.temps {
            Temps::Words(words) => {
                bytes_of(words.capacity() as u64, size_of::<Bound>()).saturating_add(BESIDE)
            }
            Temps::Values(values) => kept_of_temps(values),
        };
        own.saturating_add(temps)
    }

    /// With what its activation had, which takes less where the caller is one of many. Fails only where no host memory is left.
    pub fn new(
        alloc: Global,
        to: Option<Words>,
        function: usize,
        saved: Frame,
        is_deep: bool,
        spare: &mut Spare,
    ) -> Result<Box<Self>, AllocError>
        ensures { IfOk result (λ caller. caller_of caller.value
            ≡ Caller (optional_tree to) function (record { temps = saved.temps.items; base = saved.base })) }
    {
        let Frame { temps, base, at } = saved;
        let temps = kept_if(alloc, temps, is_deep, spare)?;
        let waiting = Waiting {
            to,
            at,
            function,
            temps,
            base,
        };
        spare.count(waiting.bytes());
        let caller = Box::new(alloc, waiting)?;
        Ok(caller)
    }

    /// It goes on with what it had. Fails only where no host memory is left.
    pub fn go_on(self, frame: &mut Frame, spare: &mut Spare) -> Result<(), AllocError>
        ensures temps { OnOk result (frame.new.temps.items ≡ kept_temps self.temps) }
        ensures base { OnOk result (frame.new.base ≡ self.base) }
    {
        spare.uncount(self.bytes());
        let Waiting {
            to: _,
            at,
            function: _,
            temps,
            base,
        } = self;
        frame.base = base;
        frame.at = at;
        match temps {
            Temps::Words(words) => put_words(&mut frame.temps, &words),
            Temps::Values(values) => {
                let left = mem::replace(&mut frame.temps, values);
                spare.keep_temps(left);
                Ok(())
            }
        }
    }
}
