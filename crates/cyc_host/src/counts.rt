// How often the words of a code were executed.

ghost use Rattle.std.specs.Prelude.{◌≡◌, IfOk, replicate};
ghost use Rattle.cyc_words.specs.Devices.{one_more};
ghost use Rattle.cyc_host.specs.Watched.{AreSameCounts, executed_at, executed_in};

use rv32_machine::CODE_BASE;
use std::alloc::{AllocError, Global};

/// One more, up to the greatest u64.
pub fn one_more_of(count: u64) -> u64
    ensures { result ≡ one_more count }
{
    count.saturating_add(1)
}

/// What was seen of an instruction.
#[derive(Clone, Copy)]
pub struct Count {
    /// How often it was executed.
    pub executed: u64,
    /// How often another one than the next word's came behind it.
    pub left: u64,
    /// How many instructions were executed in the calls that it made, if it is a call, and that have returned.
    pub within: u64,
}

impl Count {
    /// With one execution more.
    fn executed_once(self) -> Count
        ensures { result.executed ≡ one_more self.executed }
    {
        Count {
            executed: self.executed.saturating_add(1),
            left: self.left,
            within: self.within,
        }
    }

    /// With one more time that another word than the next one came behind.
    fn left_once(self) -> Count
        ensures { result.executed ≡ self.executed }
    {
        Count {
            executed: self.executed,
            left: self.left.saturating_add(1),
            within: self.within,
        }
    }

    /// With so many instructions more in calls that have returned.
    fn taking(self, steps: u64) -> Count
        ensures { result.executed ≡ self.executed }
    {
        Count {
            executed: self.executed,
            left: self.left,
            within: self.within.saturating_add(steps),
        }
    }
}

/// Nothing seen of this number of words.
#[tactic(auto, using(crate::proofs::Counting::none_more))]
pub fn none_of(alloc: Global, words: usize) -> Result<Vec<Count>, AllocError>
    ensures { IfOk result (λ counts. executed_in counts.items ≡ replicate words 0) }
{
    let mut counts = Vec::new(alloc);
    'each: for _ in 0..words {
        counts.push(Count {
            executed: 0,
            left: 0,
            within: 0,
        })?;
    }
    Ok(counts)
}

/// The number of the word at an address, if the code doesn't begin behind that.
fn number_of(address: u32) -> Option<usize> {
    let bytes = address.checked_sub(CODE_BASE)?;
    Some(bytes as usize / 4)
}

/// Counts that another word than the next one came behind the one at an address.
#[tactic(auto, using(crate::proofs::Counting::set_same))]
pub fn add_left(counts: &mut [Count], address: u32)
    ensures { AreSameCounts counts.old counts.new }
{
    if let Some(number) = number_of(address) {
        if number < counts.len() {
            counts[number] = counts[number].left_once();
        }
    }
}

/// Counts what a call at an address took.
#[tactic(auto, using(crate::proofs::Counting::set_same))]
pub fn add_within(counts: &mut [Count], address: u32, steps: u64)
    ensures { AreSameCounts counts.old counts.new }
{
    if let Some(number) = number_of(address) {
        if number < counts.len() {
            counts[number] = counts[number].taking(steps);
        }
    }
}

/// Counts that the word at an address is executed, if it is of the code.
#[tactic(auto, using(crate::proofs::Counting::set_once, crate::proofs::Counting::none_once))]
pub fn add_executed(counts: &mut [Count], address: u32)
    ensures { executed_in counts.new ≡ executed_at address (executed_in counts.old) }
{
    if CODE_BASE <= address {
        let number = ((address - CODE_BASE) / 4) as usize;
        if number < counts.len() {
            counts[number] = counts[number].executed_once();
        }
    }
}
