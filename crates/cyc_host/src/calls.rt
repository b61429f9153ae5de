// The calls of a run.

ghost use Rattle.std.specs.Prelude.{◌≡◌, ◌∷◌, ℕ, List};
ghost use Rattle.cyc_words.specs.Devices.{one_more};
ghost use Rattle.cyc_host.specs.Watched.{AreActive, addresses, known_calls, left_behind, no_calls};

use crate::counts::one_more_of;
use crate::seen::HOMES;
use std::alloc::Global;

/// How many of the words that are passed to a callee are kept.
pub const PASSED: usize = 16;

/// An active call.
#[derive(Clone, Copy)]
pub struct Active {
    /// The address of the call.
    pub at: u32,
    /// The stack pointer at the call: where the caller's frame begins.
    pub stack: u32,
    /// How many instructions were executed up to the call, with itself.
    pub since: u64,
    /// What the registers in which the caller's locals live held: x8, x9 and x18 to x27.
    pub homes: [u32; HOMES],
    /// The first words that the caller passed, in the order of the parameters.
    pub passed: [u32; PASSED],
}

/// The calls of a run: how many were made, the active ones that are kept, the outermost first, and how many more stand inside them. Each number stays at
/// the greatest u64.
#[derive(Drop)]
pub struct CallStack {
    made: u64,
    active: Vec<Active>,
    unkept: u64,
}

impl CallStack {
    /// None.
    pub fn none(alloc: Global) -> CallStack
        ensures made { result.made ≡ 0 }
        ensures active { known_calls result ≡ no_calls }
    {
        CallStack {
            made: 0,
            active: Vec::new(alloc),
            unkept: 0,
        }
    }

    /// How many were made.
    pub fn made(&self) -> u64
        ensures { result ≡ self.now.made }
    {
        self.made
    }

    /// The active ones that are kept, the outermost first.
    pub fn active(&self) -> &[Active]
        ensures { addresses result.now ≡ (known_calls self.now).kept }
    {
        &self.active
    }

    /// How many active ones stand inside those that are kept, since no host memory was left.
    pub fn unkept(&self) -> u64
        ensures { result ≡ (known_calls self.now).unkept }
    {
        self.unkept
    }

    /// Enters a call.
    #[tactic(auto, using(crate::proofs::Calling::entered_kept))]
    pub fn enter(&mut self, call: Active)
        ensures made { self.new.made ≡ one_more self.old.made }
        ensures active { (calls : List ℕ) → AreActive (known_calls self.old) calls → AreActive (known_calls self.new) (call.at ∷ calls) }
    {
        self.made = one_more_of(self.made);
        if self.unkept > 0 {
            self.unkept = one_more_of(self.unkept);
        } else if self.active.push(call).is_err() {
            self.unkept = 1;
        }
    }

    /// Leaves the innermost active one, and answers it if it was kept.
    #[tactic(auto, using(crate::proofs::Calling::left_uncounted, crate::proofs::Calling::left_inside, crate::proofs::Calling::left_kept))]
    pub fn leave(&mut self) -> Option<Active>
        ensures made { self.new.made ≡ self.old.made }
        ensures active { (calls : List ℕ) → AreActive (known_calls self.old) calls → AreActive (known_calls self.new) (left_behind calls) }
    {
        if self.unkept == u64::MAX {
            // so many that some weren't counted
            return None;
        }
        if self.unkept > 0 {
            self.unkept -= 1;
            return None;
        }
        self.active.pop()
    }
}
