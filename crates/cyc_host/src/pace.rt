// How far a run goes ahead before a step that it makes by itself.

ghost use Rattle.std.specs.Prelude.{◌≡◌, ◌≤◌, ◌∷◌, ℕ, Bool, [], false, true};
ghost use Rattle.rv32_machine.specs.Arrays.{areas_of, arrays, state_of};
ghost use Rattle.rv32_machine.specs.Quiet.{AreQuietSteps};
ghost use Rattle.cyc_host.specs.Watched.{AreTakenIn, Known, Tally, no_calls, nothing};

use cyc_arena::BlockStore;
use rv32_machine::Machine;

/// What goes ahead in a run, by steps that show nothing.
pub trait Pace {
    /// Whether it takes in each instruction when it begins, and goes no step ahead.
    ghost sees: { Self → Bool };
    /// What it took in so far.
    ghost tally: { Self → Tally };
    /// What it knows of the active calls.
    ghost known: { Self → Known };
    /// Makes up to `limit` steps that show nothing and ask the store for nothing, and returns how many.
    fn advance<S: BlockStore>(&mut self, machine: &mut Machine<S>, limit: u64) -> u64
        ensures quiet { let seen = arrays S.holdings S.byte_at in
            AreQuietSteps (areas_of (seen machine.old)) result (state_of (seen machine.old)) (state_of (seen machine.new)) }
        ensures few { result ≤ limit }
        ensures areas { let seen = arrays S.holdings S.byte_at in areas_of (seen machine.new) ≡ areas_of (seen machine.old) }
        ensures taken { let seen = arrays S.holdings S.byte_at in sees self.old ≡ true → (result ≡ 0) × ((sees self.new ≡ true) ×
            AreTakenIn (state_of (seen machine.old) ∷ []) (tally self.old) (tally self.new) (known self.old) (known self.new)) };
}

/// As many steps as there are, in one call of the machine.
#[derive(Drop)]
pub struct Gliding;

impl Pace for Gliding {
    ghost sees = { λ _. false };

    ghost tally = { λ _. nothing [] };

    ghost known = { λ _. no_calls };

    fn advance<S: BlockStore>(&mut self, machine: &mut Machine<S>, limit: u64) -> u64 {
        machine.glide(limit)
    }
}
