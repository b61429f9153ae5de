// What holds of all runs.

ghost use Rattle.exhaustion_proof.specs.Laws.{ExhaustionIsExact};

/// A law, with nothing to run: a machine that does what a meaning says, from a state in which the store was just made, over a
/// store that refuses for lack of space exactly where its counts do, with regions whose blocks may be as long as the store's.
/// Where no event of the meaning wants more pages or more stack than there is, no run of it is exhausted. Where one does, and
/// is a request that the counts refuse, a run that is long enough is exhausted, with the events before it, unless the store
/// lacked host memory.
pub fn exhaustion_is_exact()
    ensures { ExhaustionIsExact }
{}
