// The most that a run may keep.

ghost use Rattle.std.specs.Prelude.{◌≡◌, None, false};

use crate::kept::kept_of_run;
use crate::pending::Run;

/// The most that a run may keep. None is no bound.
#[derive(Clone, Copy)]
pub struct Bounds {
    /// The most calls that are active at once, `main` not counted.
    pub calls: Option<u64>,
    /// The most bytes that the evaluator keeps, by an estimate from the sizes of what it keeps; a block of a region counts with all its elements.
    pub bytes: Option<u64>,
}

/// The bound that a run has passed.
#[derive(Clone, Copy)]
pub enum Exceeded {
    /// That of active calls.
    Calls,
    /// That of bytes.
    Bytes,
}

/// Whether there is a bound, and a number is over it.
fn is_over(number: u64, bound: Option<u64>) -> bool
    ensures { bound ≡ None → result ≡ false }
{
    match bound {
        Some(most) => number > most,
        None => false,
    }
}

/// The bound that a run has passed, if it has passed one.
pub fn passed(run: &Run<'_>, bounds: &Bounds) -> Option<Exceeded>
    ensures { bounds.now.calls ≡ None → bounds.now.bytes ≡ None → result ≡ None }
{
    let active = (run.memory.owns.len() as u64).saturating_sub(1);
    if is_over(active, bounds.calls) {
        return Some(Exceeded::Calls);
    }
    if bounds.bytes.is_some() && is_over(kept_of_run(run), bounds.bytes) {
        return Some(Exceeded::Bytes);
    }
    None
}
