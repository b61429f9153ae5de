// Recursions.

ghost use Rattle.std.specs.Prelude.{◌≡◌, ◌<◌, ℕ, None, IfOk, IfSome, length};
ghost use Rattle.std.specs.List.{Contains};
ghost use Rattle.stack_needs.specs.Graph.{AreNumbers, AreWaiting, IsRecursion, known, rows_of};

use std::alloc::{AllocError, Global};

/// A recursion: each function of the path calls the next, and the last one calls again one that is on it.
#[derive(Drop)]
pub struct Recursion {
    pub path: Vec<usize>,
    pub again: usize,
}

/// One of these functions whose need isn't known, if there is one.
fn unknown_among(needs: &[Option<u64>], calls: &[usize]) -> Option<usize>
    ensures found { IfSome result (λ g. Contains calls.now g × (known needs.now g ≡ None)) }
    ensures none { result ≡ None → (g : ℕ) → Contains calls.now g → known needs.now g ≡ None → ⊥ }
{
    'each: for called in calls {
        match needs.get(*called) {
            Some(Some(_)) => {}
            _ => return Some(*called),
        }
    }
    None
}

/// The recursion that is reached from a function whose need isn't known, by going on to one that it calls and whose need isn't known
/// either, until one is met again. Fails only where no host memory is left.
pub(crate) fn recursion_from(
    alloc: Global,
    calls: &[Vec<usize>],
    needs: &[Option<u64>],
    from: usize,
) -> Result<Recursion, AllocError>
    requires numbered { AreNumbers (length calls.now) (rows_of calls.now) }
    requires waiting { AreWaiting (length calls.now) (rows_of calls.now) needs.now }
    requires below { from < length calls.now }
    requires unknown { known needs.now from ≡ None }
    ensures { IfOk result (λ r. IsRecursion (rows_of calls.now) from r.path.items r.again) }
{
    let mut seen = vec![in alloc; false; calls.len()]?;
    let mut path = Vec::new(alloc);
    let mut at = from;
    'path: while !seen[at] {
        seen[at] = true;
        path.push(at)?;
        at = match unknown_among(needs, calls[at].as_slice()) {
            Some(called) => called,
            None => unreachable!(),
        };
    }
    Ok(Recursion { path, again: at })
}
