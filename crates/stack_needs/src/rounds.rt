// Needs of functions, from those that are called up to those that call.

ghost use Rattle.std.specs.Prelude.{◌≡◌, ◌<◌, ℕ, [], All, IfOk, length, reverse};
ghost use Rattle.stack_needs.specs.Graph.{AreNumbers, AreWaiting, IsAnswer, found, greatest, known, looked_at, need_by, numbers_below, rows_of};

use std::alloc::{AllocError, Global};

/// The greatest need of these functions, where all are known; 0 of none.
fn greatest(needs: &[Option<u64>], calls: &[usize]) -> Option<u64>
    ensures { result ≡ greatest needs.now calls.now 0 }
{
    let mut most = 0;
    'each: for called in calls {
        match needs.get(*called) {
            Some(Some(need)) => most = u64::max(most, *need),
            _ => return None,
        }
    }
    Some(most)
}

/// A function's need, where those of all that it calls are known.
fn need_by(frames: &[u64], calls: &[Vec<usize>], needs: &[Option<u64>], k: usize) -> Option<u64>
    requires framed { k < length frames.now }
    requires listed { k < length calls.now }
    ensures { result ≡ need_by frames.now (rows_of calls.now) needs.now k }
{
    match greatest(needs, calls[k].as_slice()) {
        Some(others) => Some(frames[k].saturating_add(others)),
        None => None,
    }
}

/// Looks at these functions, one after another, and answers those whose needs it didn't find.
fn look_at(
    alloc: Global,
    frames: &[u64],
    calls: &[Vec<usize>],
    needs: &mut Vec<Option<u64>>,
    waiting: &[usize],
) -> Result<Vec<usize>, AllocError>
    requires framed { length frames.now ≡ length needs.old.items }
    requires listed { length calls.now ≡ length needs.old.items }
    requires within { All (λ k. k < length needs.old.items) waiting.now }
    ensures { IfOk result (λ left. found needs.new.items left.items ≡ looked_at frames.now (rows_of calls.now) (found needs.old.items []) waiting.now) }
{
    let mut left = Vec::new(alloc);
    'each: for k in waiting {
        match need_by(frames, calls, needs.as_slice(), *k) {
            Some(need) => needs[*k] = Some(need),
            None => left.push(*k)?,
        }
    }
    Ok(left)
}

/// These functions, the last one first.
fn turned(waiting: Vec<usize>) -> Vec<usize>
    ensures { result.items ≡ reverse waiting.items }
{
    let mut functions = waiting;
    functions.reverse();
    functions
}

/// The numbers below `count`.
fn numbers_below(alloc: Global, count: usize) -> Result<Vec<usize>, AllocError>
    ensures { IfOk result (λ all. all.items ≡ numbers_below count) }
{
    let mut all = Vec::new(alloc);
    'each: for k in 0..count {
        all.push(k)?;
    }
    Ok(all)
}

/// What each function needs, where it fits any number of bytes: `frames` has the bytes that the frame of each may take, and
/// `calls` the functions that each calls.
///
/// Goes over the functions whose need isn't known yet, in the order of the text and back in turn, until a round finds none. Where each function stands
/// behind those that it calls, or each before them, that is one round or two, and another one if some fit nothing. At worst there are as many rounds as
/// functions. Takes memory for each function twice. Fails only where no host memory is left.
pub fn needs_of(
    alloc: Global,
    frames: &[u64],
    calls: &[Vec<usize>],
) -> Result<Vec<Option<u64>>, AllocError>
    requires framed { length frames.now ≡ length calls.now }
    requires numbered { AreNumbers (length calls.now) (rows_of calls.now) }
    ensures right { IfOk result (λ needs. (k : ℕ) → k < length calls.now → IsAnswer frames.now (rows_of calls.now) k (known needs.items k)) }
    ensures waiting { IfOk result (λ needs. AreWaiting (length calls.now) (rows_of calls.now) needs.items) }
{
    let mut needs = vec![in alloc; None; calls.len()]?;
    let mut waiting = numbers_below(alloc, calls.len())?;
    let mut is_last = false;
    while !is_last {
        let left = look_at(alloc, frames, calls, &mut needs, waiting.as_slice())?;
        is_last = left.len() == waiting.len();
        waiting = turned(left);
    }
    Ok(needs)
}
