// The lines that say where a run of a text stopped, by positions and names.

use cyc_words::Kind;
use cycc_driver::Place;
use std::alloc::{AllocError, Global};

/// How many active calls are shown where there are more.
const SHOWN_CALLS: usize = 64;

/// How many of these are the outermost ones.
const OUTERMOST: usize = 8;

/// How many of this number of active calls are shown from the innermost on, and how many are left out behind them. The others are shown behind these.
pub fn shown_of(calls: usize) -> (usize, usize) {
    if calls <= SHOWN_CALLS {
        (calls, 0)
    } else {
        (SHOWN_CALLS - OUTERMOST, calls - SHOWN_CALLS)
    }
}

/// The line of a raise, with what is said of the values behind the exception's name.
pub fn raised_at(
    alloc: Global,
    input: &str,
    place: Place,
    kind: Kind,
    values: &str,
) -> Result<String, AllocError> {
    let line = place.line;
    let column = place.column;
    format!(in alloc; "{input}:{line}:{column}: {kind}{values}\n")
}

/// The line of a call of a function.
pub fn called_at(
    alloc: Global,
    input: &str,
    place: Place,
    function: &str,
) -> Result<String, AllocError> {
    let line = place.line;
    let column = place.column;
    format!(in alloc; "{input}:{line}:{column}: call of {function}\n")
}

/// Says in which function a run stopped, behind what is said of it.
pub fn in_function(alloc: Global, function: &str) -> Result<String, AllocError> {
    format!(in alloc; " in {function}")
}

/// The line of a run that came to this limit, of its steps as it may be.
pub fn limited(alloc: Global, limit: &str, inside: &str) -> Result<String, AllocError> {
    format!(in alloc; "{limit} limit{inside}\n")
}

/// Appends how many calls aren't shown, if there are any.
pub fn push_count(alloc: Global, lines: &mut String, count: u64) -> Result<(), AllocError> {
    if count == 0 {
        return Ok(());
    }
    let line = format!(in alloc; ".. {count} calls\n")?;
    lines.push_str(line.as_str())
}
