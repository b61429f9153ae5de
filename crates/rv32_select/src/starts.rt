// Where in the lines the code of each statement of the source begins.

use crate::checks::check_of;
use cyc_core::{Origin, Statement};
use std::alloc::AllocError;

/// Where the code begins of what stands at an origin. It goes on to where the next one begins.
#[derive(Clone, Copy)]
pub struct Start {
    /// The number of its first line.
    pub line: usize,
    pub origin: Origin,
}

/// Where the first raise stands of statements that do no more than raise.
#[cycle(origins)]
fn origin_in(body: &[Statement]) -> Option<Origin> {
    match body.first()? {
        Statement::Raise(_, origin) => Some(*origin),
        Statement::If(_, both) => origin_in(&both.0),
        _ => None,
    }
}

/// Where a statement stands, if it does something itself.
fn origin_of(statement: &Statement) -> Option<Origin> {
    match statement {
        Statement::Do(origin, _)
        | Statement::Check(_, _, origin)
        | Statement::Break(origin)
        | Statement::Continue(origin)
        | Statement::Return(_, origin)
        | Statement::Raise(_, origin) => Some(*origin),
        Statement::Call(call) => Some(call.origin),
        Statement::If(_, both) => match check_of(&both.0, &both.1) {
            Some(_) => origin_in(&both.1),
            None => None,
        },
        Statement::Copy(..)
        | Statement::Clear(..)
        | Statement::RegionAlloc(..)
        | Statement::UniqueAlloc(..)
        | Statement::While(..)
        | Statement::Block(_)
        | Statement::Leave(_) => None,
    }
}

/// Whether the last start is that of an origin.
fn is_last(starts: &[Start], origin: Origin) -> bool {
    match starts.last() {
        Some(last) => last.origin.0 == origin.0,
        None => false,
    }
}

/// Drops the starts at a line, or behind it.
fn drop_from(starts: &mut Vec<Start>, line: usize) {
    let mut kept = starts.len();
    'each: for start in starts.iter().rev() {
        if start.line < line {
            break;
        }
        kept = kept.saturating_sub(1);
    }
    starts.truncate(kept);
}

/// Notes that a statement's code begins at a line, if it stands elsewhere than what is before it. What began there had no code.
pub(crate) fn note(
    starts: &mut Vec<Start>,
    line: usize,
    statement: &Statement,
) -> Result<(), AllocError> {
    if let Some(origin) = origin_of(statement) {
        drop_from(starts, line);
        if !is_last(starts, origin) {
            starts.push(Start { line, origin })?;
        }
    }
    Ok(())
}

/// Drops the starts behind the end of the lines, whose code is dropped; and one at their end, if what begins there isn't reached. Else that goes on: a
/// comparison has no code, and the branch behind it is its own.
pub(crate) fn trim(starts: &mut Vec<Start>, end: usize, reached: bool) {
    let first = if reached { end.saturating_add(1) } else { end };
    drop_from(starts, first);
}
