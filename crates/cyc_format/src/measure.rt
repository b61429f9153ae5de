// How wide pieces are in one line.

use crate::class::Class;
use crate::mark::{Mark, Role};
use crate::pieces::{Piece, is_comment};
use std::alloc::{AllocError, Global};

/// What stands up to a piece, and how far the phrase goes that it belongs to.
#[derive(Clone, Copy)]
pub(crate) struct Measure {
    /// The columns of all pieces before this one, in one line.
    pub columns: usize,
    /// The line ends before this piece, those within comments too.
    pub lines: usize,
    /// The index behind the pieces that belong into the line with this one.
    pub end: usize,
}

/// How many line ends bytes have.
fn line_ends(bytes: &[u8]) -> usize {
    bytes.iter().filter(|byte| **byte == b'\n').count()
}

/// Whether a piece begins a line or a phrase of its own, by it and the one before it.
fn is_apart(before: &Piece<'_>, piece: &Piece<'_>, mark: &Mark) -> bool {
    match (before.class, piece.class, mark.role) {
        (Class::LineComment, _, _) | (_, Class::LineComment, _) => true,
        (_, _, Role::Inside) => is_comment(piece.class) && piece.lines > 0,
        _ => true,
    }
}

/// The index behind the phrase of a piece, where `end` is that of the next piece, which has index `next`.
fn end_of(pieces: &[Piece<'_>], marks: &[Mark], next: usize, end: usize) -> usize {
    let (Some(before), Some(piece), Some(mark)) = (
        pieces.get(next.saturating_sub(1)),
        pieces.get(next),
        marks.get(next),
    ) else {
        return next;
    };
    match mark.role {
        Role::Open => next.saturating_add(1),
        _ if is_apart(before, piece, mark) => next,
        _ => end,
    }
}

/// Writes at each piece how far its phrase goes.
fn find_ends(pieces: &[Piece<'_>], marks: &[Mark], measures: &mut [Measure]) {
    let mut end = pieces.len();
    let mut next = pieces.len();
    for measure in measures.iter_mut().rev() {
        end = end_of(pieces, marks, next, end);
        measure.end = end;
        next = next.saturating_sub(1);
    }
}

/// The measures of pieces with these marks.
pub(crate) fn measures_of(
    alloc: Global,
    pieces: &[Piece<'_>],
    marks: &[Mark],
) -> Result<Vec<Measure>, AllocError> {
    let mut measures = Vec::new(alloc);
    let mut columns = 0usize;
    let mut lines = 0usize;
    for (piece, mark) in pieces.iter().zip(marks.iter()) {
        lines = lines.saturating_add(piece.lines as usize);
        measures.push(Measure {
            columns,
            lines,
            end: 0,
        })?;
        let space = usize::from(mark.has_space);
        columns = columns
            .saturating_add(space)
            .saturating_add(piece.text.len());
        lines = lines.saturating_add(line_ends(piece.text));
    }
    find_ends(pieces, marks, &mut measures);
    Ok(measures)
}
