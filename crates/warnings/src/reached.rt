// Statements that no run comes to.

use crate::walk::Walk;
use crate::warning::WarningKind;
use cyc_tree::{BlockItem, Expression, Statement};

/// Whether a run comes to the end of a statement.
#[derive(Clone, Copy)]
pub(crate) enum End {
    /// It may.
    Reached,
    /// It doesn't, for a loop that never ends. For the checker the end is reachable.
    Endless,
    /// It doesn't: a `return`, a `break` or a `continue` stands before it.
    Left,
    /// It doesn't, and that was said.
    Told,
}

impl End {
    /// The end of a statement that stands behind another one, which has this end.
    pub(crate) fn then(self, next: End) -> End {
        match self {
            End::Reached => next,
            End::Endless => match next {
                End::Left => End::Left,
                _ => End::Endless,
            },
            End::Left | End::Told => self,
        }
    }

    /// The end of an `if` whose ways have these ends.
    pub(crate) fn or(self, other: End) -> End {
        match (self, other) {
            (End::Reached, _) | (_, End::Reached) => End::Reached,
            (End::Endless, _) | (_, End::Endless) => End::Endless,
            _ => End::Left,
        }
    }
}

/// Whether a loop with this condition ends only by a `break` or a `return`.
fn is_endless(condition: &Expression) -> bool {
    match condition {
        Expression::Number(_, number, _) => *number != 0,
        _ => false,
    }
}

/// Whether a run comes to the end of a loop with this condition, which a `break` may leave.
pub(crate) fn end_of_loop(condition: &Expression, has_break: bool) -> End {
    if is_endless(condition) && !has_break {
        End::Endless
    } else {
        End::Reached
    }
}

/// Whether a run comes to the end of a `switch`, which only a `break` leaves.
pub(crate) fn end_of_switch(has_break: bool) -> End {
    if has_break { End::Reached } else { End::Left }
}

/// Whether nothing is said of an item behind an end. Behind an endless loop the checker asks for a statement that leaves the block.
fn is_passed_over(end: End, item: &BlockItem) -> bool {
    match (end, item) {
        (End::Reached | End::Told, _) => true,
        (_, BlockItem::Declare(_)) => false,
        (_, BlockItem::Execute(Statement::Empty(_))) => true,
        (
            End::Endless,
            BlockItem::Execute(
                Statement::Return(_, _) | Statement::Break(_) | Statement::Continue(_),
            ),
        ) => true,
        _ => false,
    }
}

/// Where an item of a block begins.
fn place_of(item: &BlockItem) -> u32 {
    match item {
        BlockItem::Declare(declaration) => declaration.place(),
        BlockItem::Execute(statement) => statement.place(),
    }
}

/// Warns of an item behind an end, once for each block.
pub(crate) fn warn_of_unreachable(walk: &mut Walk<'_>, end: End, item: &BlockItem) -> End {
    if is_passed_over(end, item) {
        return end;
    }
    walk.warn_at(
        WarningKind::Unreachable,
        place_of(item),
        "no run comes to this",
        "Delete it, or what leaves the block before it.",
    );
    End::Told
}
