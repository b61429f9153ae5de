// Conditions that assign.

use crate::walk::Walk;
use crate::warning::WarningKind;
use cyc_tree::Expression;

/// Warns of a condition that is an assignment. One in parentheses of its own is meant.
pub(crate) fn warn_of_assignment(walk: &mut Walk<'_>, condition: &Expression) {
    if let Expression::Assign(_, _) = condition {
        walk.warn_at(
            WarningKind::Assignment,
            condition.place(),
            "the condition is an assignment",
            "Write == to compare; if it is meant, put it in parentheses of its own.",
        );
    }
}
