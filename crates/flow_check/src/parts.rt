// Expressions without parts, and the number of locals around an expression.

ghost use Rattle.std.specs.Prelude.{◌≡◌, ◌+◌, IfOk, length};
ghost use Rattle.flow_effects.specs.Used.{IsUsed};
ghost use Rattle.flow_effects.specs.declared.used.Usage.{Usage as TheUsage};
ghost use Rattle.flow_summaries.specs.Passages.{unchanged};
ghost use Rattle.flow_summaries.specs.Uses.{uses_as_value};

use check_expressions::Around;
use check_scopes::Scope;
use flow_effects::{Passed, Used};
use std::alloc::AllocError;

/// The summary of an expression that does nothing.
pub(crate) fn idle() -> Used
    ensures { (how : TheUsage) → IsUsed how (uses_as_value unchanged) result }
{
    Used::value(Passed::nothing())
}

/// The number of locals in scope, the indices of the enclosing array comprehensions among them. Fails only if it is over the greatest
/// `usize`.
pub(crate) fn locals_around(scope: &Scope<'_, '_>, around: Around<'_>) -> Result<usize, AllocError>
    ensures { IfOk result (λ n. n ≡ length scope.now.locals + length around.entry.counters.now) }
{
    match scope.locals.len().checked_add(around.counters.len()) {
        Some(count) => Ok(count),
        None => Err(AllocError),
    }
}
