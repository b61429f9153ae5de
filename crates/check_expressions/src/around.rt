// What is around an expression within a larger one.

ghost use Rattle.std.specs.Prelude.{◌≡◌, ◌+◌, IfOk, ◌||◌, bytes_eq, length, option_map, ℕ, List};
ghost use Rattle.std.specs.List.{list_any};
ghost use Rattle.check_scopes.specs.Means.{Means, meaning_of};
ghost use Rattle.source_typing.specs.Scope.{Env, meant};
ghost use Rattle.check_faults.specs.Verdicts.{short_of};
ghost use Rattle.check_operators.specs.Goals.{goal_in};
ghost use Rattle.check_calls.specs.Enclosings.{enclosing_of};
ghost use Rattle.check_expressions.specs.Goals.{enclosed_short};
ghost use Rattle.check_expressions.specs.Within.{IsIn, is_counter, means_inside};

use crate::making::enclosing_by;
use check_calls::Enclosing;
use check_faults::Verdict;
use check_operators::Goal;
use check_scopes::{Named, Scope};
use std::alloc::{AllocError, Global};

/// What is around an expression within a larger one.
#[derive(Clone, Copy)]
pub struct Around<'a> {
    /// The innermost `rnew`.
    pub enclosing: Enclosing,
    /// The indexes of the arrays that are made around, the innermost last. They hide what is in scope.
    pub counters: &'a [&'a [u8]],
}

/// Whether a name is one of these.
pub fn is_counter(counters: &[&[u8]], name: &[u8]) -> bool
    ensures { result ≡ is_counter counters.now name.now }
{
    counters.iter().any(|counter| *counter == name)
}

/// The indexes of arrays that are made around, and of one more.
pub fn with_counter<'a>(
    alloc: Global,
    counters: &[&'a [u8]],
    index: &'a [u8],
) -> Result<Vec<&'a [u8]>, AllocError>
    ensures found { IfOk result (λ all. (x : List ℕ) → is_counter all.items x ≡ (is_counter counters.now x || bytes_eq index.entry.now x)) }
    ensures one_more { IfOk result (λ all. length all.items ≡ length counters.now + 1) }
{
    let mut all = Vec::from_slice(alloc, counters)?;
    all.push(index)?;
    Ok(all)
}

/// What a name means within what is around.
#[tactic(auto, using(crate::proofs::Within::named_around))]
pub(crate) fn meaning<'s, 'p>(
    scope: &'s Scope<'_, 'p>,
    around: Around<'_>,
    name: &[u8],
) -> Option<Named<'s, 'p>>
    ensures is { option_map meaning_of result ≡ means_inside around.entry scope.now name.now }
    ensures by_the_rules { (g : Env) → IsIn scope.now around.entry g → Means (meant g name.now) (option_map meaning_of result) }
{
    if is_counter(around.counters, name) {
        Some(Named::Counter)
    } else {
        scope.meaning(name)
    }
}

impl<'a> Around<'a> {
    /// The same around what is made there.
    pub fn inside(self, goal: &Verdict<Goal>) -> Around<'a>
        ensures enclosing { enclosing_of result.enclosing ≡ enclosed_short (short_of goal_in goal.now) }
        ensures counters { result.counters ≡ self.entry.counters }
    {
        Around {
            enclosing: enclosing_by(goal),
            counters: self.counters,
        }
    }
}
