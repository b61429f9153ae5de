// The verdict and the summary of an expression.

ghost use Rattle.std.specs.Prelude.{◌≡◌};
ghost use Rattle.check_faults.specs.Verdicts.{Short, short_after, short_of, shortened};
ghost use Rattle.check_operators.specs.Values.{value_of};
ghost use Rattle.flow_check.specs.Seen.{IsSeen};
ghost use Rattle.flow_effects.specs.declared.used.Usage.{Usage as TheUsage};
ghost use Rattle.flow_summaries.specs.Passages.{Passage};
ghost use Rattle.flow_summaries.specs.Uses.{Uses, uses_as_value};
ghost use Rattle.flow_effects.specs.Passed.{passage_of};
ghost use Rattle.source_typing.specs.Places.{grouped};
ghost use Rattle.source_typing.specs.Scope.{Value as TheValue};

use check_faults::Verdict;
use check_operators::{Value, grouped};
use flow_effects::Used;

/// The verdict of an expression, and its summary where it is used in one way.
#[derive(Drop)]
pub(crate) struct Seen<'p> {
    pub(crate) judged: Verdict<Value<'p>>,
    pub(crate) used: Used,
}

/// The verdict of an expression in parentheses, which begins at `at`.
fn grouped_value<'p>(at: u32, inner: Verdict<Value<'p>>) -> Verdict<Value<'p>>
    ensures { short_of value_of result ≡ short_after (short_of value_of inner.entry) (λ a. shortened (grouped at a)) }
{
    match inner {
        Verdict::Of(value) => grouped(at, value),
        Verdict::Wrong(fault) => Verdict::Wrong(fault),
        Verdict::NotJudged => Verdict::NotJudged,
    }
}

impl<'p> Seen<'p> {
    /// The same expression as a value that is no place.
    pub(crate) fn as_value(self) -> Seen<'p>
        ensures { (how : TheUsage) (p : Passage) → passage_of self.entry.used.passed ≡ p
            → IsSeen how (short_of value_of self.entry.judged) (uses_as_value p) result }
    {
        let Seen { judged, used } = self;
        let used = Used::value(used.passed);
        Seen { judged, used }
    }

    /// The same expression in parentheses.
    pub(crate) fn grouped(self, at: u32) -> Seen<'p>
        ensures { (how : TheUsage) (s : Short TheValue) (u : Uses) → IsSeen how s u self.entry
            → IsSeen how (short_after s (λ a. shortened (grouped at a))) u result }
    {
        let Seen { judged, used } = self;
        Seen {
            judged: grouped_value(at, judged),
            used,
        }
    }
}
