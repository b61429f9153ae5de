// A primary expression with suffixes.

ghost use Rattle.std.specs.Prelude.{◌≡◌};
ghost use Rattle.cyc_types.specs.Sameness.{HasTags};
ghost use Rattle.check_operators.specs.Values.{value_of};
ghost use Rattle.flow_summaries.specs.Passages.{Passage};
ghost use Rattle.flow_summaries.specs.Uses.{Uses, uses_as_place};
ghost use Rattle.source_typing.specs.Scope as rules_scope;
ghost use Rattle.check_faults.specs.Verdicts.{Short, short_of};
ghost use Rattle.flow_effects.specs.Passed.{passage_of};
ghost use Rattle.flow_check.specs.Seen.{IsSeen};
ghost use Rattle.flow_check.specs.Short.{is_moved_short};
ghost use Rattle.flow_check.specs.Suffixed.{IsSuffixed};

use crate::facts::is_moved;
use crate::seen::Seen;
use check_faults::Verdict;
use check_operators::Value;
use cyc_types::Tables;
use flow_effects::{Passed, Usage, Used};

/// A primary expression with suffixes: its verdict, and its summary where it is only looked at.
#[derive(Drop)]
pub(crate) struct Suffixed<'p> {
    pub(crate) judged: Verdict<Value<'p>>,
    pub(crate) look: Used,
    /// Where the text before the last suffix begins.
    pub(crate) at: u32,
    /// Whether its value can't be copied. It is a fault to move it out of there.
    pub(crate) moves: bool,
}

impl<'p> Suffixed<'p> {
    /// A place that is a part of the value of what stands before the last suffix. `own` tells whether it is a part of a noncopyable local.
    pub(crate) fn of(
        tables: &Tables<'p>,
        at: u32,
        judged: Verdict<Value<'p>>,
        own: bool,
        passed: Passed,
    ) -> Suffixed<'p>
        ensures { (g : rules_scope.Env) (p : Passage) → HasTags tables.now g.tables → passage_of passed ≡ p
            → IsSuffixed (short_of value_of judged.entry) (uses_as_place at (is_moved_short g (short_of value_of judged.entry)) own p) result }
    {
        let moves = is_moved(tables, &judged);
        Suffixed {
            judged,
            look: Used {
                passed,
                whole: false,
                own,
            },
            at,
            moves,
        }
    }

    /// The same expression where it is used in this way.
    pub(crate) fn seen(self, how: Usage) -> Seen<'p>
        ensures { (s : Short rules_scope.Value) (u : Uses) → IsSuffixed s u self.entry → IsSeen how s u result }
    {
        let own = self.look.own;
        Seen {
            judged: self.judged,
            used: Used::place(how, self.at, self.moves, own, self.look.passed),
        }
    }
}
