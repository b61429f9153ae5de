// Allocations: their verdicts and summaries from those of their parts.

ghost use Rattle.std.specs.Prelude.{◌≡◌, IfOk};
ghost use Rattle.check_faults.specs.Verdicts.{short_of};
ghost use Rattle.check_operators.specs.Goals.{goal_in};
ghost use Rattle.check_operators.specs.Values.{value_of};
ghost use Rattle.check_expressions.specs.Goals.{short_array, short_one};
ghost use Rattle.flow_summaries.specs.Passages.{in_turn, repeated};
ghost use Rattle.flow_summaries.specs.Uses.{uses_as_value};
ghost use Rattle.flow_effects.specs.Passed.{passage_of};
ghost use Rattle.flow_effects.specs.declared.used.Usage.{Usage as TheUsage};
ghost use Rattle.flow_check.specs.Seen.{IsSeen};

use crate::seen::Seen;
use check_expressions::{array_parts, made_parts};
use check_faults::Verdict;
use check_operators::Goal;
use flow_effects::{Passed, Used};
use std::alloc::AllocError;

/// An allocation of one value.
pub(crate) fn made_one<'p>(
    at: u32,
    goal: Verdict<Goal>,
    handle: Passed,
    value: Seen<'p>,
) -> Result<Seen<'p>, AllocError>
    ensures { (how : TheUsage) → IfOk result (IsSeen how
        (short_one at (short_of goal_in goal) (short_of value_of value.entry.judged))
        (uses_as_value (in_turn (passage_of handle) (passage_of value.entry.used.passed)))) }
{
    let judged = made_parts(at, goal, value.judged)?;
    let passed = handle.in_turn(value.used.passed);
    let used = Used::value(passed);
    Ok(Seen { judged, used })
}

/// An allocation of an array comprehension. Its index is the local number `locals`.
pub(crate) fn made_array<'p>(
    at: u32,
    goal: Verdict<Goal>,
    handle: Passed,
    count: Seen<'p>,
    locals: usize,
    element: Seen<'p>,
) -> Result<Seen<'p>, AllocError>
    ensures { (how : TheUsage) → IfOk result (IsSeen how
        (short_array at (short_of goal_in goal) (short_of value_of count.entry.judged) (short_of value_of element.entry.judged))
        (uses_as_value (in_turn (in_turn (passage_of handle) (passage_of count.entry.used.passed))
        (repeated locals (passage_of element.entry.used.passed))))) }
{
    let judged = array_parts(at, goal, count.judged, element.judged)?;
    let elements = element.used.passed.repeated(locals);
    let passed = handle.in_turn(count.used.passed).in_turn(elements);
    let used = Used::value(passed);
    Ok(Seen { judged, used })
}
