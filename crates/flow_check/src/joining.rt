// Operators and calls: their verdicts and summaries from those of their parts.

ghost use Rattle.std.specs.Prelude.{◌≡◌, IfOk, List, []};
ghost use Rattle.cyc_tree.specs.View.{name_tree};
ghost use Rattle.source_typing.specs.Calls.{called, target, union_made, union_tag};
ghost use Rattle.source_typing.specs.Operators.{applied, counted, tested_both};
ghost use Rattle.source_typing.specs.Places.{assigned};
ghost use Rattle.source_typing.specs.Scope.{Env, meant};
ghost use Rattle.check_faults.specs.Verdicts.{Is, short_after, short_both, short_of, shortened};
ghost use Rattle.check_scopes.specs.Knows.{Sees};
ghost use Rattle.check_operators.specs.Values.{value_of};
ghost use Rattle.check_expressions.specs.Joined.{one_more, values_of};
ghost use Rattle.check_expressions.specs.Within.{IsIn};
ghost use Rattle.flow_summaries.specs.Passages.{in_turn, in_turn_or_not, unchanged};
ghost use Rattle.flow_summaries.specs.Uses.{uses_as_value};
ghost use Rattle.flow_effects.specs.Passed.{passage_of};
ghost use Rattle.flow_effects.specs.declared.used.Usage.{Usage as TheUsage};
ghost use Rattle.flow_check.specs.Seen.{IsSeen};

use crate::seen::Seen;
use check_expressions::{
    Around, applied_parts, assigned_parts, call_part, counted_part, given_after, tested_parts,
    union_parts,
};
use check_faults::Verdict;
use check_operators::Value;
use check_scopes::Scope;
use cyc_tree::{Name, Operator};
use flow_effects::{Passed, Used};
use std::alloc::{AllocError, Global};

/// Two operands of an operator, one evaluated after the other.
pub(crate) fn applied<'p>(
    scope: &Scope<'_, 'p>,
    alloc: Global,
    operator: Operator,
    one: Seen<'p>,
    two: Seen<'p>,
) -> Result<Seen<'p>, AllocError>
    ensures judged { (g : Env) → Sees scope.now g → IfOk result (λ r. short_of value_of r.judged
        ≡ short_both (short_of value_of one.entry.judged) (short_of value_of two.entry.judged) (λ a b. shortened (applied g operator a b))) }
    ensures passed { IfOk result (λ r. passage_of r.used.passed ≡ in_turn (passage_of one.entry.used.passed) (passage_of two.entry.used.passed)) }
{
    let judged = applied_parts(scope, alloc, operator, one.judged, two.judged)?;
    let passed = one.used.passed.in_turn(two.used.passed);
    let used = Used::value(passed);
    Ok(Seen { judged, used })
}

/// Two operands of `&&` or `||`. The second may not be evaluated.
pub(crate) fn tested<'p>(alloc: Global, one: Seen<'p>, two: Seen<'p>) -> Seen<'p>
    ensures judged { short_of value_of result.judged
        ≡ short_both (short_of value_of one.entry.judged) (short_of value_of two.entry.judged) (λ a b. shortened (tested_both a b)) }
    ensures passed { passage_of result.used.passed ≡ in_turn_or_not (passage_of one.entry.used.passed) (passage_of two.entry.used.passed) }
{
    let judged = tested_parts(alloc, one.judged, two.judged);
    let passed = one.used.passed.in_turn_or_not(two.used.passed);
    let used = Used::value(passed);
    Seen { judged, used }
}

/// An assignment. The value is evaluated before its place.
pub(crate) fn assigned<'p>(
    scope: &Scope<'_, 'p>,
    alloc: Global,
    to: Seen<'p>,
    from: Seen<'p>,
) -> Result<Seen<'p>, AllocError>
    ensures { (g : Env) (how : TheUsage) → Sees scope.now g → IfOk result (IsSeen how
        (short_both (short_of value_of to.entry.judged) (short_of value_of from.entry.judged) (λ a b. shortened (assigned g a b)))
        (uses_as_value (in_turn (passage_of from.entry.used.passed) (passage_of to.entry.used.passed)))) }
{
    let judged = assigned_parts(scope, alloc, to.judged, from.judged)?;
    let passed = from.used.passed.in_turn(to.used.passed);
    let used = Used::value(passed);
    Ok(Seen { judged, used })
}

/// `numelts` of an operand.
pub(crate) fn counted<'p>(alloc: Global, at: u32, operand: Seen<'p>) -> Seen<'p>
    ensures { (how : TheUsage) → IsSeen how (short_after (short_of value_of operand.entry.judged) (λ a. shortened (counted at a)))
        (uses_as_value (passage_of operand.entry.used.passed)) result }
{
    let judged = counted_part(alloc, at, operand.judged);
    let used = Used::value(operand.used.passed);
    Seen { judged, used }
}

/// A value of a union that is made of a member's value.
pub(crate) fn made_union<'p>(
    scope: &Scope<'_, 'p>,
    alloc: Global,
    around: Around<'_>,
    tag: &Name,
    field: &Name,
    value: Seen<'p>,
) -> Result<Seen<'p>, AllocError>
    ensures { (g : Env) (how : TheUsage) → IsIn scope.now around.entry g → let x = name_tree tag.now in IfOk result (IsSeen how
        (short_both (shortened (union_tag x (name_tree field.now) (meant g x.text))) (short_of value_of value.entry.judged)
        (λ m a. shortened (union_made g x.at m a))) (uses_as_value (passage_of value.entry.used.passed))) }
{
    let judged = union_parts(scope, alloc, around, tag, field, value.judged)?;
    let used = Used::value(value.used.passed);
    Ok(Seen { judged, used })
}

/// The verdict and the summary of a call's first arguments.
#[derive(Drop)]
pub(crate) struct Given<'p> {
    values: Verdict<Vec<Value<'p>>>,
    passed: Passed,
}

impl<'p> Given<'p> {
    /// No argument.
    pub(crate) fn none(alloc: Global) -> Given<'p>
        ensures values { short_of (λ vs. values_of vs.items) result.values ≡ Is [] }
        ensures passed { passage_of result.passed ≡ unchanged }
    {
        Given {
            values: Verdict::Of(Vec::new(alloc)),
            passed: Passed::nothing(),
        }
    }

    /// One more argument.
    pub(crate) fn with(self, argument: Seen<'p>) -> Result<Given<'p>, AllocError>
        ensures values { IfOk result (λ r. short_of (λ vs. values_of vs.items) r.values
            ≡ short_both (short_of (λ vs. values_of vs.items) self.entry.values) (short_of value_of argument.entry.judged) one_more) }
        ensures passed { IfOk result (λ r. passage_of r.passed ≡ in_turn (passage_of self.entry.passed) (passage_of argument.entry.used.passed)) }
    {
        let values = given_after(self.values, argument.judged)?;
        let passed = self.passed.in_turn(argument.used.passed);
        Ok(Given { values, passed })
    }

    /// A call of a name with these arguments.
    pub(crate) fn call(
        self,
        scope: &Scope<'_, 'p>,
        alloc: Global,
        around: Around<'_>,
        name: &Name,
    ) -> Result<Seen<'p>, AllocError>
        ensures { (g : Env) (how : TheUsage) → IsIn scope.now around.entry g → let x = name_tree name.now in IfOk result (IsSeen how
            (short_both (shortened (target x.at (meant g x.text))) (short_of (λ vs. values_of vs.items) self.entry.values)
            (λ t vs. shortened (called g x.at t vs))) (uses_as_value (passage_of self.entry.passed))) }
    {
        let judged = call_part(scope, alloc, around, name, self.values)?;
        let used = Used::value(self.passed);
        Ok(Seen { judged, used })
    }
}
