// Handles of regions, and what is made in them.

ghost use Rattle.std.specs.Prelude.{◌≡◌, IfOk};
ghost use Rattle.cyc_tree.specs.View.{expression_tree};
ghost use Rattle.source_meaning.specs.Expressions.{is_unique_region};
ghost use Rattle.source_typing.specs.Making.{array_made, handled, made};
ghost use Rattle.source_typing.specs.Scope.{Env};
ghost use Rattle.source_typing.specs.Types.{is_integer, is_makeable};
ghost use Rattle.check_faults.specs.Verdicts.{short_both, short_of, shortened};
ghost use Rattle.check_scopes.specs.Knows.{Sees};
ghost use Rattle.check_operators.specs.Goals.{goal_in};
ghost use Rattle.check_operators.specs.Values.{value_of};
ghost use Rattle.check_calls.specs.Enclosings.{enclosing_of};
ghost use Rattle.check_expressions.specs.Goals.{any_misfits, both_values, enclosed_short, is_short_no_handle, is_short_no_place, is_short_other};
ghost use Rattle.check_expressions.specs.Goals.{short_array, short_by_parts, short_goal, short_one};

use crate::parts::refused;
use check_calls::Enclosing;
use check_faults::Verdict;
use check_operators::{Goal, Value, array_made, handled, made};
use check_scopes::Scope;
use cyc_tree::Expression;
use std::alloc::{AllocError, Global};

/// Whether an expression is `unique_region`, also in parentheses.
pub fn is_unique_region(expression: &Expression) -> bool
    ensures { result ≡ is_unique_region (expression_tree expression.now) }
{
    match expression {
        Expression::UniqueRegion(_) => true,
        Expression::Grouped(_, inner) => is_unique_region(inner),
        _ => false,
    }
}

/// Where a handle makes, by whether it is `unique_region` and by what it is.
pub fn goal_part(scope: &Scope, is_unique: bool, handle: Verdict<Value>) -> Verdict<Goal>
    ensures { (g : Env) → Sees scope.now g → short_of goal_in result ≡ short_goal is_unique g (short_of value_of handle.entry) }
{
    if is_unique {
        return Verdict::Of(Goal::ToUnique);
    }
    match handle {
        Verdict::Of(value) => handled(scope, &value),
        Verdict::Wrong(fault) => Verdict::Wrong(fault),
        Verdict::NotJudged => Verdict::NotJudged,
    }
}

/// The `rnew` around what is made, by where it makes.
pub(crate) fn enclosing_by(goal: &Verdict<Goal>) -> Enclosing
    ensures { enclosing_of result ≡ enclosed_short (short_of goal_in goal.now) }
{
    match goal {
        Verdict::Of(Goal::To(region)) => Enclosing::In(*region),
        Verdict::Of(Goal::ToUnique) => Enclosing::Unique,
        _ => Enclosing::NotKnown,
    }
}

/// Whether what should be a handle is none.
fn is_no_handle(goal: &Verdict<Goal>) -> bool
    ensures { result ≡ is_short_no_handle (short_of goal_in goal.now) }
{
    matches!(goal, Verdict::Of(Goal::NoHandle))
}

/// Whether no array is made there: in the unique region, and by a handle that is none.
fn is_no_place_of_arrays(goal: &Verdict<Goal>) -> bool
    ensures { result ≡ is_short_no_place (short_of goal_in goal.now) }
{
    matches!(goal, Verdict::Of(Goal::ToUnique | Goal::NoHandle))
}

/// Whether a value is of a type that isn't made.
fn is_unmakeable(value: &Verdict<Value>) -> bool
    ensures { result ≡ is_short_other is_makeable (short_of value_of value.now) }
{
    match value {
        Verdict::Of(value) => !value.of.is_makeable(),
        _ => false,
    }
}

/// Whether a value is no integer.
fn is_no_integer(value: &Verdict<Value>) -> bool
    ensures { result ≡ is_short_other is_integer (short_of value_of value.now) }
{
    match value {
        Verdict::Of(value) => !value.of.is_integer(),
        _ => false,
    }
}

/// Whether a part of an array that is known is of no array that is made.
fn any_misfits(goal: &Verdict<Goal>, count: &Verdict<Value>, element: &Verdict<Value>) -> bool
    ensures { result ≡ any_misfits (short_of goal_in goal.now) (short_of value_of count.now) (short_of value_of element.now) }
{
    is_no_place_of_arrays(goal) || is_no_integer(count) || is_unmakeable(element)
}

/// What is answered of a making that isn't checked, since a part of it isn't: it has a fault where a part that is known is of no such making.
fn by_parts<'p>(at: u32, misfits: bool, made: Verdict<Value<'p>>) -> Verdict<Value<'p>>
    ensures { short_of value_of result ≡ short_by_parts at misfits (short_of value_of made.entry) }
{
    match made {
        Verdict::Of(value) => Verdict::Of(value),
        Verdict::Wrong(fault) => Verdict::Wrong(fault),
        Verdict::NotJudged if misfits => refused(at),
        Verdict::NotJudged => Verdict::NotJudged,
    }
}

/// Where a value is made, and what it is.
#[tactic(auto, using(check_faults::proofs::Shortened::pair_wrong, check_faults::proofs::Shortened::pair_not_judged))]
fn made_both<'p>(
    at: u32,
    goal: Verdict<Goal>,
    value: Verdict<Value<'p>>,
) -> Result<Verdict<Value<'p>>, AllocError>
    ensures { IfOk result (λ v. short_of value_of v
        ≡ short_both (short_of goal_in goal) (short_of value_of value.entry) (λ a b. shortened (made at a b))) }
{
    match goal.paired(value) {
        Verdict::Of((goal, value)) => made(at, goal, value),
        Verdict::Wrong(fault) => Ok(Verdict::Wrong(fault)),
        Verdict::NotJudged => Ok(Verdict::NotJudged),
    }
}

/// What is made of a value, by where it is made and what it is. A part of these that is known and is of no making has a fault here, whether or
/// not the other one is judged.
pub fn made_parts<'p>(
    at: u32,
    goal: Verdict<Goal>,
    value: Verdict<Value<'p>>,
) -> Result<Verdict<Value<'p>>, AllocError>
    ensures { IfOk result (λ v. short_of value_of v ≡ short_one at (short_of goal_in goal) (short_of value_of value.entry)) }
{
    let misfits = is_no_handle(&goal) || is_unmakeable(&value);
    let made = made_both(at, goal, value)?;
    Ok(by_parts(at, misfits, made))
}

/// Where an array is made, and what its count and element are.
#[tactic(auto, using(check_faults::proofs::Shortened::pair_wrong, check_faults::proofs::Shortened::pair_not_judged))]
fn array_both<'p>(
    at: u32,
    goal: Verdict<Goal>,
    elements: Verdict<(Value<'p>, Value<'p>)>,
) -> Result<Verdict<Value<'p>>, AllocError>
    ensures { IfOk result (λ v. short_of value_of v
        ≡ short_both (short_of goal_in goal) (short_of both_values elements.entry) (λ a b. shortened (array_made at a b))) }
{
    match goal.paired(elements) {
        Verdict::Of((goal, (count, element))) => array_made(at, goal, &count, element),
        Verdict::Wrong(fault) => Ok(Verdict::Wrong(fault)),
        Verdict::NotJudged => Ok(Verdict::NotJudged),
    }
}

/// An array that is made, by where it is made and what its count and element are. A part of these that is known and is of no such making is
/// at fault here, whether or not the others are judged.
pub fn array_parts<'p>(
    at: u32,
    goal: Verdict<Goal>,
    count: Verdict<Value<'p>>,
    element: Verdict<Value<'p>>,
) -> Result<Verdict<Value<'p>>, AllocError>
    ensures { IfOk result (λ v. short_of value_of v
        ≡ short_array at (short_of goal_in goal) (short_of value_of count.entry) (short_of value_of element.entry)) }
{
    let misfits = any_misfits(&goal, &count, &element);
    let made = array_both(at, goal, count.paired(element))?;
    Ok(by_parts(at, misfits, made))
}
