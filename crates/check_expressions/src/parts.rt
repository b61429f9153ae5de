// What expressions are, by what their parts are.

ghost use Rattle.std.specs.Prelude.{◌≡◌, IfOk};
ghost use Rattle.cyc_tree.specs.View.{name_tree};
ghost use Rattle.source_typing.specs.Operators.{applied, counted, prefixed, tested_both};
ghost use Rattle.source_typing.specs.Places.{assigned, grouped};
ghost use Rattle.source_typing.specs.Calls.{called, target, union_made, union_tag};
ghost use Rattle.source_typing.specs.Scope.{Env, meant};
ghost use Rattle.source_typing.specs.Faults.{fault, type_rule};
ghost use Rattle.check_faults.specs.Verdicts.{Wrong, short_after, short_both, short_of, shortened};
ghost use Rattle.check_scopes.specs.Knows.{Sees};
ghost use Rattle.check_operators.specs.Values.{value_of};
ghost use Rattle.check_calls.specs.Enclosings.{enclosing_of};
ghost use Rattle.check_calls.specs.Targets.{target_of};
ghost use Rattle.check_calls.specs.Unions.{made_of};
ghost use Rattle.check_expressions.specs.Within.{IsIn};
ghost use Rattle.check_expressions.specs.Joined.{one_more, values_of};

use crate::around::{Around, meaning};
use check_calls::{Enclosing, Target, UnionMember, called, called_target, union_made, union_tag};
use check_faults::{Fault, FaultKind, Verdict};
use check_operators::{Value, applied, assigned, counted, grouped, prefixed, tested_both};
use check_scopes::Scope;
use cyc_tree::{Name, Operator, Prefix};
use std::alloc::{AllocError, Global};

/// A construct that is a fault everywhere.
pub(crate) fn refused<'p>(at: u32) -> Verdict<Value<'p>>
    ensures { short_of value_of result ≡ Wrong (fault type_rule at) }
{
    Verdict::Wrong(Fault {
        kind: FaultKind::Typing,
        at,
    })
}

/// An operator before an operand.
pub fn prefixed_part<'p>(
    scope: &Scope<'_, 'p>,
    alloc: Global,
    at: u32,
    operator: Prefix,
    operand: Verdict<Value<'p>>,
) -> Result<Verdict<Value<'p>>, AllocError>
    ensures { (g : Env) → Sees scope.now g
        → IfOk result (λ v. short_of value_of v ≡ short_after (short_of value_of operand.entry) (λ a. shortened (prefixed g at operator a))) }
{
    match operand {
        Verdict::Of(value) => prefixed(scope, alloc, at, operator, value),
        Verdict::Wrong(fault) => Ok(Verdict::Wrong(fault)),
        Verdict::NotJudged => Ok(Verdict::NotJudged),
    }
}

/// An expression in parentheses.
pub(crate) fn grouped_part<'p>(at: u32, inner: Verdict<Value<'p>>) -> Verdict<Value<'p>>
    ensures { short_of value_of result ≡ short_after (short_of value_of inner.entry) (λ a. shortened (grouped at a)) }
{
    match inner {
        Verdict::Of(value) => grouped(at, value),
        Verdict::Wrong(fault) => Verdict::Wrong(fault),
        Verdict::NotJudged => Verdict::NotJudged,
    }
}

/// Two operands of an operator.
#[tactic(auto, using(check_faults::proofs::Shortened::pair_wrong, check_faults::proofs::Shortened::pair_not_judged))]
pub fn applied_parts<'p>(
    scope: &Scope<'_, 'p>,
    alloc: Global,
    operator: Operator,
    one: Verdict<Value<'p>>,
    two: Verdict<Value<'p>>,
) -> Result<Verdict<Value<'p>>, AllocError>
    ensures { (g : Env) → Sees scope.now g → IfOk result
        (λ v. short_of value_of v ≡ short_both (short_of value_of one.entry) (short_of value_of two.entry) (λ a b. shortened (applied g operator a b))) }
{
    match one.paired(two) {
        Verdict::Of((one, two)) => applied(scope, alloc, operator, one, two),
        Verdict::Wrong(fault) => Ok(Verdict::Wrong(fault)),
        Verdict::NotJudged => Ok(Verdict::NotJudged),
    }
}

/// Two operands of `&&` or `||`.
#[tactic(auto, using(check_faults::proofs::Shortened::pair_known, check_faults::proofs::Shortened::pair_wrong, check_faults::proofs::Shortened::pair_not_judged))]
pub fn tested_parts<'p>(
    alloc: Global,
    one: Verdict<Value<'p>>,
    two: Verdict<Value<'p>>,
) -> Verdict<Value<'p>>
    ensures { short_of value_of result ≡ short_both (short_of value_of one.entry) (short_of value_of two.entry) (λ a b. shortened (tested_both a b)) }
{
    match one.paired(two) {
        Verdict::Of((one, two)) => tested_both(alloc, one, two),
        Verdict::Wrong(fault) => Verdict::Wrong(fault),
        Verdict::NotJudged => Verdict::NotJudged,
    }
}

/// A place, and what is assigned to it.
#[tactic(auto, using(check_faults::proofs::Shortened::pair_wrong, check_faults::proofs::Shortened::pair_not_judged))]
pub fn assigned_parts<'p>(
    scope: &Scope<'_, 'p>,
    alloc: Global,
    to: Verdict<Value<'p>>,
    from: Verdict<Value<'p>>,
) -> Result<Verdict<Value<'p>>, AllocError>
    ensures { (g : Env) → Sees scope.now g → IfOk result
        (λ v. short_of value_of v ≡ short_both (short_of value_of to.entry) (short_of value_of from.entry) (λ a b. shortened (assigned g a b))) }
{
    match to.paired(from) {
        Verdict::Of((to, from)) => assigned(scope, alloc, to, from),
        Verdict::Wrong(fault) => Ok(Verdict::Wrong(fault)),
        Verdict::NotJudged => Ok(Verdict::NotJudged),
    }
}

/// What is called, and its arguments.
#[tactic(auto, using(check_faults::proofs::Shortened::pair_wrong, check_faults::proofs::Shortened::pair_not_judged))]
fn called_parts<'p>(
    scope: &Scope<'_, 'p>,
    alloc: Global,
    enclosing: Enclosing,
    at: u32,
    callee: Verdict<Target<'_, 'p>>,
    given: Verdict<Vec<Value<'p>>>,
) -> Result<Verdict<Value<'p>>, AllocError>
    ensures { (g : Env) → Sees scope.now g → g.enclosing ≡ enclosing_of enclosing → IfOk result
        (λ v. short_of value_of v
        ≡ short_both (short_of target_of callee.entry) (short_of (λ vs. values_of vs.items) given.entry) (λ t vs. shortened (called g at t vs))) }
{
    match callee.paired(given) {
        Verdict::Of((callee, given)) => {
            called(scope, alloc, enclosing, at, callee, given.as_slice())
        }
        Verdict::Wrong(fault) => Ok(Verdict::Wrong(fault)),
        Verdict::NotJudged => Ok(Verdict::NotJudged),
    }
}

/// A call of a name with these arguments.
pub fn call_part<'p>(
    scope: &Scope<'_, 'p>,
    alloc: Global,
    around: Around<'_>,
    name: &Name,
    given: Verdict<Vec<Value<'p>>>,
) -> Result<Verdict<Value<'p>>, AllocError>
    ensures { (g : Env) → IsIn scope.now around.entry g → let x = name_tree name.now in IfOk result
        (λ v. short_of value_of v
        ≡ short_both (shortened (target x.at (meant g x.text))) (short_of (λ vs. values_of vs.items) given.entry) (λ t vs. shortened (called g x.at t vs))) }
{
    let named = meaning(scope, around, &name.text);
    let callee = called_target(scope.tables, name.at, &name.text, named);
    called_parts(scope, alloc, around.enclosing, name.at, callee, given)
}

/// Arguments, and one after them.
#[tactic(auto, using(check_faults::proofs::Shortened::pair_wrong, check_faults::proofs::Shortened::pair_not_judged))]
pub fn given_after<'p>(
    given: Verdict<Vec<Value<'p>>>,
    argument: Verdict<Value<'p>>,
) -> Result<Verdict<Vec<Value<'p>>>, AllocError>
    ensures { IfOk result (λ v. short_of (λ vs. values_of vs.items) v
        ≡ short_both (short_of (λ vs. values_of vs.items) given.entry) (short_of value_of argument.entry) one_more) }
{
    match given.paired(argument) {
        Verdict::Of((mut given, argument)) => {
            given.push(argument)?;
            Ok(Verdict::Of(given))
        }
        Verdict::Wrong(fault) => Ok(Verdict::Wrong(fault)),
        Verdict::NotJudged => Ok(Verdict::NotJudged),
    }
}

/// The count of elements of an operand.
pub fn counted_part<'p>(alloc: Global, at: u32, operand: Verdict<Value<'p>>) -> Verdict<Value<'p>>
    ensures { short_of value_of result ≡ short_after (short_of value_of operand.entry) (λ a. shortened (counted at a)) }
{
    match operand {
        Verdict::Of(value) => counted(alloc, at, &value),
        Verdict::Wrong(fault) => Verdict::Wrong(fault),
        Verdict::NotJudged => Verdict::NotJudged,
    }
}

/// The member of a union that a value is made of, and its value.
#[tactic(auto, using(check_faults::proofs::Shortened::pair_wrong, check_faults::proofs::Shortened::pair_not_judged))]
fn made_union<'p>(
    scope: &Scope<'_, 'p>,
    alloc: Global,
    enclosing: Enclosing,
    at: u32,
    member: Verdict<UnionMember<'_, 'p>>,
    value: Verdict<Value<'p>>,
) -> Result<Verdict<Value<'p>>, AllocError>
    ensures { (g : Env) → Sees scope.now g → g.enclosing ≡ enclosing_of enclosing → IfOk result
        (λ v. short_of value_of v
        ≡ short_both (short_of made_of member.entry) (short_of value_of value.entry) (λ m a. shortened (union_made g at m a))) }
{
    match member.paired(value) {
        Verdict::Of((member, value)) => union_made(scope, alloc, enclosing, at, member, value),
        Verdict::Wrong(fault) => Ok(Verdict::Wrong(fault)),
        Verdict::NotJudged => Ok(Verdict::NotJudged),
    }
}

/// A value of a union that is made of a member's value.
pub fn union_parts<'p>(
    scope: &Scope<'_, 'p>,
    alloc: Global,
    around: Around<'_>,
    tag: &Name,
    field: &Name,
    value: Verdict<Value<'p>>,
) -> Result<Verdict<Value<'p>>, AllocError>
    ensures { (g : Env) → IsIn scope.now around.entry g → IfOk result (λ v. short_of value_of v
        ≡ short_both (shortened (union_tag (name_tree tag.now) (name_tree field.now) (meant g tag.now.text.items))) (short_of value_of value.entry)
        (λ m a. shortened (union_made g tag.now.at m a))) }
{
    let named = meaning(scope, around, &tag.text);
    let member = union_tag(scope.tables, tag, field, named);
    made_union(scope, alloc, around.enclosing, tag.at, member, value)
}
