// Conditions, and statements that leave a loop or a function.

ghost use Rattle.std.specs.Prelude.{◌≡◌, IfOk, None, Some, false, option_map};
ghost use Rattle.cyc_tree.specs.View.{expression_tree};
ghost use Rattle.cyc_types.specs.Types.{static_type};
ghost use Rattle.source_typing.specs.Faults.{earliest, test, type_rule};
ghost use Rattle.source_typing.specs.Scope.{Env};
ghost use Rattle.source_typing.specs.Statements.{condition, condition_faults, returned};
ghost use Rattle.source_typing.specs.Scope as rules_scope;
ghost use Rattle.source_typing.specs.Verdicts as rules;
ghost use Rattle.source_typing.specs.Expressions.{judge};
ghost use Rattle.check_faults.specs.Faults.{faults_of};
ghost use Rattle.check_faults.specs.Verdicts.{short_of, shortened};
ghost use Rattle.check_scopes.specs.Knows.{Knows};
ghost use Rattle.check_operators.specs.Values.{value_of};

use check_expressions::judge;
use check_faults::{Fault, FaultKind, Verdict};
use check_operators::{Value, condition, converted};
use check_scopes::Scope;
use cyc_tree::Expression;
use cyc_types::CType;
use std::alloc::{AllocError, Global};

/// A phrase of a wrong form, unless it fits.
pub(crate) fn unless(fits: bool, at: u32) -> Option<Fault>
    ensures { faults_of result ≡ earliest (test fits type_rule at) }
{
    if fits {
        None
    } else {
        Some(Fault {
            kind: FaultKind::Typing,
            at,
        })
    }
}

/// A condition that was judged, at its place.
fn tested<'p>(judged: Verdict<Value<'p>>, at: u32) -> Verdict<Value<'p>>
    ensures { (v : rules.Verdict rules_scope.Value) → short_of value_of judged.entry ≡ shortened v
        → short_of value_of result ≡ shortened (rules.after v (condition at)) }
{
    match judged {
        Verdict::Of(value) => condition(at, value),
        Verdict::Wrong(fault) => Verdict::Wrong(fault),
        Verdict::NotJudged => Verdict::NotJudged,
    }
}

/// The earliest fault of the condition of an `if` or a loop.
#[tactic(auto, using(check_heads::proofs::Answered::fault_is))]
pub(crate) fn condition_fault(
    scope: &Scope<'_, '_>,
    alloc: Global,
    of: &Expression,
) -> Result<Option<Fault>, AllocError>
    ensures { (g : Env) → Knows scope.now g
        → IfOk result (λ f. faults_of f ≡ earliest (condition_faults g (expression_tree of.now))) }
{
    let judged = judge(scope, alloc, of)?;
    Ok(tested(judged, of.place()).fault())
}

/// The earliest fault of an expression that stands as a statement.
#[tactic(auto, using(check_heads::proofs::Answered::fault_is))]
pub(crate) fn expression_fault(
    scope: &Scope<'_, '_>,
    alloc: Global,
    of: &Expression,
) -> Result<Option<Fault>, AllocError>
    ensures { (g : Env) → Knows scope.now g
        → IfOk result (λ f. faults_of f ≡ earliest (rules.faults_of (judge g (expression_tree of.now)))) }
{
    let judged = judge(scope, alloc, of)?;
    Ok(judged.fault())
}

/// The fault of a `return` without a result.
fn none_returned(at: u32, result_type: Option<&CType<'_>>) -> Option<Fault>
    ensures { (g : Env) → faults_of result ≡ earliest (returned g at (option_map (λ t. static_type t.now) result_type.entry) None) }
{
    match result_type {
        Some(of) => unless(of.is_void(), at),
        None => None,
    }
}

/// The earliest fault of a value that is returned where a type is given.
fn value_returned<'p>(
    scope: &Scope<'_, 'p>,
    at: u32,
    of: &CType<'p>,
    value: &Value<'p>,
) -> Result<Option<Fault>, AllocError>
    ensures { (g : Env) → Knows scope.now g
        → IfOk result (λ f. faults_of f ≡ earliest (returned g at (Some (static_type of.now)) (Some (rules.Of (value_of value.now))))) }
{
    if of.is_void() {
        Ok(unless(false, at))
    } else {
        converted(scope, value, of)
    }
}

/// The earliest fault of a `return` with what its result was judged to be.
fn some_returned<'p>(
    scope: &Scope<'_, 'p>,
    at: u32,
    result_type: Option<&CType<'p>>,
    judged: Verdict<Value<'p>>,
) -> Result<Option<Fault>, AllocError>
    ensures { (g : Env) (v : rules.Verdict rules_scope.Value) → Knows scope.now g → short_of value_of judged.entry ≡ shortened v
        → IfOk result (λ f. faults_of f ≡ earliest (returned g at (option_map (λ t. static_type t.now) result_type.entry) (Some v))) }
{
    match (judged, result_type) {
        (Verdict::Wrong(fault), _) => Ok(Some(fault)),
        (Verdict::Of(value), Some(of)) => value_returned(scope, at, of, &value),
        (Verdict::NotJudged, Some(of)) => Ok(unless(!of.is_void(), at)),
        (Verdict::Of(_) | Verdict::NotJudged, None) => Ok(None),
    }
}

/// The earliest fault of a `return`.
pub(crate) fn return_fault<'p>(
    scope: &Scope<'_, 'p>,
    alloc: Global,
    at: u32,
    result_type: Option<&CType<'p>>,
    value: &Option<Expression>,
) -> Result<Option<Fault>, AllocError>
    ensures { (g : Env) → Knows scope.now g → IfOk result (λ f. faults_of f ≡ earliest (returned g at
        (option_map (λ t. static_type t.now) result_type.entry) (option_map (λ e. judge g (expression_tree e)) value.now))) }
{
    match value {
        None => Ok(none_returned(at, result_type)),
        Some(value) => {
            let judged = judge(scope, alloc, value)?;
            some_returned(scope, at, result_type, judged)
        }
    }
}
