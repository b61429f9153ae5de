// Exchanges `a :=: b`.

ghost use Rattle.std.specs.Prelude.{◌≡◌, ◌++◌, IfOk, List};
ghost use Rattle.cyc_tree.specs.View.{expression_tree};
ghost use Rattle.source_typing.specs.Exchanges.{acts, exchangeable, exchanged};
ghost use Rattle.source_typing.specs.Expressions.{judge};
ghost use Rattle.source_typing.specs.Faults.{earliest};
ghost use Rattle.source_typing.specs.Scope.{Env, is_place};
ghost use Rattle.check_faults.specs.Faults.{faults_of};
ghost use Rattle.check_scopes.specs.Knows.{Knows};
ghost use Rattle.check_operators.specs.Values.{value_of};
ghost use Rattle.source_typing.specs.Faults as rules;
ghost use Rattle.source_typing.specs.Verdicts as verdict;

use crate::acts::act_in;
use crate::returning::unless;
use check_expressions::judge;
use check_faults::{Fault, Verdict, sooner};
use check_operators::{Seat, Value};
use check_scopes::Scope;
use cyc_tree::Expression;
use std::alloc::{AllocError, Global};

/// Whether it is a place.
fn is_place(value: &Value) -> bool
    ensures { result ≡ is_place (value_of value.now).seat }
{
    !matches!(value.seat, Seat::Nowhere)
}

/// Whether these are two places of one scalar type that is no key's.
fn are_exchangeable(left: &Value, right: &Value) -> bool
    ensures { result ≡ exchangeable (value_of left.now) (value_of right.now) }
{
    is_place(left)
        && is_place(right)
        && left.of.is_same(&right.of)
        && left.of.is_scalar()
        && !left.of.is_key()
}

/// The fault of an exchange of what is in order: a call, making or assignment in it, or else that these aren't two such places.
fn exchanged_fault(inside: Option<Fault>, left: &Value, right: &Value) -> Option<Fault>
    ensures { (fs : List rules.Fault) → faults_of inside ≡ earliest fs
        → faults_of result ≡ earliest (verdict.faults_of (exchanged fs (value_of left.now) (value_of right.now))) }
{
    match inside {
        Some(fault) => Some(fault),
        None => unless(are_exchangeable(left, right), left.at),
    }
}

/// The earliest fault of an exchange of two places.
pub(crate) fn exchange_fault(
    scope: &Scope<'_, '_>,
    alloc: Global,
    left: &Expression,
    right: &Expression,
) -> Result<Option<Fault>, AllocError>
    ensures { (g : Env) → Knows scope.now g
        → let a = expression_tree left.now in
        let b = expression_tree right.now in
        IfOk result (λ f. faults_of f ≡ earliest (verdict.faults_of (verdict.both (judge g a) (judge g b) (exchanged (acts a ++ acts b))))) }
{
    let first = judge(scope, alloc, left)?;
    let second = judge(scope, alloc, right)?;
    match first.paired(second) {
        Verdict::Of((first, second)) => {
            let inside = sooner(act_in(left), act_in(right));
            Ok(exchanged_fault(inside, &first, &second))
        }
        Verdict::Wrong(fault) => Ok(Some(fault)),
        Verdict::NotJudged => Ok(None),
    }
}
