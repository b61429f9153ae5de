// Assignments.

ghost use Rattle.std.specs.Prelude.{◌≡◌, IfOk, List};
ghost use Rattle.cyc_types.specs.Types.{static_type};
ghost use Rattle.check_operators.specs.Values.{seat_of, value_of};
ghost use Rattle.check_scopes.specs.Knows.{Sees};
ghost use Rattle.source_typing.specs.Faults.{earliest};
ghost use Rattle.source_typing.specs.Places.{assigned, assigned_type};
ghost use Rattle.source_typing.specs.Scope.{Env, is_place};
ghost use Rattle.source_typing.specs.Verdicts.{unless_faulty};
ghost use Rattle.check_faults.specs.Faults.{faults_of};
ghost use Rattle.check_faults.specs.Verdicts.{short_of, shortened};
ghost use Rattle.source_typing.specs.Faults as rules;
ghost use Rattle.source_typing.specs.Scope as judged;
ghost use Rattle.source_typing.specs.Verdicts as verdict;

use crate::conversion::converted;
use crate::kind::keeps_value;
use crate::value::{Seat, Value, plain, refused};
use check_faults::{Fault, FaultKind, Verdict};
use check_scopes::Scope;
use cyc_types::{BaseType, CType};
use std::alloc::{AllocError, Global};

/// Whether it is a place.
fn is_place(seat: Seat) -> bool
    ensures { result ≡ is_place (seat_of seat) }
{
    !matches!(seat, Seat::Nowhere)
}

/// The type of an assignment's value: the place's, where it has a value.
#[tactic(auto, using(crate::proofs::Assigning::assigned_is))]
fn assigned_type<'p>(alloc: Global, of: CType<'p>) -> CType<'p>
    ensures { (g : Env) → static_type result ≡ assigned_type g (static_type of.entry) }
{
    if keeps_value(&of) {
        of
    } else {
        CType::plain(alloc, BaseType::Void)
    }
}

/// A fault, or else what is said.
fn unless_faulty<'p>(fault: Option<Fault>, value: Verdict<Value<'p>>) -> Verdict<Value<'p>>
    ensures { (fs : List rules.Fault) (v : verdict.Verdict judged.Value) → faults_of fault ≡ earliest fs → short_of value_of value.entry ≡ shortened v
        → short_of value_of result ≡ shortened (unless_faulty fs v) }
{
    match fault {
        Some(fault) => Verdict::Wrong(fault),
        None => value,
    }
}

/// An assignment.
pub fn assigned<'p>(
    scope: &Scope,
    alloc: Global,
    to: Value<'p>,
    from: Value<'p>,
) -> Result<Verdict<Value<'p>>, AllocError>
    ensures { (g : Env) → Sees scope.now g
        → IfOk result (λ v. short_of value_of v ≡ shortened (assigned g (value_of to.entry) (value_of from.entry))) }
{
    if !is_place(to.seat) {
        return Ok(refused(FaultKind::Typing, to.at));
    }
    let fault = converted(scope, &from, &to.of)?;
    let value = plain(to.at, assigned_type(alloc, to.of));
    Ok(unless_faulty(fault, value))
}
