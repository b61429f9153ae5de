// What converts to what.

ghost use Rattle.std.specs.Prelude.{◌≡◌, IfOk};
ghost use Rattle.cyc_types.specs.Conversions.{outer_ordered, rule_of};
ghost use Rattle.cyc_types.specs.Types.{static_type};
ghost use Rattle.check_operators.specs.Pointers.{region_outside, regions_ordered};
ghost use Rattle.check_operators.specs.Values.{value_of};
ghost use Rattle.check_scopes.specs.Knows.{Sees};
ghost use Rattle.source_typing.specs.Conversions.{broken, converts};
ghost use Rattle.source_typing.specs.Faults.{earliest};
ghost use Rattle.source_typing.specs.Scope.{Env};
ghost use Rattle.check_faults.specs.Faults.{faults_of};

use crate::value::Value;
use check_faults::{Fault, FaultKind};
use check_scopes::Scope;
use cyc_types::{Broken, CType, Layer, RegionId};
use std::alloc::AllocError;

/// The rule that a conversion breaks, as a fault.
fn broken(at: u32, rule: Option<Broken>) -> Option<Fault>
    ensures { faults_of result ≡ earliest (broken at (rule_of rule)) }
{
    let kind = match rule {
        None => return None,
        Some(Broken::Typing) => FaultKind::Typing,
        Some(Broken::Region) => FaultKind::Region,
        Some(Broken::Outlives) => FaultKind::Outlives,
    };
    Some(Fault { kind, at })
}

/// The region that a type's outermost pointer leads into, where it has a name.
fn region_outside(pointer: Option<Layer>) -> Option<RegionId>
    ensures { result ≡ region_outside pointer }
{
    match pointer {
        Some(Layer::Thin(_, region) | Layer::Fat(region)) => Some(region),
        Some(Layer::Unique(_)) | None => None,
    }
}

/// Whether a region outlives another one, where there are both.
fn are_ordered(
    scope: &Scope,
    from: Option<RegionId>,
    to: Option<RegionId>,
) -> Result<bool, AllocError>
    ensures { (g : Env) → Sees scope.now g → IfOk result (λ b. regions_ordered g.regions b from to ≡ b) }
{
    match (from, to) {
        (Some(one), Some(other)) => scope.outlives(one, other),
        _ => Ok(true),
    }
}

/// The fault of a value that is converted to a type, if any.
pub fn converted(scope: &Scope, value: &Value, to: &CType) -> Result<Option<Fault>, AllocError>
    ensures { (g : Env) → Sees scope.now g → IfOk result (λ f. faults_of f ≡ earliest (converts g (value_of value.now) (static_type to.now))) }
{
    let here = region_outside(value.of.outer());
    let there = region_outside(to.outer());
    let outlives = are_ordered(scope, here, there)?;
    Ok(broken(value.at, value.of.conversion(to, outlives)))
}
