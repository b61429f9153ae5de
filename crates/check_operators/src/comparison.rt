// Pointers that are compared.

ghost use Rattle.std.specs.Prelude.{◌≡◌, ◌||◌, ◌++◌, IfOk};
ghost use Rattle.cyc_types.specs.Regions.{region_of};
ghost use Rattle.cyc_types.specs.Types.{static_type};
ghost use Rattle.check_operators.specs.Operating.{compared_by};
ghost use Rattle.check_operators.specs.Pointers.{thin_regions};
ghost use Rattle.check_operators.specs.Values.{value_of};
ghost use Rattle.check_scopes.specs.Knows.{Sees};
ghost use Rattle.source_typing.specs.Operators.{compared, compared_thin};
ghost use Rattle.source_typing.specs.Scope.{Env, outlives};
ghost use Rattle.check_faults.specs.Verdicts.{short_of, shortened};

use crate::value::{Value, fitting, plain, refused};
use check_faults::{FaultKind, Verdict};
use check_scopes::Scope;
use cyc_types::{BaseType, CType, Layer, RegionId};
use std::alloc::{AllocError, Global};

/// Whether one of two regions outlives the other.
fn are_ordered(scope: &Scope, one: RegionId, other: RegionId) -> Result<bool, AllocError>
    ensures { (g : Env) → Sees scope.now g
        → IfOk result (λ b. b ≡ (outlives g (region_of one) (region_of other) || outlives g (region_of other) (region_of one))) }
{
    if scope.outlives(one, other)? {
        Ok(true)
    } else {
        scope.outlives(other, one)
    }
}

/// Two thin pointers to one type, by whether their regions are ordered, and live.
fn compared_by<'p>(alloc: Global, at: u32, are_ordered: bool, are_live: bool) -> Verdict<Value<'p>>
    ensures { short_of value_of result ≡ shortened (compared_by are_ordered are_live at) }
{
    if !are_live {
        refused(FaultKind::Region, at)
    } else if !are_ordered {
        refused(FaultKind::Outlives, at)
    } else {
        plain(at, CType::plain(alloc, BaseType::Int))
    }
}

/// Two thin pointers into these regions, by whether they lead to one type.
#[tactic(auto, using(crate::proofs::Applying::tests_compared))]
fn compared_thin<'p>(
    scope: &Scope,
    alloc: Global,
    at: u32,
    are_same: bool,
    one: RegionId,
    other: RegionId,
) -> Result<Verdict<Value<'p>>, AllocError>
    ensures { (g : Env) → Sees scope.now g
        → IfOk result (λ v. short_of value_of v ≡ shortened (compared_thin g at are_same (region_of one) (region_of other))) }
{
    if !are_same {
        return Ok(refused(FaultKind::Typing, at));
    }
    let are_live = scope.is_live(one) && scope.is_live(other);
    let are_ordered = are_ordered(scope, one, other)?;
    Ok(compared_by(alloc, at, are_ordered, are_live))
}

/// The regions of two thin pointers.
fn thin_regions(one: Option<Layer>, two: Option<Layer>) -> Option<(RegionId, RegionId)>
    ensures { result ≡ thin_regions one two }
{
    match (one, two) {
        (Some(Layer::Thin(_, here)), Some(Layer::Thin(_, there))) => Some((here, there)),
        _ => None,
    }
}

/// `==` and `!=` on what isn't two integers.
#[tactic(auto, using(crate::proofs::Applying::others_compared))]
pub(crate) fn compared<'p>(
    scope: &Scope,
    alloc: Global,
    one: Value<'p>,
    two: Value<'p>,
) -> Result<Verdict<Value<'p>>, AllocError>
    ensures { (g : Env) → Sees scope.now g
        → IfOk result (λ v. short_of value_of v ≡ shortened (compared g one.entry.at (static_type one.entry.of) (static_type two.entry.of))) }
{
    match thin_regions(one.of.outer(), two.of.outer()) {
        Some((here, there)) => {
            let are_same = one.of.into_pointee().is_same(&two.of.into_pointee());
            compared_thin(scope, alloc, one.at, are_same, here, there)
        }
        None => {
            let fits = (one.of.is_pointer() && two.of.is_null())
                || (one.of.is_null() && two.of.is_pointer());
            Ok(fitting(fits, one.at, CType::plain(alloc, BaseType::Int)))
        }
    }
}
