// What `new` and `rnew` make.

ghost use Rattle.std.specs.Prelude.{◌≡◌, IfOk, option_map};
ghost use Rattle.cyc_types.specs.Bases.{base_type};
ghost use Rattle.cyc_types.specs.Regions.{region_of};
ghost use Rattle.cyc_types.specs.Types.{static_type};
ghost use Rattle.check_operators.specs.Goals.{goal_in, region_handled};
ghost use Rattle.check_operators.specs.Values.{value_of};
ghost use Rattle.check_scopes.specs.Knows.{Sees};
ghost use Rattle.source_typing.specs.Making.{array_made, array_to, handled, live_goal, made, made_to};
ghost use Rattle.source_typing.specs.Scope.{Env};
ghost use Rattle.check_faults.specs.Verdicts.{short_of, shortened};

use crate::value::{Value, plain, refused};
use check_faults::{Fault, FaultKind, Verdict};
use check_scopes::Scope;
use cyc_types::{BaseType, CType, Layer, Reach, RegionId};
use std::alloc::AllocError;

/// Where a value is made.
#[derive(Clone, Copy)]
pub enum Goal {
    /// In a region.
    To(RegionId),
    /// In the unique region.
    ToUnique,
    /// Nowhere: what should be a handle is none.
    NoHandle,
}

/// The region of a handle that isn't behind a pointer.
fn base_handled(of: &BaseType) -> Option<RegionId>
    ensures { option_map region_of result ≡ region_handled (base_type of.now) }
{
    match of {
        BaseType::Handle(region) => Some(*region),
        _ => None,
    }
}

/// The region of a handle.
#[tactic(auto, using(crate::proofs::Handling::pointer_handled, crate::proofs::Handling::plain_handled))]
fn region_handled(of: &CType) -> Option<RegionId>
    ensures { option_map region_of result ≡ region_handled (static_type of.now) }
{
    match of.outer() {
        Some(_) => None,
        None => base_handled(&of.base),
    }
}

/// The region of a handle at this position, if it is live.
fn live_goal(is_live: bool, at: u32, region: RegionId) -> Verdict<Goal>
    ensures { short_of goal_in result ≡ shortened (live_goal is_live at (region_of region)) }
{
    if is_live {
        Verdict::Of(Goal::To(region))
    } else {
        Verdict::Wrong(Fault {
            kind: FaultKind::Region,
            at,
        })
    }
}

/// Where a handle makes: its region has to be live.
#[tactic(auto, using(crate::proofs::Handling::handled_is))]
pub fn handled(scope: &Scope, handle: &Value) -> Verdict<Goal>
    ensures { (g : Env) → Sees scope.now g → short_of goal_in result ≡ shortened (handled g (value_of handle.now)) }
{
    match region_handled(&handle.of) {
        Some(region) => live_goal(scope.is_live(region), handle.at, region),
        None => Verdict::Of(Goal::NoHandle),
    }
}

/// A pointer, never NULL, to a value of a type that is made.
fn made_to<'p>(at: u32, goal: Goal, of: CType<'p>) -> Result<Verdict<Value<'p>>, AllocError>
    ensures { IfOk result (λ v. short_of value_of v ≡ shortened (made_to at (goal_in goal) (static_type of.entry))) }
{
    match goal {
        Goal::To(region) => Ok(plain(at, of.under(Layer::Thin(Reach::NeverNull(1), region))?)),
        Goal::ToUnique => Ok(plain(at, of.under(Layer::Unique(false))?)),
        Goal::NoHandle => Ok(refused(FaultKind::Typing, at)),
    }
}

/// What is made of a value.
pub fn made<'p>(at: u32, goal: Goal, value: Value<'p>) -> Result<Verdict<Value<'p>>, AllocError>
    ensures { IfOk result (λ v. short_of value_of v ≡ shortened (made at (goal_in goal) (value_of value.entry))) }
{
    if !value.of.is_makeable() {
        return Ok(refused(FaultKind::Typing, at));
    }
    made_to(at, goal, value.of)
}

/// A fat pointer to elements of a type that are made, which aren't in the unique region.
fn array_to<'p>(at: u32, goal: Goal, of: CType<'p>) -> Result<Verdict<Value<'p>>, AllocError>
    ensures { IfOk result (λ v. short_of value_of v ≡ shortened (array_to at (goal_in goal) (static_type of.entry))) }
{
    match goal {
        Goal::To(region) => Ok(plain(at, of.under(Layer::Fat(region))?)),
        Goal::ToUnique | Goal::NoHandle => Ok(refused(FaultKind::Typing, at)),
    }
}

/// An allocation of an array comprehension.
pub fn array_made<'p>(
    at: u32,
    goal: Goal,
    count: &Value,
    element: Value<'p>,
) -> Result<Verdict<Value<'p>>, AllocError>
    ensures { IfOk result (λ v. short_of value_of v ≡ shortened (array_made at (goal_in goal) (value_of count.now, value_of element.entry))) }
{
    if count.of.is_integer() && element.of.is_makeable() {
        array_to(at, goal, element.of)
    } else {
        Ok(refused(FaultKind::Typing, at))
    }
}
