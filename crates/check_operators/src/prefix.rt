// Operators before an operand.

ghost use Rattle.std.specs.Prelude.{◌≡◌, IfOk};
ghost use Rattle.cyc_types.specs.Types.{static_type};
ghost use Rattle.check_operators.specs.Pointers.{followed, is_reached, seat_behind};
ghost use Rattle.check_operators.specs.Values.{seat_of, value_of};
ghost use Rattle.check_scopes.specs.Knows.{Sees};
ghost use Rattle.source_typing.specs.Operators.{prefixed, signed, tested};
ghost use Rattle.source_typing.specs.Places.{address, contents};
ghost use Rattle.source_typing.specs.Scope.{Env};
ghost use Rattle.check_faults.specs.Verdicts.{short_of, shortened};

use crate::kind::promoted;
use crate::value::{Seat, Value, fitting, plain, refused, seated};
use check_faults::{FaultKind, Verdict};
use check_scopes::Scope;
use cyc_tree::Prefix;
use cyc_types::{BaseType, CType, Layer, Reach};
use std::alloc::{AllocError, Global};

/// Whether the region of a pointer is live; a unique pointer's is judged by flow.
pub(crate) fn is_reached(scope: &Scope, pointer: Layer) -> bool
    ensures { (g : Env) → Sees scope.now g → result ≡ is_reached g pointer }
{
    match pointer {
        Layer::Thin(_, region) | Layer::Fat(region) => scope.is_live(region),
        Layer::Unique(_) => true,
    }
}

/// Where that is to which a pointer leads.
pub(crate) fn seat_behind(pointer: Layer) -> Seat
    ensures { seat_of result ≡ seat_behind pointer }
{
    match pointer {
        Layer::Thin(_, region) | Layer::Fat(region) => Seat::In(region),
        Layer::Unique(_) => Seat::InBlock,
    }
}

/// What a pointer leads to, by whether its region is live.
fn followed<'p>(at: u32, pointer: Layer, is_live: bool, to: CType<'p>) -> Verdict<Value<'p>>
    ensures { short_of value_of result ≡ shortened (followed at pointer is_live (static_type to.entry)) }
{
    if is_live {
        seated(at, to, seat_behind(pointer))
    } else {
        refused(FaultKind::Region, at)
    }
}

/// `*`: a pointer's region has to be live.
#[tactic(auto, using(crate::proofs::Following::plain_led))]
pub(crate) fn contents<'p>(scope: &Scope, at: u32, operand: Value<'p>) -> Verdict<Value<'p>>
    ensures { (g : Env) → Sees scope.now g → short_of value_of result ≡ shortened (contents g at (value_of operand.entry)) }
{
    match operand.of.outer() {
        Some(pointer) => {
            let is_live = is_reached(scope, pointer);
            followed(at, pointer, is_live, operand.of.into_pointee())
        }
        None => refused(FaultKind::Typing, at),
    }
}

/// `&`: a pointer that is never NULL, in the place's region.
fn address<'p>(at: u32, operand: Value<'p>) -> Result<Verdict<Value<'p>>, AllocError>
    ensures { IfOk result (λ v. short_of value_of v ≡ shortened (address at (value_of operand.entry))) }
{
    match operand.seat {
        Seat::Nowhere => Ok(refused(FaultKind::Typing, at)),
        Seat::In(region) => Ok(plain(
            at,
            operand.of.under(Layer::Thin(Reach::NeverNull(1), region))?,
        )),
        Seat::InBlock => Ok(plain(at, operand.of.under(Layer::Unique(false))?)),
    }
}

/// `!`: an integer or a pointer.
fn tested<'p>(alloc: Global, at: u32, operand: &Value) -> Verdict<Value<'p>>
    ensures { short_of value_of result ≡ shortened (tested at (value_of operand.now)) }
{
    fitting(
        operand.of.is_testable(),
        at,
        CType::plain(alloc, BaseType::Int),
    )
}

/// `-` and `~`: an integer.
fn signed<'p>(alloc: Global, at: u32, operand: Value<'p>) -> Verdict<Value<'p>>
    ensures { short_of value_of result ≡ shortened (signed at (value_of operand.entry)) }
{
    let fits = operand.of.is_integer();
    fitting(fits, at, promoted(alloc, operand.of))
}

/// An operator before its operand.
pub fn prefixed<'p>(
    scope: &Scope,
    alloc: Global,
    at: u32,
    operator: Prefix,
    operand: Value<'p>,
) -> Result<Verdict<Value<'p>>, AllocError>
    ensures { (g : Env) → Sees scope.now g → IfOk result (λ v. short_of value_of v ≡ shortened (prefixed g at operator (value_of operand.entry))) }
{
    match operator {
        Prefix::Negate | Prefix::Complement => Ok(signed(alloc, at, operand)),
        Prefix::Not => Ok(tested(alloc, at, &operand)),
        Prefix::Dereference => Ok(contents(scope, at, operand)),
        Prefix::AddressOf => address(at, operand),
    }
}
