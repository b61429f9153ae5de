// What an expression is.

ghost use Rattle.std.specs.Prelude.{◌≡◌};
ghost use Rattle.cyc_types.specs.Types.{static_type};
ghost use Rattle.check_operators.specs.Values.{seat_of, value_of};
ghost use Rattle.source_typing.specs.Scope.{seated, value};
ghost use Rattle.source_typing.specs.Verdicts.{after, if_fits, refuse};
ghost use Rattle.check_faults.specs.Faults.{number_of};
ghost use Rattle.check_faults.specs.Verdicts.{short_of, shortened};
ghost use Rattle.source_typing.specs.Places as rules;

use check_faults::{Fault, FaultKind, Verdict};
use cyc_types::{CType, RegionId};

/// Where a place is.
#[derive(Clone, Copy)]
pub enum Seat {
    /// The expression is no place.
    Nowhere,
    /// In a region.
    In(RegionId),
    /// In the block of a unique pointer.
    InBlock,
}

/// An expression in order: its first token, its type, and where it is a place.
#[derive(Drop)]
pub struct Value<'p> {
    pub at: u32,
    pub of: CType<'p>,
    pub seat: Seat,
}

/// A value of a type, which is no place.
pub(crate) fn plain<'p>(at: u32, of: CType<'p>) -> Verdict<Value<'p>>
    ensures { short_of value_of result ≡ shortened (value at (static_type of.entry)) }
{
    Verdict::Of(Value {
        at,
        of,
        seat: Seat::Nowhere,
    })
}

/// A value of a type, which may be a place.
pub(crate) fn seated<'p>(at: u32, of: CType<'p>, seat: Seat) -> Verdict<Value<'p>>
    ensures { short_of value_of result ≡ shortened (seated at (static_type of.entry) (seat_of seat)) }
{
    Verdict::Of(Value { at, of, seat })
}

/// A phrase that breaks a rule.
pub(crate) fn refused<'p>(kind: FaultKind, at: u32) -> Verdict<Value<'p>>
    ensures { short_of value_of result ≡ shortened (refuse (number_of kind) at) }
{
    Verdict::Wrong(Fault { kind, at })
}

/// A value of a type, where its operands fit.
pub(crate) fn fitting<'p>(fits: bool, at: u32, of: CType<'p>) -> Verdict<Value<'p>>
    ensures { short_of value_of result ≡ shortened (after (if_fits fits at (static_type of.entry)) (value at)) }
{
    if fits {
        plain(at, of)
    } else {
        refused(FaultKind::Typing, at)
    }
}

/// An expression in parentheses, which change nothing but the first token.
pub fn grouped<'p>(at: u32, value: Value<'p>) -> Verdict<Value<'p>>
    ensures { short_of value_of result ≡ shortened (rules.grouped at (value_of value.entry)) }
{
    seated(at, value.of, value.seat)
}
