// Names as values.

ghost use Rattle.std.specs.Prelude.{◌≡◌, IfOk, Option, option_map};
ghost use Rattle.cyc_types.specs.Regions.{region_of};
ghost use Rattle.cyc_types.specs.Types.{static_type};
ghost use Rattle.check_operators.specs.Values.{value_of};
ghost use Rattle.check_scopes.specs.Means.{Means, meaning_of};
ghost use Rattle.source_typing.specs.Scope.{value};
ghost use Rattle.source_typing.specs.Tables.{Entry};
ghost use Rattle.source_typing.specs.Types.{Fat};
ghost use Rattle.check_faults.specs.Verdicts.{short_of, shortened};
ghost use Rattle.source_typing.specs.Places as rules;

use crate::value::{Seat, Value, plain, refused, seated};
use check_faults::{FaultKind, Verdict};
use check_scopes::Named;
use cyc_types::{BaseType, CType, Layer, RegionId};
use std::alloc::{AllocError, Global};

/// An array's name, which is a fat pointer to its first element.
fn array<'p>(
    at: u32,
    element: &CType<'p>,
    region: RegionId,
) -> Result<Verdict<Value<'p>>, AllocError>
    ensures { IfOk result (λ v. short_of value_of v ≡ shortened (value at (Fat (region_of region) (static_type element.now)))) }
{
    Ok(plain(at, element.try_clone()?.under(Layer::Fat(region))?))
}

/// A name as a value, by what it means.
pub fn variable<'p>(
    alloc: Global,
    at: u32,
    named: Option<Named<'_, 'p>>,
) -> Result<Verdict<Value<'p>>, AllocError>
    ensures { (e : Option Entry) → Means e (option_map meaning_of named.entry) → IfOk result (λ v. short_of value_of v ≡ shortened (rules.variable at e)) }
{
    match named {
        None => Ok(refused(FaultKind::Name, at)),
        Some(Named::Variable(of, region)) => Ok(seated(at, of.try_clone()?, Seat::In(region))),
        Some(Named::Array(element, region)) => array(at, element, region),
        Some(Named::Counter) => Ok(plain(at, CType::plain(alloc, BaseType::Unsigned))),
        Some(Named::Function(_)) => Ok(refused(FaultKind::Typing, at)),
        Some(Named::Builtin(_) | Named::Tag { .. }) => Ok(refused(FaultKind::Typing, at)),
        Some(Named::FaultyTag(_) | Named::NotKnown) => Ok(Verdict::NotJudged),
        Some(Named::Untyped) => Ok(Verdict::NotJudged),
    }
}
