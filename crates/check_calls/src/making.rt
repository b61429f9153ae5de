// Structs that are made of their members.

ghost use Rattle.std.specs.Prelude.{◌≡◌, IfOk, List, map, option_map};
ghost use Rattle.cyc_types.specs.Regions.{regions_of};
ghost use Rattle.cyc_types.specs.Tags.{members_of, tag_of};
ghost use Rattle.cyc_types.specs.Types.{static_type};
ghost use Rattle.check_operators.specs.Values.{value_of};
ghost use Rattle.check_scopes.specs.Knows.{Sees};
ghost use Rattle.source_typing.specs.Calls.{ToStruct, called, part_types};
ghost use Rattle.source_typing.specs.Regions.{Region};
ghost use Rattle.source_typing.specs.Scope.{Env, value};
ghost use Rattle.source_typing.specs.Types.{Struct};
ghost use Rattle.source_typing.specs.Verdicts as verdict;
ghost use Rattle.source_typing.specs.Verdicts.{after};
ghost use Rattle.check_faults.specs.Verdicts.{short_of, shortened};
ghost use Rattle.check_calls.specs.Converted.{regions_in};
ghost use Rattle.check_calls.specs.Enclosings.{enclosing_of};
ghost use Rattle.check_calls.specs.Fitted.{parameter_types};

use crate::arguments::arguments_fit;
use crate::call::given;
use crate::enclosing::Enclosing;
use check_faults::Verdict;
use check_operators::Value;
use check_scopes::Scope;
use cyc_types::{BaseType, CType, Member, RegionId, Tag};
use smallvec::SmallVec;
use std::alloc::{AllocError, Global};

/// The type of a member, if it is known.
pub(crate) fn member_type<'p>(member: &Member<'p>) -> Result<Option<CType<'p>>, AllocError>
    ensures { IfOk result (λ of. option_map static_type of ≡ option_map static_type member.now.of) }
{
    match &member.of {
        Some(of) => Ok(Some(of.try_clone()?)),
        None => Ok(None),
    }
}

/// The types of members. They are the parameters of the struct's making.
fn member_types<'p>(
    alloc: Global,
    members: &[Member<'p>],
) -> Result<Vec<Option<CType<'p>>>, AllocError>
    ensures { IfOk result (λ types. parameter_types types.items ≡ part_types (members_of members.now)) }
{
    let mut types = Vec::new(alloc);
    'each: for member in members {
        types.push(member_type(member)?)?;
    }
    Ok(types)
}

/// The value of a struct. `regions` are what its region parameters stand for.
fn struct_of<'p>(
    alloc: Global,
    at: u32,
    text: &'p [u8],
    regions: &[RegionId],
) -> Result<Verdict<Value<'p>>, AllocError>
    ensures { IfOk result (λ v. short_of value_of v ≡ shortened (value at (Struct text.entry.now (regions_of regions.now)))) }
{
    let arguments = SmallVec::from_slice(alloc, regions)?;
    let base = BaseType::Struct(text, arguments);
    Ok(given(at, CType::plain(alloc, base)))
}

/// The verdict on a struct that is made, by the verdict on its arguments.
fn made<'p>(
    alloc: Global,
    at: u32,
    text: &'p [u8],
    fit: Verdict<Vec<RegionId>>,
) -> Result<Verdict<Value<'p>>, AllocError>
    ensures { (v : verdict.Verdict (List Region)) → short_of regions_in fit ≡ shortened v
        → IfOk result (λ r. short_of value_of r ≡ shortened (after v (λ rs. value at (Struct text.entry.now rs)))) }
{
    match fit {
        Verdict::Wrong(fault) => Ok(Verdict::Wrong(fault)),
        Verdict::NotJudged => Ok(Verdict::NotJudged),
        Verdict::Of(regions) => struct_of(alloc, at, text, regions.as_slice()),
    }
}

/// The verdict on a struct that is made of these arguments, which instantiate its region parameters.
pub(crate) fn struct_called<'p>(
    scope: &Scope<'_, 'p>,
    alloc: Global,
    enclosing: Enclosing,
    at: u32,
    text: &'p [u8],
    tag: &Tag<'p>,
    arguments: &[Value<'p>],
) -> Result<Verdict<Value<'p>>, AllocError>
    ensures { (g : Env) → Sees scope.now g → g.enclosing ≡ enclosing_of enclosing → IfOk result (λ v. short_of value_of v
        ≡ shortened (called g at (ToStruct (tag_of text.entry.now tag.now)) (map value_of arguments.now))) }
{
    let parameters = member_types(alloc, tag.members.as_slice())?;
    let types = parameters.as_slice();
    let variables = tag.regions;
    let fit = arguments_fit(scope, alloc, enclosing, at, variables, types, arguments)?;
    made(alloc, at, text, fit)
}
