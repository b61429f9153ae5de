// What the name of a function means.

ghost use Rattle.std.specs.Prelude.{◌≡◌, IfOk, Some, map, option_map};
ghost use Rattle.cyc_tree.specs.Tree.{Function};
ghost use Rattle.cyc_types.specs.Types.{static_type};
ghost use Rattle.source_typing.specs.Functions as rules;
ghost use Rattle.source_typing.specs.Tables.{OfFunction};
ghost use Rattle.check_scopes.specs.Means.{Means};
ghost use Rattle.check_heads.specs.Bodies.{types_of};
ghost use Rattle.check_heads.specs.Heads.{IsHead, known_static};

use crate::head::{Head, Parameter};
use check_faults::Verdict;
use check_regions::DeclaredBounds;
use check_scopes::{Meaning, Signature};
use cyc_types::CType;
use std::alloc::{AllocError, Global};

/// A type, where it is known.
pub fn known_type<'a, 'p>(of: &'a Verdict<CType<'p>>) -> Option<&'a CType<'p>>
    ensures { option_map (λ t. static_type t.now) result ≡ known_static of.now }
{
    match of {
        Verdict::Of(of) => Some(of),
        Verdict::Wrong(_) | Verdict::NotJudged => None,
    }
}

/// A type of its own, where it is known.
fn known_clone<'p>(of: &Verdict<CType<'p>>) -> Result<Option<CType<'p>>, AllocError>
    ensures { IfOk result (λ o. option_map static_type o ≡ known_static of.now) }
{
    match known_type(of) {
        Some(of) => Ok(Some(of.try_clone()?)),
        None => Ok(None),
    }
}

/// The types of parameters, where they are known.
fn known_types<'p>(
    alloc: Global,
    parameters: &[Parameter<'p>],
) -> Result<Vec<Option<CType<'p>>>, AllocError>
    ensures { IfOk result (λ ts. map (option_map static_type) ts.items ≡ types_of parameters.now) }
{
    let mut types = Vec::new(alloc);
    'each: for parameter in parameters {
        types.push(known_clone(&parameter.of)?)?;
    }
    Ok(types)
}

/// What the name of a function with this head means: a function, where the head has no fault.
pub fn head_meaning<'p>(alloc: Global, head: Head<'p>) -> Result<Meaning<'p>, AllocError>
    ensures { (f : Function) (h : rules.Head) → IsHead head.entry f h
        → IfOk result (λ m. Means (Some (OfFunction h.signature)) (Some m)) }
{
    if head.fault.is_some() {
        return Ok(Meaning::NotKnown);
    }
    let regions = head.variables.count();
    let parameters = known_types(alloc, head.parameters.as_slice())?;
    let result = known_clone(&head.result)?;
    let bounds = DeclaredBounds::of(alloc, head.bounds)?;
    Ok(Meaning::Function(Signature {
        regions,
        parameters,
        result,
        effect: head.effect,
        bounds,
    }))
}
