// Calls.

ghost use Rattle.std.specs.Prelude.{◌≡◌, ◌++◌, ◌&&◌, IfOk, List, map, option_map, true};
ghost use Rattle.cyc_types.specs.Regions.{region_of, regions_of};
ghost use Rattle.cyc_types.specs.Types.{static_type};
ghost use Rattle.check_operators.specs.Values.{value_of};
ghost use Rattle.check_scopes.specs.Knows.{Sees};
ghost use Rattle.check_scopes.specs.Means.{signature_of};
ghost use Rattle.check_regions.specs.Fields.{pair_of};
ghost use Rattle.source_typing.specs.Calls.{ToBuiltin, ToFunction, all_live, all_ordered, builtin_parameters, call_entered, called};
ghost use Rattle.source_typing.specs.Faults.{effect_rule, outlives_rule, test};
ghost use Rattle.source_typing.specs.Regions.{Region, same_id};
ghost use Rattle.source_typing.specs.Scope.{Env, outlives, value};
ghost use Rattle.source_typing.specs.Tables.{argument};
ghost use Rattle.source_typing.specs.Types.{Int, renamed};
ghost use Rattle.source_typing.specs.Verdicts.{after, unless_faulty};
ghost use Rattle.check_faults.specs.Verdicts.{short_of, shortened};
ghost use Rattle.check_calls.specs.Converted.{given_of, regions_in};
ghost use Rattle.check_calls.specs.Enclosings.{enclosing_of};
ghost use Rattle.check_calls.specs.Fitted.{parameter_types};
ghost use Rattle.check_calls.specs.Targets.{target_of};
ghost use Rattle.source_typing.specs.Verdicts as verdict;

use crate::arguments::arguments_fit;
use crate::enclosing::Enclosing;
use crate::making::struct_called;
use crate::nulls::null_called;
use crate::target::Target;
use check_faults::{Fault, FaultKind, Verdict};
use check_operators::{Seat, Value, argument, renamed_type};
use check_regions::DeclaredBounds;
use check_scopes::{Scope, Signature};
use cyc_types::{BaseType, CType, RegionId};
use std::alloc::{AllocError, Global};

/// The value of a call that has no fault.
pub(crate) fn given<'p>(at: u32, of: CType<'p>) -> Verdict<Value<'p>>
    ensures { short_of value_of result ≡ shortened (value at (static_type of.entry)) }
{
    Verdict::Of(Value {
        at,
        of,
        seat: Seat::Nowhere,
    })
}

/// Whether all regions of a function's effect are live. `regions` are what its variables stand for.
fn are_live(scope: &Scope, regions: &[RegionId], effect: &[RegionId]) -> bool
    ensures { (g : Env) → Sees scope.now g → result ≡ all_live g (regions_of regions.now) (regions_of effect.now) }
{
    'each: for region in effect {
        if !scope.is_live(argument(regions, *region)) {
            return false;
        }
    }
    true
}

/// Whether two pairs are of the same regions.
fn are_same(one: (RegionId, RegionId), other: (RegionId, RegionId)) -> bool
    ensures { result ≡ (same_id (region_of one.0) (region_of other.0) && same_id (region_of one.1) (region_of other.1)) }
{
    one.0.is_same(other.0) && one.1.is_same(other.1)
}

/// Whether the first of the `asked` regions outlives the second. That the first of the `known` ones does is known.
fn is_ordered(
    scope: &Scope,
    known: (RegionId, RegionId),
    asked: (RegionId, RegionId),
) -> Result<bool, AllocError>
    ensures { (g : Env) → Sees scope.now g → outlives g (region_of known.0) (region_of known.1) ≡ true
        → IfOk result (λ b. b ≡ outlives g (region_of asked.0) (region_of asked.1)) }
{
    if are_same(known, asked) {
        return Ok(true);
    }
    scope.outlives(asked.0, asked.1)
}

/// Whether a function's bounds hold. `regions` are what its variables stand for.
fn are_ordered(
    scope: &Scope,
    regions: &[RegionId],
    bounds: &[(RegionId, RegionId)],
) -> Result<bool, AllocError>
    ensures { (g : Env) → Sees scope.now g → IfOk result (λ b. b ≡ all_ordered g (regions_of regions.now) (map pair_of bounds.now)) }
{
    let mut known = (RegionId::Heap, RegionId::Heap);
    'each: for bound in bounds {
        let asked = (argument(regions, bound.0), argument(regions, bound.1));
        if !is_ordered(scope, known, asked)? {
            return Ok(false);
        }
        known = asked;
    }
    Ok(true)
}

/// Whether the bounds that a function declares hold. Each of them is tested once. `regions` are what its variables stand for.
fn are_kept(
    scope: &Scope,
    regions: &[RegionId],
    bounds: &DeclaredBounds,
) -> Result<bool, AllocError>
    ensures { (g : Env) → Sees scope.now g → IfOk result (λ b. b ≡ all_ordered g (regions_of regions.now) bounds.now) }
{
    are_ordered(scope, regions, bounds.once())
}

/// The value of a call, if its type is known.
fn given_if<'p>(at: u32, of: Option<CType<'p>>) -> Verdict<Value<'p>>
    ensures { short_of value_of result ≡ shortened (given_of at (option_map static_type of.entry)) }
{
    match of {
        Some(of) => given(at, of),
        None => Verdict::NotJudged,
    }
}

/// The verdict on a call, by whether the callee's effect is live and its bounds hold.
#[tactic(auto, using(crate::proofs::Entering::tests_entered))]
fn entered<'p>(
    at: u32,
    are_live: bool,
    are_ordered: bool,
    of: Option<CType<'p>>,
) -> Verdict<Value<'p>>
    ensures { short_of value_of result
        ≡ shortened (unless_faulty (test are_live effect_rule at ++ test are_ordered outlives_rule at) (given_of at (option_map static_type of.entry))) }
{
    if !are_ordered {
        Verdict::Wrong(Fault {
            kind: FaultKind::Outlives,
            at,
        })
    } else if !are_live {
        Verdict::Wrong(Fault {
            kind: FaultKind::Effect,
            at,
        })
    } else {
        given_if(at, of)
    }
}

/// The type of a result, if it is known. `regions` are what its region variables stand for.
fn renamed_result<'p>(
    regions: &[RegionId],
    of: &Option<CType<'p>>,
) -> Result<Option<CType<'p>>, AllocError>
    ensures { IfOk result (λ o. option_map static_type o ≡ option_map (renamed (argument (regions_of regions.now))) (option_map static_type of.now)) }
{
    match of {
        Some(of) => Ok(Some(renamed_type(regions, of)?)),
        None => Ok(None),
    }
}

/// The verdict on a call of a function. `regions` are what its variables stand for.
fn call_entered<'p>(
    scope: &Scope<'_, 'p>,
    at: u32,
    signature: &Signature<'p>,
    regions: &[RegionId],
) -> Result<Verdict<Value<'p>>, AllocError>
    ensures { (g : Env) → Sees scope.now g
        → IfOk result (λ v. short_of value_of v ≡ shortened (call_entered g at (signature_of signature.now) (regions_of regions.now))) }
{
    let are_live = are_live(scope, regions, signature.effect.as_slice());
    let are_ordered = are_kept(scope, regions, &signature.bounds)?;
    let of = renamed_result(regions, &signature.result)?;
    Ok(entered(at, are_live, are_ordered, of))
}

/// The verdict on a call of a function of the program, by the verdict on its arguments.
fn function_entered<'p>(
    scope: &Scope<'_, 'p>,
    at: u32,
    signature: &Signature<'p>,
    fit: Verdict<Vec<RegionId>>,
) -> Result<Verdict<Value<'p>>, AllocError>
    ensures { (g : Env) → Sees scope.now g → (v : verdict.Verdict (List Region)) → short_of regions_in fit ≡ shortened v
        → IfOk result (λ r. short_of value_of r ≡ shortened (after v (call_entered g at (signature_of signature.now)))) }
{
    match fit {
        Verdict::Wrong(fault) => Ok(Verdict::Wrong(fault)),
        Verdict::NotJudged => Ok(Verdict::NotJudged),
        Verdict::Of(regions) => call_entered(scope, at, signature, regions.as_slice()),
    }
}

/// The verdict on a call of a function of the program.
fn function_called<'p>(
    scope: &Scope<'_, 'p>,
    alloc: Global,
    enclosing: Enclosing,
    at: u32,
    signature: &Signature<'p>,
    arguments: &[Value<'p>],
) -> Result<Verdict<Value<'p>>, AllocError>
    ensures { (g : Env) → Sees scope.now g → g.enclosing ≡ enclosing_of enclosing
        → IfOk result (λ v. short_of value_of v ≡ shortened (called g at (ToFunction (signature_of signature.now)) (map value_of arguments.now))) }
{
    if let Some(found) = null_called(scope, enclosing, at, signature, arguments)? {
        return Ok(found);
    }
    let parameters = signature.parameters.as_slice();
    let variables = signature.regions;
    let fit = arguments_fit(
        scope, alloc, enclosing, at, variables, parameters, arguments,
    )?;
    function_entered(scope, at, signature, fit)
}

/// The verdict on a call of a function that every program has, by the verdict on its arguments.
fn builtin_entered<'p>(alloc: Global, at: u32, fit: Verdict<Vec<RegionId>>) -> Verdict<Value<'p>>
    ensures { (v : verdict.Verdict (List Region)) → short_of regions_in fit ≡ shortened v
        → short_of value_of result ≡ shortened (after v (λ rs. value at Int)) }
{
    match fit {
        Verdict::Wrong(fault) => Verdict::Wrong(fault),
        Verdict::NotJudged => Verdict::NotJudged,
        Verdict::Of(_) => given(at, CType::plain(alloc, BaseType::Int)),
    }
}

/// The parameters of a function that every program has: `count` of them.
fn builtin_parameters<'p>(alloc: Global, count: u32) -> Result<Vec<Option<CType<'p>>>, AllocError>
    ensures { IfOk result (λ types. parameter_types types.items ≡ builtin_parameters count) }
{
    let mut types = Vec::new(alloc);
    'each: for _parameter in 0..count {
        types.push(Some(CType::plain(alloc, BaseType::Int)))?;
    }
    Ok(types)
}

/// The verdict on a call of a function that every program has, which has `count` parameters.
fn builtin_called<'p>(
    scope: &Scope<'_, 'p>,
    alloc: Global,
    enclosing: Enclosing,
    at: u32,
    count: u32,
    arguments: &[Value<'p>],
) -> Result<Verdict<Value<'p>>, AllocError>
    ensures { (g : Env) → Sees scope.now g → g.enclosing ≡ enclosing_of enclosing
        → IfOk result (λ v. short_of value_of v ≡ shortened (called g at (ToBuiltin count) (map value_of arguments.now))) }
{
    let parameters = builtin_parameters(alloc, count)?;
    let types = parameters.as_slice();
    let fit = arguments_fit(scope, alloc, enclosing, at, 0, types, arguments)?;
    Ok(builtin_entered(alloc, at, fit))
}

/// The verdict on a call. `enclosing` is the region of the innermost `rnew` around it.
pub fn called<'p>(
    scope: &Scope<'_, 'p>,
    alloc: Global,
    enclosing: Enclosing,
    at: u32,
    target: Target<'_, 'p>,
    arguments: &[Value<'p>],
) -> Result<Verdict<Value<'p>>, AllocError>
    ensures { (g : Env) → Sees scope.now g → g.enclosing ≡ enclosing_of enclosing
        → IfOk result (λ v. short_of value_of v ≡ shortened (called g at (target_of target.entry) (map value_of arguments.now))) }
{
    match target {
        Target::Builtin(count) => builtin_called(scope, alloc, enclosing, at, count, arguments),
        Target::Struct(text, tag) => {
            struct_called(scope, alloc, enclosing, at, text, tag, arguments)
        }
        Target::Function(signature) => {
            function_called(scope, alloc, enclosing, at, signature, arguments)
        }
    }
}
