// The conversions of a call's arguments.

ghost use Rattle.std.specs.List.{list_all};
ghost use Rattle.std.specs.Prelude.{◌≡◌, ◌&&◌, ◌||◌, IfOk, is_some, map, not};
ghost use Rattle.cyc_types.specs.Regions.{regions_of};
ghost use Rattle.cyc_types.specs.Types.{static_type};
ghost use Rattle.check_operators.specs.Values.{value_of};
ghost use Rattle.check_scopes.specs.Knows.{Sees};
ghost use Rattle.source_typing.specs.Calls.{arguments_fit};
ghost use Rattle.source_typing.specs.Faults.{earliest};
ghost use Rattle.source_typing.specs.Scope.{Env};
ghost use Rattle.check_faults.specs.Faults.{faults_of};
ghost use Rattle.check_faults.specs.Verdicts.{short_of, shortened};
ghost use Rattle.check_calls.specs.Converted.{argument_faults, arguments_faults, counted, is_whole, regions_in, short_unless, type_alone};
ghost use Rattle.check_calls.specs.Enclosings.{enclosing_of};
ghost use Rattle.check_calls.specs.Fitted.{parameter_types};
ghost use Rattle.check_calls.specs.Fixings.{fixings_of, which_are_known};

use crate::enclosing::Enclosing;
use crate::fixing::{Fixing, are_settled, fixings_fault, fixings_for, regions_by};
use crate::known::is_known_type;
use check_faults::{Fault, FaultKind, Verdict, sooner};
use check_operators::{Value, converted, renamed_type};
use check_scopes::Scope;
use cyc_types::{CType, RegionId};
use std::alloc::{AllocError, Global};

/// The fault, if it is one of types.
fn type_alone(fault: Option<Fault>) -> Option<Fault>
    ensures { faults_of result ≡ type_alone (faults_of fault) }
{
    match fault {
        Some(
            Fault {
                kind: FaultKind::Typing,
                at,
            },
        ) => Some(Fault {
            kind: FaultKind::Typing,
            at,
        }),
        _ => None,
    }
}

/// The fault of a conversion that counts: any, if the conversion is checked with its regions, else one of types alone.
fn counted(is_whole: bool, fault: Option<Fault>) -> Option<Fault>
    ensures { faults_of result ≡ counted is_whole (faults_of fault) }
{
    if is_whole { fault } else { type_alone(fault) }
}

/// Whether a conversion to a parameter's type is checked with its regions. If some variables are invalid or unknown (`partly`), all regions
/// of the type have to be known for that.
fn is_whole(partly: bool, fixings: &[Option<Fixing>], parameter: &CType) -> bool
    ensures { result ≡ is_whole partly (which_are_known (fixings_of fixings.now)) (static_type parameter.now) }
{
    if partly {
        is_known_type(fixings, parameter)
    } else {
        true
    }
}

/// Whether some variables are invalid or unknown. `fixing` is the fault of the variables, if they have one.
fn is_partly(fixing: Option<Fault>, are_settled: bool) -> bool
    ensures { result ≡ (is_some fixing || not are_settled) }
{
    fixing.is_some() || !are_settled
}

/// The fault of an argument, which is converted to a parameter's type. There is none if the type isn't known.
fn argument_fault(
    scope: &Scope,
    fixings: &[Option<Fixing>],
    regions: &[RegionId],
    partly: bool,
    parameter: &Option<CType>,
    value: &Value,
) -> Result<Option<Fault>, AllocError>
    ensures { (g : Env) → Sees scope.now g → IfOk result (λ f. faults_of f
        ≡ earliest (argument_faults partly g (which_are_known (fixings_of fixings.now)) (regions_of regions.now) parameter.now value.now)) }
{
    match parameter {
        Some(of) => {
            let to = renamed_type(regions, of)?;
            let fault = converted(scope, value, &to)?;
            Ok(counted(is_whole(partly, fixings, of), fault))
        }
        None => Ok(None),
    }
}

/// The earliest fault of the arguments' conversions.
fn conversions_fault(
    scope: &Scope,
    fixings: &[Option<Fixing>],
    regions: &[RegionId],
    partly: bool,
    parameters: &[Option<CType>],
    arguments: &[Value],
) -> Result<Option<Fault>, AllocError>
    ensures { (g : Env) → Sees scope.now g → IfOk result (λ f. faults_of f
        ≡ earliest (arguments_faults partly g (which_are_known (fixings_of fixings.now)) (regions_of regions.now) parameters.now arguments.now)) }
{
    let count = parameters.len().min(arguments.len());
    let mut found = None;
    'each: for index in 0..count {
        let to = &parameters[index];
        let own = argument_fault(scope, fixings, regions, partly, to, &arguments[index])?;
        found = sooner(found, own);
    }
    Ok(found)
}

/// Whether the types of all parameters are known.
fn are_known(parameters: &[Option<CType>]) -> bool
    ensures { result ≡ list_all (λ of. is_some of) parameters.now }
{
    parameters.iter().all(|of| of.is_some())
}

/// The verdict on the arguments: the fault if there is one, or else what the variables stand for, if all of them and the types of all
/// parameters are known.
fn unless_found(
    fault: Option<Fault>,
    are_settled: bool,
    are_known: bool,
    regions: Vec<RegionId>,
) -> Verdict<Vec<RegionId>>
    ensures { short_of regions_in result ≡ short_unless (faults_of fault) (are_settled && are_known) (regions_in regions) }
{
    match fault {
        Some(fault) => Verdict::Wrong(fault),
        None => {
            if are_settled && are_known {
                Verdict::Of(regions)
            } else {
                Verdict::NotJudged
            }
        }
    }
}

/// The verdict on the arguments for parameters of these types: what the variables stand for, if the arguments fit.
pub(crate) fn arguments_fit(
    scope: &Scope,
    alloc: Global,
    enclosing: Enclosing,
    at: u32,
    variables: u32,
    parameters: &[Option<CType>],
    arguments: &[Value],
) -> Result<Verdict<Vec<RegionId>>, AllocError>
    ensures { (g : Env) → Sees scope.now g → g.enclosing ≡ enclosing_of enclosing → IfOk result (λ v. short_of regions_in v
        ≡ shortened (arguments_fit g at variables (parameter_types parameters.now) (map value_of arguments.now))) }
{
    if parameters.len() != arguments.len() {
        return Ok(Verdict::Wrong(Fault {
            kind: FaultKind::Typing,
            at,
        }));
    }
    let fixings = fixings_for(alloc, enclosing, at, variables, parameters, arguments)?;
    let regions = regions_by(alloc, fixings.as_slice())?;
    let fixing = fixings_fault(fixings.as_slice());
    let are_settled = are_settled(fixings.as_slice());
    let conversion = conversions_fault(
        scope,
        fixings.as_slice(),
        regions.as_slice(),
        is_partly(fixing, are_settled),
        parameters,
        arguments,
    )?;
    let are_known = are_known(parameters);
    Ok(unless_found(sooner(fixing, conversion), are_settled, are_known, regions))
}
