// The faults of heads.

ghost use Rattle.std.specs.Prelude.{◌≡◌, ◌++◌, ◌||◌, IfOk, List, [], bytes_eq, codes, not};
ghost use Rattle.cyc_tree.specs.Tree.{Member};
ghost use Rattle.cyc_tree.specs.View.{name_tree};
ghost use Rattle.cyc_types.specs.Types.{static_type};
ghost use Rattle.source_typing.specs.Faults.{Fault as TheFault, earliest, own_after, test};
ghost use Rattle.source_typing.specs.Functions.{all_faults};
ghost use Rattle.source_typing.specs.Tags.{repeated};
ghost use Rattle.source_typing.specs.Types.{StaticType};
ghost use Rattle.source_typing.specs.Verdicts as rules;
ghost use Rattle.check_faults.specs.Faults.{faults_of, number_of};
ghost use Rattle.check_faults.specs.Verdicts.{short_of, shortened};
ghost use Rattle.check_heads.specs.Reading.{AreParameters, is_int, main_faults_in, main_faults_of, main_in, never, repeated_after, types_fault};

use crate::head::{Parameter, is_main};
use check_faults::{Fault, FaultKind, Verdict, sooner};
use cyc_tree::Name;
use cyc_types::{BaseType, CType};
use indexmap::IndexSet;
use std::alloc::{AllocError, Global};

/// The earliest fault of the parameters' types.
fn types_fault(parameters: &[Parameter<'_>]) -> Option<Fault>
    ensures { faults_of result ≡ types_fault parameters.now }
{
    let mut found = None;
    'each: for parameter in parameters {
        found = sooner(found, parameter.of.fault());
    }
    found
}

/// A fault of this kind, unless it fits.
fn unless(fits: bool, kind: FaultKind, at: u32) -> Option<Fault>
    ensures { faults_of result ≡ earliest (test fits (number_of kind) at) }
{
    if fits { None } else { Some(Fault { kind, at }) }
}

/// The earliest second name of the parameters.
fn repeated_fault(alloc: Global, parameters: &[Parameter<'_>]) -> Result<Option<Fault>, AllocError>
    ensures { IfOk result (λ f. faults_of f ≡ earliest (repeated_after never parameters.now)) }
{
    let mut seen = IndexSet::new(alloc);
    let mut found = None;
    'each: for parameter in parameters {
        let is_first = seen.insert(parameter.name)?;
        found = sooner(found, unless(is_first, FaultKind::Name, parameter.at));
    }
    Ok(found)
}

/// Whether a type is `int`.
fn is_int(of: &CType<'_>) -> bool
    ensures { result ≡ is_int (static_type of.now) }
{
    of.layers.is_empty() && matches!(of.base, BaseType::Int)
}

/// Whether a head with this result and these parameters is that of `int main()`, apart from the name.
fn main_form(of: &Verdict<CType<'_>>, parameters: &[Parameter<'_>]) -> bool
    ensures { result ≡ main_in of.now parameters.now }
{
    match of {
        Verdict::Of(of) => parameters.is_empty() && is_int(of),
        Verdict::Wrong(_) | Verdict::NotJudged => false,
    }
}

/// Whether a head of this name, result and parameters is no `main`, or that of `int main()`.
fn fits_main(name: &[u8], parameters: &[Parameter<'_>], of: &Verdict<CType<'_>>) -> bool
    ensures { result ≡ (not (bytes_eq name.now (codes "main")) || main_in of.now parameters.now) }
{
    !is_main(name) || main_form(of, parameters)
}

/// The fault of the form of `main`.
fn main_fault(name: &Name, parameters: &[Parameter<'_>], of: &Verdict<CType<'_>>) -> Option<Fault>
    ensures { faults_of result ≡ earliest (main_faults_in (name_tree name.now) of.now parameters.now) }
{
    unless(
        fits_main(&name.text, parameters, of),
        FaultKind::Typing,
        name.at,
    )
}

/// The earliest fault of a head of this name, result and parameters, with the fault of its effect and bounds. The form of `main` is looked
/// at only where nothing else has a fault.
pub(crate) fn head_fault(
    alloc: Global,
    name: &Name,
    parameters: &[Parameter<'_>],
    of: &Verdict<CType<'_>>,
    used: Option<Fault>,
) -> Result<Option<Fault>, AllocError>
    ensures { (v : rules.Verdict StaticType) (ms : List Member) (vs : List (rules.Verdict StaticType)) (us : List TheFault)
        → short_of static_type of.now ≡ shortened v → AreParameters parameters.now ms vs → faults_of used ≡ earliest us
        → IfOk result (λ f. faults_of f ≡ earliest (own_after (main_faults_of (name_tree name.now) v ms)
        (all_faults vs ++ repeated [] ms ++ rules.faults_of v ++ us))) }
{
    let second = repeated_fault(alloc, parameters)?;
    let parts = sooner(
        types_fault(parameters),
        sooner(second, sooner(of.fault(), used)),
    );
    if parts.is_some() {
        return Ok(parts);
    }
    Ok(main_fault(name, parameters, of))
}
