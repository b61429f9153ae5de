// The heads of functions.

ghost use Rattle.std.specs.Prelude.{◌≡◌, IfOk, bytes_eq, codes};
ghost use Rattle.cyc_tree.specs.View.{effect_tree, function_tree};
ghost use Rattle.cyc_types.specs.Regions.{region_of};
ghost use Rattle.source_typing.specs.Functions.{effect_of, head_of};
ghost use Rattle.source_typing.specs.Tables.{Tables};
ghost use Rattle.check_types.specs.Naming.{AreTagNames};
ghost use Rattle.check_heads.specs.Bodies.{types_of};
ghost use Rattle.check_heads.specs.Heads.{IsHead};
ghost use Rattle.check_heads.specs.Used.{IsUsed, keys_of};

use crate::effect::{Used, bounds_of, effect_of};
use crate::found::head_fault;
use crate::keys::key_regions;
use crate::reading::Parameters;
use check_faults::{Fault, Verdict, sooner};
use check_types::{RegionVariables, TagNames, result_type_in, tag_of_type};
use cyc_tree::{Function, RegionNames};
use cyc_types::{CType, RegionId};
use std::alloc::{AllocError, Global};

/// A parameter: its name, and what its type is.
#[derive(Drop)]
pub struct Parameter<'p> {
    pub name: &'p [u8],
    /// Where the name stands.
    pub at: u32,
    pub of: Verdict<CType<'p>>,
}

/// What a function's head says.
#[derive(Drop)]
pub struct Head<'p> {
    /// Its region variables.
    pub variables: RegionVariables<'p>,
    pub parameters: Vec<Parameter<'p>>,
    pub result: Verdict<CType<'p>>,
    /// The regions that have to be live where it is called.
    pub effect: Vec<RegionId>,
    /// The first region of each outlives the second.
    pub bounds: Vec<(RegionId, RegionId)>,
    /// The head's earliest fault.
    pub fault: Option<Fault>,
}

/// Whether a name is `main`.
pub fn is_main(name: &[u8]) -> bool
    ensures { result ≡ bytes_eq name.now (codes "main") }
{
    name == b"main".as_slice()
}

/// The effect of a head with these parameters.
fn effect_in(
    alloc: Global,
    lenient: bool,
    parameters: &Parameters<'_>,
    effect: &Option<RegionNames>,
) -> Result<Used<RegionId>, AllocError>
    ensures { IfOk result (IsUsed region_of (effect_of lenient parameters.now.variables (keys_of (types_of parameters.now.items.items)) (effect_tree effect.now))) }
{
    let keys = key_regions(alloc, parameters.items.as_slice())?;
    effect_of(
        alloc,
        lenient,
        &parameters.variables,
        keys.as_slice(),
        effect,
    )
}

/// What a function's head says, with its earliest fault, where names mean this in place of tags; with or without the rules on live regions
/// and effects.
pub fn read_head<'p>(
    alloc: Global,
    tags: &TagNames<'_>,
    lenient: bool,
    function: &'p Function,
) -> Result<Head<'p>, AllocError>
    ensures { (g : Tables) → AreTagNames tags.now g
        → IfOk result (λ h. let f = function_tree function.entry.now in IsHead h f (head_of lenient g f)) }
{
    let parameters = Parameters::of(alloc, tags, function)?;
    let tag = tag_of_type(tags, &function.result);
    let names = parameters.variables.names();
    let result = result_type_in(alloc, tag, names, &function.result)?;
    let effect = effect_in(alloc, lenient, &parameters, &function.effect)?;
    let bounds = bounds_of(alloc, names, &function.bounds)?;
    let used = sooner(effect.fault, bounds.fault);
    let fault = head_fault(alloc, &function.name, &parameters.items, &result, used)?;
    Ok(Head {
        variables: parameters.variables,
        parameters: parameters.items,
        result,
        effect: effect.known,
        bounds: bounds.known,
        fault,
    })
}
