// What the region variables of a call are instantiated to by its arguments.

ghost use Rattle.std.specs.List.{list_all};
ghost use Rattle.std.specs.Prelude.{◌≡◌, [], ◌∷◌, IfOk, None, Some, is_some, option_map, replicate};
ghost use Rattle.cyc_types.specs.Bases.{base_type};
ghost use Rattle.cyc_types.specs.Regions.{region_of, regions_of};
ghost use Rattle.cyc_types.specs.Shared.{listed};
ghost use Rattle.cyc_types.specs.Types.{static_type};
ghost use Rattle.source_typing.specs.Faults.{earliest};
ghost use Rattle.source_typing.specs.Fixing.{fit, fit_all, fits_of};
ghost use Rattle.check_faults.specs.Faults.{faults_of};
ghost use Rattle.check_calls.specs.Fitted.{base_fits, fits_all, found_in, layer_fits, parameter_fits, place_fits, pointer_fits};
ghost use Rattle.check_calls.specs.Enclosings.{enclosing_of};
ghost use Rattle.check_calls.specs.Fixings.{fixed_with, fixing_faults, fixing_of, fixings_of, found_of, last_fixing, noted, regions_by, settled};

use crate::enclosing::Enclosing;
use check_faults::{Fault, FaultKind, sooner};
use check_operators::Value;
use cyc_types::{BaseType, CType, Layer, PointerList, RegionId};
use std::alloc::{AllocError, Global};

/// What a region variable is instantiated to.
#[derive(Clone, Copy)]
pub(crate) enum Fixed {
    /// A region.
    Is(RegionId),
    /// The region of a unique pointer, which no variable may be.
    Unique,
}

/// What a region variable is instantiated to, and the position of the argument that does it.
#[derive(Clone, Copy)]
pub(crate) struct Fixing {
    pub is: Fixed,
    pub at: u32,
}

/// What a pointer instantiates a variable to.
fn fixed_by(pointer: Layer) -> Fixed
    ensures { found_of result ≡ found_in pointer }
{
    match pointer {
        Layer::Thin(_, region) | Layer::Fat(region) => Fixed::Is(region),
        Layer::Unique(_) => Fixed::Unique,
    }
}

/// Instantiates a variable, unless it is instantiated already.
fn note_at(fixings: &mut Vec<Option<Fixing>>, variable: usize, fixing: Fixing)
    ensures { fixings_of fixings.new.items ≡ noted (fixings_of fixings.old.items) variable (fixing_of fixing) }
{
    if variable < fixings.len() {
        if fixings[variable].is_none() {
            fixings[variable] = Some(fixing);
        }
    }
}

/// Instantiates the variable that a region of a parameter's type is. The heap is none.
fn note(fixings: &mut Vec<Option<Fixing>>, region: RegionId, fixing: Fixing)
    ensures { fixings_of fixings.new.items ≡ fixed_with (fit fixing.at (region_of region) (found_of fixing.is) ∷ []) 0 (fixings_of fixings.old.items) }
{
    match region {
        RegionId::Heap => {}
        RegionId::Level(variable) => note_at(fixings, variable as usize, fixing),
    }
}

/// Instantiates the variable of a pointer in a parameter's type, by the argument's pointer at the same place in its type.
#[tactic(auto, using(crate::proofs::Fixes::with_nothing))]
fn note_pointer(fixings: &mut Vec<Option<Fixing>>, mine: Layer, theirs: Layer, at: u32)
    ensures { fixings_of fixings.new.items ≡ fixed_with (layer_fits at mine theirs) 0 (fixings_of fixings.old.items) }
{
    match mine {
        Layer::Thin(_, region) | Layer::Fat(region) => {
            let is = fixed_by(theirs);
            note(fixings, region, Fixing { is, at })
        }
        Layer::Unique(_) => {}
    }
}

/// The same at a place where both types may have a pointer. If one has none there, nothing is instantiated.
#[tactic(auto, using(crate::proofs::Fixes::with_nothing))]
fn note_place(
    fixings: &mut Vec<Option<Fixing>>,
    mine: Option<Layer>,
    theirs: Option<Layer>,
    at: u32,
)
    ensures { fixings_of fixings.new.items ≡ fixed_with (place_fits at mine theirs) 0 (fixings_of fixings.old.items) }
{
    match (mine, theirs) {
        (Some(mine), Some(theirs)) => note_pointer(fixings, mine, theirs, at),
        _ => {}
    }
}

/// Instantiates the variables of the pointers in a parameter's type, from the innermost one on.
fn note_pointers(
    fixings: &mut Vec<Option<Fixing>>,
    mine: PointerList<'_>,
    theirs: PointerList<'_>,
    at: u32,
)
    ensures { fixings_of fixings.new.items ≡ fixed_with (pointer_fits at (listed mine.entry) (listed theirs.entry)) 0 (fixings_of fixings.old.items) }
{
    let count = mine.len().min(theirs.len());
    'each: for index in 0..count {
        let here = mine.get(index);
        let there = theirs.get(index);
        note_place(fixings, here, there, at);
    }
}

/// Instantiates the variables among the region arguments of a parameter's struct or union.
fn note_arguments(
    fixings: &mut Vec<Option<Fixing>>,
    mine: &[RegionId],
    theirs: &[RegionId],
    at: u32,
)
    ensures { fixings_of fixings.new.items ≡ fixed_with (fit_all at (regions_of mine.now) (regions_of theirs.now)) 0 (fixings_of fixings.old.items) }
{
    let count = mine.len().min(theirs.len());
    'each: for index in 0..count {
        let is = Fixed::Is(theirs[index]);
        note(fixings, mine[index], Fixing { is, at });
    }
}

/// Instantiates the variables in a parameter's type that is no pointer.
#[tactic(auto, using(crate::proofs::Fixes::with_nothing, crate::proofs::Places::fit_none))]
fn note_base(fixings: &mut Vec<Option<Fixing>>, mine: &BaseType, theirs: &BaseType, at: u32)
    ensures { fixings_of fixings.new.items ≡ fixed_with (fits_of at (base_type mine.now) (Some (base_type theirs.now))) 0 (fixings_of fixings.old.items) }
{
    match (mine, theirs) {
        (BaseType::Handle(region), BaseType::Handle(is)) => {
            let is = Fixed::Is(*is);
            note(fixings, *region, Fixing { is, at })
        }
        (BaseType::Key(region), BaseType::Key(is)) => {
            let is = Fixed::Is(*is);
            note(fixings, *region, Fixing { is, at })
        }
        (BaseType::Struct(tag, regions), BaseType::Struct(other, others)) => {
            if tag == other {
                note_arguments(fixings, regions.as_slice(), others.as_slice(), at)
            }
        }
        (BaseType::Union(tag, regions), BaseType::Union(other, others)) => {
            if tag == other {
                note_arguments(fixings, regions.as_slice(), others.as_slice(), at)
            }
        }
        _ => {}
    }
}

/// Instantiates the variables in what is below the pointers of a parameter's type, if the argument's type has as many.
#[tactic(auto, using(crate::proofs::Fixes::with_nothing))]
fn note_bases(fixings: &mut Vec<Option<Fixing>>, mine: &CType, theirs: &CType, at: u32)
    ensures { fixings_of fixings.new.items ≡ fixed_with (base_fits at mine.now theirs.now) 0 (fixings_of fixings.old.items) }
{
    if mine.layers.len() == theirs.layers.len() {
        note_base(fixings, &mine.base, &theirs.base, at)
    }
}

/// Instantiates the variables of a parameter's type, by an argument's type.
fn note_type(fixings: &mut Vec<Option<Fixing>>, mine: &CType, theirs: &CType, at: u32)
    ensures { fixings_of fixings.new.items ≡ fixed_with (fits_of at (static_type mine.now) (Some (static_type theirs.now))) 0 (fixings_of fixings.old.items) }
{
    note_bases(fixings, mine, theirs, at);
    let here = mine.layers.pointers();
    let there = theirs.layers.pointers();
    let count = here.len().min(there.len());
    note_pointers(
        fixings,
        here.from(here.len() - count),
        there.from(there.len() - count),
        at,
    );
}

/// Instantiates the variables of a parameter's type, if it is known, by an argument.
#[tactic(auto, using(crate::proofs::Fixes::with_nothing))]
fn note_parameter(fixings: &mut Vec<Option<Fixing>>, parameter: &Option<CType>, argument: &Value)
    ensures { fixings_of fixings.new.items ≡ fixed_with (parameter_fits parameter.now argument.now) 0 (fixings_of fixings.old.items) }
{
    match parameter {
        Some(of) => note_type(fixings, of, &argument.of, argument.at),
        None => {}
    }
}

/// Instantiates the variables of all parameters' types, by the arguments.
fn note_types(fixings: &mut Vec<Option<Fixing>>, parameters: &[Option<CType>], arguments: &[Value])
    ensures { fixings_of fixings.new.items ≡ fixed_with (fits_all parameters.now arguments.now) 0 (fixings_of fixings.old.items) }
{
    let count = parameters.len().min(arguments.len());
    'each: for index in 0..count {
        note_parameter(fixings, &parameters[index], &arguments[index]);
    }
}

/// A table of `variables` region variables that aren't instantiated.
fn not_fixed(alloc: Global, variables: u32) -> Result<Vec<Option<Fixing>>, AllocError>
    ensures { IfOk result (λ fixings. fixings_of fixings.items ≡ replicate variables None) }
{
    let mut fixings = Vec::new(alloc);
    'each: for _variable in 0..variables {
        fixings.push(None)?;
    }
    Ok(fixings)
}

/// What instantiates the variables that no argument does, in a call at this position.
fn last_fixing(enclosing: Enclosing, at: u32) -> Option<Fixing>
    ensures { option_map fixing_of result ≡ last_fixing (enclosing_of enclosing) at }
{
    match enclosing {
        Enclosing::In(region) => Some(Fixing {
            is: Fixed::Is(region),
            at,
        }),
        Enclosing::Unique => Some(Fixing {
            is: Fixed::Unique,
            at,
        }),
        Enclosing::NotKnown => None,
    }
}

/// Instantiates all remaining variables.
fn note_all(fixings: &mut Vec<Option<Fixing>>, last: Fixing)
    ensures { fixings_of fixings.new.items ≡ settled (Some (fixing_of last)) (fixings_of fixings.old.items) }
{
    'each: for variable in 0..fixings.len() {
        note_at(fixings, variable, last);
    }
}

/// Instantiates all remaining variables, if it is known to what.
#[tactic(auto, using(crate::proofs::Settling::settled_by_none))]
fn settle(fixings: &mut Vec<Option<Fixing>>, last: Option<Fixing>)
    ensures { fixings_of fixings.new.items ≡ settled (option_map fixing_of last) (fixings_of fixings.old.items) }
{
    match last {
        Some(last) => note_all(fixings, last),
        None => {}
    }
}

/// What the region variables of a call are instantiated to.
pub(crate) fn fixings_for(
    alloc: Global,
    enclosing: Enclosing,
    at: u32,
    variables: u32,
    parameters: &[Option<CType>],
    arguments: &[Value],
) -> Result<Vec<Option<Fixing>>, AllocError>
    ensures { IfOk result (λ fixings. fixings_of fixings.items
        ≡ settled (last_fixing (enclosing_of enclosing) at) (fixed_with (fits_all parameters.now arguments.now) 0 (replicate variables None))) }
{
    let mut fixings = not_fixed(alloc, variables)?;
    note_types(&mut fixings, parameters, arguments);
    settle(&mut fixings, last_fixing(enclosing, at));
    Ok(fixings)
}

/// Whether all variables are instantiated.
pub(crate) fn are_settled(fixings: &[Option<Fixing>]) -> bool
    ensures { result ≡ list_all (λ fixing. is_some fixing) fixings.now }
{
    fixings.iter().all(|fixing| fixing.is_some())
}

/// The fault of a variable that would be the unique region.
fn fixing_fault(fixing: Option<Fixing>) -> Option<Fault>
    ensures { faults_of result ≡ earliest (fixing_faults (fixings_of (fixing ∷ []))) }
{
    match fixing {
        Some(
            Fixing {
                is: Fixed::Unique,
                at,
            },
        ) => Some(Fault {
            kind: FaultKind::Region,
            at,
        }),
        _ => None,
    }
}

/// The earliest fault of the variables.
pub(crate) fn fixings_fault(fixings: &[Option<Fixing>]) -> Option<Fault>
    ensures { faults_of result ≡ earliest (fixing_faults (fixings_of fixings.now)) }
{
    let mut found = None;
    'each: for fixing in fixings {
        found = sooner(found, fixing_fault(*fixing));
    }
    found
}

/// The region that a variable stands for. It is the heap if the variable is invalid or isn't instantiated.
fn region_by(fixing: Option<Fixing>) -> RegionId
    ensures { regions_of (result ∷ []) ≡ regions_by (fixings_of (fixing ∷ [])) }
{
    match fixing {
        Some(
            Fixing {
                is: Fixed::Is(region),
                ..
            },
        ) => region,
        _ => RegionId::Heap,
    }
}

/// The regions that the variables stand for.
pub(crate) fn regions_by(
    alloc: Global,
    fixings: &[Option<Fixing>],
) -> Result<Vec<RegionId>, AllocError>
    ensures { IfOk result (λ regions. regions_of regions.items ≡ regions_by (fixings_of fixings.now)) }
{
    let mut regions = Vec::new(alloc);
    'each: for fixing in fixings {
        regions.push(region_by(*fixing))?;
    }
    Ok(regions)
}
