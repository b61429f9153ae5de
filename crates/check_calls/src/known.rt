// Which regions of a parameter's type are known.

ghost use Rattle.std.specs.Prelude.{◌≡◌, [], ◌∷◌};
ghost use Rattle.std.specs.List.{list_all};
ghost use Rattle.cyc_types.specs.Bases.{base_type};
ghost use Rattle.cyc_types.specs.Regions.{region_of};
ghost use Rattle.cyc_types.specs.Shared.{listed};
ghost use Rattle.cyc_types.specs.Types.{static_type};
ghost use Rattle.source_typing.specs.Fixing.{all_regions, is_known};
ghost use Rattle.source_typing.specs.Regions.{Level};
ghost use Rattle.check_calls.specs.Fixings.{fixings_of, which_are_known};
ghost use Rattle.check_calls.specs.Held.{layer_holds};

use crate::fixing::{Fixed, Fixing};
use cyc_types::{BaseType, CType, Layer, PointerList, RegionId};

/// Whether it is known what a variable stands for.
fn is_known_variable(fixings: &[Option<Fixing>], variable: usize) -> bool
    ensures { result ≡ is_known (which_are_known (fixings_of fixings.now)) (Level variable) }
{
    if variable < fixings.len() {
        stands_for_one(fixings[variable])
    } else {
        false
    }
}

/// Whether a variable that is instantiated so stands for a region.
fn stands_for_one(fixing: Option<Fixing>) -> bool
    ensures { result ≡ is_known (which_are_known (fixings_of (fixing ∷ []))) (Level 0) }
{
    match fixing {
        Some(
            Fixing {
                is: Fixed::Is(_),
                ..
            },
        ) => true,
        _ => false,
    }
}

/// Whether it is known what a region of a parameter's type stands for.
fn is_known(fixings: &[Option<Fixing>], region: RegionId) -> bool
    ensures { result ≡ is_known (which_are_known (fixings_of fixings.now)) (region_of region) }
{
    match region {
        RegionId::Heap => true,
        RegionId::Level(variable) => is_known_variable(fixings, variable as usize),
    }
}

/// Whether it is known what a pointer's region stands for.
fn is_known_pointer(fixings: &[Option<Fixing>], pointer: Layer) -> bool
    ensures { result ≡ layer_holds (is_known (which_are_known (fixings_of fixings.now))) pointer }
{
    match pointer {
        Layer::Thin(_, region) | Layer::Fat(region) => is_known(fixings, region),
        Layer::Unique(_) => true,
    }
}

/// Whether it is known what the pointers' regions stand for.
fn are_known_pointers(fixings: &[Option<Fixing>], pointers: PointerList<'_>) -> bool
    ensures { result ≡ list_all (layer_holds (is_known (which_are_known (fixings_of fixings.now)))) (listed pointers.entry) }
{
    pointers
        .inner
        .iter()
        .chain(pointers.outer.iter())
        .all(|pointer| is_known_pointer(fixings, *pointer))
}

/// Whether it is known what the region arguments stand for.
fn are_known(fixings: &[Option<Fixing>], regions: &[RegionId]) -> bool
    ensures { result ≡ list_all (λ r. is_known (which_are_known (fixings_of fixings.now)) (region_of r)) regions.now }
{
    regions.iter().all(|region| is_known(fixings, *region))
}

/// Whether it is known what the regions of a type that is no pointer stand for.
#[tactic(auto, using(crate::proofs::Holding::each_is))]
fn is_known_base(fixings: &[Option<Fixing>], of: &BaseType) -> bool
    ensures { result ≡ all_regions (is_known (which_are_known (fixings_of fixings.now))) (base_type of.now) }
{
    match of {
        BaseType::Handle(region) | BaseType::Key(region) => is_known(fixings, *region),
        BaseType::Struct(_, regions) => are_known(fixings, regions.as_slice()),
        BaseType::Union(_, regions) => are_known(fixings, regions.as_slice()),
        _ => true,
    }
}

/// Whether it is known what all regions of a type stand for.
pub(crate) fn is_known_type(fixings: &[Option<Fixing>], of: &CType) -> bool
    ensures { result ≡ all_regions (is_known (which_are_known (fixings_of fixings.now))) (static_type of.now) }
{
    let pointers = are_known_pointers(fixings, of.layers.pointers());
    let base = is_known_base(fixings, &of.base);
    pointers && base
}
