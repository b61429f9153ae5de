// The pointers of types as they are read.

ghost use Rattle.std.specs.Prelude.{◌≡◌, IfOk, Some, false, is_none, option_map, true};
ghost use Rattle.std.specs.List.{list_any};
ghost use Rattle.cyc_tree.specs.View.{pointer_tree, region_tree};
ghost use Rattle.cyc_types.specs.Reaches.{reach_of};
ghost use Rattle.cyc_types.specs.Regions.{region_of};
ghost use Rattle.source_typing.specs.Faults.{earliest};
ghost use Rattle.source_typing.specs.Types.{PartialType};
ghost use Rattle.source_typing.specs.Written.{IsUnique, all_found, found_by, pointers_to, thin_to};
ghost use Rattle.check_faults.specs.Faults.{faults_of};
ghost use Rattle.check_types.specs.Reading.{and_layer, found_of, is_unique_name, led_by, listed, made, pointer_spots, pointer_trees};
ghost use Rattle.check_types.specs.Written.{partial_to};

use crate::layer::WrittenLayer;
use crate::settling::WrittenLayers;
use check_faults::{Fault, FaultKind, sooner};
use check_regions::RegionNames;
use cyc_tree::{Pointer, RegionName, Sign};
use cyc_types::{Reach, RegionId};
use smallvec::SmallVec;
use std::alloc::{AllocError, Global};

/// Whether a pointer's region is the unique one.
pub(crate) fn is_unique(region: &Option<RegionName>) -> bool
    ensures { result ≡ is_unique_name (option_map region_tree region.now) }
{
    matches!(region, Some(RegionName::Unique(_)))
}

/// Whether a region is missing in one of the pointers.
pub(crate) fn any_misses(pointers: &[Pointer]) -> bool
    ensures { result ≡ list_any (λ p. is_none (pointer_tree p).region) pointers.now }
{
    pointers.iter().any(|pointer| pointer.region.is_none())
}

/// A thin pointer in a region that isn't the unique one. None: it leads to no element.
fn thin_layer(bound: Reach, region: Option<RegionId>) -> Option<WrittenLayer>
    ensures { (t : PartialType) → option_map (λ l. partial_to l t) result ≡ thin_to (reach_of bound) (found_of (option_map region_of region)) t }
{
    if bound.count() == 0 {
        None
    } else {
        Some(WrittenLayer::Thin(bound, region))
    }
}

/// A thin pointer in the unique region. None: it leads to more elements than one, or to none.
fn unique_thin(bound: Reach) -> Option<WrittenLayer>
    ensures { (t : PartialType) → option_map (λ l. partial_to l t) result ≡ thin_to (reach_of bound) IsUnique t }
{
    if bound.count() == 1 {
        Some(WrittenLayer::Unique(bound.may_be_null()))
    } else {
        None
    }
}

/// A pointer of this sign, in a region that isn't the unique one. None: it leads to no element.
pub(crate) fn layer_of(sign: Sign, region: Option<RegionId>) -> Option<WrittenLayer>
    ensures { (t : PartialType) → option_map (λ l. partial_to l t) result ≡ made sign (found_of (option_map region_of region)) t }
{
    match sign {
        Sign::Nullable(count) => thin_layer(Reach::MayBeNull(count), region),
        Sign::NotNull(count) => thin_layer(Reach::NeverNull(count), region),
        Sign::Fat => Some(WrittenLayer::Fat(region)),
    }
}

/// A pointer of this sign in the unique region. None: it would be a fat one, or one to more elements than one or to none.
pub(crate) fn unique_layer(sign: Sign) -> Option<WrittenLayer>
    ensures { (t : PartialType) → option_map (λ l. partial_to l t) result ≡ made sign IsUnique t }
{
    match sign {
        Sign::Nullable(count) => unique_thin(Reach::MayBeNull(count)),
        Sign::NotNull(count) => unique_thin(Reach::NeverNull(count)),
        Sign::Fat => None,
    }
}

/// One pointer more.
pub(crate) fn and_layer(
    layers: Option<WrittenLayers>,
    layer: Option<WrittenLayer>,
) -> Result<Option<WrittenLayers>, AllocError>
    ensures { IfOk result (λ more. option_map (λ ls. ls.items) more ≡ and_layer (option_map (λ ls. ls.items) layers) layer) }
{
    match (layers, layer) {
        (Some(mut layers), Some(layer)) => {
            layers.push(layer)?;
            Ok(Some(layers))
        }
        (_, _) => Ok(None),
    }
}

/// The region that is found of a pointer that isn't unique. None: it is missing, or unknown.
fn region_in(names: &RegionNames<'_>, region: &Option<RegionName>) -> Option<RegionId>
    ensures { is_unique_name (option_map region_tree region.now) ≡ false
        → (found_by names.now (option_map region_tree region.now) true).0 ≡ found_of (option_map region_of result) }
{
    match region {
        Some(RegionName::Heap(_)) => Some(RegionId::Heap),
        Some(RegionName::Named(name)) => names.find(&name.text),
        Some(RegionName::Unique(_)) | None => None,
    }
}

/// The pointer with the region that is found. None: it can't be in that region, or leads to no element.
fn layer_in(names: &RegionNames<'_>, pointer: &Pointer) -> Option<WrittenLayer>
    ensures { (t : PartialType) → option_map (λ l. partial_to l t) result
        ≡ made pointer.now.sign (found_by names.now (option_map region_tree pointer.now.region) true).0 t }
{
    if is_unique(&pointer.region) {
        unique_layer(pointer.sign)
    } else {
        layer_of(pointer.sign, region_in(names, &pointer.region))
    }
}

/// The fault of a pointer's region: its name is unknown.
fn region_fault(names: &RegionNames<'_>, region: &Option<RegionName>) -> Option<Fault>
    ensures { (found_by names.now (option_map region_tree region.now) true).1 ≡ listed result }
{
    match region {
        Some(RegionName::Named(name)) => match names.find(&name.text) {
            Some(_) => None,
            None => Some(Fault {
                kind: FaultKind::Region,
                at: name.at,
            }),
        },
        Some(RegionName::Heap(_) | RegionName::Unique(_)) | None => None,
    }
}

/// The earliest fault of the pointers' regions.
pub(crate) fn regions_fault(names: &RegionNames<'_>, pointers: &[Pointer]) -> Option<Fault>
    ensures { faults_of result ≡ earliest (all_found names.now (pointer_spots pointers.now)).1 }
{
    let mut found = None;
    'each: for pointer in pointers {
        found = sooner(found, region_fault(names, &pointer.region));
    }
    found
}

/// The pointers with the regions that are found. None: one of them can't be in its region, or leads to no element.
pub(crate) fn named_layers(
    alloc: Global,
    names: &RegionNames<'_>,
    pointers: &[Pointer],
) -> Result<Option<WrittenLayers>, AllocError>
    ensures { (b : PartialType) → IfOk result (λ ls. pointers_to (pointer_trees pointers.now) (all_found names.now (pointer_spots pointers.now)).0 (Some b)
        ≡ led_by (option_map (λ ls. ls.items) ls) b) }
{
    let mut layers = Some(SmallVec::new(alloc));
    'each: for pointer in pointers {
        layers = and_layer(layers, layer_in(names, pointer))?;
    }
    Ok(layers)
}
