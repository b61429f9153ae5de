// The effects and bounds of heads.

ghost use Rattle.std.specs.Prelude.{◌≡◌, ◌++◌, IfOk, OnOk, map, not, option_map, ◌||◌};
ghost use Rattle.std.specs.List.{list_any};
ghost use Rattle.cyc_tree.specs.View.{bound_tree, effect_tree, region_tree};
ghost use Rattle.cyc_types.specs.Regions.{region_of, regions_of};
ghost use Rattle.check_regions.specs.Fields.{pair_of};
ghost use Rattle.source_typing.specs.Functions.{bounds_of, effect_of, effect_region, if_no_key, levels_but, used_named, used_region};
ghost use Rattle.source_typing.specs.Regions.{is_among, same_id};
ghost use Rattle.check_faults.specs.Faults.{sooner_found};
ghost use Rattle.check_faults.specs.Verdicts.{fault_found, short_of, shortened};
ghost use Rattle.check_heads.specs.Used.{IsUsed, bound_by, in_order, level_unless};

use check_faults::{Fault, FaultKind, Verdict, sooner};
use check_regions::RegionNames;
use check_types::RegionVariables;
use cyc_tree::{Bound, RegionName, RegionNames as WrittenNames};
use cyc_types::RegionId;
use std::alloc::{AllocError, Global};

/// What is known of phrases that are in order, and the earliest fault of the others.
#[derive(Drop)]
pub(crate) struct Used<T> {
    pub(crate) known: Vec<T>,
    pub(crate) fault: Option<Fault>,
}

impl<T: Drop> Used<T> {
    /// With one phrase more.
    fn add(&mut self, of: Verdict<T>) -> Result<(), AllocError>
        ensures known { OnOk result (self.new.known.items ≡ self.old.known.items ++ in_order of) }
        ensures fault { OnOk result (self.new.fault ≡ sooner_found self.old.fault (fault_found of)) }
    {
        self.fault = sooner(self.fault, of.fault());
        if let Verdict::Of(known) = of {
            self.known.push(known)?;
        }
        Ok(())
    }
}

/// A region that is used by a name, by what the name is found to be.
fn known_region(found: Option<RegionId>, at: u32) -> Verdict<RegionId>
    ensures { short_of region_of result ≡ shortened (used_named at (option_map region_of found)) }
{
    match found {
        Some(region) => Verdict::Of(region),
        None => Verdict::Wrong(Fault {
            kind: FaultKind::Region,
            at,
        }),
    }
}

/// A region name of an effect or a bound, where the region variables have these names.
fn used_region(names: &RegionNames<'_>, region: &RegionName) -> Verdict<RegionId>
    ensures { short_of region_of result ≡ shortened (used_region names.now (region_tree region.now)) }
{
    match region {
        RegionName::Heap(_) => Verdict::Of(RegionId::Heap),
        RegionName::Named(name) => known_region(names.find(&name.text), name.at),
        RegionName::Unique(at) => known_region(None, *at),
    }
}

/// Whether a region is one of these.
fn is_one_of(regions: &[RegionId], region: RegionId) -> bool
    ensures { result ≡ list_any (λ r. same_id (region_of r) (region_of region)) regions.now }
{
    regions.iter().any(|one| one.is_same(region))
}

/// Whether a region is one of these.
fn is_among(regions: &[RegionId], region: RegionId) -> bool
    ensures { result ≡ is_among (regions_of regions.now) (region_of region) }
{
    is_one_of(regions, region)
}

/// Whether an effect may name a region, where keys are of these regions.
fn may_name(lenient: bool, keys: &[RegionId], region: RegionId) -> bool
    ensures { result ≡ (lenient || not (is_among (regions_of keys.now) (region_of region))) }
{
    lenient || !is_among(keys, region)
}

/// The region that an effect names, with a fault at the name unless it fits: keys' regions don't.
fn unless_key(fits: bool, region: RegionId, at: u32) -> Verdict<RegionId>
    ensures { short_of region_of result ≡ shortened (if_no_key fits at (region_of region)) }
{
    if fits {
        Verdict::Of(region)
    } else {
        Verdict::Wrong(Fault {
            kind: FaultKind::Effect,
            at,
        })
    }
}

/// A region name of an effect, where the region variables have these names, and keys among the parameters are of these regions.
fn effect_region(
    lenient: bool,
    names: &RegionNames<'_>,
    keys: &[RegionId],
    region: &RegionName,
) -> Verdict<RegionId>
    ensures { short_of region_of result ≡ shortened (effect_region lenient names.now (regions_of keys.now) (region_tree region.now)) }
{
    match used_region(names, region) {
        Verdict::Of(found) => {
            let fits = may_name(lenient, keys, found);
            unless_key(fits, found, region.place())
        }
        Verdict::Wrong(fault) => Verdict::Wrong(fault),
        Verdict::NotJudged => Verdict::NotJudged,
    }
}

/// The regions of an effect that is written, where the region variables have these names, and keys among the parameters are of these
/// regions.
fn effect_regions(
    alloc: Global,
    lenient: bool,
    names: &RegionNames<'_>,
    keys: &[RegionId],
    regions: &[RegionName],
) -> Result<Used<RegionId>, AllocError>
    ensures { IfOk result (IsUsed region_of (map (effect_region lenient names.now (regions_of keys.now)) (map region_tree regions.now))) }
{
    let mut used = Used {
        known: Vec::new(alloc),
        fault: None,
    };
    'each: for region in regions {
        used.add(effect_region(lenient, names, keys, region))?;
    }
    Ok(used)
}

/// Adds a region variable, unless it is one of these.
fn add_level(regions: &mut Vec<RegionId>, keys: &[RegionId], level: u32) -> Result<(), AllocError>
    ensures { OnOk result (regions_of regions.new.items ≡ regions_of regions.old.items ++ level_unless (regions_of keys.now) level) }
{
    let region = RegionId::Level(level);
    if is_among(keys, region) {
        return Ok(());
    }
    regions.push(region)?;
    Ok(())
}

/// So many region variables but those of keys, the latest first.
fn levels_but(alloc: Global, keys: &[RegionId], count: u32) -> Result<Vec<RegionId>, AllocError>
    ensures { IfOk result (λ rs. regions_of rs.items ≡ levels_but (regions_of keys.now) count) }
{
    let mut regions = Vec::new(alloc);
    let mut rest = count;
    'each: while rest > 0 {
        rest -= 1;
        add_level(&mut regions, keys, rest)?;
    }
    Ok(regions)
}

/// The regions that have to be live where a function with these region variables and keys of these regions is called: those that its effect
/// names, or else all its region variables but those of the keys.
pub(crate) fn effect_of(
    alloc: Global,
    lenient: bool,
    variables: &RegionVariables<'_>,
    keys: &[RegionId],
    effect: &Option<WrittenNames>,
) -> Result<Used<RegionId>, AllocError>
    ensures { IfOk result (IsUsed region_of (effect_of lenient variables.now (regions_of keys.now) (effect_tree effect.now))) }
{
    match effect {
        Some(regions) => {
            let written = regions.as_slice();
            effect_regions(alloc, lenient, variables.names(), keys, written)
        }
        None => {
            let known = levels_but(alloc, keys, variables.count())?;
            Ok(Used { known, fault: None })
        }
    }
}

/// A bound, where the region variables have these names.
fn used_bound(names: &RegionNames<'_>, bound: &Bound) -> Verdict<(RegionId, RegionId)>
    ensures { short_of pair_of result ≡ shortened (bound_by names.now (bound_tree bound.now)) }
{
    let longer = used_region(names, &bound.longer);
    longer.paired(used_region(names, &bound.shorter))
}

/// The bounds of a function whose region variables have these names.
pub(crate) fn bounds_of(
    alloc: Global,
    names: &RegionNames<'_>,
    bounds: &[Bound],
) -> Result<Used<(RegionId, RegionId)>, AllocError>
    ensures { IfOk result (IsUsed pair_of (bounds_of names.now (map bound_tree bounds.now))) }
{
    let mut used = Used {
        known: Vec::new(alloc),
        fault: None,
    };
    'each: for bound in bounds {
        used.add(used_bound(names, bound))?;
    }
    Ok(used)
}
