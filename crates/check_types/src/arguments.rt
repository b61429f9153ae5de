// The region arguments of structs and unions as they are read.

ghost use Rattle.std.specs.Prelude.{◌≡◌, IfOk, false, map, option_map, replicate};
ghost use Rattle.cyc_tree.specs.View.{base_tree, region_tree};
ghost use Rattle.cyc_types.specs.Regions.{region_of};
ghost use Rattle.source_typing.specs.Faults.{earliest};
ghost use Rattle.source_typing.specs.Written.{all_found, any_missing, as_region, found_by};
ghost use Rattle.check_faults.specs.Faults.{faults_of};
ghost use Rattle.check_types.specs.Arguments.{count_meets, named_spots, spots_by, unique_faults, unique_in, written_arguments};
ghost use Rattle.check_types.specs.Reading.{listed};
ghost use Rattle.check_types.specs.Written.{partial_regions};

use crate::base::WrittenArguments;
use check_faults::{Fault, FaultKind, sooner};
use check_regions::RegionNames;
use cyc_tree::{Base, RegionName};
use cyc_types::RegionId;
use smallvec::SmallVec;
use std::alloc::{AllocError, Global};

/// The region arguments of a struct's or union's type that are written. Of another type there are none.
pub fn written_arguments(base: &Base) -> &[RegionName]
    ensures { map region_tree result.now ≡ written_arguments (base_tree base.now) }
{
    match base {
        Base::Struct(_, arguments) | Base::Union(_, arguments) => arguments.as_slice(),
        _ => &[],
    }
}

/// Whether these arguments fit `count` region parameters: all are written, or none.
pub(crate) fn count_fits(arguments: &[RegionName], count: u32) -> bool
    ensures { result ≡ count_meets (map region_tree arguments.now) count }
{
    arguments.is_empty() || arguments.len() == count as usize
}

/// Whether an argument is missing, where `count` are wanted.
pub(crate) fn misses_argument(arguments: &[RegionName], count: u32) -> bool
    ensures { result ≡ any_missing (spots_by count (map region_tree arguments.now)) }
{
    arguments.is_empty() && count > 0
}

/// The region of an argument. None: it is unknown, or the unique one.
pub(crate) fn argument_in(names: &RegionNames<'_>, argument: &RegionName) -> Option<RegionId>
    ensures { option_map region_of result ≡ as_region (found_by names.now (Some (region_tree argument.now)) false).0 }
{
    match argument {
        RegionName::Heap(_) => Some(RegionId::Heap),
        RegionName::Named(name) => names.find(&name.text),
        RegionName::Unique(_) => None,
    }
}

/// The fault of an argument: its name is unknown, or it is the unique region.
pub(crate) fn argument_fault(names: &RegionNames<'_>, argument: &RegionName) -> Option<Fault>
    ensures { (found_by names.now (Some (region_tree argument.now)) false).1 ≡ listed result }
{
    match argument {
        RegionName::Heap(_) => None,
        RegionName::Named(name) => match names.find(&name.text) {
            Some(_) => None,
            None => Some(Fault {
                kind: FaultKind::Region,
                at: name.at,
            }),
        },
        RegionName::Unique(at) => Some(Fault {
            kind: FaultKind::Region,
            at: *at,
        }),
    }
}

/// The earliest fault of arguments.
pub(crate) fn arguments_fault(names: &RegionNames<'_>, arguments: &[RegionName]) -> Option<Fault>
    ensures { faults_of result ≡ earliest (all_found names.now (named_spots (map region_tree arguments.now))).1 }
{
    let mut found = None;
    'each: for argument in arguments {
        found = sooner(found, argument_fault(names, argument));
    }
    found
}

/// The fault of a parameter's argument: it is the unique region.
pub(crate) fn unique_fault(argument: &RegionName) -> Option<Fault>
    ensures { unique_in (region_tree argument.now) ≡ listed result }
{
    match argument {
        RegionName::Unique(at) => Some(Fault {
            kind: FaultKind::Region,
            at: *at,
        }),
        RegionName::Heap(_) | RegionName::Named(_) => None,
    }
}

/// The earliest fault of a parameter's arguments.
pub(crate) fn unique_faults(arguments: &[RegionName]) -> Option<Fault>
    ensures { faults_of result ≡ earliest (unique_faults (map region_tree arguments.now)) }
{
    let mut found = None;
    'each: for argument in arguments {
        found = sooner(found, unique_fault(argument));
    }
    found
}

/// So many missing arguments.
fn missing_arguments(alloc: Global, count: u32) -> Result<WrittenArguments, AllocError>
    ensures { IfOk result (λ missing. missing.items ≡ replicate count None) }
{
    SmallVec::from_elem(alloc, None, count as usize)
}

/// The arguments with the regions that are found.
fn named_arguments(
    alloc: Global,
    names: &RegionNames<'_>,
    arguments: &[RegionName],
) -> Result<WrittenArguments, AllocError>
    ensures { IfOk result (λ found. partial_regions found.items
        ≡ map as_region (all_found names.now (named_spots (map region_tree arguments.now))).0) }
{
    let mut found = SmallVec::new(alloc);
    'each: for argument in arguments {
        found.push(argument_in(names, argument))?;
    }
    Ok(found)
}

/// The arguments with the regions that are found, or `count` missing ones if none is written.
pub(crate) fn found_arguments(
    alloc: Global,
    names: &RegionNames<'_>,
    count: u32,
    arguments: &[RegionName],
) -> Result<WrittenArguments, AllocError>
    ensures { IfOk result (λ found. partial_regions found.items
        ≡ map as_region (all_found names.now (spots_by count (map region_tree arguments.now))).0) }
{
    if arguments.is_empty() {
        let missing = missing_arguments(alloc, count)?;
        Ok(missing)
    } else {
        let found = named_arguments(alloc, names, arguments)?;
        Ok(found)
    }
}
