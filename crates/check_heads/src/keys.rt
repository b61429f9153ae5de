// The keys among parameters.

ghost use Rattle.std.specs.Prelude.{◌≡◌, ◌++◌, IfOk, OnOk, option_map};
ghost use Rattle.cyc_types.specs.Bases.{base_type};
ghost use Rattle.cyc_types.specs.Regions.{region_of, regions_of};
ghost use Rattle.cyc_types.specs.Types.{static_type};
ghost use Rattle.check_heads.specs.Bodies.{types_of};
ghost use Rattle.check_heads.specs.Heads.{known_static};
ghost use Rattle.check_heads.specs.Used.{key_of, keys_of, known_key, listed};

use crate::head::Parameter;
use check_faults::Verdict;
use cyc_types::{BaseType, CType, RegionId};
use std::alloc::{AllocError, Global};

/// The region of a key, which is no pointer.
fn base_key(of: &BaseType<'_>) -> Option<RegionId>
    ensures { option_map region_of result ≡ key_of (base_type of.now) }
{
    match of {
        BaseType::Key(region) => Some(*region),
        _ => None,
    }
}

/// The region of a key.
fn key_region(of: &CType<'_>) -> Option<RegionId>
    ensures { option_map region_of result ≡ key_of (static_type of.now) }
{
    match of.outer() {
        Some(_) => None,
        None => base_key(&of.base),
    }
}

/// The region of a key, where the type is known.
fn known_key(of: &Verdict<CType<'_>>) -> Option<RegionId>
    ensures { option_map region_of result ≡ known_key (known_static of.now) }
{
    match of {
        Verdict::Of(of) => key_region(of),
        Verdict::Wrong(_) | Verdict::NotJudged => None,
    }
}

/// Adds the region of a key, where the type is one.
fn add_key(regions: &mut Vec<RegionId>, of: &Verdict<CType<'_>>) -> Result<(), AllocError>
    ensures { OnOk result (regions_of regions.new.items ≡ regions_of regions.old.items ++ listed (known_key (known_static of.now))) }
{
    match known_key(of) {
        Some(region) => {
            regions.push(region)?;
            Ok(())
        }
        None => Ok(()),
    }
}

/// The regions of the keys among parameters.
pub(crate) fn key_regions(
    alloc: Global,
    parameters: &[Parameter<'_>],
) -> Result<Vec<RegionId>, AllocError>
    ensures { IfOk result (λ rs. regions_of rs.items ≡ keys_of (types_of parameters.now)) }
{
    let mut regions = Vec::new(alloc);
    'each: for parameter in parameters {
        add_key(&mut regions, &parameter.of)?;
    }
    Ok(regions)
}
