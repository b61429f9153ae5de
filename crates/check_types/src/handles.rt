// Types of handles and of keys.

ghost use Rattle.std.specs.Prelude.{◌≡◌, IfOk, option_map};
ghost use Rattle.cyc_tree.specs.View.{base_tree, region_tree, type_tree};
ghost use Rattle.cyc_types.specs.Regions.{region_of};
ghost use Rattle.source_typing.specs.Tables.{Tables};
ghost use Rattle.source_typing.specs.Written.{written};
ghost use Rattle.check_faults.specs.Verdicts.{short_of, shortened};
ghost use Rattle.check_types.specs.Handles.{is_key_base, region_base, region_type};
ghost use Rattle.check_types.specs.Written.{partial_base, partial_type};

use crate::arguments::{argument_fault, argument_in};
use crate::base::WrittenBase;
use crate::layers::{named_layers, regions_fault};
use crate::reading::built;
use crate::settling::WrittenType;
use check_faults::{Verdict, sooner};
use check_regions::RegionNames;
use cyc_tree::{Base, RegionName, TypeName};
use cyc_types::RegionId;
use std::alloc::{AllocError, Global};

/// A key of this region, or else its handle.
pub(crate) fn region_base<'p>(of: &Base, region: Option<RegionId>) -> WrittenBase<'p>
    ensures { partial_base result ≡ region_type (is_key_base (base_tree of.now)) (option_map region_of region) }
{
    match of {
        Base::Key(_) => WrittenBase::Key(region),
        _ => WrittenBase::Handle(region),
    }
}

/// A type of handles or keys of this region.
pub(crate) fn written_handle<'p>(
    alloc: Global,
    names: &RegionNames<'_>,
    of: &TypeName,
    region: &RegionName,
) -> Result<Verdict<WrittenType<'p>>, AllocError>
    ensures { (g : Tables) → let t = type_tree of.now in t.base ≡ region_base (is_key_base t.base) (region_tree region.now)
        → IfOk result (λ v. short_of partial_type v ≡ shortened (written g names.now t)) }
{
    match sooner(
        argument_fault(names, region),
        regions_fault(names, &of.pointers),
    ) {
        Some(fault) => Ok(Verdict::Wrong(fault)),
        None => {
            let layers = named_layers(alloc, names, &of.pointers)?;
            let base = region_base(&of.base, argument_in(names, region));
            Ok(built(of.at, base, layers))
        }
    }
}
