// Types as they are read.

ghost use Rattle.std.specs.Prelude.{◌≡◌, IfOk, None, option_map};
ghost use Rattle.cyc_tree.specs.View.{type_tree};
ghost use Rattle.source_typing.specs.Written.{type_built};
ghost use Rattle.check_faults.specs.Verdicts.{short_of, shortened};
ghost use Rattle.check_types.specs.Reading.{led_by};
ghost use Rattle.check_types.specs.Tagged.{pointed_on};
ghost use Rattle.check_types.specs.Written.{partial_base, partial_type};

use crate::base::{WrittenBase, can_lead};
use crate::layers::{named_layers, regions_fault};
use crate::settling::{WrittenLayers, WrittenType};
use check_faults::{Fault, FaultKind, Verdict};
use check_regions::RegionNames;
use cyc_tree::TypeName;
use std::alloc::{AllocError, Global};

/// What a wrong type is.
fn refused<'p>(at: u32) -> Verdict<WrittenType<'p>>
    ensures { short_of partial_type result ≡ shortened (type_built at None) }
{
    Verdict::Wrong(Fault {
        kind: FaultKind::Typing,
        at,
    })
}

/// The type of pointers on a base, or the fault at this position if no pointer can lead to the base or the pointers aren't possible.
pub(crate) fn built<'p>(
    at: u32,
    base: WrittenBase<'p>,
    layers: Option<WrittenLayers>,
) -> Verdict<WrittenType<'p>>
    ensures { short_of partial_type result ≡ shortened (type_built at (led_by (option_map (λ ls. ls.items) layers) (partial_base base.entry))) }
{
    match layers {
        Some(layers) => {
            if layers.is_empty() || can_lead(&base) {
                Verdict::Of(WrittenType { base, layers })
            } else {
                refused(at)
            }
        }
        None => refused(at),
    }
}

/// The pointers of a type on a base.
pub(crate) fn pointers_on<'p>(
    alloc: Global,
    names: &RegionNames<'_>,
    of: &TypeName,
    base: WrittenBase<'p>,
) -> Result<Verdict<WrittenType<'p>>, AllocError>
    ensures { IfOk result (λ v. short_of partial_type v ≡ shortened (pointed_on names.now (type_tree of.now) (partial_base base.entry))) }
{
    match regions_fault(names, &of.pointers) {
        Some(fault) => Ok(Verdict::Wrong(fault)),
        None => {
            let layers = named_layers(alloc, names, &of.pointers)?;
            Ok(built(of.at, base, layers))
        }
    }
}
