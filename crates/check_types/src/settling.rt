// Types as a text writes them, and where their missing regions come from.

ghost use Rattle.std.specs.Prelude.{◌≡◌, ◌-◌, IfOk, Some, length, option_map, take};
ghost use Rattle.source_typing.specs.Missing.{outer_region, settled};
ghost use Rattle.source_typing.specs.Types.{StaticType};
ghost use Rattle.cyc_types.specs.Layers.{outermost, pointed};
ghost use Rattle.cyc_types.specs.Shared.{listed};
ghost use Rattle.cyc_types.specs.Types.{static_type};
ghost use Rattle.check_faults.specs.Verdicts.{short_of, shortened};
ghost use Rattle.check_types.specs.Settling.{all_from, outer_found, reached};
ghost use Rattle.check_types.specs.Written.{partial_type};

use crate::base::WrittenBase;
use crate::layer::WrittenLayer;
use check_faults::{Fault, FaultKind, Verdict};
use cyc_types::{CType, Layer, Layers, PointerList};
use smallvec::SmallVec;
use std::alloc::{AllocError, Global};

/// The pointers of a type as a text writes it, the outermost last.
pub type WrittenLayers = SmallVec<WrittenLayer, 2>;

/// A type as a text writes it: a base, and the pointers to it from the base outwards.
#[derive(Drop)]
pub struct WrittenType<'p> {
    pub base: WrittenBase<'p>,
    pub layers: WrittenLayers,
}

/// The outermost of all pointers but the `depth` outermost ones.
fn outer_of(layers: PointerList<'_>, depth: usize) -> Option<Layer>
    ensures { result ≡ outermost (take (length (listed layers.entry) - depth) (listed layers.entry)) }
{
    let count = layers.len();
    if count <= depth {
        return None;
    }
    layers.get(count - depth - 1)
}

/// The outermost pointer of the type that is reached through `depth` pointers.
fn outer_at(source: Option<&CType<'_>>, depth: usize) -> Option<Layer>
    ensures { outer_found result ≡ outer_region (reached depth (option_map (λ s. static_type s.now) source.entry)) }
{
    match source {
        Some(of) => outer_of(of.layers.pointers(), depth),
        None => None,
    }
}

/// The pointers with their missing regions from a type. None: one that can't be unique would be.
fn layers_from(
    alloc: Global,
    written: &[WrittenLayer],
    source: Option<&CType<'_>>,
) -> Result<Option<Layers>, AllocError>
    ensures { (t : StaticType) → IfOk result (λ found. option_map (λ ls. pointed t ls.items) found
        ≡ all_from written.now (option_map (λ s. static_type s.now) source.entry) (Some t)) }
{
    let mut layers = Layers::new(alloc);
    let mut depth = written.len();
    'each: for layer in written {
        depth -= 1;
        match layer.settled(outer_at(source, depth)) {
            Some(pointer) => layers.push(pointer)?,
            None => return Ok(None),
        }
    }
    Ok(Some(layers.into_shared()?))
}

/// The type, where each missing region is the one at the same place of the source, from the outermost pointer inwards, and else the heap. A
/// pointer that can't be unique and would be is a fault at this position.
pub fn settled<'p>(
    written: WrittenType<'p>,
    at: u32,
    source: Option<&CType<'_>>,
) -> Result<Verdict<CType<'p>>, AllocError>
    ensures { IfOk result (λ v. short_of static_type v
        ≡ shortened (settled at (partial_type written.entry) (option_map (λ s. static_type s.now) source.entry))) }
{
    let WrittenType { base, layers } = written;
    let alloc = *layers.allocator();
    let filled = base.filled(alloc, source, layers.len())?;
    match layers_from(alloc, layers.as_slice(), source)? {
        Some(layers) => Ok(Verdict::Of(CType {
            base: filled,
            layers,
        })),
        None => Ok(Verdict::Wrong(Fault {
            kind: FaultKind::Typing,
            at,
        })),
    }
}
