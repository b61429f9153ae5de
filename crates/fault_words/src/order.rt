// Which regions of two types don't agree.

use crate::labels::{Label, Labels, base_regions, layer_region};
use crate::printed::say_region;
use crate::words::Words;
use check_scopes::Scope;
use cyc_types::{CType, Layer, RegionId};
use std::alloc::AllocError;

/// Two regions that don't agree: that of what was found, and of what was wanted.
#[derive(Clone, Copy)]
pub(crate) struct Apart {
    pub(crate) found: RegionId,
    pub(crate) wanted: RegionId,
    /// Whether they are the outermost pointers', of which one has to outlive the other; else they have to be the same.
    pub(crate) is_outer: bool,
}

/// The outermost region of a type.
fn outer_region(of: &CType<'_>) -> Option<RegionId> {
    match of.outer() {
        Some(layer) => layer_region(layer),
        None => None,
    }
}

/// The first pair of regions that are different.
fn first_apart(found: &[RegionId], wanted: &[RegionId]) -> Option<Apart> {
    for (one, other) in found.iter().zip(wanted.iter()) {
        if !one.is_same(*other) {
            return Some(Apart {
                found: *one,
                wanted: *other,
                is_outer: false,
            });
        }
    }
    None
}

/// The regions of two pointers, where they are different.
fn layers_apart(one: Layer, other: Layer) -> Option<Apart> {
    match (layer_region(one), layer_region(other)) {
        (Some(found), Some(wanted)) if !found.is_same(wanted) => Some(Apart {
            found,
            wanted,
            is_outer: false,
        }),
        _ => None,
    }
}

/// The regions of two types that have to be the same, and aren't.
fn inner_apart(found: &CType<'_>, wanted: &CType<'_>) -> Option<Apart> {
    let mine = found.layers.pointers();
    let theirs = wanted.layers.pointers();
    for index in 0..mine.len().saturating_sub(1) {
        if let (Some(one), Some(other)) = (mine.get(index), theirs.get(index)) {
            if let Some(apart) = layers_apart(one, other) {
                return Some(apart);
            }
        }
    }
    first_apart(base_regions(&found.base), base_regions(&wanted.base))
}

/// The regions of two types that don't agree. Fails only where no host memory is left, as all of these.
pub(crate) fn regions_apart(
    scope: &Scope<'_, '_>,
    found: &CType<'_>,
    wanted: &CType<'_>,
) -> Result<Option<Apart>, AllocError> {
    if let (Some(one), Some(other)) = (outer_region(found), outer_region(wanted)) {
        if !scope.outlives(one, other)? {
            return Ok(Some(Apart {
                found: one,
                wanted: other,
                is_outer: true,
            }));
        }
    }
    Ok(inner_apart(found, wanted))
}

/// Says where a name stands that a region is called by.
fn say_place(words: &mut Words<'_>, at: u32, said: &str, name: &[u8]) -> Result<(), AllocError> {
    words.say(" (")?;
    words.position(at)?;
    words.relate(at, said, name)?;
    words.say(")")
}

/// Says a region, and where its name stands.
fn say_origin(
    words: &mut Words<'_>,
    labels: &Labels<'_>,
    region: RegionId,
) -> Result<(), AllocError> {
    say_region(words, labels, region)?;
    match labels.of(region) {
        Some(Label::Named(name, at)) => say_place(words, at, "region named here: `", name),
        Some(Label::Of(name, at) | Label::Within(name, at)) => {
            say_place(words, at, "declared here: ", name)
        }
        _ => Ok(()),
    }
}

/// Says in which order two regions have to be.
pub(crate) fn say_order(
    words: &mut Words<'_>,
    labels: &Labels<'_>,
    apart: Apart,
) -> Result<(), AllocError> {
    words.say("The region ")?;
    say_origin(words, labels, apart.found)?;
    words.say(if apart.is_outer {
        " has to outlive "
    } else {
        " has to be "
    })?;
    say_origin(words, labels, apart.wanted)?;
    words.say(".\n")
}
