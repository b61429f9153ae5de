// How parameters are to be declared whose regions don't agree.

use crate::labels::{Label, Labels, base_regions, layer_region};
use crate::order::Apart;
use crate::printed::{say_base, say_sign};
use crate::used::end_of;
use crate::words::Words;
use check_faults::Verdict;
use check_heads::Head;
use cyc_tree::{Function, Member};
use cyc_types::{CType, PointerList, RegionId};
use std::alloc::AllocError;

/// The name that regions without one are to have: two that are apart, or all of a parameter's type.
#[derive(Clone, Copy)]
struct Cure<'a> {
    apart: Apart,
    name: &'a [u8],
    of_all: bool,
}

impl<'a> Cure<'a> {
    /// Whether a region is to have the name.
    fn is_of(self, labels: &Labels<'_>, region: RegionId) -> bool {
        let is_apart = region.is_same(self.apart.found) || region.is_same(self.apart.wanted);
        is_apart || (self.of_all && parameter_of(labels, region).is_some())
    }

    /// The name that a region is to have, where it has one.
    fn name_of<'n>(self, labels: &Labels<'n>, region: RegionId) -> Option<&'n [u8]>
    where
        'a: 'n,
    {
        if region.is_heap() {
            return Some(b"H".as_slice());
        }
        if self.is_of(labels, region) {
            return Some(self.name);
        }
        name_given(labels, region)
    }
}

/// Says the name that a region is to have, where it has one.
fn say_cured(
    words: &mut Words<'_>,
    labels: &Labels<'_>,
    cure: Cure<'_>,
    region: RegionId,
) -> Result<(), AllocError> {
    match cure.name_of(labels, region) {
        Some(name) => {
            words.say("`")?;
            words.name(name)
        }
        None => Ok(()),
    }
}

/// Whether a region has a name or is to have one.
fn has_name(labels: &Labels<'_>, cure: Cure<'_>, region: RegionId) -> bool {
    cure.name_of(labels, region).is_some()
}

/// Whether each region of a struct's type has a name or is to have one.
fn has_names(labels: &Labels<'_>, cure: Cure<'_>, regions: &[RegionId]) -> bool {
    for region in regions {
        if !has_name(labels, cure, *region) {
            return false;
        }
    }
    !regions.is_empty()
}

/// Says the regions of a struct's type, where all of them have names.
fn say_arguments(
    words: &mut Words<'_>,
    labels: &Labels<'_>,
    cure: Cure<'_>,
    regions: &[RegionId],
) -> Result<(), AllocError> {
    if !has_names(labels, cure, regions) {
        return Ok(());
    }
    let mut before = "<";
    for region in regions {
        words.say(before)?;
        say_cured(words, labels, cure, *region)?;
        before = ", ";
    }
    words.say(">")
}

/// Says a parameter's pointers, as they are to be written. Answers whether a name ends them.
fn say_pointers(
    words: &mut Words<'_>,
    labels: &Labels<'_>,
    cure: Cure<'_>,
    layers: PointerList<'_>,
) -> Result<bool, AllocError> {
    let mut is_named = false;
    for layer in layers.inner.iter().chain(layers.outer.iter()) {
        if is_named {
            words.say(" ")?;
        }
        say_sign(words, *layer)?;
        is_named = false;
        if let Some(region) = layer_region(*layer) {
            say_cured(words, labels, cure, region)?;
            is_named = has_name(labels, cure, region);
        }
    }
    Ok(is_named)
}

/// Says the declaration of a parameter, as it is to be written.
fn say_declaration(
    words: &mut Words<'_>,
    labels: &Labels<'_>,
    cure: Cure<'_>,
    of: &CType<'_>,
    name: &[u8],
) -> Result<(), AllocError> {
    say_base(words, labels, &of.base)?;
    say_arguments(words, labels, cure, base_regions(&of.base))?;
    words.say(" ")?;
    let is_named = say_pointers(words, labels, cure, of.layers.pointers())?;
    words.say(if is_named { " " } else { "" })?;
    words.name(name)
}

/// Whether all regions of a parameter's type are to have one name: it is a pointer to a struct or union with regions.
fn is_alike(of: &CType<'_>) -> bool {
    of.layers.len() == 1 && !base_regions(&of.base).is_empty()
}

/// The parameter that a region is of which has no name, by where it stands.
fn parameter_of(labels: &Labels<'_>, region: RegionId) -> Option<u32> {
    match labels.of(region) {
        Some(Label::Of(_, at) | Label::Within(_, at)) => Some(at),
        _ => None,
    }
}

/// Says how a parameter of this type is to be declared, and tells it as an edit.
fn say_parameter_of(
    words: &mut Words<'_>,
    labels: &Labels<'_>,
    cure: Cure<'_>,
    of: &CType<'_>,
    written: &Member,
) -> Result<(), AllocError> {
    words.say("At ")?;
    let declared = &written.name;
    words.position(declared.at)?;
    words.relate(declared.at, "declared here: ", &declared.text)?;
    words.say(" write: ")?;
    let from = words.len();
    let of_all = is_alike(of);
    say_declaration(
        words,
        labels,
        Cure { of_all, ..cure },
        of,
        &written.name.text,
    )?;
    words.mend_as_said(written.of.at, end_of(&written.name), from)?;
    words.say("\n")
}

/// Says how a parameter is to be declared, of those that a head has and that are written so.
fn say_parameter(
    words: &mut Words<'_>,
    labels: &Labels<'_>,
    head: &Head<'_>,
    written: &[Member],
    cure: Cure<'_>,
    at: u32,
) -> Result<(), AllocError> {
    for (parameter, member) in head.parameters.iter().zip(written.iter()) {
        if parameter.at == at {
            if let Verdict::Of(of) = &parameter.of {
                say_parameter_of(words, labels, cure, of, member)?;
            }
        }
    }
    Ok(())
}

/// The name of a region as it is written before a function's, of those that `new_name` gives.
fn named_before(name: &[u8]) -> &'static [u8] {
    match name {
        [b'r'] => b"`r ",
        [b's'] => b"`s ",
        _ => b"`t ",
    }
}

/// A name that no region has.
fn new_name(labels: &Labels<'_>) -> &'static [u8] {
    if !labels.has_name(b"r") {
        b"r"
    } else if !labels.has_name(b"s") {
        b"s"
    } else {
        b"t"
    }
}

/// The name that both regions are to have; none, where no name mends it.
fn name_for<'n>(labels: &Labels<'n>, apart: Apart) -> Option<&'n [u8]> {
    let found = parameter_of(labels, apart.found);
    let wanted = parameter_of(labels, apart.wanted);
    match (found, wanted) {
        (Some(_), Some(_)) => Some(new_name(labels)),
        (Some(_), None) => name_given(labels, apart.wanted),
        (None, Some(_)) => name_given(labels, apart.found),
        (None, None) => None,
    }
}

/// The name of a region that a text may write.
fn name_given<'n>(labels: &Labels<'n>, region: RegionId) -> Option<&'n [u8]> {
    if region.is_heap() {
        return Some(b"H".as_slice());
    }
    match labels.of(region) {
        Some(Label::Named(name, _)) => Some(name),
        _ => None,
    }
}

/// Says how the parameters are to be declared whose regions don't agree, where they have none of a name.
pub(crate) fn say_cure(
    words: &mut Words<'_>,
    labels: &Labels<'_>,
    head: &Head<'_>,
    written: &[Member],
    apart: Apart,
) -> Result<(), AllocError> {
    let Some(name) = name_for(labels, apart) else {
        return Ok(());
    };
    let cure = Cure {
        apart,
        name,
        of_all: false,
    };
    let found = parameter_of(labels, apart.found);
    let wanted = parameter_of(labels, apart.wanted);
    if let Some(at) = found {
        say_parameter(words, labels, head, written, cure, at)?;
    }
    match wanted {
        Some(at) if found != Some(at) => say_parameter(words, labels, head, written, cure, at),
        _ => Ok(()),
    }
}

/// Tells the edit that gives the outermost pointer of a function's result a region's name; where that isn't so simple, no edit at all.
fn mend_result(
    words: &mut Words<'_>,
    function: &Function,
    apart: Apart,
    name: &'static [u8],
) -> Result<(), AllocError> {
    let at = function.name.at;
    match function.result.pointers.last() {
        Some(pointer) if apart.is_outer && pointer.region.is_none() => {
            words.mend(at, at, named_before(name))
        }
        _ => {
            words.mend_nothing();
            Ok(())
        }
    }
}

/// Says how a parameter is to be declared that is returned, where it has a region without a name and the result points into the heap.
/// Answers whether it was one.
pub(crate) fn say_returned_cure(
    words: &mut Words<'_>,
    labels: &Labels<'_>,
    head: &Head<'_>,
    function: &Function,
    apart: Apart,
) -> Result<bool, AllocError> {
    let Some(at) = parameter_of(labels, apart.found) else {
        return Ok(false);
    };
    if !apart.wanted.is_heap() {
        return Ok(false);
    }
    let name = new_name(labels);
    let cure = Cure {
        apart: Apart {
            wanted: apart.found,
            ..apart
        },
        name,
        of_all: false,
    };
    say_parameter(words, labels, head, &function.parameters, cure, at)?;
    words.say("And write the same `")?;
    words.name(name)?;
    words.say(" in the type of the result.\n")?;
    mend_result(words, function, apart, name)?;
    Ok(true)
}
