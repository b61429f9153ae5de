// Types and regions, as a programmer writes them.

use crate::labels::{Label, Labels, base_regions, layer_region};
use crate::words::Words;
use cyc_types::{BaseType, CType, Layer, Reach, RegionId};
use std::alloc::AllocError;

/// Says a region.
pub fn say_region(
    words: &mut Words<'_>,
    labels: &Labels<'_>,
    region: RegionId,
) -> Result<(), AllocError> {
    if region.is_heap() {
        return words.say("`H");
    }
    match labels.of(region) {
        Some(Label::Named(name, _)) => {
            words.say("`")?;
            words.name(name)
        }
        Some(label) => say_label(words, label),
        None => words.say("`?"),
    }
}

/// Says what a region without a name is called.
fn say_label(words: &mut Words<'_>, label: Label<'_>) -> Result<(), AllocError> {
    let (begin, name) = match label {
        Label::Named(name, _) => ("`<", name),
        Label::Of(name, _) => ("`<of ", name),
        Label::Within(name, _) => ("`<within ", name),
        Label::Locals(name) => ("`<locals of ", name),
        Label::Block(at) => {
            words.say("`<block ")?;
            words.position(at)?;
            words.relate(at, "the block begins here", b"")?;
            return words.say(">");
        }
    };
    words.say(begin)?;
    words.name(name)?;
    words.say(">")
}

/// Says regions between angles, where there are any.
fn say_arguments(
    words: &mut Words<'_>,
    labels: &Labels<'_>,
    regions: &[RegionId],
) -> Result<(), AllocError> {
    let mut before = "<";
    for region in regions {
        words.say(before)?;
        say_region(words, labels, *region)?;
        before = ", ";
    }
    words.say(if regions.is_empty() { "" } else { ">" })
}

/// Says a type with one region.
fn say_handle(
    words: &mut Words<'_>,
    labels: &Labels<'_>,
    name: &str,
    region: RegionId,
) -> Result<(), AllocError> {
    words.say(name)?;
    words.say("<")?;
    say_region(words, labels, region)?;
    words.say(">")
}

/// Says the name of a type that is no pointer, without the regions of a struct or union.
pub fn say_base(
    words: &mut Words<'_>,
    labels: &Labels<'_>,
    base: &BaseType<'_>,
) -> Result<(), AllocError> {
    match base {
        BaseType::Int => words.say("int"),
        BaseType::Unsigned => words.say("unsigned"),
        BaseType::Char => words.say("char"),
        BaseType::Void => words.say("void"),
        BaseType::Null => words.say("NULL"),
        BaseType::Handle(region) => say_handle(words, labels, "region_t", *region),
        BaseType::Key(region) => say_handle(words, labels, "uregion_key_t", *region),
        BaseType::Struct(tag, _) => {
            words.say("struct ")?;
            words.name(tag)
        }
        BaseType::Union(tag, _) => {
            words.say("union ")?;
            words.name(tag)
        }
    }
}

/// Says how many elements there are behind a pointer, where it isn't one.
fn say_count(words: &mut Words<'_>, count: u32) -> Result<(), AllocError> {
    if count == 1 {
        return Ok(());
    }
    words.say("{")?;
    words.number(count)?;
    words.say("}")
}

/// Says a pointer's sign, without its region.
pub fn say_sign(words: &mut Words<'_>, layer: Layer) -> Result<(), AllocError> {
    match layer {
        Layer::Thin(Reach::MayBeNull(count), _) => {
            words.say("*")?;
            say_count(words, count)
        }
        Layer::Thin(Reach::NeverNull(count), _) => {
            words.say("@")?;
            say_count(words, count)
        }
        Layer::Fat(_) => words.say("?"),
        Layer::Unique(true) => words.say("*`U"),
        Layer::Unique(false) => words.say("@`U"),
    }
}

/// Says a type.
pub fn say_type(
    words: &mut Words<'_>,
    labels: &Labels<'_>,
    of: &CType<'_>,
) -> Result<(), AllocError> {
    say_base(words, labels, &of.base)?;
    say_arguments(words, labels, base_regions(&of.base))?;
    words.say(if of.layers.is_empty() { "" } else { " " })?;
    let layers = of.layers.pointers();
    for layer in layers.inner.iter().chain(layers.outer.iter()) {
        say_sign(words, *layer)?;
        if let Some(region) = layer_region(*layer) {
            say_region(words, labels, region)?;
        }
    }
    Ok(())
}
