// Types, structs and unions, as the tables write them.
//
// A type is a base and, behind a `+` each, the pointers to it from the base outwards: `*` may be NULL, `!` is never NULL, `?` is fat, `^` and `@` are
// unique, the first of them also NULL. A number behind a pointer, behind `key:` or behind `union:NAME:` is the level of a region, and without one it is the
// heap.

use cyc_types::{BaseType, CType, Layer, Member, Reach, RegionArguments, RegionId, Tag};
use smallvec::SmallVec;
use std::alloc::Global;

/// The region of this level, or the heap.
fn region_of(level: &str) -> RegionId {
    match level.parse() {
        Ok(level) => RegionId::Level(level),
        Err(_) => RegionId::Heap,
    }
}

/// The pointer that a text says.
fn layer_of(text: &str) -> Option<Layer> {
    let (sign, level) = text.split_at_checked(1)?;
    let region = region_of(level);
    match sign {
        "*" => Some(Layer::Thin(Reach::single(true), region)),
        "!" => Some(Layer::Thin(Reach::single(false), region)),
        "?" => Some(Layer::Fat(region)),
        "^" => Some(Layer::Unique(true)),
        "@" => Some(Layer::Unique(false)),
        _ => None,
    }
}

/// A union with one region argument.
fn union_of(alloc: Global, text: &'static str) -> Option<BaseType<'static>> {
    let (name, level) = text.split_once(':').unwrap_or((text, ""));
    let mut regions: RegionArguments = SmallVec::new(alloc);
    regions.push(region_of(level)).ok()?;
    Some(BaseType::Union(name.as_bytes(), regions))
}

/// The base that a text says: `struct:NAME` without region arguments, `union:NAME` with one.
fn base_of(alloc: Global, text: &'static str) -> Option<BaseType<'static>> {
    let (word, name) = text.split_once(':').unwrap_or((text, ""));
    match word {
        "int" => Some(BaseType::Int),
        "unsigned" => Some(BaseType::Unsigned),
        "char" => Some(BaseType::Char),
        "void" => Some(BaseType::Void),
        "null" => Some(BaseType::Null),
        "struct" => Some(BaseType::Struct(name.as_bytes(), SmallVec::new(alloc))),
        "key" => Some(BaseType::Key(region_of(name))),
        "union" => union_of(alloc, name),
        _ => None,
    }
}

/// A type under the pointer that a text says, or as it is where the text says none.
fn under(of: CType<'static>, text: &str) -> Option<CType<'static>> {
    match layer_of(text) {
        Some(layer) => of.under(layer).ok(),
        None => Some(of),
    }
}

/// The type that a text says, of at most two pointers.
pub fn type_of(alloc: Global, text: &'static str) -> Option<CType<'static>> {
    let (base, layers) = text.split_once('+').unwrap_or((text, ""));
    let (inner, outer) = layers.split_once('+').unwrap_or((layers, ""));
    let of = CType::plain(alloc, base_of(alloc, base)?);
    under(under(of, inner)?, outer)
}

/// The member that a text says: a name and a type.
fn member_of(alloc: Global, text: &'static str) -> Option<Member<'static>> {
    let (name, of) = text.split_once(' ')?;
    Some(Member {
        name: name.as_bytes(),
        of: Some(type_of(alloc, of)?),
    })
}

/// Adds the member that a text says.
fn add_member(alloc: Global, members: &mut Vec<Member<'static>>, text: &'static str) -> Option<()> {
    members.push(member_of(alloc, text)?).ok()
}

/// The members that a text says, two spaces apart.
fn members_of(alloc: Global, text: &'static str) -> Option<Vec<Member<'static>>> {
    let mut members: Vec<Member<'static>> = Vec::new(alloc);
    let mut are_added = true;
    for part in text.split("  ") {
        are_added = add_member(alloc, &mut members, part).is_some() && are_added;
    }
    if are_added { Some(members) } else { None }
}

/// A struct or union of this order with the members that a text says.
pub fn tag_of(
    alloc: Global,
    is_union: bool,
    order: u32,
    members: &'static str,
) -> Option<Tag<'static>> {
    Some(Tag {
        is_union,
        order,
        regions: 0,
        members: members_of(alloc, members)?,
        sound: true,
    })
}
