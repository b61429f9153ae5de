// Types of structs and unions, and all others.

ghost use Rattle.std.specs.Prelude.{◌≡◌, IfOk, List, option_map};
ghost use Rattle.cyc_tree.specs.View.{base_tree, name_tree, type_tree};
ghost use Rattle.cyc_types.specs.Types.{static_type};
ghost use Rattle.source_typing.specs.Functions.{result_type};
ghost use Rattle.source_typing.specs.Tables.{Tables};
ghost use Rattle.source_typing.specs.Written.{Found, any_missing, spots_of, type_built, written, written_on};
ghost use Rattle.source_typing.specs.Faults as rules;
ghost use Rattle.check_faults.specs.Verdicts.{short_of, shortened};
ghost use Rattle.check_types.specs.Arguments.{count_meets, written_arguments};
ghost use Rattle.check_types.specs.Reading.{led_by};
ghost use Rattle.check_types.specs.Tagged.{IsRead, TagIs, if_counted, is_union_base, named_as, regions_named, tag_base, tag_type};
ghost use Rattle.check_types.specs.Tagged.{tagged_in, tagged_spots, type_tag};
ghost use Rattle.check_types.specs.Written.{partial_base, partial_regions, partial_type};

use crate::arguments::{
    arguments_fault, count_fits, found_arguments, misses_argument, written_arguments,
};
use crate::base::{WrittenArguments, WrittenBase};
use crate::handles::written_handle;
use crate::heading::{fitting, settled_alone};
use crate::layers::{any_misses, named_layers, regions_fault};
use crate::reading::{built, pointers_on};
use crate::settling::{WrittenLayers, WrittenType};
use check_faults::{Fault, FaultKind, Verdict, sooner};
use check_regions::RegionNames;
use cyc_tree::{Base, Name, TypeName};
use cyc_types::CType;
use std::alloc::{AllocError, Global};

/// What a name means where the tag of a struct or union is wanted.
#[derive(Clone, Copy)]
pub enum TagName {
    /// Nothing.
    NoName,
    /// A struct or union whose declaration has no fault.
    Tag {
        is_union: bool,
        /// How many region parameters it has.
        regions: u32,
    },
    /// The name of a declaration with a fault, and the number of its region parameters: 0 if it is no struct or union.
    NotJudged(u32),
    /// What is neither struct nor union.
    Other,
}

impl TagName {
    /// How many region parameters it has.
    pub fn regions(self) -> u32
        ensures { result ≡ regions_named self }
    {
        match self {
            TagName::Tag { regions, .. } | TagName::NotJudged(regions) => regions,
            TagName::NoName | TagName::Other => 0,
        }
    }
}

/// The tag of a type of structs or unions. None: it is another type.
pub fn type_tag<'p>(of: &'p TypeName) -> Option<&'p Name>
    ensures { option_map (λ n. name_tree n.now) result ≡ type_tag (type_tree of.entry.now) }
{
    match &of.base {
        Base::Struct(tag, _) | Base::Union(tag, _) => Some(tag),
        _ => None,
    }
}

/// Whether a base is a union.
fn is_union(base: &Base) -> bool
    ensures { result ≡ is_union_base (base_tree base.now) }
{
    matches!(base, Base::Union(_, _))
}

/// The tag of a union, or else a struct, with its count of region parameters, by what its name means.
fn named_tag(union: bool, tag: TagName, at: u32) -> Verdict<u32>
    ensures { short_of (λ n. n) result ≡ shortened (named_as union tag at) }
{
    match tag {
        TagName::NoName => Verdict::Wrong(Fault {
            kind: FaultKind::Name,
            at,
        }),
        TagName::Tag { is_union, regions } if is_union == union => Verdict::Of(regions),
        TagName::NotJudged(_) => Verdict::NotJudged,
        TagName::Tag { .. } | TagName::Other => Verdict::Wrong(Fault {
            kind: FaultKind::Typing,
            at,
        }),
    }
}

/// A union, or else a struct, of this tag.
fn tag_base<'p>(of: &Base, tag: &'p [u8], arguments: WrittenArguments) -> WrittenBase<'p>
    ensures { partial_base result ≡ tag_type (is_union_base (base_tree of.now)) tag.now (partial_regions arguments.items) }
{
    match of {
        Base::Union(_, _) => WrittenBase::Union(tag, arguments),
        _ => WrittenBase::Struct(tag, arguments),
    }
}

/// A type of a struct or union with `count` region parameters, by its region arguments and pointers as they were read.
fn counted<'p>(
    count: u32,
    of: &'p TypeName,
    name: &'p Name,
    arguments: WrittenArguments,
    layers: Option<WrittenLayers>,
) -> Verdict<WrittenType<'p>>
    ensures { let t = type_tree of.entry.now in
        let b = tag_type (is_union_base t.base) (name_tree name.entry.now).text (partial_regions arguments.items) in short_of partial_type result
        ≡ shortened (if_counted t.at (count_meets (written_arguments t.base) count) (type_built t.at (led_by (option_map (λ ls. ls.items) layers) b))) }
{
    if count_fits(written_arguments(&of.base), count) {
        let base = tag_base(&of.base, &name.text, arguments);
        built(of.at, base, layers)
    } else {
        Verdict::Wrong(Fault {
            kind: FaultKind::Region,
            at: of.at,
        })
    }
}

/// A type of structs or unions, by what its tag means, and by its region arguments, pointers and their earliest fault as they were read.
pub(crate) fn tagged_of<'p>(
    tag: TagName,
    of: &'p TypeName,
    name: &'p Name,
    arguments: WrittenArguments,
    layers: Option<WrittenLayers>,
    fault: Option<Fault>,
) -> Verdict<WrittenType<'p>>
    ensures { (y : List Found × List rules.Fault) → let t = type_tree of.entry.now in let x = name_tree name.entry.now in
        t.base ≡ tag_base (is_union_base t.base) x (written_arguments t.base)
        → IsRead t (regions_named tag) y arguments.items (option_map (λ ls. ls.items) layers) fault
        → short_of partial_type result ≡ shortened (written_on t y.0 y.1 (named_as (is_union_base t.base) tag x.at)) }
{
    match named_tag(is_union(&of.base), tag, name.at) {
        Verdict::Of(count) => match fault {
            Some(fault) => Verdict::Wrong(fault),
            None => counted(count, of, name, arguments, layers),
        },
        Verdict::Wrong(own) => Verdict::wrong_if(sooner(Some(own), fault)),
        Verdict::NotJudged => Verdict::wrong_if(fault),
    }
}

/// A type of structs or unions, by what its tag means.
fn written_tagged<'p>(
    alloc: Global,
    tag: TagName,
    names: &RegionNames<'_>,
    of: &'p TypeName,
    name: &'p Name,
) -> Result<Verdict<WrittenType<'p>>, AllocError>
    ensures { let t = type_tree of.entry.now in let x = name_tree name.entry.now in
        t.base ≡ tag_base (is_union_base t.base) x (written_arguments t.base)
        → IfOk result (λ v. short_of partial_type v ≡ shortened (tagged_in names.now t x tag)) }
{
    let written = written_arguments(&of.base);
    let arguments = found_arguments(alloc, names, tag.regions(), written)?;
    let layers = named_layers(alloc, names, &of.pointers)?;
    let fault = sooner(
        arguments_fault(names, written),
        regions_fault(names, &of.pointers),
    );
    Ok(tagged_of(tag, of, name, arguments, layers, fault))
}

/// A type as a text writes it, where the tag of a struct or union means this. An unknown tag, a tag of another kind and an unknown region
/// name have a fault at the name, of several the earliest; and a pointer to `void` or to a key, and a unique fat pointer, have a fault at
/// its type.
pub fn written_in<'p>(
    alloc: Global,
    tag: TagName,
    names: &RegionNames<'_>,
    of: &'p TypeName,
) -> Result<Verdict<WrittenType<'p>>, AllocError>
    ensures { (g : Tables) → TagIs g (type_tree of.entry.now) tag → IfOk result (λ v. short_of partial_type v
        ≡ shortened (written g names.now (type_tree of.entry.now))) }
{
    match &of.base {
        Base::Struct(name, _) | Base::Union(name, _) => written_tagged(alloc, tag, names, of, name),
        Base::Handle(region) | Base::Key(region) => written_handle(alloc, names, of, region),
        Base::Int => pointers_on(alloc, names, of, WrittenBase::Int),
        Base::Unsigned => pointers_on(alloc, names, of, WrittenBase::Unsigned),
        Base::Char => pointers_on(alloc, names, of, WrittenBase::Char),
        Base::Void => pointers_on(alloc, names, of, WrittenBase::Void),
    }
}

/// Whether a region of a type of structs or unions is missing, by what its tag means.
fn misses_in_tagged(tag: TagName, of: &TypeName) -> bool
    ensures { let t = type_tree of.now in result ≡ any_missing (tagged_spots (regions_named tag) t) }
{
    misses_argument(written_arguments(&of.base), tag.regions()) || any_misses(&of.pointers)
}

/// Whether a region of a type is missing, where the tag of a struct or union means this.
pub fn misses_region_in(tag: TagName, of: &TypeName) -> bool
    ensures { (g : Tables) → TagIs g (type_tree of.now) tag → result ≡ any_missing (spots_of g (type_tree of.now)) }
{
    match type_tag(of) {
        Some(_) => misses_in_tagged(tag, of),
        None => any_misses(&of.pointers),
    }
}

/// The type of a result: `void`, or a scalar other than a union. Its missing regions are the heap.
pub fn result_type_in<'p>(
    alloc: Global,
    tag: TagName,
    names: &RegionNames<'_>,
    of: &'p TypeName,
) -> Result<Verdict<CType<'p>>, AllocError>
    ensures { (g : Tables) → TagIs g (type_tree of.entry.now) tag → IfOk result (λ v. short_of static_type v
        ≡ shortened (result_type g names.now (type_tree of.entry.now))) }
{
    let found = written_in(alloc, tag, names, of)?;
    let settled = settled_alone(found, of.at)?;
    Ok(fitting(settled, of.at, true))
}
