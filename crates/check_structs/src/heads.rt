// What is known of the names of a program before its tags are judged.

ghost use Rattle.std.specs.Prelude.{◌≡◌, ◌&&◌, ◌++◌, IfOk, List, Some, [], false, if◌then◌else◌, length, map, true, ℕ};
ghost use Rattle.cyc_tree.specs.View.{base_tree, member_tree, name_tree, program_item_tree, program_tree, region_tree, structure_tree, type_tree};
ghost use Rattle.source_typing.specs.Faults.{is_clean};
ghost use Rattle.source_typing.specs.Programs.{bare_entry, builtins, first_entry, name_of};
ghost use Rattle.source_typing.specs.Tables.{Tables};
ghost use Rattle.source_typing.specs.Tags.{bare_tag, head_entry, head_faults, head_type, repeated};
ghost use Rattle.source_typing.specs.Verdicts as rules;
ghost use Rattle.check_types.specs.Arguments.{written_arguments};
ghost use Rattle.check_types.specs.Tagged.{TagIs, tag_name_of};
ghost use Rattle.check_types.specs.declared.tagged.TagName.TheVariants.{NotJudged, Tag};
ghost use Rattle.check_structs.specs.FirstKnown.{AreHeads, AreNames, AreSince, any_count, bare_tags, count_by, first_tags, head_named};
ghost use Rattle.check_structs.specs.Members.{scoped};

use crate::member::{fits_member, repeated_fault, type_alone};
use crate::parameters::region_parameters;
use check_faults::Verdict;
use check_regions::RegionNames;
use check_types::{TagName, TagNames, type_tag};
use cyc_tree::{Base, Item, Member, Name, RegionName, Structure, TypeName};
use std::alloc::{AllocError, Global};

/// The names of the functions that every program has.
pub(crate) fn builtin_names<'p>(alloc: Global) -> Result<TagNames<'p>, AllocError>
    ensures { (others : Tables) → IfOk result (λ names. AreSince names others (builtins others)) }
{
    let mut names = TagNames::new(alloc);
    names.add(b"getchar".as_slice(), TagName::Other)?;
    names.add(b"putchar".as_slice(), TagName::Other)?;
    Ok(names)
}

/// An item's name.
pub(crate) fn item_name(item: &Item) -> &Name
    ensures { name_tree result.now ≡ name_of (program_item_tree item.now) }
{
    match item {
        Item::Struct(structure) | Item::Union(structure) => &structure.tag,
        Item::Global(global) => &global.name,
        Item::Function(function) => &function.name,
    }
}

/// How many these are. If it is over a u32, memory has run out.
fn count_of(regions: &[RegionName]) -> Result<u32, AllocError>
    ensures { IfOk result (λ n. n ≡ length (map region_tree regions.now)) }
{
    match u32::try_from(regions.len()) {
        Ok(count) => Ok(count),
        Err(_) => Err(AllocError),
    }
}

/// What the tag of a union, or else a struct, means by its own. Fails only where it has 2^32 region parameters.
fn bare_structure(is_union: bool, structure: &Structure) -> Result<TagName, AllocError>
    ensures { (i : ℕ) → IfOk result (λ n. n ≡ tag_name_of (Some (bare_tag i is_union (structure_tree structure.now) true))) }
{
    let regions = count_of(&structure.regions)?;
    Ok(TagName::Tag { is_union, regions })
}

/// What an item's name means by its own. Fails only where a struct or union has 2^32 region parameters.
fn bare_name(item: &Item) -> Result<TagName, AllocError>
    ensures { (i : ℕ) → IfOk result (λ n. n ≡ tag_name_of (Some (bare_entry i (program_item_tree item.now)))) }
{
    match item {
        Item::Struct(structure) => bare_structure(false, structure),
        Item::Union(structure) => bare_structure(true, structure),
        Item::Global(_) | Item::Function(_) => Ok(TagName::Other),
    }
}

/// What the names of a program mean, where no tag is judged. Fails only where no host memory is left, or a struct or union has
/// 2^32 region parameters.
pub(crate) fn bare_names<'p>(alloc: Global, items: &'p [Item]) -> Result<TagNames<'p>, AllocError>
    ensures { IfOk result (λ names. AreNames names (bare_tags (program_tree items.entry.now))) }
{
    let mut names = builtin_names(alloc)?;
    'each: for item in items {
        let name = bare_name(item)?;
        names.add(&item_name(item).text, name)?;
    }
    Ok(names)
}

/// How many region parameters a tag has that asks for these region arguments, if there are any. Fails only where there are 2^32.
fn count_by(regions: u32, arguments: &[RegionName]) -> Result<u32, AllocError>
    ensures { IfOk result (λ n. n ≡ count_by regions (map region_tree arguments.now)) }
{
    if arguments.is_empty() {
        return Ok(regions);
    }
    let count = count_of(arguments)?;
    Ok(count)
}

/// How many region parameters a tag has that asks for the region arguments of a struct's or union's type, if there are any. Fails only
/// where there are 2^32.
fn count_in(regions: u32, base: &Base) -> Result<u32, AllocError>
    ensures { IfOk result (λ n. n ≡ count_by regions (written_arguments (base_tree base.now))) }
{
    match base {
        Base::Struct(_, arguments) | Base::Union(_, arguments) => {
            let count = count_by(regions, arguments)?;
            Ok(count)
        }
        _ => Ok(regions),
    }
}

/// What the tag of a type means where the count of its region arguments doesn't matter. Fails only where there are 2^32.
fn any_count(tag: TagName, of: &TypeName) -> Result<TagName, AllocError>
    ensures { IfOk result (λ n. n ≡ any_count tag (written_arguments (type_tree of.now).base)) }
{
    match tag {
        TagName::Tag { is_union, regions } => {
            let regions = count_in(regions, &of.base)?;
            Ok(TagName::Tag { is_union, regions })
        }
        TagName::NoName | TagName::NotJudged(_) | TagName::Other => Ok(tag),
    }
}

/// What tags mean to the members of a struct or union before it is judged.
#[derive(Clone, Copy)]
struct HeadTags<'a, 'p> {
    /// Its own name, which isn't checked.
    own: &'a [u8],
    /// How many region parameters it has.
    regions: u32,
    /// What all other names mean by their own.
    others: &'a TagNames<'p>,
}

/// What a name means.
fn head_named(tags: HeadTags<'_, '_>, name: &[u8]) -> TagName
    ensures { result ≡ head_named tags.entry.own.now tags.entry.regions tags.entry.others.now name.now }
{
    if tags.own == name {
        TagName::NotJudged(tags.regions)
    } else {
        tags.others.of(name)
    }
}

/// What the tag means that a type of structs or unions has.
fn head_tag(tags: HeadTags<'_, '_>, of: &TypeName) -> TagName
    ensures { (g : Tables) → AreHeads tags.entry.own.now tags.entry.regions tags.entry.others.now g
        → TagIs g (type_tree of.now) result }
{
    match type_tag(of) {
        Some(name) => head_named(tags, &name.text),
        None => TagName::NoName,
    }
}

/// Whether a member of a union, or else of a struct, has none of the faults that hang on no tag, where these region names are in scope.
fn is_head_clean(
    alloc: Global,
    is_union: bool,
    tags: HeadTags<'_, '_>,
    names: &RegionNames<'_>,
    of: &TypeName,
) -> Result<bool, AllocError>
    ensures { (g : Tables) (i : ℕ) → AreHeads tags.entry.own.now tags.entry.regions tags.entry.others.now g → IfOk result (λ b. b
        ≡ is_clean (rules.faults_of (head_type (scoped g i names.now) is_union (type_tree of.now)))) }
{
    let tag = head_tag(tags, of);
    let asked = any_count(tag, of)?;
    match type_alone(alloc, asked, names, of)? {
        Verdict::Of(of) => Ok(fits_member(is_union, &of)),
        Verdict::Wrong(_) => Ok(false),
        Verdict::NotJudged => Ok(true),
    }
}

/// Whether both are so.
fn are_both(one: bool, other: bool) -> bool
    ensures { result ≡ (one && other) }
{
    one && other
}

/// Whether members of a union, or else of a struct, have none of the faults that hang on no tag, where these region names are in scope.
fn are_heads_clean(
    alloc: Global,
    is_union: bool,
    tags: HeadTags<'_, '_>,
    names: &RegionNames<'_>,
    members: &[Member],
) -> Result<bool, AllocError>
    ensures { (g : Tables) (i : ℕ) → AreHeads tags.entry.own.now tags.entry.regions tags.entry.others.now g → IfOk result (λ b. b
        ≡ is_clean (head_faults (scoped g i names.now) is_union (map member_tree members.now))) }
{
    let mut clean = true;
    'each: for member in members {
        let own = is_head_clean(alloc, is_union, tags, names, &member.of)?;
        clean = are_both(clean, own);
    }
    Ok(clean)
}

/// Whether members of a union, or else of a struct, have none of the faults that hang on no tag, and each name once, where these region
/// names are in scope.
fn are_members_clean(
    alloc: Global,
    is_union: bool,
    tags: HeadTags<'_, '_>,
    names: &RegionNames<'_>,
    members: &[Member],
) -> Result<bool, AllocError>
    ensures { (g : Tables) (i : ℕ) → AreHeads tags.entry.own.now tags.entry.regions tags.entry.others.now g → IfOk result (λ b. b
        ≡ is_clean (head_faults (scoped g i names.now) is_union (map member_tree members.now)
        ++ repeated [] (map member_tree members.now))) }
{
    let clean = are_heads_clean(alloc, is_union, tags, names, members)?;
    let second = repeated_fault(alloc, members)?;
    Ok(are_both(clean, second.is_none()))
}

/// The meaning of the tag of a union, or else a struct, with `regions` region parameters, by whether its declaration has no fault.
fn tag_name(is_union: bool, clean: bool, regions: u32) -> TagName
    ensures { result ≡ (if clean then Tag is_union regions else NotJudged regions) }
{
    if clean {
        TagName::Tag { is_union, regions }
    } else {
        TagName::NotJudged(regions)
    }
}

/// What the tag of a union, or else a struct, is first known to mean. Fails only where no host memory is left, or it has 2^32 region
/// parameters.
fn head_of_structure(
    alloc: Global,
    is_union: bool,
    tags: &TagNames<'_>,
    structure: &Structure,
) -> Result<TagName, AllocError>
    ensures { (g : Tables) (i : ℕ) → AreNames tags.now g
        → IfOk result (λ n. n ≡ tag_name_of (Some (head_entry g i is_union (structure_tree structure.now)))) }
{
    let parameters = region_parameters(alloc, &structure.regions)?;
    let tags = HeadTags {
        own: &structure.tag.text,
        regions: parameters.count,
        others: tags,
    };
    let members = &structure.members;
    let clean = are_members_clean(alloc, is_union, tags, &parameters.names, members)?;
    Ok(tag_name(
        is_union,
        are_both(parameters.fault.is_none(), clean),
        parameters.count,
    ))
}

/// What an item's name is first known to mean. Fails only where no host memory is left, or a struct or union has 2^32 region
/// parameters.
fn head_name(alloc: Global, tags: &TagNames<'_>, item: &Item) -> Result<TagName, AllocError>
    ensures { (g : Tables) (i : ℕ) → AreNames tags.now g → IfOk result (λ n. n
        ≡ tag_name_of (Some (first_entry g i (program_item_tree item.now)))) }
{
    match item {
        Item::Struct(structure) => head_of_structure(alloc, false, tags, structure),
        Item::Union(structure) => head_of_structure(alloc, true, tags, structure),
        Item::Global(_) | Item::Function(_) => Ok(TagName::Other),
    }
}

/// What the names of a program are first known to mean, by what they mean where no tag is judged: a tag has a fault here where its
/// fault hangs on no tag. Fails only where no host memory is left, or a struct or union has 2^32 region parameters.
pub(crate) fn head_names<'p>(
    alloc: Global,
    bare: &TagNames<'_>,
    items: &'p [Item],
) -> Result<TagNames<'p>, AllocError>
    ensures { let all = program_tree items.entry.now in AreNames bare.now (bare_tags all) → IfOk result (λ names. AreNames names (first_tags all)) }
{
    let mut names = builtin_names(alloc)?;
    'each: for item in items {
        let name = head_name(alloc, bare, item)?;
        names.add(&item_name(item).text, name)?;
    }
    Ok(names)
}
