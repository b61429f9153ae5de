// What the names of a program mean.

ghost use Rattle.std.specs.Prelude.{◌≡◌, ◌+◌, IfOk, List, Some, ℕ};
ghost use Rattle.cyc_tree.specs.View.{function_tree, name_tree, program_item_tree, program_tree};
ghost use Rattle.source_typing.specs.Functions.{head_of};
ghost use Rattle.source_typing.specs.Programs.{builtins, entries, entry_with, judged_tags, name_of, tables_of};
ghost use Rattle.source_typing.specs.Tables.{Entry, OfFunction, Tables, find};
ghost use Rattle.check_types.specs.Naming.{tag_named};
ghost use Rattle.check_scopes.specs.Globals.{global_meaning};
ghost use Rattle.check_scopes.specs.Means.{Means};
ghost use Rattle.check_tables.specs.Names.{Since};
ghost use Rattle.check_tables.specs.Structs.{KnowsStructs, MeansTag, tag_meaning};

use crate::global::{JudgedGlobal, judged_global};
use crate::structs::Structs;
use check_heads::{head_meaning, read_head};
use check_scopes::{Globals, Meaning};
use check_types::TagName;
use cyc_tree::{Function, Item, Name};
use std::alloc::{AllocError, Global};

/// The names of the functions that every program has, and what they mean.
fn builtin_names<'p>(alloc: Global) -> Result<Globals<'p>, AllocError>
    ensures { (others : Tables) (x : List ℕ) → IfOk result (λ names. Since (find (builtins others) x) (global_meaning names x) (find others x)) }
{
    let mut names = Globals::new(alloc);
    names.add(b"getchar".as_slice(), Meaning::Builtin(0))?;
    names.add(b"putchar".as_slice(), Meaning::Builtin(1))?;
    Ok(names)
}

/// An item's name.
pub fn item_name(item: &Item) -> &Name
    ensures { name_tree result.now ≡ name_of (program_item_tree item.now) }
{
    match item {
        Item::Struct(structure) | Item::Union(structure) => &structure.tag,
        Item::Global(global) => &global.name,
        Item::Function(function) => &function.name,
    }
}

/// What a function's name means.
fn function_meaning<'p>(
    alloc: Global,
    structs: Structs<'_, 'p>,
    lenient: bool,
    function: &'p Function,
) -> Result<Meaning<'p>, AllocError>
    ensures { (g : Tables) → KnowsStructs structs.entry g
        → IfOk result (λ m. Means (Some (OfFunction (head_of lenient g (function_tree function.entry.now)).signature)) (Some m)) }
{
    let head = read_head(alloc, structs.tags, lenient, function)?;
    head_meaning(alloc, head)
}

/// What the name of a struct or union means.
fn tag_meaning<'p>(structs: Structs<'_, '_>, name: &Name) -> Meaning<'p>
    ensures { result ≡ tag_meaning (tag_named structs.entry.tags.now (name_tree name.now).text) }
{
    match structs.tags.of(&name.text) {
        TagName::Tag { is_union, regions } => Meaning::Tag { is_union, regions },
        TagName::NotJudged(regions) => Meaning::FaultyTag(regions),
        TagName::NoName | TagName::Other => Meaning::FaultyTag(0),
    }
}

/// The meaning of the name of the program's item number `index`.
fn item_meaning<'p>(
    alloc: Global,
    structs: Structs<'_, 'p>,
    lenient: bool,
    index: u32,
    item: &'p Item,
) -> Result<Meaning<'p>, AllocError>
    ensures { (g : Tables) (e : Entry) → KnowsStructs structs.entry g → MeansTag structs.entry (program_item_tree item.entry.now) e
        → IfOk result (λ m. Means (Some (entry_with lenient g index e (program_item_tree item.entry.now))) (Some m)) }
{
    match item {
        Item::Struct(structure) | Item::Union(structure) => {
            Ok(tag_meaning(structs, &structure.tag))
        }
        Item::Global(global) => {
            let judged = judged_global(alloc, structs, index, global)?;
            let JudgedGlobal {
                fault: _fault,
                meaning,
                bytes: _bytes,
            } = judged;
            Ok(meaning)
        }
        Item::Function(function) => function_meaning(alloc, structs, lenient, function),
    }
}

/// What the names of a program's items mean, and those of the functions that every program has; with or without the rules on live regions
/// and effects.
pub fn program_names<'p>(
    alloc: Global,
    structs: Structs<'_, 'p>,
    lenient: bool,
    items: &'p [Item],
) -> Result<Globals<'p>, AllocError>
    ensures { let all = program_tree items.entry.now in
        KnowsStructs structs.entry (builtins (entries (judged_tags all)))
        → IfOk result (λ names. (x : List ℕ) → Means (find (tables_of lenient all) x) (global_meaning names x)) }
{
    let mut names = builtin_names(alloc)?;
    let mut index = 0;
    'each: for item in items {
        let meaning = item_meaning(alloc, structs, lenient, index, item)?;
        names.add(item_name(item).text.as_slice(), meaning)?;
        index = next_index(index)?;
    }
    Ok(names)
}

/// The index after this one. If it is over a u32, memory has run out.
pub fn next_index(index: u32) -> Result<u32, AllocError>
    ensures { IfOk result (λ i. i ≡ index + 1) }
{
    match index.checked_add(1) {
        Some(next) => Ok(next),
        None => Err(AllocError),
    }
}
