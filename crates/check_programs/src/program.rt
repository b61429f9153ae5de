// The faults of programs.

ghost use Rattle.std.specs.Prelude.{◌≡◌, ◌∷◌, [], IfOk, codes};
ghost use Rattle.cyc_tree.specs.View.{name_tree, program_item_tree, program_tree};
ghost use Rattle.source_typing.specs.Faults.{earliest, fault, name_rule, test, type_rule};
ghost use Rattle.source_typing.specs.Programs.{builtins, entries, item_faults, items_from, judged_tags, main_found, main_is, name_of, second_names, tables_of};
ghost use Rattle.source_typing.specs.Programs.{typing_faults};
ghost use Rattle.source_typing.specs.Tables as rules_tables;
ghost use Rattle.check_heads.specs.Bodies.{KnowsNames};
ghost use Rattle.check_faults.specs.Faults.{fault_of, faults_of};
ghost use Rattle.check_programs.specs.Programs.{AreSeen};
ghost use Rattle.check_tables.specs.Structs.{KnowsStructs};

use crate::seen::see;
use crate::sizes::sizes_fault;
use check_faults::{Fault, FaultKind, sooner};
use check_functions::function_fault;
use check_heads::{Names, is_main};
use check_scopes::Globals;
use check_structs::judged_tags;
use check_tables::{Structs, item_name, judged_global, next_index, program_names};
use cyc_tree::{END_OF_TEXT, Item, Name, Program};
use std::alloc::{AllocError, Global};

/// A phrase of a wrong type or form.
fn mistyped(at: u32) -> Fault
    ensures { fault_of result ≡ fault type_rule at }
{
    Fault {
        kind: FaultKind::Typing,
        at,
    }
}

/// A second name, or no `main`.
fn named(at: u32) -> Fault
    ensures { fault_of result ≡ fault name_rule at }
{
    Fault {
        kind: FaultKind::Name,
        at,
    }
}

/// The earliest fault of the global or function that is the program's item number `index`.
fn item_fault<'p>(
    alloc: Global,
    names: Names<'_, 'p>,
    lenient: bool,
    index: u32,
    item: &'p Item,
) -> Result<Option<Fault>, AllocError>
    ensures { (g : rules_tables.Tables) → KnowsNames names.entry g → IfOk result (λ f. faults_of f
        ≡ earliest (item_faults lenient g index (program_item_tree item.entry.now))) }
{
    match item {
        Item::Struct(_) | Item::Union(_) => Ok(None),
        Item::Global(global) => {
            let structs = Structs {
                tags: names.tags,
                tables: names.tables,
            };
            let judged = judged_global(alloc, structs, index, global)?;
            Ok(judged.fault)
        }
        Item::Function(function) => function_fault(alloc, names, lenient, index, function),
    }
}

/// The earliest fault of globals and functions.
fn items_fault<'p>(
    alloc: Global,
    names: Names<'_, 'p>,
    lenient: bool,
    items: &'p [Item],
) -> Result<Option<Fault>, AllocError>
    ensures { (g : rules_tables.Tables) → KnowsNames names.entry g → IfOk result (λ f. faults_of f
        ≡ earliest (items_from lenient g 0 (program_tree items.entry.now))) }
{
    let mut found = None;
    let mut index = 0;
    'each: for item in items {
        found = sooner(found, item_fault(alloc, names, lenient, index, item)?);
        index = next_index(index)?;
    }
    Ok(found)
}

/// The earliest fault of a program's globals and functions, by its structs and unions.
fn bodies_fault<'p>(
    alloc: Global,
    structs: Structs<'_, 'p>,
    lenient: bool,
    items: &'p [Item],
) -> Result<Option<Fault>, AllocError>
    ensures { let all = program_tree items.entry.now in
        KnowsStructs structs.entry (builtins (entries (judged_tags all)))
        → IfOk result (λ f. faults_of f ≡ earliest (items_from lenient (tables_of lenient all) 0 all)) }
{
    let globals = program_names(alloc, structs, lenient, items)?;
    let names = Names {
        globals: &globals,
        tags: structs.tags,
        tables: structs.tables,
    };
    items_fault(alloc, names, lenient, items)
}

/// The names that are seen before the first item.
fn seen_first<'p>(alloc: Global) -> Result<Globals<'p>, AllocError>
    ensures { IfOk result (λ s. AreSeen (codes "getchar" ∷ codes "putchar" ∷ []) s) }
{
    let mut seen = Globals::new(alloc);
    see(&mut seen, b"putchar".as_slice())?;
    see(&mut seen, b"getchar".as_slice())?;
    Ok(seen)
}

/// The fault of a second item of a name.
fn second_fault(is_new: bool, name: &Name) -> Option<Fault>
    ensures { faults_of result ≡ earliest (test is_new name_rule (name_tree name.now).at) }
{
    if is_new { None } else { Some(named(name.at)) }
}

/// The earliest fault of second items of a name.
fn seconds_fault(alloc: Global, items: &[Item]) -> Result<Option<Fault>, AllocError>
    ensures { IfOk result (λ f. faults_of f
        ≡ earliest (second_names (codes "getchar" ∷ codes "putchar" ∷ []) (program_tree items.now))) }
{
    let mut seen = seen_first(alloc)?;
    let mut found = None;
    'each: for item in items {
        let name = item_name(item);
        let is_new = see(&mut seen, name.text.as_slice())?;
        found = sooner(found, second_fault(is_new, name));
    }
    Ok(found)
}

/// The fault of an item that is named `main`.
fn main_is(item: &Item) -> Option<Fault>
    ensures { let i = program_item_tree item.now in faults_of result ≡ earliest (main_is i (name_of i).at) }
{
    match item {
        Item::Function(_) => None,
        Item::Struct(structure) | Item::Union(structure) => Some(mistyped(structure.tag.at)),
        Item::Global(global) => Some(mistyped(global.name.at)),
    }
}

/// The fault of a program without `main`, or with another item of that name.
fn main_found(items: &[Item]) -> Option<Fault>
    ensures { faults_of result ≡ earliest (main_found (program_tree items.now)) }
{
    'each: for item in items {
        if is_main(&item_name(item).text) {
            return main_is(item);
        }
    }
    Some(named(END_OF_TEXT))
}

/// The earliest fault of a program by the rules on names, types, regions, effects and sizes, with or without the rules on live regions and
/// effects.
pub fn program_fault(
    alloc: Global,
    program: &Program,
    lenient: bool,
) -> Result<Option<Fault>, AllocError>
    ensures { IfOk result (λ f. faults_of f ≡ earliest (typing_faults lenient program.now)) }
{
    let items = program.items();
    let seconds = seconds_fault(alloc, items)?;
    let tags = judged_tags(alloc, items)?;
    let structs = Structs {
        tags: &tags.names,
        tables: &tags.tables,
    };
    let bodies = bodies_fault(alloc, structs, lenient, items)?;
    let sizes = sizes_fault(alloc, structs, items)?;
    let found = sooner(sooner(seconds, bodies), main_found(items));
    Ok(sooner(tags.fault, sooner(found, sizes)))
}
