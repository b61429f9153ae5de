// The faults of a program's items, one for each.

use check_faults::{Fault, FaultKind, sooner};
use check_functions::function_fault;
use check_heads::{Names, is_main};
use check_scopes::{Globals, Meaning};
use check_structs::judged_tags;
use check_tables::{Structs, item_name, judged_global, next_index, program_names};
use cyc_tree::{Item, Name, Program};
use std::alloc::{AllocError, Global};

/// A fault of an item; of a function with its closing brace, by its offset.
#[derive(Clone, Copy)]
pub(crate) struct ItemFault {
    pub(crate) fault: Fault,
    pub(crate) close: Option<u32>,
}

/// The closing brace of an item that is a function.
fn close_of(item: &Item) -> Option<u32> {
    match item {
        Item::Function(function) => Some(function.end),
        _ => None,
    }
}

/// The fault of the item with this index, by the rules on names, types, regions and effects. Fails only where no host memory is left, as
/// all of these.
fn own_fault<'p>(
    alloc: Global,
    names: Names<'_, 'p>,
    index: u32,
    item: &'p Item,
) -> Result<Option<Fault>, AllocError> {
    match item {
        Item::Struct(_) | Item::Union(_) => Ok(None),
        Item::Global(global) => {
            let structs = Structs {
                tags: names.tags,
                tables: names.tables,
            };
            let judged = judged_global(alloc, structs, index, global)?;
            Ok(judged.fault)
        }
        Item::Function(function) => function_fault(alloc, names, false, index, function),
    }
}

/// The names that are known before the first item.
fn names_before<'p>(alloc: Global) -> Result<Globals<'p>, AllocError> {
    let mut seen = Globals::new(alloc);
    let _is_new = seen.add(b"putchar".as_slice(), Meaning::NotKnown)?;
    let _is_also_new = seen.add(b"getchar".as_slice(), Meaning::NotKnown)?;
    Ok(seen)
}

/// The fault of the first item of a name: `main` is a function.
fn first_fault(item: &Item, name: &Name) -> Option<Fault> {
    if is_main(&name.text) && close_of(item).is_none() {
        return Some(Fault {
            kind: FaultKind::Typing,
            at: name.at,
        });
    }
    None
}

/// The fault of an item's name: another item has it, or it is one that is a function's.
fn name_fault<'p>(seen: &mut Globals<'p>, item: &'p Item) -> Result<Option<Fault>, AllocError> {
    let name = item_name(item);
    if seen.add(name.text.as_slice(), Meaning::NotKnown)? {
        return Ok(first_fault(item, name));
    }
    Ok(Some(Fault {
        kind: FaultKind::Name,
        at: name.at,
    }))
}

/// The fault of the structs and unions, where it is in the first of these items.
fn tag_fault(items: &[Item], found: Option<Fault>) -> Option<Fault> {
    let fault = found?;
    let (begin, end) = match items {
        [Item::Struct(structure) | Item::Union(structure), next, ..] => {
            (structure.at, next.place())
        }
        [Item::Struct(structure) | Item::Union(structure)] => (structure.at, u32::MAX),
        _ => return None,
    };
    if begin <= fault.at && fault.at < end {
        Some(fault)
    } else {
        None
    }
}

/// The faults of items, one for each, by the program's names and with that of the structs and unions.
fn items_faults<'p>(
    alloc: Global,
    names: Names<'_, 'p>,
    of_tags: Option<Fault>,
    items: &'p [Item],
) -> Result<Vec<ItemFault>, AllocError> {
    let mut seen = names_before(alloc)?;
    let mut faults = Vec::new(alloc);
    let mut index = 0;
    for item in items {
        let rest = items.get(index as usize..).unwrap_or(&[]);
        let name = sooner(name_fault(&mut seen, item)?, tag_fault(rest, of_tags));
        if let Some(fault) = sooner(own_fault(alloc, names, index, item)?, name) {
            let close = close_of(item);
            faults.push(ItemFault { fault, close })?;
        }
        index = next_index(index)?;
    }
    Ok(faults)
}

/// The faults of a program's items, one for each, by the rules on names, types, regions and effects; of structs and unions the first one
/// and second names alone.
pub(crate) fn program_faults(
    alloc: Global,
    program: &Program,
) -> Result<Vec<ItemFault>, AllocError> {
    let items = program.items();
    let tags = judged_tags(alloc, items)?;
    let structs = Structs {
        tags: &tags.names,
        tables: &tags.tables,
    };
    let globals = program_names(alloc, structs, false, items)?;
    let names = Names {
        globals: &globals,
        tags: structs.tags,
        tables: structs.tables,
    };
    items_faults(alloc, names, tags.fault, items)
}
