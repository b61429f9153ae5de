// Faults of flow that only follow from other ones.

use check_faults::{Fault, FaultKind};
use check_heads::{Names, read_head};
use check_scopes::Named;
use check_structs::judged_tags;
use check_tables::{Structs, program_names};
use cyc_lexer::Token;
use cyc_tree::{Function, Item, Program};
use fault_words::{item_at, walk_to};
use std::alloc::{AllocError, Global};
use token_reasons::{index_at, taken_at};

/// Whether a name isn't known at an offset in the body of the function that is the item with this index.
fn is_unknown_in<'p>(
    alloc: Global,
    names: Names<'_, 'p>,
    item: u32,
    function: &'p Function,
    at: u32,
    name: &[u8],
) -> Result<bool, AllocError> {
    let head = read_head(alloc, names.tags, false, function)?;
    let walk = walk_to(alloc, names, &head, item, function, at)?;
    Ok(matches!(walk.scope.meaning(name), Some(Named::NotKnown)))
}

/// Whether a name at an offset is one whose declaration has an error.
fn is_unknown<'p>(
    alloc: Global,
    items: &'p [Item],
    at: u32,
    name: &[u8],
) -> Result<bool, AllocError> {
    let Some(index) = item_at(items, at) else {
        return Ok(false);
    };
    let (Some(Item::Function(function)), Ok(item)) = (items.get(index), u32::try_from(index)) else {
        return Ok(false);
    };
    let tags = judged_tags(alloc, items)?;
    let structs = Structs {
        tags: &tags.names,
        tables: &tags.tables,
    };
    let globals = program_names(alloc, structs, false, items)?;
    let names = Names {
        globals: &globals,
        tags: structs.tags,
        tables: structs.tables,
    };
    is_unknown_in(alloc, names, item, function, at, name)
}

/// Whether a fault of flow only follows from another fault: what is freed, opened or lent isn't known. Fails only where no host memory is
/// left, as all of these.
pub(crate) fn takes_unknown(
    alloc: Global,
    tokens: &[Token<'_>],
    program: &Program,
    fault: Fault,
) -> Result<bool, AllocError> {
    let FaultKind::Copy = fault.kind else {
        return Ok(false);
    };
    match taken_at(tokens, index_at(tokens, fault.at)) {
        Some(name) => is_unknown(alloc, program.items(), fault.at, name),
        None => Ok(false),
    }
}
