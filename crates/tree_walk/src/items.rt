// The literals of a program, and the callees of a block.

ghost use Rattle.std.specs.Prelude.{◌≡◌, [], IfOk, map};
ghost use Rattle.cyc_tree.specs.View.{constant_tree, initial_tree, item_tree, items_of, program_item_tree, program_tree};
ghost use Rattle.source_meaning.specs.Callees.{items_callees};
ghost use Rattle.source_meaning.specs.Strings.{constant_strings, initial_strings, item_strings, program_strings};
ghost use Rattle.tree_walk.specs.Listing.{Lists, item_callees, literal_of, name_of};

use crate::bodies::list_items;
use crate::found::{Callee, Found, Literal, add_literal};
use cyc_tree::{BlockItem, Constant, Initial, Item};
use std::alloc::{AllocError, Global};

/// Lists the literal of a constant.
fn list_constant<'p>(found: &mut Found<'p>, constant: &'p Constant)
    ensures { Lists found.old found.new (constant_strings (constant_tree constant.entry.now)) [] }
{
    match constant {
        Constant::Text(at, bytes) => add_literal(found, *at, bytes),
        Constant::Number(_, _, _)
        | Constant::Negative(_, _, _)
        | Constant::Character(_, _)
        | Constant::Null(_) => {}
    }
}

/// Lists the literal of what a global begins with.
fn list_initial<'p>(found: &mut Found<'p>, initial: &'p Initial)
    ensures { Lists found.old found.new (initial_strings (initial_tree initial.entry.now)) [] }
{
    match initial {
        Initial::Constant(constant) => list_constant(found, constant),
        Initial::None | Initial::Array(_) => {}
    }
}

/// Lists the literals and callees of an item.
fn list_item<'p>(found: &mut Found<'p>, item: &'p Item)
    ensures { Lists found.old found.new (item_strings (program_item_tree item.entry.now)) (item_callees (program_item_tree item.entry.now)) }
{
    match item {
        Item::Global(global) => list_initial(found, &global.initial),
        Item::Function(function) => list_items(found, &function.body),
        Item::Struct(_) | Item::Union(_) => {}
    }
}

/// The strings of a program, in the order of the text.
pub fn strings_of<'p>(alloc: Global, items: &'p [Item]) -> Result<Vec<Literal<'p>>, AllocError>
    ensures { IfOk result (λ literals. map literal_of literals.items ≡ program_strings (program_tree items.entry.now)) }
{
    let mut found = Found::new(alloc);
    'each: for item in items {
        list_item(&mut found, item);
    }
    found.into_literals()
}

/// The names that the calls of a block name, in the order of the text. Fails only where no host memory is left.
pub fn callees_of<'p>(alloc: Global, items: &'p [BlockItem]) -> Result<Vec<Callee<'p>>, AllocError>
    ensures { IfOk result (λ all. map name_of all.items ≡ items_callees (items_of (map item_tree items.entry.now))) }
{
    let mut found = Found::new(alloc);
    list_items(&mut found, items);
    let callees = found.into_callees()?;
    Ok(callees)
}
