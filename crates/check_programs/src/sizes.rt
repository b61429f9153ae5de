// The sizes of a program's globals and strings.

ghost use Rattle.std.specs.Prelude.{◌≡◌, Bool, IfOk};
ghost use Rattle.cyc_tree.specs.View.{constant_tree, initial_tree, program_item_tree, program_tree};
ghost use Rattle.source_meaning.specs.Strings.{constant_strings, initial_strings};
ghost use Rattle.source_typing.specs.Faults.{earliest};
ghost use Rattle.source_typing.specs.Globals.{item_statics};
ghost use Rattle.source_typing.specs.Programs.{if_first, size_faults};
ghost use Rattle.source_typing.specs.Scope.{at_item};
ghost use Rattle.source_typing.specs.Tables as rules_tables;
ghost use Rattle.check_faults.specs.Faults.{faults_of};
ghost use Rattle.check_tables.specs.Structs.{KnowsStructs};
ghost use Rattle.check_programs.specs.Totals.{Adds, Counts};

use crate::bodies::with_items;
use crate::seen::see;
use crate::total::{Total, string_bytes};
use check_faults::Fault;
use check_scopes::Globals;
use check_tables::{Structs, item_name, judged_global, next_index};
use cyc_tree::{Constant, Initial, Item};
use std::alloc::{AllocError, Global};

/// With the string of a constant of a global.
fn with_constant(total: Total, constant: &Constant) -> Total
    ensures { Counts total result (constant_strings (constant_tree constant.now)) }
{
    match constant {
        Constant::Number(_, _, _)
        | Constant::Negative(_, _, _)
        | Constant::Character(_, _)
        | Constant::Null(_) => total,
        Constant::Text(at, text) => total.with(*at, string_bytes(text)),
    }
}

/// With the string that a global begins with.
fn with_initial(total: Total, initial: &Initial) -> Total
    ensures { Counts total result (initial_strings (initial_tree initial.now)) }
{
    match initial {
        Initial::None | Initial::Array(_) => total,
        Initial::Constant(constant) => with_constant(total, constant),
    }
}

/// With an item and its strings.
fn with_item<'p>(
    total: Total,
    alloc: Global,
    structs: Structs<'_, 'p>,
    index: u32,
    item: &'p Item,
) -> Result<Total, AllocError>
    ensures { (lenient : Bool) (g : rules_tables.Tables) → KnowsStructs structs.entry g
        → IfOk result (λ t. Adds total t (item_statics (at_item lenient g index) (program_item_tree item.entry.now))) }
{
    match item {
        Item::Global(global) => {
            let judged = judged_global(alloc, structs, index, global)?;
            let object = total.with(global.of.at, judged.bytes);
            Ok(with_initial(object, &global.initial))
        }
        Item::Function(function) => Ok(with_items(total, &function.body)),
        Item::Struct(_) | Item::Union(_) => Ok(total),
    }
}

/// With an item and its strings, a second one of a name left out.
fn with_first<'p>(
    total: Total,
    alloc: Global,
    structs: Structs<'_, 'p>,
    index: u32,
    is_new: bool,
    item: &'p Item,
) -> Result<Total, AllocError>
    ensures { (lenient : Bool) (g : rules_tables.Tables) → KnowsStructs structs.entry g → IfOk result (λ t. Adds total t
        (if_first is_new (item_statics (at_item lenient g index) (program_item_tree item.entry.now)))) }
{
    if is_new {
        with_item(total, alloc, structs, index, item)
    } else {
        Ok(total)
    }
}

/// The fault of the sizes of globals and strings.
pub(crate) fn sizes_fault<'p>(
    alloc: Global,
    structs: Structs<'_, 'p>,
    items: &'p [Item],
) -> Result<Option<Fault>, AllocError>
    ensures { (lenient : Bool) (g : rules_tables.Tables) → KnowsStructs structs.entry g → IfOk result (λ f. faults_of f
        ≡ earliest (size_faults lenient g (program_tree items.entry.now))) }
{
    let mut seen = Globals::new(alloc);
    let mut total = Total::Bytes(0);
    let mut index = 0;
    'each: for item in items {
        let is_new = see(&mut seen, item_name(item).text.as_slice())?;
        total = with_first(total, alloc, structs, index, is_new, item)?;
        index = next_index(index)?;
    }
    Ok(total.fault())
}
