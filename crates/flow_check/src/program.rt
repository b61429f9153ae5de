// The fault of flow of a program.

ghost use Rattle.std.specs.Prelude.{◌≡◌, IfOk};
ghost use Rattle.cyc_tree.specs.View.{program_item_tree, program_tree};
ghost use Rattle.flow_summaries.specs.Statements.{fault_from, fault_of_flow, fault_of_item};
ghost use Rattle.source_typing.specs.Faults.{earliest};
ghost use Rattle.source_typing.specs.Left.{flow_faults};
ghost use Rattle.source_typing.specs.Programs.{builtins, entries, judged_tags};
ghost use Rattle.source_typing.specs.Tables as known;
ghost use Rattle.check_faults.specs.Faults.{faults_of};
ghost use Rattle.check_heads.specs.Bodies.{KnowsNames};
ghost use Rattle.check_tables.specs.Structs.{KnowsStructs};

use crate::function::function_flow;
use check_faults::{Fault, sooner};
use check_heads::Names;
use check_structs::judged_tags;
use check_tables::{Structs, next_index, program_names};
use cyc_tree::{Item, Program};
use std::alloc::{AllocError, Global};

/// The earliest fault of flow of the program's item number `index`.
fn item_flow<'p>(
    alloc: Global,
    names: Names<'_, 'p>,
    index: u32,
    item: &'p Item,
) -> Result<Option<Fault>, AllocError>
    ensures { (g : known.Tables) → KnowsNames names.entry g → IfOk result (λ f. f
        ≡ fault_of_item g index (program_item_tree item.entry.now)) }
{
    match item {
        Item::Struct(_) | Item::Union(_) | Item::Global(_) => Ok(None),
        Item::Function(function) => function_flow(alloc, names, index, function),
    }
}

/// The earliest fault of flow of the program's items.
fn items_flow<'p>(
    alloc: Global,
    names: Names<'_, 'p>,
    items: &'p [Item],
) -> Result<Option<Fault>, AllocError>
    ensures { (g : known.Tables) → KnowsNames names.entry g → IfOk result (λ f. f
        ≡ fault_from g 0 (program_tree items.entry.now)) }
{
    let mut found = None;
    let mut index = 0;
    'each: for item in items {
        found = sooner(found, item_flow(alloc, names, index, item)?);
        index = next_index(index)?;
    }
    Ok(found)
}

/// The earliest fault of flow of a program with these structs and unions.
fn known_flow<'p>(
    alloc: Global,
    structs: Structs<'_, 'p>,
    items: &'p [Item],
) -> Result<Option<Fault>, AllocError>
    ensures { let all = program_tree items.entry.now in KnowsStructs structs.entry (builtins (entries (judged_tags all)))
        → IfOk result (λ f. f ≡ fault_of_flow all) }
{
    let globals = program_names(alloc, structs, false, items)?;
    let names = Names {
        globals: &globals,
        tags: structs.tags,
        tables: structs.tables,
    };
    items_flow(alloc, names, items)
}

/// The earliest fault of flow of a program, also of one with other faults.
pub fn flow_fault(alloc: Global, program: &Program) -> Result<Option<Fault>, AllocError>
    ensures { IfOk result (λ f. faults_of f ≡ earliest (flow_faults program.now)) }
{
    let items = program.items();
    let tags = judged_tags(alloc, items)?;
    let structs = Structs {
        tags: &tags.names,
        tables: &tags.tables,
    };
    known_flow(alloc, structs, items)
}
