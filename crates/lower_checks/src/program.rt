// Globals and programs.

ghost use Rattle.std.specs.Prelude.{◌≡◌, ◌++◌, IfOk, map};
ghost use Rattle.cyc_tree.specs.View.{global_tree, program_tree as source_tree};
ghost use Rattle.cyc_core.specs.Trees.{datum_tree, function_tree, program_tree};
ghost use Rattle.source_meaning.specs.Shapes.{written, settled};
ghost use Rattle.source_meaning.specs.Programs.{world_of, functions_of, global_shape, unions_of};
ghost use Rattle.source_meaning.specs.Strings.{program_strings};
ghost use Rattle.source_lowering.specs.Programs.{function_code, global_datum, data_of, program_code, string_datum};
ghost use Rattle.source_lowering.specs.Lowerable.{AreStrings, AreStructs, AreUnions};
ghost use Rattle.source_lowering.specs.Lowerable.{HaveFewMembers, IsLowerable, IsObjectType, TakesGlobal, TakesProgram};
ghost use Rattle.lower_checks.specs.Mains.{HasMain};
ghost use Rattle.lower_checks.specs.Promise.{IsLoweringOf};
ghost use Rattle.lower_checks.specs.Roomy.{AreRoomy};

use crate::datum::first_datum;
use crate::function::lower_function;
use crate::member_places::all_places;
use crate::objects::object_layout;
use crate::stored::Stored;
use crate::table::{Table, function_number, global_stored};
use crate::text::lower_strings;
use crate::vectors::append;
use accepted_programs::Checked;
use bumpalo::Bump;
use cyc_core::{Datum, Function, Program};
use cyc_tree::{Global as Declared, Item, Program as Source};
use std::alloc::{AllocError, Global};

/// A global, with what it begins with. Fails only where no host memory is left.
fn lower_global(alloc: Global, program: &Table<'_>, global: &Declared) -> Result<Datum, AllocError>
    requires object { IsObjectType (world_of program.now).unions (world_of program.now).structs (global_tree global.now).of }
    requires taken { let g = global_tree global.now in TakesGlobal (settled (written g.of)) g.initial }
    ensures datum { let g = global_tree global.now in
        IfOk result (λ datum. datum_tree datum ≡ global_datum (world_of program.now) g.initial (global_shape g.initial (settled (written g.of)))) }
{
    match global_stored(global) {
        Stored::One(shape) => first_datum(alloc, program, shape, &global.initial),
        Stored::Array(count, of) => {
            let layout = object_layout(alloc, program, of.shape())?;
            Ok(Datum::Whole(layout, count))
        }
    }
}

/// The globals, in their order. Fails only where no host memory is left.
fn lower_globals(alloc: Global, program: &Table<'_>) -> Result<Vec<Datum>, AllocError>
    requires taken { TakesProgram (world_of program.now) program.now }
    ensures globals { IfOk result (λ globals. map datum_tree globals.items ≡ data_of (world_of program.now) program.now) }
{
    let items = program.items();
    let mut globals = Vec::new(alloc);
    'each: for item in items {
        if let Item::Global(global) = item {
            append(&mut globals, lower_global(alloc, program, global)?)?;
        }
    }
    Ok(globals)
}

/// The functions, in their order.
fn lower_functions(alloc: Global, program: &Table<'_>) -> Result<Vec<Function>, AllocError>
    requires room { AreRoomy program.now }
    requires taken { TakesProgram (world_of program.now) program.now }
    ensures functions { let w = world_of program.now in
        IfOk result (λ functions. map function_tree functions.items ≡ map (function_code w) (functions_of program.now)) }
{
    let items = program.items();
    let mut functions = Vec::new(alloc);
    'each: for item in items {
        if let Item::Function(function) = item {
            append(&mut functions, lower_function(alloc, program, function)?)?;
        }
    }
    Ok(functions)
}

/// The globals, and behind them the strings. Fails only where no host memory is left.
fn lower_data(alloc: Global, program: &Table<'_>) -> Result<Vec<Datum>, AllocError>
    requires taken { TakesProgram (world_of program.now) program.now }
    ensures objects { let w = world_of program.now in
        IfOk result (λ objects. map datum_tree objects.items ≡ data_of w program.now ++ map (string_datum w) (program_strings program.now)) }
{
    let mut objects = lower_globals(alloc, program)?;
    lower_strings(alloc, program, &mut objects)?;
    Ok(objects)
}

/// The Core of a program whose names are in tables.
#[tactic(auto, using(crate::proofs::Mains::main_there))]
fn lower_known(alloc: Global, program: &Table<'_>) -> Result<Program, AllocError>
    requires room { AreRoomy program.now }
    requires taken { TakesProgram (world_of program.now) program.now }
    requires main { HasMain program.now }
    ensures code { IfOk result (λ core. program_tree core ≡ program_code program.now) }
{
    let main = function_number(program.items(), b"main".as_slice());
    let globals = lower_data(alloc, program)?;
    let functions = lower_functions(alloc, program)?;
    Ok(Program {
        functions,
        main,
        globals,
    })
}

/// The tables of a program, with where members of structs lie. Fails only where no host memory is left.
fn table_of<'p>(alloc: Global, arena: &'p Bump, items: &'p [Item]) -> Result<Table<'p>, AllocError>
    requires unions { AreUnions (unions_of (source_tree items.now)) }
    requires structs { let w = world_of (source_tree items.now) in AreStructs w.unions w.structs }
    requires strings { AreStrings (program_strings (source_tree items.now)) }
    ensures program { IfOk result (λ table. table ≡ source_tree items.entry.now) }
{
    let mut table = Table::new(alloc, arena, items)?;
    let places = all_places(alloc, &table)?;
    table.keep(places);
    Ok(table)
}

/// The Core of a program's tree.
fn lower_tree(alloc: Global, program: &Source) -> Result<Program, AllocError>
    requires room { AreRoomy program.now }
    requires taken { IsLowerable program.now }
    requires main { HasMain program.now }
    ensures code { IfOk result (λ core. program_tree core ≡ program_code program.now) }
{
    let arena = Bump::new(alloc);
    let table = table_of(alloc, &arena, program.items())?;
    lower_known(alloc, &table)
}

/// The Core of a checked program. Fails only where no host memory is left.
pub fn lower(alloc: Global, checked: &Checked) -> Result<Program, AllocError>
    // it does what the source does, and its frames and its code are within the source's bounds
    ensures promised { IfOk result (λ core. IsLoweringOf checked.now (program_tree core)) }
    // it is the one by the definition
    ensures code { IfOk result (λ core. program_tree core ≡ program_code checked.now) }
    // a word counts the members of each of its unions
    ensures few { IfOk result (λ _. HaveFewMembers (unions_of checked.now)) }
{
    let program = checked.program();
    // a word counts its temporaries, and the members of each of its unions
    program.items();
    lower_tree(alloc, program)
}
