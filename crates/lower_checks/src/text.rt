// Strings.

ghost use Rattle.std.specs.Prelude.{◌≡◌, ◌++◌, OnOk, map};
ghost use Rattle.cyc_core.specs.Trees.{datum_tree};
ghost use Rattle.source_meaning.specs.Places.{string_at};
ghost use Rattle.source_meaning.specs.Programs.{world_of};
ghost use Rattle.source_meaning.specs.Strings.{program_strings};
ghost use Rattle.source_lowering.specs.Lowered.{text_code};
ghost use Rattle.source_lowering.specs.Programs.{string_datum};
ghost use Rattle.lower_checks.specs.Room.{HasRoom};
ghost use Rattle.lower_checks.specs.Writing.{Emits};

use crate::body::Body;
use crate::datum::literal_datum;
use crate::fat::lower_bounds;
use crate::table::Table;
use crate::vectors::append;
use cyc_core::{Datum, Operation, Temporary};
use std::alloc::{AllocError, Global};

/// Appends what leaves a pointer to the string of a place in a temporary, with its count and 0 behind it.
pub fn lower_text(program: &Table<'_>, body: &mut Body<'_>, at: u32, to: Temporary)
    requires room { HasRoom to.0 2 }
    ensures { Emits body.old body.new (text_code (string_at (world_of program.now).strings at) to.0) }
{
    match program.text_at(at) {
        Some(text) => {
            body.operation(Operation::DataAddress(to, text.object));
            lower_bounds(body, to, text.count);
        }
        // no literal of the program stands there
        None => {}
    }
}

/// Appends the strings, in their order.
pub fn lower_strings(
    alloc: Global,
    program: &Table<'_>,
    data: &mut Vec<Datum>,
) -> Result<(), AllocError>
    ensures data { OnOk result
        (map datum_tree data.new.items ≡ map datum_tree data.old.items ++ map (string_datum (world_of program.now)) (program_strings program.now)) }
{
    let strings = program.strings();
    'each: for literal in strings {
        let datum = literal_datum(alloc, *literal)?;
        append(data, datum)?;
    }
    Ok(())
}
