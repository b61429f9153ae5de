// Bytes and cells of shapes.

ghost use Rattle.std.specs.Prelude.{◌≡◌, ◌≤◌, ◌*◌, length};
ghost use Rattle.source_meaning.specs.Conversions.{cells_of};
ghost use Rattle.source_meaning.specs.Shapes.{StructShape};
ghost use Rattle.source_meaning.specs.Programs.{world_of};
ghost use Rattle.source_lowering.specs.Layouts.{extent_of};
ghost use Rattle.lower_checks.specs.Structs.{bytes_and, room_tree};
ghost use Rattle.lower_checks.specs.Views.{shape_tree};

use crate::layouts::Room;
use crate::shape::Shape;
use crate::table::Table;
use cyc_core::Width;

/// What takes no bytes.
fn no_room() -> Room
    ensures { room_tree result ≡ bytes_and 0 1 }
{
    Room {
        size: 0,
        align: Width::Byte,
    }
}

/// The room of this number of words.
fn words(count: u32) -> Room
    requires { count ≤ 3 }
    ensures { room_tree result ≡ bytes_and (4 * count) 4 }
{
    Room {
        size: 4 * count,
        align: Width::Word,
    }
}

/// The bytes of a struct of a tag; none where the program has no such struct.
#[tactic(auto, using(crate::proofs::Structs::no_bytes))]
fn struct_extent(program: &Table<'_>, tag: &[u8]) -> Room
    ensures { room_tree result ≡ extent_of (world_of program.now) (StructShape tag.now) }
{
    match program.struct_of(tag) {
        Some(known) => Room {
            size: known.layout.bytes,
            align: known.align,
        },
        None => no_room(),
    }
}

/// The bytes of a shape.
pub fn extent(program: &Table<'_>, shape: Shape<'_>) -> Room
    ensures { room_tree result ≡ extent_of (world_of program.now) (shape_tree shape.entry) }
{
    match shape {
        Shape::Void => no_room(),
        Shape::Char => Room {
            size: 1,
            align: Width::Byte,
        },
        Shape::Int
        | Shape::Unsigned
        | Shape::Thin(_, _, _)
        | Shape::Address(_, _, _)
        | Shape::Handle
        | Shape::Key => words(1),
        Shape::Fat(_) => words(3),
        Shape::Struct(tag) => struct_extent(program, tag),
        Shape::Union(tag) => program.union_room(tag),
    }
}

/// How many cells a shape has.
#[tactic(auto, using(crate::proofs::Structs::no_cells))]
pub fn count(program: &Table<'_>, shape: Shape<'_>) -> u32
    ensures { result ≡ length (cells_of (world_of program.now) (shape_tree shape.entry)) }
{
    match shape {
        Shape::Void => 0,
        Shape::Struct(tag) => match program.struct_of(tag) {
            Some(known) => known.layout.cells.len() as u32,
            None => 0,
        },
        _ => 1,
    }
}
