// Values that are read and written where a pointer leads: a word at once, a fat pointer part by part.

ghost use Rattle.std.specs.Prelude.{◌≡◌, ◌≤◌, ◌*◌};
ghost use Rattle.cyc_core.specs.Trees.{distance_tree};
ghost use Rattle.source_lowering.specs.Lowered.{distance, held_loads, held_stores, loads_code, stores_code, tag_load, tag_store, width_of};
ghost use Rattle.source_lowering.specs.Members.{part_at};
ghost use Rattle.lower_checks.specs.Room.{HasRoom};
ghost use Rattle.lower_checks.specs.Views.{shape_tree};
ghost use Rattle.lower_checks.specs.Writing.{Emits};

use crate::body::Body;
use crate::member::Reached;
use crate::names::behind;
use crate::shape::Shape;
use cyc_core::{Distance, Operation, Temporary, Width};

/// How far it is to what is reached, and how wide a value of it is.
fn distance_of(reached: &Reached<'_>) -> Distance
    ensures { distance_tree result ≡ distance reached.now.cells reached.now.bytes (width_of (shape_tree reached.now.shape)) }
{
    Distance {
        cells: reached.cells,
        bytes: reached.bytes,
        part: 0,
        width: reached.shape.width(),
    }
}

/// How far it is to a part of a fat pointer that is reached.
fn part_of(reached: &Reached<'_>, part: u32) -> Distance
    requires near { reached.now.bytes ≤ 4096 }
    requires few { part ≤ 2 }
    ensures { distance_tree result ≡ part_at reached.now.cells reached.now.bytes part }
{
    Distance {
        cells: reached.cells,
        bytes: reached.bytes + 4 * part,
        part: part as u8,
        width: Width::Word,
    }
}

/// Appends what reads the value that is reached from where the pointer in a temporary leads, into that temporary and those behind it.
pub fn lower_loads(body: &mut Body<'_>, reached: &Reached<'_>, to: Temporary)
    requires room { HasRoom to.0 2 }
    requires near { reached.now.bytes ≤ 4096 }
    ensures { Emits body.old body.new (loads_code (shape_tree reached.now.shape) to.0 reached.now.cells reached.now.bytes) }
{
    match &reached.shape {
        Shape::Fat(_) => {
            let count = behind(to, 1);
            let index = behind(to, 2);
            body.operation(Operation::Load(index, to, part_of(reached, 2)));
            body.operation(Operation::Load(count, to, part_of(reached, 1)));
            body.operation(Operation::Load(to, to, part_of(reached, 0)));
        }
        _ => body.operation(Operation::Load(to, to, distance_of(reached))),
    }
}

/// Appends what stores the value in a temporary and those behind it where it is reached, from where another pointer leads.
pub fn lower_stores(body: &mut Body<'_>, reached: &Reached<'_>, pointer: Temporary, from: Temporary)
    requires room { HasRoom from.0 2 }
    requires near { reached.now.bytes ≤ 4096 }
    ensures { Emits body.old body.new (stores_code (shape_tree reached.now.shape) pointer.0 from.0 reached.now.cells reached.now.bytes) }
{
    match &reached.shape {
        Shape::Fat(_) => {
            let count = behind(from, 1);
            let index = behind(from, 2);
            body.operation(Operation::Store(pointer, part_of(reached, 0), from));
            body.operation(Operation::Store(pointer, part_of(reached, 1), count));
            body.operation(Operation::Store(pointer, part_of(reached, 2), index));
        }
        _ => body.operation(Operation::Store(pointer, distance_of(reached), from)),
    }
}

/// How far it is to a part of a union, which lies this number of bytes behind its tag.
pub fn held_part(part: u32, bytes: u32) -> Distance
    requires few { part ≤ 3 }
    requires bytes { bytes ≡ 4 * part }
    ensures { distance_tree result ≡ part_at 0 0 part }
{
    Distance {
        cells: 0,
        bytes,
        part: part as u8,
        width: Width::Word,
    }
}

/// Appends what reads the tag of the union to which the pointer in the second temporary leads into the first.
pub fn lower_tag(body: &mut Body<'_>, to: Temporary, pointer: Temporary)
    ensures { Emits body.old body.new (tag_load to.0 pointer.0) }
{
    body.operation(Operation::Load(to, pointer, held_part(0, 0)));
}

/// Appends what makes the union to which a pointer leads hold the member of a number, by way of a temporary.
pub fn lower_set_tag(body: &mut Body<'_>, pointer: Temporary, by: Temporary, number: u32)
    ensures { Emits body.old body.new (tag_store pointer.0 by.0 number) }
{
    body.operation(Operation::Constant(by, number));
    body.operation(Operation::Store(pointer, held_part(0, 0), by));
}

/// Appends what reads the member of a shape that the union holds to which the pointer in a temporary leads, into that temporary and those
/// behind it.
pub fn lower_held_loads(body: &mut Body<'_>, shape: &Shape<'_>, to: Temporary)
    requires room { HasRoom to.0 2 }
    ensures { Emits body.old body.new (held_loads (shape_tree shape.now) to.0) }
{
    match shape {
        Shape::Fat(_) => {
            let count = behind(to, 1);
            let index = behind(to, 2);
            body.operation(Operation::Load(index, to, held_part(3, 12)));
            body.operation(Operation::Load(count, to, held_part(2, 8)));
            body.operation(Operation::Load(to, to, held_part(1, 4)));
        }
        _ => body.operation(Operation::Load(to, to, held_part(1, 4))),
    }
}

/// Appends what stores the value of a shape in a temporary and those behind it as the member of the union to which another pointer leads.
pub fn lower_held_stores(
    body: &mut Body<'_>,
    shape: &Shape<'_>,
    pointer: Temporary,
    from: Temporary,
)
    requires room { HasRoom from.0 2 }
    ensures { Emits body.old body.new (held_stores (shape_tree shape.now) pointer.0 from.0) }
{
    match shape {
        Shape::Fat(_) => {
            let count = behind(from, 1);
            let index = behind(from, 2);
            body.operation(Operation::Store(pointer, held_part(1, 4), from));
            body.operation(Operation::Store(pointer, held_part(2, 8), count));
            body.operation(Operation::Store(pointer, held_part(3, 12), index));
        }
        _ => body.operation(Operation::Store(pointer, held_part(1, 4), from)),
    }
}
