// Layouts, locals and temporary objects, by their shapes.

ghost use Rattle.std.specs.Prelude.{◌≡◌, ◌∷◌, [], IfOk, map, true};
ghost use Rattle.core_meaning.specs.Core as core;
ghost use Rattle.cyc_core.specs.Trees.{layout_tree, local_tree, part_layout};
ghost use Rattle.source_meaning.specs.Programs.{world_of};
ghost use Rattle.source_meaning.specs.Shapes.{StructShape, UnionShape, has_tag};
ghost use Rattle.source_lowering.specs.Layouts.{layout_of, local_of};
ghost use Rattle.source_lowering.specs.Programs.{locals_of};
ghost use Rattle.source_lowering.specs.Lowerable.{AreObjects, IsObject, IsWholeShape, IsVariable};
ghost use Rattle.source_lowering.specs.Objects.{AreVariables};
ghost use Rattle.lower_checks.specs.Views.{shape_tree, stored_tree};
ghost use Rattle.lower_checks.specs.Writing.{Emits, IsSound};

use crate::body::Body;
use crate::shape::Shape;
use crate::stored::Stored;
use crate::table::Table;
use crate::vectors::append;
use cyc_core::{Cell, CellLayout, Layout, Local, Statement, Temporary};
use std::alloc::{AllocError, Global};
use std::rc::Rc;

/// The layout of the struct of a tag. Fails only where no host memory is left.
fn struct_layout(program: &Table<'_>, tag: &[u8]) -> Result<Rc<Layout>, AllocError>
    requires taken { has_tag (world_of program.now).structs tag.now ≡ true }
    ensures layout { IfOk result (λ layout. layout_tree layout.value ≡ layout_of (world_of program.now) (StructShape tag.now)) }
{
    match program.struct_of(tag) {
        Some(known) => Ok(known.layout.clone()?),
        None => unreachable!(),
    }
}

/// What the cell of the union of a tag is made for.
fn union_cell(program: &Table<'_>, tag: &[u8]) -> Cell
    requires taken { has_tag (world_of program.now).unions tag.now ≡ true }
    ensures cell { part_layout result ≡ layout_of (world_of program.now) (UnionShape tag.now) }
{
    match program.union_of(tag) {
        Some(known) => known.cell,
        None => unreachable!(),
    }
}

/// The layout of a struct or a union of the program. Fails only where no host memory is left.
fn whole_layout(
    alloc: Global,
    program: &Table<'_>,
    shape: Shape<'_>,
) -> Result<Rc<Layout>, AllocError>
    requires taken { IsWholeShape (world_of program.now).unions (world_of program.now).structs (shape_tree shape) }
    ensures layout { IfOk result (λ layout. layout_tree layout.value ≡ layout_of (world_of program.now) (shape_tree shape.entry)) }
{
    match shape {
        Shape::Struct(tag) => struct_layout(program, tag),
        Shape::Union(tag) => cell_layout(alloc, union_cell(program, tag)),
        _ => unreachable!(),
    }
}

/// Appends a copy of a struct or a union of a shape to where the first pointer leads, from where the second leads.
pub fn lower_copy(
    program: &Table<'_>,
    shape: &Shape<'_>,
    body: &mut Body<'_>,
    to: Temporary,
    from: Temporary,
)
    requires taken { IsSound body.old → IsWholeShape (world_of program.now).unions (world_of program.now).structs (shape_tree shape.now) }
    ensures { Emits body.old body.new (core.Do (core.Copy to.0 from.0 (layout_of (world_of program.now) (shape_tree shape.now))) ∷ []) }
{
    if body.failed {
        return;
    }
    match whole_layout(body.alloc, program, *shape) {
        Ok(layout) => body.emit(Statement::Copy(to, from, layout)),
        Err(_) => body.fail(),
    }
}

/// The layout of an object of one cell. Fails only where no host memory is left.
pub fn cell_layout(alloc: Global, cell: Cell) -> Result<Rc<Layout>, AllocError>
    ensures layout { IfOk result (λ layout. layout_tree layout.value ≡ part_layout cell) }
{
    let bytes = cell.bytes();
    let mut cells = Vec::new(alloc);
    let first = CellLayout {
        offset: 0,
        cell,
        padding: 0,
    };
    append(&mut cells, first)?;
    match Rc::new(alloc, Layout { cells, bytes }) {
        Ok(layout) => Ok(layout),
        Err(_) => Err(AllocError),
    }
}

/// The layout of an object of a shape: an integer, a pointer, a handle, a key, or a union or a struct of the program. Fails only where no host
/// memory is left.
pub fn object_layout(
    alloc: Global,
    program: &Table<'_>,
    shape: Shape<'_>,
) -> Result<Rc<Layout>, AllocError>
    requires taken { IsObject (world_of program.now).unions (world_of program.now).structs (shape_tree shape) }
    ensures layout { IfOk result (λ layout. layout_tree layout.value ≡ layout_of (world_of program.now) (shape_tree shape.entry)) }
{
    match shape {
        Shape::Char => cell_layout(alloc, Cell::Byte),
        Shape::Int | Shape::Unsigned => cell_layout(alloc, Cell::Word),
        Shape::Thin(_, _, _) | Shape::Address(_, _, _) => cell_layout(alloc, Cell::Pointer),
        Shape::Fat(_) => cell_layout(alloc, Cell::Fat),
        Shape::Handle | Shape::Key => cell_layout(alloc, Cell::Handle),
        Shape::Struct(tag) => struct_layout(program, tag),
        Shape::Union(tag) => cell_layout(alloc, union_cell(program, tag)),
        _ => unreachable!(),
    }
}

/// An object of a shape as a local: an integer, a pointer, a handle, a key, or a union or a struct of the program. Fails only where no host
/// memory is left.
fn value_of(program: &Table<'_>, shape: Shape<'_>) -> Result<Local, AllocError>
    requires taken { IsObject (world_of program.now).unions (world_of program.now).structs (shape_tree shape) }
    ensures local { IfOk result (λ local. local_tree local ≡ local_of (world_of program.now) (shape_tree shape.entry)) }
{
    match shape {
        Shape::Char => Ok(Local::Scalar(Cell::Byte)),
        Shape::Int | Shape::Unsigned => Ok(Local::Scalar(Cell::Word)),
        Shape::Thin(_, _, _) | Shape::Address(_, _, _) => Ok(Local::Scalar(Cell::Pointer)),
        Shape::Fat(_) => Ok(Local::Scalar(Cell::Fat)),
        Shape::Handle | Shape::Key => Ok(Local::Scalar(Cell::Handle)),
        Shape::Struct(tag) => Ok(Local::Whole(struct_layout(program, tag)?, 1)),
        Shape::Union(tag) => Ok(Local::Scalar(union_cell(program, tag))),
        _ => unreachable!(),
    }
}

/// The layout of what a name stands for, an object or an array of objects, and of how many elements it is. Fails only where no host memory is
/// left.
pub fn stored_layout(
    alloc: Global,
    program: &Table<'_>,
    stored: Stored<'_>,
) -> Result<(Rc<Layout>, u32), AllocError>
    requires taken { IsVariable (world_of program.now).unions (world_of program.now).structs (stored_tree stored) }
    ensures layout { IfOk result (λ found. layout_tree found.0.value ≡ (local_of (world_of program.now) (stored_tree stored.entry)).layout) }
    ensures count { IfOk result (λ found. found.1 ≡ (local_of (world_of program.now) (stored_tree stored.entry)).count) }
{
    match stored {
        Stored::One(shape) => Ok((object_layout(alloc, program, shape)?, 1)),
        Stored::Array(count, of) => Ok((object_layout(alloc, program, of.shape())?, count)),
    }
}

/// A local, which is an object or an array of objects. Fails only where no host memory is left.
fn local_of(alloc: Global, program: &Table<'_>, stored: Stored<'_>) -> Result<Local, AllocError>
    requires taken { IsVariable (world_of program.now).unions (world_of program.now).structs (stored_tree stored) }
    ensures local { IfOk result (λ local. local_tree local ≡ local_of (world_of program.now) (stored_tree stored.entry)) }
{
    match stored {
        Stored::One(shape) => value_of(program, shape),
        Stored::Array(_, _) => {
            let (layout, count) = stored_layout(alloc, program, stored)?;
            Ok(Local::Whole(layout, count))
        }
    }
}

/// Temporary objects of these shapes, which are those of objects. Fails only where no host memory is left.
pub fn values_of(
    alloc: Global,
    program: &Table<'_>,
    shapes: &[Shape<'_>],
) -> Result<Vec<Local>, AllocError>
    requires taken { AreObjects (world_of program.now).unions (world_of program.now).structs (map shape_tree shapes.now) }
    ensures locals { IfOk result (λ locals. map local_tree locals.items ≡ locals_of (world_of program.now) (map shape_tree shapes.now)) }
{
    let mut locals = Vec::new(alloc);
    'each: for shape in shapes {
        let local = value_of(program, *shape)?;
        append(&mut locals, local)?;
    }
    Ok(locals)
}

/// Locals, each an object or an array of objects. Fails only where no host memory is left.
pub fn locals_of(
    alloc: Global,
    program: &Table<'_>,
    all: &[Stored<'_>],
) -> Result<Vec<Local>, AllocError>
    requires taken { AreVariables (world_of program.now).unions (world_of program.now).structs (map stored_tree all.now) }
    ensures locals { IfOk result (λ locals. map local_tree locals.items ≡ locals_of (world_of program.now) (map stored_tree all.now)) }
{
    let mut locals = Vec::new(alloc);
    'each: for stored in all {
        let local = local_of(alloc, program, *stored)?;
        append(&mut locals, local)?;
    }
    Ok(locals)
}
