// The structs and the tagged unions of a program by their tags: members, and where cells lie.

ghost use Rattle.std.specs.Prelude.{◌≡◌, ◌≤◌, ◌+◌, ◌++◌, ◌∷◌, List, ℕ, IfOk, OnOk, None, Some, true, is_some, map, max, option_copied, option_map};
ghost use Rattle.cyc_core.specs.Trees.{bytes_of};
ghost use Rattle.cyc_tree.specs.View.{member_tree, structure_tree};
ghost use Rattle.source_meaning.specs.Shapes.{Layout as Rules, part_of};
ghost use Rattle.source_meaning.specs.Programs.{layout_of};
ghost use Rattle.source_meaning.specs.Sizes.{laid_out, rounded_up};
ghost use Rattle.source_lowering.specs.Layouts.{bytes_through};
ghost use Rattle.lower_checks.specs.Cells.{cell_for};
ghost use Rattle.lower_checks.specs.Unions.{union_in, union_tree};
ghost use Rattle.lower_checks.specs.Structs.{
  AreLaid,
  AreNear,
  IsLaid,
  IsNear,
  IsNext,
  Knows,
  all_filled,
  bytes_and,
  cells_in,
  filled,
  laid_cell,
  laid_cells,
  moved_cell,
  next_cell,
  room_in,
  room_tree,
  struct_in,
  table_cell,
};
ghost use Rattle.lower_checks.specs.Views.{shape_tree};

use crate::first::Firsts;
use crate::shape::Shape;
use crate::unions::Union;
use crate::vectors::append;
use cyc_core::{Cell, CellLayout, Layout, Width};
use cyc_tree::{Member, Structure};
use indexmap::IndexMap;
use std::alloc::{AllocError, Global};
use std::rc::Rc;

/// Bytes, and how they are aligned.
#[derive(Clone, Copy)]
pub struct Room {
    pub size: u32,
    pub align: Width,
}

/// A struct: its members, how it is aligned, and how it is laid out.
#[derive(Drop)]
pub struct Known<'p> {
    pub members: &'p [Member],
    pub align: Width,
    pub layout: Rc<Layout>,
}

/// The structs of a program by their tags, and its unions.
pub struct Structs<'p> {
    by_tag: IndexMap<&'p [u8], Known<'p>>,
    unions: Firsts<'p, Union<'p>>,
}

// Written out, so that a caller's proof sees one call and not the drop of each field.
impl Drop for Structs<'_> {
    fn drop(self) {
        let Structs {
            by_tag: _by_tag,
            unions: _unions,
        } = self;
    }
}

/// Members that are laid: their cells, and their bytes.
#[derive(Drop)]
struct Laying {
    cells: Vec<CellLayout>,
    room: Room,
}

/// What a cell of a shape is made for, which is an integer, a pointer, a handle or a key.
pub fn cell_of(shape: Shape<'_>) -> Cell
    requires taken { is_some (cell_for (shape_tree shape)) ≡ true }
    ensures cell { cell_for (shape_tree shape.entry) ≡ Some result }
{
    match shape {
        Shape::Char => Cell::Byte,
        Shape::Int | Shape::Unsigned => Cell::Word,
        Shape::Thin(_, _, _) | Shape::Address(_, _, _) => Cell::Pointer,
        Shape::Fat(_) => Cell::Fat,
        Shape::Handle | Shape::Key => Cell::Handle,
        _ => unreachable!(),
    }
}

/// How many bytes there are with those that follow for an alignment.
pub fn rounded(size: u32, align: Width) -> u32
    requires small { size ≤ 4096 }
    ensures rounded { result ≡ rounded_up size (bytes_of align) }
    ensures small { result ≤ 4096 }
{
    match align {
        Width::Byte => size,
        Width::Word => (size + 3) / 4 * 4,
    }
}

/// The alignment of both.
fn wider(a: Width, b: Width) -> Width
    ensures { bytes_of result ≡ max (bytes_of a) (bytes_of b) }
{
    match a {
        Width::Byte => b,
        Width::Word => Width::Word,
    }
}

/// Appends cells, each this number of bytes further on. Fails only where no host memory is left.
fn push_moved(cells: &mut Vec<CellLayout>, by: u32, more: &[CellLayout]) -> Result<(), AllocError>
    requires by { by ≤ 4096 }
    requires near { AreNear more.now }
    ensures added { OnOk result (map laid_cell cells.new.items ≡ map laid_cell cells.old.items ++ map (moved_cell by) (map laid_cell more.now)) }
{
    'each: for cell in more {
        let moved = CellLayout {
            offset: by + cell.offset,
            cell: cell.cell,
            padding: 0,
        };
        append(cells, moved)?;
    }
    Ok(())
}

/// A cell with the bytes up to a place.
fn fill(cell: CellLayout, next: u32) -> CellLayout
    ensures { result ≡ filled cell next }
{
    CellLayout {
        offset: cell.offset,
        cell: cell.cell,
        padding: next
            .saturating_sub(cell.offset)
            .saturating_sub(cell.cell.bytes()),
    }
}

/// Where the next cell begins, or the object ends.
fn next_of(cells: &[CellLayout], bytes: u32) -> u32
    ensures { result ≡ next_cell bytes cells.now }
{
    match cells.first() {
        Some(cell) => cell.offset,
        None => bytes,
    }
}

/// The cells, each with the bytes up to the next one, or to the object's end.
fn fill_all(alloc: Global, cells: &[CellLayout], bytes: u32) -> Result<Vec<CellLayout>, AllocError>
    ensures cells { IfOk result (λ all. all.items ≡ all_filled bytes cells.now) }
{
    let mut all = Vec::new(alloc);
    let mut rest = cells;
    'each: while let Some((first, others)) = rest.split_first() {
        append(&mut all, fill(*first, next_of(others, bytes)))?;
        rest = others;
    }
    Ok(all)
}

/// A struct with these members, whose cells and bytes are these. Fails only where no host memory is left.
fn known_of<'p>(
    alloc: Global,
    members: &'p [Member],
    laying: Laying,
) -> Result<Known<'p>, AllocError>
    requires small { laying.room.size ≤ 4096 }
    ensures members { IfOk result (λ known. known.members ≡ members.entry) }
    ensures size { IfOk result (λ known. known.layout.value.bytes ≡ rounded_up laying.room.size (bytes_of laying.room.align)) }
    ensures align { IfOk result (λ known. known.align ≡ laying.room.align) }
    ensures cells { IfOk result (λ known. known.layout.value.cells.items ≡ all_filled known.layout.value.bytes laying.cells.items) }
{
    let align = laying.room.align;
    let bytes = rounded(laying.room.size, align);
    let cells = fill_all(alloc, &laying.cells, bytes)?;
    match Rc::new(alloc, Layout { cells, bytes }) {
        Ok(layout) => Ok(Known {
            members,
            align,
            layout,
        }),
        Err(_) => Err(AllocError),
    }
}

impl<'p> Structs<'p> {
    /// No structs, with these unions.
    pub fn new(alloc: Global, unions: Firsts<'p, Union<'p>>) -> Self
        ensures none { (tag : List ℕ) → struct_in result tag ≡ None }
        ensures unions { result.unions ≡ unions.entry }
    {
        Structs {
            by_tag: IndexMap::new(alloc),
            unions,
        }
    }

    /// The union of a tag.
    pub fn union_of(&self, tag: &[u8]) -> Option<Union<'p>>
        ensures { option_map union_tree result ≡ union_in self.now.unions tag.now }
    {
        self.unions.of(tag)
    }

    /// What a cell of a shape is made for, which is an integer, a pointer, a handle, a key or a union that is known.
    fn cell(&self, shape: Shape<'_>) -> Cell
        requires taken { is_some (table_cell self.now (shape_tree shape)) ≡ true }
        ensures cell { table_cell self.now (shape_tree shape.entry) ≡ Some result }
    {
        let Shape::Union(tag) = shape else {
            return cell_of(shape);
        };
        match self.union_of(tag) {
            Some(known) => known.cell,
            None => unreachable!(),
        }
    }

    /// The struct of a tag.
    pub fn of(&self, tag: &[u8]) -> Option<&Known<'p>>
        ensures { option_copied result ≡ struct_in self.now tag.now }
    {
        self.by_tag.get(tag)
    }

    /// The bytes of a shape: an integer, a pointer, a handle, a key, or a union or a struct that is known.
    fn room(&self, shape: Shape<'_>) -> Room
        requires taken { IsLaid self.now (shape_tree shape) }
        ensures room { room_tree result ≡ room_in self.now (shape_tree shape.entry) }
    {
        if let Shape::Struct(tag) = shape {
            return match self.of(tag) {
                Some(known) => Room {
                    size: known.layout.bytes,
                    align: known.align,
                },
                None => unreachable!(),
            };
        }
        let cell = self.cell(shape);
        Room {
            size: cell.bytes(),
            align: cell.width(),
        }
    }

    /// Appends the cells of a shape, this number of bytes on: of an integer, a pointer, a handle, a key, or a union or a struct that is known.
    fn push_shape(
        &self,
        cells: &mut Vec<CellLayout>,
        at: u32,
        shape: Shape<'_>,
    ) -> Result<(), AllocError>
        requires at { at ≤ 4096 }
        requires near { IsNear self.now }
        requires taken { IsLaid self.now (shape_tree shape) }
        ensures cells { OnOk result
            (map laid_cell cells.new.items ≡ map laid_cell cells.old.items ++ map (moved_cell at) (cells_in self.now (shape_tree shape.entry))) }
    {
        if let Shape::Struct(tag) = shape {
            return match self.of(tag) {
                Some(known) => push_moved(cells, at, &known.layout.cells),
                None => unreachable!(),
            };
        }
        let cell = self.cell(shape);
        append(
            cells,
            CellLayout {
                offset: at,
                cell,
                padding: 0,
            },
        )
    }

    /// Lays one more member: an integer, a pointer, a handle, a key, or a union or a struct that is known.
    fn lay(&self, laying: &mut Laying, shape: Shape<'_>) -> Result<(), AllocError>
        requires small { let room = room_in self.now (shape_tree shape) in rounded_up laying.old.room.size room.align + room.size ≤ 4096 }
        requires near { IsNear self.now }
        requires taken { IsLaid self.now (shape_tree shape) }
        ensures size { let room = room_in self.now (shape_tree shape.entry) in
            OnOk result (laying.new.room.size ≡ rounded_up laying.old.room.size room.align + room.size) }
        ensures align { let room = room_in self.now (shape_tree shape.entry) in
            OnOk result (bytes_of laying.new.room.align ≡ max (bytes_of laying.old.room.align) room.align) }
        ensures cells { let room = room_in self.now (shape_tree shape.entry) in
            OnOk result
            (map laid_cell laying.new.cells.items ≡
            map laid_cell laying.old.cells.items ++
            map (moved_cell (rounded_up laying.old.room.size room.align)) (cells_in self.now (shape_tree shape.entry))) }
    {
        let room = self.room(shape);
        let at = rounded(laying.room.size, room.align);
        self.push_shape(&mut laying.cells, at, shape)?;
        laying.room = Room {
            size: at + room.size,
            align: wider(laying.room.align, room.align),
        };
        Ok(())
    }

    /// Lays members: integers, pointers, handles, keys, and unions and structs that are known.
    fn lay_all(&self, alloc: Global, members: &[Member]) -> Result<Laying, AllocError>
        requires small { bytes_through (room_in self.now) 0 (map part_of (map member_tree members.now)) ≤ 4096 }
        requires near { IsNear self.now }
        requires taken { AreLaid self.now (map part_of (map member_tree members.now)) }
        ensures room { let parts = map part_of (map member_tree members.now) in
            IfOk result (λ laying.
            bytes_and (rounded_up laying.room.size (bytes_of laying.room.align)) (bytes_of laying.room.align) ≡
            laid_out (room_in self.now) (bytes_and 0 1) parts) }
        ensures cells { let parts = map part_of (map member_tree members.now) in
            IfOk result (λ laying. map laid_cell laying.cells.items ≡ laid_cells self.now 0 parts) }
        ensures small { IfOk result (λ laying. laying.room.size ≤ 4096) }
    {
        let mut laying = Laying {
            cells: Vec::new(alloc),
            room: Room {
                size: 0,
                align: Width::Byte,
            },
        };
        'each: for member in members {
            self.lay(&mut laying, Shape::of(&member.of))?;
        }
        Ok(laying)
    }

    /// Adds a struct behind the others: its tag is new, and each member is an integer, a pointer, a handle, a key, a union or an earlier struct.
    /// Fails only where no host memory is left.
    pub fn add(&mut self, alloc: Global, structure: &'p Structure) -> Result<(), AllocError>
        requires next { IsNext self.old (layout_of (structure_tree structure.now)) }
        ensures added { OnOk result
            ((unions structs : List Rules) → Knows self.old unions structs →
            Knows self.new unions (layout_of (structure_tree structure.entry.now) ∷ structs)) }
    {
        let laying = self.lay_all(alloc, &structure.members)?;
        let known = known_of(alloc, &structure.members, laying)?;
        match self.by_tag.insert(&structure.tag.text, known) {
            Ok(_) => Ok(()),
            Err(_) => Err(AllocError),
        }
    }
}
