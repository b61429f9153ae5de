// What is said of types, by names.

use crate::texts::number_of;
use cyc_types::{
    BaseType, Broken, CType, Cell, Layer, Layout, Likeness, Scalar, SizeFault, TableFault, Tables,
    is_copyable, layout,
};
use std::alloc::Global;

/// The kinds that a type may be of. No kind's name is a part of another's.
pub const KINDS: &str = "integer null union key void pointer testable scalar makeable element";

/// Whether a type is of each kind.
pub fn kinds_of(of: &CType) -> [bool; 10] {
    [
        of.is_integer(),
        of.is_null(),
        of.is_union(),
        of.is_key(),
        of.is_void(),
        of.is_pointer(),
        of.is_testable(),
        of.is_scalar(),
        of.is_makeable(),
        of.is_element(),
    ]
}

/// Whether a base is of each kind. None is a pointer.
pub fn base_kinds_of(of: &BaseType) -> [bool; 10] {
    [
        of.is_integer(),
        of.is_null(),
        of.is_union(),
        of.is_key(),
        of.is_void(),
        false,
        of.is_testable(),
        of.is_scalar(),
        of.is_makeable(),
        of.is_element(),
    ]
}

/// The name of a likeness.
fn likeness_name(alike: Likeness) -> &'static str {
    match alike {
        Likeness::Equal => "equal",
        Likeness::ByRegions => "by_regions",
        Likeness::Different => "different",
    }
}

/// The name of the rule that a conversion breaks.
fn broken_name(broken: Option<Broken>) -> &'static str {
    match broken {
        None => "converts",
        Some(Broken::Typing) => "Typing",
        Some(Broken::Region) => "Region",
        Some(Broken::Outlives) => "Outlives",
    }
}

/// The name of what one cell holds.
fn scalar_name(scalar: Option<Scalar>) -> &'static str {
    match scalar {
        None => "none",
        Some(Scalar::Int) => "int",
        Some(Scalar::Unsigned) => "unsigned",
        Some(Scalar::Char) => "char",
        Some(Scalar::Thin(_)) => "thin",
        Some(Scalar::Fat) => "fat",
        Some(Scalar::Unique(false)) => "unique_never_null",
        Some(Scalar::Union(b"either")) => "either",
        Some(_) => "another",
    }
}

/// How alike the outermost pointers of two types are.
fn outer_name(one: Option<Layer>, other: Option<Layer>) -> &'static str {
    match (one, other) {
        (None, None) => "none",
        (Some(one), Some(other)) => likeness_name(one.compare(other, Likeness::Equal)),
        _ => "one",
    }
}

/// `yes` for what holds, or else `no`.
fn yes_or_no(holds: bool) -> &'static str {
    if holds { "yes" } else { "no" }
}

/// Whether a pointer is copied, and whether it has a beginning.
fn pointer_name(of: Option<Layer>) -> &'static str {
    match of {
        None => "none",
        Some(of) => match (of.is_copyable(), of.has_beginning()) {
            (true, true) => "copied_begins",
            (true, false) => "copied",
            (false, true) => "begins",
            (false, false) => "neither",
        },
    }
}

/// What is said of a type, or of two.
pub fn said(tables: &Tables<'static>, asked: &str, one: &CType, other: &CType) -> &'static str {
    match asked {
        "bases" => likeness_name(one.base.compare(&other.base)),
        "types" => likeness_name(one.compare(other)),
        "same" => yes_or_no(one.is_same(other)),
        "converts" => broken_name(one.conversion(other, false)),
        "outlives" => broken_name(one.conversion(other, true)),
        "outer" => outer_name(one.outer(), other.outer()),
        "pointer" => pointer_name(one.outer()),
        "scalar" => scalar_name(one.scalar()),
        "declared" => yes_or_no(tables.declares(one)),
        "copied" => yes_or_no(is_copyable(one, tables)),
        "begins" => yes_or_no(tables.has_beginning(one)),
        _ => "another question",
    }
}

/// The name of what becomes of a struct or union that is added.
pub fn added_name(added: Result<(), TableFault>) -> &'static str {
    match added {
        Ok(()) => "added",
        Err(TableFault::Again) => "Again",
        Err(TableFault::Undeclared) => "Undeclared",
        Err(TableFault::Memory) => "Memory",
    }
}

/// The bytes of a type, and to how many it is aligned; 0 where it has too many.
pub fn extent_of(tables: &Tables<'static>, of: &CType) -> (u32, u32) {
    match tables.extent(of) {
        Some(extent) => (extent.size(), extent.align()),
        None => (0, 0),
    }
}

/// Whether the first cells have these offsets, in this order.
fn are_at(cells: &[Cell], offsets: &str) -> bool {
    let mut are_right = true;
    for (cell, offset) in cells.iter().zip(offsets.split(' ')) {
        are_right = number_of(offset) == cell.offset && are_right;
    }
    are_right
}

/// Whether a layout has `count` cells, the first of this kind, and the first ones at these offsets.
fn has_cells(found: &Layout, count: usize, first: &str, offsets: &str) -> bool {
    let held = match found.cells.first() {
        Some(cell) => Some(cell.scalar),
        None => None,
    };
    found.cells.len() == count && scalar_name(held) == first && are_at(&found.cells, offsets)
}

/// The bytes of a type by its layout, where its cells are these; none where it is refused for its size.
pub fn laid<'p>(
    alloc: Global,
    tables: &Tables<'p>,
    of: &CType<'p>,
    (count, first, offsets): (usize, &str, &str),
) -> Option<(u32, u32)> {
    match layout(alloc, of, tables) {
        Ok(found) => {
            if has_cells(&found, count, first, offsets) {
                Some((found.extent.size(), found.extent.align()))
            } else {
                None
            }
        }
        Err(SizeFault::Size) => Some((0, 0)),
        Err(SizeFault::Memory) => None,
    }
}
