// The tagged unions of a program by their tags: their members, and what their cells are made for.

ghost use Rattle.std.specs.Prelude.{◌≡◌, ℕ, List, IfOk, map};
ghost use Rattle.cyc_tree.specs.View.{member_tree, program_tree};
ghost use Rattle.source_meaning.specs.Shapes.{part_of, part_shapes};
ghost use Rattle.source_meaning.specs.Programs.{unions_of};
ghost use Rattle.source_lowering.specs.Layouts.{has_fat};
ghost use Rattle.source_lowering.specs.Lowerable.{AreUnions, AreValues, HasMember};
ghost use Rattle.lower_checks.specs.Unions.{AreUnionsLaid, HaveCells, cell_by, first_union, union_in};

use crate::first::Firsts;
use crate::layouts::cell_of;
use crate::shape::Shape;
use cyc_core::Cell;
use cyc_tree::{Item, Member};
use std::alloc::{AllocError, Global};

/// A tagged union: its members, and what its one cell is made for.
#[derive(Clone, Copy)]
pub struct Union<'p> {
    pub members: &'p [Member],
    pub cell: Cell,
}

/// What the cell of a union with these members is made for: integers, pointers, handles and keys, at least one.
fn union_cell(members: &[Member]) -> Cell
    requires some { HasMember (map part_of (map member_tree members.now)) }
    requires values { AreValues (part_shapes (map part_of (map member_tree members.now))) }
    ensures cell { result ≡ cell_by (has_fat (map part_of (map member_tree members.now))) }
    ensures laid { HaveCells (map part_of (map member_tree members.now)) }
{
    let mut cell = Cell::Tagged;
    'each: for member in members {
        if let Cell::Fat = cell_of(Shape::of(&member.of)) {
            cell = Cell::TaggedFat;
        }
    }
    cell
}

/// The first union of each tag. Fails only where no host memory is left.
pub fn first_unions<'p>(
    alloc: Global,
    items: &'p [Item],
) -> Result<Firsts<'p, Union<'p>>, AllocError>
    requires unions { AreUnions (unions_of (program_tree items.now)) }
    ensures first { IfOk result (λ unions. (tag : List ℕ) → union_in unions tag ≡ first_union (unions_of (program_tree items.entry.now)) tag) }
    ensures laid { IfOk result (λ _. AreUnionsLaid (unions_of (program_tree items.entry.now))) }
{
    let mut unions = Firsts::new(alloc);
    'each: for item in items {
        if let Item::Union(union) = item {
            let members = &union.members;
            let cell = union_cell(members);
            unions.add(&union.tag.text, Union { members, cell })?;
        }
    }
    Ok(unions)
}
