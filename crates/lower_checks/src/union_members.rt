// The members of a program's unions, by the tags of these and by their names.

ghost use Rattle.std.specs.Prelude.{◌≡◌, ◌<◌, ◌^◌, ℕ, List, IfOk, OnOk, None, if◌then◌else◌, length, map, option_map};
ghost use Rattle.std.specs.Str.{bytes_eq};
ghost use Rattle.cyc_tree.specs.View.{member_tree, program_tree};
ghost use Rattle.source_meaning.specs.Programs.{unions_of};
ghost use Rattle.source_meaning.specs.Shapes.{Part, part_of};
ghost use Rattle.source_lowering.specs.Lowerable.{AreUnions};
ghost use Rattle.lower_checks.specs.UnionMembers.{AreMembers, HasMembers, AreMet, HasTable, member_from, chosen_tree, members_at};

use crate::first::Firsts;
use crate::shape::Shape;
use cyc_tree::{Item, Member};
use indexmap::IndexMap;
use std::alloc::{AllocError, Global};

/// A member of a union that was found by its name: its number, from 0 on, and the shape of its type.
#[derive(Clone, Copy)]
pub struct Chosen<'p> {
    pub number: u32,
    pub shape: Shape<'p>,
}

/// The members of unions: for each tag those of its first union, by their names.
pub struct UnionMembers<'p> {
    by_tag: IndexMap<&'p [u8], Firsts<'p, Chosen<'p>>>,
}

// Written out, so that a caller's proof sees one call and not the drop of each field.
impl Drop for UnionMembers<'_> {
    fn drop(self) {
        let UnionMembers { by_tag: _by_tag } = self;
    }
}

/// The members of one union by their names. Fails only where no host memory is left.
fn members_by_name<'p>(
    alloc: Global,
    members: &'p [Member],
) -> Result<Firsts<'p, Chosen<'p>>, AllocError>
    requires few { length members.now < 2 ^ 32 }
    ensures { IfOk result (λ table. HasMembers table (map part_of (map member_tree members.entry.now))) }
{
    let mut table = Firsts::new(alloc);
    let mut number = 0;
    'each: for member in members {
        let shape = Shape::of(&member.of);
        table.add(&member.name.text, Chosen { number, shape })?;
        number += 1;
    }
    Ok(table)
}

impl<'p> UnionMembers<'p> {
    /// No unions.
    pub fn new(alloc: Global) -> Self
        ensures { (tag : List ℕ) → members_at result tag ≡ None }
    {
        UnionMembers {
            by_tag: IndexMap::new(alloc),
        }
    }

    /// The member of a name of the union of a tag, if there is one.
    pub fn of(&self, tag: &[u8], name: &[u8]) -> Option<Chosen<'p>>
        ensures { (parts : List Part) → HasTable (members_at self.now tag.now) parts → option_map chosen_tree result ≡ member_from parts 0 name.now }
    {
        match self.by_tag.get(tag) {
            Some(table) => table.of(name),
            None => None,
        }
    }

    /// Adds the members of a union, which is the first of its tag where the tag has none. Fails only where no host memory is left.
    pub fn add(
        &mut self,
        alloc: Global,
        tag: &'p [u8],
        members: &'p [Member],
    ) -> Result<(), AllocError>
        requires few { length members.now < 2 ^ 32 }
        ensures { OnOk result ((other : List ℕ) (rest all : List Part) →
            AreMet (members_at self.old other) (if bytes_eq tag.now other then map part_of (map member_tree members.entry.now) else rest) all →
            AreMet (members_at self.new other) rest all) }
    {
        if self.by_tag.contains_key(tag) {
            return Ok(());
        }
        let table = members_by_name(alloc, members)?;
        match self.by_tag.insert(tag, table) {
            Ok(_) => Ok(()),
            Err(_) => Err(AllocError),
        }
    }
}

/// The members of a program's unions. Fails only where no host memory is left.
pub fn all_members<'p>(alloc: Global, items: &'p [Item]) -> Result<UnionMembers<'p>, AllocError>
    requires unions { AreUnions (unions_of (program_tree items.now)) }
    ensures { IfOk result (λ members. AreMembers members (unions_of (program_tree items.entry.now))) }
{
    let mut members = UnionMembers::new(alloc);
    'each: for item in items {
        if let Item::Union(union) = item {
            members.add(alloc, &union.tag.text, &union.members)?;
        }
    }
    Ok(members)
}
