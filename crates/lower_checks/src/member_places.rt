// Where the members of a program's structs lie, by the tags of these and by their names.

ghost use Rattle.std.specs.Prelude.{◌≡◌, ℕ, List, IfOk, OnOk, None, Some, if◌then◌else◌, map};
ghost use Rattle.std.specs.Str.{bytes_eq};
ghost use Rattle.cyc_tree.specs.View.{member_tree};
ghost use Rattle.source_meaning.specs.Programs.{world_of};
ghost use Rattle.source_meaning.specs.Shapes.{part_of};
ghost use Rattle.lower_checks.specs.MemberPlaces.{ArePlaces, HasPlaces, place_by, places_at};
ghost use Rattle.lower_checks.specs.Within.{AreWithin};

use crate::first::Firsts;
use crate::layouts::rounded;
use crate::member::Reached;
use crate::shape::Shape;
use crate::sizes::{count, extent};
use crate::table::Table;
use cyc_tree::{Item, Member};
use indexmap::IndexMap;
use std::alloc::{AllocError, Global};

/// Where the members of structs lie from the struct's beginning on, by their names: of structs with more than eight members. Of the
/// others each is looked for.
pub struct MemberPlaces<'p> {
    by_tag: IndexMap<&'p [u8], Firsts<'p, Reached<'p>>>,
}

// Written out, so that a caller's proof sees one call and not the drop of each field.
impl Drop for MemberPlaces<'_> {
    fn drop(self) {
        let MemberPlaces { by_tag: _by_tag } = self;
    }
}

impl<'p> MemberPlaces<'p> {
    /// No structs.
    pub fn new(alloc: Global) -> Self
        ensures { (tag : List ℕ) → places_at result tag ≡ None }
    {
        MemberPlaces {
            by_tag: IndexMap::new(alloc),
        }
    }

    /// Where the member of a name of the struct of a tag lies, if its struct is here.
    pub fn of(&self, tag: &[u8], name: &[u8]) -> Option<Reached<'p>>
        ensures { result ≡ place_by (places_at self.now tag.now) name.now }
    {
        match self.by_tag.get(tag) {
            Some(table) => table.of(name),
            None => None,
        }
    }

    /// Adds the members of the struct of a tag. Fails only where no host memory is left.
    pub fn add(&mut self, tag: &'p [u8], table: Firsts<'p, Reached<'p>>) -> Result<(), AllocError>
        ensures { OnOk result ((other : List ℕ) → places_at self.new other ≡ (if bytes_eq tag.now other then Some table.entry else places_at self.old other)) }
    {
        match self.by_tag.insert(tag, table) {
            Ok(_) => Ok(()),
            Err(_) => Err(AllocError),
        }
    }
}

/// Where members lie, one behind the other, by their names. Fails only where no host memory is left.
fn places_by_name<'p>(
    alloc: Global,
    program: &Table<'p>,
    members: &'p [Member],
) -> Result<Firsts<'p, Reached<'p>>, AllocError>
    requires within { AreWithin (world_of program.now) 0 0 (map part_of (map member_tree members.now)) }
    ensures { IfOk result (λ table. HasPlaces (world_of program.now) (map part_of (map member_tree members.entry.now)) table) }
{
    let mut table = Firsts::new(alloc);
    let mut cells = 0;
    let mut bytes = 0;
    'each: for member in members {
        let shape = Shape::of(&member.of);
        let room = extent(program, shape);
        let at = rounded(bytes, room.align);
        table.add(
            &member.name.text,
            Reached {
                shape,
                cells,
                bytes: at,
            },
        )?;
        cells += count(program, shape);
        bytes = at + room.size;
    }
    Ok(table)
}

/// Adds the members of the struct of a tag, if it has more than a few. Fails only where no host memory is left.
fn add_struct<'p>(
    places: &mut MemberPlaces<'p>,
    alloc: Global,
    program: &Table<'p>,
    tag: &'p [u8],
) -> Result<(), AllocError>
    ensures { OnOk result (ArePlaces (world_of program.now) places.old → ArePlaces (world_of program.now) places.new) }
{
    let Some(known) = program.struct_of(tag) else {
        return Ok(());
    };
    if known.members.len() <= 8 {
        return Ok(());
    }
    let table = places_by_name(alloc, program, known.members)?;
    places.add(tag, table)?;
    Ok(())
}

/// Where the members of a program's structs lie. Fails only where no host memory is left.
pub fn all_places<'p>(alloc: Global, program: &Table<'p>) -> Result<MemberPlaces<'p>, AllocError>
    ensures { IfOk result (λ places. ArePlaces (world_of program.now) places) }
{
    let items = program.items();
    let mut places = MemberPlaces::new(alloc);
    'each: for item in items {
        if let Item::Struct(structure) = item {
            add_struct(&mut places, alloc, program, &structure.tag.text)?;
        }
    }
    Ok(places)
}
