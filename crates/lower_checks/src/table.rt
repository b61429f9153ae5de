// The functions, globals and structs of a program, by their names.

ghost use Rattle.std.specs.Prelude.{◌≡◌, ℕ, suc, List, ◌∷◌, [], IfOk, OnOk, IfSome, is_some, length, map, option_copied, option_map};
ghost use Rattle.cyc_tree.specs.Tree as tree;
ghost use Rattle.cyc_tree.specs.View.{program_tree, function_tree, global_tree};
ghost use Rattle.source_meaning.specs.Shapes.{StructShape, UnionShape, part_position, part_shape, part_shapes, parts_of, written, settled};
ghost use Rattle.source_meaning.specs.Sizes.{cells_before};
ghost use Rattle.source_meaning.specs.Conversions.{cells_of};
ghost use Rattle.source_meaning.specs.Places.{bound_to, or_else, string_at};
ghost use Rattle.source_meaning.specs.Strings.{program_strings};
ghost use Rattle.tree_walk.specs.Listing.{literal_of};
ghost use Rattle.source_meaning.specs.Calls.{function_of};
ghost use Rattle.source_meaning.specs.Programs.{functions_of, routine_of, globals_from, global_shape, structs_from, unions_of, world_of};
ghost use Rattle.source_lowering.specs.Lowered.{number_of, union_parts};
ghost use Rattle.source_meaning.specs.Sizes.{union_extent};
ghost use Rattle.lower_checks.specs.MemberPlaces.{ArePlaces};
ghost use Rattle.lower_checks.specs.Structs.{IsFound, Knows, room_tree};
ghost use Rattle.lower_checks.specs.Views.{found_entity, shape_tree, stored_tree, text_value};
ghost use Rattle.lower_checks.specs.Tables.{first_function, function_in, global_in};
ghost use Rattle.lower_checks.specs.Unions.{first_union, union_by, union_tree};
ghost use Rattle.lower_checks.specs.Within.{AreSmall};
ghost use Rattle.cyc_core.specs.Trees.{layout_tree, part_layout};
ghost use Rattle.source_lowering.specs.Layouts.{bytes_before, extent_of, layout_of};
ghost use Rattle.source_lowering.specs.Lowerable.{AreStrings, AreStructs, AreUnions, AreValues};

use crate::first::Firsts;
use crate::layouts::{Known, Room, Structs};
use crate::member::Reached;
use crate::member_places::MemberPlaces;
use crate::shape::Shape;
use crate::stored::Stored;
use crate::union_members::{Chosen, UnionMembers, all_members};
use crate::unions::{Union, first_unions};
use bumpalo::Bump;
use cyc_core::Width;
use cyc_tree::{Function, Global as Declared, Initial, Item};
use std::alloc::{AllocError, Global};
use std::marker::Model;
use tree_walk::{Literal, Strings};

/// A global: what it is, and its number among the globals.
#[derive(Clone, Copy)]
pub struct Found<'p> {
    pub stored: Stored<'p>,
    pub object: usize,
}

/// A function, with its number among the functions.
#[derive(Clone, Copy)]
pub struct Callee<'p> {
    pub function: &'p Function,
    pub number: usize,
}

/// A string: the number of its object in the data, and how many bytes it has with the final 0.
#[derive(Clone, Copy)]
pub struct Text {
    pub object: usize,
    pub count: u32,
}

/// A program, with its functions, globals, structs, members of unions and of structs by their names, its strings by their places, and an arena
/// for what shapes hold beside the text. A contract sees it as the program's tree.
#[derive(Drop)]
pub struct Table<'p> {
    items: &'p [Item],
    arena: &'p Bump,
    functions: Firsts<'p, Callee<'p>>,
    globals: Firsts<'p, Found<'p>>,
    structs: Structs<'p>,
    members: UnionMembers<'p>,
    places: MemberPlaces<'p>,
    strings: Strings<'p>,
    // how many globals there are, behind which the strings lie
    behind: usize,
}

impl<'p> Model for Table<'p> {
    ghost use Rattle.cyc_tree.specs.Tree.{Program as Tree};
    ghost use Rattle.cyc_tree.specs.Tree as tree;
    ghost use Rattle.cyc_tree.specs.View.{program_tree};
    ghost use Rattle.lower_checks.specs.Tables.{AreTables};
    ghost use Rattle.cyc_tree.specs.Stored.{coded_program};

    ghost Value = { Tree };

    ghost coded = { coded_program };

    ghost view = { λ t. program_tree t.items.now };

    ghost invariant = { λ t. AreTables (program_tree t.items.now) t.functions t.globals t.structs t.members t.places t.strings t.behind };
}

/// The first function of each name. Fails only where no host memory is left.
fn first_functions<'p>(
    alloc: Global,
    items: &'p [Item],
) -> Result<Firsts<'p, Callee<'p>>, AllocError>
    ensures first { IfOk result (λ functions. (name : List ℕ) → function_in functions name ≡ first_function (program_tree items.entry.now) 0 name) }
{
    let mut functions = Firsts::new(alloc);
    let mut number = 0;
    'each: for item in items {
        if let Item::Function(function) = item {
            functions.add(&function.name.text, Callee { function, number })?;
            number += 1;
        }
    }
    Ok(functions)
}

/// What a global is, as it is declared.
pub fn global_stored<'p>(global: &'p Declared) -> Stored<'p>
    ensures { let g = global_tree global.entry.now in stored_tree result ≡ global_shape g.initial (settled (written g.of)) }
{
    match &global.initial {
        Initial::Array(count) => Stored::array(&global.of, *count),
        Initial::None | Initial::Constant(_) => Stored::one(&global.of),
    }
}

/// How many globals there are.
fn globals_many(items: &[Item]) -> usize
    ensures { result ≡ length (globals_from (program_tree items.now) 0) }
{
    let mut many = 0;
    'each: for item in items {
        if let Item::Global(_) = item {
            many += 1;
        }
    }
    many
}

/// Adds a global of this number, which is the first of its name where there is none. Fails only where no host memory is left.
fn add_global<'p>(
    globals: &mut Firsts<'p, Found<'p>>,
    global: &'p Declared,
    object: usize,
) -> Result<(), AllocError>
    ensures added { OnOk result ((items : List tree.Item) (name : List ℕ) →
        or_else (global_in globals.new name) (bound_to (globals_from items (suc object)) name) ≡
        or_else (global_in globals.old name) (bound_to (globals_from (tree.GlobalItem (global_tree global.entry.now) ∷ items) object) name)) }
{
    let stored = global_stored(global);
    globals.add(&global.name.text, Found { stored, object })?;
    Ok(())
}

/// The first global of each name. Fails only where no host memory is left.
fn first_globals<'p>(alloc: Global, items: &'p [Item]) -> Result<Firsts<'p, Found<'p>>, AllocError>
    ensures first { IfOk result (λ globals. (name : List ℕ) → global_in globals name ≡ bound_to (globals_from (program_tree items.entry.now) 0) name) }
{
    let mut globals = Firsts::new(alloc);
    let mut object = 0;
    'each: for item in items {
        if let Item::Global(global) = item {
            add_global(&mut globals, global, object)?;
            object += 1;
        }
    }
    Ok(globals)
}

/// The unions, and the structs, each behind those that its members are. Fails only where no host memory is left.
fn all_structs<'p>(alloc: Global, items: &'p [Item]) -> Result<Structs<'p>, AllocError>
    requires unions { AreUnions (unions_of (program_tree items.now)) }
    requires structs { let w = world_of (program_tree items.now) in AreStructs w.unions w.structs }
    ensures structs { let p = program_tree items.entry.now in IfOk result (λ structs. Knows structs (unions_of p) (structs_from p [])) }
{
    let mut structs = Structs::new(alloc, first_unions(alloc, items)?);
    'each: for item in items {
        if let Item::Struct(structure) = item {
            structs.add(alloc, structure)?;
        }
    }
    Ok(structs)
}

impl<'p> Table<'p> {
    /// The tables of a program, in which each member of a struct is looked for. Fails only where no host memory is left.
    #[tactic(auto, using(crate::proofs::MemberPlaces::none_placed))]
    pub fn new(alloc: Global, arena: &'p Bump, items: &'p [Item]) -> Result<Self, AllocError>
        requires unions { AreUnions (unions_of (program_tree items.now)) }
        requires structs { let w = world_of (program_tree items.now) in AreStructs w.unions w.structs }
        requires strings { AreStrings (program_strings (program_tree items.now)) }
        ensures program { IfOk result (λ table. table ≡ program_tree items.entry.now) }
    {
        let behind = globals_many(items);
        let functions = first_functions(alloc, items)?;
        let globals = first_globals(alloc, items)?;
        let structs = all_structs(alloc, items)?;
        let members = all_members(alloc, items)?;
        let strings = Strings::of(alloc, items)?;
        Ok(Table {
            items,
            arena,
            functions,
            globals,
            structs,
            members,
            places: MemberPlaces::new(alloc),
            strings,
            behind,
        })
    }

    /// The program's items.
    pub fn items(&self) -> &'p [Item]
        ensures { program_tree result.now ≡ self.now }
    {
        self.items
    }

    /// The arena for what shapes hold beside the text.
    pub fn arena(&self) -> &'p Bump {
        self.arena
    }

    /// The struct of a tag. Each of the structs takes at most 4,096 bytes.
    pub fn struct_of(&self, tag: &[u8]) -> Option<&Known<'p>>
        ensures found { IsFound (unions_of self.now) (structs_from self.now []) tag.now (option_copied result) }
        ensures layout { IfSome (option_copied result) (λ k. layout_tree k.layout.value ≡ layout_of (world_of self.now) (StructShape tag.now)) }
        ensures small { AreSmall (world_of self.now) }
    {
        self.structs.of(tag)
    }

    /// Keeps where members of structs lie.
    pub fn keep(&mut self, places: MemberPlaces<'p>)
        requires places { ArePlaces (world_of self.old) places }
        ensures { self.new ≡ self.old }
    {
        self.places = places;
    }

    /// Where the member of a name of the struct of a tag lies from the struct's beginning on, where that is kept.
    pub fn place(&self, tag: &[u8], name: &[u8]) -> Option<Reached<'p>>
        ensures shape { let w = world_of self.now in IfSome result (λ r. shape_tree r.shape ≡ part_shape (parts_of w.structs tag.now) name.now) }
        ensures cells { let w = world_of self.now in IfSome result (λ r. r.cells ≡ cells_before (cells_of w) (parts_of w.structs tag.now) name.now) }
        ensures bytes { let w = world_of self.now in IfSome result (λ r. r.bytes ≡ bytes_before (extent_of w) 0 (parts_of w.structs tag.now) name.now) }
    {
        self.places.of(tag, name)
    }

    /// Does nothing: each of the structs takes at most 4,096 bytes.
    pub fn small(&self)
        ensures { AreSmall (world_of self.now) }
    {
        let _ = &self.structs;
    }

    /// The union of a tag.
    pub fn union_of(&self, tag: &[u8]) -> Option<Union<'p>>
        ensures found { option_map union_tree result ≡ first_union (unions_of self.now) tag.now }
        ensures layout { IfSome result (λ u. part_layout u.cell ≡ layout_of (world_of self.now) (UnionShape tag.now)) }
    {
        self.structs.union_of(tag)
    }

    /// The union of a shape, if it is one of the program's.
    pub fn union_at(&self, shape: Shape<'_>) -> Option<Union<'p>>
        ensures found { option_map union_tree result ≡ union_by (unions_of self.now) (shape_tree shape.entry) }
    {
        match shape {
            Shape::Union(tag) => self.structs.union_of(tag),
            _ => None,
        }
    }

    /// The tag of a shape, if it is one of the program's unions.
    pub fn union_tag(&self, shape: Shape<'p>) -> Option<&'p [u8]>
        ensures found { is_some result ≡ is_some (union_by (unions_of self.now) (shape_tree shape.entry)) }
        ensures parts { IfSome result (λ tag. parts_of (unions_of self.now) tag.now ≡ union_parts (world_of self.now) (shape_tree shape.entry)) }
        ensures values { IfSome result (λ tag. AreValues (part_shapes (parts_of (unions_of self.now) tag.now))) }
    {
        match shape {
            Shape::Union(tag) => match self.structs.union_of(tag) {
                Some(_) => Some(tag),
                None => None,
            },
            _ => None,
        }
    }

    /// The member of a name of the union of a tag, if there is one.
    pub fn member(&self, tag: &[u8], name: &[u8]) -> Option<Chosen<'p>>
        ensures number { let parts = parts_of (unions_of self.now) tag.now in option_map (λ m. m.number) result ≡ part_position parts name.now }
        ensures shape { let parts = parts_of (unions_of self.now) tag.now in IfSome result (λ m. shape_tree m.shape ≡ part_shape parts name.now) }
    {
        self.members.of(tag, name)
    }

    /// The bytes of the union of a tag; where there is none, of a word for a tag.
    pub fn union_room(&self, tag: &[u8]) -> Room
        ensures { room_tree result ≡ union_extent (unions_of self.now) tag.now }
    {
        let size = match self.structs.union_of(tag) {
            Some(known) => known.cell.bytes(),
            None => 4,
        };
        Room {
            size,
            align: Width::Word,
        }
    }

    /// The string literals, in the order of the text.
    pub fn strings(&self) -> &[Literal<'p>]
        ensures { map literal_of result.now ≡ program_strings self.now }
    {
        self.strings.all()
    }

    /// The string of a place.
    pub fn text_at(&self, at: u32) -> Option<Text>
        ensures { option_map text_value result ≡ string_at (world_of self.now).strings at }
    {
        match self.strings.at(at) {
            Some(found) => {
                // each global is an item
                prove!(self.behind <= self.items.len());
                Some(Text {
                    object: self.behind + found.number,
                    count: found.count as u32,
                })
            }
            None => None,
        }
    }

    /// The first function of a name.
    pub fn function_named(&self, name: &[u8]) -> Option<Callee<'p>>
        ensures named { option_map (λ c. routine_of (function_tree c.function.now)) result ≡ function_of (functions_of self.now) name.now }
        ensures number { IfSome result (λ c. c.number ≡ number_of (functions_of self.now) name.now) }
    {
        self.functions.of(name)
    }

    /// The first global of a name.
    pub fn global_named(&self, name: &[u8]) -> Option<Found<'p>>
        ensures named { option_map found_entity result ≡ bound_to (globals_from self.now 0) name.now }
    {
        self.globals.of(name)
    }
}

/// The number of the first function of a name, from 0 on; where there is none, how many functions there are.
pub fn function_number(items: &[Item], name: &[u8]) -> usize
    ensures { result ≡ number_of (functions_of (program_tree items.now)) name.now }
{
    let mut number = 0;
    'each: for item in items {
        if let Item::Function(function) = item {
            if function.name.text.as_slice() == name {
                return number;
            }
            number += 1;
        }
    }
    number
}
