// Members and elements: where they lie, and how they are reached.

ghost use Rattle.std.specs.Prelude.{◌≡◌, ◌≤◌, ◌-◌, ◌∷◌, [], map};
ghost use Rattle.cyc_tree.specs.View.{member_tree, suffix_tree, suffixes_of};
ghost use Rattle.source_meaning.specs.Shapes.{part_of, part_shape, parts_of, pointee};
ghost use Rattle.source_meaning.specs.Sizes.{cells_before};
ghost use Rattle.source_meaning.specs.Conversions.{cells_of};
ghost use Rattle.source_meaning.specs.Places.{struct_parts};
ghost use Rattle.source_meaning.specs.Programs.{world_of};
ghost use Rattle.source_meaning.specs.Steps.{World};
ghost use Rattle.source_lowering.specs.Layouts.{bytes_before, extent_of};
ghost use Rattle.source_lowering.specs.Lowered.{member_shape, offset_code, reach_code};
ghost use Rattle.lower_checks.specs.Reaching.{further_code, further_place, indices_in, member_place, place_at_once, reached_place};
ghost use Rattle.lower_checks.specs.Room.{HasRoom};
ghost use Rattle.lower_checks.specs.Views.{shape_tree};
ghost use Rattle.lower_checks.specs.Within.{AreWithin, IsWithin};
ghost use Rattle.lower_checks.specs.Writing.{Emits, IsSound};

use crate::body::Body;
use crate::fat::lower_reach;
use crate::layouts::rounded;
use crate::shape::Shape;
use crate::sizes::{count, extent};
use crate::subscript::lower_subscripted;
use crate::table::Table;
use crate::words::lower_loads;
use cyc_core::{Operation, Origin, Temporary};
use cyc_tree::{Member, Suffix};

/// A place by its distance, in cells and bytes, from where a pointer leads, and its shape.
#[derive(Clone, Copy)]
pub struct Reached<'p> {
    pub shape: Shape<'p>,
    pub cells: u32,
    pub bytes: u32,
}

impl<'p> Reached<'p> {
    /// What lies right where a pointer leads.
    pub fn at_once(shape: Shape<'p>) -> Reached<'p>
        ensures place { reached_place result ≡ place_at_once (shape_tree shape.entry) }
        ensures within { (w : World) → IsWithin w (reached_place result) }
        ensures near { result.bytes ≤ 4096 }
    {
        Reached {
            shape,
            cells: 0,
            bytes: 0,
        }
    }
}

/// Where the first member of a name lies among members, with `void` for its shape where there is none.
fn among<'p>(program: &Table<'p>, members: &'p [Member], name: &[u8]) -> Reached<'p>
    requires within { AreWithin (world_of program.now) 0 0 (map part_of (map member_tree members.now)) }
    ensures shape { shape_tree result.shape ≡ part_shape (map part_of (map member_tree members.entry.now)) name.now }
    ensures cells { result.cells ≡ cells_before (cells_of (world_of program.now)) (map part_of (map member_tree members.entry.now)) name.now }
    ensures bytes { result.bytes ≡ bytes_before (extent_of (world_of program.now)) 0 (map part_of (map member_tree members.entry.now)) name.now }
{
    let mut cells = 0;
    let mut bytes = 0;
    'each: for member in members {
        let shape = Shape::of(&member.of);
        let room = extent(program, shape);
        let at = rounded(bytes, room.align);
        if member.name.text.as_slice() == name {
            return Reached {
                shape,
                cells,
                bytes: at,
            };
        }
        cells += count(program, shape);
        bytes = at + room.size;
    }
    Reached {
        shape: Shape::Void,
        cells,
        bytes,
    }
}

/// Where the member of a name of the struct of a tag lies, by a look at one after the other; `void` where there is none.
#[tactic(auto, using(crate::proofs::Reaching::no_member, crate::proofs::Reaching::none_before, crate::proofs::Reaching::no_bytes_before))]
fn searched<'p>(program: &Table<'p>, tag: &[u8], name: &[u8]) -> Reached<'p>
    ensures shape { shape_tree result.shape ≡ part_shape (parts_of (world_of program.now).structs tag.now) name.now }
    ensures cells { let w = world_of program.now in result.cells ≡ cells_before (cells_of w) (parts_of w.structs tag.now) name.now }
    ensures bytes { let w = world_of program.now in result.bytes ≡ bytes_before (extent_of w) 0 (parts_of w.structs tag.now) name.now }
{
    match program.struct_of(tag) {
        Some(known) => among(program, known.members, name),
        None => Reached {
            shape: Shape::Void,
            cells: 0,
            bytes: 0,
        },
    }
}

/// Where the member of a name of the struct of a tag lies; `void` where there is none.
fn part<'p>(program: &Table<'p>, tag: &[u8], name: &[u8]) -> Reached<'p>
    ensures shape { shape_tree result.shape ≡ part_shape (parts_of (world_of program.now).structs tag.now) name.now }
    ensures cells { let w = world_of program.now in result.cells ≡ cells_before (cells_of w) (parts_of w.structs tag.now) name.now }
    ensures bytes { let w = world_of program.now in result.bytes ≡ bytes_before (extent_of w) 0 (parts_of w.structs tag.now) name.now }
{
    match program.place(tag, name) {
        Some(place) => place,
        None => searched(program, tag, name),
    }
}

/// Where a member of a struct of a shape lies from the struct's beginning on; `void` where there is none.
pub fn member<'p>(program: &Table<'p>, shape: &Shape<'_>, name: &[u8]) -> Reached<'p>
    ensures shape { shape_tree result.shape ≡ member_shape (world_of program.now) (shape_tree shape.now) name.now }
    ensures cells { let w = world_of program.now in result.cells ≡ cells_before (cells_of w) (struct_parts w (shape_tree shape.now)) name.now }
    ensures bytes { let w = world_of program.now in result.bytes ≡ bytes_before (extent_of w) 0 (struct_parts w (shape_tree shape.now)) name.now }
{
    match shape {
        Shape::Struct(tag) => part(program, tag, name),
        _ => Reached {
            shape: Shape::Void,
            cells: 0,
            bytes: 0,
        },
    }
}

/// Goes on to a member of the struct that is reached.
#[tactic(auto, using(crate::proofs::Reaching::reached_member))]
pub fn dot<'p>(program: &Table<'p>, reached: &Reached<'p>, name: &[u8]) -> Reached<'p>
    requires within { IsWithin (world_of program.now) (reached_place reached.now) }
    ensures place { reached_place result ≡ member_place (world_of program.now) (reached_place reached.now) name.now }
    ensures within { IsWithin (world_of program.now) (reached_place result) }
{
    // each struct takes at most 4,096 bytes
    program.small();
    let further = member(program, &reached.shape, name);
    Reached {
        shape: further.shape,
        cells: reached.cells + further.cells,
        bytes: reached.bytes + further.bytes,
    }
}

/// Goes on to a member of the struct that a value of a shape, in a temporary, leads to: appends what leaves a pointer to the struct there,
/// and raises where it leads to none.
pub fn lower_arrow<'p>(
    program: &Table<'p>,
    shape: &Shape<'p>,
    name: &[u8],
    body: &mut Body<'_>,
    to: Temporary,
    at: Origin,
) -> Reached<'p>
    requires room { HasRoom to.0 2 }
    ensures code { Emits body.old body.new (reach_code (world_of program.now) (shape_tree shape.now) to.0) }
    ensures place { IsSound body.new →
        reached_place result ≡ member_place (world_of program.now) (place_at_once (pointee (shape_tree shape.now))) name.now }
    ensures within { IsWithin (world_of program.now) (reached_place result) }
{
    lower_reach(program, shape, body, to, at);
    dot(program, &Reached::at_once(shape.pointee()), name)
}

/// The temporary of the pointer that a suffix leads to, where what is on its left is in this one: a subscript's is that of its index, the
/// one before.
pub fn reached_in(suffix: &Suffix, to: Temporary) -> Temporary
    ensures { result.0 ≡ to.0 - indices_in (suffixes_of (suffix_tree suffix.now ∷ [])) }
{
    match suffix {
        Suffix::Index(_) => Temporary(to.0.saturating_sub(1)),
        Suffix::Dot(_) | Suffix::Arrow(_) => to,
    }
}

/// Goes on along a suffix, whose index is in the temporary right before that of the pointer.
fn follow_one<'p>(
    program: &Table<'p>,
    suffix: &Suffix,
    body: &mut Body<'_>,
    reached: &Reached<'p>,
    pointer: Temporary,
) -> Reached<'p>
    requires room { HasRoom pointer.0 2 }
    requires within { IsWithin (world_of program.now) (reached_place reached.now) }
    ensures code { Emits body.old body.new
        (further_code (world_of program.now) (suffixes_of (suffix_tree suffix.now ∷ [])) (reached_place reached.now) pointer.0) }
    ensures place { IsSound body.new →
        reached_place result ≡ further_place (world_of program.now) (suffixes_of (suffix_tree suffix.now ∷ [])) (reached_place reached.now) }
    ensures within { IsWithin (world_of program.now) (reached_place result) }
{
    match suffix {
        Suffix::Dot(name) => dot(program, reached, &name.text),
        Suffix::Arrow(name) => {
            lower_loads(body, reached, pointer);
            lower_arrow(
                program,
                &reached.shape,
                &name.text,
                body,
                pointer,
                Origin(name.at),
            )
        }
        Suffix::Index(index) => {
            lower_loads(body, reached, pointer);
            lower_subscripted(
                program,
                &reached.shape,
                body,
                Temporary(pointer.0.saturating_sub(1)),
                Origin(index.place()),
            );
            Reached::at_once(reached.shape.pointee())
        }
    }
}

/// Goes on along suffixes, whose indices are in the temporaries right before that of the pointer, the last one first.
pub fn follow<'p>(
    program: &Table<'p>,
    suffixes: &[Suffix],
    body: &mut Body<'_>,
    start: Reached<'p>,
    pointer: Temporary,
) -> Reached<'p>
    requires room { HasRoom pointer.0 2 }
    requires within { IsWithin (world_of program.now) (reached_place start) }
    ensures code { Emits body.old body.new
        (further_code (world_of program.now) (suffixes_of (map suffix_tree suffixes.now)) (reached_place start.entry) pointer.0) }
    ensures place { IsSound body.new →
        reached_place result ≡ further_place (world_of program.now) (suffixes_of (map suffix_tree suffixes.now)) (reached_place start.entry) }
    ensures near { result.bytes ≤ 4096 }
{
    let mut reached = start;
    let mut to = pointer;
    'each: for suffix in suffixes {
        reached = follow_one(program, suffix, body, &reached, to);
        to = reached_in(suffix, to);
    }
    reached
}

/// Appends what leaves a pointer to what is reached from where the pointer in a temporary leads there.
pub fn lower_pointed(body: &mut Body<'_>, reached: &Reached<'_>, to: Temporary)
    ensures { Emits body.old body.new (offset_code to.0 reached.now.cells reached.now.bytes) }
{
    if reached.cells != 0 || reached.bytes != 0 {
        body.operation(Operation::Offset(to, to, reached.cells, reached.bytes));
    }
}
