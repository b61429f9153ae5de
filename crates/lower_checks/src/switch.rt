// `switch`: a clause for each member of a union.

ghost use Rattle.std.specs.Prelude.{◌≡◌, ◌+◌, ◌∷◌, ◌++◌, [], IfSome, List, is_some, map, true};
ghost use Rattle.core_meaning.specs.Core as core;
ghost use Rattle.cyc_core.specs.Trees.{statement_tree};
ghost use Rattle.cyc_tree.specs.Tree as tree;
ghost use Rattle.cyc_tree.specs.View.{clause_tree, clauses_of, expression_tree, item_tree, items_of, name_tree};
ghost use Rattle.source_meaning.specs.Programs.{world_of};
ghost use Rattle.source_meaning.specs.Shapes.{Part, part_shape, part_shapes, parts_of};
ghost use Rattle.source_lowering.specs.Lowered.{
  all_of,
  expression_values,
  held_loads,
  member_number,
  place_code,
  put_local,
  static_shape,
  tag_load,
  union_parts,
};
ghost use Rattle.source_lowering.specs.Programs.{
  block_shapes,
  case_values,
  cases_code,
  default_code,
  default_values,
  item_values,
  items_code,
  locals_of,
  named_here,
  outward,
  statement_code,
  statement_values,
};
ghost use Rattle.source_lowering.specs.Lowerable.{AreValues, IsMember, IsUnionShape, IsVariable, TakesClauses, TakesItems, TakesPlace};
ghost use Rattle.cyc_tree.specs.Room.{clause_room, item_room, room};
ghost use Rattle.lower_checks.specs.Counted.{IsCounted};
ghost use Rattle.lower_checks.specs.Room.{HasRoom};
ghost use Rattle.lower_checks.specs.Scoped.{names_in, world_in};
ghost use Rattle.lower_checks.specs.Views.{regions_tree, shape_tree};
ghost use Rattle.lower_checks.specs.Visible.{names_of};
ghost use Rattle.lower_checks.specs.Writing.{IsApart, IsSound, Writes, next_of};

use crate::body::Body;
use crate::leaving::RegionsAround;
use crate::locals::Locals;
use crate::names::behind;
use crate::place::lower_place;
use crate::scope::Scope;
use crate::shape::Shape;
use crate::statement::{declare, enter, lower_block, lower_inside, lower_items};
use crate::stored::Stored;
use crate::table::Table;
use crate::union_members::Chosen;
use crate::variable::lower_put_local;
use crate::words::{lower_held_loads, lower_tag};
use cyc_core::{Binary, Operation, Origin, Statement, Temporary, Variable};
use cyc_tree::{BlockItem, Clause, Expression, Name, Pattern};

/// Appends what leaves a pointer to a place that is a union in a temporary, and the number of the member that it holds in the next one; gives
/// the tag of the union's type, where that is one of the program; appends the shapes of the temporary objects.
fn lower_union_place<'p>(
    scope: &Scope<'_, 'p>,
    place: &'p Expression,
    body: &mut Body<'p>,
    to: Temporary,
) -> Option<&'p [u8]>
    requires room { HasRoom to.0 (1 + room (expression_tree place.now)) }
    requires taken { let w = world_in scope.now in
        let e = expression_tree place.now in
        IsSound body.old → TakesPlace w (names_in scope.now) e × IsUnionShape w.unions (static_shape w (names_in scope.now) e) }
    ensures writes { let w = world_in scope.now in
        let e = expression_tree place.entry.now in
        Writes body.old body.new (place_code w (names_in scope.now) e to.0 (next_of body.old) ++ tag_load (to.0 + 1) to.0)
        (expression_values w (names_in scope.now) e) }
    ensures parts { let w = world_in scope.now in
        let parts = union_parts w (static_shape w (names_in scope.now) (expression_tree place.entry.now)) in
        IsSound body.new → IfSome result (λ tag. parts_of w.unions tag.now ≡ parts) }
    ensures values { IfSome result (λ tag. AreValues (part_shapes (parts_of (world_in scope.now).unions tag.now))) }
    ensures found { IsSound body.new → is_some result ≡ true }
{
    let shape = lower_place(scope, place, body, to);
    let tag = behind(to, 1);
    lower_tag(body, tag, to);
    scope.program.union_tag(shape)
}

/// The member of a name of the union of a tag.
fn chosen_of<'p>(program: &Table<'p>, tag: &[u8], name: &[u8], body: &Body<'_>) -> Chosen<'p>
    requires taken { IsSound body.now → IsMember (parts_of (world_of program.now).unions tag.now) name.now }
    ensures number { let parts = parts_of (world_of program.now).unions tag.now in IsSound body.now → result.number ≡ member_number parts name.now }
    ensures shape { let parts = parts_of (world_of program.now).unions tag.now in IsSound body.now → shape_tree result.shape ≡ part_shape parts name.now }
{
    match program.member(tag, name) {
        Some(chosen) => chosen,
        None => {
            body.never();
            Chosen {
                number: 0,
                shape: Shape::Void,
            }
        }
    }
}

/// What a clause does for a member: it is copied to the first local of the clause's block, and the `switch` is left behind that; appends
/// the shapes of the temporary objects.
#[cycle(statement)]
fn lower_clause<'p>(
    program: &Table<'p>,
    shape: &Shape<'_>,
    locals: &mut Locals<'p>,
    of: Shape<'p>,
    name: &'p Name,
    items: &'p [BlockItem],
    body: &mut Body<'p>,
    around: RegionsAround,
    opened: &[bool],
) -> Vec<Statement>
    requires room { HasRoom around.all (16 + item_room (items_of (map item_tree items.now))) }
    requires counted { IsCounted around }
    requires taken { IsSound body.old →
        TakesItems (world_of program.now) (shape_tree shape.now) (named_here (name_tree name.now).text (shape_tree of) 0 ∷ outward (names_of locals.old)) 1
        (items_of (map item_tree items.now)) }
    requires variable { IsSound body.old → IsVariable (world_of program.now).unions (world_of program.now).structs (shape_tree of) }
    ensures apart { let inner = named_here (name_tree name.entry.now).text (shape_tree of.entry) 0 ∷ outward (names_of locals.old) in
        IsSound body.new → IsApart body.old body.new (item_values (world_of program.now) inner 1 (items_of (map item_tree items.entry.now))) }
    ensures part { let w = world_of program.now in
        let s = shape_tree of.entry in
        let inner = named_here (name_tree name.entry.now).text s 0 ∷ outward (names_of locals.old) in
        let h = regions_tree around opened.now in
        let inside = items_of (map item_tree items.entry.now) in
        IsSound body.new → map statement_tree result.items ≡
        core.Block (locals_of w (s ∷ block_shapes w inner 1 inside))
        (all_of (held_loads s h.all ++ (put_local s h.all 0 0 ++ items_code w (shape_tree shape.now) inner h 1 (next_of body.old) inside))) ∷
        core.Break ∷ [] }
    ensures kept { IsSound body.new → locals.new ≡ locals.old }
{
    let to = around.value();
    let stored = Stored::One(of);
    let outer = body.begin();
    let mut declared_here = Vec::new(body.alloc);
    enter(locals, body);
    declare(locals, &mut declared_here, name, stored, 0, body);
    lower_held_loads(body, &of, to);
    lower_put_local(body, &stored, Variable { out: 0, index: 0 }, to);
    lower_items(
        program,
        shape,
        locals,
        items,
        &mut declared_here,
        body,
        around,
        opened,
    );
    locals.leave();
    let inside = body.end(Vec::new(body.alloc));
    lower_inside(program, &declared_here, body, inside);
    body.breaks();
    body.end(outer)
}

/// Appends what does a clause where the tag in the next temporary is the number of its member; appends the shapes of the temporary objects.
#[cycle(statement)]
fn lower_case<'p>(
    program: &Table<'p>,
    shape: &Shape<'_>,
    locals: &mut Locals<'p>,
    chosen: Chosen<'p>,
    name: &'p Name,
    items: &'p [BlockItem],
    body: &mut Body<'p>,
    around: RegionsAround,
    opened: &[bool],
)
    requires room { HasRoom around.all (16 + item_room (items_of (map item_tree items.now))) }
    requires counted { IsCounted around }
    requires taken { IsSound body.old →
        TakesItems (world_of program.now) (shape_tree shape.now)
        (named_here (name_tree name.now).text (shape_tree chosen.shape) 0 ∷ outward (names_of locals.old)) 1 (items_of (map item_tree items.now)) }
    requires variable { IsSound body.old → IsVariable (world_of program.now).unions (world_of program.now).structs (shape_tree chosen.shape) }
    ensures writes { let w = world_of program.now in
        let s = shape_tree chosen.entry.shape in
        let inner = named_here (name_tree name.entry.now).text s 0 ∷ outward (names_of locals.old) in
        let h = regions_tree around opened.now in
        let inside = items_of (map item_tree items.entry.now) in
        Writes body.old body.new
        (core.Do (core.Constant (h.all + 2) chosen.entry.number) ∷ core.Do (core.Apply core.Equal (h.all + 2) (h.all + 1) (h.all + 2)) ∷
        core.If (h.all + 2)
        (all_of
        (core.Block (locals_of w (s ∷ block_shapes w inner 1 inside))
        (all_of (held_loads s h.all ++ (put_local s h.all 0 0 ++ items_code w (shape_tree shape.now) inner h 1 (next_of body.old) inside))) ∷
        core.Break ∷ []))
        core.NoStatements ∷
        [])
        (item_values w inner 1 inside) }
    ensures kept { IsSound body.new → locals.new ≡ locals.old }
{
    let tag = behind(around.value(), 1);
    let test = behind(around.value(), 2);
    body.operation(Operation::Constant(test, chosen.number));
    body.operation(Operation::Apply(Binary::Equal, test, tag, test));
    let clause = lower_clause(
        program,
        shape,
        locals,
        chosen.shape,
        name,
        items,
        body,
        around,
        opened,
    );
    body.branch(test, clause, Vec::new(body.alloc));
}

/// Appends what does each clause for a member of the union of a tag, one after the other; appends the shapes of the temporary objects.
#[cycle(statement)]
fn lower_cases<'p>(
    program: &Table<'p>,
    shape: &Shape<'_>,
    locals: &mut Locals<'p>,
    tag: &[u8],
    clauses: &'p [Clause],
    body: &mut Body<'p>,
    around: RegionsAround,
    opened: &[bool],
)
    requires room { HasRoom around.all (clause_room (clauses_of (map clause_tree clauses.now))) }
    requires counted { IsCounted around }
    requires taken { IsSound body.old →
        TakesClauses (world_of program.now) (shape_tree shape.now) (names_of locals.old) (parts_of (world_of program.now).unions tag.now)
        (clauses_of (map clause_tree clauses.now)) }
    requires values { AreValues (part_shapes (parts_of (world_of program.now).unions tag.now)) }
    ensures writes { let w = world_of program.now in
        let names = names_of locals.old in
        let parts = parts_of w.unions tag.now in
        let cs = clauses_of (map clause_tree clauses.entry.now) in
        Writes body.old body.new (cases_code w (shape_tree shape.now) names (regions_tree around opened.now) parts (next_of body.old) cs)
        (case_values w names parts cs) }
    ensures kept { IsSound body.new → locals.new ≡ locals.old }
{
    'each: for clause in clauses {
        let pattern = &clause.pattern;
        match pattern {
            Pattern::Case(member, name) => {
                let chosen = chosen_of(program, tag, &member.text, body);
                lower_case(
                    program,
                    shape,
                    locals,
                    chosen,
                    name,
                    &clause.body,
                    body,
                    around,
                    opened,
                );
            }
            Pattern::Default => {}
        }
    }
}

/// Appends what the first `default` among clauses does, if there is one; appends the shapes of the temporary objects.
#[cycle(statement)]
fn lower_default<'p>(
    program: &Table<'p>,
    shape: &Shape<'_>,
    locals: &mut Locals<'p>,
    clauses: &'p [Clause],
    body: &mut Body<'p>,
    around: RegionsAround,
    opened: &[bool],
)
    requires room { HasRoom around.all (clause_room (clauses_of (map clause_tree clauses.now))) }
    requires counted { IsCounted around }
    requires taken { IsSound body.old → (parts : List Part) ×
        TakesClauses (world_of program.now) (shape_tree shape.now) (names_of locals.old) parts (clauses_of (map clause_tree clauses.now)) }
    ensures writes { let w = world_of program.now in
        let names = names_of locals.old in
        let cs = clauses_of (map clause_tree clauses.entry.now) in
        Writes body.old body.new (default_code w (shape_tree shape.now) names (regions_tree around opened.now) (next_of body.old) cs)
        (default_values w names cs) }
    ensures kept { IsSound body.new → locals.new ≡ locals.old }
{
    'each: for clause in clauses {
        let pattern = &clause.pattern;
        match pattern {
            Pattern::Case(_, _) => {}
            Pattern::Default => {
                lower_block(program, shape, locals, &clause.body, body, around, opened);
                return;
            }
        }
    }
}

/// Appends a `switch` on a place that is a union; appends the shapes of the temporary objects.
#[cycle(statement)]
pub fn lower_switch<'p>(
    program: &Table<'p>,
    shape: &Shape<'_>,
    locals: &mut Locals<'p>,
    clauses: &'p [Clause],
    place: &'p Expression,
    body: &mut Body<'p>,
    around: RegionsAround,
    opened: &[bool],
)
    requires room { HasRoom around.all (16 + (room (expression_tree place.now) + clause_room (clauses_of (map clause_tree clauses.now)))) }
    requires counted { IsCounted around }
    requires taken { let w = world_of program.now in
        let names = names_of locals.old in
        let e = expression_tree place.now in
        IsSound body.old → TakesPlace w names e ×
        (IsUnionShape w.unions (static_shape w names e) ×
        TakesClauses w (shape_tree shape.now) names (union_parts w (static_shape w names e)) (clauses_of (map clause_tree clauses.now))) }
    ensures writes { let w = world_of program.now in
        let names = names_of locals.old in
        let s = tree.Switch 0 (expression_tree place.entry.now) (clauses_of (map clause_tree clauses.entry.now)) in
        Writes body.old body.new (statement_code w (shape_tree shape.now) names (regions_tree around opened.now) (next_of body.old) s)
        (statement_values w names s) }
    ensures kept { IsSound body.new → locals.new ≡ locals.old }
{
    let outer = body.begin_at(Origin(place.place()));
    let tag = lower_union_place(
        &Scope {
            alloc: body.alloc,
            program,
            locals,
            numbers: &[],
        },
        place,
        body,
        around.value(),
    );
    let inside = around.in_switch();
    match tag {
        Some(tag) => lower_cases(program, shape, locals, tag, clauses, body, inside, opened),
        None => body.never(),
    }
    lower_default(program, shape, locals, clauses, body, inside, opened);
    let all = body.end(outer);
    body.leaves(all);
}
