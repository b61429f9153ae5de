// The union of a `switch`, and its members.

ghost use Rattle.std.specs.Prelude.{◌≡◌, ◌≤◌, IfOk, List, None, OnOk, Some, length, option_map, ℕ};
ghost use Rattle.cyc_tree.specs.View.{name_tree, pattern_tree};
ghost use Rattle.cyc_types.specs.Bases.{base_type};
ghost use Rattle.cyc_types.specs.Regions.{region_of, regions_of};
ghost use Rattle.cyc_types.specs.Sameness.{HasTags};
ghost use Rattle.cyc_types.specs.Tags.{member_of};
ghost use Rattle.cyc_types.specs.Types.{static_type};
ghost use Rattle.source_typing.specs.Scope.{Env, block_entered, next_region};
ghost use Rattle.source_typing.specs.Statements.{bound_what, chosen, clause_scope, part_what, parts_of_chosen};
ghost use Rattle.source_typing.specs.Tables.{part_in};
ghost use Rattle.check_faults.specs.Verdicts.{short_of, shortened};
ghost use Rattle.source_typing.specs.Written.{RegionNamed};
ghost use Rattle.check_scopes.specs.Matching.{AreLocals};
ghost use Rattle.check_scopes.specs.Changes.{left};
ghost use Rattle.check_scopes.specs.Means.{WhatIs};
ghost use Rattle.check_regions.specs.declared.scope.RegionMark.{RegionMark};
ghost use Rattle.check_declarations.specs.Contexts.{StandsIn};
ghost use Rattle.check_declarations.specs.declared.context.Context.{Context};
ghost use Rattle.check_operators.specs.Values.{value_of};
ghost use Rattle.check_declarations.specs.Switching.{HasParts, chosen_in, part_named, switched_in, union_in};
ghost use Rattle.source_typing.specs.Scope as judged;
ghost use Rattle.source_typing.specs.Statements as statements;
ghost use Rattle.source_typing.specs.Verdicts as verdict;

use check_faults::Verdict;
use check_operators::{Seat, Value, renamed_type};
use check_scopes::{Scope, What};
use cyc_tree::{Name, Pattern};
use cyc_types::{BaseType, CType, Member, RegionId, Tables};
use std::alloc::AllocError;

/// The union of a `switch`.
#[derive(Clone, Copy)]
pub struct Chosen<'a> {
    /// Its name.
    pub tag: &'a [u8],
    regions: &'a [RegionId],
}

/// The union of a `switch`, whose members are in these tables.
#[derive(Clone, Copy)]
pub struct SwitchedUnion<'a, 'p> {
    chosen: Chosen<'a>,
    tables: &'a Tables<'p>,
}

impl<'a, 'p> SwitchedUnion<'a, 'p> {
    /// The member of a name.
    pub fn member(&self, name: &[u8]) -> Option<&'a Member<'p>>
        ensures { option_map (λ m. member_of m.now) result ≡ part_named (Some self.now) name.now }
    {
        self.tables.member(self.chosen.tag, name)
    }
}

/// The union of a `switch` on what was judged, where it is one's place.
fn chosen_of<'a>(place: &'a Verdict<Value<'_>>) -> Option<Chosen<'a>>
    ensures { (v : verdict.Verdict judged.Value) → short_of value_of place.now ≡ shortened v → option_map chosen_in result ≡ chosen v }
{
    match place {
        Verdict::Of(value) => place_union(value),
        Verdict::Wrong(_) | Verdict::NotJudged => None,
    }
}

/// The union of a `switch` on what was judged, where it is one's place.
pub fn union_of<'a, 'p>(
    tables: &'a Tables<'p>,
    place: &'a Verdict<Value<'_>>,
) -> Option<SwitchedUnion<'a, 'p>>
    ensures union { (v : verdict.Verdict judged.Value) → short_of value_of place.entry.now ≡ shortened v → option_map switched_in result ≡ chosen v }
    ensures parts { (g : Env) → HasTags tables.entry.now g.tables → HasParts g result }
{
    match chosen_of(place) {
        Some(chosen) => Some(SwitchedUnion { chosen, tables }),
        None => None,
    }
}

/// The union that a value is, where it is a place of one.
#[tactic(auto, using(crate::proofs::Unions::in_region_union, crate::proofs::Unions::in_block_union))]
pub fn place_union<'a>(value: &'a Value<'_>) -> Option<Chosen<'a>>
    ensures { option_map chosen_in result ≡ statements.chosen_of (value_of value.now).type (value_of value.now).seat }
{
    match value.seat {
        Seat::Nowhere => None,
        Seat::In(_) => type_union(&value.of),
        Seat::InBlock => type_union(&value.of),
    }
}

/// The union that a type is.
#[tactic(auto, using(crate::proofs::Unions::plain_union, crate::proofs::Unions::pointer_union))]
fn type_union<'a>(of: &'a CType<'_>) -> Option<Chosen<'a>>
    ensures { option_map chosen_in result ≡ union_in (static_type of.now) }
{
    match of.outer() {
        Some(_) => None,
        None => base_union(&of.base),
    }
}

/// The union that a type is that is no pointer.
fn base_union<'a>(of: &'a BaseType<'_>) -> Option<Chosen<'a>>
    ensures { option_map chosen_in result ≡ union_in (base_type of.now) }
{
    match of {
        BaseType::Union(tag, regions) => Some(Chosen {
            tag: *tag,
            regions: regions.as_slice(),
        }),
        _ => None,
    }
}

/// What the name of a clause stands for: a copy of the member, in the clause's stack region.
fn bound_what<'p>(
    union: &Option<SwitchedUnion<'_, 'p>>,
    frame: RegionId,
    field: &Name,
) -> Result<What<'p>, AllocError>
    ensures { (g : Env) → HasParts g union.now → let c = option_map switched_in union.now in
        IfOk result (WhatIs (bound_what (region_of frame) c (part_in (parts_of_chosen g c) (name_tree field.now).text))) }
{
    match union {
        Some(union) => bound_member(union, frame, field),
        None => Ok(What::Untyped),
    }
}

/// The same of a union that is known.
fn bound_member<'p>(
    union: &SwitchedUnion<'_, 'p>,
    frame: RegionId,
    field: &Name,
) -> Result<What<'p>, AllocError>
    ensures { (g : Env) → HasParts g (Some union.now) → let c = Some (switched_in union.now) in
        IfOk result (WhatIs (bound_what (region_of frame) c (part_in (parts_of_chosen g c) (name_tree field.now).text))) }
{
    match union.member(&field.text) {
        Some(member) => member_what(member, union.chosen.regions, frame),
        None => Ok(What::Untyped),
    }
}

/// A copy of a member of a union with these region arguments; one of no known type isn't known.
fn member_what<'p>(
    member: &Member<'p>,
    regions: &[RegionId],
    frame: RegionId,
) -> Result<What<'p>, AllocError>
    ensures { IfOk result (WhatIs (part_what (region_of frame) (regions_of regions.now) (member_of member.now).type)) }
{
    match &member.of {
        Some(of) => {
            let renamed = renamed_type(regions, of)?;
            Ok(What::Variable(renamed, frame))
        }
        None => Ok(What::Untyped),
    }
}

/// Declares the name of a clause in its block, which has no locals yet.
pub fn bind<'p>(
    scope: &mut Scope<'_, 'p>,
    union: &Option<SwitchedUnion<'_, 'p>>,
    frame: RegionId,
    pattern: &'p Pattern,
) -> Result<(), AllocError>
    ensures stands { (c : Context) (ns : List RegionNamed) (g : Env) → StandsIn c ns (length scope.old.locals) scope.old (block_entered g)
        → region_of frame ≡ next_region g → HasParts g union.now → OnOk result (StandsIn c ns (length scope.old.locals) scope.new
        (clause_scope g (option_map switched_in union.now) (pattern_tree pattern.entry.now))) }
    ensures locals { (c : Context) (ns : List RegionNamed) (g : Env) → StandsIn c ns (length scope.old.locals) scope.old (block_entered g)
        → region_of frame ≡ next_region g → HasParts g union.now → AreLocals scope.old.locals g.locals → OnOk result (AreLocals scope.new.locals
        (clause_scope g (option_map switched_in union.now) (pattern_tree pattern.entry.now)).locals) }
    ensures regions { OnOk result (scope.new.regions ≡ scope.old.regions) }
    ensures left { OnOk result ((count : ℕ) (mark : RegionMark) → count ≤ length scope.old.locals → left count mark scope.new ≡ left count mark scope.old) }
{
    match pattern {
        Pattern::Case(field, name) => {
            let what = bound_what(union, frame, field)?;
            scope.locals.declare(&name.text, what)?;
            Ok(())
        }
        Pattern::Default => Ok(()),
    }
}
