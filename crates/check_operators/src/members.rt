// Members of structs.

ghost use Rattle.std.specs.Prelude.{◌≡◌, IfOk};
ghost use Rattle.cyc_tree.specs.View.{name_tree};
ghost use Rattle.cyc_types.specs.Bases.{base_type};
ghost use Rattle.cyc_types.specs.Regions.{regions_of};
ghost use Rattle.cyc_types.specs.Sameness.{HasTags};
ghost use Rattle.cyc_types.specs.Tags.{member_of};
ghost use Rattle.cyc_types.specs.Types.{static_type};
ghost use Rattle.check_operators.specs.StructMembers.{arrow_on, member_on};
ghost use Rattle.check_operators.specs.Values.{seat_of, value_of};
ghost use Rattle.check_scopes.specs.Knows.{Sees};
ghost use Rattle.source_typing.specs.Places.{arrow, member, part_of, part_typed};
ghost use Rattle.source_typing.specs.Scope.{Env};
ghost use Rattle.check_faults.specs.Verdicts.{short_of, shortened};

use crate::prefix::{is_reached, seat_behind};
use crate::renaming::renamed_type;
use crate::value::{Seat, Value, refused, seated};
use check_faults::{FaultKind, Verdict};
use check_scopes::Scope;
use cyc_tree::Name;
use cyc_types::{BaseType, Layer, Member, RegionId, Tables};
use std::alloc::AllocError;

/// A member of a struct with these region arguments; one of no known type isn't checked.
fn typed_part<'p>(
    at: u32,
    seat: Seat,
    regions: &[RegionId],
    member: &Member<'p>,
) -> Result<Verdict<Value<'p>>, AllocError>
    ensures { IfOk result (λ v. short_of value_of v ≡ shortened (part_typed at (seat_of seat) (regions_of regions.now) (member_of member.now).type)) }
{
    match &member.of {
        Some(of) => {
            let renamed = renamed_type(regions, of)?;
            Ok(seated(at, renamed, seat))
        }
        None => Ok(Verdict::NotJudged),
    }
}

/// A member of a struct by its tag, with these region arguments.
fn part_of<'p>(
    tables: &Tables<'p>,
    at: u32,
    seat: Seat,
    tag: &[u8],
    regions: &[RegionId],
    field: &Name,
) -> Result<Verdict<Value<'p>>, AllocError>
    ensures { (g : Env) → HasTags tables.now g.tables → IfOk result (λ v. short_of value_of v
        ≡ shortened (part_of g at (seat_of seat) tag.now (regions_of regions.now) (name_tree field.now))) }
{
    match tables.member(tag, &field.text) {
        Some(member) => {
            let part = typed_part(at, seat, regions, member)?;
            Ok(part)
        }
        None => Ok(refused(FaultKind::Name, field.at)),
    }
}

/// A member of what is no pointer.
fn member_on<'p>(
    tables: &Tables<'p>,
    at: u32,
    seat: Seat,
    base: &BaseType<'p>,
    field: &Name,
) -> Result<Verdict<Value<'p>>, AllocError>
    ensures { (g : Env) → HasTags tables.now g.tables → IfOk result (λ v. short_of value_of v
        ≡ shortened (member_on g (name_tree field.now) at (base_type base.now) (seat_of seat))) }
{
    match base {
        BaseType::Struct(tag, regions) => {
            let part = part_of(tables, at, seat, *tag, regions.as_slice(), field)?;
            Ok(part)
        }
        _ => Ok(refused(FaultKind::Typing, at)),
    }
}

/// `e.f`: a member of a place.
pub fn member<'p>(
    tables: &Tables<'p>,
    field: &Name,
    operand: &Value<'p>,
) -> Result<Verdict<Value<'p>>, AllocError>
    ensures { (g : Env) → HasTags tables.now g.tables
        → IfOk result (λ v. short_of value_of v ≡ shortened (member g (name_tree field.now) (value_of operand.now))) }
{
    if matches!(operand.seat, Seat::Nowhere) {
        return Ok(refused(FaultKind::Typing, operand.at));
    }
    match operand.of.outer() {
        Some(_) => Ok(refused(FaultKind::Typing, operand.at)),
        None => {
            let part = member_on(tables, operand.at, operand.seat, &operand.of.base, field)?;
            Ok(part)
        }
    }
}

/// A member of what a pointer leads to, where that is no pointer, by whether its region is live.
fn arrow_on<'p>(
    tables: &Tables<'p>,
    at: u32,
    pointer: Layer,
    is_live: bool,
    base: &BaseType<'p>,
    field: &Name,
) -> Result<Verdict<Value<'p>>, AllocError>
    ensures { (g : Env) → HasTags tables.now g.tables → IfOk result (λ v. short_of value_of v
        ≡ shortened (arrow_on g (name_tree field.now) at pointer is_live (base_type base.now))) }
{
    match base {
        BaseType::Struct(tag, regions) => {
            if is_live {
                let seat = seat_behind(pointer);
                let part = part_of(tables, at, seat, *tag, regions.as_slice(), field)?;
                Ok(part)
            } else {
                Ok(refused(FaultKind::Region, at))
            }
        }
        _ => Ok(refused(FaultKind::Typing, at)),
    }
}

/// `e->f`: a member of what a pointer leads to, whose region has to be live.
pub fn arrow<'p>(
    scope: &Scope,
    tables: &Tables<'p>,
    field: &Name,
    operand: Value<'p>,
) -> Result<Verdict<Value<'p>>, AllocError>
    ensures { (g : Env) → Sees scope.now g → HasTags tables.now g.tables
        → IfOk result (λ v. short_of value_of v ≡ shortened (arrow g (name_tree field.now) (value_of operand.entry))) }
{
    let at = operand.at;
    match operand.of.outer() {
        Some(pointer) => {
            let is_live = is_reached(scope, pointer);
            let to = operand.of.into_pointee();
            match to.outer() {
                Some(_) => Ok(refused(FaultKind::Typing, at)),
                None => {
                    let part = arrow_on(tables, at, pointer, is_live, &to.base, field)?;
                    Ok(part)
                }
            }
        }
        None => Ok(refused(FaultKind::Typing, at)),
    }
}
