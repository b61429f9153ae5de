// Statements from the last one back: what is loaded from slots behind each of them is known before it is looked at, and so which of its results are saved.

ghost use Rattle.std.specs.Prelude.{◌≡◌, ◌≤◌, true, [], ◌++◌, reverse, IfOk, OnOk, length, map};
ghost use Rattle.core_meaning.specs.Core as core;
ghost use Rattle.core_lines.specs.Held.{raises_only};
ghost use Rattle.core_lines.specs.Loaded.{loads_of};
ghost use Rattle.core_lines.specs.Saved.{all_flagged, live_in, live_of, behind_test, saves_in, saves_of};
ghost use Rattle.core_lines.specs.Saved.{either_flagged, either_way};
ghost use Rattle.core_lines.specs.Selected.{names_after_all, holding, naming};
ghost use Rattle.cyc_core.specs.Trees.{local_tree, statement_tree, body_tree};
ghost use Rattle.rv32_select.specs.Places.{surroundings};

use crate::flags::Flags;
use crate::joining::{Exits, joined, loop_head};
use crate::live_leaves::{
    live_call, live_check, live_end, live_jump, live_operation, live_request, live_return,
};
use crate::loads::{flag_all, flag_some, if_unknown, pass};
use crate::place::Place;
use crate::points::{point_behind, points_of};
use crate::raising::raises_only;
use crate::settling::settle;
use cyc_core::{Local, Statement, Temporary};
use std::alloc::AllocError;

/// Of how many statements of a list, at most, it is known at once where they begin. Each knows up to 32 temporaries there.
const FEW: usize = 4096;

/// Goes back over a statement, before which the place is, behind which `live` are loaded, and where a `Break` and a `Continue` go those of `exits`.
/// Appends which of its results are saved, the last one first. The place is somewhere in the same block then.
#[cycle(live)]
fn live_statement(
    saves: &mut Vec<bool>,
    place: &mut Place,
    live: &mut Flags,
    exits: Exits<'_>,
    statement: &Statement,
) -> Result<(), AllocError>
    ensures saves { let u = surroundings place.old in OnOk result (saves.new.items ≡ saves.old.items
        ++ reverse (saves_in u.homes u.statics u.names u.held live.old exits.entry.out.now exits.entry.again.now (statement_tree statement.now))) }
    ensures live { let u = surroundings place.old in OnOk result (live.new
        ≡ live_in u.homes u.statics u.names u.held live.old exits.entry.out.now exits.entry.again.now (statement_tree statement.now)) }
    ensures same { OnOk result (surroundings place.new ≡ holding place.new.held (naming (surroundings place.new).names (surroundings place.old))) }
    ensures homes { OnOk result (place.new.homes.items ≡ place.old.homes.items) }
{
    match statement {
        Statement::Do(_, operation) => live_operation(saves, &place.held, live, *operation),
        Statement::Copy(to, from, _) => {
            live.set(*to, true)?;
            live.set(*from, true)
        }
        Statement::Clear(pointer, _, _) => live.set(*pointer, true),
        Statement::RegionAlloc(to, handle, count, _) => {
            live_request(saves, &place.held, live, *to, *handle, *count)
        }
        Statement::UniqueAlloc(to, _) => settle(saves, live, *to),
        Statement::Check(test, failure, _) => live_check(live, &place.held, *test, *failure),
        Statement::If(test, both) => { live_if(saves, place, live, exits, *test, &both.0, &both.1) }
        Statement::While(flag, both) => {
            live_while(saves, place, live, exits, &both.0, *flag, &both.1)
        }
        Statement::Block(block) => live_block(saves, place, live, exits, &block.0, &block.1),
        Statement::Leave(body) => live_leavable(saves, place, live, exits.again, body),
        Statement::Break(_) => live_jump(live, exits.out),
        Statement::Continue(_) => live_jump(live, exits.again),
        Statement::Call(call) => live_call(saves, &place.held, live, call.result, &call.arguments),
        Statement::Return(value, _) => live_return(place, live, *value),
        Statement::Raise(..) => live_end(live),
    }
}

/// Goes back over statements, behind which these are loaded. Answers what is loaded before them.
#[cycle(live)]
fn live_before(
    saves: &mut Vec<bool>,
    place: &mut Place,
    after: &Flags,
    exits: Exits<'_>,
    statements: &[Statement],
) -> Result<Flags, AllocError>
    ensures saves { let u = surroundings place.old in OnOk result (saves.new.items ≡ saves.old.items
        ++ reverse (saves_of u.homes u.statics u.names u.held after.now exits.entry.out.now exits.entry.again.now (body_tree statements.now))) }
    ensures live { let u = surroundings place.old in IfOk result (λ live. live
        ≡ live_of u.homes u.statics u.names u.held after.now exits.entry.out.now exits.entry.again.now (body_tree statements.now)) }
    ensures same { OnOk result (surroundings place.new ≡ holding place.new.held (naming (surroundings place.new).names (surroundings place.old))) }
    ensures homes { OnOk result (place.new.homes.items ≡ place.old.homes.items) }
{
    let mut live = after.copied()?;
    live_statements(saves, place, &mut live, exits, statements)?;
    Ok(live)
}

/// Goes back over a choice's first statements, and flags what its second statements load, which only raise an exception.
#[cycle(live)]
fn live_raising(
    saves: &mut Vec<bool>,
    place: &mut Place,
    live: &mut Flags,
    exits: Exits<'_>,
    these: &[Statement],
    those: &[Statement],
) -> Result<(), AllocError>
    ensures saves { let u = surroundings place.old in OnOk result (saves.new.items ≡ saves.old.items
        ++ reverse (saves_of u.homes u.statics u.names u.held live.old exits.entry.out.now exits.entry.again.now (body_tree these.now))) }
    ensures live { let u = surroundings place.old in let behind = names_after_all (body_tree these.now) u.names in
        OnOk result (live.new ≡ all_flagged true (loads_of u.homes u.statics behind u.held (body_tree those.now))
        (live_of u.homes u.statics u.names u.held live.old exits.entry.out.now exits.entry.again.now (body_tree these.now))) }
    ensures same { OnOk result (surroundings place.new ≡ holding place.new.held (naming (surroundings place.new).names (surroundings place.old))) }
    ensures homes { OnOk result (place.new.homes.items ≡ place.old.homes.items) }
{
    let first = place.point()?;
    let second = point_behind(place, these)?;
    place.go_to(first);
    live_statements(saves, place, live, exits, these)?;
    place.go_to(second);
    flag_all(live, place, those)?;
    Ok(())
}

/// Goes back over both ways of a choice.
#[cycle(live)]
fn live_both(
    saves: &mut Vec<bool>,
    place: &mut Place,
    live: &mut Flags,
    exits: Exits<'_>,
    these: &[Statement],
    those: &[Statement],
) -> Result<(), AllocError>
    ensures saves { let u = surroundings place.old in let behind = names_after_all (body_tree these.now) u.names in
        OnOk result (saves.new.items ≡ saves.old.items
        ++ reverse (saves_of u.homes u.statics u.names u.held live.old exits.entry.out.now exits.entry.again.now (body_tree these.now)
        ++ saves_of u.homes u.statics behind u.held live.old exits.entry.out.now exits.entry.again.now (body_tree those.now))) }
    ensures live { let u = surroundings place.old in let behind = names_after_all (body_tree these.now) u.names in
        OnOk result (live.new ≡ either_flagged
        (live_of u.homes u.statics u.names u.held live.old exits.entry.out.now exits.entry.again.now (body_tree these.now))
        (live_of u.homes u.statics behind u.held live.old exits.entry.out.now exits.entry.again.now (body_tree those.now))) }
    ensures same { OnOk result (surroundings place.new ≡ holding place.new.held (naming (surroundings place.new).names (surroundings place.old))) }
    ensures homes { OnOk result (place.new.homes.items ≡ place.old.homes.items) }
{
    let first = place.point()?;
    let second = point_behind(place, these)?;
    place.go_to(second);
    let other = live_before(saves, place, live, exits, those)?;
    place.go_to(first);
    live_statements(saves, place, live, exits, these)?;
    *live = live.either(&other)?;
    Ok(())
}

/// Goes back over the ways of a choice.
#[cycle(live)]
fn live_ways(
    saves: &mut Vec<bool>,
    place: &mut Place,
    live: &mut Flags,
    exits: Exits<'_>,
    these: &[Statement],
    those: &[Statement],
) -> Result<(), AllocError>
    ensures saves { let u = surroundings place.old in let behind = names_after_all (body_tree these.now) u.names in
        OnOk result (saves.new.items ≡ saves.old.items
        ++ reverse (saves_of u.homes u.statics u.names u.held live.old exits.entry.out.now exits.entry.again.now (body_tree these.now)
        ++ saves_of u.homes u.statics behind u.held live.old exits.entry.out.now exits.entry.again.now (body_tree those.now))) }
    ensures live { let u = surroundings place.old in let behind = names_after_all (body_tree these.now) u.names in
        OnOk result (live.new
        ≡ either_way (raises_only (body_tree those.now)) (loads_of u.homes u.statics behind u.held (body_tree those.now))
        (live_of u.homes u.statics u.names u.held live.old exits.entry.out.now exits.entry.again.now (body_tree these.now))
        (live_of u.homes u.statics behind u.held live.old exits.entry.out.now exits.entry.again.now (body_tree those.now))) }
    ensures same { OnOk result (surroundings place.new ≡ holding place.new.held (naming (surroundings place.new).names (surroundings place.old))) }
    ensures homes { OnOk result (place.new.homes.items ≡ place.old.homes.items) }
{
    if raises_only(those) {
        live_raising(saves, place, live, exits, these, those)?;
    } else if those.is_empty() {
        let first = live_before(saves, place, live, exits, these)?;
        *live = first.either(live)?;
    } else {
        live_both(saves, place, live, exits, these, those)?;
    }
    Ok(())
}

/// The same of a choice.
#[cycle(live)]
fn live_if(
    saves: &mut Vec<bool>,
    place: &mut Place,
    live: &mut Flags,
    exits: Exits<'_>,
    test: Temporary,
    these: &[Statement],
    those: &[Statement],
) -> Result<(), AllocError>
    ensures saves { let u = surroundings place.old in OnOk result (saves.new.items ≡ saves.old.items ++ reverse (saves_in u.homes u.statics u.names u.held
        live.old exits.entry.out.now exits.entry.again.now (core.If test.0 (body_tree these.now) (body_tree those.now)))) }
    ensures live { let u = surroundings place.old in OnOk result (live.new ≡ live_in u.homes u.statics u.names u.held
        live.old exits.entry.out.now exits.entry.again.now (core.If test.0 (body_tree these.now) (body_tree those.now))) }
    ensures same { OnOk result (surroundings place.new ≡ holding place.new.held (naming (surroundings place.new).names (surroundings place.old))) }
    ensures homes { OnOk result (place.new.homes.items ≡ place.old.homes.items) }
{
    let tested = if_unknown(&place.held, test);
    live_ways(saves, place, live, exits, these, those)?;
    flag_some(live, tested)
}

/// Goes back over a loop's body, and to behind its test, where the place is at the loop's start. Answers what is loaded behind the test.
#[cycle(live)]
fn live_body(
    saves: &mut Vec<bool>,
    place: &mut Place,
    after: &Flags,
    head: &Flags,
    test: &[Statement],
    flag: Temporary,
    body: &[Statement],
) -> Result<Flags, AllocError>
    ensures saves { let u = surroundings place.old in OnOk result (saves.new.items ≡ saves.old.items ++ reverse (saves_of u.homes u.statics
        (names_after_all (body_tree test.now) u.names) [] head.now after.now head.now (body_tree body.now))) }
    ensures behind { let u = surroundings place.old in IfOk result (λ behind. behind ≡ behind_test u.homes u.statics u.names
        after.now head.now (body_tree test.now) flag.0 (body_tree body.now)) }
    ensures same { OnOk result (surroundings place.new ≡ holding place.new.held (naming (surroundings place.new).names (surroundings place.old))) }
    ensures homes { OnOk result (place.new.homes.items ≡ place.old.homes.items) }
{
    place.held.forget();
    pass(place, test)?;
    let tested = if_unknown(&place.held, flag);
    place.held.forget();
    let exits = Exits {
        out: after,
        again: head,
    };
    let inside = live_before(saves, place, head, exits, body)?;
    joined(after, inside, tested)
}

/// Goes back over a loop.
#[cycle(live)]
fn live_while(
    saves: &mut Vec<bool>,
    place: &mut Place,
    live: &mut Flags,
    exits: Exits<'_>,
    test: &[Statement],
    flag: Temporary,
    body: &[Statement],
) -> Result<(), AllocError>
    ensures saves { let u = surroundings place.old in OnOk result (saves.new.items ≡ saves.old.items ++ reverse (saves_in u.homes u.statics u.names u.held
        live.old exits.entry.out.now exits.entry.again.now (core.While (body_tree test.now) flag.0 (body_tree body.now)))) }
    ensures live { let u = surroundings place.old in OnOk result (live.new ≡ live_in u.homes u.statics u.names u.held
        live.old exits.entry.out.now exits.entry.again.now (core.While (body_tree test.now) flag.0 (body_tree body.now))) }
    ensures same { OnOk result (surroundings place.new ≡ holding place.new.held (naming (surroundings place.new).names (surroundings place.old))) }
    ensures homes { OnOk result (place.new.homes.items ≡ place.old.homes.items) }
{
    let start = place.named;
    let head = loop_head(place, live, exits, test, flag, body)?;
    place.go_back(start);
    let mut behind = live_body(saves, place, live, &head, test, flag, body)?;
    place.go_back(start);
    live_statements(saves, place, &mut behind, exits, test)?;
    *live = head;
    Ok(())
}

/// Goes back over a block with these locals.
#[cycle(live)]
fn live_block(
    saves: &mut Vec<bool>,
    place: &mut Place,
    live: &mut Flags,
    exits: Exits<'_>,
    locals: &[Local],
    body: &[Statement],
) -> Result<(), AllocError>
    ensures saves { let u = surroundings place.old in OnOk result (saves.new.items ≡ saves.old.items ++ reverse (saves_in u.homes u.statics u.names u.held
        live.old exits.entry.out.now exits.entry.again.now (core.Block (map local_tree locals.now) (body_tree body.now)))) }
    ensures live { let u = surroundings place.old in OnOk result (live.new ≡ live_in u.homes u.statics u.names u.held
        live.old exits.entry.out.now exits.entry.again.now (core.Block (map local_tree locals.now) (body_tree body.now))) }
    ensures same { OnOk result (surroundings place.new ≡ holding place.new.held (naming (surroundings place.new).names (surroundings place.old))) }
    ensures homes { OnOk result (place.new.homes.items ≡ place.old.homes.items) }
{
    let low = place.enter(locals)?;
    live_statements(saves, place, live, exits, body)?;
    place.leave(low);
    Ok(())
}

/// Goes back over statements that a `Break` among them leaves.
#[cycle(live)]
fn live_leavable(
    saves: &mut Vec<bool>,
    place: &mut Place,
    live: &mut Flags,
    again: &Flags,
    body: &[Statement],
) -> Result<(), AllocError>
    ensures saves { let u = surroundings place.old in OnOk result (saves.new.items ≡ saves.old.items
        ++ reverse (saves_of u.homes u.statics u.names u.held live.old live.old again.now (body_tree body.now))) }
    ensures live { let u = surroundings place.old in OnOk result (live.new
        ≡ live_of u.homes u.statics u.names u.held live.old live.old again.now (body_tree body.now)) }
    ensures same { OnOk result (surroundings place.new ≡ holding place.new.held (naming (surroundings place.new).names (surroundings place.old))) }
    ensures homes { OnOk result (place.new.homes.items ≡ place.old.homes.items) }
{
    let behind = live.copied()?;
    let exits = Exits {
        out: &behind,
        again,
    };
    live_statements(saves, place, live, exits, body)
}

/// Goes back over statements, the last one first. The place is somewhere in the same block then.
#[cycle(live)]
pub fn live_statements(
    saves: &mut Vec<bool>,
    place: &mut Place,
    live: &mut Flags,
    exits: Exits<'_>,
    statements: &[Statement],
) -> Result<(), AllocError>
    ensures saves { let u = surroundings place.old in OnOk result (saves.new.items ≡ saves.old.items
        ++ reverse (saves_of u.homes u.statics u.names u.held live.old exits.entry.out.now exits.entry.again.now (body_tree statements.now))) }
    ensures live { let u = surroundings place.old in OnOk result (live.new
        ≡ live_of u.homes u.statics u.names u.held live.old exits.entry.out.now exits.entry.again.now (body_tree statements.now)) }
    ensures same { OnOk result (surroundings place.new ≡ holding place.new.held (naming (surroundings place.new).names (surroundings place.old))) }
    ensures homes { OnOk result (place.new.homes.items ≡ place.old.homes.items) }
{
    match statements {
        [only] => live_statement(saves, place, live, exits, only),
        _ if statements.len() <= FEW => live_few(saves, place, live, exits, statements),
        _ => live_halves(saves, place, live, exits, statements),
    }
}

/// The same of a list for which it is known where each of its statements begins, before the last one is looked at.
#[cycle(live)]
fn live_few(
    saves: &mut Vec<bool>,
    place: &mut Place,
    live: &mut Flags,
    exits: Exits<'_>,
    statements: &[Statement],
) -> Result<(), AllocError>
    ensures saves { let u = surroundings place.old in OnOk result (saves.new.items ≡ saves.old.items
        ++ reverse (saves_of u.homes u.statics u.names u.held live.old exits.entry.out.now exits.entry.again.now (body_tree statements.now))) }
    ensures live { let u = surroundings place.old in OnOk result (live.new
        ≡ live_of u.homes u.statics u.names u.held live.old exits.entry.out.now exits.entry.again.now (body_tree statements.now)) }
    ensures same { OnOk result (surroundings place.new ≡ holding place.new.held (naming (surroundings place.new).names (surroundings place.old))) }
    ensures homes { OnOk result (place.new.homes.items ≡ place.old.homes.items) }
{
    let mut points = points_of(place, statements)?;
    'each: while let Some(point) = points.pop() {
        place.go_to(point);
        let statement = &statements[points.len()];
        live_statement(saves, place, live, exits, statement)?;
    }
    Ok(())
}

/// The same of at least two statements: of the second half, and then of the first. Of the first it is known meanwhile where it begins, and nothing more.
#[cycle(live)]
fn live_halves(
    saves: &mut Vec<bool>,
    place: &mut Place,
    live: &mut Flags,
    exits: Exits<'_>,
    statements: &[Statement],
) -> Result<(), AllocError>
    requires { 2 ≤ length statements.now }
    ensures saves { let u = surroundings place.old in OnOk result (saves.new.items ≡ saves.old.items
        ++ reverse (saves_of u.homes u.statics u.names u.held live.old exits.entry.out.now exits.entry.again.now (body_tree statements.now))) }
    ensures live { let u = surroundings place.old in OnOk result (live.new
        ≡ live_of u.homes u.statics u.names u.held live.old exits.entry.out.now exits.entry.again.now (body_tree statements.now)) }
    ensures same { OnOk result (surroundings place.new ≡ holding place.new.held (naming (surroundings place.new).names (surroundings place.old))) }
    ensures homes { OnOk result (place.new.homes.items ≡ place.old.homes.items) }
{
    let (first, second) = statements.split_at(statements.len() / 2);
    let start = place.point()?;
    pass(place, first)?;
    live_statements(saves, place, live, exits, second)?;
    place.go_to(start);
    live_statements(saves, place, live, exits, first)?;
    Ok(())
}
