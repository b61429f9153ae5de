// What is loaded where ways meet: behind a choice, and where a loop begins.

ghost use Rattle.std.specs.Prelude.{◌≡◌, true, IfOk, OnOk, option_map, option_to_list};
ghost use Rattle.core_meaning.specs.Core as core;
ghost use Rattle.core_lines.specs.Saved.{all_flagged, at_loop, either_flagged};
ghost use Rattle.core_lines.specs.Selected.{holding, naming};
ghost use Rattle.cyc_core.specs.Trees.{temporary_tree, body_tree};
ghost use Rattle.rv32_select.specs.Places.{surroundings};

use crate::flags::Flags;
use crate::loads::{flag_some, flag_while};
use crate::place::Place;
use cyc_core::{Statement, Temporary};
use std::alloc::AllocError;

/// What is loaded where a `Break` and a `Continue` go.
#[derive(Clone, Copy)]
pub struct Exits<'l> {
    /// Where a `Break` goes.
    pub out: &'l Flags,
    /// Where a `Continue` goes.
    pub again: &'l Flags,
}

/// What is loaded where one way or another goes on, and a temporary, if there is one.
pub fn joined(first: &Flags, second: Flags, tested: Option<Temporary>) -> Result<Flags, AllocError>
    ensures { IfOk result (λ both. both
        ≡ all_flagged true (option_to_list (option_map temporary_tree tested)) (either_flagged first.now second)) }
{
    let mut both = first.either(&second)?;
    flag_some(&mut both, tested)?;
    Ok(both)
}

/// What is loaded from the start of a loop on: all that it loads, and what is loaded where it is left. The place goes on behind the loop.
pub fn loop_head(
    place: &mut Place,
    after: &Flags,
    exits: Exits<'_>,
    test: &[Statement],
    flag: Temporary,
    body: &[Statement],
) -> Result<Flags, AllocError>
    ensures head { let u = surroundings place.old in IfOk result (λ head. head ≡ at_loop u.homes u.statics u.names
        after.now exits.entry.out.now exits.entry.again.now (core.While (body_tree test.now) flag.0 (body_tree body.now))) }
    ensures same { OnOk result (surroundings place.new ≡ holding place.new.held (naming (surroundings place.new).names (surroundings place.old))) }
    ensures homes { OnOk result (place.new.homes.items ≡ place.old.homes.items) }
{
    let ways = exits.out.either(exits.again)?;
    let mut head = joined(after, ways, None)?;
    flag_while(&mut head, place, test, flag, body)?;
    Ok(head)
}
