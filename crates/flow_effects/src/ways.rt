// The effects on a path that may not be reached (None).

ghost use Rattle.std.specs.Prelude.{◌≡◌, IfOk, None, option_map};
ghost use Rattle.flow_summaries.specs.Effects.{Holds, met_ways, then_way, way_below, with_number};
ghost use Rattle.flow_effects.specs.Tables.{effects_in, table_at, way_of};

use crate::table::Table;
use crate::touch::{Caused, Effect, How, Touch};
use std::alloc::{AllocError, Global};

/// The effects of `first` and then of the path.
pub fn after(alloc: Global, first: &Table, way: Option<Table>) -> Result<Option<Table>, AllocError>
    ensures { IfOk result (λ w. way_of w ≡ then_way (effects_in (table_at first.now)) (way_of way)) }
{
    match way {
        None => Ok(None),
        Some(way) => Ok(Some(way.joined(alloc, How::After, first)?)),
    }
}

/// The effects where two paths join.
pub fn met(
    alloc: Global,
    one: Option<Table>,
    other: Option<Table>,
) -> Result<Option<Table>, AllocError>
    ensures { IfOk result (λ w. way_of w ≡ met_ways (way_of one) (way_of other)) }
{
    match (one, other) {
        (None, other) => Ok(other),
        (Some(one), None) => Ok(Some(one)),
        (Some(one), Some(other)) => Ok(Some(other.joined(alloc, How::Meet, &one)?)),
    }
}

/// Forgets the locals from number `count` on.
pub fn below(count: usize, way: Option<Table>) -> Option<Table>
    ensures { way_of result ≡ way_below count (way_of way) }
{
    match way {
        None => None,
        Some(way) => Some(way.below(count)),
    }
}

/// Sets that a local is held at the path's end.
pub fn held_again(
    alloc: Global,
    number: usize,
    way: Option<Table>,
) -> Result<Option<Table>, AllocError>
    ensures { IfOk result (λ w. way_of w ≡ option_map (with_number number Holds) (way_of way)) }
{
    match way {
        None => Ok(None),
        Some(way) => {
            let held = Touch {
                effect: Effect::Holds,
                caused: Caused::none(),
            };
            Ok(Some(way.with(alloc, number, held)?))
        }
    }
}

/// A copy of a table's effects, without its faults.
pub fn effects_of(alloc: Global, table: &Table) -> Result<Table, AllocError>
    ensures { IfOk result (λ t. effects_in (table_at t) ≡ effects_in (table_at table.now)) }
{
    let effects = Table::nothing().joined(alloc, How::FirstWay, table)?;
    Ok(effects)
}
