// Which results of a function are saved, by one walk from its end backwards.

ghost use Rattle.std.specs.Prelude.{◌≡◌, IfOk, OnOk};
ghost use Rattle.core_lines.specs.Choosing.{far};
ghost use Rattle.core_lines.specs.Homes.{homes_in};
ghost use Rattle.core_lines.specs.Saved.{live_at_start, saves_at};
ghost use Rattle.core_lines.specs.Selected.{around};
ghost use Rattle.cyc_core.specs.Trees.{function_tree};
ghost use Rattle.rv32_select.specs.Places.{surroundings, saves_left};

use crate::flags::Flags;
use crate::joining::Exits;
use crate::live::live_statements;
use crate::place::Place;
use cyc_core::Function;
use std::alloc::AllocError;

/// Goes over a function at whose start the place is, and back to its start, where it is known which results are saved. Answers which temporaries are
/// loaded from their slots from there on.
pub fn find_saves(
    place: &mut Place,
    function: &Function,
    exit: usize,
) -> Result<Vec<bool>, AllocError>
    requires place { surroundings place.old ≡ around far place.old.statics.items exit (function_tree function.now) }
    requires homes { place.old.homes.items ≡ homes_in (function_tree function.now) }
    ensures place { OnOk result (surroundings place.new ≡ surroundings place.old) }
    ensures saves { OnOk result (saves_left place.new ≡ saves_at place.old.statics.items (function_tree function.now)) }
    ensures live { IfOk result (λ live. live.items ≡ live_at_start place.old.statics.items (function_tree function.now)) }
    ensures homes { OnOk result (place.new.homes.items ≡ place.old.homes.items) }
{
    let count = function.temporaries as usize;
    let mut saves = Vec::new(place.alloc);
    let mut live = Flags::none(place.alloc, count)?;
    let none = Flags::none(place.alloc, count)?;
    let exits = Exits {
        out: &none,
        again: &none,
    };
    live_statements(&mut saves, place, &mut live, exits, &function.body)?;
    place.begin_again(function, saves)?;
    let listed = live.listed()?;
    Ok(listed)
}
