// Where statements begin that the walk from a function's end backwards comes to.

ghost use Rattle.std.specs.Prelude.{◌≡◌, IfOk, OnOk, map};
ghost use Rattle.core_lines.specs.Selected.{names_after_all, holding, naming};
ghost use Rattle.cyc_core.specs.Trees.{body_tree};
ghost use Rattle.rv32_select.specs.Places.{surroundings};
ghost use Rattle.rv32_select.specs.Starts.{point_start, starts_of};

use crate::flags::Flags;
use crate::loads::{flag_statement, pass};
use crate::place::{Place, Point};
use cyc_core::Statement;
use std::alloc::AllocError;

/// Where the statements behind these begin, if what is known here is known there.
pub fn point_behind(place: &mut Place, statements: &[Statement]) -> Result<Point, AllocError>
    ensures point { let u = surroundings place.old in IfOk result (λ point. point_start place.old.homes.items point
        ≡ record { names = names_after_all (body_tree statements.now) u.names; held = u.held }) }
    ensures same { OnOk result (surroundings place.new ≡ holding place.new.held (naming (surroundings place.new).names (surroundings place.old))) }
    ensures homes { OnOk result (place.new.homes.items ≡ place.old.homes.items) }
{
    let held = place.known()?;
    pass(place, statements)?;
    let named = place.named;
    Ok(Point { named, held })
}

/// Where each of these statements begins, the first of them where the place is. What is in the last one isn't gone over.
pub fn points_of(place: &mut Place, statements: &[Statement]) -> Result<Vec<Point>, AllocError>
    ensures points { let u = surroundings place.old in IfOk result (λ points. map (point_start place.old.homes.items) points.items
        ≡ starts_of u.homes u.statics u.names u.held (body_tree statements.now)) }
    ensures same { OnOk result (surroundings place.new ≡ holding place.new.held (naming (surroundings place.new).names (surroundings place.old))) }
    ensures homes { OnOk result (place.new.homes.items ≡ place.old.homes.items) }
{
    let mut none = Flags::new(place.alloc);
    let mut points = Vec::new(place.alloc);
    'each: for statement in statements {
        let point = place.point()?;
        points.push(point)?;
        if points.len() == statements.len() {
            return Ok(points);
        }
        flag_statement(&mut none, place, statement)?;
    }
    Ok(points)
}
