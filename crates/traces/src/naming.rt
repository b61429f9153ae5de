// The lines of a map that say where the names of a function live.

use crate::locals::{Local, Sort, locals_of};
use crate::program::Traced;
use crate::spots::Spot;
use crate::values::type_in;
use cyc_core::{Cell, Origin};
use cyc_tree::Member;
use cycc_driver::Place;
use std::alloc::{AllocError, Global};

/// How the value of a name is written; none of one that isn't an integer or a pointer.
fn written(sort: Sort, cell: Cell) -> Option<&'static str> {
    match (sort, cell) {
        (_, Cell::Byte) => Some("char"),
        (Sort::Signed, Cell::Word) => Some("int"),
        (_, Cell::Word) => Some("unsigned"),
        (_, Cell::Pointer | Cell::Handle) => Some("address"),
        (_, Cell::Fat) => Some("fat"),
        (_, Cell::Tagged | Cell::TaggedFat) => None,
    }
}

/// Where a name lives: the number of its register, behind an x, or its offset in the frame.
fn lives(alloc: Global, spot: Spot) -> Result<String, AllocError> {
    let Spot {
        register,
        offset,
        ..
    } = spot;
    if register == 0 {
        format!(in alloc; "{offset}")
    } else {
        format!(in alloc; "x{register}")
    }
}

/// The position of an offset of a text.
fn position(alloc: Global, traced: &Traced, offset: u32) -> Result<String, AllocError> {
    let Place { line, column } = traced.place_of(Origin(offset));
    format!(in alloc; "{line}:{column}")
}

/// Where the scope of a name begins and ends in a function that ends at an offset of the text.
fn scope_of(
    alloc: Global,
    traced: &Traced,
    local: &Local<'_>,
    end: u32,
) -> Result<String, AllocError> {
    let (from, until) = local.scope();
    let mut scope = position(alloc, traced, from.min(end))?;
    let until = position(alloc, traced, until.min(end))?;
    scope.push_str(" ")?;
    scope.push_str(until.as_str())?;
    Ok(scope)
}

/// Appends the line of a name, of a kind, in the function that begins at an address and ends at an offset of the text; nothing of one that isn't told.
fn push_name(
    alloc: Global,
    traced: &Traced,
    text: &[u8],
    function: (&str, u32, u32),
    local: &Local<'_>,
    spot: Spot,
    map: &mut String,
) -> Result<(), AllocError> {
    let (kind, first, end) = function;
    let Some(how) = spot.cell.and_then(|cell| written(local.sort, cell)) else {
        return Ok(());
    };
    let place = lives(alloc, spot)?;
    let scope = scope_of(alloc, traced, local, end)?;
    let (place, scope) = (place.as_str(), scope.as_str());
    let line = format!(in alloc; "{kind} {first:08x} {place} {how} {scope} ")?;
    map.push_str(line.as_str())?;
    map.push_str(std::str::from_utf8(local.name).unwrap_or(""))?;
    if how == "fat" {
        map.push_str(" ")?;
        map.push_str(type_in(text, local.typed))?;
    }
    map.push_str("\n")
}

/// Appends the lines of the names of a function that begins at an address of the code.
pub fn push_names(
    alloc: Global,
    traced: &Traced,
    text: &[u8],
    number: usize,
    first: u32,
    map: &mut String,
) -> Result<(), AllocError> {
    let Some(function) = traced.function(number) else {
        return Ok(());
    };
    let parameters: &[Member] = &function.parameters;
    let locals = locals_of(alloc, function)?;
    for (number, (local, spot)) in locals.iter().zip(traced.spots(number)).enumerate() {
        let kind = if number < parameters.len() {
            "parameter"
        } else {
            "local"
        };
        let within = (kind, first, function.end);
        push_name(alloc, traced, text, within, local, *spot, map)?;
    }
    Ok(())
}
