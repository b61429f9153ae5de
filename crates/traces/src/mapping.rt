// The map of a program: the addresses of its functions, statements, checks and calls, and of its words that are addresses of the data or of the stack.

use crate::moved::Moved;
use crate::naming::push_names;
use crate::points::{Point, Sight};
use crate::program::Traced;
use crate::text::name_of;
use cyc_image::Image;
use cyc_words::Kind;
use cycc_driver::Place;
use rv32_machine::CODE_BASE;
use std::alloc::{AllocError, Global};

/// The last address of the function whose test is at this number of the points.
fn last_of(traced: &Traced, number: usize) -> u32 {
    let later = traced
        .points()
        .get(number.saturating_add(1)..)
        .unwrap_or(&[]);
    let next = match later.iter().find(|point| point.is_test()) {
        Some(point) => point.start(),
        None => traced.end(),
    };
    next.wrapping_sub(4)
}

/// The line of a raise.
fn raise_line(
    alloc: Global,
    traced: &Traced,
    address: u32,
    kind: Kind,
) -> Result<String, AllocError> {
    let Some(Place { line, column }) = traced.place_at(address) else {
        return Ok(String::new(alloc));
    };
    format!(in alloc; "raise {address:08x} {line}:{column} {kind}\n")
}

/// The name of the function that begins at an address.
fn named_at<'n>(traced: &Traced, names: &[&'n str], address: u32) -> &'n str {
    match traced.function_at(address) {
        Some(number) => name_of(names, number),
        None => "",
    }
}

/// The line of a call of the function that begins at an address; none of the call of `main`, which the text doesn't have.
fn call_line(
    alloc: Global,
    traced: &Traced,
    names: &[&str],
    address: u32,
    target: u32,
) -> Result<String, AllocError> {
    let Some(Place { line, column }) = traced.place_at(address) else {
        return Ok(String::new(alloc));
    };
    let function = named_at(traced, names, target);
    format!(in alloc; "call {address:08x} {line}:{column} {function}\n")
}

/// Appends the lines of the positions before an address that aren't shown yet. Answers how many are shown then.
fn push_positions(
    alloc: Global,
    traced: &Traced,
    shown: usize,
    end: u32,
    map: &mut String,
) -> Result<usize, AllocError> {
    let mut shown = shown;
    for position in traced.positions().iter().skip(shown) {
        let address = position.offset.wrapping_add(CODE_BASE);
        if address >= end {
            break;
        }
        let Place { line, column } = traced.place(*position);
        let line = format!(in alloc; "line {address:08x} {line}:{column}\n")?;
        map.push_str(line.as_str())?;
        shown = shown.saturating_add(1);
    }
    Ok(shown)
}

/// The line of the point with a number.
fn line_of(
    alloc: Global,
    traced: &Traced,
    names: &[&str],
    number: usize,
    point: Point,
) -> Result<String, AllocError> {
    match point.sight {
        Sight::Test(frame) => {
            let first = point.start();
            let function = named_at(traced, names, first);
            let last = last_of(traced, number);
            format!(in alloc; "function {first:08x} {last:08x} frame {frame} {function}\n")
        }
        Sight::Raise(kind) => raise_line(alloc, traced, point.address, kind),
        Sight::Call(target) => call_line(alloc, traced, names, point.address, target),
    }
}

/// The address before which positions are shown before a point: where its function begins, or else behind it.
fn behind(point: Point) -> u32 {
    if point.is_test() {
        point.start()
    } else {
        point.address.wrapping_add(4)
    }
}

/// Appends a line for each of these addresses.
fn push_addresses(
    alloc: Global,
    map: &mut String,
    word: &str,
    addresses: &[u32],
) -> Result<(), AllocError> {
    for address in addresses {
        let address = *address;
        let line = format!(in alloc; "{word} {address:08x}\n")?;
        map.push_str(line.as_str())?;
    }
    Ok(())
}

/// Appends the lines of the words that are addresses of the stack or of the data.
fn push_moved(alloc: Global, map: &mut String, moved: &Moved) -> Result<(), AllocError> {
    push_addresses(alloc, map, "stack", &moved.stack)?;
    push_addresses(alloc, map, "data", &moved.data)?;
    push_addresses(alloc, map, "pointer", &moved.pointers)
}

/// Appends the lines of the names of the function that begins at a point, if one does.
fn push_names_at(
    alloc: Global,
    traced: &Traced,
    text: &[u8],
    point: Point,
    map: &mut String,
) -> Result<(), AllocError> {
    let first = point.start();
    match traced.function_at(first) {
        Some(number) if point.is_test() => push_names(alloc, traced, text, number, first, map),
        _ => Ok(()),
    }
}

/// The map of an accepted text with this image, a line each in the order of the code: of a function its first and its last address, its frame's bytes and
/// its name, and where its names live; and in it where the code of each statement, raise and call begins, with its position, and of each raise and call the
/// address at which it is made, its position, and its exception or the called function. Behind them come the addresses of the words that `Moved` has, where
/// they can be told.
pub fn map(alloc: Global, text: &[u8], image: &Image) -> Result<String, AllocError> {
    let mut map = String::new(alloc);
    let Some(traced) = Traced::of(alloc, text, image.code())? else {
        return Ok(map);
    };
    let names = traced.names(alloc)?;
    let mut shown = 0;
    for (number, point) in traced.points().iter().enumerate() {
        shown = push_positions(alloc, &traced, shown, behind(*point), &mut map)?;
        let line = line_of(alloc, &traced, &names, number, *point)?;
        map.push_str(line.as_str())?;
        push_names_at(alloc, &traced, text, *point, &mut map)?;
    }
    push_positions(alloc, &traced, shown, u32::MAX, &mut map)?;
    if let Some(moved) = Moved::of(alloc, text, image, traced.points())? {
        push_moved(alloc, &mut map, &moved)?;
    }
    Ok(map)
}
