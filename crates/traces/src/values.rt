// What the names of an active function held.

use crate::locals::{Local, Sort, locals_of};
use crate::program::Traced;
use crate::spots::Spot;
use crate::text::name_of;
use cyc_core::Cell;
use cyc_host::Watch;
use cyc_tree::Member;
use std::alloc::{AllocError, Global};

/// A function that is active: its number, the first words that were passed to it, what the registers hold in which its locals live, where its frame begins,
/// and where in the text it has come to.
#[derive(Clone, Copy)]
pub struct Frame<'a> {
    pub function: usize,
    pub passed: &'a [u32],
    pub homes: &'a [u32],
    pub watch: &'a Watch,
    pub stack: u32,
    pub at: u32,
}

impl Frame<'_> {
    /// What a register holds in which locals live: x8, x9, and x18 to x27.
    fn register(self, number: u8) -> Option<u32> {
        let place = match number {
            8 | 9 => number.wrapping_sub(8),
            _ => number.checked_sub(16)?,
        };
        self.homes.get(place as usize).copied()
    }

    /// The word at an offset of the frame.
    fn word(self, offset: u32) -> Option<u32> {
        self.watch.frame_word(self.stack.wrapping_add(offset))
    }

    /// The words that a local holds: three of a fat pointer, and else the first one; none of what isn't one value.
    fn held(self, spot: Spot) -> Option<[u32; 3]> {
        let cell = spot.cell?;
        let first = match self.register(spot.register) {
            Some(word) => word,
            None => self.word(spot.offset)?,
        };
        match cell {
            Cell::Byte => Some([first & 255, 0, 0]),
            Cell::Word | Cell::Pointer | Cell::Handle => Some([first, 0, 0]),
            Cell::Fat => {
                let count = self.word(spot.offset.wrapping_add(4))?;
                let index = self.word(spot.offset.wrapping_add(8))?;
                Some([first, count, index])
            }
            Cell::Tagged | Cell::TaggedFat => None,
        }
    }
}

/// A value that is one word.
fn word_of(alloc: Global, sort: Sort, word: u32) -> Result<String, AllocError> {
    match sort {
        Sort::Signed => {
            let number = word.cast_signed();
            format!(in alloc; "{number}")
        }
        Sort::Address if word == 0 => format!(in alloc; "NULL"),
        Sort::Address => format!(in alloc; "0x{word:08x}"),
        _ => format!(in alloc; "{word}"),
    }
}

/// A fat pointer: its type as it is written, to how many elements it leads, and at which of them it stands.
fn fat_of(
    alloc: Global,
    of: &str,
    first: u32,
    count: u32,
    index: u32,
) -> Result<String, AllocError> {
    if first == 0 {
        return format!(in alloc; "NULL");
    }
    let of = if of.is_empty() { "?" } else { of };
    let plural = if count == 1 { "" } else { "s" };
    if index == 0 {
        format!(in alloc; "{of}({count} element{plural})")
    } else {
        format!(in alloc; "{of}(element {index} of {count})")
    }
}

/// How a type is written in the text, in its first line.
pub fn type_in<'t>(text: &'t [u8], typed: (u32, u32)) -> &'t str {
    let (from, until) = typed;
    let bytes = text.get(from as usize..until as usize).unwrap_or(b"");
    let line = bytes.split(|byte| *byte == b'\n').next().unwrap_or(b"");
    std::str::from_utf8(line).unwrap_or("").trim_ascii_end()
}

/// A value that consists of these words.
fn value_of(
    alloc: Global,
    text: &[u8],
    local: &Local<'_>,
    words: &[u32],
) -> Result<String, AllocError> {
    match (local.sort, words) {
        (Sort::Fat, [first, count, index, ..]) => {
            fat_of(alloc, type_in(text, local.typed), *first, *count, *index)
        }
        (Sort::Fat, _) | (_, []) => format!(in alloc; ".."),
        (sort, [word, ..]) => word_of(alloc, sort, *word),
    }
}

/// How many words a value has that is passed.
fn width_of(sort: Sort) -> usize {
    match sort {
        Sort::Fat => 3,
        _ => 1,
    }
}

/// Appends a name with its value, behind what stands before it.
fn push_value(
    alloc: Global,
    line: &mut String,
    before: &str,
    name: &[u8],
    value: &str,
) -> Result<(), AllocError> {
    let name = std::str::from_utf8(name).unwrap_or("");
    let shown = format!(in alloc; "{before}{name} = {value}")?;
    line.push_str(shown.as_str())
}

/// Appends the parameters as they were passed.
fn push_passed(
    alloc: Global,
    text: &[u8],
    line: &mut String,
    parameters: &[Local<'_>],
    frame: Frame<'_>,
) -> Result<(), AllocError> {
    let mut words = frame.passed;
    let mut before = "";
    for parameter in parameters {
        let value = value_of(alloc, text, parameter, words)?;
        push_value(alloc, line, before, parameter.name, value.as_str())?;
        words = words.get(width_of(parameter.sort)..).unwrap_or(&[]);
        before = ", ";
    }
    Ok(())
}

/// Whether a name is hidden by a later one that is in scope there.
fn is_hidden(later: &[Local<'_>], name: &[u8], at: u32) -> bool {
    later
        .iter()
        .any(|local| local.is_in_scope(at) && local.name == name)
}

/// Whether a name is shown with what it holds: it is in scope, and no parameter that still holds what it was passed.
fn is_shown(
    local: &Local<'_>,
    later: &[Local<'_>],
    at: u32,
    passed: Option<&[u32]>,
    held: &[u32],
) -> bool {
    let is_as_passed = match passed {
        Some(words) => held.starts_with(words),
        None => false,
    };
    local.is_in_scope(at) && !is_hidden(later, local.name, at) && !is_as_passed
}

/// Appends the names in scope, with what they hold, but for parameters that hold what they were passed.
fn push_held(
    alloc: Global,
    text: &[u8],
    line: &mut String,
    locals: &[Local<'_>],
    parameters: usize,
    spots: &[Spot],
    frame: Frame<'_>,
) -> Result<(), AllocError> {
    let mut is_first = true;
    let mut words = frame.passed;
    for (number, (local, spot)) in locals.iter().zip(spots).enumerate() {
        let width = width_of(local.sort);
        let passed = if number < parameters {
            words.get(..width)
        } else {
            None
        };
        words = words.get(width..).unwrap_or(&[]);
        let later = locals.get(number.saturating_add(1)..).unwrap_or(&[]);
        let Some(held) = frame.held(*spot) else {
            continue;
        };
        if is_shown(local, later, frame.at, passed, &held) {
            let local = local.made_for(spot.cell);
            let value = value_of(alloc, text, &local, &held)?;
            let before = if is_first { ": " } else { ", " };
            push_value(alloc, line, before, local.name, value.as_str())?;
            is_first = false;
        }
    }
    Ok(())
}

/// The line of what an active function was passed, and what its names in scope hold.
pub fn values_of(
    alloc: Global,
    traced: &Traced,
    text: &[u8],
    names: &[&str],
    frame: Frame<'_>,
) -> Result<String, AllocError> {
    let Some(function) = traced.function(frame.function) else {
        return Ok(String::new(alloc));
    };
    let locals = locals_of(alloc, function)?;
    let parameters: &[Member] = &function.parameters;
    let (passed, _) = locals
        .split_at_checked(parameters.len())
        .unwrap_or((&[], &[]));
    let name = name_of(names, frame.function);
    let mut line = format!(in alloc; "  in {name}(")?;
    push_passed(alloc, text, &mut line, passed, frame)?;
    line.push_str(")")?;
    let spots = traced.spots(frame.function);
    push_held(
        alloc,
        text,
        &mut line,
        &locals,
        parameters.len(),
        spots,
        frame,
    )?;
    line.push_str("\n")?;
    Ok(line)
}
