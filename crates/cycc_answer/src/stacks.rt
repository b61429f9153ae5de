// What is said of the stack that a source's calls need.

ghost use Rattle.std.specs.Prelude.{◌≡◌, IfOk, if◌then◌else◌};
ghost use Rattle.cycc_answer.specs.Answers.{IsStack};
ghost use Rattle.cycc_answer.specs.Statuses.{stack_status};

use crate::lines::{Told, say};
use crate::why::refused_in;
use command_line::status::{ENDED, FILE_FAULT, SUCCESS};
use cyc_words::Output;
use cycc_driver::{Recursion, StackUse, stack};
use std::alloc::{AllocError, Global};
use std::io::Write;

/// The bytes of a page of the stack.
const PAGE_BYTES: u64 = 4096;

/// How many functions of a path are shown, and of a longer one how many first and last ones.
const SHOWN: usize = 8;

const SHOWN_FIRST: usize = 4;

const SHOWN_LAST: usize = 3;

/// Appends the name of a function.
fn push_name(line: &mut Vec<u8>, stack: &StackUse, number: usize) -> Result<(), AllocError> {
    match stack.names.get(number) {
        Some(name) => line.extend_from_slice(name),
        None => Ok(()),
    }
}

/// Appends the names of functions, with some text between them.
fn push_names(
    line: &mut Vec<u8>,
    stack: &StackUse,
    numbers: &[usize],
    between: &str,
) -> Result<(), AllocError> {
    let mut is_first = true;
    for number in numbers {
        if !is_first {
            line.extend_from_slice(between.as_bytes())?;
        }
        is_first = false;
        push_name(line, stack, *number)?;
    }
    Ok(())
}

/// Appends the names of functions that call one another; of many the first and the last ones.
fn push_path(
    alloc: Global,
    line: &mut Vec<u8>,
    stack: &StackUse,
    numbers: &[usize],
    between: &str,
) -> Result<(), AllocError> {
    let count = numbers.len();
    if count <= SHOWN {
        return push_names(line, stack, numbers, between);
    }
    let first = numbers.get(..SHOWN_FIRST).unwrap_or(numbers);
    let last = numbers
        .get(count.saturating_sub(SHOWN_LAST)..)
        .unwrap_or(numbers);
    push_names(line, stack, first, between)?;
    let more = count.saturating_sub(SHOWN_FIRST + SHOWN_LAST);
    let others = format!(in alloc; "{between}.. {more} more ..{between}")?;
    line.extend_from_slice(others.as_bytes())?;
    push_names(line, stack, last, between)
}

/// What a function needs, as far as it is known.
fn need_of(stack: &StackUse, number: usize) -> u64 {
    match stack.needs.each.get(number) {
        Some(Some(need)) => *need,
        _ => 0,
    }
}

/// The first that needs most of the functions that one calls.
fn deepest_called(stack: &StackUse, number: usize) -> Option<usize> {
    let mut found = None;
    for called in stack.needs.calls.get(number)? {
        match found {
            Some(other) if need_of(stack, *called) <= need_of(stack, other) => {}
            _ => found = Some(*called),
        }
    }
    found
}

/// The active functions where the stack is deepest, from `main` on.
fn deepest_path(alloc: Global, stack: &StackUse) -> Result<Vec<usize>, AllocError> {
    let mut path = Vec::new(alloc);
    let mut next = stack.needs.main;
    for _ in 0..stack.names.len() {
        let Some(number) = next else {
            break;
        };
        path.push(number)?;
        next = deepest_called(stack, number);
    }
    Ok(path)
}

/// Appends the line of a program whose stack has a bound.
fn push_bound(
    alloc: Global,
    lines: &mut Vec<u8>,
    stack: &StackUse,
    bytes: u64,
) -> Result<(), AllocError> {
    let pages = bytes.div_ceil(PAGE_BYTES);
    let plural = if pages == 1 { "" } else { "s" };
    let line = format!(in alloc; "stack {bytes} bytes, {pages} page{plural} (")?;
    lines.extend_from_slice(line.as_bytes())?;
    let path = deepest_path(alloc, stack)?;
    push_path(alloc, lines, stack, &path, " > ")?;
    lines.extend_from_slice(b")\n")
}

/// Appends who calls whom in a recursion, without the functions that only lead to it.
fn push_calls(
    alloc: Global,
    lines: &mut Vec<u8>,
    stack: &StackUse,
    recursion: &Recursion,
) -> Result<(), AllocError> {
    let again = recursion.again;
    let first = recursion.path.iter().position(|number| *number == again);
    let calls = recursion
        .path
        .get(first.unwrap_or(0)..)
        .unwrap_or(&recursion.path);
    push_path(alloc, lines, stack, calls, " calls ")?;
    lines.extend_from_slice(b" calls ")?;
    if calls.len() == 1 {
        lines.extend_from_slice(b"itself")
    } else {
        push_name(lines, stack, again)
    }
}

/// Appends the line of a program in which a recursion is reached.
fn push_recursion(
    alloc: Global,
    lines: &mut Vec<u8>,
    told: Told<'_>,
    stack: &StackUse,
    recursion: &Recursion,
) -> Result<(), AllocError> {
    lines.extend_from_slice(b"no bound: ")?;
    push_calls(alloc, lines, stack, recursion)?;
    if let Some(place) = stack.closes {
        let (input, line, column) = (told.input, place.line, place.column);
        let at = format!(in alloc; " at {input}:{line}:{column}")?;
        lines.extend_from_slice(at.as_bytes())?;
    }
    lines.extend_from_slice(b"\n")
}

/// Appends the line of a function: its frame and its need.
fn push_function(
    alloc: Global,
    lines: &mut Vec<u8>,
    stack: &StackUse,
    number: usize,
) -> Result<(), AllocError> {
    push_name(lines, stack, number)?;
    let frame = match stack.frames.get(number) {
        Some(frame) => *frame,
        None => 0,
    };
    let line = match stack.needs.each.get(number) {
        Some(Some(need)) => format!(in alloc; ": frame {frame} bytes, needs {need} bytes\n")?,
        _ => format!(in alloc; ": frame {frame} bytes, no bound\n")?,
    };
    lines.extend_from_slice(line.as_bytes())
}

/// The lines on a stack.
fn lines_of(alloc: Global, told: Told<'_>, stack: &StackUse) -> Result<Vec<u8>, AllocError> {
    let mut lines = Vec::new(alloc);
    if let Some(recursion) = &stack.recursion {
        push_recursion(alloc, &mut lines, told, stack, recursion)?;
    }
    if let Some(bytes) = stack.needs.stack() {
        push_bound(alloc, &mut lines, stack, bytes)?;
    }
    if told.shows_all {
        for number in 0..stack.names.len() {
            push_function(alloc, &mut lines, stack, number)?;
        }
    }
    Ok(lines)
}

/// The status that says whether a stack has a bound.
fn status_of_stack(stack: &StackUse) -> u8
    ensures { result ≡ stack_status stack.now.recursion }
{
    match &stack.recursion {
        None => SUCCESS,
        Some(_) => ENDED,
    }
}

/// The status of what was printed on standard output: a failed write is said.
fn status_of_print<E: Write>(succeeded: bool, status: u8, faults: &mut E) -> u8
    ensures { result ≡ (if succeeded then status else 6) }
{
    if succeeded {
        status
    } else {
        say(faults, "write fault");
        FILE_FAULT
    }
}

/// Says how much stack a source's calls need, or which recursion is reached, and answers the status.
pub fn told_of_stack<W: Output, E: Write>(
    alloc: Global,
    told: Told<'_>,
    file: &[u8],
    writer: &mut W,
    faults: &mut E,
) -> Result<u8, AllocError>
    ensures told { IfOk result (IsStack file.now) }
    // a refusal leaves the writer as it was
    ensures untouched { IfOk result (λ status. status ≡ 8 → writer.new ≡ writer.old) }
{
    match stack(alloc, file) {
        Ok(found) => {
            let lines = lines_of(alloc, told, &found)?;
            let succeeded = writer.write_all(&lines).is_ok();
            let status = status_of_stack(&found);
            Ok(status_of_print(succeeded, status, faults))
        }
        Err(fault) => refused_in(alloc, told, file, fault, faults),
    }
}
