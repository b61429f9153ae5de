// What a failed check found: the index that was out of bounds, or the expression that was NULL.

use crate::locals::locals_of;
use crate::nulls::Search;
use crate::points::instruction_at;
use crate::program::Traced;
use cyc_host::Watch;
use cyc_words::Kind;
use rv32_isa::Instr;
use std::alloc::{AllocError, Global};

/// How many bytes of an expression are shown.
const SHOWN: usize = 60;

/// From the comparison of a check to the ECALL that raises its exception: where the check raises one, and where it raises one of two.
const TO_RAISE: [u32; 2] = [12, 16];

/// What a failed check of bounds compared: the index and the count, or how many elements are left and how many are wanted. Nothing where the check compares
/// numbers that are known when the code is made.
fn compared_of(alloc: Global, watch: &Watch) -> Result<String, AllocError> {
    let compared = watch.compared();
    let between = watch.last().pc.wrapping_sub(compared.pc);
    if !TO_RAISE.contains(&between) {
        return Ok(String::new(alloc));
    }
    let index = compared.left.cast_signed();
    let count = compared.right;
    match instruction_at(watch.code(), compared.pc) {
        Some(Instr::Bltu(_, _, _)) => format!(in alloc; ": index {index} of {count}"),
        Some(Instr::Bgeu(_, _, _)) => format!(in alloc; ": {index} left, {count} wanted"),
        _ => Ok(String::new(alloc)),
    }
}

/// The expression between two offsets of a text, as it is shown.
fn shown_in(text: &[u8], from: u32, until: u32) -> &str {
    let bytes = text.get(from as usize..until as usize).unwrap_or(b"");
    let first = bytes.get(..SHOWN).unwrap_or(bytes);
    let line = first.split(|byte| *byte == b'\n').next().unwrap_or(b"");
    std::str::from_utf8(line).unwrap_or("").trim_ascii_end()
}

/// The expression that was NULL where a check failed at an address; nothing where it can't be told.
fn null_of(
    alloc: Global,
    traced: &Traced,
    text: &[u8],
    address: u32,
) -> Result<String, AllocError> {
    let none = Ok(String::new(alloc));
    let Some((number, at)) = traced.within(address) else {
        return none;
    };
    let Some(function) = traced.function(number) else {
        return none;
    };
    let locals = locals_of(alloc, function)?;
    let mut search = Search {
        text,
        items: traced.items(),
        locals: &locals,
        at,
        followed: None,
        other: None,
        may_be_other: false,
    };
    search.go_over(function);
    let (number, checks) = traced.null_checks(at, address);
    match search.null(number, checks) {
        Some((from, until)) => {
            let shown = shown_in(text, from, until);
            format!(in alloc; ": {shown} is NULL")
        }
        None => none,
    }
}

/// What a failed check of a text found at an address, behind its exception's name.
pub fn cause_of(
    alloc: Global,
    traced: &Traced,
    text: &[u8],
    watch: &Watch,
    kind: Kind,
) -> Result<String, AllocError> {
    match kind {
        Kind::ArrayBounds => compared_of(alloc, watch),
        Kind::NullException => null_of(alloc, traced, text, watch.last().pc),
    }
}
