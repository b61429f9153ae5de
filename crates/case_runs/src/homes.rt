// Which registers the locals of a source's functions live in.

use crate::answers::Found;
use command_line::status::{REFUSED, SUCCESS};
use cyc_core::Program;
use cycc_driver::front;
use lower_checks::lower;
use rv32_select::{Labelled, select};
use std::alloc::{AllocError, Global};

/// Writes the homes of a function in one line: its number, and of each of its locals in the order of the text the register's number, or 0.
fn write_homes(
    written: &mut String,
    labelled: &Labelled,
    function: usize,
) -> Result<(), AllocError> {
    write!(written, "{function}:")?;
    for home in labelled.homes(function) {
        write!(written, " {home}")?;
    }
    write!(written, "\n")
}

/// The homes of the first `functions` functions, one line for each.
fn lines_of(alloc: Global, labelled: &Labelled, functions: usize) -> Result<Found, AllocError> {
    let mut written = String::new(alloc);
    for function in 0..functions {
        write_homes(&mut written, labelled, function)?;
    }
    let mut found = Found::nothing(alloc, SUCCESS);
    found.written = written.into_bytes();
    Ok(found)
}

/// The homes of each function of a program, and of the one behind them, which there isn't.
fn program_homes(alloc: Global, program: &Program) -> Result<Found, AllocError> {
    let labelled = select(alloc, program)?;
    let functions = program.functions.len().saturating_add(1);
    lines_of(alloc, &labelled, functions)
}

/// The homes of each function of a source, and of the one behind them. None of a source that is refused, for which `cycc check` has the reason.
pub fn homes_found(alloc: Global, source: &[u8]) -> Result<Found, AllocError> {
    match front(alloc, source) {
        Ok(checked) => program_homes(alloc, &lower(alloc, &checked)?),
        Err(_) => Ok(Found::nothing(alloc, REFUSED)),
    }
}
