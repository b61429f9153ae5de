// Why a source is refused, in more than one line: the source's line with a mark, and what the fault means.

ghost use Rattle.std.specs.Prelude.{◌≡◌, IfOk};
ghost use Rattle.cycc_answer.specs.Statuses.{refused_status};

use crate::lines::{Told, refused};
use cycc_driver::CompileFault;
use reasons::{further_faults, push_shown, reasons_of, shown_fault};
use std::alloc::{AllocError, Global};
use std::io::Write;

/// Says one fault of a source, with more than its line where that is asked for, and answers the status.
fn refused_alone<E: Write>(
    alloc: Global,
    told: Told<'_>,
    text: &[u8],
    fault: CompileFault,
    faults: &mut E,
) -> Result<u8, AllocError>
    ensures { IfOk result (λ status. status ≡ refused_status fault) }
{
    if !told.shows_why {
        return refused(alloc, told.input, fault, faults);
    }
    let shown = shown_fault(alloc, text, fault)?;
    let status = refused(alloc, told.input, fault, faults)?;
    let _ = faults.write_all(&shown);
    Ok(status)
}

/// Appends the line of a fault behind the first one.
fn push_line(
    shown: &mut Vec<u8>,
    alloc: Global,
    told: Told<'_>,
    fault: CompileFault,
) -> Result<(), AllocError> {
    let input = told.input;
    let line = format!(in alloc; "{input}:{fault}\n")?;
    shown.extend_from_slice(line.as_bytes())
}

/// Appends the lines of faults behind the first one.
fn push_lines(
    shown: &mut Vec<u8>,
    alloc: Global,
    told: Told<'_>,
    faults: &[CompileFault],
) -> Result<(), AllocError> {
    for fault in faults {
        push_line(shown, alloc, told, *fault)?;
    }
    Ok(())
}

/// Appends faults behind the first one, each with more than its line.
fn push_whys(
    shown: &mut Vec<u8>,
    alloc: Global,
    told: Told<'_>,
    text: &[u8],
    faults: &[CompileFault],
) -> Result<(), AllocError> {
    let reasons = reasons_of(alloc, text, faults)?;
    for (fault, reason) in faults.iter().zip(reasons.iter()) {
        push_line(shown, alloc, told, *fault)?;
        push_shown(shown, text, *fault, reason)?;
    }
    Ok(())
}

/// What is said of the faults behind the first one, where they are asked for.
fn further_of(
    alloc: Global,
    told: Told<'_>,
    text: &[u8],
    first: CompileFault,
) -> Result<Vec<u8>, AllocError> {
    let mut shown = Vec::new(alloc);
    if told.shows_all {
        let further = further_faults(alloc, text, first)?;
        if told.shows_why {
            push_whys(&mut shown, alloc, told, text, &further)?;
        } else {
            push_lines(&mut shown, alloc, told, &further)?;
        }
    }
    Ok(shown)
}

/// Says why a source is refused, with more than the fault's line and with the faults behind the first one where they are asked for, and
/// answers the status. Where no memory is left, nothing was said.
pub fn refused_in<E: Write>(
    alloc: Global,
    told: Told<'_>,
    text: &[u8],
    fault: CompileFault,
    faults: &mut E,
) -> Result<u8, AllocError>
    ensures { IfOk result (λ status. status ≡ refused_status fault) }
{
    let further = further_of(alloc, told, text, fault)?;
    let status = refused_alone(alloc, told, text, fault, faults)?;
    if !further.is_empty() {
        let _ = faults.write_all(&further);
    }
    Ok(status)
}
