// What is shown of a fault behind its line.

use crate::told::reason_of;
use cycc_driver::CompileFault;
use explanations::explain;
use fault_words::{Reason, push_marked};
use std::alloc::{AllocError, Global};

/// Appends what a fault means, in one sentence.
fn push_meaning(shown: &mut Vec<u8>, name: &str) -> Result<(), AllocError> {
    if let Some(explanation) = explain(name) {
        shown.extend_from_slice(explanation.meaning().as_bytes())?;
        shown.extend_from_slice(b".\n")?;
    }
    Ok(())
}

/// Appends what is shown behind a fault's line: the line of the text with a mark below the fault, what the fault means, and what is known of it. Nothing
/// is where the fault has no place. Fails only where no host memory is left.
pub fn push_shown(
    shown: &mut Vec<u8>,
    text: &[u8],
    fault: CompileFault,
    reason: &Reason,
) -> Result<(), AllocError> {
    if let Some(place) = fault.place() {
        push_marked(shown, text, place.line, place.column)?;
        push_meaning(shown, fault.name())?;
        shown.extend_from_slice(&reason.words)?;
    }
    Ok(())
}

/// The same of one fault of a text, which is read for it. Fails only where no host memory is left.
pub fn shown_fault(alloc: Global, text: &[u8], fault: CompileFault) -> Result<Vec<u8>, AllocError> {
    let mut shown = Vec::new(alloc);
    if fault.place().is_some() {
        let reason = reason_of(alloc, text, fault)?;
        push_shown(&mut shown, text, fault, &reason)?;
    }
    Ok(shown)
}
