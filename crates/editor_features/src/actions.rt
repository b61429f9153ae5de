// The edits that mend faults, as an editor offers them.

use crate::changes::position_of;
use crate::faults::{push_diagnostic, span_at};
use crate::pages::{Page, Span, push_range};
use crate::sources::Source;
use cycc_driver::CompileFault;
use editor_protocol::{JsonText, offset_at};
use fault_words::{Cure, Edit, Reason};
use reasons::reasons_of;
use serde_json::Value;
use std::alloc::AllocError;

/// The offset of a position of a message, in the source.
fn offset_in(body: &Value, source: &Source, pointer: &str) -> Option<u32> {
    let position = body.pointer(pointer).and_then(position_of)?;
    let within = offset_at(source.text_at(source.own), position);
    u32::try_from(source.begin_at(source.own).saturating_add(within)).ok()
}

/// The offsets that a message asks about.
fn asked_span(body: &Value, source: &Source) -> Option<Span> {
    Some(Span {
        begin: offset_in(body, source, "/params/range/start")?,
        end: offset_in(body, source, "/params/range/end")?,
    })
}

/// Adds what an action is called: what it writes.
fn push_title(json: &mut JsonText, cure: &Cure) -> Result<(), AllocError> {
    json.raw("\"title\":\"Write ")?;
    let mut before = "`";
    for edit in cure.edits.iter() {
        json.raw(before)?;
        json.inside(cure.text_of(*edit).trim_ascii())?;
        before = "`, `";
    }
    json.raw("`\"")
}

/// Adds an edit.
fn push_edit(
    json: &mut JsonText,
    page: &Page<'_>,
    cure: &Cure,
    edit: Edit,
) -> Result<(), AllocError> {
    json.item()?;
    json.raw("{\"range\":")?;
    let span = Span {
        begin: edit.begin,
        end: edit.end,
    };
    push_range(json, page.source, span)?;
    json.raw(",\"newText\":")?;
    json.string(cure.text_of(edit))?;
    json.raw("}")
}

/// Adds the edits of a cure of a fault at an offset, by the name of the part that has it.
fn push_edits(
    json: &mut JsonText,
    page: &Page<'_>,
    cure: &Cure,
    at: u32,
) -> Result<(), AllocError> {
    json.raw("\"edit\":{\"changes\":{")?;
    json.string(page.source.uri_at(page.source.index_at(at as usize)))?;
    json.raw(":")?;
    json.begin()?;
    for edit in cure.edits.iter() {
        push_edit(json, page, cure, *edit)?;
    }
    json.end()?;
    json.raw("}}")
}

/// Adds the action that mends a fault, where it is known what does.
fn push_action(
    json: &mut JsonText,
    page: &Page<'_>,
    fault: CompileFault,
    span: Span,
    reason: &Reason,
) -> Result<(), AllocError> {
    if reason.cure.edits.is_empty() {
        return Ok(());
    }
    json.item()?;
    json.raw("{")?;
    push_title(json, &reason.cure)?;
    json.raw(",\"kind\":\"quickfix\",\"diagnostics\":[")?;
    push_diagnostic(json, page.source, page.tokens, span, fault, reason)?;
    json.raw("],")?;
    push_edits(json, page, &reason.cure, span.begin)?;
    json.raw("}")
}

/// The faults in a range. Fails only where no host memory is left, as all of these.
fn faults_in(page: &Page<'_>, asked: Span) -> Result<Vec<CompileFault>, AllocError> {
    let text = page.source.text.as_slice();
    let mut faults = Vec::new(page.alloc);
    for fault in page.document.faults.iter() {
        if let Some(place) = fault.place() {
            let span = span_at(text, page.tokens, place);
            if span.begin <= asked.end && asked.begin <= span.end {
                faults.push(*fault)?;
            }
        }
    }
    Ok(faults)
}

/// The actions that mend the faults in a range.
fn actions_in(page: &Page<'_>, asked: Span) -> Result<Vec<u8>, AllocError> {
    let text = page.source.text.as_slice();
    let faults = faults_in(page, asked)?;
    let reasons = reasons_of(page.alloc, text, &faults)?;
    let mut json = JsonText::new(page.alloc);
    json.begin()?;
    for (fault, reason) in faults.iter().zip(reasons.iter()) {
        if let Some(place) = fault.place() {
            let span = span_at(text, page.tokens, place);
            push_action(&mut json, page, *fault, span, reason)?;
        }
    }
    json.end()?;
    Ok(json.into_bytes())
}

/// The actions that mend the faults in the range of a message; none, where it has no range. Fails only where no host memory is left.
pub(crate) fn actions(page: &Page<'_>, body: &Value) -> Result<Option<Vec<u8>>, AllocError> {
    match asked_span(body, page.source) {
        Some(asked) => Ok(Some(actions_in(page, asked)?)),
        None => Ok(None),
    }
}
