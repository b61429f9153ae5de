// The faults of a text, as an editor shows them.

use crate::pages::{Span, push_range, span_of};
use crate::sources::Source;
use crate::warned::push_warnings;
use cyc_lexer::Token;
use cycc_driver::{CompileFault, Place, check};
use editor_protocol::{JsonText, line_begin};
use explanations::explain;
use fault_words::{Reason, Related, RelatedPlaces};
use reasons::further_faults;
use std::alloc::{AllocError, Global};
use token_names::pieces;

/// The faults of a text: none of one that is accepted. Fails only where no host memory is left.
pub(crate) fn faults_of(alloc: Global, text: &[u8]) -> Result<Vec<CompileFault>, AllocError> {
    let mut faults = Vec::new(alloc);
    let Err(first) = check(alloc, text) else {
        return Ok(faults);
    };
    if first.place().is_none() {
        return Err(AllocError);
    }
    faults.push(first)?;
    let further = further_faults(alloc, text, first)?;
    faults.extend_from_slice(further.as_slice())?;
    Ok(faults)
}

/// The offset of a place.
fn offset_of(text: &[u8], place: Place) -> u32 {
    let begin = line_begin(text, place.line.saturating_sub(1));
    let column = place.column.saturating_sub(1);
    u32::try_from(begin)
        .unwrap_or(u32::MAX)
        .saturating_add(column)
}

/// The offsets of the token at a place; where there is none, of a byte.
pub(crate) fn span_at(text: &[u8], tokens: &[Token<'_>], place: Place) -> Span {
    span_from(tokens, offset_of(text, place))
}

/// The offsets of the token that begins at an offset; where none does, of a byte.
fn span_from(tokens: &[Token<'_>], begin: u32) -> Span {
    for token in tokens {
        if token.at == begin {
            return span_of(token);
        }
    }
    Span {
        begin,
        end: begin.saturating_add(1),
    }
}

/// Adds what a fault means, and what is known of it.
fn push_words(json: &mut JsonText, fault: CompileFault, reason: &Reason) -> Result<(), AllocError> {
    json.raw("\"")?;
    json.raw(fault.name())?;
    if let Some(explanation) = explain(fault.name()) {
        json.raw(": ")?;
        json.inside(explanation.meaning().as_bytes())?;
    }
    if !reason.words.is_empty() {
        json.raw("\\n")?;
        json.inside(reason.words.trim_ascii_end())?;
    }
    json.raw("\"")
}

/// Adds a place that has to do with a fault of a source, in the part that has it, and what it is.
fn push_place(
    json: &mut JsonText,
    source: &Source,
    tokens: &[Token<'_>],
    places: &RelatedPlaces,
    place: Related,
) -> Result<(), AllocError> {
    let span = span_from(tokens, place.at);
    json.item()?;
    json.raw("{\"location\":{\"uri\":")?;
    json.string(source.uri_at(source.index_at(span.begin as usize)))?;
    json.raw(",\"range\":")?;
    push_range(json, source, span)?;
    json.raw("},\"message\":")?;
    json.string(places.words_of(place))?;
    json.raw("}")
}

/// Adds the places that have to do with a fault of a source, where there are any and the client takes them.
fn push_places(
    json: &mut JsonText,
    source: &Source,
    tokens: &[Token<'_>],
    places: &RelatedPlaces,
) -> Result<(), AllocError> {
    if !source.relates || places.all.is_empty() {
        return Ok(());
    }
    json.raw(",\"relatedInformation\":")?;
    json.begin()?;
    for place in places.all.iter() {
        push_place(json, source, tokens, places, *place)?;
    }
    json.end()
}

/// Adds a fault of a source as a diagnostic, at these offsets, which are in a part, with what is known of it.
pub(crate) fn push_diagnostic(
    json: &mut JsonText,
    source: &Source,
    tokens: &[Token<'_>],
    span: Span,
    fault: CompileFault,
    reason: &Reason,
) -> Result<(), AllocError> {
    json.raw("{\"range\":")?;
    push_range(json, source, span)?;
    json.raw(",\"severity\":1,\"source\":\"cycc\",\"code\":\"")?;
    json.raw(fault.name())?;
    json.raw("\",\"message\":")?;
    push_words(json, fault, reason)?;
    push_places(json, source, tokens, &reason.related)?;
    json.raw("}")
}

/// Adds a fault to a list of diagnostics, where it is in the part of an index.
fn push_fault(
    json: &mut JsonText,
    source: &Source,
    tokens: &[Token<'_>],
    index: usize,
    fault: CompileFault,
    reason: &Reason,
) -> Result<(), AllocError> {
    let Some(place) = fault.place() else {
        return Ok(());
    };
    let span = span_at(source.text.as_slice(), tokens, place);
    if source.index_at(span.begin as usize) != index {
        return Ok(());
    }
    json.item()?;
    push_diagnostic(json, source, tokens, span, fault, reason)
}

/// Adds the name and the version of a text.
fn push_text(json: &mut JsonText, uri: &[u8], version: Option<i64>) -> Result<(), AllocError> {
    json.raw("{\"uri\":")?;
    json.string(uri)?;
    if let Some(version) = version {
        json.raw(",\"version\":")?;
        json.number(version)?;
    }
    json.raw(",\"diagnostics\":")
}

/// The parameters of the notification that a text has no faults. Fails only where no host memory is left, as all of these.
pub fn faultless(alloc: Global, uri: &[u8]) -> Result<Vec<u8>, AllocError> {
    let mut json = JsonText::new(alloc);
    push_text(&mut json, uri, None)?;
    json.raw("[]}")?;
    Ok(json.into_bytes())
}

/// The parameters of the notification of the faults that a source has in the part of an index, with what is known of each; of one without faults, of its
/// warnings in the text that is looked at.
pub(crate) fn params_of(
    alloc: Global,
    version: Option<i64>,
    source: &Source,
    tokens: &[Token<'_>],
    index: usize,
    faults: &[CompileFault],
    reasons: &[Reason],
) -> Result<Vec<u8>, AllocError> {
    let mut json = JsonText::new(alloc);
    push_text(&mut json, source.uri_at(index), version)?;
    json.begin()?;
    for (fault, reason) in faults.iter().zip(reasons.iter()) {
        push_fault(&mut json, source, tokens, index, *fault, reason)?;
    }
    if faults.is_empty() && index == source.own {
        push_warnings(&mut json, alloc, source, tokens)?;
    }
    json.end()?;
    json.raw("}")?;
    Ok(json.into_bytes())
}

/// The explanation of the fault at an offset of a text.
pub(crate) fn explained_at(
    text: &[u8],
    tokens: &[Token<'_>],
    faults: &[CompileFault],
    offset: usize,
) -> Option<&'static str> {
    for fault in faults {
        if let Some(place) = fault.place() {
            let span = span_at(text, tokens, place);
            if span.begin as usize <= offset && offset <= span.end as usize {
                return Some(explain(fault.name())?.text);
            }
        }
    }
    None
}
