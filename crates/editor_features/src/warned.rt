// The warnings of an accepted source, as an editor shows them.

use crate::faults::span_at;
use crate::pages::push_range;
use crate::sources::Source;
use cyc_lexer::{Token, tokens};
use cycc_driver::{CompileFault, Place, front};
use editor_protocol::JsonText;
use std::alloc::{AllocError, Global};
use warnings::{Placed, warnings_of, with_places};

/// Adds the words of a warning, and what to write instead.
fn push_words(json: &mut JsonText, placed: &Placed<'_, '_>) -> Result<(), AllocError> {
    let warning = placed.warning;
    json.raw("\"")?;
    json.raw(warning.kind.name())?;
    json.raw(": ")?;
    json.inside(warning.name)?;
    json.inside(warning.words.as_bytes())?;
    json.raw("\\n")?;
    json.inside(warning.cure.as_bytes())?;
    json.raw("\"")
}

/// Adds a warning to a list of diagnostics, where it is in the part of an index.
fn push_warning(
    json: &mut JsonText,
    source: &Source,
    pieces: &[Token<'_>],
    index: usize,
    placed: &Placed<'_, '_>,
) -> Result<(), AllocError> {
    let place = Place {
        line: placed.line,
        column: placed.column,
    };
    let span = span_at(source.text.as_slice(), pieces, place);
    if source.index_at(span.begin as usize) != index {
        return Ok(());
    }
    json.item()?;
    json.raw("{\"range\":")?;
    push_range(json, source, span)?;
    json.raw(",\"severity\":2,\"source\":\"cycc\",\"code\":\"")?;
    json.raw(placed.warning.kind.name())?;
    json.raw("\",\"message\":")?;
    push_words(json, placed)?;
    json.raw("}")
}

/// From where on in a source no function, global or member is called unused: behind its first part, since the others are there for more than it. If the text
/// that is looked at isn't the first part, from the beginning on.
fn own_end(source: &Source) -> u32 {
    match source.parts.first() {
        Some(part) if source.own == 0 => u32::try_from(part.end).unwrap_or(u32::MAX),
        _ => 0,
    }
}

/// Adds the warnings that an accepted source has in the text that is looked at: none of a source that is refused. Fails only where no host memory is left.
pub(crate) fn push_warnings(
    json: &mut JsonText,
    alloc: Global,
    source: &Source,
    pieces: &[Token<'_>],
) -> Result<(), AllocError> {
    let text = source.text.as_slice();
    let checked = match front(alloc, text) {
        Ok(checked) => checked,
        Err(CompileFault::Memory) => return Err(AllocError),
        Err(_) => return Ok(()),
    };
    let Ok(read) = tokens(alloc, text) else {
        return Err(AllocError);
    };
    let found = warnings_of(alloc, checked.program(), own_end(source))?;
    let warnings = with_places(alloc, text, &read, &found)?;
    for placed in &warnings {
        push_warning(json, source, pieces, source.own, placed)?;
    }
    Ok(())
}
