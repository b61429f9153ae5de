// Changes of a text.

use editor_protocol::{Position, offset_at, replaced};
use serde_json::Value;
use std::alloc::{AllocError, Global};

/// A number of a position.
fn number_in(value: &Value, name: &str) -> Option<u32> {
    let number = value.get(name).and_then(Value::as_u64)?;
    u32::try_from(number).ok()
}

/// A value as a position.
pub(crate) fn position_of(value: &Value) -> Option<Position> {
    Some(Position {
        line: number_in(value, "line")?,
        character: number_in(value, "character")?,
    })
}

/// The text behind a change of a range; none, where that is no range.
fn changed_range(
    alloc: Global,
    text: &[u8],
    range: &Value,
    with: &str,
) -> Result<Option<Vec<u8>>, AllocError> {
    let start = range.get("start").and_then(position_of);
    let end = range.get("end").and_then(position_of);
    let (Some(start), Some(end)) = (start, end) else {
        return Ok(None);
    };
    let begin = offset_at(text, start);
    let end = offset_at(text, end).max(begin);
    Ok(Some(replaced(alloc, text, begin, end, with.as_bytes())?))
}

/// The text behind a change, of a range or of all; none, where that is no change.
fn changed_once(alloc: Global, text: &[u8], change: &Value) -> Result<Option<Vec<u8>>, AllocError> {
    let Some(with) = change.get("text").and_then(Value::as_str) else {
        return Ok(None);
    };
    match change.get("range") {
        Some(range) => changed_range(alloc, text, range, with),
        None => Ok(Some(Vec::from_slice(alloc, with.as_bytes())?)),
    }
}

/// The text behind the changes of a message, each done on what the ones before gave; none, where one is no change. Fails only where no host
/// memory is left.
pub fn changed(alloc: Global, text: &[u8], body: &Value) -> Result<Option<Vec<u8>>, AllocError> {
    let changes = body
        .pointer("/params/contentChanges")
        .and_then(Value::as_array);
    let Some(changes) = changes else {
        return Ok(None);
    };
    let mut new = Vec::from_slice(alloc, text)?;
    for change in changes {
        match changed_once(alloc, new.as_slice(), change)? {
            Some(next) => new = next,
            None => return Ok(None),
        }
    }
    Ok(Some(new))
}
