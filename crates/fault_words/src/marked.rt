// A line of a source, with a mark below a position in it.

use std::alloc::AllocError;

/// How many bytes of a line are shown where it has more.
const SHOWN_BYTES: usize = 160;

/// What stands where a line is cut.
const CUT: &str = "..";

/// A line of a source, and how many of its bytes stand before the mark.
#[derive(Clone, Copy)]
struct Marked<'a> {
    line: &'a [u8],
    before: usize,
}

impl<'a> Marked<'a> {
    /// The line of this number, marked at this column. One behind the last line is at the end of that.
    fn of(text: &'a [u8], line: u32, column: u32) -> Marked<'a> {
        let text = text.strip_suffix(b"\n").unwrap_or(text);
        let before = column.saturating_sub(1) as usize;
        let number = line.saturating_sub(1) as usize;
        if let Some(line) = text.split(|byte| *byte == b'\n').nth(number) {
            return Marked { line, before };
        }
        let line = text.split(|byte| *byte == b'\n').last().unwrap_or(text);
        Marked {
            line,
            before: line.len(),
        }
    }

    /// How many of the line's first bytes aren't shown.
    fn first_shown(self) -> usize {
        let most = self.line.len().saturating_sub(SHOWN_BYTES);
        self.before.saturating_sub(SHOWN_BYTES / 2).min(most)
    }
}

/// Appends as much blank as bytes take on a screen: tabs stay, and of a character of several bytes the first one counts.
fn push_blank(shown: &mut Vec<u8>, bytes: &[u8]) -> Result<(), AllocError> {
    for byte in bytes {
        match *byte {
            b'\t' => shown.push(b'\t')?,
            0x80..=0xbf => {}
            _ => shown.push(b' ')?,
        }
    }
    Ok(())
}

/// Whether this is the second byte of a control character of two, whose first one is 0xc2.
fn is_second(byte: Option<&u8>) -> bool {
    match byte {
        Some(byte) => 0x80 <= *byte && *byte <= 0x9f,
        None => false,
    }
}

/// Whether this is the first byte of such a control character.
fn is_first(byte: Option<&u8>) -> bool {
    match byte {
        Some(byte) => *byte == 0xc2,
        None => false,
    }
}

/// The byte that is shown for the one of an index: a blank for a control character, but for a tab; none for its second byte.
fn shown_byte(bytes: &[u8], index: usize) -> Option<u8> {
    let byte = bytes.get(index)?;
    match *byte {
        b'\t' => Some(b'\t'),
        0..=0x1f | 0x7f => Some(b' '),
        0xc2 if is_second(bytes.get(index.saturating_add(1))) => Some(b' '),
        0x80..=0x9f if index > 0 && is_first(bytes.get(index.saturating_sub(1))) => None,
        other => Some(other),
    }
}

/// Appends a line's bytes, as they are shown.
fn push_bytes(shown: &mut Vec<u8>, bytes: &[u8]) -> Result<(), AllocError> {
    for index in 0..bytes.len() {
        if let Some(byte) = shown_byte(bytes, index) {
            shown.push(byte)?;
        }
    }
    Ok(())
}

/// Appends the line of a number of a text, or of a long one what stands around a column, with a mark below that. Both count from 1. Fails only where
/// no host memory is left.
pub fn push_marked(
    shown: &mut Vec<u8>,
    text: &[u8],
    line: u32,
    column: u32,
) -> Result<(), AllocError> {
    let marked = Marked::of(text, line, column);
    let first = marked.first_shown();
    let rest = marked.line.get(first..).unwrap_or(marked.line);
    let bytes = rest.get(..SHOWN_BYTES).unwrap_or(rest);
    let begin = if first > 0 { CUT } else { "" };
    let end = if bytes.len() < rest.len() { CUT } else { "" };
    shown.extend_from_slice(begin.as_bytes())?;
    push_bytes(shown, bytes)?;
    shown.extend_from_slice(end.as_bytes())?;
    shown.push(b'\n')?;
    push_blank(shown, begin.as_bytes())?;
    let before = marked.before.saturating_sub(first);
    push_blank(shown, bytes.get(..before).unwrap_or(bytes))?;
    shown.extend_from_slice(b"^\n")
}
