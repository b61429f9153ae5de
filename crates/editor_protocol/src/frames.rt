// Frames: a header with the length of a body, a blank line, and the body.

ghost use Rattle.std.specs.Prelude.{◌+◌, ◌≤◌, length, IfSome};
ghost use Rattle.editor_protocol.specs.Frames.{IsWithin, IsBehind};

/// The longest body of a message that is taken, in bytes.
pub const LONGEST_BODY: usize = 16_777_216;

/// The most bytes of a header.
const LONGEST_HEADER: usize = 4096;

/// The most digits of a length.
const MOST_DIGITS: usize = 9;

/// The field of a header that has the body's length, in lower case.
const LENGTH_FIELD: &[u8] = b"content-length:";

/// What stands first in bytes that were read.
#[derive(Clone, Copy)]
pub enum Frame {
    /// A beginning of a frame: more bytes are needed.
    Partial,
    /// A frame whose body lies between these offsets.
    Whole { begin: usize, end: usize },
    /// A frame whose body begins here and is longer than is taken.
    TooLong { begin: usize, length: usize },
    /// No frame, up to this offset.
    Broken { end: usize },
}

/// Where the header ends: at the end of the line before the first blank one.
fn header_end(bytes: &[u8]) -> Option<usize>
    ensures { IfSome result (λ end. end + 4 ≤ length bytes.now) }
{
    for index in 0..bytes.len() {
        if let [b'\r', b'\n', b'\r', b'\n', ..] = &bytes[index..] {
            return Some(index);
        }
    }
    None
}

/// Whether the field of the length stands first.
fn is_length_field(rest: &[u8]) -> bool {
    match rest.get(..LENGTH_FIELD.len()) {
        Some(field) => field.eq_ignore_ascii_case(LENGTH_FIELD),
        None => false,
    }
}

/// Where the last field of the length begins.
fn length_field(header: &[u8]) -> Option<usize>
    ensures { IfSome result (λ at. at ≤ length header.now) }
{
    for count in 0..header.len() {
        let index = header.len() - 1 - count;
        if is_length_field(&header[index..]) {
            return Some(index);
        }
    }
    None
}

/// Whether these are lines of a header.
fn are_fields(lines: &[u8]) -> bool {
    match lines {
        [] => true,
        [first, .., b'\r', b'\n'] => first.is_ascii_alphabetic(),
        _ => false,
    }
}

/// The number that these bytes are, up to the end of the line: of nine digits at most.
fn number_of(bytes: &[u8]) -> Option<usize> {
    let line = bytes.split(|byte| *byte == b'\r').next().unwrap_or(bytes);
    let digits = line.trim_ascii();
    if digits.is_empty() || digits.len() > MOST_DIGITS {
        return None;
    }
    let mut number = 0usize;
    for byte in digits {
        if !byte.is_ascii_digit() {
            return None;
        }
        let digit = usize::from(byte.saturating_sub(b'0'));
        number = number.saturating_mul(10).saturating_add(digit);
    }
    if digits.is_empty() {
        None
    } else {
        Some(number)
    }
}

/// What bytes are in which no header ends.
fn unended(bytes: &[u8]) -> Frame
    ensures { IsWithin result bytes.now }
{
    if bytes.len() > LONGEST_HEADER {
        Frame::Broken { end: bytes.len() }
    } else {
        Frame::Partial
    }
}

/// The frame whose body begins here and has this length.
fn of_length(bytes: &[u8], begin: usize, length: usize) -> Frame
    requires { IsBehind begin bytes.now }
    ensures { IsWithin result bytes.now }
{
    if length > LONGEST_BODY {
        return Frame::TooLong { begin, length };
    }
    if bytes.len() - begin < length {
        return Frame::Partial;
    }
    Frame::Whole {
        begin,
        end: begin + length,
    }
}

/// What stands first in bytes. Where something else stands before the field of the length, it is no frame up to that field.
pub fn frame_at(bytes: &[u8]) -> Frame
    ensures { IsWithin result bytes.now }
{
    let Some(end) = header_end(bytes) else {
        return unended(bytes);
    };
    let begin = end + 4;
    let header = &bytes[..end];
    let Some(field) = length_field(header) else {
        return Frame::Broken { end: begin };
    };
    if field > 0 && !are_fields(&header[..field]) {
        return Frame::Broken { end: field };
    }
    let behind = header.get(field + LENGTH_FIELD.len()..).unwrap_or(header);
    match number_of(behind) {
        Some(length) => of_length(bytes, begin, length),
        None => Frame::Broken { end: begin },
    }
}
