// From a part's text to bytes, and from bytes to a text that means them.

use crate::cases::Part;
use std::alloc::{AllocError, Global};
use std::fmt;

/// The bytes of a part as it stands.
pub fn plain_bytes(alloc: Global, part: Part<'_>) -> Result<Vec<u8>, AllocError> {
    let mut bytes = Vec::from_slice(alloc, part.text.as_bytes())?;
    if part.has_lines {
        bytes.push(b'\n')?;
    }
    Ok(bytes)
}

/// What a digit of a short number may be.
const DIGITS: &str = "0123456789ABCDEFGHIJKLMNOPQRSTUVWXYZabcdefghijklmnopqrstuvwxyz";

/// Appends a digit of 62.
fn push_digit(text: &mut String, number: u32) -> Result<(), AllocError> {
    match DIGITS.as_bytes().get(number as usize) {
        Some(digit) => text.push(char::from(*digit)),
        None => Ok(()),
    }
}

/// Appends a number in one or two of 62 digits, the last one first.
fn push_short(text: &mut String, number: u32) -> Result<(), AllocError> {
    let (last, first) = (number % 62, number / 62 % 62);
    push_digit(text, last)?;
    if first > 0 {
        push_digit(text, first)?;
    }
    Ok(())
}

/// Appends a piece, in which `#` is the number of the time and `$` the same in few digits.
fn push_piece(text: &mut String, piece: &str, number: u32) -> Result<(), AllocError> {
    for letter in piece.chars() {
        match letter {
            '#' => write!(text, "{number}")?,
            '$' => push_short(text, number)?,
            letter => text.push(letter)?,
        }
    }
    Ok(())
}

/// Appends the pieces of a line: how often, and the piece, which is the end of a line where none stands there.
fn push_pieces(text: &mut String, line: &str) -> Result<(), AllocError> {
    let (times, piece) = line.split_once(' ').unwrap_or((line, "\n"));
    for number in 0..times.parse().unwrap_or(0u32) {
        push_piece(text, piece, number)?;
    }
    Ok(())
}

/// The bytes of a part of pieces, a line for each.
pub fn pieced_bytes(alloc: Global, part: Part<'_>) -> Result<Vec<u8>, AllocError> {
    let mut text = String::new(alloc);
    for line in part.text.lines() {
        push_pieces(&mut text, line)?;
    }
    Ok(text.into_bytes())
}

/// Appends what stands behind a `\x`: a byte, of two hexadecimal digits, and then text.
fn push_byte(bytes: &mut Vec<u8>, text: &str) -> Result<(), AllocError> {
    let (Some(digits), Some(rest)) = (text.get(..2), text.get(2..)) else {
        return bytes.extend_from_slice(text.as_bytes());
    };
    if let Ok(byte) = u8::from_str_radix(digits, 16) {
        bytes.push(byte)?;
    }
    bytes.extend_from_slice(rest.as_bytes())
}

/// The bytes that a part means, where `\x` and two hexadecimal digits are a byte: none where there is no part.
pub fn bytes_of(alloc: Global, part: Option<Part<'_>>) -> Result<Vec<u8>, AllocError> {
    let mut bytes = Vec::new(alloc);
    let Some(part) = part else {
        return Ok(bytes);
    };
    let (first, rest) = part.text.split_once("\\x").unwrap_or((part.text, ""));
    bytes.extend_from_slice(first.as_bytes())?;
    if !rest.is_empty() {
        for piece in rest.split("\\x") {
            push_byte(&mut bytes, piece)?;
        }
    }
    if part.has_lines {
        bytes.push(b'\n')?;
    }
    Ok(bytes)
}

/// Bytes, printed as a part has them.
#[derive(Clone, Copy)]
pub struct Shown<'a>(pub &'a [u8]);

impl<'a> fmt::Display for Shown<'a> {
    fn fmt<W: fmt::Write>(&self, f: &mut fmt::Formatter<W>) -> fmt::Result {
        for byte in self.0 {
            match *byte {
                b'\n' => f.write_str("\n")?,
                b' '..=b'~' => write!(f, "{}", char::from(*byte))?,
                byte => write!(f, "\\x{byte:02x}")?,
            }
        }
        Ok(())
    }
}
