// What is said of bytes that are no token.

use crate::words::Words;
use std::alloc::AllocError;

/// The most bytes of a text.
const MOST_BYTES: usize = 1_048_576;

/// What is said of a line for the preprocessor.
const PREPROCESSOR: &str =
    "There is no preprocessor. For `#include` name the parts in the command, `cycc run main.cyc lib/io.cyc`; for `#define` write a global.\n";

/// The digits of bytes in hexadecimal.
const DIGITS: &[u8; 16] = b"0123456789abcdef";

/// How many bytes of a string stand before its end, or before one that no string has.
fn string_run(bytes: &[u8]) -> usize {
    let mut is_escaped = false;
    for (index, byte) in bytes.iter().enumerate() {
        let is_other = *byte < b' ' || b'~' < *byte;
        if is_other || (!is_escaped && *byte == b'"') {
            return index;
        }
        is_escaped = !is_escaped && *byte == b'\\';
    }
    bytes.len()
}

/// A digit of a byte.
fn digit(number: u8) -> u8 {
    match DIGITS.get(number as usize) {
        Some(digit) => *digit,
        None => b'?',
    }
}

/// Says a byte as it is written in a string.
fn say_byte(words: &mut Words<'_>, byte: u8) -> Result<(), AllocError> {
    words.name(&[b'\\', b'x', digit(byte / 16), digit(byte % 16)])
}

/// Says what is wrong with a string that begins at an offset, before these bytes.
fn say_string(words: &mut Words<'_>, rest: &[u8], at: u32) -> Result<(), AllocError> {
    let run = string_run(rest);
    match rest.get(run) {
        Some(byte) if *byte == b'"' => {
            words.say(
                "Of escapes there are \\n \\t \\r \\a \\b \\f \\v \\0 \\\\ \\' \\\" and, as \\x4a, \\x with two digits.\n",
            )
        }
        Some(byte) if *byte != b'\n' => {
            words.say("A string has no such byte as the one at ")?;
            let before = u32::try_from(run).unwrap_or(u32::MAX);
            let place = at.saturating_add(before).saturating_add(1);
            words.position(place)?;
            words.relate(place, "the byte is here", b"")?;
            words.say(": write ")?;
            say_byte(words, *byte)?;
            words.say(".\n")
        }
        _ => words.say("The string that begins here has no end in its line.\n"),
    }
}

/// Says what is wrong with other bytes.
fn say_other(words: &mut Words<'_>, byte: u8) -> Result<(), AllocError> {
    match byte {
        b'\'' => words.say(
            "A character is one byte from 32 to 126 or one escape, as 'a', '\\n' and '\\x4a'.\n",
        ),
        b'`' => words.say("The name of a region begins with a letter or `_`, behind the mark.\n"),
        b'0'..=b'9' => words.say(
            "A number is at most 4294967295, with `u` behind it or nothing. After a leading 0 it has the digits 0 to 7, after 0x those to f.\n",
        ),
        _ => {
            words.say("Found:  the byte ")?;
            say_byte(words, byte)?;
            words.say("\nWanted: a token. Other bytes stand in comments alone.\n")
        }
    }
}

/// Says what is wrong with the bytes of a text from an offset on, which begin no token. Fails only where no host memory is left, as all
/// of these.
pub fn say_bytes(words: &mut Words<'_>, text: &[u8], at: u32) -> Result<(), AllocError> {
    if MOST_BYTES < text.len() {
        return Ok(());
    }
    match text.get(at as usize..).unwrap_or(&[]) {
        [b'/', b'*', ..] => words.say(
            "The comment that begins here has no end: `*/` is missing.\n",
        ),
        [b'"', rest @ ..] => say_string(words, rest, at),
        [b'#', b'a'..=b'z', ..] => words.say(PREPROCESSOR),
        [b'#', ..] | [] => Ok(()),
        [byte, ..] => say_other(words, *byte),
    }
}
