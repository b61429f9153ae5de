// Characters, and the ends of strings.

ghost use Rattle.std.specs.Prelude.{◌≡◌, ◌≤◌, ◌&&◌, not, nat_eq, length, IfSome};
ghost use Rattle.cyc_lexer.specs.Bytes.{is_between, is_hexadecimal_digit};
ghost use Rattle.cyc_lexer.specs.Spelling.{escapes, find_escape, character_at};
ghost use Rattle.cyc_lexer.specs.Reading.{text_from};

use crate::bytes::{digit_value, is_hexadecimal_digit};

/// What stands after a backslash, other than `x`.
fn plain_escape(letter: u8) -> Option<(u8, usize)>
    ensures { result ≡ find_escape escapes letter }
{
    let byte = match letter {
        b'n' => b'\n',
        b't' => b'\t',
        b'r' => b'\r',
        b'a' => 7,
        b'b' => 8,
        b'f' => 12,
        b'v' => 11,
        b'0' => 0,
        b'\\' => b'\\',
        b'\'' => b'\'',
        b'"' => b'"',
        _ => return None,
    };
    Some((byte, 2))
}

/// Whether the byte stands for itself between such quotes.
fn is_plain(quote: u8, byte: u8) -> bool
    ensures { result ≡ (is_between 32 126 byte && not (nat_eq byte 92) && not (nat_eq byte quote)) }
{
    32 <= byte && byte <= 126 && byte != b'\\' && byte != quote
}

/// Whether both bytes are hexadecimal digits.
fn are_hexadecimal(high: u8, low: u8) -> bool
    ensures { result ≡ (is_hexadecimal_digit high && is_hexadecimal_digit low) }
{
    is_hexadecimal_digit(high) && is_hexadecimal_digit(low)
}

/// The character at the front, between such quotes: the byte that it means, and its length.
pub(crate) fn character_at(quote: u8, bytes: &[u8]) -> Option<(u8, usize)>
    ensures { result ≡ character_at quote bytes.now }
{
    match bytes {
        [b'\\', b'x', high, low, ..] if are_hexadecimal(*high, *low) => {
            Some((digit_value(*high) * 16 + digit_value(*low), 4))
        }
        [b'\\', letter, ..] => plain_escape(*letter),
        [byte, ..] if is_plain(quote, *byte) => Some((*byte, 1)),
        _ => None,
    }
}

/// The length of a string after its opening quote, with the closing one.
pub(crate) fn text_length(bytes: &[u8]) -> Option<usize>
    ensures length { result ≡ text_from 0 bytes.now }
    ensures within { IfSome result (λ n. n ≤ length bytes.now) }
{
    let mut at = 0usize;
    while at < bytes.len() {
        if bytes[at] == b'"' {
            return Some(at + 1);
        }
        let (_, length) = character_at(b'"', &bytes[at..])?;
        at += length;
    }
    None
}
