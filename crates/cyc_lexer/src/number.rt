// Numbers.

ghost use Rattle.std.specs.Prelude.{◌≡◌, ◌≤◌, length};
ghost use Rattle.cyc_lexer.specs.Reading.{is_digit_to, digits_value, digits_of, number_of};

use crate::bytes::{digit_value, is_digit, is_hexadecimal_digit, is_octal_digit};
use crate::token::TokenKind;

/// Whether a byte is a digit to this base: 8, 10, or else 16.
fn is_digit_to(base: u64, byte: u8) -> bool
    ensures { result ≡ is_digit_to base byte }
{
    if base == 8 {
        is_octal_digit(byte)
    } else if base == 10 {
        is_digit(byte)
    } else {
        is_hexadecimal_digit(byte)
    }
}

/// What digits to a base stand for, if each is one and the number fits.
fn digits_value(base: u64, digits: &[u8]) -> Option<u32>
    requires { base ≤ 16 }
    ensures { result ≡ digits_value base 0 digits.now }
{
    let mut value = 0u64;
    for digit in digits {
        if !is_digit_to(base, *digit) {
            return None;
        }
        let more = value * base + u64::from(digit_value(*digit));
        if more > 4_294_967_295 {
            return None;
        }
        value = more;
    }
    Some(value as u32)
}

/// What digits stand for, to the base that their first bytes say, if each is one and the number fits.
fn digits_of(digits: &[u8]) -> Option<u32>
    ensures { result ≡ digits_of digits.now }
{
    match digits {
        [] | [b'0', b'x' | b'X'] => None,
        [b'0', b'x' | b'X', hexadecimal @ ..] => digits_value(16, hexadecimal),
        [b'0', octal @ ..] => digits_value(8, octal),
        decimal => digits_value(10, decimal),
    }
}

/// The number that a word spells.
pub(crate) fn number_of(word: &[u8]) -> Option<TokenKind>
    ensures { result ≡ number_of word.now }
{
    match word {
        [digits @ .., b'u' | b'U'] => Some(TokenKind::Number(digits_of(digits)?, true)),
        _ => Some(TokenKind::Number(digits_of(word)?, false)),
    }
}
