// The token at the front of a text.

ghost use Rattle.std.specs.Prelude.{◌≡◌, ◌+◌, ◌≤◌, ◌<◌, length, IfSome};
ghost use Rattle.cyc_lexer.specs.Reading.{word_at, number_at, region_at, quoted_at, text_from, text_token, token_at};

use crate::bytes::{is_digit, is_letter, word_run};
use crate::characters::{character_at, text_length};
use crate::number::number_of;
use crate::signs::sign_at;
use crate::token::TokenKind;
use crate::words::keyword_of;

/// The keyword or the identifier at the front.
fn word_at(bytes: &[u8]) -> Option<(TokenKind, usize)>
    ensures { result ≡ word_at bytes.now }
{
    let length = word_run(bytes);
    match keyword_of(&bytes[..length]) {
        Some(keyword) => Some((TokenKind::Keyword(keyword), length)),
        None => Some((TokenKind::Identifier, length)),
    }
}

/// The number at the front, and its length.
fn number_at(bytes: &[u8]) -> Option<(TokenKind, usize)>
    ensures { result ≡ number_at bytes.now }
{
    let length = word_run(bytes);
    Some((number_of(&bytes[..length])?, length))
}

/// What stands after a backquote.
fn region_at(bytes: &[u8]) -> Option<(TokenKind, usize)>
    ensures { result ≡ region_at bytes.now }
{
    match bytes {
        [first, ..] if is_letter(*first) => Some((TokenKind::Region, word_run(bytes) + 1)),
        _ => None,
    }
}

/// What stands after a quote.
fn quoted_at(bytes: &[u8]) -> Option<(TokenKind, usize)>
    ensures { result ≡ quoted_at bytes.now }
{
    let (byte, length) = character_at(b'\'', bytes)?;
    if length < bytes.len() && bytes[length] == b'\'' {
        Some((TokenKind::Character(byte), length + 2))
    } else {
        None
    }
}

/// What stands after a double quote.
fn text_at(bytes: &[u8]) -> Option<(TokenKind, usize)>
    ensures { result ≡ text_token (text_from 0 bytes.now) }
{
    Some((TokenKind::Text, text_length(bytes)? + 1))
}

/// The token at the front: its kind and its length.
pub(crate) fn next_token(bytes: &[u8]) -> Option<(TokenKind, usize)>
    ensures { result ≡ token_at bytes.now }
{
    match bytes {
        [b'`', rest @ ..] => region_at(rest),
        [b'\'', rest @ ..] => quoted_at(rest),
        [b'"', rest @ ..] => text_at(rest),
        [first, ..] if is_letter(*first) => word_at(bytes),
        [first, ..] if is_digit(*first) => number_at(bytes),
        _ => sign_at(bytes),
    }
}
