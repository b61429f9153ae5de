// Signs.

ghost use Rattle.std.specs.Prelude.{◌≡◌, map};
ghost use Rattle.cyc_lexer.specs.Reading.{begins_with, find_sign, begins_comment, sign_at};

use crate::token::{Sign, TokenKind};

// Each sign and its spelling, the longer first.
pub(crate) static SIGNS: [(Sign, &[u8]); 39] = [
    (Sign::NotNull, b"@notnull"),
    (Sign::Tagged, b"@tagged"),
    (Sign::Thin, b"@thin"),
    (Sign::FatSign, b"@fat"),
    (Sign::Exchange, b":=:"),
    (Sign::Arrow, b"->"),
    (Sign::ShiftLeft, b"<<"),
    (Sign::ShiftRight, b">>"),
    (Sign::LessEqual, b"<="),
    (Sign::GreaterEqual, b">="),
    (Sign::EqualEqual, b"=="),
    (Sign::NotEqual, b"!="),
    (Sign::AndAnd, b"&&"),
    (Sign::OrOr, b"||"),
    (Sign::Plus, b"+"),
    (Sign::Minus, b"-"),
    (Sign::Star, b"*"),
    (Sign::Slash, b"/"),
    (Sign::Percent, b"%"),
    (Sign::Less, b"<"),
    (Sign::Greater, b">"),
    (Sign::Assign, b"="),
    (Sign::Not, b"!"),
    (Sign::And, b"&"),
    (Sign::Or, b"|"),
    (Sign::Xor, b"^"),
    (Sign::Tilde, b"~"),
    (Sign::LeftParenthesis, b"("),
    (Sign::RightParenthesis, b")"),
    (Sign::LeftBracket, b"["),
    (Sign::RightBracket, b"]"),
    (Sign::LeftBrace, b"{"),
    (Sign::RightBrace, b"}"),
    (Sign::Comma, b","),
    (Sign::Semicolon, b";"),
    (Sign::Colon, b":"),
    (Sign::Dot, b"."),
    (Sign::At, b"@"),
    (Sign::Question, b"?"),
];

/// Whether bytes begin with these.
fn begins_with(front: &[u8], bytes: &[u8]) -> bool
    ensures { result ≡ begins_with front.now bytes.now }
{
    bytes.starts_with(front)
}

/// The first of the signs that stands at the front, and its length.
fn find_sign(signs: &[(Sign, &[u8])], bytes: &[u8]) -> Option<(TokenKind, usize)>
    ensures { result ≡ find_sign (map (λ e. (e.0, e.1.now)) signs.now) bytes.now }
{
    for (sign, spelled) in signs {
        if begins_with(spelled, bytes) {
            return Some((TokenKind::Sign(*sign), spelled.len()));
        }
    }
    None
}

/// Whether `//` or `/*` stands at the front.
fn begins_comment(bytes: &[u8]) -> bool
    ensures { result ≡ begins_comment bytes.now }
{
    matches!(bytes, [b'/', b'/' | b'*', ..])
}

/// The longest sign at the front, where no comment begins.
pub(crate) fn sign_at(bytes: &[u8]) -> Option<(TokenKind, usize)>
    ensures { result ≡ sign_at bytes.now }
{
    if begins_comment(bytes) {
        None
    } else {
        find_sign(&SIGNS, bytes)
    }
}
