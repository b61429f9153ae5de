// Where a space stands between two tokens, and where a line may be broken.

use crate::class::{Class, tightness};
use crate::mark::{Expects, Frame, Use};
use crate::pieces::Piece;
use crate::scanner::Scanner;

/// Whether a byte may stand in a name or a number.
fn is_word_byte(byte: u8) -> bool {
    byte == b'_'
        || (b'a' <= byte && byte <= b'z')
        || (b'A' <= byte && byte <= b'Z')
        || (b'0' <= byte && byte <= b'9')
}

/// Whether two bytes are no sign's, nor the beginning of one or of a comment, and no two minus signs.
fn are_apart(last: u8, first: u8) -> bool {
    match (last, first) {
        (b'<' | b'>' | b'=' | b'!' | b':', b'=') => false,
        (b'<', b'<')
        | (b'>' | b'-', b'>')
        | (b'-', b'-')
        | (b'&', b'&')
        | (b'|', b'|')
        | (b'/', b'/' | b'*') => false,
        _ => true,
    }
}

/// Whether a name is read as a part of the sign that ends with an `@` before it.
fn joins_at(text: &[u8]) -> bool {
    text.starts_with(b"tagged")
        || text.starts_with(b"notnull")
        || text.starts_with(b"fat")
        || text.starts_with(b"thin")
}

/// Whether a token may stand directly after one that ends with this byte: both are read as they are.
fn may_touch(last: u8, text: &[u8]) -> bool {
    match text {
        [] => true,
        [first, ..] if is_word_byte(last) => !is_word_byte(*first),
        [_, ..] if last == b'@' => !joins_at(text),
        [first, ..] => are_apart(last, *first),
    }
}

/// Whether the last token is a pointer's sign to which another one, a name or a region is written without a space.
fn is_after_pointer(scanner: &Scanner) -> bool {
    scanner.in_type && matches!(scanner.before, Class::Star | Class::Pointer)
}

/// Whether a token of a type is written without a space before it.
fn is_tight_in_type(scanner: &Scanner, class: Class, used: Use) -> bool {
    if is_after_pointer(scanner) {
        return true;
    }
    match (class, used, scanner.before) {
        (Class::Modifier, _, Class::Star) => true,
        (Class::Region, _, Class::Modifier | Class::RightBrace) => scanner.in_type,
        (_, Use::InlineOpen, _) => scanner.in_type,
        _ => false,
    }
}

/// Whether a token is written without a space before it, by its own kind.
fn is_tight_by_kind(scanner: &Scanner, class: Class, is_label: bool) -> bool {
    match class {
        Class::Semicolon | Class::Comma | Class::Dot => true,
        Class::RightParenthesis | Class::RightBracket | Class::LeftBracket => true,
        Class::RightBrace => matches!(scanner.top(), Some(Frame::Inline(_))),
        Class::Colon => is_label,
        Class::LeftParenthesis => matches!(scanner.before, Class::Name | Class::Rnew | Class::Call),
        _ => false,
    }
}

/// Whether a space stands before a token.
pub(crate) fn has_space(scanner: &Scanner, piece: &Piece<'_>, used: Use, is_label: bool) -> bool {
    if !matches!(scanner.expects, Expects::Inside) || !may_touch(scanner.last, piece.text) {
        return true;
    }
    if scanner.is_tight || matches!(used, Use::AngleOpen | Use::AngleClose) {
        return false;
    }
    if matches!(used, Use::InlineOpen) && matches!(scanner.before, Class::NewDynamicRegion) {
        return false;
    }
    !is_tight_in_type(scanner, piece.class, used)
        && !is_tight_by_kind(scanner, piece.class, is_label)
}

/// Whether the line may be broken before the next token, and how deep that is: the less, the better.
pub(crate) fn wrap(scanner: &Scanner) -> Option<u32> {
    let is_after = matches!(scanner.used, Use::Binary) || matches!(scanner.before, Class::Comma);
    if is_after && matches!(scanner.expects, Expects::Inside) {
        Some(
            scanner
                .nesting
                .saturating_mul(16)
                .saturating_add(tightness(scanner.before)),
        )
    } else {
        None
    }
}
