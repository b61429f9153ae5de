// What to write in place of a construct of C.

use crate::braces::{Brace, brace_around, is_parenthesis};
use crate::seen::{is_behind_type, is_declared, kind_at, kind_before, opener};
use cyc_lexer::{Keyword, Sign, Token, TokenKind};

/// Whether a token of this kind is such a sign.
fn is_plus(kind: Option<TokenKind>) -> bool {
    matches!(kind, Some(TokenKind::Sign(Sign::Plus)))
}

/// Whether a token of this kind is the sign of a difference.
fn is_minus(kind: Option<TokenKind>) -> bool {
    matches!(kind, Some(TokenKind::Sign(Sign::Minus)))
}

/// Whether a token of this kind is an operator that C joins with `=`.
fn is_joined(kind: Option<TokenKind>) -> bool {
    let Some(TokenKind::Sign(sign)) = kind else {
        return false;
    };
    matches!(
        sign,
        Sign::Plus
            | Sign::Minus
            | Sign::Star
            | Sign::Slash
            | Sign::Percent
            | Sign::And
            | Sign::Or
            | Sign::Xor
            | Sign::ShiftLeft
            | Sign::ShiftRight
    )
}

/// Whether `++` stands around an index.
fn is_increment(tokens: &[Token<'_>], index: usize) -> bool {
    let here = is_plus(kind_at(tokens, index));
    let next = is_plus(kind_at(tokens, index.saturating_add(1)));
    let before = is_plus(kind_before(tokens, index, 1));
    (here && next) || (here && before) || (before && is_plus(kind_before(tokens, index, 2)))
}

/// Whether `--` stands before an index.
fn is_decrement(tokens: &[Token<'_>], index: usize) -> bool {
    is_minus(kind_before(tokens, index, 1)) && is_minus(kind_before(tokens, index, 2))
}

/// Whether a keyword begins a type that C has.
fn begins_type(keyword: Keyword) -> bool {
    matches!(
        keyword,
        Keyword::Int
            | Keyword::Unsigned
            | Keyword::Char
            | Keyword::Void
            | Keyword::Struct
            | Keyword::Union
    )
}

/// Whether `sizeof` and a parenthesis stand before an index.
fn is_in_sizeof(tokens: &[Token<'_>], index: usize) -> bool {
    match index.checked_sub(2) {
        Some(name) => match tokens.get(name) {
            Some(token) => token.text == b"sizeof".as_slice(),
            None => false,
        },
        None => false,
    }
}

/// What to write in place of a type that stands behind the `(` before an index.
fn instead_of_type(tokens: &[Token<'_>], index: usize) -> Option<&'static str> {
    if is_in_sizeof(tokens, index) {
        return Some(
            "There is no `sizeof`: `new P(1, 2)` makes a struct, and `numelts(a)` says how many elements there are.",
        );
    }
    match kind_before(tokens, index, 2) {
        Some(TokenKind::Identifier) => None,
        _ => Some(
            "There is no cast: integers convert where they are assigned, passed or returned.",
        ),
    }
}

/// What to write in place of a keyword.
fn instead_of_keyword(
    tokens: &[Token<'_>],
    index: usize,
    keyword: Keyword,
) -> Option<&'static str> {
    if let Keyword::For = keyword {
        return Some("There is no statement `for`: write `while`.");
    }
    if let (Keyword::Char, Some(TokenKind::Keyword(Keyword::Unsigned))) = (
        keyword,
        kind_before(tokens, index, 1),
    ) {
        return Some("`char` has no sign: it is 0 to 255.");
    }
    let begin = index.saturating_sub(1);
    if begins_type(keyword) && is_parenthesis(tokens, begin) && opener(tokens, begin).is_some() {
        return instead_of_type(tokens, index);
    }
    None
}

/// What to write in place of `{`.
fn instead_of_brace(tokens: &[Token<'_>], index: usize) -> Option<&'static str> {
    match kind_before(tokens, index, 1) {
        Some(TokenKind::Sign(Sign::Assign)) => {
            Some(
                "There is no list of values: write `P(1, 2)` for a struct, and assign the elements of an array one by one.",
            )
        }
        Some(TokenKind::Identifier) if is_plain_union(tokens, index) => {
            Some("A union knows which member it holds: write `@tagged union`.")
        }
        _ => None,
    }
}

/// Whether `union` and a tag stand before an index, outside of functions.
fn is_plain_union(tokens: &[Token<'_>], index: usize) -> bool {
    matches!(
        kind_before(tokens, index, 2),
        Some(TokenKind::Keyword(Keyword::Union))
    ) && opener(tokens, index).is_none()
}

/// What to write in place of `;`.
fn instead_of_semicolon(tokens: &[Token<'_>], index: usize) -> Option<&'static str> {
    match kind_before(tokens, index, 1) {
        Some(TokenKind::Sign(Sign::RightParenthesis)) if opener(tokens, index).is_none() => {
            Some("There are no prototypes: functions call each other in any order.")
        }
        _ => None,
    }
}

/// What to write in place of `,`.
fn instead_of_comma(tokens: &[Token<'_>], index: usize) -> Option<&'static str> {
    match index.checked_sub(1) {
        Some(name) if is_declared(tokens, name) && opener(tokens, index).is_some() => {
            Some("A declaration has one name: write one for each.")
        }
        _ => match brace_around(tokens, index) {
            Some(Brace::Block | Brace::Clauses) => {
                Some("There is no operator `,`: write one statement for each.")
            }
            _ => None,
        },
    }
}

/// What to write in place of `=`.
fn instead_of_assign(tokens: &[Token<'_>], index: usize) -> Option<&'static str> {
    match kind_before(tokens, index, 1) {
        Some(TokenKind::Sign(Sign::RightBracket)) => {
            Some("An array begins with zeros or NULL: assign its elements one by one.")
        }
        kind if is_joined(kind) => Some("No assignment has an operator: write `x = x + y`."),
        _ => None,
    }
}

/// What to write in place of `[`.
fn instead_of_bracket(tokens: &[Token<'_>], index: usize) -> Option<&'static str> {
    if let Some(TokenKind::Sign(Sign::RightBracket)) = kind_before(tokens, index, 1) {
        return Some(
            "An array has one dimension: write `int m[6]`, and `m[i * 3 + j]` for an element.",
        );
    }
    let begin = opener(tokens, index)?;
    match brace_around(tokens, index) {
        Some(Brace::Members) => Some("A member is no array: write `int ?a`, and give it an array."),
        None if is_parenthesis(tokens, begin) => Some("A parameter is no array: write `int ?a`."),
        _ => None,
    }
}

/// What to write in place of `(`.
fn instead_of_parenthesis(tokens: &[Token<'_>], index: usize) -> Option<&'static str> {
    if is_behind_type(tokens, index) {
        Some("There are no pointers to functions: pass a number, and choose the call by `if`.")
    } else {
        None
    }
}

/// What to write in place of a sign.
fn instead_of(tokens: &[Token<'_>], index: usize, sign: Sign) -> Option<&'static str> {
    match sign {
        Sign::Assign => instead_of_assign(tokens, index),
        Sign::Comma => instead_of_comma(tokens, index),
        Sign::LeftBrace => instead_of_brace(tokens, index),
        Sign::LeftBracket => instead_of_bracket(tokens, index),
        Sign::LeftParenthesis => instead_of_parenthesis(tokens, index),
        Sign::Semicolon => instead_of_semicolon(tokens, index),
        Sign::Question => Some("There is no operator `? :`: write `if` and `else`."),
        Sign::Dot if is_behind_comma(tokens, index) => {
            Some("A function has a fixed number of parameters: take an array, `int ?a`.")
        }
        _ => None,
    }
}

/// Whether `,` stands before an index.
fn is_behind_comma(tokens: &[Token<'_>], index: usize) -> bool {
    matches!(
        kind_before(tokens, index, 1),
        Some(TokenKind::Sign(Sign::Comma))
    )
}

/// What to write in place of a construct of C, where a token of an index begins one or is in one.
pub fn hint(tokens: &[Token<'_>], index: usize) -> Option<&'static str> {
    if is_increment(tokens, index) {
        return Some("There is no `++`: write `x = x + 1`.");
    }
    if is_decrement(tokens, index) {
        return Some("There is no `--`: write `x = x - 1`.");
    }
    if let Some(TokenKind::Keyword(Keyword::Case)) = kind_before(tokens, index, 1) {
        return Some("`switch` is of a tagged union: for a number write `if` and `else if`.");
    }
    match kind_at(tokens, index) {
        Some(TokenKind::Keyword(keyword)) => instead_of_keyword(tokens, index, keyword),
        Some(TokenKind::Sign(sign)) => instead_of(tokens, index, sign),
        _ => None,
    }
}
