// Tokens by where they stand.

use cyc_lexer::{Keyword, Sign, Token, TokenKind};

/// The index of the first token at or after an offset; how many tokens there are, where there is none.
pub fn index_at(tokens: &[Token<'_>], at: u32) -> usize {
    for (index, token) in tokens.iter().enumerate() {
        if at <= token.at {
            return index;
        }
    }
    tokens.len()
}

/// What the token of an index is.
pub(crate) fn kind_at(tokens: &[Token<'_>], index: usize) -> Option<TokenKind> {
    match tokens.get(index) {
        Some(token) => Some(token.kind),
        None => None,
    }
}

/// What the token is that stands a distance before an index.
pub fn kind_before(tokens: &[Token<'_>], index: usize, count: usize) -> Option<TokenKind> {
    match index.checked_sub(count) {
        Some(before) => kind_at(tokens, before),
        None => None,
    }
}

/// Whether a token of this kind begins a bracket.
fn is_opening(kind: TokenKind) -> bool {
    matches!(
        kind,
        TokenKind::Sign(Sign::LeftBrace | Sign::LeftParenthesis | Sign::LeftBracket)
    )
}

/// Whether a token of this kind ends a bracket.
fn is_closing(kind: TokenKind) -> bool {
    matches!(
        kind,
        TokenKind::Sign(Sign::RightBrace | Sign::RightParenthesis | Sign::RightBracket)
    )
}

/// The index of the innermost bracket that is open before a token.
pub(crate) fn opener(tokens: &[Token<'_>], index: usize) -> Option<usize> {
    let mut closed = 0usize;
    for count in 0..index {
        let here = index - 1 - count;
        let Some(kind) = kind_at(tokens, here) else {
            continue;
        };
        if is_closing(kind) {
            closed = closed.saturating_add(1);
        } else if is_opening(kind) {
            if closed == 0 {
                return Some(here);
            }
            closed -= 1;
        }
    }
    None
}

/// Whether a token of this kind is part of a pointer's sign.
fn is_pointer(kind: TokenKind) -> bool {
    match kind {
        TokenKind::Sign(sign) => matches!(
            sign,
            Sign::Star | Sign::At | Sign::Question | Sign::NotNull | Sign::Thin | Sign::FatSign
        ),
        TokenKind::Region => true,
        _ => false,
    }
}

/// Whether the bound of a pointer ends before an index: a number between braces, behind the pointer's sign.
fn is_behind_bound(tokens: &[Token<'_>], index: usize) -> bool {
    matches!(
        kind_before(tokens, index, 1),
        Some(TokenKind::Sign(Sign::RightBrace))
    ) && matches!(kind_before(tokens, index, 2), Some(TokenKind::Number(_, _)))
        && matches!(
            kind_before(tokens, index, 4),
            Some(TokenKind::Sign(Sign::Star | Sign::At | Sign::NotNull))
        )
}

/// Where the sign, the bound or the region of a pointer begins that ends before an index; the index, where there is none.
fn before_pointer(tokens: &[Token<'_>], index: usize) -> usize {
    match kind_before(tokens, index, 1) {
        Some(kind) if is_pointer(kind) => index.saturating_sub(1),
        Some(_) if is_behind_bound(tokens, index) => index.saturating_sub(3),
        _ => index,
    }
}

/// Where the signs of pointers begin that end before an index; the index, where there is none.
fn before_pointers(tokens: &[Token<'_>], index: usize) -> usize {
    let mut left = index;
    for _ in 0..index {
        let before = before_pointer(tokens, left);
        if before == left {
            return left;
        }
        left = before;
    }
    left
}

/// Whether a token of this kind is a type's keyword.
fn is_type(kind: TokenKind) -> bool {
    matches!(
        kind,
        TokenKind::Keyword(Keyword::Int | Keyword::Unsigned | Keyword::Char | Keyword::Void)
    )
}

/// Whether the tag of a struct or union stands before an index.
fn is_tag(tokens: &[Token<'_>], index: usize) -> bool {
    matches!(
        kind_before(tokens, index, 2),
        Some(TokenKind::Keyword(Keyword::Struct | Keyword::Union))
    )
}

/// Whether a type may end before an index.
pub(crate) fn is_behind_type(tokens: &[Token<'_>], index: usize) -> bool {
    let base = before_pointers(tokens, index);
    match kind_before(tokens, base, 1) {
        Some(TokenKind::Identifier) => is_tag(tokens, base),
        Some(TokenKind::Sign(Sign::Greater)) => {
            matches!(kind_before(tokens, base, 2), Some(TokenKind::Region))
        }
        Some(kind) => is_type(kind),
        None => false,
    }
}

/// Whether the token of an index may be a name that is declared there.
pub fn is_declared(tokens: &[Token<'_>], index: usize) -> bool {
    matches!(kind_at(tokens, index), Some(TokenKind::Identifier)) && is_behind_type(tokens, index)
}

/// The last declaration of a name before an index, by its offset.
pub fn declared_before(tokens: &[Token<'_>], index: usize, name: &[u8]) -> Option<u32> {
    let mut found = None;
    for (here, token) in tokens.iter().enumerate() {
        if here < index && token.text == name && is_declared(tokens, here) {
            found = Some(token.at);
        }
    }
    found
}
