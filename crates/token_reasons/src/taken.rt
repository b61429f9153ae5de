// What the name of a local stands in that is freed, opened or lent.

use crate::seen::{kind_at, kind_before};
use cyc_lexer::{Keyword, Sign, Token, TokenKind};
use std::alloc::{AllocError, Global};

/// How many tokens from an index on stand before the next `;`.
fn before_semicolon(tokens: &[Token<'_>], index: usize) -> usize {
    let rest = tokens.get(index..).unwrap_or(&[]);
    for (count, token) in rest.iter().enumerate() {
        if let TokenKind::Sign(Sign::Semicolon) = token.kind {
            return count;
        }
    }
    rest.len()
}

/// Whether a local is freed, opened or lent by what begins at an index.
fn takes(tokens: &[Token<'_>], index: usize) -> bool {
    is_freed(tokens, index)
        || matches!(
            kind_at(tokens, index),
            Some(TokenKind::Keyword(Keyword::Region | Keyword::Let))
        )
}

/// Whether a local is freed by what begins at an index.
pub fn is_freed(tokens: &[Token<'_>], index: usize) -> bool {
    matches!(
        kind_at(tokens, index),
        Some(TokenKind::Keyword(Keyword::Ufree | Keyword::FreeUkey))
    )
}

/// The tokens without those from an index on and before the next `;`.
pub fn without_statement<'a>(
    alloc: Global,
    tokens: &[Token<'a>],
    index: usize,
) -> Result<Vec<Token<'a>>, AllocError> {
    let end = index.saturating_add(before_semicolon(tokens, index));
    let mut kept = Vec::new(alloc);
    for (here, token) in tokens.iter().enumerate() {
        if here < index || end <= here {
            kept.push(*token)?;
        }
    }
    Ok(kept)
}

/// The name that a statement or a declaration takes which begins at an index, as its last one: what is freed, opened or lent.
pub fn taken_at<'a>(tokens: &[Token<'a>], index: usize) -> Option<&'a [u8]> {
    if !takes(tokens, index) {
        return None;
    }
    let end = index.saturating_add(before_semicolon(tokens, index));
    let last = match kind_before(tokens, end, 1) {
        Some(TokenKind::Sign(Sign::RightParenthesis)) => end.checked_sub(2)?,
        _ => end.checked_sub(1)?,
    };
    let token = tokens.get(last)?;
    Some(token.text)
}
