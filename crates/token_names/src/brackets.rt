// Brackets among tokens.

use cyc_lexer::{Sign, Token, TokenKind};
use std::alloc::{AllocError, Global};

/// What the token of an index is.
pub(crate) fn kind_at(tokens: &[Token<'_>], index: usize) -> Option<TokenKind> {
    match tokens.get(index) {
        Some(token) => Some(token.kind),
        None => None,
    }
}

/// What a token does to brackets.
#[derive(Clone, Copy)]
pub(crate) enum Bracket {
    Opens,
    Closes,
    Neither,
}

/// What a token does to brackets of all kinds.
pub(crate) fn bracket_of(kind: TokenKind) -> Bracket {
    match kind {
        TokenKind::Sign(Sign::LeftBrace | Sign::LeftParenthesis | Sign::LeftBracket) => {
            Bracket::Opens
        }
        TokenKind::Sign(Sign::RightBrace | Sign::RightParenthesis | Sign::RightBracket) => {
            Bracket::Closes
        }
        _ => Bracket::Neither,
    }
}

/// What a token does to braces.
pub(crate) fn brace_of(kind: TokenKind) -> Bracket {
    match kind {
        TokenKind::Sign(Sign::LeftBrace) => Bracket::Opens,
        TokenKind::Sign(Sign::RightBrace) => Bracket::Closes,
        _ => Bracket::Neither,
    }
}

/// The index of the brace that closes the block around an index; how many tokens there are, where there is none.
pub(crate) fn block_end(tokens: &[Token<'_>], from: usize) -> usize {
    let mut open = 0usize;
    for (index, token) in tokens.iter().enumerate() {
        if index >= from {
            match brace_of(token.kind) {
                Bracket::Opens => open = open.saturating_add(1),
                Bracket::Closes if open == 0 => return index,
                Bracket::Closes => open = open.saturating_sub(1),
                Bracket::Neither => {}
            }
        }
    }
    tokens.len()
}

/// The index of the bracket that closes what is open at an index; how many tokens there are, where there is none.
pub(crate) fn bracket_end(tokens: &[Token<'_>], from: usize) -> usize {
    let mut open = 0usize;
    for (index, token) in tokens.iter().enumerate() {
        if index >= from {
            match bracket_of(token.kind) {
                Bracket::Opens => open = open.saturating_add(1),
                Bracket::Closes if open == 0 => return index,
                Bracket::Closes => open = open.saturating_sub(1),
                Bracket::Neither => {}
            }
        }
    }
    tokens.len()
}

/// The index of the innermost bracket that is open before an index.
pub(crate) fn opener(tokens: &[Token<'_>], index: usize) -> Option<usize> {
    let mut closed = 0usize;
    for count in 0..index {
        let here = index - 1 - count;
        match bracket_of(kind_at(tokens, here)?) {
            Bracket::Closes => closed = closed.saturating_add(1),
            Bracket::Opens if closed == 0 => return Some(here),
            Bracket::Opens => closed = closed.saturating_sub(1),
            Bracket::Neither => {}
        }
    }
    None
}

/// A block: the offsets of its braces.
#[derive(Clone, Copy)]
pub struct Fold {
    pub open: u32,
    pub close: u32,
}

/// The blocks of a text, in the order of their ends. Fails only where no host memory is left.
pub fn folds(alloc: Global, tokens: &[Token<'_>]) -> Result<Vec<Fold>, AllocError> {
    let mut open = Vec::new(alloc);
    let mut folds = Vec::new(alloc);
    for token in tokens {
        match brace_of(token.kind) {
            Bracket::Opens => open.push(token.at)?,
            Bracket::Closes => {
                if let Some(begin) = open.pop() {
                    folds.push(Fold {
                        open: begin,
                        close: token.at,
                    })?;
                }
            }
            Bracket::Neither => {}
        }
    }
    Ok(folds)
}
