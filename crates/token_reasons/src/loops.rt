// The loops that are around a token.

use crate::seen::kind_at;
use cyc_lexer::{Keyword, Sign, Token, TokenKind};

/// How many brackets are open behind a token, where so many are before it.
fn depth_behind(kind: TokenKind, depth: usize) -> usize {
    match kind {
        TokenKind::Sign(Sign::LeftBrace | Sign::LeftParenthesis | Sign::LeftBracket) => {
            depth.saturating_add(1)
        }
        TokenKind::Sign(Sign::RightBrace | Sign::RightParenthesis | Sign::RightBracket) => {
            depth.saturating_sub(1)
        }
        _ => depth,
    }
}

/// The index behind the bracket that closes the one of an index.
fn behind_brackets(tokens: &[Token<'_>], index: usize) -> usize {
    let mut depth = 0usize;
    let rest = tokens.get(index..).unwrap_or(&[]);
    for (count, token) in rest.iter().enumerate() {
        depth = depth_behind(token.kind, depth);
        if depth == 0 {
            return index.saturating_add(count).saturating_add(1);
        }
    }
    tokens.len()
}

/// The index behind the `;` that ends a statement which an index is in.
fn behind_semicolon(tokens: &[Token<'_>], index: usize) -> usize {
    let mut depth = 0usize;
    let rest = tokens.get(index..).unwrap_or(&[]);
    for (count, token) in rest.iter().enumerate() {
        depth = depth_behind(token.kind, depth);
        if depth == 0 && matches!(token.kind, TokenKind::Sign(Sign::Semicolon)) {
            return index.saturating_add(count).saturating_add(1);
        }
    }
    tokens.len()
}

/// How far a statement is gone over: an index in it, how many `if` may have an `else` there, and whether a statement in it ends there.
#[derive(Clone, Copy)]
struct Passed {
    index: usize,
    ifs: usize,
    is_end: bool,
}

/// Goes on over a part of a statement: the head of an `if`, `while` or `switch`, or what ends it.
fn passed_part(tokens: &[Token<'_>], at: Passed) -> Passed {
    let next = at.index.saturating_add(1);
    match kind_at(tokens, at.index) {
        Some(TokenKind::Keyword(Keyword::If)) => Passed {
            index: behind_brackets(tokens, next),
            ifs: at.ifs.saturating_add(1),
            is_end: false,
        },
        Some(TokenKind::Keyword(Keyword::While | Keyword::Switch)) => Passed {
            index: behind_brackets(tokens, next),
            is_end: false,
            ..at
        },
        Some(TokenKind::Sign(Sign::LeftBrace)) => Passed {
            index: behind_brackets(tokens, at.index),
            is_end: true,
            ..at
        },
        _ => Passed {
            index: behind_semicolon(tokens, at.index),
            is_end: true,
            ..at
        },
    }
}

/// Goes on over an `else` where a statement ends, if it belongs to an `if` that was passed.
fn passed_else(tokens: &[Token<'_>], at: Passed) -> Passed {
    match kind_at(tokens, at.index) {
        Some(TokenKind::Keyword(Keyword::Else)) if at.is_end && at.ifs > 0 => Passed {
            index: at.index.saturating_add(1),
            ifs: at.ifs.saturating_sub(1),
            is_end: false,
        },
        _ => at,
    }
}

/// The index behind the statement that begins at an index.
fn statement_end(tokens: &[Token<'_>], begin: usize) -> usize {
    let mut at = Passed {
        index: begin,
        ifs: 0,
        is_end: false,
    };
    for _ in begin..tokens.len() {
        at = passed_else(tokens, passed_part(tokens, at));
        if at.is_end {
            return at.index;
        }
    }
    tokens.len()
}

/// The index behind the loop that begins at an index, where one does.
fn loop_end(tokens: &[Token<'_>], begin: usize) -> Option<usize> {
    match kind_at(tokens, begin) {
        Some(TokenKind::Keyword(Keyword::While)) => Some(statement_end(tokens, begin)),
        Some(TokenKind::Keyword(Keyword::For)) => {
            Some(behind_brackets(tokens, begin.saturating_sub(1)))
        }
        _ => None,
    }
}

/// The index behind the outermost loop that an index is in, of those that begin at or behind another index.
pub(crate) fn end_of_loop(tokens: &[Token<'_>], from: usize, index: usize) -> Option<usize> {
    for begin in from..index {
        match loop_end(tokens, begin) {
            Some(end) if index < end => return Some(end),
            _ => {}
        }
    }
    None
}
