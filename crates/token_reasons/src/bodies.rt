// The bodies of functions among tokens.

use crate::seen::kind_before;
use cyc_lexer::{Sign, Token, TokenKind};
use std::alloc::{AllocError, Global};

/// The body of a function: the indexes of its braces.
#[derive(Clone, Copy)]
pub struct Body {
    pub open: usize,
    pub close: usize,
}

/// How many braces are open, and where the function's body begins that is around.
#[derive(Clone, Copy)]
struct Braces {
    open: usize,
    begun: Option<usize>,
}

/// No brace is open.
const NO_BRACES: Braces = Braces {
    open: 0,
    begun: None,
};

impl Braces {
    /// The same with one more that is open.
    fn opened(self, tokens: &[Token<'_>], index: usize) -> Braces {
        let ends_head = matches!(
            kind_before(tokens, index, 1),
            Some(TokenKind::Sign(Sign::RightParenthesis))
        );
        let begun = if self.open > 0 {
            self.begun
        } else if ends_head {
            Some(index)
        } else {
            None
        };
        Braces {
            open: self.open.saturating_add(1),
            begun,
        }
    }

    /// The same with one less.
    fn closed(self) -> Braces {
        let open = self.open.saturating_sub(1);
        Braces {
            open,
            begun: if open > 0 { self.begun } else { None },
        }
    }
}

/// The braces behind a token, where these are before it.
fn behind(tokens: &[Token<'_>], index: usize, kind: TokenKind, before: Braces) -> Braces {
    match kind {
        TokenKind::Sign(Sign::LeftBrace) => before.opened(tokens, index),
        TokenKind::Sign(Sign::RightBrace) => before.closed(),
        _ => before,
    }
}

/// Whether an offset is in a body, or at its closing brace.
fn has(tokens: &[Token<'_>], body: Body, at: u32) -> bool {
    match (tokens.get(body.open), tokens.get(body.close)) {
        (Some(open), Some(close)) => open.at < at && at <= close.at,
        _ => false,
    }
}

/// The function's body that has this offset.
pub fn body_at(tokens: &[Token<'_>], at: u32) -> Option<Body> {
    let mut braces = NO_BRACES;
    for (index, token) in tokens.iter().enumerate() {
        let before = braces;
        braces = behind(tokens, index, token.kind, before);
        if let (Some(open), None) = (before.begun, braces.begun) {
            let body = Body { open, close: index };
            if has(tokens, body, at) {
                return Some(body);
            }
        }
    }
    None
}

/// The tokens without those of a body, of which the braces stay. Fails only where no host memory is left, as all of these.
pub fn emptied<'a>(
    alloc: Global,
    tokens: &[Token<'a>],
    body: Body,
) -> Result<Vec<Token<'a>>, AllocError> {
    let mut kept = Vec::new(alloc);
    for (index, token) in tokens.iter().enumerate() {
        if index <= body.open || body.close <= index {
            kept.push(*token)?;
        }
    }
    Ok(kept)
}

/// The tokens without those of a body and of all bodies before it.
pub fn emptied_up_to<'a>(
    alloc: Global,
    tokens: &[Token<'a>],
    body: Body,
) -> Result<Vec<Token<'a>>, AllocError> {
    let mut kept = Vec::new(alloc);
    let mut braces = NO_BRACES;
    for (index, token) in tokens.iter().enumerate() {
        let before = braces;
        braces = behind(tokens, index, token.kind, before);
        let is_inside = before.begun.is_some() && braces.begun.is_some();
        if !is_inside || body.close < index {
            kept.push(*token)?;
        }
    }
    Ok(kept)
}

/// The tokens without those of all bodies behind one.
pub fn emptied_behind<'a>(
    alloc: Global,
    tokens: &[Token<'a>],
    body: Body,
) -> Result<Vec<Token<'a>>, AllocError> {
    let mut kept = Vec::new(alloc);
    let mut braces = NO_BRACES;
    for (index, token) in tokens.iter().enumerate() {
        let before = braces;
        braces = behind(tokens, index, token.kind, before);
        let is_inside = before.begun.is_some() && braces.begun.is_some();
        if !is_inside || index <= body.close {
            kept.push(*token)?;
        }
    }
    Ok(kept)
}

/// How many tokens are in no body.
pub fn count_outside(tokens: &[Token<'_>]) -> usize {
    let mut count = 0usize;
    let mut braces = NO_BRACES;
    for (index, token) in tokens.iter().enumerate() {
        braces = behind(tokens, index, token.kind, braces);
        if braces.begun.is_none() {
            count = count.saturating_add(1);
        }
    }
    count
}

/// The last of the first bodies that have together so many tokens at most, or the first body, where that has more; bodies without tokens aren't counted.
pub fn body_within(tokens: &[Token<'_>], most: usize) -> Option<Body> {
    let mut found = None;
    let mut taken = 0usize;
    let mut braces = NO_BRACES;
    for (index, token) in tokens.iter().enumerate() {
        let before = braces;
        braces = behind(tokens, index, token.kind, before);
        if let (Some(open), None) = (before.begun, braces.begun) {
            let length = index.saturating_sub(open).saturating_sub(1);
            taken = taken.saturating_add(length);
            if length > 0 && (taken <= most || found.is_none()) {
                found = Some(Body { open, close: index });
            }
        }
    }
    found
}

/// Whether an offset is the one of a number among some.
fn is_next(closes: &[u32], number: usize, at: u32) -> bool {
    match closes.get(number) {
        Some(close) => *close == at,
        None => false,
    }
}

/// The bodies whose closing braces are at these offsets, which ascend.
fn bodies_of(alloc: Global, tokens: &[Token<'_>], closes: &[u32]) -> Result<Vec<Body>, AllocError> {
    let mut found = Vec::new(alloc);
    let mut braces = NO_BRACES;
    for (index, token) in tokens.iter().enumerate() {
        let before = braces;
        braces = behind(tokens, index, token.kind, before);
        if let (Some(open), None) = (before.begun, braces.begun) {
            if is_next(closes, found.len(), token.at) {
                found.push(Body { open, close: index })?;
            }
        }
    }
    Ok(found)
}

/// The tokens without those of some bodies, whose closing braces are at these offsets, which ascend.
pub fn emptied_all<'a>(
    alloc: Global,
    tokens: &[Token<'a>],
    closes: &[u32],
) -> Result<Vec<Token<'a>>, AllocError> {
    let bodies = bodies_of(alloc, tokens, closes)?;
    let mut kept = Vec::new(alloc);
    let mut passed = 0usize;
    for (index, token) in tokens.iter().enumerate() {
        match bodies.get(passed) {
            Some(body) if body.open < index && index < body.close => {}
            Some(body) => {
                if index == body.close {
                    passed = passed.saturating_add(1);
                }
                kept.push(*token)?;
            }
            None => kept.push(*token)?,
        }
    }
    Ok(kept)
}
