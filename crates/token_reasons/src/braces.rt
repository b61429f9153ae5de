// What braces are around, by the token before them.

use crate::seen::{kind_at, kind_before, opener};
use cyc_lexer::{Keyword, Sign, Token, TokenKind};

/// What stands between a brace and the one that closes it.
#[derive(Clone, Copy)]
pub(crate) enum Brace {
    /// How many elements a pointer leads to.
    Bound,
    /// What an array comprehension makes.
    Array,
    /// The regions of an effect.
    Effect,
    /// The region and the name of a new key.
    Key,
    /// The pattern of a clause.
    Pattern,
    /// The members of a struct or union.
    Members,
    /// The clauses of a `switch`.
    Clauses,
    /// Declarations and statements.
    Block,
}

/// What a brace behind `)` begins.
fn behind_parenthesis(tokens: &[Token<'_>], brace: usize) -> Brace {
    let Some(begin) = opener(tokens, brace.saturating_sub(1)) else {
        return Brace::Block;
    };
    match kind_before(tokens, begin, 1) {
        Some(TokenKind::Keyword(Keyword::Switch)) => Brace::Clauses,
        Some(TokenKind::Keyword(Keyword::Rnew)) => Brace::Array,
        _ => Brace::Block,
    }
}

/// What a brace behind `;` begins.
fn behind_semicolon(tokens: &[Token<'_>], brace: usize) -> Brace {
    match opener(tokens, brace) {
        Some(begin) if is_parenthesis(tokens, begin) => Brace::Effect,
        _ => Brace::Block,
    }
}

/// Whether the token of an index is `(`.
pub(crate) fn is_parenthesis(tokens: &[Token<'_>], index: usize) -> bool {
    matches!(
        kind_at(tokens, index),
        Some(TokenKind::Sign(Sign::LeftParenthesis))
    )
}

/// What the brace of an index begins.
pub(crate) fn brace_at(tokens: &[Token<'_>], brace: usize) -> Brace {
    match kind_before(tokens, brace, 1) {
        Some(TokenKind::Keyword(keyword)) => match keyword {
            Keyword::New => Brace::Array,
            Keyword::NewDynamicRegion => Brace::Key,
            Keyword::Case => Brace::Pattern,
            _ => Brace::Block,
        },
        Some(TokenKind::Sign(sign)) => match sign {
            Sign::Star | Sign::At | Sign::NotNull => Brace::Bound,
            Sign::Greater => Brace::Members,
            Sign::RightParenthesis => behind_parenthesis(tokens, brace),
            Sign::Semicolon => behind_semicolon(tokens, brace),
            _ => Brace::Block,
        },
        Some(TokenKind::Identifier) => Brace::Members,
        _ => Brace::Block,
    }
}

/// What the innermost brace begins that is open before an index, where no other bracket is further in.
pub(crate) fn brace_around(tokens: &[Token<'_>], index: usize) -> Option<Brace> {
    let begin = opener(tokens, index)?;
    match kind_at(tokens, begin) {
        Some(TokenKind::Sign(Sign::LeftBrace)) => Some(brace_at(tokens, begin)),
        _ => None,
    }
}

/// Whether `:` stands between the brace that is open before an index and that index, in no other bracket.
pub(crate) fn has_colon(tokens: &[Token<'_>], index: usize) -> bool {
    let Some(begin) = opener(tokens, index) else {
        return false;
    };
    for (here, token) in tokens.iter().enumerate() {
        if begin < here && here < index && matches!(token.kind, TokenKind::Sign(Sign::Colon)) {
            if opener(tokens, here) == Some(begin) {
                return true;
            }
        }
    }
    false
}
