// Where locals are given away and lent.

use crate::bodies::body_at;
use crate::loops::end_of_loop;
use crate::seen::{index_at, kind_at, kind_before};
use cyc_lexer::{Keyword, Sign, Token, TokenKind};

/// Whether a value may end before a token of this kind that is used as a whole.
fn ends_value(kind: Option<TokenKind>) -> bool {
    matches!(
        kind,
        Some(TokenKind::Sign(
            Sign::RightParenthesis | Sign::Comma | Sign::Semicolon | Sign::Exchange
        ))
    )
}

/// Whether what stands in parentheses behind a token of this kind is looked at alone.
fn looks(kind: Option<TokenKind>) -> bool {
    matches!(
        kind,
        Some(TokenKind::Keyword(
            Keyword::If | Keyword::While | Keyword::Switch | Keyword::Numelts | Keyword::Open
        ))
    )
}

/// Whether a value that is used as a whole may begin at an index.
fn begins_value(tokens: &[Token<'_>], index: usize) -> bool {
    match kind_before(tokens, index, 1) {
        Some(TokenKind::Sign(Sign::LeftParenthesis)) => !looks(kind_before(tokens, index, 2)),
        Some(TokenKind::Sign(sign)) => matches!(
            sign,
            Sign::Assign
                | Sign::Comma
                | Sign::Semicolon
                | Sign::LeftBrace
                | Sign::RightBrace
                | Sign::RightParenthesis
                | Sign::Colon
                | Sign::Exchange
        ),
        Some(TokenKind::Keyword(keyword)) => {
            matches!(keyword, Keyword::Return | Keyword::New | Keyword::Else)
        }
        _ => false,
    }
}

/// Whether the name of an index is used as a whole value.
fn is_given(tokens: &[Token<'_>], index: usize) -> bool {
    begins_value(tokens, index) && ends_value(kind_at(tokens, index.saturating_add(1)))
}

/// The most tokens that are looked at between an alias and its pointer.
const ALIAS_TOKENS: usize = 64;

/// Whether the declaration of an alias is around an index.
pub(crate) fn is_in_alias(tokens: &[Token<'_>], index: usize) -> bool {
    for count in 1..ALIAS_TOKENS {
        match kind_before(tokens, index, count) {
            Some(TokenKind::Keyword(Keyword::Alias)) => return true,
            Some(TokenKind::Sign(Sign::Semicolon | Sign::LeftBrace | Sign::RightBrace)) =>
                return false,
            _ => {}
        }
    }
    false
}

/// Whether the name of an index is lent there: to an alias, or to a region that is opened.
fn is_lent(tokens: &[Token<'_>], index: usize) -> bool {
    match kind_before(tokens, index, 1) {
        Some(TokenKind::Sign(Sign::Assign)) => is_in_alias(tokens, index),
        Some(TokenKind::Sign(Sign::LeftParenthesis)) => matches!(
            kind_before(tokens, index, 2),
            Some(TokenKind::Keyword(Keyword::Open))
        ),
        _ => false,
    }
}

/// What is done to a local.
#[derive(Clone, Copy)]
enum Act {
    Give,
    Lend,
}

impl Act {
    /// Whether it is done to the name of an index.
    fn is_at(self, tokens: &[Token<'_>], index: usize) -> bool {
        match self {
            Act::Give => is_given(tokens, index) && !is_lent(tokens, index),
            Act::Lend => is_lent(tokens, index),
        }
    }
}

/// The last index from one up to another where it is done to a name, by its offset.
fn last_between(
    tokens: &[Token<'_>],
    begin: usize,
    end: usize,
    name: &[u8],
    act: Act,
) -> Option<u32> {
    let mut found = None;
    for (index, token) in tokens.iter().enumerate() {
        let is_between = begin <= index && index < end;
        if is_between && token.text == name && act.is_at(tokens, index) {
            found = Some(token.at);
        }
    }
    found
}

/// Where it was done last to the local at an offset, in the text of its function before that.
fn done_before(tokens: &[Token<'_>], at: u32, act: Act) -> Option<u32> {
    let index = index_at(tokens, at);
    match (tokens.get(index), body_at(tokens, at)) {
        (Some(token), Some(body)) => last_between(tokens, body.open, index, token.text, act),
        _ => None,
    }
}

/// Where the local at an offset was given away, in the text of its function before that.
pub fn given_away(tokens: &[Token<'_>], at: u32) -> Option<u32> {
    done_before(tokens, at, Act::Give)
}

/// Where the local at an offset was lent, in the text of its function before that.
pub fn lent(tokens: &[Token<'_>], at: u32) -> Option<u32> {
    done_before(tokens, at, Act::Lend)
}

/// Where the local at an offset is given away at that offset or behind it, within a loop of its function that is around it.
pub fn given_later(tokens: &[Token<'_>], at: u32) -> Option<u32> {
    let index = index_at(tokens, at);
    let token = tokens.get(index)?;
    let body = body_at(tokens, at)?;
    let end = end_of_loop(tokens, body.open, index)?;
    last_between(tokens, index, end, token.text, Act::Give)
}
