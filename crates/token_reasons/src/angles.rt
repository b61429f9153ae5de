// What could stand after `<` and `>`.

use crate::follow::{DECLARATOR, EXPRESSION, REGION};
use crate::seen::{kind_before, opener};
use cyc_lexer::{Keyword, Sign, Token, TokenKind};

/// Whether a token of this kind begins a type with a tag.
fn begins_tagged(kind: Option<TokenKind>) -> bool {
    matches!(
        kind,
        Some(TokenKind::Keyword(Keyword::Struct | Keyword::Union))
    )
}

/// Whether regions begin behind the `<` before an index.
fn begins_regions(tokens: &[Token<'_>], index: usize) -> bool {
    match kind_before(tokens, index, 2) {
        Some(TokenKind::Keyword(keyword)) => matches!(
            keyword,
            Keyword::Region | Keyword::RegionT | Keyword::UregionKeyT | Keyword::Alias
        ),
        Some(TokenKind::Sign(Sign::LeftBrace)) => true,
        Some(TokenKind::Identifier) => begins_tagged(kind_before(tokens, index, 3)),
        _ => false,
    }
}

/// What may stand after `<`.
pub(crate) fn after_less(tokens: &[Token<'_>], index: usize) -> &'static str {
    if begins_regions(tokens, index) {
        REGION
    } else {
        EXPRESSION
    }
}

/// How many tokens before an index the `<` stands of the regions that end before it; none, where these aren't between angles.
pub(crate) fn regions_begin(tokens: &[Token<'_>], index: usize) -> Option<usize> {
    for count in 2..index.saturating_add(1) {
        match kind_before(tokens, index, count) {
            Some(TokenKind::Region | TokenKind::Sign(Sign::Comma)) => {}
            Some(TokenKind::Sign(Sign::Less)) => return Some(count),
            _ => return None,
        }
    }
    None
}

/// What may stand behind the regions of a tag, which stands a distance before an index.
fn behind_tag(tokens: &[Token<'_>], index: usize, count: usize) -> &'static str {
    match kind_before(tokens, index, count.saturating_add(2)) {
        Some(TokenKind::Sign(Sign::Tagged)) => "`{`",
        _ => match opener(tokens, index) {
            None => "the sign of a pointer, a name or `{`",
            Some(_) => DECLARATOR,
        },
    }
}

/// What may stand behind regions between angles, which begin a distance before an index.
fn behind_regions(tokens: &[Token<'_>], index: usize, count: usize) -> &'static str {
    let before = count.saturating_add(1);
    match kind_before(tokens, index, before) {
        Some(TokenKind::Keyword(Keyword::Region)) => "a name",
        Some(TokenKind::Sign(Sign::LeftBrace)) => "a name",
        Some(TokenKind::Keyword(Keyword::Alias)) => "a type",
        Some(TokenKind::Identifier) => behind_tag(tokens, index, before),
        _ => DECLARATOR,
    }
}

/// What may stand after `>`.
pub(crate) fn after_greater(tokens: &[Token<'_>], index: usize) -> &'static str {
    let Some(TokenKind::Region) = kind_before(tokens, index, 2) else {
        return EXPRESSION;
    };
    match regions_begin(tokens, index) {
        Some(count) => behind_regions(tokens, index, count),
        None => REGION,
    }
}
