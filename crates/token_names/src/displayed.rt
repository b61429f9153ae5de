// How a declaration is shown.

use crate::brackets::{bracket_end, kind_at};
use crate::declared::role_of;
use crate::item_ranges::item_at;
use crate::resolved::declaration_of;
use crate::roles::Role;
use cyc_lexer::{Sign, Token, TokenKind};
use token_reasons::kind_before;

/// How many tokens a type has at most.
const LONGEST_TYPE: usize = 64;

/// A declaration: what it declares, and the offsets between which the text has it.
#[derive(Clone, Copy)]
pub struct Declaration {
    pub role: Role,
    pub begin: u32,
    pub end: u32,
}

/// The offset behind a token.
fn end_of(tokens: &[Token<'_>], index: usize) -> u32 {
    match tokens.get(index) {
        Some(token) => {
            let length = u32::try_from(token.text.len()).unwrap_or(u32::MAX);
            token.at.saturating_add(length)
        }
        None => u32::MAX,
    }
}

/// Whether the token before an index can't be part of the declaration that goes on there.
fn begins(tokens: &[Token<'_>], index: usize) -> bool {
    match kind_before(tokens, index, 1) {
        Some(TokenKind::Sign(Sign::Comma)) => {
            !matches!(kind_before(tokens, index, 2), Some(TokenKind::Region))
        }
        Some(
            TokenKind::Sign(
                Sign::Semicolon
                | Sign::LeftBrace
                | Sign::RightBrace
                | Sign::LeftParenthesis
                | Sign::Colon,
            ),
        ) => true,
        Some(_) => false,
        None => true,
    }
}

/// Where the declaration begins whose name stands at an index.
fn first_of(tokens: &[Token<'_>], index: usize) -> usize {
    for count in 0..LONGEST_TYPE {
        let here = index.saturating_sub(count);
        if begins(tokens, here) {
            return here;
        }
    }
    index
}

/// The last token of the declaration whose name stands at an index: behind a function's the list of its parameters, of an array the length,
/// and of a struct all of it.
fn last_of(tokens: &[Token<'_>], index: usize, role: Role) -> usize {
    match role {
        Role::Struct | Role::Union => item_at(tokens, index).end.saturating_sub(1),
        Role::Function => bracket_end(tokens, index.saturating_add(2)),
        _ => match kind_at(tokens, index.saturating_add(1)) {
            Some(TokenKind::Sign(Sign::LeftBracket)) => {
                bracket_end(tokens, index.saturating_add(2))
            }
            _ => index,
        },
    }
}

/// The declaration of the name at an index, as it is shown: none of a name that nothing declares.
pub fn shown(tokens: &[Token<'_>], index: usize) -> Option<Declaration> {
    let declaration = declaration_of(tokens, index)?;
    let first = tokens.get(first_of(tokens, declaration))?;
    let role = role_of(tokens, declaration).unwrap_or(Role::Region);
    let begin = match role {
        Role::Region => tokens.get(declaration)?.at,
        _ => first.at,
    };
    Some(Declaration {
        role,
        begin,
        end: end_of(tokens, last_of(tokens, declaration, role)),
    })
}
