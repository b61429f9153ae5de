// Which tokens declare names.

use crate::brackets::{Bracket, block_end, brace_of, bracket_end, bracket_of, kind_at};
use crate::item_ranges::item_at;
use crate::roles::Role;
use cyc_lexer::{Keyword, Sign, Token, TokenKind};
use token_reasons::{is_declared, kind_before};

/// How many brackets are open before a token of an item.
#[derive(Clone, Copy)]
struct Open {
    braces: usize,
    brackets: usize,
}

/// How many brackets are open before a token of an item.
fn open_before(item: &[Token<'_>], index: usize) -> Open {
    let mut open = Open {
        braces: 0,
        brackets: 0,
    };
    for (here, token) in item.iter().enumerate() {
        if here >= index {
            break;
        }
        match bracket_of(token.kind) {
            Bracket::Opens => open.brackets = open.brackets.saturating_add(1),
            Bracket::Closes => open.brackets = open.brackets.saturating_sub(1),
            Bracket::Neither => {}
        }
        match brace_of(token.kind) {
            Bracket::Opens => open.braces = open.braces.saturating_add(1),
            Bracket::Closes => open.braces = open.braces.saturating_sub(1),
            Bracket::Neither => {}
        }
    }
    open
}

/// The index behind the region parameters that begin at this one; the same one, where there are none.
fn behind_regions(item: &[Token<'_>], index: usize) -> usize {
    if !matches!(kind_at(item, index), Some(TokenKind::Sign(Sign::Less))) {
        return index;
    }
    for (here, token) in item.iter().enumerate() {
        if here > index {
            match token.kind {
                TokenKind::Region | TokenKind::Sign(Sign::Comma) => {}
                TokenKind::Sign(Sign::Greater) => return here.saturating_add(1),
                _ => return here,
            }
        }
    }
    item.len()
}

/// What an item's tag is that the token of an index declares: its members follow.
fn tag_role(item: &[Token<'_>], index: usize) -> Option<Role> {
    let role = match kind_before(item, index, 1)? {
        TokenKind::Keyword(Keyword::Struct) => Role::Struct,
        TokenKind::Keyword(Keyword::Union) => Role::Union,
        _ => return None,
    };
    let body = behind_regions(item, index.saturating_add(1));
    match kind_at(item, body) {
        Some(TokenKind::Sign(Sign::LeftBrace)) if index <= 2 => Some(role),
        _ => None,
    }
}

/// Whether an item is a struct or a union.
pub(crate) fn is_struct(item: &[Token<'_>]) -> bool {
    tag_role(item, 1).is_some() || tag_role(item, 2).is_some()
}

/// What a name is declared as that stands behind its type.
fn typed_role(item: &[Token<'_>], index: usize) -> Role {
    let open = open_before(item, index);
    if open.brackets == 0 {
        return match kind_at(item, index.saturating_add(1)) {
            Some(TokenKind::Sign(Sign::LeftParenthesis)) => Role::Function,
            _ => Role::Global,
        };
    }
    if open.braces == 0 {
        return Role::Parameter;
    }
    if is_struct(item) {
        Role::Member
    } else {
        Role::Local
    }
}

/// Whether the token of an index is the name that a clause of a switch binds.
fn is_bound(item: &[Token<'_>], index: usize) -> bool {
    matches!(
        kind_before(item, index, 1),
        Some(TokenKind::Sign(Sign::Assign))
    ) && matches!(
        kind_before(item, index, 3),
        Some(TokenKind::Sign(Sign::Dot))
    ) && matches!(
        kind_before(item, index, 5),
        Some(TokenKind::Keyword(Keyword::Case))
    )
}

/// Whether the token of an index is the index of an array that is made.
fn is_counter(item: &[Token<'_>], index: usize) -> bool {
    matches!(
        kind_before(item, index, 1),
        Some(TokenKind::Keyword(Keyword::For))
    )
}

/// Whether the region of an index is declared by a statement.
pub(crate) fn is_opened(item: &[Token<'_>], index: usize) -> bool {
    if !matches!(
        kind_before(item, index, 1),
        Some(TokenKind::Sign(Sign::Less))
    ) {
        return false;
    }
    match kind_before(item, index, 2) {
        Some(TokenKind::Keyword(Keyword::Region | Keyword::Alias)) => true,
        Some(TokenKind::Sign(Sign::LeftBrace)) => matches!(
            kind_before(item, index, 3),
            Some(TokenKind::Keyword(Keyword::NewDynamicRegion))
        ),
        _ => false,
    }
}

/// What the identifier of an index is declared as, where it is.
fn identifier_role(item: &[Token<'_>], index: usize) -> Option<Role> {
    if is_declared(item, index) {
        return Some(typed_role(item, index));
    }
    if is_bound(item, index) || is_counter(item, index) {
        return Some(Role::Local);
    }
    tag_role(item, index)
}

/// What the token of an index declares in its item.
pub(crate) fn role_in(item: &[Token<'_>], index: usize) -> Option<Role> {
    match kind_at(item, index)? {
        TokenKind::Identifier => identifier_role(item, index),
        TokenKind::Region if is_opened(item, index) => Some(Role::Region),
        _ => None,
    }
}

/// What the token of an index declares. Region parameters are not told, which need no declaration.
pub fn role_of(tokens: &[Token<'_>], index: usize) -> Option<Role> {
    let range = item_at(tokens, index);
    role_in(range.of(tokens), index.checked_sub(range.begin)?)
}

/// Where what a token of an item declares begins to be visible: behind its initializer, where it has one.
fn visible_from(item: &[Token<'_>], index: usize) -> usize {
    let next = kind_at(item, index.saturating_add(1));
    if !matches!(next, Some(TokenKind::Sign(Sign::Assign))) {
        return index;
    }
    for (here, token) in item.iter().enumerate() {
        if here > index {
            if let TokenKind::Sign(Sign::Semicolon) = token.kind {
                return here;
            }
        }
    }
    item.len()
}

/// Where it ends to be visible. A parameter is visible in the body behind its list.
fn visible_to(item: &[Token<'_>], index: usize, role: Role) -> usize {
    match role {
        Role::Parameter => {
            let list = bracket_end(item, index);
            block_end(item, list.saturating_add(2))
        }
        _ => block_end(item, index),
    }
}

/// Whether what a token of an item declares in a block is visible at another one.
pub(crate) fn is_visible(item: &[Token<'_>], declaration: usize, at: usize) -> bool {
    match role_in(item, declaration) {
        Some(role) if !role.is_of_text() => {
            visible_from(item, declaration) <= at && at <= visible_to(item, declaration, role)
        }
        _ => false,
    }
}
