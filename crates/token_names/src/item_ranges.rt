// The items of a text: structs, unions, globals and functions.

use crate::brackets::{Bracket, bracket_of, kind_at};
use crate::declared::role_in;
use cyc_lexer::{Sign, Token, TokenKind};
use std::alloc::{AllocError, Global};

/// The tokens of an item: the index of the first one, and the one behind the last.
#[derive(Clone, Copy)]
pub struct ItemRange {
    pub begin: usize,
    pub end: usize,
}

impl ItemRange {
    /// The tokens.
    pub(crate) fn of<'t, 'a>(self, tokens: &'t [Token<'a>]) -> &'t [Token<'a>] {
        tokens.get(self.begin..self.end).unwrap_or(tokens)
    }
}

/// Whether an item ends with a token, behind which so many brackets are open.
fn is_last(tokens: &[Token<'_>], index: usize, open: usize) -> bool {
    if open > 0 {
        return false;
    }
    match kind_at(tokens, index) {
        Some(TokenKind::Sign(Sign::Semicolon)) => true,
        Some(TokenKind::Sign(Sign::RightBrace)) => !matches!(
            kind_at(tokens, index.saturating_add(1)),
            Some(TokenKind::Sign(Sign::Semicolon))
        ),
        _ => false,
    }
}

/// How many brackets are open behind a token, before which so many are.
fn open_behind(tokens: &[Token<'_>], index: usize, open: usize) -> usize {
    match kind_at(tokens, index) {
        Some(kind) => match bracket_of(kind) {
            Bracket::Opens => open.saturating_add(1),
            Bracket::Closes => open.saturating_sub(1),
            Bracket::Neither => open,
        },
        None => open,
    }
}

/// The index behind the item that begins at this one.
pub(crate) fn item_end(tokens: &[Token<'_>], begin: usize) -> usize {
    let mut open = 0usize;
    for index in begin..tokens.len() {
        open = open_behind(tokens, index, open);
        if is_last(tokens, index, open) {
            return index.saturating_add(1);
        }
    }
    tokens.len()
}

/// The item with the token of an index; behind the last token the last item.
pub fn item_at(tokens: &[Token<'_>], index: usize) -> ItemRange {
    let mut range = ItemRange { begin: 0, end: 0 };
    for _ in tokens {
        range = ItemRange {
            begin: range.end,
            end: item_end(tokens, range.end),
        };
        if index < range.end || range.end >= tokens.len() {
            return range;
        }
    }
    range
}

/// The index in the text of the name that an item declares.
pub fn name_in(tokens: &[Token<'_>], range: ItemRange) -> Option<usize> {
    let item = range.of(tokens);
    for (index, _token) in item.iter().enumerate() {
        if let Some(role) = role_in(item, index) {
            if role.is_of_text() {
                return Some(range.begin.saturating_add(index));
            }
        }
    }
    None
}

/// The items of a text. Fails only where no host memory is left.
pub fn items(alloc: Global, tokens: &[Token<'_>]) -> Result<Vec<ItemRange>, AllocError> {
    let mut items = Vec::new(alloc);
    let mut begin = 0usize;
    for _ in tokens {
        if begin >= tokens.len() {
            break;
        }
        let end = item_end(tokens, begin);
        items.push(ItemRange { begin, end })?;
        begin = end;
    }
    Ok(items)
}
