// From a name to its declaration, and to its uses.

use crate::brackets::kind_at;
use crate::declared::{is_visible, role_in};
use crate::item_ranges::{ItemRange, item_at, item_end, name_in};
use crate::member_names::member_declaration;
use cyc_lexer::{Keyword, Sign, Token, TokenKind};
use std::alloc::{AllocError, Global};
use token_reasons::kind_before;

/// The last declaration of a name of a block in an item that is visible at an index of it.
fn block_declaration(item: &[Token<'_>], at: usize, name: &[u8]) -> Option<usize> {
    let mut found = None;
    for (here, token) in item.iter().enumerate() {
        if here < at && token.text == name && is_visible(item, here, at) {
            if let Some(role) = role_in(item, here) {
                if role.is_of_block() {
                    found = Some(here);
                }
            }
        }
    }
    found
}

/// The declaration of a name that the whole text sees.
pub(crate) fn text_declaration(tokens: &[Token<'_>], name: &[u8]) -> Option<usize> {
    let mut range = ItemRange { begin: 0, end: 0 };
    for _ in tokens {
        range = ItemRange {
            begin: range.end,
            end: item_end(tokens, range.end),
        };
        if let Some(index) = name_in(tokens, range) {
            if let Some(token) = tokens.get(index) {
                if token.text == name {
                    return Some(index);
                }
            }
        }
        if range.end >= tokens.len() {
            break;
        }
    }
    None
}

/// The declaration of a name that is a value, or a tag that makes one, at an index.
pub(crate) fn value_declaration(tokens: &[Token<'_>], index: usize, name: &[u8]) -> Option<usize> {
    let range = item_at(tokens, index);
    let at = index.saturating_sub(range.begin);
    match block_declaration(range.of(tokens), at, name) {
        Some(here) => Some(range.begin.saturating_add(here)),
        None => text_declaration(tokens, name),
    }
}

/// The declaration of a region in an item: the last statement that opens it where it is visible, and else the first token in the item.
fn region_in(item: &[Token<'_>], at: usize, name: &[u8]) -> Option<usize> {
    let mut first = None;
    let mut found = None;
    for (here, token) in item.iter().enumerate() {
        if here <= at && token.text == name {
            if first.is_none() {
                first = Some(here);
            }
            if is_visible(item, here, at) {
                found = Some(here);
            }
        }
    }
    if found.is_some() { found } else { first }
}

/// The declaration of a region; none of those that are always there.
fn region_declaration(tokens: &[Token<'_>], index: usize, name: &[u8]) -> Option<usize> {
    if name == b"`H".as_slice() || name == b"`U".as_slice() {
        return None;
    }
    let range = item_at(tokens, index);
    let at = index.saturating_sub(range.begin);
    let here = region_in(range.of(tokens), at, name)?;
    Some(range.begin.saturating_add(here))
}

/// The declaration of an identifier, by what stands before it.
fn identifier_declaration(tokens: &[Token<'_>], index: usize, name: &[u8]) -> Option<usize> {
    match kind_before(tokens, index, 1) {
        Some(TokenKind::Sign(Sign::Dot | Sign::Arrow)) => member_declaration(tokens, index, name),
        Some(TokenKind::Keyword(Keyword::Struct | Keyword::Union)) => {
            text_declaration(tokens, name)
        }
        _ => value_declaration(tokens, index, name),
    }
}

/// The index of the token that declares the name at an index; that itself, where it declares it.
pub fn declaration_of(tokens: &[Token<'_>], index: usize) -> Option<usize> {
    let token = tokens.get(index)?;
    let range = item_at(tokens, index);
    if role_in(range.of(tokens), index.saturating_sub(range.begin)).is_some() {
        return Some(index);
    }
    match token.kind {
        TokenKind::Identifier => identifier_declaration(tokens, index, token.text),
        TokenKind::Region => region_declaration(tokens, index, token.text),
        _ => None,
    }
}

/// The indexes of the tokens that name what a token declares, with its own. Fails only where no host memory is left.
pub fn uses_of(
    alloc: Global,
    tokens: &[Token<'_>],
    declaration: usize,
) -> Result<Vec<usize>, AllocError> {
    let mut uses = Vec::new(alloc);
    let Some(declared) = tokens.get(declaration) else {
        return Ok(uses);
    };
    for (index, token) in tokens.iter().enumerate() {
        if token.text == declared.text && declaration_of(tokens, index) == Some(declaration) {
            uses.push(index)?;
        }
    }
    Ok(uses)
}
