// The names that may stand somewhere.

use crate::declared::{is_opened, is_visible, role_in};
use crate::item_ranges::{item_at, items, name_in};
use crate::member_names::members_behind;
use crate::roles::Role;
use cyc_lexer::{Keyword, Sign, Token, TokenKind};
use std::alloc::{AllocError, Global};
use token_reasons::kind_before;

/// Whether a declaration of an item is no later one's, of the same name, that is visible at an index too.
fn is_last(item: &[Token<'_>], declaration: usize, at: usize) -> bool {
    let Some(declared) = item.get(declaration) else {
        return false;
    };
    for (here, token) in item.iter().enumerate() {
        if here > declaration && here < at && token.text == declared.text {
            if is_visible(item, here, at) {
                return false;
            }
        }
    }
    true
}

/// Adds the names that a block declares and that are visible at an index.
fn push_block(
    found: &mut Vec<usize>,
    tokens: &[Token<'_>],
    index: usize,
) -> Result<(), AllocError> {
    let range = item_at(tokens, index);
    let item = range.of(tokens);
    let at = index.saturating_sub(range.begin);
    for (here, _token) in item.iter().enumerate() {
        if here >= at {
            break;
        }
        if let Some(Role::Parameter | Role::Local) = role_in(item, here) {
            if is_visible(item, here, at) && is_last(item, here, at) {
                found.push(range.begin.saturating_add(here))?;
            }
        }
    }
    Ok(())
}

/// Whether no token of an item before this one has its text.
fn is_first(item: &[Token<'_>], index: usize, text: &[u8]) -> bool {
    for (here, token) in item.iter().enumerate() {
        if here < index && token.text == text {
            return false;
        }
    }
    true
}

/// Whether a region of an item may be named at an index of it.
fn is_region(item: &[Token<'_>], declaration: usize, at: usize) -> bool {
    match item.get(declaration) {
        Some(token) => match token.kind {
            TokenKind::Region if is_opened(item, declaration) => {
                is_visible(item, declaration, at) && is_last(item, declaration, at)
            }
            TokenKind::Region => is_first(item, declaration, token.text),
            _ => false,
        },
        None => false,
    }
}

/// The regions that may be named at an index.
fn regions_at(alloc: Global, tokens: &[Token<'_>], index: usize) -> Result<Vec<usize>, AllocError> {
    let mut found = Vec::new(alloc);
    let range = item_at(tokens, index);
    let item = range.of(tokens);
    let at = index.saturating_sub(range.begin);
    for (here, _token) in item.iter().enumerate() {
        if here < at && is_region(item, here, at) {
            found.push(range.begin.saturating_add(here))?;
        }
    }
    Ok(found)
}

/// Whether the whole text sees a name that may stand here: a tag, where tags alone may.
fn may_stand(tokens: &[Token<'_>], index: usize, tags: bool) -> bool {
    let range = item_at(tokens, index);
    match role_in(range.of(tokens), index.saturating_sub(range.begin)) {
        Some(Role::Struct | Role::Union) => true,
        Some(_) => !tags,
        None => false,
    }
}

/// Adds what the whole text sees: tags alone, or all names.
fn push_text(
    found: &mut Vec<usize>,
    alloc: Global,
    tokens: &[Token<'_>],
    tags: bool,
) -> Result<(), AllocError> {
    let items = items(alloc, tokens)?;
    for range in items.iter() {
        if let Some(index) = name_in(tokens, *range) {
            if may_stand(tokens, index, tags) {
                found.push(index)?;
            }
        }
    }
    Ok(())
}

/// The names of blocks and of the text.
fn names_at(alloc: Global, tokens: &[Token<'_>], index: usize) -> Result<Vec<usize>, AllocError> {
    let mut found = Vec::new(alloc);
    push_block(&mut found, tokens, index)?;
    push_text(&mut found, alloc, tokens, false)?;
    Ok(found)
}

/// The tags of a text.
fn tags(alloc: Global, tokens: &[Token<'_>]) -> Result<Vec<usize>, AllocError> {
    let mut found = Vec::new(alloc);
    push_text(&mut found, alloc, tokens, true)?;
    Ok(found)
}

/// The declarations of the names that may stand at the token of an index, by what stands before it: members, tags or names; and regions
/// where that is asked for. Fails only where no host memory is left.
pub fn candidates(
    alloc: Global,
    tokens: &[Token<'_>],
    index: usize,
    regions: bool,
) -> Result<Vec<usize>, AllocError> {
    if regions {
        return regions_at(alloc, tokens, index);
    }
    match kind_before(tokens, index, 1) {
        Some(TokenKind::Sign(Sign::Dot | Sign::Arrow)) => {
            members_behind(alloc, tokens, index.saturating_sub(1))
        }
        Some(TokenKind::Keyword(Keyword::Struct | Keyword::Union)) => tags(alloc, tokens),
        _ => names_at(alloc, tokens, index),
    }
}
