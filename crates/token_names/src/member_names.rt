// Members of structs and unions.

use crate::brackets::{kind_at, opener};
use crate::declared::{is_struct, role_in, role_of};
use crate::item_ranges::{ItemRange, item_at, item_end};
use crate::resolved::{text_declaration, value_declaration};
use crate::roles::Role;
use cyc_lexer::{Keyword, Sign, Token, TokenKind};
use std::alloc::{AllocError, Global};
use token_reasons::kind_before;

/// How many members may follow one another.
const LONGEST_CHAIN: u32 = 32;

/// How many tokens a type has at most.
const LONGEST_TYPE: usize = 64;

/// Whether a token of an item declares a member.
fn is_member(item: &[Token<'_>], index: usize) -> bool {
    matches!(role_in(item, index), Some(Role::Member))
}

/// The member of a name that an item declares, by its index in the item.
fn member_in(item: &[Token<'_>], name: &[u8]) -> Option<usize> {
    for (index, token) in item.iter().enumerate() {
        if token.text == name && is_member(item, index) {
            return Some(index);
        }
    }
    None
}

/// The first member of a name in a text.
fn any_member(tokens: &[Token<'_>], name: &[u8]) -> Option<usize> {
    let mut range = ItemRange { begin: 0, end: 0 };
    for _ in tokens {
        range = ItemRange {
            begin: range.end,
            end: item_end(tokens, range.end),
        };
        if let Some(index) = member_in(range.of(tokens), name) {
            return Some(range.begin.saturating_add(index));
        }
        if range.end >= tokens.len() {
            break;
        }
    }
    None
}

/// The member of a struct or union with this tag.
fn member_of(tokens: &[Token<'_>], tag: &[u8], name: &[u8]) -> Option<usize> {
    let range = item_at(tokens, text_declaration(tokens, tag)?);
    let index = member_in(range.of(tokens), name)?;
    Some(range.begin.saturating_add(index))
}

/// The token that names what stands before a dot: `a` of `a[i].b`, `f` of `f(x)->b` and `p` of `(*p).b`.
fn name_before(tokens: &[Token<'_>], dot: usize) -> Option<usize> {
    let mut end = dot;
    for _ in 0..LONGEST_CHAIN {
        let last = end.checked_sub(1)?;
        match kind_at(tokens, last)? {
            TokenKind::Identifier => return Some(last),
            TokenKind::Sign(Sign::RightBracket) => end = opener(tokens, last)?,
            TokenKind::Sign(Sign::RightParenthesis) => {
                let open = opener(tokens, last)?;
                if let Some(TokenKind::Identifier) = kind_before(tokens, open, 1) {
                    return open.checked_sub(1);
                }
                end = last;
            }
            _ => return None,
        }
    }
    None
}

/// The tag in the type of what a token declares.
fn tag_of<'a>(tokens: &[Token<'a>], declaration: usize) -> Option<&'a [u8]> {
    for count in 1..LONGEST_TYPE {
        let index = declaration.checked_sub(count)?;
        let token = tokens.get(index)?;
        match token.kind {
            TokenKind::Identifier => {
                return match kind_before(tokens, index, 1) {
                    Some(TokenKind::Keyword(Keyword::Struct | Keyword::Union)) => Some(token.text),
                    _ => None,
                };
            }
            TokenKind::Keyword(_) => return None,
            TokenKind::Sign(Sign::Semicolon | Sign::LeftBrace | Sign::LeftParenthesis) => {
                return None;
            }
            _ => {}
        }
    }
    None
}

/// The tag of the struct or union that a name is, or to which it leads.
fn tag_at<'a>(tokens: &[Token<'a>], index: usize) -> Option<&'a [u8]> {
    let token = tokens.get(index)?;
    let declaration = value_declaration(tokens, index, token.text)?;
    match role_of(tokens, declaration)? {
        Role::Struct | Role::Union => Some(token.text),
        _ => tag_of(tokens, declaration),
    }
}

/// The name before a dot, or the one that stands so many dots before it.
fn chain_name(tokens: &[Token<'_>], dot: usize, links: u32) -> Option<usize> {
    let mut name = name_before(tokens, dot)?;
    for _ in 0..links {
        name = name_before(tokens, name.checked_sub(1)?)?;
    }
    Some(name)
}

/// How many dots stand before a dot in one chain of members.
fn chain_length(tokens: &[Token<'_>], dot: usize) -> Option<u32> {
    let mut name = name_before(tokens, dot)?;
    for links in 0..LONGEST_CHAIN {
        match kind_before(tokens, name, 1) {
            Some(TokenKind::Sign(Sign::Dot | Sign::Arrow)) => {
                name = name_before(tokens, name.checked_sub(1)?)?;
            }
            _ => return Some(links),
        }
    }
    None
}

/// The tag of the struct or union whose member stands behind a dot.
fn owner_at<'a>(tokens: &[Token<'a>], dot: usize) -> Option<&'a [u8]> {
    let links = chain_length(tokens, dot)?;
    let mut tag = tag_at(tokens, chain_name(tokens, dot, links)?)?;
    for done in 0..links {
        let name = tokens.get(chain_name(tokens, dot, links - 1 - done)?)?;
        tag = tag_of(tokens, member_of(tokens, tag, name.text)?)?;
    }
    Some(tag)
}

/// The declaration of the member that is named at an index, behind a dot or an arrow; where it isn't known whose member it is, the first one of
/// its name.
pub(crate) fn member_declaration(tokens: &[Token<'_>], index: usize, name: &[u8]) -> Option<usize> {
    let dot = index.checked_sub(1)?;
    match owner_at(tokens, dot) {
        Some(owner) => member_of(tokens, owner, name),
        None => any_member(tokens, name),
    }
}

/// Adds the members of an item, by their indexes in the text.
fn push_members(
    members: &mut Vec<usize>,
    tokens: &[Token<'_>],
    range: ItemRange,
) -> Result<(), AllocError> {
    let item = range.of(tokens);
    if !is_struct(item) {
        return Ok(());
    }
    for (index, _token) in item.iter().enumerate() {
        if is_member(item, index) {
            members.push(range.begin.saturating_add(index))?;
        }
    }
    Ok(())
}

/// The members of an item, by their indexes. Fails only where no host memory is left.
pub fn members(
    alloc: Global,
    tokens: &[Token<'_>],
    range: ItemRange,
) -> Result<Vec<usize>, AllocError> {
    let mut members = Vec::new(alloc);
    push_members(&mut members, tokens, range)?;
    Ok(members)
}

/// The members that may stand behind a dot; where it isn't known whose they are, all. Fails only where no host memory is left.
pub(crate) fn members_behind(
    alloc: Global,
    tokens: &[Token<'_>],
    dot: usize,
) -> Result<Vec<usize>, AllocError> {
    let mut found = Vec::new(alloc);
    let owner = owner_at(tokens, dot);
    if let Some(tag) = owner {
        if let Some(declaration) = text_declaration(tokens, tag) {
            push_members(&mut found, tokens, item_at(tokens, declaration))?;
        }
        return Ok(found);
    }
    let mut begin = 0usize;
    for _ in tokens {
        let end = item_end(tokens, begin);
        push_members(&mut found, tokens, ItemRange { begin, end })?;
        if end >= tokens.len() {
            break;
        }
        begin = end;
    }
    Ok(found)
}
