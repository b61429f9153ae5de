// The known name that is nearest to an unknown one.

use crate::words::Words;
use check_scopes::Scope;
use check_tables::item_name;
use cyc_lexer::{Keyword, Sign, Token, TokenKind};
use cyc_tree::{Item, Member, Name};
use explanations::c_word;
use std::alloc::{AllocError, Global};
use token_reasons::{Nearest, declared_before, index_at, kind_before};

/// What kind of a name is wanted.
#[derive(Clone, Copy)]
enum Kind {
    Member,
    Tag,
    Value,
}

/// What kind of a name is wanted at an index.
fn kind_at(tokens: &[Token<'_>], index: usize) -> Kind {
    match kind_before(tokens, index, 1) {
        Some(TokenKind::Sign(Sign::Dot | Sign::Arrow)) => Kind::Member,
        Some(TokenKind::Keyword(Keyword::Struct | Keyword::Union)) => Kind::Tag,
        _ => Kind::Value,
    }
}

/// The nearest of these members' names and those before.
fn near_member<'p>(
    alloc: Global,
    near: Nearest<'p>,
    members: &'p [Member],
) -> Result<Nearest<'p>, AllocError> {
    let mut nearest = near;
    for member in members {
        if let Some(edits) = nearest.edits_to(alloc, &member.name.text)? {
            nearest = nearest.with(&member.name.text, edits);
        }
    }
    Ok(nearest)
}

/// The nearest of the members' names of all structs and unions, or of their tags.
fn near_item<'p>(
    alloc: Global,
    near: Nearest<'p>,
    items: &'p [Item],
    of_members: bool,
) -> Result<Nearest<'p>, AllocError> {
    let mut nearest = near;
    for item in items {
        if let Item::Struct(structure) | Item::Union(structure) = item {
            if of_members {
                nearest = near_member(alloc, nearest, structure.members.as_slice())?;
            } else if let Some(edits) = nearest.edits_to(alloc, &structure.tag.text)? {
                nearest = nearest.with(&structure.tag.text, edits);
            }
        }
    }
    Ok(nearest)
}

/// The nearest of the names in a text that mean something in a scope.
fn near_value<'p>(
    alloc: Global,
    near: Nearest<'p>,
    tokens: &[Token<'p>],
    scope: &Scope<'_, '_>,
) -> Result<Nearest<'p>, AllocError> {
    let mut nearest = near;
    for token in tokens {
        if let TokenKind::Identifier = token.kind {
            if let Some(edits) = nearest.edits_to(alloc, token.text)? {
                if scope.meaning(token.text).is_some() {
                    nearest = nearest.with(token.text, edits);
                }
            }
        }
    }
    Ok(nearest)
}

/// Says that a name is declared already, and where.
fn say_second(words: &mut Words<'_>, name: &[u8], at: u32) -> Result<(), AllocError> {
    words.name(name)?;
    words.say(" is declared at ")?;
    words.position(at)?;
    words.say(" already.\n")?;
    words.relate(at, "declared here: ", name)
}

/// Says that a name isn't known, and what to write for it where C knows it.
fn say_unknown(words: &mut Words<'_>, name: &[u8], of_member: bool) -> Result<(), AllocError> {
    words.name(name)?;
    words.say(if of_member {
        " is no member of it.\n"
    } else {
        " is unknown.\n"
    })?;
    match c_word(name) {
        Some(said) if !of_member => {
            words.say(said)?;
            words.say(".\n")
        }
        _ => Ok(()),
    }
}

/// Says that a name isn't known, and which one is near, where one is.
fn say_near(
    words: &mut Words<'_>,
    near: Nearest<'_>,
    at: u32,
    of_member: bool,
) -> Result<(), AllocError> {
    say_unknown(words, near.unknown, of_member)?;
    let Some(name) = near.name else {
        return Ok(());
    };
    words.say(if of_member {
        "A member's name near to it: "
    } else {
        "A known name near to it: "
    })?;
    words.name(name)?;
    words.say(".\n")?;
    let length = u32::try_from(near.unknown.len()).unwrap_or(u32::MAX);
    words.mend(at, at.saturating_add(length), name)
}

/// The name of the item that is declared at an offset.
fn item_at_name(items: &[Item], at: u32) -> Option<&Name> {
    for item in items {
        let name = item_name(item);
        if name.at == at {
            return Some(name);
        }
    }
    None
}

/// Where an item of a name is declared first.
fn first_declared(items: &[Item], text: &[u8]) -> Option<u32> {
    for item in items {
        let name = item_name(item);
        if name.text.as_slice() == text {
            return Some(name.at);
        }
    }
    None
}

/// Says which known name is nearest to the one at an offset, or where that is declared already. Fails only where no host memory is left.
pub fn say_name<'p>(
    words: &mut Words<'_>,
    alloc: Global,
    tokens: &[Token<'p>],
    items: &'p [Item],
    scope: Option<&Scope<'_, '_>>,
    at: u32,
) -> Result<(), AllocError> {
    let index = index_at(tokens, at);
    let Some(token) = tokens.get(index) else {
        return words.say("No function main is declared.\n");
    };
    let near = Nearest::to(token.text);
    match kind_at(tokens, index) {
        Kind::Member => say_near(words, near_item(alloc, near, items, true)?, at, true),
        Kind::Tag => say_tag(words, alloc, items, near, at),
        Kind::Value => say_value(words, alloc, tokens, items, scope, near, at, index),
    }
}

/// Says of the name of an item that it is declared already.
fn say_second_item(words: &mut Words<'_>, items: &[Item], name: &Name) -> Result<(), AllocError> {
    match first_declared(items, &name.text) {
        Some(first) if first < name.at => say_second(words, &name.text, first),
        _ => {
            words.name(&name.text)?;
            words.say(" is a function that every program has.\n")
        }
    }
}

/// The same of a name of a value at an index.
fn say_value<'p>(
    words: &mut Words<'_>,
    alloc: Global,
    tokens: &[Token<'p>],
    items: &[Item],
    scope: Option<&Scope<'_, '_>>,
    near: Nearest<'p>,
    at: u32,
    index: usize,
) -> Result<(), AllocError> {
    match scope {
        Some(scope) if scope.meaning(near.unknown).is_none() => {
            say_near(words, near_value(alloc, near, tokens, scope)?, at, false)
        }
        _ => say_declared(words, tokens, items, near.unknown, index),
    }
}

/// Says that a name at an index is declared already.
fn say_declared(
    words: &mut Words<'_>,
    tokens: &[Token<'_>],
    items: &[Item],
    name: &[u8],
    index: usize,
) -> Result<(), AllocError> {
    if let Some(token) = tokens.get(index) {
        if let Some(name) = item_at_name(items, token.at) {
            return say_second_item(words, items, name);
        }
    }
    match declared_before(tokens, index, name) {
        Some(at) => say_second(words, name, at),
        None => {
            words.name(name)?;
            words.say(" is declared already.\n")
        }
    }
}

/// The same of a tag at an offset, which may be another item's name too.
fn say_tag<'p>(
    words: &mut Words<'_>,
    alloc: Global,
    items: &'p [Item],
    near: Nearest<'p>,
    at: u32,
) -> Result<(), AllocError> {
    if let Some(name) = item_at_name(items, at) {
        return say_second_item(words, items, name);
    }
    say_near(words, near_item(alloc, near, items, false)?, at, false)
}
