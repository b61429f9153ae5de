// Which locals own a block or a key at a point, and which gave it away or lent it.

use check_faults::{Fault, FaultKind};
use check_scopes::What;
use cyc_lexer::{Keyword, Sign, Token, TokenKind};
use cyc_parser::parse;
use cyc_tree::{Function, Program};
use cyc_types::{CType, Layer};
use fault_words::{Walk, Words};
use flow_check::flow_fault;
use std::alloc::{AllocError, Global};
use token_reasons::{given_away, given_later, lent};

/// How many locals are told of at most.
const MOST_TOLD: usize = 8;

/// What the offsets of tokens are multiplied by, so that others have offsets between them.
const APART: u32 = 4;

/// What a local owns.
#[derive(Clone, Copy)]
enum Owned {
    Block,
    Key,
}

/// A local that owns something by its type.
#[derive(Clone, Copy)]
struct Owner<'p> {
    name: &'p [u8],
    owned: Owned,
}

/// What a type owns.
fn owned_by(of: &CType<'_>) -> Option<Owned> {
    match of.outer() {
        Some(Layer::Unique(_)) => Some(Owned::Block),
        None if of.is_key() => Some(Owned::Key),
        _ => None,
    }
}

/// The local of a name, where it owns something by its type.
fn owner_of<'p>(walk: &Walk<'_, 'p>, name: &'p [u8]) -> Option<Owner<'p>> {
    match walk.scope.locals.find(name)? {
        What::Variable(of, _) => Some(Owner {
            name,
            owned: owned_by(of)?,
        }),
        _ => None,
    }
}

/// Whether a local is among some.
fn has_owner(owners: &[Owner<'_>], name: &[u8]) -> bool {
    for owner in owners {
        if owner.name == name {
            return true;
        }
    }
    false
}

/// The locals that own something by their types, in the order in which a function names them up to an offset.
fn owners_at<'p>(
    alloc: Global,
    tokens: &[Token<'p>],
    walk: &Walk<'_, 'p>,
    begin: u32,
    end: u32,
) -> Result<Vec<Owner<'p>>, AllocError> {
    let mut owners = Vec::new(alloc);
    for token in tokens {
        let is_between = begin <= token.at && token.at <= end;
        if is_between && owners.len() < MOST_TOLD && !has_owner(&owners, token.text) {
            if let Some(owner) = owner_of(walk, token.text) {
                owners.push(owner)?;
            }
        }
    }
    Ok(owners)
}

/// What uses a pointer and leaves it as it was. The name stands where there is none.
static USE_OF_BLOCK: [(TokenKind, &[u8]); 3] = [
    (TokenKind::Sign(Sign::Not), b"!"),
    (TokenKind::Identifier, b""),
    (TokenKind::Sign(Sign::Semicolon), b";"),
];

/// The same of a key: a block in which its region is open.
static USE_OF_KEY: [(TokenKind, &[u8]); 13] = [
    (TokenKind::Sign(Sign::LeftBrace), b"{"),
    (TokenKind::Keyword(Keyword::Region), b"region"),
    (TokenKind::Sign(Sign::Less), b"<"),
    (TokenKind::Region, b"`opened"),
    (TokenKind::Sign(Sign::Greater), b">"),
    (TokenKind::Identifier, b"opened"),
    (TokenKind::Sign(Sign::Assign), b"="),
    (TokenKind::Keyword(Keyword::Open), b"open"),
    (TokenKind::Sign(Sign::LeftParenthesis), b"("),
    (TokenKind::Identifier, b""),
    (TokenKind::Sign(Sign::RightParenthesis), b")"),
    (TokenKind::Sign(Sign::Semicolon), b";"),
    (TokenKind::Sign(Sign::RightBrace), b"}"),
];

/// What uses a local that owns such a thing.
fn use_of(owned: Owned) -> &'static [(TokenKind, &'static [u8])] {
    match owned {
        Owned::Block => &USE_OF_BLOCK,
        Owned::Key => &USE_OF_KEY,
    }
}

/// Adds the use of a local, whose name has an offset.
fn push_use<'p>(all: &mut Vec<Token<'p>>, owner: Owner<'p>, at: u32) -> Result<(), AllocError> {
    for (kind, text) in use_of(owner.owned) {
        let token = if text.is_empty() {
            Token {
                kind: *kind,
                at,
                text: owner.name,
            }
        } else {
            Token {
                kind: *kind,
                at: at.saturating_sub(1),
                text: *text,
            }
        };
        all.push(token)?;
    }
    Ok(())
}

/// The tokens, their offsets multiplied, with a use of a local before the statement at an offset; the use's name has the offset `at`.
fn with_use<'p>(
    alloc: Global,
    tokens: &[Token<'p>],
    owner: Owner<'p>,
    before: u32,
    at: u32,
) -> Result<Vec<Token<'p>>, AllocError> {
    let mut all = Vec::new(alloc);
    for token in tokens {
        if token.at == before {
            push_use(&mut all, owner, at)?;
        }
        all.push(Token {
            at: token.at.saturating_mul(APART),
            ..*token
        })?;
    }
    Ok(all)
}

/// The fault of a use of a local before the statement at an offset.
fn fault_of_use(alloc: Global, tokens: &[Token<'_>], at: u32) -> Result<Option<Fault>, AllocError> {
    let Ok(program) = parse(alloc, tokens) else {
        return Ok(None);
    };
    match flow_fault(alloc, &program)? {
        Some(fault) if fault.at == at => Ok(Some(fault)),
        _ => Ok(None),
    }
}

/// Says where something was done to a local, where that is known.
fn say_place(words: &mut Words<'_>, before: &str, at: Option<u32>) -> Result<(), AllocError> {
    if let Some(at) = at {
        words.say(before)?;
        words.position(at / APART)?;
    }
    words.say(".\n")
}

/// Says what is with a local, by the fault of its use.
fn say_state(
    words: &mut Words<'_>,
    tokens: &[Token<'_>],
    at: u32,
    fault: Option<Fault>,
) -> Result<(), AllocError> {
    let Some(fault) = fault else {
        return words.say(" is held here.\n");
    };
    match fault.kind {
        FaultKind::Lent => {
            words.say(" is lent here")?;
            say_place(words, ", at ", lent(tokens, at))
        }
        _ => {
            words.say(" isn't held here")?;
            let place = match given_away(tokens, at) {
                Some(place) => Some(place),
                None => given_later(tokens, at),
            };
            say_place(words, ": it was given away at ", place)
        }
    }
}

/// Says what is with a local before the statement at an offset.
fn say_owner<'p>(
    words: &mut Words<'_>,
    alloc: Global,
    tokens: &[Token<'p>],
    owner: Owner<'p>,
    before: u32,
) -> Result<(), AllocError> {
    let at = before.saturating_mul(APART).saturating_sub(1);
    let used = with_use(alloc, tokens, owner, before, at)?;
    let fault = fault_of_use(alloc, used.as_slice(), at)?;
    words.name(owner.name)?;
    say_state(words, used.as_slice(), at, fault)
}

/// Says of the locals that own a block or a key by their types whether they are held, given away or lent before the statement where a walk
/// has come to, of a program without a fault of flow. That is what the checker says of a use that is put in there. Fails only where no host
/// memory is left, as all of these.
pub(crate) fn say_owners<'p>(
    words: &mut Words<'_>,
    alloc: Global,
    tokens: &[Token<'p>],
    program: &Program,
    walk: &Walk<'_, 'p>,
    function: &Function,
) -> Result<(), AllocError> {
    let Some(before) = walk.item else {
        return Ok(());
    };
    let owners = owners_at(alloc, tokens, walk, function.name.at, before)?;
    if owners.is_empty() || flow_fault(alloc, program)?.is_some() {
        return Ok(());
    }
    for owner in owners.iter() {
        say_owner(words, alloc, tokens, *owner, before)?;
    }
    Ok(())
}
