// The names that may stand at a position.

use crate::pages::{Page, Span, span_of};
use cyc_lexer::{Sign, TokenKind};
use editor_protocol::JsonText;
use std::alloc::AllocError;
use token_names::{Role, candidates, shown};

/// The keywords, and the functions that every text has.
const WORDS: [&str; 35] = [
    "@tagged",
    "NULL",
    "NewDynamicRegion",
    "alias",
    "break",
    "case",
    "char",
    "continue",
    "default",
    "else",
    "for",
    "free_ukey",
    "getchar",
    "heap_region",
    "if",
    "int",
    "let",
    "new",
    "new_ukey",
    "numelts",
    "open",
    "putchar",
    "region",
    "region_t",
    "return",
    "rnew",
    "struct",
    "switch",
    "ufree",
    "union",
    "unique_region",
    "unsigned",
    "uregion_key_t",
    "void",
    "while",
];

/// What the protocol calls completions of a role.
fn completion_kind(role: Role) -> i64 {
    match role {
        Role::Function => 3,
        Role::Member => 5,
        Role::Struct | Role::Union => 22,
        Role::Region => 25,
        Role::Global | Role::Parameter | Role::Local => 6,
    }
}

/// What is written before an offset: the index of the token that is being written or would be, and whether it is a region.
#[derive(Clone, Copy)]
struct Begun {
    index: usize,
    is_region: bool,
    is_member: bool,
}

/// Whether the token before an index is a dot or an arrow.
fn is_behind_dot(page: &Page<'_>, index: usize) -> bool {
    match index.checked_sub(1) {
        Some(before) => match page.tokens.get(before) {
            Some(token) => matches!(token.kind, TokenKind::Sign(Sign::Dot | Sign::Arrow)),
            None => false,
        },
        None => false,
    }
}

/// Whether a backquote stands right before an offset.
fn is_behind_backquote(page: &Page<'_>, offset: usize) -> bool {
    let text = page.source.text.as_slice();
    match offset.checked_sub(1) {
        Some(before) => matches!(text.get(before), Some(b'`')),
        None => false,
    }
}

/// What is being written at an offset.
fn begun_at(page: &Page<'_>, offset: usize) -> Begun {
    let mut index = 0usize;
    let mut is_region = is_behind_backquote(page, offset);
    for token in page.tokens {
        let span = span_of(token);
        if span.begin as usize >= offset {
            break;
        }
        if offset <= span.end as usize {
            match token.kind {
                TokenKind::Region => {
                    is_region = true;
                    break;
                }
                TokenKind::Identifier | TokenKind::Keyword(_) => break,
                _ => {}
            }
        }
        index = index.saturating_add(1);
    }
    Begun {
        index,
        is_region,
        is_member: is_behind_dot(page, index),
    }
}

/// Adds a name that a text declares.
fn push_candidate(
    json: &mut JsonText,
    page: &Page<'_>,
    index: usize,
    is_region: bool,
) -> Result<(), AllocError> {
    let Some(shown) = shown(page.tokens, index) else {
        return Ok(());
    };
    json.item()?;
    json.raw("{\"label\":")?;
    let name = page.written(page.span_at(index));
    json.string(name)?;
    json.raw(",\"kind\":")?;
    json.number(completion_kind(shown.role))?;
    if !is_region && !matches!(shown.role, Role::Struct | Role::Union) {
        json.raw(",\"detail\":")?;
        json.string(page.written(Span {
            begin: shown.begin,
            end: shown.end,
        }))?;
    }
    json.raw("}")
}

/// Adds a word that every text may have.
fn push_word(json: &mut JsonText, word: &str) -> Result<(), AllocError> {
    json.item()?;
    json.raw("{\"label\":\"")?;
    json.raw(word)?;
    json.raw("\",\"kind\":14}")
}

/// Adds the words that every text may have.
fn push_words(json: &mut JsonText) -> Result<(), AllocError> {
    for word in &WORDS {
        push_word(json, word)?;
    }
    Ok(())
}

/// The names that may stand at an offset.
pub(crate) fn completions(page: &Page<'_>, offset: usize) -> Result<Vec<u8>, AllocError> {
    let begun = begun_at(page, offset);
    let found = candidates(page.alloc, page.tokens, begun.index, begun.is_region)?;
    let mut json = JsonText::new(page.alloc);
    json.begin()?;
    for index in found.iter() {
        push_candidate(&mut json, page, *index, begun.is_region)?;
    }
    if !begun.is_region && !begun.is_member {
        push_words(&mut json)?;
    }
    json.end()?;
    Ok(json.into_bytes())
}
