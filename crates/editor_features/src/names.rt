// What is known of the name at a position.

use crate::faults::explained_at;
use crate::pages::{Page, Span};
use editor_protocol::JsonText;
use known_names::known_at;
use std::alloc::AllocError;
use token_names::{declaration_of, shown, uses_of};

/// The answer to what isn't known.
const NOTHING: &[u8] = b"null";

/// Adds the declaration of the name of an index; answers whether there is one.
fn push_declaration(
    json: &mut JsonText,
    page: &Page<'_>,
    index: usize,
) -> Result<bool, AllocError> {
    let Some(shown) = shown(page.tokens, index) else {
        return Ok(false);
    };
    json.raw("```c\\n")?;
    json.inside(page.written(Span {
        begin: shown.begin,
        end: shown.end,
    }))?;
    json.raw("\\n```\\n")?;
    json.raw(shown.role.words())?;
    Ok(true)
}

/// Adds what the checker knows of the name of an index: the type, the size, what a call instantiates, and which locals are held; answers whether
/// that is anything.
fn push_known(json: &mut JsonText, page: &Page<'_>, index: usize) -> Result<bool, AllocError> {
    let text = page.source.text.as_slice();
    let known = known_at(page.alloc, text, page.span_at(index).begin)?;
    if known.is_empty() {
        return Ok(false);
    }
    json.raw("\\n```text\\n")?;
    json.inside(known.as_slice())?;
    json.raw("```\\n")?;
    Ok(true)
}

/// Adds what is known of the name of an index; answers whether that is anything.
fn push_named(json: &mut JsonText, page: &Page<'_>, index: usize) -> Result<bool, AllocError> {
    let is_declared = push_declaration(json, page, index)?;
    let is_known = push_known(json, page, index)?;
    Ok(is_declared || is_known)
}

/// Adds the explanation of the fault at an offset; answers whether there is one.
fn push_explanation(
    json: &mut JsonText,
    page: &Page<'_>,
    offset: usize,
) -> Result<bool, AllocError> {
    let text = page.source.text.as_slice();
    let faults = page.document.faults.as_slice();
    let Some(explanation) = explained_at(text, page.tokens, faults, offset) else {
        return Ok(false);
    };
    json.raw("\\n```text\\n")?;
    json.inside(explanation.as_bytes())?;
    json.raw("\\n```\\n")?;
    Ok(true)
}

/// What is said of an offset: the declaration of the name there, what the checker knows of it, and the explanation of the fault.
pub(crate) fn hover(page: &Page<'_>, offset: usize) -> Result<Vec<u8>, AllocError> {
    let mut json = JsonText::new(page.alloc);
    json.raw("{\"contents\":{\"kind\":\"markdown\",\"value\":\"")?;
    let is_named = match page.name_at(offset) {
        Some(index) => push_named(&mut json, page, index)?,
        None => false,
    };
    let is_fault = push_explanation(&mut json, page, offset)?;
    if !is_named && !is_fault {
        return Vec::from_slice(page.alloc, NOTHING);
    }
    json.raw("\"}}")?;
    Ok(json.into_bytes())
}

/// The declaration of the name at an offset.
fn declared_at(page: &Page<'_>, offset: usize) -> Option<usize> {
    declaration_of(page.tokens, page.name_at(offset)?)
}

/// Where the name at an offset is declared.
pub(crate) fn definition(page: &Page<'_>, offset: usize) -> Result<Vec<u8>, AllocError> {
    let Some(declaration) = declared_at(page, offset) else {
        return Vec::from_slice(page.alloc, NOTHING);
    };
    let mut json = JsonText::new(page.alloc);
    page.push_location(&mut json, declaration)?;
    Ok(json.into_bytes())
}

/// Where the name at an offset is used, with its declaration where that is asked for.
pub(crate) fn references(
    page: &Page<'_>,
    offset: usize,
    with_declaration: bool,
) -> Result<Vec<u8>, AllocError> {
    let Some(declaration) = declared_at(page, offset) else {
        return Vec::from_slice(page.alloc, NOTHING);
    };
    let uses = uses_of(page.alloc, page.tokens, declaration)?;
    let mut json = JsonText::new(page.alloc);
    json.begin()?;
    for index in uses.iter() {
        if with_declaration || *index != declaration {
            json.item()?;
            page.push_location(&mut json, *index)?;
        }
    }
    json.end()?;
    Ok(json.into_bytes())
}

/// Adds the edit of a name.
fn push_edit(
    json: &mut JsonText,
    page: &Page<'_>,
    index: usize,
    name: &[u8],
) -> Result<(), AllocError> {
    json.item()?;
    json.raw("{\"range\":")?;
    page.push_token(json, index)?;
    json.raw(",\"newText\":")?;
    json.string(name)?;
    json.raw("}")
}

/// Whether one of these tokens is in a part.
fn has_use(page: &Page<'_>, uses: &[usize], part: usize) -> bool {
    for index in uses {
        if page.part_of(*index) == part {
            return true;
        }
    }
    false
}

/// Adds the edits that give the names of these tokens in a part another name.
fn push_edits(
    json: &mut JsonText,
    page: &Page<'_>,
    uses: &[usize],
    part: usize,
    name: &[u8],
) -> Result<(), AllocError> {
    json.item()?;
    json.string(page.source.uri_at(part))?;
    json.raw(":")?;
    json.begin()?;
    for index in uses {
        if page.part_of(*index) == part {
            push_edit(json, page, *index, name)?;
        }
    }
    json.end()
}

/// The edits that give the name at an offset another one, in each part of the source.
pub(crate) fn renamed(page: &Page<'_>, offset: usize, name: &[u8]) -> Result<Vec<u8>, AllocError> {
    let Some(declaration) = declared_at(page, offset) else {
        return Vec::from_slice(page.alloc, NOTHING);
    };
    let uses = uses_of(page.alloc, page.tokens, declaration)?;
    let mut json = JsonText::new(page.alloc);
    json.raw("{\"changes\":{")?;
    for part in 0..page.source.parts.len() {
        if has_use(page, uses.as_slice(), part) {
            push_edits(&mut json, page, uses.as_slice(), part, name)?;
        }
    }
    json.raw("}}")?;
    Ok(json.into_bytes())
}

/// Whether a name may be given to what the name at an offset is: a region's begins with a backquote, and no other one does.
pub(crate) fn may_be_named(page: &Page<'_>, offset: usize, name: &[u8]) -> bool {
    let Some(index) = page.name_at(offset) else {
        return true;
    };
    let written = page.written(page.span_at(index));
    let is_region = written.starts_with(b"`");
    match tokens_of_name(page, name) {
        Some(is_other_region) => is_region == is_other_region,
        None => false,
    }
}

/// Whether a text that is one name is that of a region; none of one that is no name.
fn tokens_of_name(page: &Page<'_>, name: &[u8]) -> Option<bool> {
    let Ok(tokens) = cyc_lexer::tokens(page.alloc, name) else {
        return None;
    };
    let [token] = tokens.as_slice() else {
        return None;
    };
    if token.text.len() != name.len() {
        return None;
    }
    match token.kind {
        cyc_lexer::TokenKind::Identifier => Some(false),
        cyc_lexer::TokenKind::Region => Some(true),
        _ => None,
    }
}
