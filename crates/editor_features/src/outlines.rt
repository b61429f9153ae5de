// What a text consists of: its items, and its blocks.

use crate::pages::{Page, Span, push_range};
use editor_protocol::{JsonText, position_at};
use std::alloc::AllocError;
use token_names::{ItemRange, Role, folds, items, members, name_in, role_of};

/// What the protocol calls symbols of a role.
fn symbol_kind(role: Role) -> i64 {
    match role {
        Role::Struct => 23,
        Role::Union => 10,
        Role::Function => 12,
        Role::Member => 8,
        Role::Global | Role::Parameter | Role::Local | Role::Region => 13,
    }
}

/// Adds the beginning of a symbol: its name, what it is, and where it stands.
fn push_symbol(
    json: &mut JsonText,
    page: &Page<'_>,
    name: usize,
    span: Span,
) -> Result<(), AllocError> {
    json.item()?;
    json.raw("{\"name\":")?;
    json.string(page.written(page.span_at(name)))?;
    json.raw(",\"kind\":")?;
    let role = role_of(page.tokens, name).unwrap_or(Role::Global);
    json.number(symbol_kind(role))?;
    json.raw(",\"range\":")?;
    push_range(json, page.source, span)?;
    json.raw(",\"selectionRange\":")?;
    page.push_token(json, name)
}

/// Adds the members of an item as symbols.
fn push_members(json: &mut JsonText, page: &Page<'_>, range: ItemRange) -> Result<(), AllocError> {
    let members = members(page.alloc, page.tokens, range)?;
    json.raw(",\"children\":")?;
    json.begin()?;
    for member in members.iter() {
        push_symbol(json, page, *member, page.span_at(*member))?;
        json.raw("}")?;
    }
    json.end()
}

/// Adds an item as a symbol, where it has a name.
fn push_item(json: &mut JsonText, page: &Page<'_>, range: ItemRange) -> Result<(), AllocError> {
    let Some(name) = name_in(page.tokens, range) else {
        return Ok(());
    };
    let span = Span {
        begin: page.span_at(range.begin).begin,
        end: page.span_at(range.end.saturating_sub(1)).end,
    };
    push_symbol(json, page, name, span)?;
    push_members(json, page, range)?;
    json.raw("}")
}

/// The symbols of a text. Fails only where no host memory is left, as all answers.
pub(crate) fn symbols(page: &Page<'_>) -> Result<Vec<u8>, AllocError> {
    let items = items(page.alloc, page.tokens)?;
    let mut json = JsonText::new(page.alloc);
    json.begin()?;
    for range in items.iter() {
        push_item(&mut json, page, *range)?;
    }
    json.end()?;
    Ok(json.into_bytes())
}

/// Adds a block that may be folded, where it is of several lines: up to the line before its end.
fn push_fold(json: &mut JsonText, text: &[u8], open: u32, close: u32) -> Result<(), AllocError> {
    let first = position_at(text, open as usize).line;
    let last = position_at(text, close as usize).line.saturating_sub(1);
    if last <= first {
        return Ok(());
    }
    json.item()?;
    json.raw("{\"startLine\":")?;
    json.number(i64::from(first))?;
    json.raw(",\"endLine\":")?;
    json.number(i64::from(last))?;
    json.raw("}")
}

/// The blocks of a text that may be folded.
pub(crate) fn folding(page: &Page<'_>) -> Result<Vec<u8>, AllocError> {
    let folds = folds(page.alloc, page.tokens)?;
    let mut json = JsonText::new(page.alloc);
    json.begin()?;
    for fold in folds.iter() {
        push_fold(
            &mut json,
            page.source.text.as_slice(),
            fold.open,
            fold.close,
        )?;
    }
    json.end()?;
    Ok(json.into_bytes())
}
