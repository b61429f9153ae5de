// The parameters of the function that is called at a position.

use crate::pages::{Page, Span, span_of};
use cyc_lexer::{Sign, Token, TokenKind};
use editor_protocol::JsonText;
use std::alloc::AllocError;
use token_names::{Role, declaration_of, shown};

/// A parenthesis that is open at a position, and how many commas stand behind it in no other one.
#[derive(Clone, Copy)]
struct Open {
    index: usize,
    commas: u32,
}

/// Counts a comma in the innermost parenthesis.
fn count_comma(open: &mut [Open]) {
    let innermost = open.len().wrapping_sub(1);
    if let Some(last) = open.get_mut(innermost) {
        last.commas = last.commas.saturating_add(1);
    }
}

/// Takes in a token before the position. No call goes on behind the end of a statement or a block.
fn take(open: &mut Vec<Open>, index: usize, token: &Token<'_>) -> Result<(), AllocError> {
    match token.kind {
        TokenKind::Sign(Sign::LeftParenthesis) => open.push(Open { index, commas: 0 })?,
        TokenKind::Sign(Sign::RightParenthesis) => {
            let _last = open.pop();
        }
        TokenKind::Sign(Sign::Comma) => count_comma(open.as_mut_slice()),
        TokenKind::Sign(Sign::LeftBrace | Sign::RightBrace | Sign::Semicolon) => open.clear(),
        _ => {}
    }
    Ok(())
}

/// The parentheses that are open at an offset, the innermost last.
fn open_at(page: &Page<'_>, offset: usize) -> Result<Vec<Open>, AllocError> {
    let mut open = Vec::new(page.alloc);
    for (index, token) in page.tokens.iter().enumerate() {
        if span_of(token).end as usize > offset {
            break;
        }
        take(&mut open, index, token)?;
    }
    Ok(open)
}

/// Where the function is declared whose name stands before a parenthesis; none, where it is declared there.
fn called(page: &Page<'_>, open: Open) -> Option<usize> {
    let name = open.index.checked_sub(1)?;
    let declared = declaration_of(page.tokens, name)?;
    match shown(page.tokens, declared)?.role {
        Role::Function if declared != name => Some(declared),
        _ => None,
    }
}

/// What a token does in a list of parameters: it is of one, it stands between two, or it ends the list.
#[derive(Clone, Copy)]
enum Turn {
    Within,
    Between,
    End,
}

/// What a token does, at this depth of brackets inside of the list.
fn turn_of(kind: TokenKind, depth: u32) -> Turn {
    match kind {
        TokenKind::Sign(Sign::Comma) if depth == 0 => Turn::Between,
        TokenKind::Sign(Sign::RightParenthesis | Sign::Semicolon) => Turn::End,
        _ => Turn::Within,
    }
}

/// The depth of brackets behind a token.
fn depth_behind(kind: TokenKind, depth: u32) -> u32 {
    match kind {
        TokenKind::Sign(Sign::Less | Sign::LeftBrace) => depth.saturating_add(1),
        TokenKind::Sign(Sign::Greater | Sign::RightBrace) => depth.saturating_sub(1),
        _ => depth,
    }
}

/// Adds a parameter as it is written; nothing for `void`.
fn push_parameter(json: &mut JsonText, page: &Page<'_>, span: Span) -> Result<(), AllocError> {
    let written = page.written(span);
    if written.is_empty() || written == b"void".as_slice() {
        return Ok(());
    }
    json.item()?;
    json.raw("{\"label\":")?;
    json.string(written)?;
    json.raw("}")
}

/// Adds the parameters of the function whose name stands at an index.
fn push_parameters(
    json: &mut JsonText,
    page: &Page<'_>,
    declared: usize,
) -> Result<(), AllocError> {
    let behind = declared.saturating_add(2);
    let begin = page.span_at(behind).begin;
    let mut span = Span { begin, end: begin };
    let mut depth = 0u32;
    for token in page.tokens.get(behind..).unwrap_or(&[]) {
        let own = span_of(token);
        match turn_of(token.kind, depth) {
            Turn::End => break,
            Turn::Between => {
                push_parameter(json, page, span)?;
                span = Span {
                    begin: own.end,
                    end: own.end,
                };
            }
            Turn::Within => {
                if span.begin == span.end {
                    span.begin = own.begin;
                }
                span.end = own.end;
            }
        }
        depth = depth_behind(token.kind, depth);
    }
    push_parameter(json, page, span)
}

/// The head of the function whose name stands at an index, with its parameters, of which one is written.
fn signature_of(page: &Page<'_>, declared: usize, commas: u32) -> Result<Vec<u8>, AllocError> {
    let mut json = JsonText::new(page.alloc);
    json.raw("{\"signatures\":[{\"label\":")?;
    let head = match shown(page.tokens, declared) {
        Some(shown) => page.written(Span {
            begin: shown.begin,
            end: shown.end,
        }),
        None => b"",
    };
    json.string(head)?;
    json.raw(",\"parameters\":")?;
    json.begin()?;
    push_parameters(&mut json, page, declared)?;
    json.end()?;
    json.raw("}],\"activeSignature\":0,\"activeParameter\":")?;
    json.number(i64::from(commas))?;
    json.raw("}")?;
    Ok(json.into_bytes())
}

/// What is known of the function whose arguments are written at an offset: its head, and which parameter is written. Fails only where no host memory is left.
pub(crate) fn signature(page: &Page<'_>, offset: usize) -> Result<Vec<u8>, AllocError> {
    let open = open_at(page, offset)?;
    for one in open.iter().rev() {
        if let Some(declared) = called(page, *one) {
            return signature_of(page, declared, one.commas);
        }
    }
    Vec::from_slice(page.alloc, b"null")
}
