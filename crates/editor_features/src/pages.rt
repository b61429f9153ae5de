// A text with its source and the tokens of that, as requests look at it.

use crate::documents::Document;
use crate::sources::Source;
use cyc_lexer::{Token, TokenKind};
use editor_protocol::{JsonText, position_at};
use std::alloc::{AllocError, Global};

/// An open text with its source and the tokens of that.
#[derive(Drop)]
pub(crate) struct Page<'d> {
    pub alloc: Global,
    pub document: &'d Document,
    pub source: &'d Source,
    pub tokens: &'d [Token<'d>],
}

/// The offsets between which the text has something.
#[derive(Clone, Copy)]
pub(crate) struct Span {
    pub begin: u32,
    pub end: u32,
}

/// Whether a token names something.
fn is_name(token: &Token<'_>) -> bool {
    matches!(token.kind, TokenKind::Identifier | TokenKind::Region)
}

/// The offsets of a token.
pub(crate) fn span_of(token: &Token<'_>) -> Span {
    let length = u32::try_from(token.text.len()).unwrap_or(u32::MAX);
    Span {
        begin: token.at,
        end: token.at.saturating_add(length),
    }
}

/// Adds a position as a value of JSON.
fn push_position(json: &mut JsonText, text: &[u8], offset: u32) -> Result<(), AllocError> {
    let position = position_at(text, offset as usize);
    json.raw("{\"line\":")?;
    json.number(i64::from(position.line))?;
    json.raw(",\"character\":")?;
    json.number(i64::from(position.character))?;
    json.raw("}")
}

/// Adds a range of a source as a value of JSON, as one of the part in which it begins.
pub(crate) fn push_range(
    json: &mut JsonText,
    source: &Source,
    span: Span,
) -> Result<(), AllocError> {
    let index = source.index_at(span.begin as usize);
    let text = source.text_at(index);
    let before = u32::try_from(source.begin_at(index)).unwrap_or(u32::MAX);
    json.raw("{\"start\":")?;
    push_position(json, text, span.begin.saturating_sub(before))?;
    json.raw(",\"end\":")?;
    push_position(json, text, span.end.saturating_sub(before))?;
    json.raw("}")
}

impl Page<'_> {
    /// The index of the name at an offset, or right before it.
    pub(crate) fn name_at(&self, offset: usize) -> Option<usize> {
        for (index, token) in self.tokens.iter().enumerate() {
            let span = span_of(token);
            if span.begin as usize <= offset && offset <= span.end as usize && is_name(token) {
                return Some(index);
            }
        }
        None
    }

    /// The offsets of the token of an index.
    pub(crate) fn span_at(&self, index: usize) -> Span {
        match self.tokens.get(index) {
            Some(token) => span_of(token),
            None => Span { begin: 0, end: 0 },
        }
    }

    /// What the source has between two offsets.
    pub(crate) fn written(&self, span: Span) -> &[u8] {
        let text = self.source.text.as_slice();
        text.get(span.begin as usize..span.end as usize)
            .unwrap_or(text)
    }

    /// The index of the part that has the token of an index.
    pub(crate) fn part_of(&self, index: usize) -> usize {
        self.source.index_at(self.span_at(index).begin as usize)
    }

    /// Adds the range of the token of an index.
    pub(crate) fn push_token(&self, json: &mut JsonText, index: usize) -> Result<(), AllocError> {
        push_range(json, self.source, self.span_at(index))
    }

    /// Adds the name of the text that has the token of an index, and its range there.
    pub(crate) fn push_location(
        &self,
        json: &mut JsonText,
        index: usize,
    ) -> Result<(), AllocError> {
        json.raw("{\"uri\":")?;
        json.string(self.source.uri_at(self.part_of(index)))?;
        json.raw(",\"range\":")?;
        self.push_token(json, index)?;
        json.raw("}")
    }
}
