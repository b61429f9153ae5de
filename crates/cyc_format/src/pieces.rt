// A text as its tokens and comments.

use crate::class::{Class, class_of};
use crate::comments::stripped;
use crate::gaps::{gap_length, is_space};
use cyc_lexer::Token;
use std::alloc::{AllocError, Global};

/// A token or a comment.
#[derive(Clone, Copy)]
pub(crate) struct Piece<'a> {
    pub class: Class,
    pub text: &'a [u8],
    /// How many line ends stand before it, from the last piece on.
    pub lines: u32,
    /// The class of the next token, or nothing.
    pub next: Class,
}

/// Whether a class is that of a comment.
pub(crate) fn is_comment(class: Class) -> bool {
    matches!(class, Class::LineComment | Class::BlockComment)
}

/// The class of a comment.
fn class_of_comment(comment: &[u8]) -> Class {
    match comment {
        [b'/', b'/', ..] => Class::LineComment,
        _ => Class::BlockComment,
    }
}

/// The comment at the front of bytes.
fn comment_at(bytes: &[u8], lines: u32) -> Piece<'_> {
    let length = gap_length(bytes).unwrap_or(0).min(bytes.len());
    let text = stripped(&bytes[..length]);
    Piece {
        class: class_of_comment(text),
        text,
        lines,
        next: Class::Nothing,
    }
}

/// Appends the comments among white space, and answers how many line ends stand after the last of them.
fn push_comments<'a>(pieces: &mut Vec<Piece<'a>>, gap: &'a [u8]) -> Result<u32, AllocError> {
    let mut lines = 0u32;
    let mut end = 0usize;
    for (i, byte) in gap.iter().enumerate() {
        if i >= end {
            if *byte == b'\n' {
                lines = lines.saturating_add(1);
            } else if !is_space(*byte) {
                let comment = comment_at(&gap[i..], lines);
                end = i.saturating_add(comment.text.len());
                pieces.push(comment)?;
                lines = 0;
            }
        }
    }
    Ok(lines)
}

/// The bytes of a text from one offset to another, or none.
fn part(text: &[u8], at: usize, end: usize) -> &[u8] {
    if at <= end && end <= text.len() {
        &text[at..end]
    } else {
        &[]
    }
}

/// Writes at each piece which token is next.
fn find_next(pieces: &mut [Piece<'_>]) {
    let mut next = Class::Nothing;
    for piece in pieces.iter_mut().rev() {
        piece.next = next;
        if !is_comment(piece.class) {
            next = piece.class;
        }
    }
}

/// The pieces of a text with these tokens.
pub(crate) fn pieces_of<'a>(
    alloc: Global,
    text: &'a [u8],
    tokens: &[Token<'a>],
) -> Result<Vec<Piece<'a>>, AllocError> {
    let mut pieces = Vec::new(alloc);
    let mut at = 0usize;
    for token in tokens {
        let lines = push_comments(&mut pieces, part(text, at, token.at as usize))?;
        pieces.push(Piece {
            class: class_of(token.kind),
            text: token.text,
            lines,
            next: Class::Nothing,
        })?;
        at = (token.at as usize).saturating_add(token.text.len());
    }
    let _lines = push_comments(&mut pieces, part(text, at, text.len()))?;
    find_next(&mut pieces);
    Ok(pieces)
}
