// The lines as they are written.

use std::alloc::{AllocError, Global};

/// Indentation goes no further than this column, however deep blocks are nested.
pub(crate) const DEEPEST: usize = 60;

/// Comments at the ends of lines stand so far behind the code.
const BEFORE_COMMENT: usize = 4;

/// A comment at the end of a line.
#[derive(Clone, Copy)]
struct Tail<'a> {
    /// Where it goes, by what is written.
    at: usize,
    paragraph: usize,
    column: usize,
    text: &'a [u8],
}

/// What is written so far, without the comments at the ends of lines.
#[derive(Drop)]
pub(crate) struct Lines<'a> {
    bytes: Vec<u8>,
    tails: Vec<Tail<'a>>,
    /// Lines that follow each other and are indented alike are a paragraph.
    paragraph: usize,
    indented: usize,
    pub column: usize,
}

/// Appends bytes.
fn append(out: &mut Vec<u8>, bytes: &[u8]) -> Result<(), AllocError> {
    for byte in bytes {
        out.push(*byte)?;
    }
    Ok(())
}

/// Appends spaces.
fn indent(out: &mut Vec<u8>, count: usize) -> Result<(), AllocError> {
    for _ in 0..count {
        out.push(b' ')?;
    }
    Ok(())
}

impl<'a> Lines<'a> {
    pub(crate) fn new(alloc: Global) -> Lines<'a> {
        Lines {
            bytes: Vec::new(alloc),
            tails: Vec::new(alloc),
            paragraph: 0,
            indented: 0,
            column: 0,
        }
    }

    pub(crate) fn is_empty(&self) -> bool {
        self.bytes.is_empty()
    }

    /// Begins a line, with an empty one before it where that is wanted.
    pub(crate) fn begin(&mut self, column: usize, is_apart: bool) -> Result<(), AllocError> {
        if !self.is_empty() {
            self.bytes.push(b'\n')?;
            if is_apart {
                self.bytes.push(b'\n')?;
            }
        }
        self.column = column.min(DEEPEST);
        if is_apart || self.column != self.indented {
            self.paragraph = self.paragraph.saturating_add(1);
        }
        self.indented = self.column;
        indent(&mut self.bytes, self.column)
    }

    /// Writes a space.
    pub(crate) fn space(&mut self) -> Result<(), AllocError> {
        self.column = self.column.saturating_add(1);
        self.bytes.push(b' ')?;
        Ok(())
    }

    /// Writes a piece.
    pub(crate) fn write(&mut self, text: &[u8]) -> Result<(), AllocError> {
        for byte in text {
            self.bytes.push(*byte)?;
            self.column = self.column.saturating_add(1);
            if *byte == b'\n' {
                self.column = 0;
                self.paragraph = self.paragraph.saturating_add(1);
            }
        }
        Ok(())
    }

    /// Keeps a comment for the end of the line.
    pub(crate) fn end_with(&mut self, text: &'a [u8]) -> Result<(), AllocError> {
        self.tails.push(Tail {
            at: self.bytes.len(),
            paragraph: self.paragraph,
            column: self.column,
            text,
        })?;
        Ok(())
    }

    /// All of the text. The comments at the ends of a paragraph's lines stand in one column.
    pub(crate) fn whole(&self, alloc: Global, width: usize) -> Result<Vec<u8>, AllocError> {
        let mut out = Vec::new(alloc);
        let mut from = 0usize;
        let mut group = 0usize;
        let mut column = 0usize;
        for (i, tail) in self.tails.iter().enumerate() {
            if i >= group {
                (group, column) = group_of(&self.tails, i, width);
            }
            append(&mut out, part(&self.bytes, from, tail.at))?;
            indent(
                &mut out,
                column.saturating_sub(tail.column).max(BEFORE_COMMENT),
            )?;
            append(&mut out, tail.text)?;
            from = tail.at;
        }
        append(&mut out, part(&self.bytes, from, self.bytes.len()))?;
        if !out.is_empty() {
            out.push(b'\n')?;
        }
        Ok(out)
    }
}

/// The bytes from one index to another, or none.
fn part(bytes: &[u8], from: usize, end: usize) -> &[u8] {
    if from <= end && end <= bytes.len() {
        &bytes[from..end]
    } else {
        &[]
    }
}

/// Where a paragraph's comments end, by the index of the next comment, and the column of its comments, of which this is the first.
fn group_of(tails: &[Tail<'_>], first: usize, width: usize) -> (usize, usize) {
    let mut widest = 0usize;
    let mut end = first;
    let Some(head) = tails.get(first) else {
        return (end, widest);
    };
    for tail in tails.iter().skip(first) {
        if tail.paragraph != head.paragraph {
            break;
        }
        if tail.column <= width {
            widest = widest.max(tail.column);
        }
        end = end.saturating_add(1);
    }
    (end, widest.saturating_add(BEFORE_COMMENT))
}
