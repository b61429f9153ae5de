// Warnings with their lines and columns, but for those that a comment allows.

use crate::allowed::{Allowance, allowances_of};
use crate::warning::Warning;
use cyc_lexer::Token;
use std::alloc::{AllocError, Global};

/// A warning, with its line and column from 1 on.
#[derive(Clone, Copy)]
pub struct Placed<'p, 't> {
    pub warning: Warning<'p>,
    pub line: u32,
    pub column: u32,
    /// What stands around it in its line, and more where that ends.
    pub around: &'t [u8],
    /// The column in that.
    pub mark: u32,
}

/// How many bytes before and behind a warning are around it.
const AROUND: usize = 1000;

/// A position in a text: its offset, its line, and where that begins.
#[derive(Clone, Copy)]
struct Position {
    at: usize,
    line: u32,
    begin: usize,
}

impl Position {
    /// The position of an offset behind this one.
    fn moved(self, text: &[u8], at: usize) -> Position {
        let mut line = self.line;
        let mut begin = self.begin;
        let passed = text.get(self.at..at).unwrap_or(b"");
        for (index, byte) in passed.iter().enumerate() {
            if *byte == b'\n' {
                line = line.saturating_add(1);
                begin = self.at.saturating_add(index).saturating_add(1);
            }
        }
        Position { at, line, begin }
    }

    /// The column, from 1 on, where the line begins at an offset.
    fn column_from(self, begin: usize) -> u32 {
        let before = self.at.saturating_sub(begin);
        u32::try_from(before).unwrap_or(u32::MAX).saturating_add(1)
    }

    /// A warning at this position.
    fn placed<'p, 't>(self, text: &'t [u8], warning: Warning<'p>) -> Placed<'p, 't> {
        let from = self.begin.max(self.at.saturating_sub(AROUND));
        let to = self.at.saturating_add(AROUND).min(text.len());
        Placed {
            warning,
            line: self.line,
            column: self.column_from(self.begin),
            around: text.get(from..to).unwrap_or(b""),
            mark: self.column_from(from),
        }
    }
}

/// How many of the first allowances are of lines before a line, where some of them are known to be.
fn passed(allowances: &[Allowance<'_>], known: usize, line: u32) -> usize {
    let rest = allowances.get(known..).unwrap_or(&[]);
    for (index, allowance) in rest.iter().enumerate() {
        if line <= allowance.line {
            return known.saturating_add(index);
        }
    }
    allowances.len()
}

/// Whether an allowance of a number has a warning's name, and is of its line.
fn allows(allowances: &[Allowance<'_>], number: usize, line: u32, warning: &Warning<'_>) -> bool {
    match allowances.get(number) {
        Some(allowance) => allowance.line == line && allowance.has(warning.kind.name().as_bytes()),
        None => false,
    }
}

/// The warnings, which are in the order of the text, with their places, but for those that a comment allows. Fails only where no host memory
/// is left.
pub fn with_places<'p, 't>(
    alloc: Global,
    text: &'t [u8],
    tokens: &[Token<'t>],
    warnings: &[Warning<'p>],
) -> Result<Vec<Placed<'p, 't>>, AllocError> {
    let allowances = allowances_of(alloc, text, tokens)?;
    let mut found = Vec::new(alloc);
    let mut position = Position {
        at: 0,
        line: 1,
        begin: 0,
    };
    let mut known = 0usize;
    for warning in warnings {
        position = position.moved(text, warning.at as usize);
        let line = position.line;
        known = passed(&allowances, known, line);
        let is_allowed = allows(&allowances, known, line, warning)
            || allows(&allowances, known.saturating_add(1), line, warning);
        if !is_allowed {
            found.push(position.placed(text, *warning))?;
        }
    }
    Ok(found)
}
