// The comments that allow warnings: `// allow: Unused`, at the end of the line or on the line before.

use cyc_lexer::Token;
use std::alloc::{AllocError, Global};

/// What a comment begins with that allows warnings.
const BEGIN: &[u8] = b"allow:";

/// The names of the warnings that are allowed in a line.
#[derive(Clone, Copy)]
pub(crate) struct Allowance<'t> {
    pub line: u32,
    names: &'t [u8],
}

/// Whether a byte stands between names.
fn is_between(byte: u8) -> bool {
    byte == b' ' || byte == b',' || byte == b'\t' || byte == b'\r'
}

impl Allowance<'_> {
    /// Whether a name is among those that are allowed.
    pub(crate) fn has(self, name: &[u8]) -> bool {
        self.names
            .split(|byte| is_between(*byte))
            .any(|allowed| allowed == name)
    }
}

/// What a comment allows that bytes are but for the white space before it.
fn allowed_by(bytes: &[u8]) -> Option<&[u8]> {
    let comment = bytes.trim_ascii_start().strip_prefix(b"//")?;
    comment.trim_ascii_start().strip_prefix(BEGIN)
}

/// The comments so far, and the line that the text has come to.
#[derive(Drop)]
pub(crate) struct Allowances<'t> {
    pub all: Vec<Allowance<'t>>,
    line: u32,
}

impl<'t> Allowances<'t> {
    /// Adds those between two tokens. A comment that is alone in its line allows for the next one. Fails only where no host memory is left,
    /// as all of these.
    fn add(&mut self, gap: &'t [u8], begins_line: bool) -> Result<(), AllocError> {
        let mut is_alone = begins_line;
        for part in gap.split(|byte| *byte == b'\n') {
            let next = self.line.saturating_add(1);
            if let Some(names) = allowed_by(part) {
                let line = if is_alone { next } else { self.line };
                self.all.push(Allowance { line, names })?;
            }
            self.line = next;
            is_alone = true;
        }
        self.line = self.line.saturating_sub(1);
        Ok(())
    }
}

/// What comments allow in a text with these tokens, in the order of the lines.
pub(crate) fn allowances_of<'t>(
    alloc: Global,
    text: &'t [u8],
    tokens: &[Token<'t>],
) -> Result<Vec<Allowance<'t>>, AllocError> {
    let mut found = Allowances {
        all: Vec::new(alloc),
        line: 1,
    };
    let mut behind = 0usize;
    for token in tokens {
        let gap = text.get(behind..token.at as usize).unwrap_or(b"");
        found.add(gap, behind == 0)?;
        behind = (token.at as usize).saturating_add(token.text.len());
    }
    let gap = text.get(behind..).unwrap_or(b"");
    found.add(gap, behind == 0)?;
    Ok(found.all)
}
