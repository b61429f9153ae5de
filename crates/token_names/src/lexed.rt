// The tokens of a text that may have what is none.

use cyc_lexer::{LexFault, Token, tokens};
use std::alloc::{AllocError, Global};

/// How many lines with a fault of the tokens are passed over.
const MOST_FAULTS: u32 = 16;

/// Adds the tokens of a part of a text that begins at an offset.
fn push_part<'a>(
    found: &mut Vec<Token<'a>>,
    part: &[Token<'a>],
    begin: u32,
) -> Result<(), AllocError> {
    for token in part {
        found.push(Token {
            kind: token.kind,
            at: token.at.saturating_add(begin),
            text: token.text,
        })?;
    }
    Ok(())
}

/// Adds the tokens of a part, and answers the offset in it where a fault stands; none, where there is none.
fn push_until<'a>(
    found: &mut Vec<Token<'a>>,
    alloc: Global,
    part: &'a [u8],
    begin: u32,
) -> Result<Option<usize>, AllocError> {
    match tokens(alloc, part) {
        Ok(all) => {
            push_part(found, all.as_slice(), begin)?;
            Ok(None)
        }
        Err(LexFault::Lex(at)) => Ok(Some(at as usize)),
        Err(LexFault::Memory) => Err(AllocError),
    }
}

/// How many bytes there are up to the next line.
fn line_length(part: &[u8]) -> usize {
    for (index, byte) in part.iter().enumerate() {
        if *byte == b'\n' {
            return index.saturating_add(1);
        }
    }
    part.len()
}

/// Adds the tokens before the fault in a part, and answers where the line behind it begins in the part.
fn push_before<'a>(
    found: &mut Vec<Token<'a>>,
    alloc: Global,
    part: &'a [u8],
    begin: u32,
) -> Result<Option<usize>, AllocError> {
    let Some(at) = push_until(found, alloc, part, begin)? else {
        return Ok(None);
    };
    let before = part.get(..at).unwrap_or(part);
    let _none = push_until(found, alloc, before, begin)?;
    let rest = part.get(at..).unwrap_or(part);
    Ok(Some(at.saturating_add(line_length(rest))))
}

/// The tokens of a text; where it has what is none, those before it and those of the lines behind it. Fails only where no host memory is left.
pub fn pieces(alloc: Global, text: &[u8]) -> Result<Vec<Token<'_>>, AllocError> {
    let mut found = Vec::new(alloc);
    let mut part = text;
    let mut begin = 0u32;
    for _ in 0..MOST_FAULTS {
        let Some(length) = push_before(&mut found, alloc, part, begin)? else {
            break;
        };
        let Some(rest) = part.get(length..) else {
            break;
        };
        part = rest;
        begin = begin.saturating_add(u32::try_from(length).unwrap_or(u32::MAX));
    }
    Ok(found)
}
