// What the tokens, the grammar, and the rules of the language without those on live regions and effects say of a source. What is no program, or has no
// tokens, is refused without a word: `cycc check` has the reason.

use crate::answers::Found;
use check_faults::Fault;
use check_programs::program_fault;
use command_line::status::{REFUSED, SUCCESS};
use cyc_lexer::{LexFault, Token, place_of, tokens};
use cyc_parser::{ParseFault, parse};
use cyc_tree::Program;
use std::alloc::{AllocError, Global};

/// What is answered with these lines on standard output.
fn written(alloc: Global, lines: String) -> Found {
    let mut found = Found::nothing(alloc, SUCCESS);
    found.written = lines.into_bytes();
    found
}

/// The kinds of tokens, in one line, with spaces between them: nothing where there are none.
fn kinds(alloc: Global, tokens: &[Token<'_>]) -> Result<String, AllocError> {
    let mut kinds = String::new(alloc);
    let last = tokens.len().saturating_sub(1);
    for (number, token) in tokens.iter().enumerate() {
        let kind = token.kind;
        let end = if number == last { '\n' } else { ' ' };
        write!(kinds, "{kind:?}{end}")?;
    }
    Ok(kinds)
}

/// The kinds of a source's tokens.
pub fn tokens_found(alloc: Global, source: &[u8]) -> Result<Found, AllocError> {
    match tokens(alloc, source) {
        Ok(tokens) => Ok(written(alloc, kinds(alloc, &tokens)?)),
        Err(LexFault::Memory) => Err(AllocError),
        Err(LexFault::Lex(_)) => Ok(Found::nothing(alloc, REFUSED)),
    }
}

/// The program that a source spells, if it spells one.
fn program_of(alloc: Global, source: &[u8]) -> Result<Option<Program>, AllocError> {
    let tokens = match tokens(alloc, source) {
        Ok(tokens) => tokens,
        Err(LexFault::Memory) => return Err(AllocError),
        Err(LexFault::Lex(_)) => return Ok(None),
    };
    match parse(alloc, &tokens) {
        Ok(program) => Ok(Some(program)),
        Err(ParseFault::Memory) => Err(AllocError),
        Err(_) => Ok(None),
    }
}

/// That a source has no fault, or which one it has, and where.
fn verdict(alloc: Global, source: &[u8], fault: Option<Fault>) -> Result<Found, AllocError> {
    let Some(Fault { kind, at }) = fault else {
        return Ok(written(alloc, format!(in alloc; "accepted\n")?));
    };
    let (line, column) = place_of(source, at);
    let mut found = Found::nothing(alloc, REFUSED);
    found.said = format!(in alloc; "IN:{line}:{column}: {kind}\n")?.into_bytes();
    Ok(found)
}

/// Whether a source spells a program.
pub fn program_found(alloc: Global, source: &[u8]) -> Result<Found, AllocError> {
    match program_of(alloc, source)? {
        Some(_) => verdict(alloc, source, None),
        None => Ok(Found::nothing(alloc, REFUSED)),
    }
}

/// What the rules on names, types, regions and sizes say of a source, without those on live regions and effects.
pub fn fault_found(alloc: Global, source: &[u8]) -> Result<Found, AllocError> {
    match program_of(alloc, source)? {
        Some(program) => verdict(alloc, source, program_fault(alloc, &program, true)?),
        None => Ok(Found::nothing(alloc, REFUSED)),
    }
}
