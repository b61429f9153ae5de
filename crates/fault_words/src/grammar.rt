// What is said of a fault of the grammar.

use crate::words::Words;
use cyc_lexer::{Token, TokenKind};
use explanations::c_word;
use std::alloc::AllocError;
use token_reasons::{end_before, hint, index_at, unclosed, wanted};

/// Says what was found, and what could stand there.
fn say_found(words: &mut Words<'_>, tokens: &[Token<'_>], index: usize) -> Result<(), AllocError> {
    words.say("Found:  ")?;
    match tokens.get(index) {
        Some(token) => words.name(token.text)?,
        None => words.say("the end of the text")?,
    }
    words.say("\nWanted: ")?;
    words.say(wanted(tokens, index))?;
    words.say("\n")
}

/// What to write in place of a word of C.
fn in_place_of(token: Option<&Token<'_>>) -> Option<&'static str> {
    match token {
        Some(token) if matches!(token.kind, TokenKind::Identifier) => c_word(token.text),
        _ => None,
    }
}

/// What to write in place of a word of C, where one stands before an index or at it.
fn word_at(tokens: &[Token<'_>], index: usize) -> Option<&'static str> {
    let Some(before) = index.checked_sub(1) else {
        return in_place_of(tokens.get(index));
    };
    match in_place_of(tokens.get(before)) {
        Some(said) => Some(said),
        None => in_place_of(tokens.get(index)),
    }
}

/// Says what to write in place of a word of C, where one stands there.
fn say_word(words: &mut Words<'_>, tokens: &[Token<'_>], index: usize) -> Result<(), AllocError> {
    match word_at(tokens, index) {
        Some(said) => {
            words.say(said)?;
            words.say(".\n")
        }
        None => Ok(()),
    }
}

/// Says what to write for a construct of C.
fn say_hint(words: &mut Words<'_>, tokens: &[Token<'_>], index: usize) -> Result<(), AllocError> {
    match hint(tokens, index) {
        Some(hint) => {
            words.say(hint)?;
            words.say("\n")
        }
        None => say_word(words, tokens, index),
    }
}

/// Says which bracket isn't closed, where that is the fault.
fn say_unclosed(
    words: &mut Words<'_>,
    tokens: &[Token<'_>],
    index: usize,
) -> Result<(), AllocError> {
    let Some(at) = unclosed(tokens, index) else {
        return Ok(());
    };
    words.say("The `")?;
    words.written(at, at.saturating_add(1))?;
    words.say("` at ")?;
    words.position(at)?;
    words.relate(at, "not closed", b"")?;
    words.say(" isn't closed.\n")
}

/// Shows where a `;` may be missing, where that is in a line before the fault.
fn say_missing(
    words: &mut Words<'_>,
    tokens: &[Token<'_>],
    index: usize,
    at: u32,
) -> Result<(), AllocError> {
    match end_before(tokens, index) {
        Some(end) if words.line(end) < words.line(at) => {
            words.mend(end, end, b";")?;
            words.say("A `;` may be missing at ")?;
            words.position(end)?;
            words.relate(end, "a `;` may be missing here", b"")?;
            words.say(":\n")?;
            words.marked(end)
        }
        _ => Ok(()),
    }
}

/// Says what was found at a fault of the grammar, and what could stand there. Fails only where no host memory is left, as all of these.
pub fn say_grammar(words: &mut Words<'_>, tokens: &[Token<'_>], at: u32) -> Result<(), AllocError> {
    let index = index_at(tokens, at);
    say_found(words, tokens, index)?;
    say_hint(words, tokens, index)?;
    say_unclosed(words, tokens, index)?;
    say_missing(words, tokens, index, at)
}
