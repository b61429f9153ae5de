// What is missing before a fault of the grammar: a bracket that closes another one, or a `;`.

use crate::braces::{Brace, brace_around, is_parenthesis};
use crate::follow::wanted;
use crate::seen::{is_declared, opener};
use cyc_lexer::Token;

/// Whether an index is at the `(` of a function's head that stands among the statements of another one.
fn is_inner_head(tokens: &[Token<'_>], index: usize) -> bool {
    let is_head = match index.checked_sub(1) {
        Some(name) => is_parenthesis(tokens, index) && is_declared(tokens, name),
        None => false,
    };
    is_head
        && matches!(
            brace_around(tokens, index),
            Some(Brace::Block | Brace::Clauses)
        )
}

/// The bracket that isn't closed, by its offset: where the text ends too early, or where a function begins within another one.
pub fn unclosed(tokens: &[Token<'_>], index: usize) -> Option<u32> {
    if index < tokens.len() && !is_inner_head(tokens, index) {
        return None;
    }
    let token = tokens.get(opener(tokens, index)?)?;
    Some(token.at)
}

/// The offset behind the token before an index, where a `;` may stand there.
pub fn end_before(tokens: &[Token<'_>], index: usize) -> Option<u32> {
    if !wanted(tokens, index).as_bytes().ends_with(b"`;`") {
        return None;
    }
    let token = tokens.get(index.checked_sub(1)?)?;
    let length = u32::try_from(token.text.len()).unwrap_or(u32::MAX);
    Some(token.at.saturating_add(length))
}
