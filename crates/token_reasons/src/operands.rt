// What could stand after an operand or a name.

use crate::braces::{Brace, brace_around, brace_at, has_colon};
use crate::moves::is_in_alias;
use crate::seen::{is_behind_type, is_declared, kind_at, kind_before, opener};
use cyc_lexer::{Keyword, Sign, Token, TokenKind};

/// What may stand after an operand, within parentheses.
fn in_parentheses(tokens: &[Token<'_>], begin: usize) -> &'static str {
    if opener(tokens, begin).is_none() {
        return "`,`, `;`, `:` or `)`";
    }
    match kind_before(tokens, begin, 1) {
        Some(TokenKind::Identifier) => match kind_before(tokens, begin, 2) {
            Some(TokenKind::Sign(Sign::Dot)) => "an operator or `)`",
            _ => "an operator, `,` or `)`",
        },
        Some(TokenKind::Keyword(Keyword::Ufree | Keyword::FreeUkey | Keyword::Open)) => "`)`",
        _ => "an operator or `)`",
    }
}

/// What may stand after an operand, within these braces.
fn in_braces(tokens: &[Token<'_>], index: usize, brace: Brace) -> &'static str {
    match brace {
        Brace::Bound => "`}`",
        Brace::Array => {
            if has_colon(tokens, index) {
                "an operator or `}`"
            } else {
                "an operator or `:`"
            }
        }
        _ => "an operator or `;`",
    }
}

/// Whether a bracket is that of an array which is declared.
pub(crate) fn is_array(tokens: &[Token<'_>], bracket: usize) -> bool {
    match bracket.checked_sub(1) {
        Some(name) => is_behind_type(tokens, name),
        None => false,
    }
}

/// What may stand after an operand.
pub(crate) fn after_operand(tokens: &[Token<'_>], index: usize) -> &'static str {
    let Some(begin) = opener(tokens, index) else {
        return "`;`";
    };
    match kind_at(tokens, begin) {
        Some(TokenKind::Sign(Sign::LeftParenthesis)) => in_parentheses(tokens, begin),
        Some(TokenKind::Sign(Sign::LeftBracket)) if is_array(tokens, begin) => "`]`",
        Some(TokenKind::Sign(Sign::LeftBracket)) => "an operator or `]`",
        _ => in_braces(tokens, index, brace_at(tokens, begin)),
    }
}

/// What may stand after `]`.
pub(crate) fn after_bracket(tokens: &[Token<'_>], index: usize) -> &'static str {
    match index.checked_sub(1) {
        Some(end) => match opener(tokens, end) {
            Some(begin) if is_array(tokens, begin) => "`;`",
            _ => after_operand(tokens, index),
        },
        None => after_operand(tokens, index),
    }
}

/// Whether the name before an index is that of a region's handle.
fn is_handle(tokens: &[Token<'_>], index: usize) -> bool {
    matches!(
        kind_before(tokens, index, 5),
        Some(TokenKind::Keyword(Keyword::Region))
    )
}

/// What may stand after a name that is declared in braces.
fn after_inner(tokens: &[Token<'_>], index: usize, brace: Brace) -> &'static str {
    match brace {
        Brace::Members => "`;`",
        _ if is_handle(tokens, index) => "`=` or `;`",
        _ if is_in_alias(tokens, index) => "`=`",
        _ => "`=`, `[` or `;`",
    }
}

/// What may stand after a name that is declared.
fn after_declared(tokens: &[Token<'_>], index: usize) -> &'static str {
    let Some(begin) = opener(tokens, index) else {
        return "`(`, `=`, `[` or `;`";
    };
    match kind_at(tokens, begin) {
        Some(TokenKind::Sign(Sign::LeftParenthesis)) => "`,`, `;`, `:` or `)`",
        _ => after_inner(tokens, index, brace_at(tokens, begin)),
    }
}

/// What may stand after a tag.
fn after_tag(tokens: &[Token<'_>], index: usize, keyword: Keyword) -> &'static str {
    match keyword {
        Keyword::Union => match kind_before(tokens, index, 3) {
            Some(TokenKind::Sign(Sign::Tagged)) => "`<` or `{`",
            _ => "`<`, the sign of a pointer or a name",
        },
        _ => match opener(tokens, index) {
            None => "`<`, the sign of a pointer, a name or `{`",
            Some(_) => "`<`, the sign of a pointer or a name",
        },
    }
}

/// What may stand after a name within the pattern of a clause, or within the braces of a new key.
fn after_bound(tokens: &[Token<'_>], index: usize) -> &'static str {
    match kind_before(tokens, index, 2) {
        Some(TokenKind::Sign(Sign::Dot)) => "`=`",
        _ => "`}`",
    }
}

/// What may stand after a name.
pub(crate) fn after_name(tokens: &[Token<'_>], index: usize) -> &'static str {
    match kind_before(tokens, index, 2) {
        Some(TokenKind::Keyword(Keyword::Struct)) => after_tag(tokens, index, Keyword::Struct),
        Some(TokenKind::Keyword(Keyword::Union)) => after_tag(tokens, index, Keyword::Union),
        Some(TokenKind::Keyword(Keyword::For)) => "`<`",
        _ => match brace_around(tokens, index) {
            Some(Brace::Pattern | Brace::Key) => after_bound(tokens, index),
            _ => after_other(tokens, index),
        },
    }
}

/// What may stand after a name that is declared or used.
fn after_other(tokens: &[Token<'_>], index: usize) -> &'static str {
    match index.checked_sub(1) {
        Some(name) if is_declared(tokens, name) => after_declared(tokens, index),
        _ if is_in_alias(tokens, index) => "`;`",
        _ => after_operand(tokens, index),
    }
}
