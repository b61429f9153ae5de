// What could stand at a fault of the grammar, by the token before it.

use crate::angles::{after_greater, after_less, regions_begin};
use crate::braces::{Brace, brace_around, brace_at, is_parenthesis};
use crate::moves::is_in_alias;
use crate::operands::{after_bracket, after_name, after_operand, is_array};
use crate::seen::{is_behind_type, kind_before, opener};
use cyc_lexer::{Keyword, Sign, Token, TokenKind};

/// What begins an item of a program.
const ITEM: &str = "an item: a type, `struct` or `@tagged`";
/// What may stand among statements.
const IN_BLOCK: &str = "a declaration, a statement or `}`";
/// What may stand among those of a clause of a `switch`.
const IN_CLAUSE: &str = "a declaration, a statement, `case`, `default` or `}`";
/// What may stand before a name that is declared.
pub(crate) const DECLARATOR: &str = "the sign of a pointer, or a name";
/// What may stand behind a pointer's sign.
const POINTER: &str = "the region of the pointer, the sign of a further pointer, or a name";

pub(crate) const EXPRESSION: &str = "an expression";

pub(crate) const REGION: &str = "a region's name";

const STATEMENT: &str = "a statement";

const PARENTHESIS: &str = "`(`";

/// What may stand after a keyword.
fn after_keyword(tokens: &[Token<'_>], index: usize, keyword: Keyword) -> &'static str {
    match keyword {
        Keyword::Int | Keyword::Char | Keyword::Void => DECLARATOR,
        Keyword::Unsigned => "`int`, the sign of a pointer, or a name",
        Keyword::Struct | Keyword::Union | Keyword::For => "a name",
        Keyword::RegionT | Keyword::UregionKeyT | Keyword::Region | Keyword::Alias => "`<`",
        Keyword::Let => "`alias` or `NewDynamicRegion`",
        Keyword::NewDynamicRegion | Keyword::Case => "`{`",
        Keyword::Default => "`:`",
        Keyword::New => "an expression, or `{for`",
        Keyword::Else => STATEMENT,
        Keyword::Break | Keyword::Continue => "`;`",
        Keyword::Return => "an expression or `;`",
        Keyword::HeapRegion | Keyword::UniqueRegion | Keyword::Null => after_operand(tokens, index),
        Keyword::If | Keyword::While | Keyword::Switch | Keyword::Numelts => PARENTHESIS,
        Keyword::Open | Keyword::NewUkey | Keyword::FreeUkey => PARENTHESIS,
        Keyword::Ufree | Keyword::Rnew => PARENTHESIS,
    }
}

/// What may stand as the first behind a brace.
fn in_braces(brace: Brace) -> &'static str {
    match brace {
        Brace::Bound => "a number",
        Brace::Array => "`for`",
        Brace::Effect => "a region's name or `}`",
        Brace::Key => "`<`",
        Brace::Pattern => "`.`",
        Brace::Members => "a type",
        Brace::Clauses => "`case` or `default`",
        Brace::Block => IN_BLOCK,
    }
}

/// What may stand after `{`.
fn after_open_brace(tokens: &[Token<'_>], index: usize) -> &'static str {
    match index.checked_sub(1) {
        Some(brace) => in_braces(brace_at(tokens, brace)),
        None => ITEM,
    }
}

/// What may stand behind a statement, a declaration or an item.
fn behind_whole(tokens: &[Token<'_>], index: usize) -> &'static str {
    match brace_around(tokens, index) {
        None => ITEM,
        Some(Brace::Members) => "a type or `}`",
        Some(Brace::Clauses) => IN_CLAUSE,
        Some(_) => IN_BLOCK,
    }
}

/// What may stand after `;`.
fn after_semicolon(tokens: &[Token<'_>], index: usize) -> &'static str {
    match opener(tokens, index) {
        Some(begin) if is_parenthesis(tokens, begin) => "`{` and the regions of the effect",
        _ => behind_whole(tokens, index),
    }
}

/// What may stand after `}`.
fn after_brace(tokens: &[Token<'_>], index: usize) -> &'static str {
    let Some(begin) = opener(tokens, index.saturating_sub(1)) else {
        return ITEM;
    };
    match brace_at(tokens, begin) {
        Brace::Bound => POINTER,
        Brace::Array => after_operand(tokens, index),
        Brace::Effect => "`:` or `)`",
        Brace::Key => "`=`",
        Brace::Pattern => "`:`",
        Brace::Members => "`;`",
        Brace::Clauses | Brace::Block => behind_whole(tokens, index),
    }
}

/// What may stand after `(` behind a name.
fn in_arguments(tokens: &[Token<'_>], index: usize) -> &'static str {
    match opener(tokens, index.saturating_sub(1)) {
        None => "a type, `void` or `)`",
        Some(_) => match kind_before(tokens, index, 3) {
            Some(TokenKind::Sign(Sign::Dot)) => EXPRESSION,
            _ => "an expression or `)`",
        },
    }
}

/// What may stand after `(`.
fn in_parentheses(tokens: &[Token<'_>], index: usize) -> &'static str {
    match kind_before(tokens, index, 2) {
        Some(TokenKind::Identifier) => in_arguments(tokens, index),
        Some(TokenKind::Keyword(keyword)) => match keyword {
            Keyword::Ufree | Keyword::FreeUkey | Keyword::Open => "a name",
            Keyword::NewUkey => "`)`",
            _ => EXPRESSION,
        },
        _ => EXPRESSION,
    }
}

/// What may stand after `)`.
fn after_parenthesis(tokens: &[Token<'_>], index: usize) -> &'static str {
    let Some(end) = index.checked_sub(1) else {
        return EXPRESSION;
    };
    let Some(begin) = opener(tokens, end) else {
        return EXPRESSION;
    };
    match kind_before(tokens, begin, 1) {
        Some(TokenKind::Keyword(Keyword::If | Keyword::While)) => STATEMENT,
        Some(TokenKind::Keyword(Keyword::Switch)) => "`{`",
        Some(TokenKind::Keyword(Keyword::Ufree | Keyword::FreeUkey | Keyword::Open)) => "`;`",
        Some(TokenKind::Keyword(Keyword::NewUkey)) => "`;`",
        Some(TokenKind::Keyword(Keyword::Rnew)) => "an expression, or `{for`",
        _ => match opener(tokens, begin) {
            None => "`{`",
            Some(_) => after_operand(tokens, index),
        },
    }
}

/// What may stand after `,`.
fn after_comma(tokens: &[Token<'_>], index: usize) -> &'static str {
    if let Some(TokenKind::Region) = kind_before(tokens, index, 2) {
        return REGION;
    }
    match opener(tokens, index) {
        Some(begin) => match opener(tokens, begin) {
            None => "a type",
            Some(_) => EXPRESSION,
        },
        None => ITEM,
    }
}

/// What may stand after a sign that is a pointer's, or an operator.
fn after_star(tokens: &[Token<'_>], index: usize) -> &'static str {
    match index.checked_sub(1) {
        Some(sign) if is_behind_type(tokens, sign) => POINTER,
        _ => EXPRESSION,
    }
}

/// What may stand after `=`.
fn after_assign(tokens: &[Token<'_>], index: usize) -> &'static str {
    match brace_around(tokens, index) {
        None if opener(tokens, index).is_none() => "a constant",
        Some(Brace::Pattern) => "a name",
        _ => match kind_before(tokens, index, 2) {
            Some(TokenKind::Sign(Sign::RightBrace)) => "`new_ukey`",
            _ if is_opened(tokens, index) => "`open`",
            _ if is_in_alias(tokens, index) => "a name",
            _ => EXPRESSION,
        },
    }
}

/// Whether the `=` before an index is behind the name of a region's handle.
fn is_opened(tokens: &[Token<'_>], index: usize) -> bool {
    matches!(
        kind_before(tokens, index, 6),
        Some(TokenKind::Keyword(Keyword::Region))
    )
}

/// What may stand after `:`.
fn after_colon(tokens: &[Token<'_>], index: usize) -> &'static str {
    match brace_around(tokens, index) {
        Some(Brace::Clauses) => IN_CLAUSE,
        Some(_) => EXPRESSION,
        None => REGION,
    }
}

/// What may stand after a sign.
fn after_sign(tokens: &[Token<'_>], index: usize, sign: Sign) -> &'static str {
    match sign {
        Sign::Semicolon => after_semicolon(tokens, index),
        Sign::LeftBrace => after_open_brace(tokens, index),
        Sign::RightBrace => after_brace(tokens, index),
        Sign::LeftParenthesis => in_parentheses(tokens, index),
        Sign::RightParenthesis => after_parenthesis(tokens, index),
        Sign::RightBracket => after_bracket(tokens, index),
        Sign::Comma => after_comma(tokens, index),
        Sign::Star => after_star(tokens, index),
        Sign::At | Sign::Question | Sign::NotNull | Sign::Thin | Sign::FatSign => POINTER,
        Sign::Less => after_less(tokens, index),
        Sign::Greater => after_greater(tokens, index),
        Sign::Dot | Sign::Arrow => "a member's name",
        Sign::Tagged => "`union`",
        Sign::Colon => after_colon(tokens, index),
        Sign::LeftBracket if is_array(tokens, index.saturating_sub(1)) => "a number",
        Sign::Assign => after_assign(tokens, index),
        Sign::Minus if opener(tokens, index).is_none() => "a number",
        _ => EXPRESSION,
    }
}

/// What may stand after the first region between angles.
fn after_first_region(tokens: &[Token<'_>], index: usize) -> &'static str {
    match kind_before(tokens, index, 3) {
        Some(TokenKind::Identifier) => "`,` or `>`",
        _ => "`>`",
    }
}

/// What may stand after a region's name behind `,`.
fn after_further_region(tokens: &[Token<'_>], index: usize) -> &'static str {
    match brace_around(tokens, index) {
        Some(Brace::Effect) => "`,` or `}`",
        _ if regions_begin(tokens, index).is_some() => "`,` or `>`",
        _ => "`>`",
    }
}

/// What may stand after a region's name.
fn after_region(tokens: &[Token<'_>], index: usize) -> &'static str {
    match kind_before(tokens, index, 2) {
        Some(TokenKind::Sign(sign)) => match sign {
            Sign::Less => after_first_region(tokens, index),
            Sign::Comma => after_further_region(tokens, index),
            Sign::Greater => "`,` or `)`",
            Sign::Colon => "`>`",
            Sign::LeftBrace => "`,` or `}`",
            _ => DECLARATOR,
        },
        _ => DECLARATOR,
    }
}

/// What could stand at a token of an index, in words, where the grammar has a fault there.
pub fn wanted(tokens: &[Token<'_>], index: usize) -> &'static str {
    match kind_before(tokens, index, 1) {
        None => ITEM,
        Some(TokenKind::Keyword(keyword)) => after_keyword(tokens, index, keyword),
        Some(TokenKind::Sign(sign)) => after_sign(tokens, index, sign),
        Some(TokenKind::Region) => after_region(tokens, index),
        Some(TokenKind::Identifier) => after_name(tokens, index),
        Some(TokenKind::Number(_, _) | TokenKind::Character(_) | TokenKind::Text) => {
            after_operand(tokens, index)
        }
    }
}
