// Which tokens begin a phrase.

ghost use Rattle.std.specs.Prelude.{◌≡◌, Some};
ghost use Rattle.cyc_parser.specs.Reader.{passes};
ghost use Rattle.cyc_parser.specs.Tests.{begins_type as type_test, begins_declaration as declaration_test, begins_statement as statement_test};
ghost use Rattle.cyc_parser.specs.Tests.{begins_unary as unary_test};
ghost use Rattle.cyc_parser.specs.Tests.{is_control_word, begins_primary as primary_test, begins_suffix as suffix_test, begins_pointer as pointer_test};
ghost use Rattle.cyc_parser.specs.Tests.{begins_clause as clause_test, begins_declarator as declarator_test, is_prefix as prefix_test};
ghost use Rattle.cyc_parser.specs.Tests.{begins_item as item_test};

use crate::operator::prefix_of;
use cyc_lexer::{Keyword, Sign, TokenKind};

/// Whether a token of this kind begins a type.
pub fn begins_type(kind: Option<TokenKind>) -> bool
    ensures { result ≡ passes type_test kind }
{
    let Some(TokenKind::Keyword(keyword)) = kind else {
        return false;
    };
    match keyword {
        Keyword::Int | Keyword::Unsigned | Keyword::Char | Keyword::Void => true,
        Keyword::Struct | Keyword::Union | Keyword::RegionT | Keyword::UregionKeyT => true,
        _ => false,
    }
}

/// Whether a token of this kind begins a declaration in a block.
pub fn begins_declaration(kind: Option<TokenKind>) -> bool
    ensures { result ≡ passes declaration_test kind }
{
    match kind {
        Some(TokenKind::Keyword(Keyword::Region | Keyword::Let)) => true,
        _ => begins_type(kind),
    }
}

/// Whether a token of this kind begins a statement.
pub fn begins_statement(kind: Option<TokenKind>) -> bool
    ensures { result ≡ passes statement_test kind }
{
    match kind {
        Some(TokenKind::Sign(Sign::Semicolon | Sign::LeftBrace)) => true,
        Some(TokenKind::Keyword(keyword)) if begins_control(keyword) => true,
        _ => begins_unary(kind),
    }
}

/// Whether a token of this kind begins a declaration or a statement.
pub fn begins_item(kind: Option<TokenKind>) -> bool
    ensures { result ≡ passes item_test kind }
{
    begins_declaration(kind) || begins_statement(kind)
}

/// Whether the keyword begins a statement that begins with no expression.
fn begins_control(keyword: Keyword) -> bool
    ensures { result ≡ is_control_word keyword }
{
    match keyword {
        Keyword::If | Keyword::While | Keyword::Switch => true,
        Keyword::Break | Keyword::Continue | Keyword::Return => true,
        Keyword::Ufree | Keyword::FreeUkey => true,
        _ => false,
    }
}

/// Whether a token of this kind begins a unary expression.
pub fn begins_unary(kind: Option<TokenKind>) -> bool
    ensures { result ≡ passes unary_test kind }
{
    match kind {
        Some(TokenKind::Keyword(Keyword::New | Keyword::Rnew)) => true,
        Some(kind) => prefix_of(kind).is_some() || begins_primary(kind),
        None => false,
    }
}

/// Whether a token of this kind begins a prefix operator and its operand.
pub fn begins_prefixed(kind: Option<TokenKind>) -> bool
    ensures { result ≡ passes prefix_test kind }
{
    match kind {
        Some(kind) => prefix_of(kind).is_some(),
        None => false,
    }
}

/// Whether a token of this kind begins a primary expression.
fn begins_primary(kind: TokenKind) -> bool
    ensures { result ≡ primary_test kind }
{
    match kind {
        TokenKind::Number(_, _) | TokenKind::Character(_) | TokenKind::Text => true,
        TokenKind::Identifier | TokenKind::Sign(Sign::LeftParenthesis) => true,
        TokenKind::Keyword(Keyword::Null | Keyword::Numelts) => true,
        TokenKind::Keyword(Keyword::HeapRegion | Keyword::UniqueRegion) => true,
        _ => false,
    }
}

/// Whether a token of this kind begins a suffix of a primary expression.
pub fn begins_suffix(kind: Option<TokenKind>) -> bool
    ensures { result ≡ passes suffix_test kind }
{
    let Some(TokenKind::Sign(sign)) = kind else {
        return false;
    };
    matches!(sign, Sign::LeftBracket | Sign::Dot | Sign::Arrow)
}

/// Whether a token of this kind begins a pointer's sign.
pub fn begins_pointer(kind: Option<TokenKind>) -> bool
    ensures { result ≡ passes pointer_test kind }
{
    let Some(TokenKind::Sign(sign)) = kind else {
        return false;
    };
    matches!(sign, Sign::Star | Sign::At | Sign::Question)
}

/// Whether a token of this kind may stand behind a type's base in a declaration.
pub fn begins_declarator(kind: Option<TokenKind>) -> bool
    ensures { result ≡ passes declarator_test kind }
{
    match kind {
        Some(TokenKind::Identifier) => true,
        _ => begins_pointer(kind),
    }
}

/// Whether a token of this kind begins a clause of a `switch`.
pub fn begins_clause(kind: Option<TokenKind>) -> bool
    ensures { result ≡ passes clause_test kind }
{
    let Some(TokenKind::Keyword(keyword)) = kind else {
        return false;
    };
    matches!(keyword, Keyword::Case | Keyword::Default)
}
