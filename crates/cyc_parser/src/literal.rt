// Literals and constants.

ghost use Rattle.std.specs.Prelude.{◌≡◌, ◌<◌, OnOk, length};
ghost use Rattle.cyc_tree.specs.View.{expression_tree, constant_tree};
ghost use Rattle.cyc_parser.specs.Reader.{Gives};
ghost use Rattle.cyc_parser.specs.ReadTypes.{constant as constant_at, element_count as element_count_at};
ghost use Rattle.cyc_parser.specs.ReadExpressions.{literal as literal_at};

use crate::cursor::Cursor;
use crate::fault::{ParseFault, Parsed};
use cyc_lexer::{Keyword, Sign, TokenKind, string_bytes};
use cyc_tree::{Constant, Expression};
use std::alloc::Global;

/// Reads a primary expression of one token that is no name.
#[tactic(auto, unfolding(crate::specs::ReadExpressions::literal))]
pub fn literal(alloc: Global, cursor: &mut Cursor<'_, '_>) -> Parsed<Expression>
    ensures reads { Gives expression_tree result cursor.new (literal_at cursor.old) }
    ensures shorter { OnOk result (length cursor.new < length cursor.old) }
{
    let token = cursor.read()?;
    match token.kind {
        TokenKind::Number(value, suffix) => Ok(Expression::Number(token.at, value, suffix)),
        TokenKind::Character(byte) => Ok(Expression::Character(token.at, byte)),
        TokenKind::Text => Ok(Expression::Text(token.at, string_bytes(alloc, token.text)?)),
        TokenKind::Keyword(Keyword::Null) => Ok(Expression::Null(token.at)),
        TokenKind::Keyword(Keyword::HeapRegion) => Ok(Expression::HeapRegion(token.at)),
        TokenKind::Keyword(Keyword::UniqueRegion) => Ok(Expression::UniqueRegion(token.at)),
        _ => Err(ParseFault::Parse(token.at)),
    }
}

/// Reads a constant.
#[tactic(auto, unfolding(crate::specs::ReadTypes::constant))]
pub fn constant(alloc: Global, cursor: &mut Cursor<'_, '_>) -> Parsed<Constant>
    ensures reads { Gives constant_tree result cursor.new (constant_at cursor.old) }
    ensures shorter { OnOk result (length cursor.new < length cursor.old) }
{
    let token = cursor.read()?;
    match token.kind {
        TokenKind::Number(value, suffix) => Ok(Constant::Number(token.at, value, suffix)),
        TokenKind::Sign(Sign::Minus) => {
            let (value, suffix) = cursor.number()?;
            Ok(Constant::Negative(token.at, value, suffix))
        }
        TokenKind::Character(byte) => Ok(Constant::Character(token.at, byte)),
        TokenKind::Text => Ok(Constant::Text(token.at, string_bytes(alloc, token.text)?)),
        TokenKind::Keyword(Keyword::Null) => Ok(Constant::Null(token.at)),
        _ => Err(ParseFault::Parse(token.at)),
    }
}

/// Reads the count of an array's elements, in brackets.
#[tactic(auto, unfolding(crate::specs::ReadTypes::element_count))]
pub fn element_count(cursor: &mut Cursor<'_, '_>) -> Parsed<u32>
    ensures reads { Gives (λ count. count) result cursor.new (element_count_at cursor.old) }
    ensures shorter { OnOk result (length cursor.new < length cursor.old) }
{
    cursor.sign(Sign::LeftBracket)?;
    let (count, _) = cursor.number()?;
    cursor.sign(Sign::RightBracket)?;
    Ok(count)
}
