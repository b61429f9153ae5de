// Declarations in blocks.

ghost use Rattle.std.specs.Prelude.{◌<◌, ◌≤◌, OnOk, length};
ghost use Rattle.cyc_tree.specs.View.{name_tree, initializer_tree, declaration_tree};
ghost use Rattle.cyc_parser.specs.Reader.{Gives};
ghost use Rattle.cyc_parser.specs.ReadExpressions.{expression_at};
ghost use Rattle.cyc_parser.specs.ReadStatements.{declaration_by, local_by, initializer_by, region_behind, binding_behind, alias_behind, new_key_at};
ghost use Rattle.cyc_parser.specs.ReadStatements.{parenthesized_name as parenthesized_name_at};

use crate::cursor::Cursor;
use crate::expression::expression;
use crate::fault::Parsed;
use crate::literal::element_count;
use crate::type_name::{one_region, type_name};
use cyc_lexer::{Keyword, Sign};
use cyc_tree::{Declaration, Initializer, Name};
use std::alloc::Global;

/// Reads a declaration, whose expression has at most `depth` nested phrases.
#[tactic(auto, unfolding(crate::specs::ReadStatements::declaration_by, crate::specs::ReadStatements::region_declaration, crate::specs::ReadStatements::binding))]
pub fn declaration(alloc: Global, depth: u32, cursor: &mut Cursor<'_, '_>) -> Parsed<Declaration>
    ensures reads { Gives declaration_tree result cursor.new (declaration_by (expression_at depth) cursor.old) }
    ensures shorter { OnOk result (length cursor.new < length cursor.old) }
{
    let at = cursor.place();
    if cursor.eat_keyword(Keyword::Region) {
        region(alloc, at, cursor)
    } else if cursor.eat_keyword(Keyword::Let) {
        binding(alloc, at, cursor)
    } else {
        local(alloc, depth, cursor)
    }
}

/// Reads the declaration of a local variable or array.
#[tactic(auto, unfolding(crate::specs::ReadStatements::local_by))]
fn local(alloc: Global, depth: u32, cursor: &mut Cursor<'_, '_>) -> Parsed<Declaration>
    ensures reads { Gives declaration_tree result cursor.new (local_by (expression_at depth) cursor.old) }
    ensures shorter { OnOk result (length cursor.new < length cursor.old) }
{
    let of = type_name(alloc, cursor)?;
    let name = cursor.name(alloc)?;
    let initializer = initializer(alloc, depth, cursor)?;
    if cursor.eat(Sign::Semicolon) {
        Ok(Declaration::Local(of, name, initializer))
    } else {
        Err(cursor.unexpected())
    }
}

/// Reads what a local begins with, where that is written.
#[tactic(auto, unfolding(crate::specs::ReadStatements::initializer_by))]
fn initializer(alloc: Global, depth: u32, cursor: &mut Cursor<'_, '_>) -> Parsed<Initializer>
    ensures reads { Gives initializer_tree result cursor.new (initializer_by (expression_at depth) cursor.old) }
    ensures shorter { OnOk result (length cursor.new ≤ length cursor.old) }
{
    if cursor.eat(Sign::Assign) {
        Ok(Initializer::Value(expression(alloc, depth, cursor)?))
    } else if cursor.is_sign(Sign::LeftBracket) {
        Ok(Initializer::Array(element_count(cursor)?))
    } else {
        Ok(Initializer::None)
    }
}

/// Reads the declaration of a region, a new one or one that a key opens, from behind its word, which stands at this position.
fn region(alloc: Global, at: u32, cursor: &mut Cursor<'_, '_>) -> Parsed<Declaration>
    ensures reads { Gives declaration_tree result cursor.new (region_behind at cursor.old) }
    ensures shorter { OnOk result (length cursor.new < length cursor.old) }
{
    let region = one_region(alloc, cursor)?;
    let handle = cursor.name(alloc)?;
    if cursor.eat(Sign::Assign) {
        cursor.keyword(Keyword::Open)?;
        let key = parenthesized_name(alloc, cursor)?;
        cursor.sign(Sign::Semicolon)?;
        Ok(Declaration::Open(at, region, handle, key))
    } else if cursor.eat(Sign::Semicolon) {
        Ok(Declaration::Region(at, region, handle))
    } else {
        Err(cursor.unexpected())
    }
}

/// Reads a declaration from behind its `let`, which stands at this position.
#[tactic(auto, unfolding(crate::specs::ReadStatements::alias_at))]
fn binding(alloc: Global, at: u32, cursor: &mut Cursor<'_, '_>) -> Parsed<Declaration>
    ensures reads { Gives declaration_tree result cursor.new (binding_behind at cursor.old) }
    ensures shorter { OnOk result (length cursor.new < length cursor.old) }
{
    if cursor.eat_keyword(Keyword::Alias) {
        alias(alloc, at, cursor)
    } else {
        new_key(alloc, at, cursor)
    }
}

/// Reads the declaration of an alias from behind `alias`. The position is that of its `let`.
fn alias(alloc: Global, at: u32, cursor: &mut Cursor<'_, '_>) -> Parsed<Declaration>
    ensures reads { Gives declaration_tree result cursor.new (alias_behind at cursor.old) }
    ensures shorter { OnOk result (length cursor.new < length cursor.old) }
{
    let region = one_region(alloc, cursor)?;
    let of = type_name(alloc, cursor)?;
    let name = cursor.name(alloc)?;
    cursor.sign(Sign::Assign)?;
    let pointer = cursor.name(alloc)?;
    if cursor.eat(Sign::Semicolon) {
        Ok(Declaration::Alias(at, region, of, name, pointer))
    } else {
        Err(cursor.unexpected())
    }
}

/// Reads the declaration of a dynamic region's key from `NewDynamicRegion` on. The position is that of its
/// `let`.
#[tactic(auto, unfolding(crate::specs::ReadStatements::new_key_at))]
fn new_key(alloc: Global, at: u32, cursor: &mut Cursor<'_, '_>) -> Parsed<Declaration>
    ensures reads { Gives declaration_tree result cursor.new (new_key_at at cursor.old) }
    ensures shorter { OnOk result (length cursor.new < length cursor.old) }
{
    if !(cursor.eat_keyword(Keyword::NewDynamicRegion) && cursor.eat(Sign::LeftBrace)) {
        return Err(cursor.unexpected());
    }
    let region = one_region(alloc, cursor)?;
    let key = cursor.name(alloc)?;
    let ends = cursor.eat(Sign::RightBrace)
        && cursor.eat(Sign::Assign)
        && cursor.eat_keyword(Keyword::NewUkey)
        && cursor.eat(Sign::LeftParenthesis)
        && cursor.eat(Sign::RightParenthesis)
        && cursor.eat(Sign::Semicolon);
    if ends {
        Ok(Declaration::NewKey(at, region, key))
    } else {
        Err(cursor.unexpected())
    }
}

/// Reads a name in parentheses.
#[tactic(auto, unfolding(crate::specs::ReadStatements::parenthesized_name))]
pub fn parenthesized_name(alloc: Global, cursor: &mut Cursor<'_, '_>) -> Parsed<Name>
    ensures reads { Gives name_tree result cursor.new (parenthesized_name_at cursor.old) }
    ensures shorter { OnOk result (length cursor.new < length cursor.old) }
{
    cursor.sign(Sign::LeftParenthesis)?;
    let name = cursor.name(alloc)?;
    cursor.sign(Sign::RightParenthesis)?;
    Ok(name)
}
