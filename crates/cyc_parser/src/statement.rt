// Statements and blocks.

ghost use Rattle.std.specs.Prelude.{◌≡◌, ◌<◌, ◌≤◌, OnOk, map, length};
ghost use Rattle.cyc_tree.specs.View.{statement_tree, item_tree, clause_tree, pattern_tree};
ghost use Rattle.cyc_parser.specs.Reader.{Gives, done, read, sign as sign_at};
ghost use Rattle.cyc_parser.specs.ReadExpressions.{expression_at};
ghost use Rattle.cyc_parser.specs.ReadStatements.{returned_behind, run_by, simple_by, item_by, items_by, block_behind, conditional_behind, repeated_behind};
ghost use Rattle.cyc_parser.specs.ReadStatements.{pattern as pattern_at, clause_by, clauses_by, switch_behind, compound_by, statement_at};

use crate::cursor::Cursor;
use crate::declaration::{declaration, parenthesized_name};
use crate::expression::{expression, parenthesized};
use crate::fault::Parsed;
use crate::first::{begins_clause, begins_declaration, begins_item, begins_statement};
use crate::lists::without_spare;
use cyc_lexer::{Keyword, Sign};
use cyc_tree::{BlockItem, Clause, Pattern, Statement};
use std::alloc::Global;

/// Reads a statement, in which at most `depth` phrases nest.
#[cycle(statement)]
fn statement(alloc: Global, depth: u32, cursor: &mut Cursor<'_, '_>) -> Parsed<Statement>
    ensures reads { Gives statement_tree result cursor.new (statement_at depth cursor.old) }
    ensures shorter { OnOk result (length cursor.new < length cursor.old) }
{
    if depth == 0 {
        Err(cursor.too_deep(begins_statement(cursor.kind())))
    } else {
        compound(alloc, depth - 1, cursor)
    }
}

/// Reads a statement. Those in it have at most `depth` phrases in one another.
#[cycle(statement)]
#[tactic(auto, unfolding(crate::specs::ReadStatements::compound_by, crate::specs::ReadStatements::block_by, crate::specs::ReadStatements::conditional_by, crate::specs::ReadStatements::repeated_by, crate::specs::ReadStatements::switch_by))]
fn compound(alloc: Global, depth: u32, cursor: &mut Cursor<'_, '_>) -> Parsed<Statement>
    ensures reads { Gives statement_tree result cursor.new (compound_by (expression_at depth) (statement_at depth) cursor.old) }
    ensures shorter { OnOk result (length cursor.new < length cursor.old) }
{
    let at = cursor.place();
    if cursor.eat(Sign::LeftBrace) {
        block(alloc, depth, at, cursor)
    } else if cursor.eat_keyword(Keyword::If) {
        conditional(alloc, depth, at, cursor)
    } else if cursor.eat_keyword(Keyword::While) {
        repeated(alloc, depth, at, cursor)
    } else if cursor.eat_keyword(Keyword::Switch) {
        switch(alloc, depth, at, cursor)
    } else {
        simple(alloc, depth, cursor)
    }
}

/// Reads a statement into a box, in which at most `depth` phrases nest.
#[cycle(statement)]
fn boxed(alloc: Global, depth: u32, cursor: &mut Cursor<'_, '_>) -> Parsed<Box<Statement>>
    ensures reads { Gives (λ box. statement_tree box.value) result cursor.new (statement_at depth cursor.old) }
    ensures shorter { OnOk result (length cursor.new < length cursor.old) }
{
    let statement = statement(alloc, depth, cursor)?;
    Ok(Box::new(alloc, statement)?)
}

/// Reads a block from behind its brace, which stands at this position.
#[cycle(statement)]
fn block(alloc: Global, depth: u32, at: u32, cursor: &mut Cursor<'_, '_>) -> Parsed<Statement>
    ensures reads { Gives statement_tree result cursor.new (block_behind (expression_at depth) (statement_at depth) at cursor.old) }
    ensures shorter { OnOk result (length cursor.new < length cursor.old) }
{
    let items = block_items(alloc, depth, cursor)?;
    ended(Statement::Block(at, items), Sign::RightBrace, cursor)
}

/// Reads declarations and statements, as far as they go.
#[cycle(statement)]
pub fn block_items(alloc: Global, depth: u32, cursor: &mut Cursor<'_, '_>) -> Parsed<Vec<BlockItem>>
    ensures reads { Gives (λ items. map item_tree items.items) result cursor.new (items_by (expression_at depth) (statement_at depth) cursor.old) }
    ensures shorter { OnOk result (length cursor.new ≤ length cursor.old) }
{
    let mut items = Vec::new(alloc);
    'items: while begins_item(cursor.kind()) {
        items.push(block_item(alloc, depth, cursor)?)?;
    }
    Ok(without_spare(items))
}

/// Reads a declaration or a statement.
#[cycle(statement)]
#[tactic(auto, unfolding(crate::specs::ReadStatements::item_by))]
fn block_item(alloc: Global, depth: u32, cursor: &mut Cursor<'_, '_>) -> Parsed<BlockItem>
    ensures reads { Gives item_tree result cursor.new (item_by (expression_at depth) (statement_at depth) cursor.old) }
    ensures shorter { OnOk result (length cursor.new < length cursor.old) }
{
    if begins_declaration(cursor.kind()) {
        let declaration = declaration(alloc, depth, cursor)?;
        Ok(BlockItem::Declare(Box::new(alloc, declaration)?))
    } else {
        Ok(BlockItem::Execute(statement(alloc, depth, cursor)?))
    }
}

/// Reads an `if` from behind its word, which stands at this position, and the `else` that may stand after its statement.
#[cycle(statement)]
#[tactic(auto, unfolding(crate::specs::ReadStatements::otherwise_by))]
fn conditional(alloc: Global, depth: u32, at: u32, cursor: &mut Cursor<'_, '_>) -> Parsed<Statement>
    ensures reads { Gives statement_tree result cursor.new (conditional_behind (expression_at depth) (statement_at depth) at cursor.old) }
    ensures shorter { OnOk result (length cursor.new < length cursor.old) }
{
    let condition = parenthesized(alloc, depth, cursor)?;
    let body = boxed(alloc, depth, cursor)?;
    if cursor.eat_keyword(Keyword::Else) {
        let otherwise = boxed(alloc, depth, cursor)?;
        Ok(Statement::IfElse(at, condition, body, otherwise))
    } else {
        Ok(Statement::If(at, condition, body))
    }
}

/// Reads a `while` from behind its word, which stands at this position.
#[cycle(statement)]
fn repeated(alloc: Global, depth: u32, at: u32, cursor: &mut Cursor<'_, '_>) -> Parsed<Statement>
    ensures reads { Gives statement_tree result cursor.new (repeated_behind (expression_at depth) (statement_at depth) at cursor.old) }
    ensures shorter { OnOk result (length cursor.new < length cursor.old) }
{
    let condition = parenthesized(alloc, depth, cursor)?;
    let body = boxed(alloc, depth, cursor)?;
    Ok(Statement::While(at, condition, body))
}

/// Reads a `switch` from behind its word, which stands at this position.
#[cycle(statement)]
fn switch(alloc: Global, depth: u32, at: u32, cursor: &mut Cursor<'_, '_>) -> Parsed<Statement>
    ensures reads { Gives statement_tree result cursor.new (switch_behind (expression_at depth) (statement_at depth) at cursor.old) }
    ensures shorter { OnOk result (length cursor.new < length cursor.old) }
{
    let place = parenthesized(alloc, depth, cursor)?;
    cursor.sign(Sign::LeftBrace)?;
    let clauses = clauses(alloc, depth, cursor)?;
    ended(
        Statement::Switch(at, place, clauses),
        Sign::RightBrace,
        cursor,
    )
}

/// Reads the clauses of a `switch`, at least one.
#[cycle(statement)]
#[tactic(auto, unfolding(crate::specs::ReadStatements::clauses_by))]
fn clauses(alloc: Global, depth: u32, cursor: &mut Cursor<'_, '_>) -> Parsed<Vec<Clause>>
    ensures reads { Gives (λ clauses. map clause_tree clauses.items) result cursor.new (clauses_by (expression_at depth) (statement_at depth) cursor.old) }
    ensures shorter { OnOk result (length cursor.new < length cursor.old) }
{
    let mut clauses = Vec::new(alloc);
    'more: loop {
        clauses.push(clause(alloc, depth, cursor)?)?;
        if !begins_clause(cursor.kind()) {
            return Ok(clauses);
        }
    }
}

/// Reads a clause of a `switch`.
#[cycle(statement)]
#[tactic(auto, unfolding(crate::specs::ReadStatements::clause_by))]
fn clause(alloc: Global, depth: u32, cursor: &mut Cursor<'_, '_>) -> Parsed<Clause>
    ensures reads { Gives clause_tree result cursor.new (clause_by (expression_at depth) (statement_at depth) cursor.old) }
    ensures shorter { OnOk result (length cursor.new < length cursor.old) }
{
    let at = cursor.place();
    let pattern = pattern(alloc, cursor)?;
    cursor.sign(Sign::Colon)?;
    let body = block_items(alloc, depth, cursor)?;
    Ok(Clause { at, pattern, body })
}

/// Reads which members a clause takes.
#[tactic(auto, unfolding(crate::specs::ReadStatements::pattern))]
fn pattern(alloc: Global, cursor: &mut Cursor<'_, '_>) -> Parsed<Pattern>
    ensures reads { Gives pattern_tree result cursor.new (pattern_at cursor.old) }
    ensures shorter { OnOk result (length cursor.new < length cursor.old) }
{
    if cursor.eat_keyword(Keyword::Default) {
        return Ok(Pattern::Default);
    }
    let begins = cursor.eat_keyword(Keyword::Case)
        && cursor.eat(Sign::LeftBrace)
        && cursor.eat(Sign::Dot);
    if !begins {
        return Err(cursor.unexpected());
    }
    let member = cursor.name(alloc)?;
    cursor.sign(Sign::Assign)?;
    let name = cursor.name(alloc)?;
    cursor.sign(Sign::RightBrace)?;
    Ok(Pattern::Case(member, name))
}

/// Reads a statement that holds no other.
#[tactic(auto, unfolding(crate::specs::ReadStatements::simple_by, crate::specs::ReadStatements::word_read, crate::specs::ReadStatements::freed, crate::specs::ReadStatements::returned_by), using(crate::proofs::Regrouped::made_of))]
fn simple(alloc: Global, depth: u32, cursor: &mut Cursor<'_, '_>) -> Parsed<Statement>
    ensures reads { Gives statement_tree result cursor.new (simple_by (expression_at depth) cursor.old) }
    ensures shorter { OnOk result (length cursor.new < length cursor.old) }
{
    let at = cursor.place();
    if cursor.eat(Sign::Semicolon) {
        Ok(Statement::Empty(at))
    } else if cursor.eat_keyword(Keyword::Break) {
        ended(Statement::Break(at), Sign::Semicolon, cursor)
    } else if cursor.eat_keyword(Keyword::Continue) {
        ended(Statement::Continue(at), Sign::Semicolon, cursor)
    } else if cursor.eat_keyword(Keyword::Return) {
        returned(alloc, depth, at, cursor)
    } else if cursor.eat_keyword(Keyword::Ufree) {
        let pointer = parenthesized_name(alloc, cursor)?;
        ended(Statement::FreeUnique(at, pointer), Sign::Semicolon, cursor)
    } else if cursor.eat_keyword(Keyword::FreeUkey) {
        let key = parenthesized_name(alloc, cursor)?;
        ended(Statement::FreeKey(at, key), Sign::Semicolon, cursor)
    } else {
        run(alloc, depth, cursor)
    }
}

/// Reads the sign that ends a statement.
fn ended(statement: Statement, sign: Sign, cursor: &mut Cursor<'_, '_>) -> Parsed<Statement>
    ensures reads { Gives statement_tree result cursor.new (read (sign_at sign) (λ _. done (statement_tree statement)) cursor.old) }
    ensures shorter { OnOk result (length cursor.new < length cursor.old) }
{
    if cursor.eat(sign) {
        Ok(statement)
    } else {
        Err(cursor.unexpected())
    }
}

/// Reads a `return` from behind its word, which stands at this position, with its result where it has one.
fn returned(alloc: Global, depth: u32, at: u32, cursor: &mut Cursor<'_, '_>) -> Parsed<Statement>
    ensures reads { Gives statement_tree result cursor.new (returned_behind (expression_at depth) at cursor.old) }
    ensures shorter { OnOk result (length cursor.new < length cursor.old) }
{
    if cursor.eat(Sign::Semicolon) {
        return Ok(Statement::Return(at, None));
    }
    let value = expression(alloc, depth, cursor)?;
    ended(Statement::Return(at, Some(value)), Sign::Semicolon, cursor)
}

/// Reads an expression that is evaluated, or two between which values are exchanged.
#[tactic(auto, unfolding(crate::specs::ReadStatements::run_by))]
fn run(alloc: Global, depth: u32, cursor: &mut Cursor<'_, '_>) -> Parsed<Statement>
    ensures reads { Gives statement_tree result cursor.new (run_by (expression_at depth) cursor.old) }
    ensures shorter { OnOk result (length cursor.new < length cursor.old) }
{
    let first = expression(alloc, depth, cursor)?;
    if cursor.eat(Sign::Exchange) {
        let second = expression(alloc, depth, cursor)?;
        let (first, second) = (Box::new(alloc, first)?, Box::new(alloc, second)?);
        ended(Statement::Exchange(first, second), Sign::Semicolon, cursor)
    } else {
        ended(Statement::Run(first), Sign::Semicolon, cursor)
    }
}
