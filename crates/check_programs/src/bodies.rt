// The strings of functions' bodies, counted in the order of the text.

ghost use Rattle.std.specs.Prelude.{map, option_map};
ghost use Rattle.cyc_tree.specs.View.{clause_tree, clauses_of, declaration_tree, expression_tree, initializer_tree, item_tree, items_of, statement_tree};
ghost use Rattle.source_meaning.specs.Strings.{clauses_strings, declaration_strings, initializer_strings, items_strings, returned_strings, statement_strings};
ghost use Rattle.check_programs.specs.Strings.{clause_strings, one_item_strings};
ghost use Rattle.check_programs.specs.Totals.{Counts};

use crate::strings::with_expression;
use crate::total::Total;
use cyc_tree::{BlockItem, Clause, Declaration, Expression, Initializer, Statement};

/// With the strings of what a local begins with.
fn with_initializer(total: Total, initializer: &Initializer) -> Total
    ensures { Counts total result (initializer_strings (initializer_tree initializer.now)) }
{
    match initializer {
        Initializer::Value(value) => with_expression(total, value),
        Initializer::None | Initializer::Array(_) => total,
    }
}

/// With the strings of a declaration.
fn with_declaration(total: Total, declaration: &Declaration) -> Total
    ensures { Counts total result (declaration_strings (declaration_tree declaration.now)) }
{
    match declaration {
        Declaration::Local(_, _, initializer) => with_initializer(total, initializer),
        Declaration::Region(_, _, _)
        | Declaration::Open(_, _, _, _)
        | Declaration::Alias(_, _, _, _, _)
        | Declaration::NewKey(_, _, _) => total,
    }
}

/// With the strings of a result.
fn with_result(total: Total, value: &Option<Expression>) -> Total
    ensures { Counts total result (returned_strings (option_map expression_tree value.now)) }
{
    match value {
        Some(returned) => with_expression(total, returned),
        None => total,
    }
}

/// With the strings of a statement.
#[cycle(bodies)]
fn with_statement(total: Total, statement: &Statement) -> Total
    ensures { Counts total result (statement_strings (statement_tree statement.now)) }
{
    match statement {
        Statement::Empty(_)
        | Statement::Break(_)
        | Statement::Continue(_)
        | Statement::FreeUnique(_, _)
        | Statement::FreeKey(_, _) => total,
        Statement::Block(_, items) => with_items(total, items),
        Statement::Run(value) => with_expression(total, value),
        Statement::Exchange(left, right) => {
            let before = with_expression(total, left);
            with_expression(before, right)
        }
        Statement::If(_, condition, body) | Statement::While(_, condition, body) => {
            let before = with_expression(total, condition);
            with_statement(before, body)
        }
        Statement::IfElse(_, condition, body, otherwise) => {
            let before = with_expression(total, condition);
            let first = with_statement(before, body);
            with_statement(first, otherwise)
        }
        Statement::Switch(_, place, clauses) => {
            let before = with_expression(total, place);
            with_clauses(before, clauses)
        }
        Statement::Return(_, value) => with_result(total, value),
    }
}

/// With the strings of an item of a block.
#[cycle(bodies)]
fn with_block_item(total: Total, item: &BlockItem) -> Total
    ensures { Counts total result (one_item_strings (item_tree item.now)) }
{
    match item {
        BlockItem::Declare(declaration) => with_declaration(total, declaration),
        BlockItem::Execute(statement) => with_statement(total, statement),
    }
}

/// With the strings of a block's items.
#[cycle(bodies)]
pub(crate) fn with_items(total: Total, items: &[BlockItem]) -> Total
    ensures { Counts total result (items_strings (items_of (map item_tree items.now))) }
{
    let mut so_far = total;
    'each: for item in items {
        so_far = with_block_item(so_far, item);
    }
    so_far
}

/// With the strings of a clause of a `switch`.
#[cycle(bodies)]
fn with_clause(total: Total, clause: &Clause) -> Total
    ensures { Counts total result (clause_strings (clause_tree clause.now)) }
{
    with_items(total, &clause.body)
}

/// With the strings of the clauses of a `switch`.
#[cycle(bodies)]
fn with_clauses(total: Total, clauses: &[Clause]) -> Total
    ensures { Counts total result (clauses_strings (clauses_of (map clause_tree clauses.now))) }
{
    let mut so_far = total;
    'each: for clause in clauses {
        so_far = with_clause(so_far, clause);
    }
    so_far
}
