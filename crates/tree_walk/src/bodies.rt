// The literals and callees of functions' bodies.

ghost use Rattle.std.specs.Prelude.{map, option_map};
ghost use Rattle.cyc_tree.specs.View.{clause_tree, clauses_of, declaration_tree, expression_tree, initializer_tree, item_tree, items_of, statement_tree};
ghost use Rattle.source_meaning.specs.Callees.{clauses_callees, declaration_callees, initializer_callees, items_callees, returned_callees, statement_callees};
ghost use Rattle.source_meaning.specs.Strings.{clauses_strings, declaration_strings, initializer_strings, items_strings, returned_strings, statement_strings};
ghost use Rattle.tree_walk.specs.Listing.{Lists, one_item_callees, one_item_strings};

use crate::expressions::list_expression;
use crate::found::Found;
use cyc_tree::{BlockItem, Clause, Declaration, Expression, Initializer, Statement};

/// Lists the literals and callees of what a local begins with.
fn list_initializer<'p>(found: &mut Found<'p>, initializer: &'p Initializer)
    ensures { Lists found.old found.new (initializer_strings (initializer_tree initializer.entry.now)) (initializer_callees (initializer_tree initializer.entry.now)) }
{
    match initializer {
        Initializer::Value(value) => list_expression(found, value),
        Initializer::None | Initializer::Array(_) => {}
    }
}

/// Lists the literals and callees of a declaration.
fn list_declaration<'p>(found: &mut Found<'p>, declaration: &'p Declaration)
    ensures { Lists found.old found.new (declaration_strings (declaration_tree declaration.entry.now)) (declaration_callees (declaration_tree declaration.entry.now)) }
{
    match declaration {
        Declaration::Local(_, _, initializer) => list_initializer(found, initializer),
        Declaration::Region(_, _, _)
        | Declaration::Open(_, _, _, _)
        | Declaration::Alias(_, _, _, _, _)
        | Declaration::NewKey(_, _, _) => {}
    }
}

/// Lists the literals and callees of a result.
fn list_result<'p>(found: &mut Found<'p>, value: &'p Option<Expression>)
    ensures { Lists found.old found.new (returned_strings (option_map expression_tree value.entry.now)) (returned_callees (option_map expression_tree value.entry.now)) }
{
    match value {
        Some(returned) => list_expression(found, returned),
        None => {}
    }
}

/// Lists the literals and callees of a statement.
#[cycle(bodies)]
fn list_statement<'p>(found: &mut Found<'p>, statement: &'p Statement)
    ensures { Lists found.old found.new (statement_strings (statement_tree statement.entry.now)) (statement_callees (statement_tree statement.entry.now)) }
{
    match statement {
        Statement::Empty(_)
        | Statement::Break(_)
        | Statement::Continue(_)
        | Statement::FreeUnique(_, _)
        | Statement::FreeKey(_, _) => {}
        Statement::Block(_, items) => list_items(found, items),
        Statement::Run(value) => list_expression(found, value),
        Statement::Exchange(left, right) => {
            list_expression(found, left);
            list_expression(found, right);
        }
        Statement::If(_, condition, body) | Statement::While(_, condition, body) => {
            list_expression(found, condition);
            list_statement(found, body);
        }
        Statement::IfElse(_, condition, body, otherwise) => {
            list_expression(found, condition);
            list_statement(found, body);
            list_statement(found, otherwise);
        }
        Statement::Switch(_, place, clauses) => {
            list_expression(found, place);
            list_clauses(found, clauses);
        }
        Statement::Return(_, value) => list_result(found, value),
    }
}

/// Lists the literals and callees of an item of a block.
#[cycle(bodies)]
fn list_block_item<'p>(found: &mut Found<'p>, item: &'p BlockItem)
    ensures { Lists found.old found.new (one_item_strings (item_tree item.entry.now)) (one_item_callees (item_tree item.entry.now)) }
{
    match item {
        BlockItem::Declare(declaration) => list_declaration(found, declaration),
        BlockItem::Execute(statement) => list_statement(found, statement),
    }
}

/// Lists the literals and callees of a block's items.
#[cycle(bodies)]
pub(crate) fn list_items<'p>(found: &mut Found<'p>, items: &'p [BlockItem])
    ensures { Lists found.old found.new (items_strings (items_of (map item_tree items.entry.now))) (items_callees (items_of (map item_tree items.entry.now))) }
{
    'each: for item in items {
        list_block_item(found, item);
    }
}

/// Lists the literals and callees of the clauses of a `switch`.
#[cycle(bodies)]
fn list_clauses<'p>(found: &mut Found<'p>, clauses: &'p [Clause])
    ensures { Lists found.old found.new (clauses_strings (clauses_of (map clause_tree clauses.entry.now))) (clauses_callees (clauses_of (map clause_tree clauses.entry.now))) }
{
    'each: for clause in clauses {
        list_items(found, &clause.body);
    }
}
