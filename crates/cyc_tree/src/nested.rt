// How deep the phrases of a program nest.

ghost use Rattle.std.specs.Prelude.{◌≡◌, ◌-◌, ◌^◌, min, map};
ghost use Rattle.cyc_tree.specs.View.{expression_tree, expressions_of, link_tree, links_of, suffix_tree, suffixes_of, made_tree, initializer_tree};
ghost use Rattle.cyc_tree.specs.View.{declaration_tree, statement_tree, item_tree, items_of, clause_tree, clauses_of, program_item_tree};
ghost use Rattle.cyc_tree.specs.Depths.{inner_starts, expression_starts, argument_starts, operand_starts, link_starts, suffix_starts, made_starts};
ghost use Rattle.cyc_tree.specs.Depths.{declaration_starts, statement_starts, items_starts, clauses_starts, item_starts, greatest_depth, nesting};

use crate::expression::{Expression, Link, Made, Suffix};
use crate::item::{Item, Program};
use crate::statement::{BlockItem, Clause, Declaration, Initializer, Statement};

/// The nesting of an expression that itself is not counted.
#[cycle(expressions)]
#[tactic(auto, using(crate::proofs::NestingSteps::in_expressions))]
fn inner_nesting(expression: &Expression) -> u32
    ensures { result ≡ min (greatest_depth (inner_starts 0 (expression_tree expression.now))) (2 ^ 32 - 1) }
{
    match expression {
        Expression::Call(_, arguments) => argument_nesting(arguments).saturating_add(1),
        Expression::MakeUnion(_, _, inner)
        | Expression::NumElts(_, inner)
        | Expression::Grouped(_, inner) => inner_nesting(inner).saturating_add(2),
        Expression::Suffixed(primary, suffixes) => {
            inner_nesting(primary).max(suffix_nesting(suffixes).saturating_add(1))
        }
        Expression::Prefixed(_, _, operand) => inner_nesting(operand).saturating_add(1),
        Expression::New(_, made) => made_nesting(made).saturating_add(1),
        Expression::NewIn(_, handle, made) => expression_nesting(handle)
            .max(made_nesting(made))
            .saturating_add(1),
        Expression::Chain(first, others) => inner_nesting(first).max(link_nesting(others)),
        Expression::AllOf(first, others) | Expression::AnyOf(first, others) => {
            inner_nesting(first).max(operand_nesting(others))
        }
        Expression::Assign(place, value) => inner_nesting(place).max(expression_nesting(value)),
        _ => 1,
    }
}

/// The nesting of a whole expression.
#[cycle(expressions)]
#[tactic(auto, using(crate::proofs::NestingSteps::in_expressions))]
fn expression_nesting(expression: &Expression) -> u32
    ensures { result ≡ min (greatest_depth (expression_starts 0 (expression_tree expression.now))) (2 ^ 32 - 1) }
{
    inner_nesting(expression).saturating_add(1)
}

/// The nesting of arguments.
#[cycle(expressions)]
#[tactic(auto, using(crate::proofs::NestingSteps::in_expressions))]
fn argument_nesting(arguments: &[Expression]) -> u32
    ensures { result ≡ min (greatest_depth (argument_starts 0 (expressions_of (map expression_tree arguments.now)))) (2 ^ 32 - 1) }
{
    let mut greatest = 0;
    'each: for argument in arguments {
        greatest = greatest.max(expression_nesting(argument));
    }
    greatest
}

/// The nesting of operands.
#[cycle(expressions)]
#[tactic(auto, using(crate::proofs::NestingSteps::in_expressions))]
fn operand_nesting(operands: &[Expression]) -> u32
    ensures { result ≡ min (greatest_depth (operand_starts 0 (expressions_of (map expression_tree operands.now)))) (2 ^ 32 - 1) }
{
    let mut greatest = 0;
    'each: for operand in operands {
        greatest = greatest.max(inner_nesting(operand));
    }
    greatest
}

/// The nesting of the operands of a chain after the first.
#[cycle(expressions)]
#[tactic(auto, using(crate::proofs::NestingSteps::in_expressions))]
fn link_nesting(links: &[Link]) -> u32
    ensures { result ≡ min (greatest_depth (link_starts 0 (links_of (map link_tree links.now)))) (2 ^ 32 - 1) }
{
    let mut greatest = 0;
    'each: for link in links {
        greatest = greatest.max(inner_nesting(&link.operand));
    }
    greatest
}

/// The nesting of what stands after a primary.
#[cycle(expressions)]
#[tactic(auto, using(crate::proofs::NestingSteps::in_expressions))]
fn suffix_nesting(suffixes: &[Suffix]) -> u32
    ensures { result ≡ min (greatest_depth (suffix_starts 0 (suffixes_of (map suffix_tree suffixes.now)))) (2 ^ 32 - 1) }
{
    let mut greatest = 0;
    'each: for suffix in suffixes {
        if let Suffix::Index(index) = suffix {
            greatest = greatest.max(expression_nesting(index));
        }
    }
    greatest
}

/// The nesting of what `new` and `rnew` make.
#[cycle(expressions)]
#[tactic(auto, using(crate::proofs::NestingSteps::in_expressions))]
fn made_nesting(made: &Made) -> u32
    ensures { result ≡ min (greatest_depth (made_starts 0 (made_tree made.now))) (2 ^ 32 - 1) }
{
    match made {
        Made::One(value) => inner_nesting(value),
        Made::Array(_, count, element) => expression_nesting(count).max(expression_nesting(
            element,
        )),
    }
}

/// The nesting of a declaration.
fn declaration_nesting(declaration: &Declaration) -> u32
    ensures { result ≡ min (greatest_depth (declaration_starts 0 (declaration_tree declaration.now))) (2 ^ 32 - 1) }
{
    match declaration {
        Declaration::Local(_, _, Initializer::Value(value)) => expression_nesting(value),
        _ => 0,
    }
}

/// The nesting of a statement.
#[cycle(statements)]
#[tactic(auto, using(crate::proofs::NestingSteps::in_statements))]
fn statement_nesting(statement: &Statement) -> u32
    ensures { result ≡ min (greatest_depth (statement_starts 0 (statement_tree statement.now))) (2 ^ 32 - 1) }
{
    match statement {
        Statement::Block(_, items) => items_nesting(items).saturating_add(1),
        Statement::Run(value) => expression_nesting(value).saturating_add(1),
        Statement::Return(_, value) => match value {
            Some(value) => expression_nesting(value).saturating_add(1),
            None => 1,
        },
        Statement::Exchange(left, right) => expression_nesting(left)
            .max(expression_nesting(right))
            .saturating_add(1),
        Statement::If(_, condition, body) | Statement::While(_, condition, body) => {
            expression_nesting(condition)
                .max(statement_nesting(body))
                .saturating_add(1)
        }
        Statement::IfElse(_, condition, body, otherwise) => expression_nesting(condition)
            .max(statement_nesting(body))
            .max(statement_nesting(otherwise))
            .saturating_add(1),
        Statement::Switch(_, place, clauses) => expression_nesting(place)
            .max(clauses_nesting(clauses))
            .saturating_add(1),
        _ => 1,
    }
}

/// The nesting of a block's items.
#[cycle(statements)]
#[tactic(auto, using(crate::proofs::NestingSteps::in_statements))]
fn items_nesting(items: &[BlockItem]) -> u32
    ensures { result ≡ min (greatest_depth (items_starts 0 (items_of (map item_tree items.now)))) (2 ^ 32 - 1) }
{
    let mut greatest = 0;
    'each: for item in items {
        let own = match item {
            BlockItem::Declare(declaration) => declaration_nesting(declaration),
            BlockItem::Execute(statement) => statement_nesting(statement),
        };
        greatest = greatest.max(own);
    }
    greatest
}

/// The nesting of the clauses of a `switch`.
#[cycle(statements)]
#[tactic(auto, using(crate::proofs::NestingSteps::in_statements))]
fn clauses_nesting(clauses: &[Clause]) -> u32
    ensures { result ≡ min (greatest_depth (clauses_starts 0 (clauses_of (map clause_tree clauses.now)))) (2 ^ 32 - 1) }
{
    let mut greatest = 0;
    'each: for clause in clauses {
        greatest = greatest.max(items_nesting(&clause.body));
    }
    greatest
}

/// The nesting of an item.
fn item_nesting(item: &Item) -> u32
    ensures { result ≡ min (greatest_depth (item_starts (program_item_tree item.now))) (2 ^ 32 - 1) }
{
    match item {
        Item::Function(function) => items_nesting(&function.body),
        _ => 0,
    }
}

/// How deep the phrases of a program nest: how many statements, expressions and unary expressions contain
/// the token that the most of them contain. Where there are more than 4,294,967,295 of them, that number.
pub fn nesting(program: &Program) -> u32
    ensures { result ≡ min (nesting program.now) (2 ^ 32 - 1) }
{
    let mut greatest = 0;
    'each: for item in program.items() {
        greatest = greatest.max(item_nesting(item));
    }
    greatest
}
