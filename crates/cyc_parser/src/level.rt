// Operands and the operators between them.

ghost use Rattle.std.specs.Prelude.{◌≡◌, IfOk, IfErr, Some, None, map, nat_le, if◌then◌else◌};
ghost use Rattle.cyc_tree.specs.View.{expression_tree, link_tree, links_of};
ghost use Rattle.cyc_parser.specs.declared.fault.ParseFault.TheVariants.{Memory};
ghost use Rattle.source_grammar.specs.ExpressionGrammar.{binds, unary_level};
ghost use Rattle.cyc_parser.specs.Levels.{IsNextOperator, number_of};
ghost use Rattle.cyc_parser.specs.Parts.{chained};

use crate::cursor::Cursor;
use crate::fault::Parsed;
use crate::lists::without_spare;
use crate::operator::{Level, operator_of};
use cyc_tree::{Expression, Link, Operator};
use std::alloc::Global;

/// Whether what was read where an expression may begin is a unary expression.
pub fn is_unary(expression: &Expression) -> bool
    ensures { result ≡ nat_le unary_level (binds (expression_tree expression.now)) }
{
    !matches!(
        expression,
        Expression::Chain(_, _)
            | Expression::AllOf(_, _)
            | Expression::AnyOf(_, _)
            | Expression::Assign(_, _)
    )
}

/// An expression in a box.
pub fn boxed(alloc: Global, expression: Expression) -> Parsed<Box<Expression>>
    ensures ok { IfOk result (λ box. box.value ≡ expression) }
    ensures memory { IfErr result (λ fault. fault ≡ Memory) }
{
    Ok(Box::new(alloc, expression)?)
}

/// An operand with the operators and operands after it, where there are such.
pub fn linked(alloc: Global, first: Expression, links: Vec<Link>) -> Parsed<Expression>
    ensures tree { IfOk result (λ e. expression_tree e ≡ chained (expression_tree first) (links_of (map link_tree links.items))) }
    ensures memory { IfErr result (λ fault. fault ≡ Memory) }
{
    if links.is_empty() {
        Ok(first)
    } else {
        Ok(Expression::Chain(Box::new(alloc, first)?, without_spare(links)))
    }
}

/// The operator of a level that stands next.
pub fn next_operator(cursor: &Cursor<'_, '_>, level: Level) -> Option<Operator>
    ensures { IsNextOperator result (number_of level) cursor.now }
{
    operator_of(cursor.kind()?, level)
}
