// The literals and callees of expressions.

ghost use Rattle.std.specs.Prelude.{map};
ghost use Rattle.cyc_tree.specs.View.{expression_tree, expressions_of, link_tree, links_of, made_tree, suffix_tree, suffixes_of};
ghost use Rattle.source_meaning.specs.Callees.{expression_callees, expressions_callees, links_callees, made_callees, suffixes_callees};
ghost use Rattle.source_meaning.specs.Strings.{expression_strings, expressions_strings, links_strings, made_strings, suffixes_strings};
ghost use Rattle.tree_walk.specs.Listing.{Lists, suffix_callees, suffix_strings};

use crate::found::{Found, add_callee, add_literal};
use cyc_tree::{Expression, Link, Made, Suffix};

/// Lists the literals and callees of an expression.
#[cycle(expressions)]
pub(crate) fn list_expression<'p>(found: &mut Found<'p>, expression: &'p Expression)
    ensures { Lists found.old found.new (expression_strings (expression_tree expression.entry.now)) (expression_callees (expression_tree expression.entry.now)) }
{
    match expression {
        Expression::Number(_, _, _)
        | Expression::Character(_, _)
        | Expression::Null(_)
        | Expression::HeapRegion(_)
        | Expression::UniqueRegion(_)
        | Expression::Variable(_) => {}
        Expression::Text(at, bytes) => add_literal(found, *at, bytes),
        Expression::Call(name, arguments) => {
            add_callee(found, &name.text, name.at);
            list_expressions(found, arguments);
        }
        Expression::MakeUnion(_, _, inner)
        | Expression::NumElts(_, inner)
        | Expression::Grouped(_, inner)
        | Expression::Prefixed(_, _, inner) => list_expression(found, inner),
        Expression::Suffixed(primary, suffixes) => {
            list_expression(found, primary);
            list_suffixes(found, suffixes);
        }
        Expression::New(_, made) => list_made(found, made),
        Expression::NewIn(_, handle, made) => {
            list_expression(found, handle);
            list_made(found, made);
        }
        Expression::Chain(first, links) => {
            list_expression(found, first);
            list_links(found, links);
        }
        Expression::AllOf(first, others) | Expression::AnyOf(first, others) => {
            list_expression(found, first);
            list_expressions(found, others);
        }
        Expression::Assign(place, value) => {
            list_expression(found, place);
            list_expression(found, value);
        }
    }
}

/// Lists the literals and callees of arguments or operands.
#[cycle(expressions)]
fn list_expressions<'p>(found: &mut Found<'p>, expressions: &'p [Expression])
    ensures { Lists found.old found.new (expressions_strings (expressions_of (map expression_tree expressions.entry.now))) (expressions_callees (expressions_of (map expression_tree expressions.entry.now))) }
{
    'each: for expression in expressions {
        list_expression(found, expression);
    }
}

/// Lists the literals and callees of the other operands of one level.
#[cycle(expressions)]
fn list_links<'p>(found: &mut Found<'p>, links: &'p [Link])
    ensures { Lists found.old found.new (links_strings (links_of (map link_tree links.entry.now))) (links_callees (links_of (map link_tree links.entry.now))) }
{
    'each: for link in links {
        list_expression(found, &link.operand);
    }
}

/// Lists the literals and callees of a suffix.
#[cycle(expressions)]
fn list_suffix<'p>(found: &mut Found<'p>, suffix: &'p Suffix)
    ensures { Lists found.old found.new (suffix_strings (suffix_tree suffix.entry.now)) (suffix_callees (suffix_tree suffix.entry.now)) }
{
    match suffix {
        Suffix::Index(index) => list_expression(found, index),
        Suffix::Dot(_) | Suffix::Arrow(_) => {}
    }
}

/// Lists the literals and callees of suffixes.
#[cycle(expressions)]
fn list_suffixes<'p>(found: &mut Found<'p>, suffixes: &'p [Suffix])
    ensures { Lists found.old found.new (suffixes_strings (suffixes_of (map suffix_tree suffixes.entry.now))) (suffixes_callees (suffixes_of (map suffix_tree suffixes.entry.now))) }
{
    'each: for suffix in suffixes {
        list_suffix(found, suffix);
    }
}

/// Lists the literals and callees of what is made.
#[cycle(expressions)]
fn list_made<'p>(found: &mut Found<'p>, made: &'p Made)
    ensures { Lists found.old found.new (made_strings (made_tree made.entry.now)) (made_callees (made_tree made.entry.now)) }
{
    match made {
        Made::One(value) => list_expression(found, value),
        Made::Array(_, count, element) => {
            list_expression(found, count);
            list_expression(found, element);
        }
    }
}
