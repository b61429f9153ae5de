// The strings of a program, counted in the order of the text.

ghost use Rattle.std.specs.Prelude.{map};
ghost use Rattle.cyc_tree.specs.View.{expression_tree, expressions_of, link_tree, links_of, made_tree, suffix_tree, suffixes_of};
ghost use Rattle.source_meaning.specs.Strings.{expression_strings, expressions_strings, links_strings, made_strings, suffixes_strings};
ghost use Rattle.check_programs.specs.Strings.{link_strings, suffix_strings};
ghost use Rattle.check_programs.specs.Totals.{Counts};

use crate::total::{Total, string_bytes};
use cyc_tree::{Expression, Link, Made, Suffix};

/// With the strings of an expression.
#[cycle(strings)]
pub(crate) fn with_expression(total: Total, expression: &Expression) -> Total
    ensures { Counts total result (expression_strings (expression_tree expression.now)) }
{
    match expression {
        Expression::Number(_, _, _)
        | Expression::Character(_, _)
        | Expression::Null(_)
        | Expression::HeapRegion(_)
        | Expression::UniqueRegion(_)
        | Expression::Variable(_) => total,
        Expression::Text(at, bytes) => total.with(*at, string_bytes(bytes)),
        Expression::Call(_, arguments) => with_expressions(total, arguments),
        Expression::MakeUnion(_, _, inner)
        | Expression::NumElts(_, inner)
        | Expression::Grouped(_, inner)
        | Expression::Prefixed(_, _, inner) => with_expression(total, inner),
        Expression::Suffixed(primary, suffixes) => {
            let before = with_expression(total, primary);
            with_suffixes(before, suffixes)
        }
        Expression::New(_, made) => with_made(total, made),
        Expression::NewIn(_, handle, made) => {
            let before = with_expression(total, handle);
            with_made(before, made)
        }
        Expression::Chain(first, links) => {
            let before = with_expression(total, first);
            with_links(before, links)
        }
        Expression::AllOf(first, others) | Expression::AnyOf(first, others) => {
            let before = with_expression(total, first);
            with_expressions(before, others)
        }
        Expression::Assign(place, value) => {
            let before = with_expression(total, place);
            with_expression(before, value)
        }
    }
}

/// With the strings of arguments or operands.
#[cycle(strings)]
fn with_expressions(total: Total, expressions: &[Expression]) -> Total
    ensures { Counts total result (expressions_strings (expressions_of (map expression_tree expressions.now))) }
{
    let mut so_far = total;
    'each: for expression in expressions {
        so_far = with_expression(so_far, expression);
    }
    so_far
}

/// With the strings of an operand.
#[cycle(strings)]
fn with_link(total: Total, link: &Link) -> Total
    ensures { Counts total result (link_strings (link_tree link.now)) }
{
    with_expression(total, &link.operand)
}

/// With the strings of the other operands of one level.
#[cycle(strings)]
fn with_links(total: Total, links: &[Link]) -> Total
    ensures { Counts total result (links_strings (links_of (map link_tree links.now))) }
{
    let mut so_far = total;
    'each: for link in links {
        so_far = with_link(so_far, link);
    }
    so_far
}

/// With the strings of a suffix.
#[cycle(strings)]
fn with_suffix(total: Total, suffix: &Suffix) -> Total
    ensures { Counts total result (suffix_strings (suffix_tree suffix.now)) }
{
    match suffix {
        Suffix::Index(index) => with_expression(total, index),
        Suffix::Dot(_) | Suffix::Arrow(_) => total,
    }
}

/// With the strings of suffixes.
#[cycle(strings)]
fn with_suffixes(total: Total, suffixes: &[Suffix]) -> Total
    ensures { Counts total result (suffixes_strings (suffixes_of (map suffix_tree suffixes.now))) }
{
    let mut so_far = total;
    'each: for suffix in suffixes {
        so_far = with_suffix(so_far, suffix);
    }
    so_far
}

/// With the strings of what is made.
#[cycle(strings)]
fn with_made(total: Total, made: &Made) -> Total
    ensures { Counts total result (made_strings (made_tree made.now)) }
{
    match made {
        Made::One(value) => with_expression(total, value),
        Made::Array(_, count, element) => {
            let before = with_expression(total, count);
            with_expression(before, element)
        }
    }
}
