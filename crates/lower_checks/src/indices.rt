// The indices of arrays in expressions: how many there are, and the order in which the text has them.

ghost use Rattle.std.specs.Prelude.{◌≡◌, ◌+◌, ◌-◌, ◌^◌, map, min};
ghost use Rattle.cyc_tree.specs.View.{declaration_tree, expression_tree, expressions_of, link_tree, links_of, made_tree, suffix_tree, suffixes_of};
ghost use Rattle.source_lowering.specs.Order.{
  all_order,
  declaration_order,
  expression_order,
  indices_in,
  indices_in_all,
  indices_in_declaration,
  indices_in_links,
  indices_in_made,
  indices_in_suffixes,
  link_order,
  made_order,
  suffix_order,
};
ghost use Rattle.lower_checks.specs.Ordering.{Orders};

use crate::order::Order;
use cyc_tree::{Declaration, Expression, Initializer, Link, Made, Suffix};

/// How many indices an expression has, or the greatest usize.
#[cycle(indices)]
pub fn indices_in(expression: &Expression) -> usize
    ensures { result ≡ min (indices_in (expression_tree expression.now)) (2 ^ 64 - 1) }
{
    match expression {
        Expression::Call(_, arguments) => indices_in_all(arguments),
        Expression::MakeUnion(_, _, value) => indices_in(value),
        Expression::NumElts(_, operand) => indices_in(operand),
        Expression::Grouped(_, inner) => indices_in(inner),
        Expression::Suffixed(primary, suffixes) => {
            let count = indices_in_suffixes(suffixes);
            count.saturating_add(indices_in(primary))
        }
        Expression::Prefixed(_, _, operand) => indices_in(operand),
        Expression::New(_, made) => indices_in_made(made),
        Expression::NewIn(_, handle, made) => {
            let count = indices_in(handle);
            count.saturating_add(indices_in_made(made))
        }
        Expression::Chain(first, links) => {
            let count = indices_in(first);
            count.saturating_add(indices_in_links(links))
        }
        Expression::AllOf(first, others) | Expression::AnyOf(first, others) => {
            let count = indices_in(first);
            count.saturating_add(indices_in_all(others))
        }
        Expression::Assign(place, value) => {
            let count = indices_in(value);
            count.saturating_add(indices_in(place))
        }
        _ => 0,
    }
}

/// How many indices suffixes have, or the greatest usize.
#[cycle(indices)]
fn indices_in_suffixes(suffixes: &[Suffix]) -> usize
    ensures { result ≡ min (indices_in_suffixes (suffixes_of (map suffix_tree suffixes.now))) (2 ^ 64 - 1) }
{
    let mut count: usize = 0;
    'each: for suffix in suffixes {
        let more = match suffix {
            Suffix::Index(index) => indices_in(index),
            Suffix::Dot(_) | Suffix::Arrow(_) => 0,
        };
        count = count.saturating_add(more);
    }
    count
}

/// How many indices expressions have, or the greatest usize.
#[cycle(indices)]
fn indices_in_all(expressions: &[Expression]) -> usize
    ensures { result ≡ min (indices_in_all (expressions_of (map expression_tree expressions.now))) (2 ^ 64 - 1) }
{
    let mut count: usize = 0;
    'each: for expression in expressions {
        count = count.saturating_add(indices_in(expression));
    }
    count
}

/// How many indices the operands of links have, or the greatest usize.
#[cycle(indices)]
fn indices_in_links(links: &[Link]) -> usize
    ensures { result ≡ min (indices_in_links (links_of (map link_tree links.now))) (2 ^ 64 - 1) }
{
    let mut count: usize = 0;
    'each: for link in links {
        count = count.saturating_add(indices_in(&link.operand));
    }
    count
}

/// How many indices what is made has, an array's own among them, or the greatest usize.
#[cycle(indices)]
fn indices_in_made(made: &Made) -> usize
    ensures { result ≡ min (indices_in_made (made_tree made.now)) (2 ^ 64 - 1) }
{
    match made {
        Made::One(value) => indices_in(value),
        Made::Array(_, count, element) => {
            let before = indices_in(count);
            let within = indices_in(element).saturating_add(1);
            before.saturating_add(within)
        }
    }
}

/// How many indices a declaration's value has, or the greatest usize.
pub fn indices_in_declaration(declaration: &Declaration) -> usize
    ensures { result ≡ min (indices_in_declaration (declaration_tree declaration.now)) (2 ^ 64 - 1) }
{
    match declaration {
        Declaration::Local(_, _, Initializer::Value(value)) => indices_in(value),
        _ => 0,
    }
}

/// Puts the indices of an expression in order, the first of which has this number; gives the next number.
#[cycle(indexed)]
pub fn order_expression(order: &mut Order, expression: &Expression, first: usize) -> usize
    ensures { let e = expression_tree expression.entry.now in Orders order.old order.new (expression_order first e) result (first + indices_in e) }
{
    match expression {
        Expression::Call(_, arguments) => order_all(order, arguments, first),
        Expression::MakeUnion(_, _, value) => order_expression(order, value, first),
        Expression::NumElts(_, operand) => order_expression(order, operand, first),
        Expression::Grouped(_, inner) => order_expression(order, inner, first),
        Expression::Suffixed(primary, suffixes) => {
            let behind = order.behind(first, indices_in_suffixes(suffixes));
            let next = order_expression(order, primary, behind);
            order_suffixes(order, suffixes, first);
            next
        }
        Expression::Prefixed(_, _, operand) => order_expression(order, operand, first),
        Expression::New(_, made) => order_made(order, made, first),
        Expression::NewIn(_, handle, made) => {
            let next = order_expression(order, handle, first);
            order_made(order, made, next)
        }
        Expression::Chain(operand, links) => {
            let next = order_expression(order, operand, first);
            order_links(order, links, next)
        }
        Expression::AllOf(operand, others) | Expression::AnyOf(operand, others) => {
            let next = order_expression(order, operand, first);
            order_all(order, others, next)
        }
        Expression::Assign(place, value) => {
            let behind = order.behind(first, indices_in(value));
            let next = order_expression(order, place, behind);
            order_expression(order, value, first);
            next
        }
        _ => first,
    }
}

/// Puts the indices of suffixes in order, the first of which has this number: the last suffix has the first ones. Gives the next number.
#[cycle(indexed)]
fn order_suffixes(order: &mut Order, suffixes: &[Suffix], first: usize) -> usize
    ensures { let ss = suffixes_of (map suffix_tree suffixes.entry.now) in
        Orders order.old order.new (suffix_order first ss) result (first + indices_in_suffixes ss) }
{
    let count = indices_in_suffixes(suffixes);
    let next = order.behind(first, count);
    if count == 0 {
        return next;
    }
    let mut behind = next;
    'each: for suffix in suffixes {
        match suffix {
            Suffix::Index(index) => {
                behind = behind.saturating_sub(indices_in(index));
                order_expression(order, index, behind);
            }
            Suffix::Dot(_) => {}
            Suffix::Arrow(_) => {}
        }
    }
    next
}

/// Puts the indices of expressions in order, the first of which has this number; gives the next number.
#[cycle(indexed)]
fn order_all(order: &mut Order, expressions: &[Expression], first: usize) -> usize
    ensures { let es = expressions_of (map expression_tree expressions.entry.now) in
        Orders order.old order.new (all_order first es) result (first + indices_in_all es) }
{
    let mut next = first;
    'each: for expression in expressions {
        next = order_expression(order, expression, next);
    }
    next
}

/// Puts the indices of links in order, the first of which has this number; gives the next number.
#[cycle(indexed)]
fn order_links(order: &mut Order, links: &[Link], first: usize) -> usize
    ensures { let ls = links_of (map link_tree links.entry.now) in Orders order.old order.new (link_order first ls) result (first + indices_in_links ls) }
{
    let mut next = first;
    'each: for link in links {
        next = order_expression(order, &link.operand, next);
    }
    next
}

/// Puts the indices of what is made in order, the first of which has this number: an array's own is behind those of its count, and stands
/// before them. Gives the next number.
#[cycle(indexed)]
fn order_made(order: &mut Order, made: &Made, first: usize) -> usize
    ensures { let m = made_tree made.entry.now in Orders order.old order.new (made_order first m) result (first + indices_in_made m) }
{
    match made {
        Made::One(value) => order_expression(order, value, first),
        Made::Array(_, count, element) => {
            let own = order.behind(first, indices_in(count));
            let inside = order.push(own);
            order_expression(order, count, first);
            order_expression(order, element, inside)
        }
    }
}

/// Puts the indices of a declaration's value in order, the first of which has this number; gives the next number.
pub fn order_declaration(order: &mut Order, declaration: &Declaration, first: usize) -> usize
    ensures { let d = declaration_tree declaration.entry.now in
        Orders order.old order.new (declaration_order first d) result (first + indices_in_declaration d) }
{
    match declaration {
        Declaration::Local(_, _, Initializer::Value(value)) => {
            order_expression(order, value, first)
        }
        _ => first,
    }
}
