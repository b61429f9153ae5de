// The walk over an expression. A local's value is given away where it is neither looked at nor gone through.

use crate::always::warn_of_comparison;
use crate::leaks::assign;
use crate::names::{Named, Sort};
use crate::raises::warn_of_index;
use crate::walk::Walk;
use cyc_tree::{Expression, Link, Made, Suffix};

/// Goes over an expression whose value is given away.
#[cycle(expressions)]
pub(crate) fn pass_value<'p>(walk: &mut Walk<'p>, expression: &'p Expression) {
    match expression {
        Expression::Number(_, _, _)
        | Expression::Character(_, _)
        | Expression::Text(_, _)
        | Expression::Null(_)
        | Expression::HeapRegion(_)
        | Expression::UniqueRegion(_) => {}
        Expression::Variable(name) => walk.names.mention(&name.text, true),
        Expression::Call(name, arguments) => {
            walk.names.mention(&name.text, true);
            pass_values(walk, arguments);
        }
        Expression::MakeUnion(_, member, inner) => {
            walk.mention_member(&member.text);
            pass_value(walk, inner);
        }
        Expression::Grouped(_, inner) => pass_value(walk, inner),
        Expression::NumElts(_, inner) | Expression::Prefixed(_, _, inner) => look_at(walk, inner),
        Expression::Suffixed(primary, suffixes) => {
            warn_of_index(walk, primary, suffixes);
            look_at(walk, primary);
            pass_suffixes(walk, suffixes);
        }
        Expression::New(_, made) => pass_made(walk, made),
        Expression::NewIn(_, handle, made) => {
            look_at(walk, handle);
            pass_made(walk, made);
        }
        Expression::Chain(first, links) => {
            warn_of_comparison(walk, first, links);
            look_at(walk, first);
            look_at_links(walk, links);
        }
        Expression::AllOf(first, others) | Expression::AnyOf(first, others) => {
            look_at(walk, first);
            look_at_all(walk, others);
        }
        Expression::Assign(place, value) => {
            pass_value(walk, value);
            pass_place(walk, place, value);
        }
    }
}

/// Goes over a place that is given a value.
#[cycle(expressions)]
fn pass_place<'p>(walk: &mut Walk<'p>, place: &'p Expression, value: &'p Expression) {
    match place {
        Expression::Variable(name) => assign(walk, name, value),
        Expression::Grouped(_, inner) => pass_place(walk, inner, value),
        other => pass_value(walk, other),
    }
}

/// Goes over an expression that is tested, followed, or an operand.
#[cycle(expressions)]
pub(crate) fn look_at<'p>(walk: &mut Walk<'p>, expression: &'p Expression) {
    match expression {
        Expression::Variable(name) => walk.names.mention(&name.text, false),
        Expression::Grouped(_, inner) => look_at(walk, inner),
        other => pass_value(walk, other),
    }
}

/// Goes over arguments.
#[cycle(expressions)]
fn pass_values<'p>(walk: &mut Walk<'p>, expressions: &'p [Expression]) {
    'each: for expression in expressions {
        pass_value(walk, expression);
    }
}

/// Goes over operands of `&&` or `||`.
#[cycle(expressions)]
fn look_at_all<'p>(walk: &mut Walk<'p>, expressions: &'p [Expression]) {
    'each: for expression in expressions {
        look_at(walk, expression);
    }
}

/// Goes over the other operands of one level.
#[cycle(expressions)]
fn look_at_links<'p>(walk: &mut Walk<'p>, links: &'p [Link]) {
    'each: for link in links {
        look_at(walk, &link.operand);
    }
}

/// Goes over suffixes.
#[cycle(expressions)]
fn pass_suffixes<'p>(walk: &mut Walk<'p>, suffixes: &'p [Suffix]) {
    'each: for suffix in suffixes {
        match suffix {
            Suffix::Index(index) => pass_value(walk, index),
            Suffix::Dot(name) | Suffix::Arrow(name) => walk.mention_member(&name.text),
        }
    }
}

/// Goes over what is made.
#[cycle(expressions)]
fn pass_made<'p>(walk: &mut Walk<'p>, made: &'p Made) {
    match made {
        Made::One(value) => pass_value(walk, value),
        Made::Array(index, count, element) => {
            pass_value(walk, count);
            let depth = walk.names.depth();
            walk.declare_local(Named::new(index, Sort::Required, None));
            pass_value(walk, element);
            walk.names.leave(depth);
        }
    }
}
