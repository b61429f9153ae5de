// Calls, makings and assignments inside of places that are exchanged.

ghost use Rattle.std.specs.Prelude.{◌≡◌, ◌∷◌, List, map};
ghost use Rattle.cyc_tree.specs.View.{expression_tree, expressions_of, link_tree, links_of, made_tree, suffix_tree, suffixes_of};
ghost use Rattle.source_typing.specs.Exchanges.{acts, all_acts, link_acts, made_acts, suffix_acts};
ghost use Rattle.source_typing.specs.Faults.{earliest, fault, type_rule};
ghost use Rattle.source_typing.specs.Faults as rules;
ghost use Rattle.check_faults.specs.Faults.{faults_of};

use check_faults::{Fault, FaultKind, sooner};
use cyc_tree::{Expression, Link, Made, Suffix};

/// A call, making or assignment at this place, or an earlier one inside of it.
fn act_and(at: u32, inside: Option<Fault>) -> Option<Fault>
    ensures { (fs : List rules.Fault) → faults_of inside ≡ earliest fs → faults_of result ≡ earliest (fault type_rule at ∷ fs) }
{
    let act = Fault {
        kind: FaultKind::Typing,
        at,
    };
    sooner(Some(act), inside)
}

/// The earliest call, making or assignment in an expression, as a fault.
#[cycle(acts)]
pub(crate) fn act_in(expression: &Expression) -> Option<Fault>
    ensures { faults_of result ≡ earliest (acts (expression_tree expression.now)) }
{
    match expression {
        Expression::Number(_, _, _)
        | Expression::Character(_, _)
        | Expression::Text(_, _)
        | Expression::Null(_)
        | Expression::HeapRegion(_)
        | Expression::UniqueRegion(_)
        | Expression::Variable(_) => None,
        Expression::Call(name, arguments) => act_and(name.at, act_in_all(arguments)),
        Expression::MakeUnion(tag, _, value) => act_and(tag.at, act_in(value)),
        Expression::NumElts(_, inner)
        | Expression::Grouped(_, inner)
        | Expression::Prefixed(_, _, inner) => act_in(inner),
        Expression::Suffixed(first, suffixes) => sooner(act_in(first), act_in_suffixes(suffixes)),
        Expression::New(at, new) => act_and(*at, act_in_made(new)),
        Expression::NewIn(at, handle, new) => {
            act_and(*at, sooner(act_in(handle), act_in_made(new)))
        }
        Expression::Chain(first, links) => sooner(act_in(first), act_in_links(links)),
        Expression::AllOf(first, others) => sooner(act_in(first), act_in_all(others)),
        Expression::AnyOf(first, others) => sooner(act_in(first), act_in_all(others)),
        Expression::Assign(to, from) => act_and(to.place(), sooner(act_in(to), act_in(from))),
    }
}

/// The earliest one in several expressions.
#[cycle(acts)]
fn act_in_all(expressions: &[Expression]) -> Option<Fault>
    ensures { faults_of result ≡ earliest (all_acts (expressions_of (map expression_tree expressions.now))) }
{
    let mut found = None;
    'each: for expression in expressions {
        found = sooner(found, act_in(expression));
    }
    found
}

/// The earliest one in the operands after a first one.
#[cycle(acts)]
fn act_in_links(links: &[Link]) -> Option<Fault>
    ensures { faults_of result ≡ earliest (link_acts (links_of (map link_tree links.now))) }
{
    let mut found = None;
    'each: for link in links {
        found = sooner(found, act_in(&link.operand));
    }
    found
}

/// The earliest one in subscripts.
#[cycle(acts)]
fn act_in_suffixes(suffixes: &[Suffix]) -> Option<Fault>
    ensures { faults_of result ≡ earliest (suffix_acts (suffixes_of (map suffix_tree suffixes.now))) }
{
    let mut found = None;
    'each: for suffix in suffixes {
        let fault = match suffix {
            Suffix::Index(subscript) => act_in(subscript),
            Suffix::Dot(_) => None,
            Suffix::Arrow(_) => None,
        };
        found = sooner(found, fault);
    }
    found
}

/// The earliest one in what is made.
#[cycle(acts)]
fn act_in_made(new: &Made) -> Option<Fault>
    ensures { faults_of result ≡ earliest (made_acts (made_tree new.now)) }
{
    match new {
        Made::One(value) => act_in(value),
        Made::Array(_, count, element) => sooner(act_in(count), act_in(element)),
    }
}
