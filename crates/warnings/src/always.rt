// Comparisons whose outcome the types of their operands decide.

use crate::names::Names;
use crate::walk::Walk;
use crate::warning::{Warning, WarningKind};
use cyc_tree::{Base, Expression, Link, Operator, Prefix, TypeName};

/// The greatest number that an `int` has.
const GREATEST: u32 = 0x7fff_ffff;

/// An expression without the parentheses around it.
pub(crate) fn bare(expression: &Expression) -> &Expression {
    match expression {
        Expression::Grouped(_, inner) => bare(inner),
        other => other,
    }
}

/// A constant.
#[derive(Clone, Copy)]
pub(crate) enum Known {
    /// Below 0.
    Negative,
    Number(u32),
}

/// What `-` makes of an expression, where that is a constant.
fn negated(operand: &Expression) -> Option<Known> {
    match operand {
        Expression::Number(_, 0, _) => Some(Known::Number(0)),
        Expression::Number(_, number, false) if *number <= GREATEST => Some(Known::Negative),
        _ => None,
    }
}

/// The constant that an expression is.
pub(crate) fn constant(expression: &Expression) -> Option<Known> {
    match bare(expression) {
        Expression::Number(_, number, _) => Some(Known::Number(*number)),
        Expression::Character(_, byte) => Some(Known::Number(u32::from(*byte))),
        Expression::Prefixed(_, Prefix::Negate, operand) => negated(bare(operand)),
        _ => None,
    }
}

/// An operand without a sign: its name, where it has one, and its greatest value.
#[derive(Clone, Copy)]
struct Operand<'p> {
    name: &'p [u8],
    most: u32,
}

/// The greatest value of a type without a sign.
fn most_of(of: &TypeName) -> Option<u32> {
    if !of.pointers.is_empty() {
        return None;
    }
    match of.base {
        Base::Char => Some(0xff),
        Base::Unsigned => Some(u32::MAX),
        _ => None,
    }
}

/// The operand that an expression is, where it has no sign.
fn without_sign<'p>(names: &Names<'p>, expression: &'p Expression) -> Option<Operand<'p>> {
    match bare(expression) {
        Expression::Variable(name) => {
            let most = most_of(names.find(&name.text)?.of?)?;
            Some(Operand {
                name: &name.text,
                most,
            })
        }
        Expression::NumElts(_, _) => Some(Operand {
            name: b"numelts",
            most: u32::MAX,
        }),
        _ => None,
    }
}

/// The outcome of a comparison with a number below 0.
fn with_negative(most: u32, operator: Operator) -> Option<bool> {
    if most == u32::MAX {
        return None;
    }
    match operator {
        Operator::Less | Operator::LessEqual | Operator::Equal => Some(false),
        Operator::Greater | Operator::GreaterEqual | Operator::NotEqual => Some(true),
        _ => None,
    }
}

/// The outcome of a comparison with a number.
fn with_number(most: u32, operator: Operator, number: u32) -> Option<bool> {
    match operator {
        Operator::Less if number == 0 => Some(false),
        Operator::GreaterEqual if number == 0 => Some(true),
        Operator::Less | Operator::NotEqual if number > most => Some(true),
        Operator::GreaterEqual | Operator::Equal if number > most => Some(false),
        Operator::LessEqual if number >= most => Some(true),
        Operator::Greater if number >= most => Some(false),
        _ => None,
    }
}

/// The outcome of a comparison of an operand without a sign with a constant.
fn outcome(most: u32, operator: Operator, known: Known) -> Option<bool> {
    match known {
        Known::Negative => with_negative(most, operator),
        Known::Number(number) => with_number(most, operator, number),
    }
}

/// The operator that says the same with the operands the other way round.
fn turned(operator: Operator) -> Operator {
    match operator {
        Operator::Less => Operator::Greater,
        Operator::LessEqual => Operator::GreaterEqual,
        Operator::Greater => Operator::Less,
        Operator::GreaterEqual => Operator::LessEqual,
        other => other,
    }
}

/// What is said of an operand whose comparison is always the same.
fn words_of(most: u32, outcome: bool) -> &'static str {
    match (most, outcome) {
        (u32::MAX, false) => " is unsigned, so this is always false",
        (u32::MAX, true) => " is unsigned, so this is always true",
        (_, false) => " is a char, 0 to 255, so this is always false",
        (_, true) => " is a char, 0 to 255, so this is always true",
    }
}

/// What to write instead.
fn cure_of(most: u32) -> &'static str {
    if most == u32::MAX {
        "Compare before a subtraction, or take an int."
    } else {
        "Take an int: getchar gives -1 at the end of the input, which no char is."
    }
}

/// The operand without a sign of a comparison with a constant, and the outcome where it is always the same.
fn compared<'p>(
    names: &Names<'p>,
    first: &'p Expression,
    link: &'p Link,
) -> Option<(Operand<'p>, bool)> {
    if let Some(known) = constant(&link.operand) {
        let left = without_sign(names, first)?;
        return Some((left, outcome(left.most, link.operator, known)?));
    }
    let known = constant(first)?;
    let right = without_sign(names, &link.operand)?;
    Some((right, outcome(right.most, turned(link.operator), known)?))
}

/// Warns of a comparison whose outcome is always the same.
pub(crate) fn warn_of_comparison<'p>(
    walk: &mut Walk<'p>,
    first: &'p Expression,
    links: &'p [Link],
) {
    let [link] = links else {
        return;
    };
    if let Some((operand, outcome)) = compared(&walk.names, first, link) {
        walk.warn(Warning {
            kind: WarningKind::Always,
            at: first.place(),
            name: operand.name,
            words: words_of(operand.most, outcome),
            cure: cure_of(operand.most),
        });
    }
}
