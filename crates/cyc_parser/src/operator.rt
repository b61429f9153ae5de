// The levels of binary operators.

ghost use Rattle.std.specs.Prelude.{◌≡◌, ◌+◌, Some, None, if◌then◌else◌};
ghost use Rattle.cyc_parser.specs.Tests.{is_operator, is_prefix};
ghost use Rattle.cyc_parser.specs.ReadExpressions.{operator_of as operator_at, prefix_of as prefix_at};
ghost use Rattle.cyc_parser.specs.Levels.{IsOperator, levels_from, levels_left, level_number, number_of};

use cyc_lexer::{Sign, TokenKind};
use cyc_tree::{Operator, Prefix};

/// A level of binary operators, from the one that binds least.
#[derive(Clone, Copy)]
pub enum Level {
    BitOr,
    BitXor,
    BitAnd,
    Equality,
    Relation,
    Shift,
    Sum,
    Term,
}

/// The level whose operators bind least.
pub const LOOSEST: Level = Level::BitOr;

/// The level whose operators bind next more, or none where the operands are unary.
pub fn tighter(level: Level) -> Option<Level>
    ensures fewer { levels_left result + 1 ≡ levels_from level }
    ensures number { level_number result ≡ number_of level + 1 }
{
    match level {
        Level::BitOr => Some(Level::BitXor),
        Level::BitXor => Some(Level::BitAnd),
        Level::BitAnd => Some(Level::Equality),
        Level::Equality => Some(Level::Relation),
        Level::Relation => Some(Level::Shift),
        Level::Shift => Some(Level::Sum),
        Level::Sum => Some(Level::Term),
        Level::Term => None,
    }
}

/// The level and the operator of a sign between operands.
fn operator(sign: Sign) -> Option<(Level, Operator)>
    ensures { IsOperator sign result }
{
    match sign {
        Sign::Or => Some((Level::BitOr, Operator::BitOr)),
        Sign::Xor => Some((Level::BitXor, Operator::BitXor)),
        Sign::And => Some((Level::BitAnd, Operator::BitAnd)),
        Sign::EqualEqual => Some((Level::Equality, Operator::Equal)),
        Sign::NotEqual => Some((Level::Equality, Operator::NotEqual)),
        Sign::Less => Some((Level::Relation, Operator::Less)),
        Sign::LessEqual => Some((Level::Relation, Operator::LessEqual)),
        Sign::Greater => Some((Level::Relation, Operator::Greater)),
        Sign::GreaterEqual => Some((Level::Relation, Operator::GreaterEqual)),
        Sign::ShiftLeft => Some((Level::Shift, Operator::ShiftLeft)),
        Sign::ShiftRight => Some((Level::Shift, Operator::ShiftRight)),
        Sign::Plus => Some((Level::Sum, Operator::Add)),
        Sign::Minus => Some((Level::Sum, Operator::Subtract)),
        Sign::Star => Some((Level::Term, Operator::Multiply)),
        Sign::Slash => Some((Level::Term, Operator::Divide)),
        Sign::Percent => Some((Level::Term, Operator::Remainder)),
        _ => None,
    }
}

/// The operator of a level that a token of this kind is.
pub fn operator_of(kind: TokenKind, level: Level) -> Option<Operator>
    ensures { result ≡ (if is_operator (number_of level) kind then Some (operator_at kind) else None) }
{
    let TokenKind::Sign(sign) = kind else {
        return None;
    };
    match operator(sign) {
        Some((found, operator)) if found == level => Some(operator),
        _ => None,
    }
}

/// The prefix operator that a token of this kind is.
pub fn prefix_of(kind: TokenKind) -> Option<Prefix>
    ensures { result ≡ (if is_prefix kind then Some (prefix_at kind) else None) }
{
    match kind {
        TokenKind::Sign(Sign::Minus) => Some(Prefix::Negate),
        TokenKind::Sign(Sign::Not) => Some(Prefix::Not),
        TokenKind::Sign(Sign::Tilde) => Some(Prefix::Complement),
        TokenKind::Sign(Sign::Star) => Some(Prefix::Dereference),
        TokenKind::Sign(Sign::And) => Some(Prefix::AddressOf),
        _ => None,
    }
}
