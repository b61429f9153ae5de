// Operators between operands.

ghost use Rattle.std.specs.Prelude.{◌≡◌, IfOk};
ghost use Rattle.cyc_types.specs.Types.{static_type};
ghost use Rattle.check_operators.specs.Operating.{are_integers, moves};
ghost use Rattle.check_operators.specs.Values.{value_of};
ghost use Rattle.check_scopes.specs.Knows.{Sees};
ghost use Rattle.source_typing.specs.Operators.{applied, is_equality, is_move, on_integers, tested_both};
ghost use Rattle.source_typing.specs.Scope.{Env};
ghost use Rattle.source_typing.specs.Statements.{condition};
ghost use Rattle.check_faults.specs.Verdicts.{short_of, shortened};

use crate::comparison::compared;
use crate::kind::{common, is_fat, promoted};
use crate::value::{Value, fitting, plain, refused};
use check_faults::{FaultKind, Verdict};
use check_scopes::Scope;
use cyc_tree::Operator;
use cyc_types::{BaseType, CType};
use std::alloc::{AllocError, Global};

/// A condition: an integer or a pointer.
pub fn condition<'p>(at: u32, value: Value<'p>) -> Verdict<Value<'p>>
    ensures { short_of value_of result ≡ shortened (condition at (value_of value.entry)) }
{
    if value.of.is_testable() {
        Verdict::Of(value)
    } else {
        refused(FaultKind::Typing, at)
    }
}

/// `&&` and `||`: integers and pointers.
pub fn tested_both<'p>(alloc: Global, one: Value<'p>, two: Value<'p>) -> Verdict<Value<'p>>
    ensures { short_of value_of result ≡ shortened (tested_both (value_of one.entry) (value_of two.entry)) }
{
    let fits = one.of.is_testable() && two.of.is_testable();
    fitting(fits, one.at, CType::plain(alloc, BaseType::Int))
}

/// Whether it is `==` or `!=`.
fn is_equality(operator: Operator) -> bool
    ensures { result ≡ is_equality operator }
{
    matches!(operator, Operator::Equal | Operator::NotEqual)
}

/// Whether it is `+` or `-`.
fn is_move(operator: Operator) -> bool
    ensures { result ≡ is_move operator }
{
    matches!(operator, Operator::Add | Operator::Subtract)
}

/// What an operator on integers gives.
fn on_integers<'p>(alloc: Global, operator: Operator, one: CType<'p>, two: &CType) -> CType<'p>
    ensures { static_type result ≡ on_integers operator (static_type one.entry) (static_type two.now) }
{
    match operator {
        Operator::Equal
        | Operator::NotEqual
        | Operator::Less
        | Operator::LessEqual
        | Operator::Greater
        | Operator::GreaterEqual => CType::plain(alloc, BaseType::Int),
        Operator::ShiftLeft | Operator::ShiftRight => promoted(alloc, one),
        Operator::BitOr
        | Operator::BitXor
        | Operator::BitAnd
        | Operator::Add
        | Operator::Subtract
        | Operator::Multiply
        | Operator::Divide
        | Operator::Remainder => common(alloc, &one, two),
    }
}

/// Whether a fat pointer is moved by an integer.
fn moves(operator: Operator, one: &CType, two: &CType) -> bool
    ensures { result ≡ moves operator (static_type one.now) (static_type two.now) }
{
    is_fat(one) && is_move(operator) && two.is_integer()
}

/// Whether both are integers.
fn are_integers(one: &CType, two: &CType) -> bool
    ensures { result ≡ are_integers (static_type one.now) (static_type two.now) }
{
    one.is_integer() && two.is_integer()
}

/// An operator between two operands.
#[tactic(auto, using(crate::proofs::Applying::applied_is))]
pub fn applied<'p>(
    scope: &Scope,
    alloc: Global,
    operator: Operator,
    one: Value<'p>,
    two: Value<'p>,
) -> Result<Verdict<Value<'p>>, AllocError>
    ensures { (g : Env) → Sees scope.now g
        → IfOk result (λ v. short_of value_of v ≡ shortened (applied g operator (value_of one.entry) (value_of two.entry))) }
{
    if moves(operator, &one.of, &two.of) {
        Ok(plain(one.at, one.of))
    } else if are_integers(&one.of, &two.of) {
        Ok(plain(one.at, on_integers(alloc, operator, one.of, &two.of)))
    } else if is_equality(operator) {
        compared(scope, alloc, one, two)
    } else {
        Ok(refused(FaultKind::Typing, one.at))
    }
}
