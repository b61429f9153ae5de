// What whole expressions do to locals that can't be copied.

ghost use Rattle.std.specs.Prelude.{◌≡◌, IfOk, option_map};
ghost use Rattle.cyc_tree.specs.View.{expression_tree, name_tree};
ghost use Rattle.flow_summaries.specs.Expressions.{uses_of};
ghost use Rattle.flow_summaries.specs.Statements.{freed_local, passage_of_result};
ghost use Rattle.flow_summaries.specs.Uses.{number_of};
ghost use Rattle.source_typing.specs.Scope.{Env};
ghost use Rattle.check_scopes.specs.Knows.{Knows};
ghost use Rattle.check_scopes.specs.Matching.{AreLocals};
ghost use Rattle.flow_effects.specs.Passed.{passage_of};

use crate::expression::seen;
use check_calls::Enclosing;
use check_expressions::Around;
use check_scopes::Scope;
use cyc_tree::{Expression, Name};
use cyc_types::RegionId;
use flow_effects::{Passed, Usage};
use std::alloc::{AllocError, Global};

/// The summary of an expression whose value is moved or copied.
pub(crate) fn given(
    scope: &Scope<'_, '_>,
    alloc: Global,
    expression: &Expression,
) -> Result<Passed, AllocError>
    ensures { (g : Env) → Knows scope.now g → AreLocals scope.now.locals g.locals
        → IfOk result (λ p. passage_of p ≡ (uses_of g (expression_tree expression.now)).value) }
{
    let around = Around {
        enclosing: Enclosing::In(RegionId::Heap),
        counters: &[],
    };
    let found = seen(scope, alloc, around, Usage::Value, expression)?;
    Ok(found.used.passed)
}

/// The summary of an expression that is only looked at.
pub(crate) fn looked(
    scope: &Scope<'_, '_>,
    alloc: Global,
    expression: &Expression,
) -> Result<Passed, AllocError>
    ensures { (g : Env) → Knows scope.now g → AreLocals scope.now.locals g.locals
        → IfOk result (λ p. passage_of p ≡ (uses_of g (expression_tree expression.now)).look) }
{
    let around = Around {
        enclosing: Enclosing::In(RegionId::Heap),
        counters: &[],
    };
    let found = seen(scope, alloc, around, Usage::Look, expression)?;
    Ok(found.used.passed)
}

/// The summary of the value of a `return`, if it has one.
pub(crate) fn result_given(
    scope: &Scope<'_, '_>,
    alloc: Global,
    value: &Option<Expression>,
) -> Result<Passed, AllocError>
    ensures { (g : Env) → Knows scope.now g → AreLocals scope.now.locals g.locals → IfOk result (λ p. passage_of p
        ≡ passage_of_result g (option_map expression_tree value.now)) }
{
    match value {
        None => Ok(Passed::nothing()),
        Some(value) => given(scope, alloc, value),
    }
}

/// The summary of a `free` of a local.
pub(crate) fn freed(
    scope: &Scope<'_, '_>,
    alloc: Global,
    at: u32,
    name: &Name,
) -> Result<Passed, AllocError>
    ensures { (g : Env) → AreLocals scope.now.locals g.locals
        → IfOk result (λ p. passage_of p ≡ freed_local at (name_tree name.now) (number_of g.locals (name_tree name.now).text)) }
{
    match scope.locals.position(&name.text) {
        None => Ok(Passed::copied_if(true, at)),
        Some(number) => Passed::moved(alloc, name.at, Some(number)),
    }
}
