// What the use of a name does to locals that can't be copied.

ghost use Rattle.std.specs.Prelude.{◌≡◌, IfOk, None, Some, false};
ghost use Rattle.cyc_tree.specs.Tree.{Variable};
ghost use Rattle.cyc_tree.specs.View.{name_tree};
ghost use Rattle.cyc_types.specs.Sameness.{HasTags};
ghost use Rattle.flow_summaries.specs.Expressions.{uses_of};
ghost use Rattle.flow_summaries.specs.Uses.{number_of};
ghost use Rattle.source_typing.specs.Scope.{Env, find_local};
ghost use Rattle.check_expressions.specs.Within.{is_counter};
ghost use Rattle.check_expressions.specs.declared.around.Around.{Around as TheAround};
ghost use Rattle.check_scopes.specs.Linked.{position_of};
ghost use Rattle.check_scopes.specs.Locals.{find_what};
ghost use Rattle.flow_effects.specs.Used.{IsUsed};
ghost use Rattle.flow_check.specs.Within.{IsWithin, SameLocal};

use crate::facts::is_moved;
use check_expressions::{Around, is_counter};
use check_operators::variable;
use check_scopes::{Scope, What};
use cyc_tree::Name;
use cyc_types::is_copyable;
use flow_effects::{Passed, Usage, Used};
use std::alloc::{AllocError, Global};

/// The use of a name that is no local.
fn uses_of_global(
    scope: &Scope<'_, '_>,
    alloc: Global,
    how: Usage,
    name: &Name,
) -> Result<Used, AllocError>
    ensures { (g : Env) (a : TheAround) → IsWithin scope.now a g → is_counter a.counters.now name.now.text.items ≡ false
        → find_what scope.now.locals name.now.text.items ≡ None → IfOk result (IsUsed how (uses_of g (Variable (name_tree name.now)))) }
{
    let judged = variable(alloc, name.at, scope.meaning(&name.text))?;
    let moves = is_moved(scope.tables, &judged);
    Ok(Used::place(how, name.at, moves, false, Passed::nothing()))
}

/// The use of the name of a local, by what the local is.
fn uses_of_local(
    scope: &Scope<'_, '_>,
    alloc: Global,
    how: Usage,
    name: &Name,
    what: &What<'_>,
) -> Result<Used, AllocError>
    ensures { (g : Env) → HasTags scope.now.tables.now g.tables
        → SameLocal false (Some what.now) (position_of scope.now.locals name.now.text.items) (find_local g.locals name.now.text.items)
        (number_of g.locals name.now.text.items) → IfOk result (IsUsed how (uses_of g (Variable (name_tree name.now)))) }
{
    match what {
        What::Variable(of, _) => {
            if is_copyable(of, scope.tables) {
                return Ok(Used::value(Passed::nothing()));
            }
            Used::own(alloc, how, name.at, scope.locals.position(&name.text))
        }
        What::Array(of, _) => {
            if is_copyable(of, scope.tables) {
                return Ok(Used::value(Passed::nothing()));
            }
            Ok(Used::array(name.at))
        }
        What::Counter => Ok(Used::value(Passed::nothing())),
        What::Untyped => Ok(Used::value(Passed::nothing())),
        What::NotKnown => Ok(Used::value(Passed::nothing())),
    }
}

/// The use of a name.
pub(crate) fn uses_of_name(
    scope: &Scope<'_, '_>,
    alloc: Global,
    around: Around<'_>,
    how: Usage,
    name: &Name,
) -> Result<Used, AllocError>
    ensures { (g : Env) → IsWithin scope.now around.entry g → IfOk result (IsUsed how (uses_of g (Variable (name_tree name.now)))) }
{
    if is_counter(around.counters, &name.text) {
        return Ok(Used::value(Passed::nothing()));
    }
    match scope.locals.find(&name.text) {
        None => uses_of_global(scope, alloc, how, name),
        Some(what) => uses_of_local(scope, alloc, how, name, what),
    }
}
