// What expressions are, and what they do to locals that can't be copied.

ghost use Rattle.std.specs.Prelude.{◌≡◌, ◌≤◌, IfOk, length, map};
ghost use Rattle.cyc_tree.specs.Tree as tree;
ghost use Rattle.cyc_tree.specs.View.{expression_tree, expressions_of, link_tree, links_of, made_tree, name_tree, suffix_tree};
ghost use Rattle.flow_summaries.specs.Expressions.{uses_made, uses_of};
ghost use Rattle.flow_summaries.specs.Uses.{Uses, uses_as_value};
ghost use Rattle.source_typing.specs.Expressions.{judge};
ghost use Rattle.source_typing.specs.Scope.{Env, Value as TheValue};
ghost use Rattle.check_faults.specs.Verdicts.{Short, short_of, shortened};
ghost use Rattle.check_expressions.specs.Goals.{short_made};
ghost use Rattle.check_expressions.specs.Joined.{short_links, short_tests};
ghost use Rattle.check_expressions.specs.Suffixes.{short_suffix, short_suffixes};
ghost use Rattle.flow_check.specs.Folded.{all_short_uses, passed_links, passed_tests, short_uses};
ghost use Rattle.flow_check.specs.Seen.{IsSeen};
ghost use Rattle.flow_effects.specs.Passed.{passage_of};
ghost use Rattle.flow_check.specs.Suffixed.{IsSuffixed};
ghost use Rattle.flow_effects.specs.Used.{IsUsed};
ghost use Rattle.flow_check.specs.Within.{IsWithin};
ghost use Rattle.flow_effects.specs.declared.used.Usage.TheVariants as usage;
ghost use Rattle.flow_effects.specs.declared.used.Usage.{Usage as TheUsage};
ghost use Rattle.check_operators.specs.Goals.{goal_in};
ghost use Rattle.check_operators.specs.Values.{value_of};

use crate::facts::place_of;
use crate::joining::{Given, applied, assigned, counted, made_union, tested};
use crate::making::{made_array, made_one};
use crate::name::uses_of_name;
use crate::parts::{idle, locals_around};
use crate::pointing::{addressed, dereferenced, is_part, looked_at, pointed};
use crate::seen::Seen;
use crate::suffixed::Suffixed;
use check_expressions::{
    Around, arrow_part, goal_part, indexed_parts, is_unique_region, judge_inside, member_part,
    with_counter,
};
use check_faults::Verdict;
use check_operators::{Goal, Value};
use check_scopes::Scope;
use cyc_tree::{Expression, Link, Made, Name, Prefix, Suffix};
use cyc_types::RegionId;
use flow_effects::{Passed, Usage, Used};
use std::alloc::{AllocError, Global};

/// Judges an expression that is used in this way, and computes what it does. Each part of it is judged once.
#[cycle(seen)]
pub(crate) fn seen<'p>(
    scope: &Scope<'_, 'p>,
    alloc: Global,
    around: Around<'_>,
    how: Usage,
    expression: &Expression,
) -> Result<Seen<'p>, AllocError>
    ensures { (g : Env) → IsWithin scope.now around.entry g → let e = expression_tree expression.now in
        IfOk result (IsSeen how (shortened (judge g e)) (uses_of g e)) }
{
    match expression {
        Expression::Number(_, _, _)
        | Expression::Character(_, _)
        | Expression::Text(_, _)
        | Expression::Null(_)
        | Expression::HeapRegion(_)
        | Expression::UniqueRegion(_) => {
            let judged = judge_inside(scope, alloc, around, expression)?;
            let used = idle();
            Ok(Seen { judged, used })
        }
        Expression::Variable(name) => {
            let judged = judge_inside(scope, alloc, around, expression)?;
            let used = uses_of_name(scope, alloc, around, how, name)?;
            Ok(Seen { judged, used })
        }
        Expression::Grouped(at, inner) => {
            let inner = seen(scope, alloc, around, how, inner)?;
            Ok(inner.grouped(*at))
        }
        Expression::Prefixed(at, operator, operand) => {
            prefixed(scope, alloc, around, how, *at, *operator, operand)
        }
        Expression::Suffixed(primary, suffixes) => {
            if suffixes.is_empty() {
                return seen(scope, alloc, around, how, primary);
            }
            let first = looked(scope, alloc, around, primary)?;
            suffixed(scope, alloc, around, how, first, suffixes)
        }
        Expression::Chain(first, links) => {
            if links.is_empty() {
                return seen(scope, alloc, around, how, first);
            }
            linked(scope, alloc, around, first, links)
        }
        Expression::AllOf(first, others) => {
            if others.is_empty() {
                return seen(scope, alloc, around, how, first);
            }
            all_tested(scope, alloc, around, first, others)
        }
        Expression::AnyOf(first, others) => {
            if others.is_empty() {
                return seen(scope, alloc, around, how, first);
            }
            all_tested(scope, alloc, around, first, others)
        }
        Expression::Assign(to, from) => {
            let from = seen(scope, alloc, around, Usage::Value, from)?;
            let to = seen(scope, alloc, around, Usage::Target, to)?;
            assigned(scope, alloc, to, from)
        }
        Expression::Call(name, arguments) => called(scope, alloc, around, name, arguments),
        Expression::NumElts(at, operand) => {
            let operand = looked(scope, alloc, around, operand)?;
            Ok(counted(alloc, *at, operand))
        }
        Expression::MakeUnion(tag, field, value) => {
            let value = seen(scope, alloc, around, Usage::Value, value)?;
            made_union(scope, alloc, around, tag, field, value)
        }
        Expression::New(at, new) => {
            let goal = Verdict::Of(Goal::To(RegionId::Heap));
            made(scope, alloc, around, *at, goal, Passed::nothing(), new)
        }
        Expression::NewIn(at, handle, new) => {
            let is_unique = is_unique_region(handle);
            let handle = looked(scope, alloc, around, handle)?;
            let goal = goal_part(scope, is_unique, handle.judged);
            made(
                scope,
                alloc,
                around.inside(&goal),
                *at,
                goal,
                handle.used.passed,
                new,
            )
        }
    }
}

/// Judges an expression that is only looked at, and computes what it does. The constructs that nest most are handled here, since `seen`
/// needs much of the stack.
#[cycle(seen)]
fn looked<'p>(
    scope: &Scope<'_, 'p>,
    alloc: Global,
    around: Around<'_>,
    expression: &Expression,
) -> Result<Seen<'p>, AllocError>
    ensures { (g : Env) → IsWithin scope.now around.entry g → let e = expression_tree expression.now in
        IfOk result (IsSeen usage.Look (shortened (judge g e)) (uses_of g e)) }
{
    match expression {
        Expression::Variable(name) => {
            let judged = judge_inside(scope, alloc, around, expression)?;
            let used = uses_of_name(scope, alloc, around, Usage::Look, name)?;
            Ok(Seen { judged, used })
        }
        Expression::Prefixed(at, operator, operand) => prefixed(
            scope,
            alloc,
            around,
            Usage::Look,
            *at,
            *operator,
            operand,
        ),
        Expression::Suffixed(primary, suffixes) => {
            if suffixes.is_empty() {
                return looked(scope, alloc, around, primary);
            }
            let first = looked(scope, alloc, around, primary)?;
            suffixed(scope, alloc, around, Usage::Look, first, suffixes)
        }
        Expression::Chain(first, links) => {
            if links.is_empty() {
                return looked(scope, alloc, around, first);
            }
            linked(scope, alloc, around, first, links)
        }
        Expression::AllOf(first, others) => {
            if others.is_empty() {
                return looked(scope, alloc, around, first);
            }
            all_tested(scope, alloc, around, first, others)
        }
        Expression::AnyOf(first, others) => {
            if others.is_empty() {
                return looked(scope, alloc, around, first);
            }
            all_tested(scope, alloc, around, first, others)
        }
        Expression::Call(name, arguments) => called(scope, alloc, around, name, arguments),
        _ => seen(scope, alloc, around, Usage::Look, expression),
    }
}

/// A chain of operators of one level. Its first operand is looked at here, so that whoever calls this keeps nothing of it.
#[cycle(seen)]
fn linked<'p>(
    scope: &Scope<'_, 'p>,
    alloc: Global,
    around: Around<'_>,
    first: &Expression,
    links: &[Link],
) -> Result<Seen<'p>, AllocError>
    ensures { (g : Env) (how : TheUsage) → IsWithin scope.now around.entry g → let e = expression_tree first.now in
        let ls = links_of (map link_tree links.now) in
        IfOk result (IsSeen how (short_links g (shortened (judge g e)) ls) (uses_as_value (passed_links g (uses_of g e).look ls))) }
{
    let mut found = looked(scope, alloc, around, first)?;
    'each: for link in links {
        let operand = looked(scope, alloc, around, &link.operand)?;
        found = applied(scope, alloc, link.operator, found, operand)?;
    }
    Ok(found.as_value())
}

/// A chain of `&&` or `||`.
#[cycle(seen)]
fn all_tested<'p>(
    scope: &Scope<'_, 'p>,
    alloc: Global,
    around: Around<'_>,
    first: &Expression,
    others: &[Expression],
) -> Result<Seen<'p>, AllocError>
    ensures { (g : Env) (how : TheUsage) → IsWithin scope.now around.entry g → let e = expression_tree first.now in
        let es = expressions_of (map expression_tree others.now) in
        IfOk result (IsSeen how (short_tests g (shortened (judge g e)) es) (uses_as_value (passed_tests g (uses_of g e).look es))) }
{
    let mut found = looked(scope, alloc, around, first)?;
    'each: for expression in others {
        let operand = looked(scope, alloc, around, expression)?;
        found = tested(alloc, found, operand);
    }
    Ok(found.as_value())
}

/// A call of this name.
#[cycle(seen)]
fn called<'p>(
    scope: &Scope<'_, 'p>,
    alloc: Global,
    around: Around<'_>,
    name: &Name,
    arguments: &[Expression],
) -> Result<Seen<'p>, AllocError>
    ensures { (g : Env) (how : TheUsage) → IsWithin scope.now around.entry g
        → let e = tree.Call (name_tree name.now) (expressions_of (map expression_tree arguments.now)) in
        IfOk result (IsSeen how (shortened (judge g e)) (uses_of g e)) }
{
    let mut given = Given::none(alloc);
    'each: for argument in arguments {
        let argument = seen(scope, alloc, around, Usage::Value, argument)?;
        given = given.with(argument)?;
    }
    given.call(scope, alloc, around, name)
}

/// A prefix operator and its operand.
#[cycle(seen)]
fn prefixed<'p>(
    scope: &Scope<'_, 'p>,
    alloc: Global,
    around: Around<'_>,
    how: Usage,
    at: u32,
    operator: Prefix,
    operand: &Expression,
) -> Result<Seen<'p>, AllocError>
    ensures { (g : Env) → IsWithin scope.now around.entry g → let e = tree.Prefixed at operator (expression_tree operand.now) in
        IfOk result (IsSeen how (shortened (judge g e)) (uses_of g e)) }
{
    match operator {
        Prefix::Negate | Prefix::Not | Prefix::Complement => {
            let operand = looked(scope, alloc, around, operand)?;
            looked_at(scope, alloc, at, operator, operand)
        }
        Prefix::Dereference => {
            let operand = looked(scope, alloc, around, operand)?;
            dereferenced(scope, alloc, how, at, operand)
        }
        Prefix::AddressOf => {
            let operand = seen(scope, alloc, around, Usage::Place, operand)?;
            addressed(scope, alloc, at, operand)
        }
    }
}

/// A primary expression with one more suffix. What stands before that suffix is given.
#[cycle(seen)]
fn suffix_after<'p>(
    scope: &Scope<'_, 'p>,
    alloc: Global,
    around: Around<'_>,
    judged: Verdict<Value<'p>>,
    used: Used,
    suffix: &Suffix,
) -> Result<Suffixed<'p>, AllocError>
    ensures { (g : Env) (u : Uses) → IsWithin scope.now around.entry g → IsUsed usage.Look u used
        → IfOk result (IsSuffixed (short_suffix g (short_of value_of judged.entry) (suffix_tree suffix.now))
        (short_uses g (short_of value_of judged.entry) u (suffix_tree suffix.now))) }
{
    let at = place_of(&judged);
    match suffix {
        Suffix::Index(index) => {
            let index = looked(scope, alloc, around, index)?;
            let own = is_part(&judged, &used);
            let passed = index.used.passed.in_turn(pointed(at, &judged, used));
            let judged = indexed_parts(scope, judged, index.judged);
            Ok(Suffixed::of(scope.tables, at, judged, own, passed))
        }
        Suffix::Dot(field) => {
            let judged = member_part(scope.tables, field, judged)?;
            Ok(Suffixed::of(scope.tables, at, judged, used.own, used.passed))
        }
        Suffix::Arrow(field) => {
            let passed = pointed(at, &judged, used);
            let judged = arrow_part(scope, field, judged)?;
            Ok(Suffixed::of(scope.tables, at, judged, false, passed))
        }
    }
}

/// A primary expression with one or more suffixes.
#[cycle(seen)]
fn suffixed<'p>(
    scope: &Scope<'_, 'p>,
    alloc: Global,
    around: Around<'_>,
    how: Usage,
    primary: Seen<'p>,
    suffixes: &[Suffix],
) -> Result<Seen<'p>, AllocError>
    ensures { (g : Env) (s : Short TheValue) (u : Uses) → IsWithin scope.now around.entry g → IsSeen usage.Look s u primary.entry
        → 1 ≤ length suffixes.now
        → IfOk result (IsSeen how (short_suffixes g s (map suffix_tree suffixes.now)) (all_short_uses g s u (map suffix_tree suffixes.now))) }
{
    let Some((first, others)) = suffixes.split_first() else {
        return Ok(primary);
    };
    let Seen { judged, used } = primary;
    let mut suffixed = suffix_after(scope, alloc, around, judged, used, first)?;
    'each: for suffix in others {
        suffixed = suffix_after(scope, alloc, around, suffixed.judged, suffixed.look, suffix)?;
    }
    Ok(suffixed.seen(how))
}

/// An allocation by `new` or `rnew`. `goal` is the region in which it is made, and `handle` the summary of its handle.
#[cycle(seen)]
fn made<'p>(
    scope: &Scope<'_, 'p>,
    alloc: Global,
    around: Around<'_>,
    at: u32,
    goal: Verdict<Goal>,
    handle: Passed,
    new: &Made,
) -> Result<Seen<'p>, AllocError>
    ensures { (g : Env) (how : TheUsage) → IsWithin scope.now around.entry g → IfOk result (IsSeen how
        (short_made g at (short_of goal_in goal) (made_tree new.now)) (uses_made g (made_tree new.now) (passage_of handle))) }
{
    match new {
        Made::One(value) => {
            let value = seen(scope, alloc, around, Usage::Value, value)?;
            made_one(at, goal, handle, value)
        }
        Made::Array(index, count, element) => {
            let count = looked(scope, alloc, around, count)?;
            let counters = with_counter(alloc, around.counters, &index.text)?;
            let locals = locals_around(scope, around)?;
            let inside = Around {
                enclosing: around.enclosing,
                counters: counters.as_slice(),
            };
            let element = seen(scope, alloc, inside, Usage::Value, element)?;
            made_array(at, goal, handle, count, locals, element)
        }
    }
}
