// What an expression is.

ghost use Rattle.std.specs.Prelude.{◌≡◌, IfOk, map};
ghost use Rattle.cyc_tree.specs.Tree.{Call};
ghost use Rattle.cyc_tree.specs.View.{expression_tree, expressions_of, link_tree, links_of, made_tree, name_tree, suffix_tree};
ghost use Rattle.source_typing.specs.Expressions.{judge};
ghost use Rattle.source_typing.specs.Scope.{Env};
ghost use Rattle.check_faults.specs.Verdicts.{short_of, shortened};
ghost use Rattle.check_scopes.specs.Knows.{Knows};
ghost use Rattle.check_operators.specs.Goals.{goal_in};
ghost use Rattle.check_operators.specs.Values.{value_of};
ghost use Rattle.check_expressions.specs.Within.{IsIn};
ghost use Rattle.check_expressions.specs.Goals.{short_made};
ghost use Rattle.check_expressions.specs.Joined.{short_links, short_tests};
ghost use Rattle.check_expressions.specs.Suffixes.{short_suffixes};

use crate::around::{Around, meaning, with_counter};
use crate::making::{array_parts, goal_part, is_unique_region, made_parts};
use crate::parts::{
    applied_parts, assigned_parts, call_part, counted_part, given_after, grouped_part,
    prefixed_part, refused, tested_parts, union_parts,
};
use crate::suffixes::{arrow_part, indexed_parts, member_part};
use check_calls::Enclosing;
use check_faults::Verdict;
use check_operators::{Goal, Value, character, heap_region, null, number, string, variable};
use check_scopes::Scope;
use cyc_tree::{Expression, Link, Made, Name, Suffix};
use cyc_types::RegionId;
use std::alloc::{AllocError, Global};

/// What an expression is in a scope: the earliest fault of it and its parts; that it isn't checked, since a name in it is declared by a
/// phrase with a fault; or its type, and where it is a place.
#[tactic(auto, using(crate::proofs::Within::nothing_around))]
pub fn judge<'p>(
    scope: &Scope<'_, 'p>,
    alloc: Global,
    expression: &Expression,
) -> Result<Verdict<Value<'p>>, AllocError>
    ensures { (g : Env) → Knows scope.now g
        → IfOk result (λ v. short_of value_of v ≡ shortened (judge g (expression_tree expression.now))) }
{
    let around = Around {
        enclosing: Enclosing::In(RegionId::Heap),
        counters: &[],
    };
    judge_inside(scope, alloc, around, expression)
}

/// The same, with this around.
#[cycle(expression)]
pub fn judge_inside<'p>(
    scope: &Scope<'_, 'p>,
    alloc: Global,
    around: Around<'_>,
    expression: &Expression,
) -> Result<Verdict<Value<'p>>, AllocError>
    ensures { (g : Env) → IsIn scope.now around.entry g
        → IfOk result (λ v. short_of value_of v ≡ shortened (judge g (expression_tree expression.now))) }
{
    match expression {
        Expression::Number(at, value, suffix) => Ok(number(alloc, *at, *value, *suffix)),
        Expression::Character(at, _) => Ok(character(alloc, *at)),
        Expression::Null(at) => Ok(null(alloc, *at)),
        Expression::Variable(name) => {
            variable(alloc, name.at, meaning(scope, around, &name.text))
        }
        Expression::Call(name, arguments) => judge_call(scope, alloc, around, name, arguments),
        Expression::Grouped(at, inner) => {
            let inner = judge_inside(scope, alloc, around, inner)?;
            Ok(grouped_part(*at, inner))
        }
        Expression::Prefixed(at, operator, operand) => {
            let operand = judge_inside(scope, alloc, around, operand)?;
            prefixed_part(scope, alloc, *at, *operator, operand)
        }
        Expression::Chain(first, links) => {
            let judged = judge_inside(scope, alloc, around, first)?;
            judge_links(scope, alloc, around, judged, links)
        }
        Expression::AllOf(first, others) => {
            let judged = judge_inside(scope, alloc, around, first)?;
            judge_tests(scope, alloc, around, judged, others)
        }
        Expression::AnyOf(first, others) => {
            let judged = judge_inside(scope, alloc, around, first)?;
            judge_tests(scope, alloc, around, judged, others)
        }
        Expression::Assign(to, from) => {
            let to = judge_inside(scope, alloc, around, to)?;
            let from = judge_inside(scope, alloc, around, from)?;
            assigned_parts(scope, alloc, to, from)
        }
        Expression::Suffixed(primary, suffixes) => {
            let judged = judge_inside(scope, alloc, around, primary)?;
            judge_suffixes(scope, alloc, around, judged, suffixes)
        }
        Expression::Text(at, bytes) => string(alloc, *at, bytes),
        Expression::HeapRegion(at) => Ok(heap_region(alloc, *at)),
        Expression::UniqueRegion(at) => Ok(refused(*at)),
        Expression::MakeUnion(tag, field, value) => {
            let value = judge_inside(scope, alloc, around, value)?;
            union_parts(scope, alloc, around, tag, field, value)
        }
        Expression::NumElts(at, operand) => {
            let operand = judge_inside(scope, alloc, around, operand)?;
            Ok(counted_part(alloc, *at, operand))
        }
        Expression::New(at, new) => {
            let goal = Verdict::Of(Goal::To(RegionId::Heap));
            judge_made(scope, alloc, around, *at, goal, new)
        }
        Expression::NewIn(at, handle, new) => {
            let is_unique = is_unique_region(handle);
            let handle = judge_inside(scope, alloc, around, handle)?;
            let goal = goal_part(scope, is_unique, handle);
            judge_made(scope, alloc, around.inside(&goal), *at, goal, new)
        }
    }
}

/// The operands of operators of one level, after what stands before them.
#[cycle(expression)]
fn judge_links<'p>(
    scope: &Scope<'_, 'p>,
    alloc: Global,
    around: Around<'_>,
    first: Verdict<Value<'p>>,
    links: &[Link],
) -> Result<Verdict<Value<'p>>, AllocError>
    ensures { (g : Env) → IsIn scope.now around.entry g → IfOk result
        (λ v. short_of value_of v
        ≡ short_links g (short_of value_of first.entry) (links_of (map link_tree links.now))) }
{
    let mut judged = first;
    'each: for link in links {
        let operand = judge_inside(scope, alloc, around, &link.operand)?;
        judged = applied_parts(scope, alloc, link.operator, judged, operand)?;
    }
    Ok(judged)
}

/// The operands of `&&` or `||`, after what stands before them.
#[cycle(expression)]
fn judge_tests<'p>(
    scope: &Scope<'_, 'p>,
    alloc: Global,
    around: Around<'_>,
    first: Verdict<Value<'p>>,
    others: &[Expression],
) -> Result<Verdict<Value<'p>>, AllocError>
    ensures { (g : Env) → IsIn scope.now around.entry g → IfOk result
        (λ v. short_of value_of v
        ≡ short_tests g (short_of value_of first.entry) (expressions_of (map expression_tree others.now))) }
{
    let mut judged = first;
    'each: for expression in others {
        let operand = judge_inside(scope, alloc, around, expression)?;
        judged = tested_parts(alloc, judged, operand);
    }
    Ok(judged)
}

/// What a call is.
#[cycle(expression)]
fn judge_call<'p>(
    scope: &Scope<'_, 'p>,
    alloc: Global,
    around: Around<'_>,
    name: &Name,
    arguments: &[Expression],
) -> Result<Verdict<Value<'p>>, AllocError>
    ensures { (g : Env) → IsIn scope.now around.entry g
        → IfOk result (λ v. short_of value_of v
        ≡ shortened (judge g (Call (name_tree name.now) (expressions_of (map expression_tree arguments.now))))) }
{
    let mut given = Verdict::Of(Vec::new(alloc));
    'each: for argument in arguments {
        let argument = judge_inside(scope, alloc, around, argument)?;
        given = given_after(given, argument)?;
    }
    call_part(scope, alloc, around, name, given)
}

/// Members and subscripts, after what stands before them.
#[cycle(expression)]
fn judge_suffixes<'p>(
    scope: &Scope<'_, 'p>,
    alloc: Global,
    around: Around<'_>,
    first: Verdict<Value<'p>>,
    suffixes: &[Suffix],
) -> Result<Verdict<Value<'p>>, AllocError>
    ensures { (g : Env) → IsIn scope.now around.entry g → IfOk result (λ v. short_of value_of v
        ≡ short_suffixes g (short_of value_of first.entry) (map suffix_tree suffixes.now)) }
{
    let mut judged = first;
    'each: for suffix in suffixes {
        judged = match suffix {
            Suffix::Index(index) => {
                let index = judge_inside(scope, alloc, around, index)?;
                indexed_parts(scope, judged, index)
            }
            Suffix::Dot(field) => member_part(scope.tables, field, judged)?,
            Suffix::Arrow(field) => arrow_part(scope, field, judged)?,
        };
    }
    Ok(judged)
}

/// An allocation at this position, by its region. In the element of an array comprehension its index is in scope.
#[cycle(expression)]
fn judge_made<'p>(
    scope: &Scope<'_, 'p>,
    alloc: Global,
    around: Around<'_>,
    at: u32,
    goal: Verdict<Goal>,
    new: &Made,
) -> Result<Verdict<Value<'p>>, AllocError>
    ensures { (g : Env) → IsIn scope.now around.entry g
        → IfOk result (λ v. short_of value_of v ≡ short_made g at (short_of goal_in goal) (made_tree new.now)) }
{
    match new {
        Made::One(value) => {
            let value = judge_inside(scope, alloc, around, value)?;
            made_parts(at, goal, value)
        }
        Made::Array(index, count, element) => {
            let count = judge_inside(scope, alloc, around, count)?;
            let counters = with_counter(alloc, around.counters, &index.text)?;
            let inside = Around {
                enclosing: around.enclosing,
                counters: counters.as_slice(),
            };
            let element = judge_inside(scope, alloc, inside, element)?;
            array_parts(at, goal, count, element)
        }
    }
}
