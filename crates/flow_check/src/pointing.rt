// The operators `*` and `&`, and operators that only look at their operand.

ghost use Rattle.std.specs.Prelude.{◌≡◌, ◌&&◌, ◌||◌, IfOk, not};
ghost use Rattle.check_faults.specs.Verdicts.{short_of, shortened};
ghost use Rattle.check_operators.specs.Values.{value_of};
ghost use Rattle.check_scopes.specs.Knows.{Sees};
ghost use Rattle.cyc_tree.specs.declared.expression.Prefix.TheVariants as prefix;
ghost use Rattle.flow_check.specs.Seen.{IsSeen};
ghost use Rattle.flow_check.specs.Short.{in_block_short, is_unique_short};
ghost use Rattle.flow_effects.specs.Passed.{passage_of};
ghost use Rattle.flow_effects.specs.Used.{IsUsed};
ghost use Rattle.flow_effects.specs.declared.used.Usage.TheVariants as usage;
ghost use Rattle.flow_effects.specs.declared.used.Usage.{Usage as TheUsage};
ghost use Rattle.flow_summaries.specs.Passages.{copied_if, in_turn};
ghost use Rattle.flow_summaries.specs.Uses.{Uses, address_uses, contents_uses, uses_as_value};
ghost use Rattle.source_typing.specs.Operators.{prefixed};
ghost use Rattle.source_typing.specs.Scope.{Env, Value as TheValue};
ghost use Rattle.source_typing.specs.Verdicts.{Verdict as TheVerdict, after};

use crate::facts::{in_block, is_moved, is_unique_value};
use crate::seen::Seen;
use check_expressions::prefixed_part;
use check_faults::Verdict;
use check_operators::Value;
use check_scopes::Scope;
use cyc_tree::Prefix;
use flow_effects::{Passed, Usage, Used};
use std::alloc::{AllocError, Global};

/// Whether the value is a unique pointer, but not the name of a local: it can't be dereferenced then.
fn is_led_away(judged: &Verdict<Value>, used: &Used) -> bool
    ensures { result ≡ (is_unique_short (short_of value_of judged.now) && not used.now.whole) }
{
    is_unique_value(judged) && !used.whole
}

/// Whether an element or member is a part of a noncopyable local. What a unique pointer points to isn't.
pub(crate) fn is_part(judged: &Verdict<Value>, used: &Used) -> bool
    ensures { result ≡ (used.now.own && not (is_unique_short (short_of value_of judged.now))) }
{
    used.own && !is_unique_value(judged)
}

/// The summary of a dereference at this position. A unique pointer is dereferenced by the name of a local alone.
pub(crate) fn pointed(at: u32, judged: &Verdict<Value>, used: Used) -> Passed
    ensures { (u : Uses) → IsUsed usage.Look u used
        → passage_of result ≡ in_turn u.look (copied_if (is_unique_short (short_of value_of judged.now) && not u.whole) at) }
{
    let copied = Passed::copied_if(is_led_away(judged, &used), at);
    used.passed.in_turn(copied)
}

/// Whether the value is a noncopyable local or a part of one, or a place in the block of a unique pointer.
fn is_owned(judged: &Verdict<Value>, used: &Used) -> bool
    ensures { result ≡ (used.now.own || in_block_short (short_of value_of judged.now)) }
{
    used.own || in_block(judged)
}

/// The summary of a `&` at this position, whose operand must not be owned.
fn pointed_to(at: u32, judged: &Verdict<Value>, used: Used) -> Used
    ensures { (how : TheUsage) (u : Uses) → IsUsed usage.Place u used → IsUsed how (uses_as_value
        (in_turn u.place (copied_if (u.own || in_block_short (short_of value_of judged.now)) at))) result }
{
    let copied = Passed::copied_if(is_owned(judged, &used), at);
    Used::value(used.passed.in_turn(copied))
}

/// A prefix operator at this position that only looks at its operand.
pub(crate) fn looked_at<'p>(
    scope: &Scope<'_, 'p>,
    alloc: Global,
    at: u32,
    operator: Prefix,
    operand: Seen<'p>,
) -> Result<Seen<'p>, AllocError>
    ensures { (g : Env) (v : TheVerdict TheValue) (u : Uses) (how : TheUsage) → Sees scope.now g → IsSeen usage.Look (shortened v) u operand.entry
        → IfOk result (IsSeen how (shortened (after v (prefixed g at operator))) (uses_as_value u.look)) }
{
    let Seen { judged, used } = operand;
    let judged = prefixed_part(scope, alloc, at, operator, judged)?;
    let used = Used::value(used.passed);
    Ok(Seen { judged, used })
}

/// A `*` at this position.
pub(crate) fn dereferenced<'p>(
    scope: &Scope<'_, 'p>,
    alloc: Global,
    how: Usage,
    at: u32,
    operand: Seen<'p>,
) -> Result<Seen<'p>, AllocError>
    ensures { (g : Env) (v : TheVerdict TheValue) (u : Uses) → Sees scope.now g → IsSeen usage.Look (shortened v) u operand.entry
        → IfOk result (IsSeen how (shortened (after v (prefixed g at prefix.Dereference))) (contents_uses g at v u)) }
{
    let Seen { judged, used } = operand;
    let passed = pointed(at, &judged, used);
    let judged = prefixed_part(scope, alloc, at, Prefix::Dereference, judged)?;
    let moves = is_moved(scope.tables, &judged);
    let used = Used::place(how, at, moves, false, passed);
    Ok(Seen { judged, used })
}

/// A `&` at this position.
pub(crate) fn addressed<'p>(
    scope: &Scope<'_, 'p>,
    alloc: Global,
    at: u32,
    operand: Seen<'p>,
) -> Result<Seen<'p>, AllocError>
    ensures { (g : Env) (v : TheVerdict TheValue) (u : Uses) (how : TheUsage) → Sees scope.now g → IsSeen usage.Place (shortened v) u operand.entry
        → IfOk result (IsSeen how (shortened (after v (prefixed g at prefix.AddressOf))) (address_uses at v u)) }
{
    let Seen { judged, used } = operand;
    let used = pointed_to(at, &judged, used);
    let judged = prefixed_part(scope, alloc, at, Prefix::AddressOf, judged)?;
    Ok(Seen { judged, used })
}
