// What the flow of an expression needs to know of the verdicts on its parts.

ghost use Rattle.std.specs.Prelude.{◌≡◌};
ghost use Rattle.cyc_types.specs.Sameness.{HasTags};
ghost use Rattle.check_operators.specs.Values.{value_of};
ghost use Rattle.source_typing.specs.Scope.{Env};
ghost use Rattle.check_faults.specs.Verdicts.{short_of};
ghost use Rattle.flow_check.specs.Short.{in_block_short, is_moved_short, is_unique_short, place_short};

use check_declarations::is_unique;
use check_faults::Verdict;
use check_operators::{Seat, Value};
use cyc_types::{Tables, is_copyable};

/// Whether the value can't be copied, so that it would be moved.
pub(crate) fn is_moved(tables: &Tables, judged: &Verdict<Value>) -> bool
    ensures { (g : Env) → HasTags tables.now g.tables → result ≡ is_moved_short g (short_of value_of judged.now) }
{
    match judged {
        Verdict::Of(value) => !is_copyable(&value.of, tables),
        Verdict::Wrong(_) | Verdict::NotJudged => false,
    }
}

/// Whether the value is a unique pointer.
pub(crate) fn is_unique_value(judged: &Verdict<Value>) -> bool
    ensures { result ≡ is_unique_short (short_of value_of judged.now) }
{
    match judged {
        Verdict::Of(value) => is_unique(&value.of),
        Verdict::Wrong(_) | Verdict::NotJudged => false,
    }
}

/// Whether the value is a place in the block of a unique pointer.
pub(crate) fn in_block(judged: &Verdict<Value>) -> bool
    ensures { result ≡ in_block_short (short_of value_of judged.now) }
{
    match judged {
        Verdict::Of(value) => matches!(value.seat, Seat::InBlock),
        Verdict::Wrong(_) | Verdict::NotJudged => false,
    }
}

/// Where the value's text begins, or 0 if it has no verdict.
pub(crate) fn place_of(judged: &Verdict<Value>) -> u32
    ensures { result ≡ place_short (short_of value_of judged.now) }
{
    match judged {
        Verdict::Of(value) => value.at,
        Verdict::Wrong(_) | Verdict::NotJudged => 0,
    }
}
