// Indexes that are never within the bounds.

use crate::always::{Known, bare, constant};
use crate::names::{Named, Names};
use crate::walk::Walk;
use crate::warning::{Warning, WarningKind};
use cyc_tree::{Expression, Sign, Suffix, TypeName};

/// How many elements a pointer of a type leads to, where the type says so.
fn bound_of_type(of: &TypeName) -> Option<u32> {
    match of.pointers.last()?.sign {
        Sign::Nullable(count) | Sign::NotNull(count) => Some(count),
        Sign::Fat => None,
    }
}

/// How many elements a name has or leads to, where its declaration says so.
fn bound_of_name(named: Named<'_>) -> Option<u32> {
    match named.count {
        Some(count) => Some(count),
        None => bound_of_type(named.of?),
    }
}

/// What to write where an index is beyond the bounds of an array, or of a pointer that says how many elements it leads to.
const CURE: &str = "Of n elements the first has the index 0, and the last n - 1.";

/// The same of a pointer to one element.
const CURE_OF_ONE: &str =
    "It leads to one element, with the index 0: write `?` for its sign, and it leads to all there are.";

/// How many elements something has or leads to, what it is called, and what to write where an index is beyond these.
#[derive(Clone, Copy)]
struct Bounds<'p> {
    count: u32,
    name: &'p [u8],
    cure: &'static str,
}

/// What to write where an index is beyond so many elements that a name has or leads to.
fn cure_of(named: Named<'_>, count: u32) -> &'static str {
    if named.count.is_none() && count == 1 {
        CURE_OF_ONE
    } else {
        CURE
    }
}

/// How many elements an expression has or leads to, where it has a name or is a string.
fn bounded<'p>(names: &Names<'p>, expression: &'p Expression) -> Option<Bounds<'p>> {
    match bare(expression) {
        Expression::Variable(name) => {
            let named = names.find(&name.text)?;
            let count = bound_of_name(named)?;
            Some(Bounds {
                count,
                name: &name.text,
                cure: cure_of(named, count),
            })
        }
        Expression::Text(_, bytes) => {
            let count = u32::try_from(bytes.len()).unwrap_or(u32::MAX);
            Some(Bounds {
                count: count.saturating_add(1),
                name: b"the string",
                cure: CURE,
            })
        }
        _ => None,
    }
}

/// Whether an index is not below a bound.
fn is_beyond(index: Known, bound: u32) -> bool {
    match index {
        Known::Negative => true,
        Known::Number(number) => bound <= number,
    }
}

/// What has no element of the index that is the first suffix.
fn beyond<'p>(
    names: &Names<'p>,
    primary: &'p Expression,
    suffixes: &'p [Suffix],
) -> Option<Bounds<'p>> {
    let Suffix::Index(index) = suffixes.first()? else {
        return None;
    };
    let index = constant(index)?;
    let bounded = bounded(names, primary)?;
    if is_beyond(index, bounded.count) {
        Some(bounded)
    } else {
        None
    }
}

/// Warns of a constant index that is never within the bounds.
pub(crate) fn warn_of_index<'p>(
    walk: &mut Walk<'p>,
    primary: &'p Expression,
    suffixes: &'p [Suffix],
) {
    if let Some(bounded) = beyond(&walk.names, primary, suffixes) {
        walk.warn(Warning {
            kind: WarningKind::Raises,
            at: primary.place(),
            name: bounded.name,
            words: " has no element with this index, so the run ends here",
            cure: bounded.cure,
        });
    }
}
