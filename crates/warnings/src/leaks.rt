// Blocks with one owner, and keys, that are never freed.

use crate::always::bare;
use crate::names::Named;
use crate::walk::Walk;
use crate::warning::{Warning, WarningKind};
use cyc_tree::{Expression, Name, Pointer, RegionName, Sign, TypeName};

/// Whether a value is a new block with one owner.
pub(crate) fn begins_as_owner(value: &Expression) -> bool {
    match bare(value) {
        Expression::NewIn(_, handle, _) => matches!(bare(handle), Expression::UniqueRegion(_)),
        _ => false,
    }
}

/// Whether a pointer leads to a block that it alone owns, and is never NULL.
fn is_owning(pointer: &Pointer) -> bool {
    matches!(pointer.sign, Sign::NotNull(_))
        && matches!(pointer.region, Some(RegionName::Unique(_)))
}

/// Whether a parameter of a type owns a block when the function begins.
pub(crate) fn is_owner(of: &TypeName) -> bool {
    match of.pointers.last() {
        Some(pointer) => is_owning(pointer),
        None => false,
    }
}

/// Warns of a statement that makes a block and drops it.
pub(crate) fn warn_of_leak(walk: &mut Walk<'_>, value: &Expression) {
    if begins_as_owner(value) {
        walk.warn_at(
            WarningKind::Leak,
            value.place(),
            "this block is never freed",
            "Keep it in a local, and free that by ufree.",
        );
    }
}

/// Gives a name a value, and warns where it is a local that still has a block of its own.
pub(crate) fn assign<'p>(walk: &mut Walk<'p>, name: &'p Name, value: &Expression) {
    if walk.names.assign(&name.text, begins_as_owner(value)) {
        walk.warn(Warning {
            kind: WarningKind::Leak,
            at: name.at,
            name: &name.text,
            words: " still has a block, which is never freed",
            cure: "Free that by ufree before, or give its value away.",
        });
    }
}

/// What to write for a name that owns something which is never freed: a key has no type of its own in the text.
fn cure_of(named: &Named<'_>) -> &'static str {
    match named.of {
        Some(_) => "Free it by ufree, or give its value away.",
        None => "Free it by free_ukey, or give it away.",
    }
}

/// The warning of a name that owns a block or a key which nothing frees or gives away.
pub(crate) fn leak_of<'p>(named: &Named<'p>) -> Option<Warning<'p>> {
    if !named.owns || named.is_taken {
        return None;
    }
    Some(Warning {
        kind: WarningKind::Leak,
        at: named.name.at,
        name: &named.name.text,
        words: " is never freed",
        cure: cure_of(named),
    })
}
