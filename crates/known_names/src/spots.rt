// The part of an expression that has a name at an offset, with the `rnew` around it.

use check_calls::Enclosing;
use check_expressions::{Around, goal_part, is_unique_region, judge_inside};
use check_faults::Verdict;
use check_operators::Value;
use check_scopes::Scope;
use cyc_tree::{Expression, Link, Made, Suffix};
use cyc_types::RegionId;
use std::alloc::{AllocError, Global};

/// How deep expressions nest at most.
const DEEPEST: u32 = 1024;

/// A part of an expression, and the `rnew` around it.
#[derive(Clone, Copy)]
pub(crate) struct Spot<'e> {
    pub(crate) node: &'e Expression,
    pub(crate) enclosing: Enclosing,
}

/// What is around a part.
fn around<'a>(enclosing: Enclosing) -> Around<'a> {
    Around {
        enclosing,
        counters: &[],
    }
}

impl<'e> Spot<'e> {
    /// What another part is with the same around. Fails only where no host memory is left.
    pub(crate) fn judged<'p>(
        self,
        scope: &Scope<'_, 'p>,
        alloc: Global,
        part: &Expression,
    ) -> Result<Verdict<Value<'p>>, AllocError> {
        judge_inside(scope, alloc, around(self.enclosing), part)
    }
}

/// Whether a suffix is the member that is named at an offset.
pub(crate) fn is_member_at(suffix: &Suffix, at: u32) -> bool {
    match suffix {
        Suffix::Dot(name) | Suffix::Arrow(name) => name.at == at,
        Suffix::Index(_) => false,
    }
}

/// Whether a member is named at an offset.
fn has_member(suffixes: &[Suffix], at: u32) -> bool {
    for suffix in suffixes {
        if is_member_at(suffix, at) {
            return true;
        }
    }
    false
}

/// Whether an expression has a name at an offset that is no part of it.
fn has_name(node: &Expression, at: u32) -> bool {
    match node {
        Expression::Variable(name) | Expression::Call(name, _) => name.at == at,
        Expression::MakeUnion(tag, member, _) => tag.at == at || member.at == at,
        Expression::Suffixed(_, suffixes) => has_member(suffixes, at),
        _ => false,
    }
}

/// A part that begins at or before an offset, else the one that is given.
fn begun<'e>(
    before: Option<&'e Expression>,
    part: &'e Expression,
    at: u32,
) -> Option<&'e Expression> {
    if part.place() <= at {
        Some(part)
    } else {
        before
    }
}

/// The last of several parts, behind one, that begins at or before an offset.
fn among<'e>(
    before: Option<&'e Expression>,
    parts: &'e [Expression],
    at: u32,
) -> Option<&'e Expression> {
    let mut found = before;
    for part in parts {
        found = begun(found, part, at);
    }
    found
}

/// The same of operands.
fn among_links<'e>(first: &'e Expression, links: &'e [Link], at: u32) -> Option<&'e Expression> {
    let mut found = begun(None, first, at);
    for link in links {
        found = begun(found, &link.operand, at);
    }
    found
}

/// The same of indexes.
fn among_indexes<'e>(
    first: &'e Expression,
    suffixes: &'e [Suffix],
    at: u32,
) -> Option<&'e Expression> {
    let mut found = begun(None, first, at);
    for suffix in suffixes {
        if let Suffix::Index(index) = suffix {
            found = begun(found, index, at);
        }
    }
    found
}

/// The same of what is made.
fn among_made<'e>(
    before: Option<&'e Expression>,
    made: &'e Made,
    at: u32,
) -> Option<&'e Expression> {
    match made {
        Made::One(value) => begun(before, value, at),
        Made::Array(_, count, element) => begun(begun(before, count, at), element, at),
    }
}

/// The last part of an expression that begins at or before an offset.
fn part_at(node: &Expression, at: u32) -> Option<&Expression> {
    match node {
        Expression::Call(_, arguments) => among(None, arguments, at),
        Expression::MakeUnion(_, _, inner)
        | Expression::NumElts(_, inner)
        | Expression::Grouped(_, inner)
        | Expression::Prefixed(_, _, inner) => begun(None, inner, at),
        Expression::Suffixed(first, suffixes) => among_indexes(first, suffixes, at),
        Expression::New(_, made) => among_made(None, made, at),
        Expression::NewIn(_, handle, made) => among_made(begun(None, handle, at), made, at),
        Expression::Chain(first, links) => among_links(first, links, at),
        Expression::AllOf(first, others) | Expression::AnyOf(first, others) => {
            among(begun(None, first, at), others, at)
        }
        Expression::Assign(to, from) => begun(begun(None, to, at), from, at),
        _ => None,
    }
}

/// The `rnew` around a part of an expression. Fails only where no host memory is left, as all of these.
fn enclosing_of(
    scope: &Scope<'_, '_>,
    alloc: Global,
    spot: Spot<'_>,
    part: &Expression,
) -> Result<Enclosing, AllocError> {
    match spot.node {
        Expression::NewIn(_, handle, _) if part.place() != handle.place() => {
            let judged = spot.judged(scope, alloc, handle)?;
            let goal = goal_part(scope, is_unique_region(handle), judged);
            Ok(around(spot.enclosing).inside(&goal).enclosing)
        }
        _ => Ok(spot.enclosing),
    }
}

/// The part of an expression that has a name at an offset; none, where no part has.
pub(crate) fn spot_at<'e>(
    scope: &Scope<'_, '_>,
    alloc: Global,
    whole: &'e Expression,
    at: u32,
) -> Result<Option<Spot<'e>>, AllocError> {
    let mut spot = Spot {
        node: whole,
        enclosing: Enclosing::In(RegionId::Heap),
    };
    for _ in 0..DEEPEST {
        if has_name(spot.node, at) {
            return Ok(Some(spot));
        }
        let Some(node) = part_at(spot.node, at) else {
            return Ok(None);
        };
        let enclosing = enclosing_of(scope, alloc, spot, node)?;
        spot = Spot { node, enclosing };
    }
    Ok(None)
}
