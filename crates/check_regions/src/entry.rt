// The region variables of a function.

ghost use Rattle.std.specs.Prelude.{◌≡◌, IfOk};
ghost use Rattle.check_regions.specs.Entered.{variable_at, variables_at};

use crate::begun::Begun;
use crate::marks::is_marked;
use cyc_types::RegionId;
use std::alloc::{AllocError, Global};

/// What is known of a function's region variables, as sets.
#[derive(Clone, Copy)]
pub(crate) struct VariableMarks<'m> {
    /// Those that are live.
    pub(crate) live: &'m [bool],
    /// Those that outlive the heap.
    pub(crate) over_heap: &'m [bool],
    /// Those that outlive the stack regions and lexical regions of the function.
    pub(crate) over_later: &'m [bool],
}

/// How the region variable of this level begins.
fn variable(marks: VariableMarks<'_>, level: u32) -> Begun
    ensures { result ≡ variable_at marks.entry.live.now marks.entry.over_heap.now marks.entry.over_later.now level }
{
    let region = RegionId::Level(level);
    Begun::Variable {
        live: is_marked(marks.live, region),
        over_heap: is_marked(marks.over_heap, region),
        over_later: is_marked(marks.over_later, region),
    }
}

/// How the first `count` region variables begin.
pub(crate) fn variables(
    alloc: Global,
    count: u32,
    marks: VariableMarks<'_>,
) -> Result<Vec<Begun>, AllocError>
    ensures { IfOk result (λ v. v.items ≡ variables_at marks.entry.live.now marks.entry.over_heap.now marks.entry.over_later.now count) }
{
    let mut begun = Vec::new(alloc);
    'each: for level in 0..count {
        begun.push(variable(marks, level))?;
    }
    Ok(begun)
}
