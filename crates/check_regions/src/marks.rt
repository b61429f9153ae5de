// Sets of regions, as a mark for each level. The heap is in every set.

ghost use Rattle.std.specs.Prelude.{◌≡◌, IfOk};
ghost use Rattle.cyc_types.specs.Regions.{region_of, regions_of};
ghost use Rattle.check_regions.specs.Reached.{has, marks_of, past, with_mark, with_marks};

use cyc_types::RegionId;
use std::alloc::{AllocError, Global};

/// The index of a region in a table: 0 for the heap, and 1 more than its level for another one.
pub(crate) fn past(region: RegionId) -> usize
    ensures { result ≡ past (region_of region) }
{
    match region {
        RegionId::Heap => 0,
        RegionId::Level(level) => level as usize + 1,
    }
}

/// Whether a region is in the set.
pub(crate) fn is_marked(marks: &[bool], region: RegionId) -> bool
    ensures { result ≡ has marks.now (region_of region) }
{
    match region {
        RegionId::Heap => true,
        RegionId::Level(level) => match marks.get(level as usize) {
            Some(mark) => *mark,
            None => false,
        },
    }
}

/// Adds a region to the set, if the set has a mark for it.
pub(crate) fn mark(marks: &mut [bool], region: RegionId)
    ensures { marks.new ≡ with_mark (region_of region) marks.old }
{
    if let RegionId::Level(level) = region {
        let place = level as usize;
        if place < marks.len() {
            marks[place] = true;
        }
    }
}

/// Adds these regions to the set.
fn mark_each(marks: &mut [bool], regions: &[RegionId])
    ensures { marks.new ≡ with_marks (regions_of regions.now) marks.old }
{
    'each: for region in regions {
        mark(marks, *region);
    }
}

/// The set of these regions, with `size` marks.
pub(crate) fn marks_of(
    alloc: Global,
    size: usize,
    regions: &[RegionId],
) -> Result<Vec<bool>, AllocError>
    ensures { IfOk result (λ v. v.items ≡ marks_of size (regions_of regions.now)) }
{
    let mut marks = vec![in alloc; false; size]?;
    mark_each(marks.as_mut_slice(), regions);
    Ok(marks)
}
