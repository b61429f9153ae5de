// Breadth-first search over bounds, from the regions that are outlived to those that outlive them.

ghost use Rattle.std.specs.Prelude.{◌≡◌, IfOk, OnOk};
ghost use Rattle.cyc_types.specs.Regions.{region_of, regions_of};
ghost use Rattle.check_regions.specs.Walked.{all_found, found, levels, next_level, row_of, rows_of, walk_from};

use crate::marks::{is_marked, mark, marks_of, past};
use cyc_types::RegionId;
use std::alloc::{AllocError, Global};
use std::marker::Model;

/// A search, with the regions that it has found.
pub(crate) struct Walk {
    /// The set of the regions found.
    marks: Vec<bool>,
    /// The regions that the last level has found.
    latest: Vec<RegionId>,
}

// Written out, so that a caller's proof sees one call and not the drop of each field.
impl Drop for Walk {
    fn drop(self) {
        let Walk {
            marks: _marks,
            latest: _latest,
        } = self;
    }
}

impl Model for Walk {
    ghost use Rattle.cyc_types.specs.Regions.{regions_of};
    ghost use Rattle.check_regions.specs.Walked.{Walked};

    ghost Value = { Walked };

    ghost view = { λ s. record { marks = s.marks.items; latest = regions_of s.latest.items } };
}

/// The regions that outlive a region by one bound.
pub(crate) fn row_of(rows: &[Vec<RegionId>], region: RegionId) -> &[RegionId]
    ensures { regions_of result.now ≡ row_of (rows_of rows.now) (region_of region) }
{
    match rows.get(past(region)) {
        Some(row) => row.as_slice(),
        None => &[],
    }
}

impl Walk {
    /// The search that begins at the heap and these regions. Its set has `size` marks.
    #[tactic(auto, using(crate::proofs::Ruled::regions_and))]
    pub(crate) fn from(alloc: Global, size: usize, targets: &[RegionId]) -> Result<Walk, AllocError>
        ensures { IfOk result (λ w. w ≡ walk_from size (regions_of targets.now)) }
    {
        let marks = marks_of(alloc, size, targets)?;
        let mut latest = Vec::from_slice(alloc, targets)?;
        latest.push(RegionId::Heap)?;
        Ok(Walk { marks, latest })
    }

    /// The set of the regions found.
    pub(crate) fn marks(self) -> Vec<bool>
        ensures { result.items ≡ self.marks }
    {
        let Walk {
            marks,
            latest: _latest,
        } = self;
        marks
    }

    /// Adds a region, unless it was found before.
    #[tactic(auto, using(crate::proofs::Ruled::regions_and))]
    fn find(&mut self, region: RegionId) -> Result<(), AllocError>
        ensures { OnOk result (self.new ≡ found (region_of region) self.old) }
    {
        if !is_marked(self.marks.as_slice(), region) {
            mark(self.marks.as_mut_slice(), region);
            self.latest.push(region)?;
        }
        Ok(())
    }

    /// Adds these regions.
    fn find_all(&mut self, regions: &[RegionId]) -> Result<(), AllocError>
        ensures { OnOk result (self.new ≡ all_found (regions_of regions.now) self.old) }
    {
        'each: for region in regions {
            self.find(*region)?;
        }
        Ok(())
    }

    /// The next level: adds the regions that outlive one of the latest by one bound.
    fn next(self, alloc: Global, rows: &[Vec<RegionId>]) -> Result<Walk, AllocError>
        ensures { IfOk result (λ w. w ≡ next_level (rows_of rows.now) self) }
    {
        let Walk { marks, latest } = self;
        let mut next = Walk {
            marks,
            latest: Vec::new(alloc),
        };
        'each: for region in &latest {
            next.find_all(row_of(rows, *region))?;
        }
        Ok(next)
    }

    /// Up to `count` more levels. A level that finds nothing is the last.
    pub(crate) fn levels(
        self,
        alloc: Global,
        rows: &[Vec<RegionId>],
        count: usize,
    ) -> Result<Walk, AllocError>
        ensures { IfOk result (λ w. w ≡ levels (rows_of rows.now) self count) }
    {
        let mut walk = self;
        'levels: for _level in 0..count {
            if walk.latest.is_empty() {
                return Ok(walk);
            }
            walk = walk.next(alloc, rows)?;
        }
        Ok(walk)
    }
}
