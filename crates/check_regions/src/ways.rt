// Paths along bounds: for each region one bound to follow and one jump over several, so that a long chain takes few steps.

ghost use Rattle.std.specs.Prelude.{◌≡◌, ◌+◌, IfOk, List, OnOk, Some, map, true};
ghost use Rattle.cyc_types.specs.Regions.{region_of, regions_of};
ghost use Rattle.source_typing.specs.Regions.{Region, is_among, reaches};
ghost use Rattle.check_regions.specs.Fields.{pair_of};
ghost use Rattle.check_regions.specs.Walked.{AreRows, rows_of};
ghost use Rattle.check_regions.specs.Ways.{AreWays, Leads, all_fall, depth_at, falls};

use crate::bounds::Bound;
use crate::marks::{is_marked, mark, past};
use crate::walk::row_of;
use cyc_types::RegionId;
use std::alloc::{AllocError, Global};
use std::marker::Model;

/// The limit on the steps along one path. A path of 2 ^ 30 bounds takes fewer.
const STEPS: u32 = 64;

/// The limit on the length of jumps that are joined.
const LONGEST: usize = 1073741824;

/// The path of a region along bounds.
#[derive(Clone, Copy)]
pub(crate) struct Way {
    /// The region that it outlives by the path's first bound, or itself at the path's end.
    next: RegionId,
    /// The region to which the jump leads, over `length` bounds of the path.
    far: RegionId,
    length: usize,
    /// The number of bounds up to the path's end.
    depth: usize,
}

/// The path of a region that ends there.
fn ended(region: RegionId) -> Way
    ensures { (bs : List (Region × Region)) → Leads bs (region_of region) result }
{
    Way {
        next: region,
        far: region,
        length: 0,
        depth: 0,
    }
}

/// The path of a region. It ends there if the table has none.
fn way_of(ways: &[Option<Way>], region: RegionId) -> Way
    ensures { (bs : List (Region × Region)) → AreWays bs ways.now → Leads bs (region_of region) result }
{
    match ways.get(past(region)) {
        Some(Some(way)) => *way,
        _ => ended(region),
    }
}

/// The number of bounds up to the end of a region's path.
pub(crate) fn depth(ways: &[Option<Way>], region: RegionId) -> usize
    ensures { result ≡ depth_at ways.now (region_of region) }
{
    match ways.get(past(region)) {
        Some(Some(way)) => way.depth,
        _ => 0,
    }
}

/// One step along a region's path to a region of at least this depth: where it leads, and over how many bounds.
fn step(ways: &[Option<Way>], region: RegionId, least: usize) -> (RegionId, usize)
    ensures { (bs : List (Region × Region)) → AreWays bs ways.now → reaches result.1 bs (region_of region) (region_of result.0) ≡ true }
{
    let way = way_of(ways, region);
    if depth(ways, way.far) < least {
        (way.next, 1)
    } else {
        (way.far, way.length)
    }
}

/// Whether a region's path leads to another one over at most `most` bounds.
pub(crate) fn leads(ways: &[Option<Way>], most: usize, one: RegionId, other: RegionId) -> bool
    ensures { (bs : List (Region × Region)) → AreWays bs ways.now → result ≡ true → reaches most bs (region_of one) (region_of other) ≡ true }
{
    let least = depth(ways, other);
    let mut at = one;
    let mut left = most;
    'steps: for _step in 0..STEPS {
        if at.is_same(other) {
            return true;
        }
        let (next, length) = step(ways, at, least);
        if left < length || next.is_same(at) {
            return false;
        }
        left -= length;
        at = next;
    }
    false
}

/// Whether a bound leads to a region of less depth, which isn't the heap.
fn falls(ways: &[Option<Way>], bound: Bound) -> bool
    ensures { result ≡ falls ways.now (pair_of bound) }
{
    !bound.1.is_heap() && depth(ways, bound.1) < depth(ways, bound.0)
}

/// Whether each bound leads to a region of less depth, which isn't the heap.
pub(crate) fn all_fall(ways: &[Option<Way>], bounds: &[Bound]) -> bool
    ensures { result ≡ all_fall ways.now (map pair_of bounds.now) }
{
    'each: for bound in bounds {
        if !falls(ways, *bound) {
            return false;
        }
    }
    true
}

/// The path of a region that outlives `other` by one bound, and follows the path of `other` from there. Its jump joins two jumps of the
/// same length, as in a skew binary list.
fn way_behind(ways: &[Option<Way>], other: RegionId) -> Way
    ensures { (bs : List (Region × Region)) → (r : Region) → AreWays bs ways.now → reaches 1 bs r (region_of other) ≡ true → Leads bs r result }
{
    let next = way_of(ways, other);
    let beyond = way_of(ways, next.far);
    let depth = next.depth.saturating_add(1);
    if next.length == beyond.length && next.length < LONGEST {
        Way {
            next: other,
            far: beyond.far,
            length: next.length + beyond.length + 1,
            depth,
        }
    } else {
        Way {
            next: other,
            far: other,
            length: 1,
            depth,
        }
    }
}

/// Sets the path of a region that has none, and tells whether it did.
fn set_way(ways: &mut [Option<Way>], region: RegionId, way: Way) -> bool
    ensures { (bs : List (Region × Region)) → AreWays bs ways.old → Leads bs (region_of region) way → AreWays bs ways.new }
{
    let place = past(region);
    if place < ways.len() {
        if ways[place].is_none() {
            ways[place] = Some(way);
            return true;
        }
    }
    false
}

/// The set of the regions that outlive another one by a bound.
fn longer_marks(alloc: Global, size: usize, bounds: &[Bound]) -> Result<Vec<bool>, AllocError> {
    let mut marks = vec![in alloc; false; size]?;
    'each: for bound in bounds {
        mark(marks.as_mut_slice(), bound.0);
    }
    Ok(marks)
}

/// The paths that were found, and their regions in the order in which they were found.
struct Ways {
    ways: Vec<Option<Way>>,
    order: Vec<RegionId>,
}

// Written out, so that a caller's proof sees one call and not the drop of each field.
impl Drop for Ways {
    fn drop(self) {
        let Ways {
            ways: _ways,
            order: _order,
        } = self;
    }
}

impl Model for Ways {
    ghost use Rattle.std.specs.Prelude.{List, Option};
    ghost use Rattle.check_regions.specs.declared.ways.Way.{Way};

    ghost Value = { List (Option Way) };

    ghost view = { λ s. s.ways.items };
}

impl Ways {
    /// No paths, in a table of this size.
    fn none(alloc: Global, size: usize) -> Result<Ways, AllocError>
        ensures { IfOk result (λ w. (bs : List (Region × Region)) → AreWays bs w) }
    {
        let ways = vec![in alloc; None; size]?;
        let order = Vec::new(alloc);
        Ok(Ways { ways, order })
    }

    /// The paths.
    fn found(self) -> Vec<Option<Way>>
        ensures { result.items ≡ self }
    {
        let Ways {
            ways,
            order: _order,
        } = self;
        ways
    }

    /// Sets the path of a region that has none.
    fn set(&mut self, region: RegionId, way: Way) -> Result<(), AllocError>
        ensures { OnOk result ((bs : List (Region × Region)) → AreWays bs self.old → Leads bs (region_of region) way → AreWays bs self.new) }
    {
        if set_way(self.ways.as_mut_slice(), region, way) {
            self.order.push(region)?;
        }
        Ok(())
    }

    /// Lets a path end at a region that has none.
    fn end_at(&mut self, region: RegionId) -> Result<(), AllocError>
        ensures { OnOk result ((bs : List (Region × Region)) → AreWays bs self.old → AreWays bs self.new) }
    {
        self.set(region, ended(region))
    }

    /// Sets the path of a region that outlives `other` by one bound, if it has none.
    fn lead(&mut self, region: RegionId, other: RegionId) -> Result<(), AllocError>
        ensures { OnOk result ((bs : List (Region × Region)) → AreWays bs self.old → reaches 1 bs (region_of region) (region_of other) ≡ true
            → AreWays bs self.new) }
    {
        let way = way_behind(self.ways.as_slice(), other);
        self.set(region, way)
    }

    /// Sets the paths of the regions that outlive `other` by one bound.
    fn lead_each(&mut self, row: &[RegionId], other: RegionId) -> Result<(), AllocError>
        ensures { OnOk result ((bs : List (Region × Region))
            → ((r : Region) → is_among (regions_of row.now) r ≡ true → reaches 1 bs r (region_of other) ≡ true)
            → AreWays bs self.old → AreWays bs self.new) }
    {
        'each: for region in row {
            self.lead(*region, other)?;
        }
        Ok(())
    }

    /// Sets the paths of all regions that outlive those found from number `first` on.
    fn spread(&mut self, rows: &[Vec<RegionId>], first: usize) -> Result<(), AllocError>
        ensures { OnOk result ((bs : List (Region × Region)) → AreRows (rows_of rows.now) bs → AreWays bs self.old → AreWays bs self.new) }
    {
        'each: for place in first..rows.len() {
            let Some(region) = self.order.get(place).copied() else {
                return Ok(());
            };
            self.lead_each(row_of(rows, region), region)?;
        }
        Ok(())
    }

    /// Lets paths end at the regions that are outlived by a bound, but outlive none themselves: `longer` has those that do.
    fn end_each(&mut self, bounds: &[Bound], longer: &[bool]) -> Result<(), AllocError>
        ensures { OnOk result ((bs : List (Region × Region)) → AreWays bs self.old → AreWays bs self.new) }
    {
        'each: for bound in bounds {
            if !is_marked(longer, bound.1) {
                self.end_at(bound.1)?;
            }
        }
        Ok(())
    }

    /// Sets the paths of the regions that have none yet, since their bounds form a circle.
    fn spread_round(&mut self, bounds: &[Bound], rows: &[Vec<RegionId>]) -> Result<(), AllocError>
        ensures { OnOk result ((bs : List (Region × Region)) → AreRows (rows_of rows.now) bs → AreWays bs self.old → AreWays bs self.new) }
    {
        'each: for bound in bounds {
            let first = self.order.len();
            self.end_at(bound.1)?;
            self.spread(rows, first)?;
        }
        Ok(())
    }
}

/// The paths of the regions of these bounds. `rows` is the table of the bounds.
pub(crate) fn ways_of(
    alloc: Global,
    bounds: &[Bound],
    rows: &[Vec<RegionId>],
) -> Result<Vec<Option<Way>>, AllocError>
    ensures { IfOk result (λ v. (bs : List (Region × Region)) → AreRows (rows_of rows.now) bs → AreWays bs v.items) }
{
    let longer = longer_marks(alloc, rows.len(), bounds)?;
    let mut ways = Ways::none(alloc, rows.len())?;
    ways.end_each(bounds, longer.as_slice())?;
    ways.spread(rows, 0)?;
    ways.spread_round(bounds, rows)?;
    Ok(ways.found())
}
