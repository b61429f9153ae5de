// The bounds of a function, and which regions outlive others by them.

ghost use Rattle.std.specs.Prelude.{◌≡◌, ◌≤◌, ◌<◌, IfOk, OnOk, [], false, length, map, true};
ghost use Rattle.cyc_types.specs.Regions.{region_of, regions_of};
ghost use Rattle.source_typing.specs.Named.{Below, BoundsBelow};
ghost use Rattle.source_typing.specs.Regions.{Region, is_heap, same_id};
ghost use Rattle.check_regions.specs.Fields.{pair_of};
ghost use Rattle.check_regions.specs.Reached.{has, most, outlives_by, past, reaches_any};
ghost use Rattle.check_regions.specs.Walked.{AreRows, ends_in, no_rows, rows_of, with_bound, with_bounds, with_region};

use crate::marks::{is_marked, past};
use crate::walk::Walk;
use crate::ways::{Way, all_fall, depth, leads, ways_of};
use cyc_types::RegionId;
use std::alloc::{AllocError, Global};
use std::marker::Model;

/// A bound: the first region outlives the second.
pub(crate) type Bound = (RegionId, RegionId);

/// The bounds of a function. A contract sees them as they were given.
pub(crate) struct Bounds {
    given: Vec<Bound>,
    /// For each region, at its index, the regions that outlive it by one bound.
    rows: Vec<Vec<RegionId>>,
    /// For each region, at its index, a path to a region that it outlives.
    ways: Vec<Option<Way>>,
    /// Whether each bound leads from a region to one of less depth.
    falls: bool,
}

// Written out, so that a caller's proof sees one call and not the drop of each field.
impl Drop for Bounds {
    fn drop(self) {
        let Bounds {
            given: _given,
            rows: _rows,
            ways: _ways,
            falls: _,
        } = self;
    }
}

impl Model for Bounds {
    ghost use Rattle.std.specs.Prelude.{List, map};
    ghost use Rattle.source_typing.specs.Regions.{Region};
    ghost use Rattle.check_regions.specs.Fields.{pair_of};
    ghost use Rattle.check_regions.specs.Walked.{rows_of};
    ghost use Rattle.check_regions.specs.Ways.{AreKept};

    ghost Value = { List (Region × Region) };

    ghost view = { λ s. map pair_of s.given.items };

    ghost invariant = { λ s. AreKept (map pair_of s.given.items) (rows_of s.rows.items) s.ways.items s.falls };
}

/// The size of a table of all regions of the bounds.
fn room_for(bounds: &[Bound]) -> usize
    ensures { result ≡ most (map pair_of bounds.now) 0 }
{
    let mut room = 0;
    'each: for bound in bounds {
        room = usize::max(room, usize::max(past(bound.0), past(bound.1)));
    }
    room
}

/// A table for the heap and `size` more regions, with empty rows.
fn no_rows(alloc: Global, size: usize) -> Result<Vec<Vec<RegionId>>, AllocError>
    ensures { IfOk result (λ v. rows_of v.items ≡ no_rows size) }
{
    let mut rows = vec![in alloc; Vec::new(alloc)]?;
    'each: for _row in 0..size {
        rows.push(Vec::new(alloc))?;
    }
    Ok(rows)
}

/// Whether a region is the last one of a row.
#[tactic(auto, using(crate::proofs::Rows::last_region))]
fn ends_in(row: &[RegionId], region: RegionId) -> bool
    ensures { result ≡ ends_in (regions_of row.now) (region_of region) }
{
    match row.last() {
        Some(last) => last.is_same(region),
        None => false,
    }
}

/// Adds a region to a row, unless it is the row's last one.
#[tactic(auto, using(crate::proofs::Ruled::regions_and))]
fn add_region(row: &mut Vec<RegionId>, region: RegionId) -> Result<(), AllocError>
    ensures { OnOk result (regions_of row.new.items ≡ with_region (regions_of row.old.items) (region_of region)) }
{
    if !ends_in(row.as_slice(), region) {
        row.push(region)?;
    }
    Ok(())
}

/// Adds a bound to the table.
fn add(rows: &mut [Vec<RegionId>], bound: Bound) -> Result<(), AllocError>
    ensures { OnOk result (rows_of rows.new ≡ with_bound (region_of bound.0) (region_of bound.1) (rows_of rows.old)) }
{
    let place = past(bound.1);
    if place < rows.len() {
        add_region(&mut rows[place], bound.0)?;
    }
    Ok(())
}

/// The table of these bounds.
fn rows_of(alloc: Global, bounds: &[Bound]) -> Result<Vec<Vec<RegionId>>, AllocError>
    ensures { IfOk result (λ v. rows_of v.items ≡ with_bounds (map pair_of bounds.now) (no_rows (most (map pair_of bounds.now) 0))) }
{
    let mut rows = no_rows(alloc, room_for(bounds))?;
    'each: for bound in bounds {
        add(rows.as_mut_slice(), *bound)?;
    }
    Ok(rows)
}

impl Bounds {
    /// No bounds.
    pub(crate) fn none(alloc: Global) -> Bounds
        ensures { result ≡ [] }
    {
        Bounds {
            given: Vec::new(alloc),
            rows: Vec::new(alloc),
            ways: Vec::new(alloc),
            falls: true,
        }
    }

    /// The tables of these bounds.
    pub(crate) fn of(alloc: Global, bounds: &[Bound]) -> Result<Bounds, AllocError>
        ensures { IfOk result (λ b. b ≡ map pair_of bounds.now) }
    {
        let rows = rows_of(alloc, bounds)?;
        let ways = ways_of(alloc, bounds, rows.as_slice())?;
        let falls = all_fall(ways.as_slice(), bounds);
        let given = Vec::from_slice(alloc, bounds)?;
        Ok(Bounds {
            given,
            rows,
            ways,
            falls,
        })
    }

    /// The size of a set of all regions of the bounds, at least `least`.
    pub(crate) fn size(&self, least: usize) -> usize
        ensures all { BoundsBelow result self.now }
        ensures enough { least ≤ result }
    {
        usize::max(self.rows.len(), least)
    }

    /// The set of the regions that outlive the heap or one of the targets. It has `size` marks.
    pub(crate) fn reaching(
        &self,
        alloc: Global,
        size: usize,
        targets: &[RegionId],
    ) -> Result<Vec<bool>, AllocError>
        requires { BoundsBelow size self.now }
        ensures { IfOk result (λ v. (a : Region) → Below size a → has v.items a ≡ reaches_any (regions_of targets.now) self.now a) }
    {
        let walk = Walk::from(alloc, size, targets)?;
        let walk = walk.levels(alloc, self.rows.as_slice(), self.given.len())?;
        Ok(walk.marks())
    }

    /// Whether the path of a region leads to another one or to the heap.
    fn leads(&self, one: RegionId, other: RegionId) -> bool
        ensures { result ≡ true → outlives_by self.now (region_of one) (region_of other) ≡ true }
    {
        let (ways, most) = (self.ways.as_slice(), self.given.len());
        leads(ways, most, one, other) || leads(ways, most, one, RegionId::Heap)
    }

    /// Whether each bound leads to less depth, and a region is no deeper than another one. Then it doesn't outlive that one.
    fn is_no_deeper(&self, one: RegionId, other: RegionId) -> bool
        ensures { result ≡ true → is_heap (region_of one) ≡ false → same_id (region_of one) (region_of other) ≡ false
            → outlives_by self.now (region_of one) (region_of other) ≡ false }
    {
        let ways = self.ways.as_slice();
        self.falls && depth(ways, one) <= depth(ways, other)
    }

    /// Whether a region outlives another one by the bounds.
    pub(crate) fn outlives(
        &self,
        alloc: Global,
        one: RegionId,
        other: RegionId,
    ) -> Result<bool, AllocError>
        ensures { IfOk result (λ b. b ≡ outlives_by self.now (region_of one) (region_of other)) }
    {
        if one.is_heap() || one.is_same(other) {
            return Ok(true);
        }
        if self.given.is_empty() {
            return Ok(false);
        }
        if self.leads(one, other) {
            return Ok(true);
        }
        if self.is_no_deeper(one, other) {
            return Ok(false);
        }
        let size = self.size(past(one));
        let marks = self.reaching(alloc, size, &[other])?;
        Ok(is_marked(marks.as_slice(), one))
    }
}
