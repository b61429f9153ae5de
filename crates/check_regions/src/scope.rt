// The region names in scope.

ghost use Rattle.std.specs.Prelude.{◌≡◌, IfOk, OnErr, OnOk, length, map, slice_get};
ghost use Rattle.cyc_types.specs.Regions.{region_of, regions_of};
ghost use Rattle.std.specs.List.{list_any};
ghost use Rattle.source_typing.specs.Named.{AllBelow, Below, BoundsBelow};
ghost use Rattle.source_typing.specs.Regions.{Level, Regions, entry_regions, is_among, no_regions, opened, same_id, with_name, with_scope};
ghost use Rattle.check_regions.specs.Begun.{begins_live, is_over_heap, is_over_later};
ghost use Rattle.check_regions.specs.Fields.{pair_of};
ghost use Rattle.check_regions.specs.Marks.{mark_of};
ghost use Rattle.check_regions.specs.Reached.{outlives_by};
ghost use Rattle.check_regions.specs.Scopes.{
  AreThose,
  first_of,
  live_in,
  names_ordered,
  of_name,
  outlives_in,
  over_earlier,
  over_this,
  with_begun,
  with_opened,
};
ghost use Rattle.check_regions.specs.declared.begun.Begun.TheVariants.{Block, Name};

use crate::begun::Begun;
use crate::bounds::Bounds;
use crate::entry::{self, VariableMarks};
use crate::marks;
use cyc_types::RegionId;
use std::alloc::{AllocError, Global};
use std::marker::Model;

/// A point of a scope: how many names had begun, and how many regions had been opened.
#[derive(Clone, Copy)]
pub struct RegionMark {
    names: usize,
    opened: usize,
}

/// The region names in scope at a point of a function.
pub struct RegionScope {
    begun: Vec<Begun>,
    opened: Vec<RegionId>,
    bounds: Bounds,
}

// Written out, so that a caller's proof sees one call and not the drop of each field.
impl Drop for RegionScope {
    fn drop(self) {
        let RegionScope {
            begun: _begun,
            opened: _opened,
            bounds: _bounds,
        } = self;
    }
}

impl Model for RegionScope {
    ghost use Rattle.check_regions.specs.Scopes.{Scoped};
    ghost use Rattle.check_regions.specs.Fields.{scoped};

    ghost Value = { Scoped };

    ghost view = { λ s. scoped s.begun.items s.opened.items s.bounds };
}

/// Whether a region is among these.
#[tactic(auto, using(crate::proofs::Ruled::any_among))]
fn is_among(regions: &[RegionId], region: RegionId) -> bool
    ensures { result ≡ is_among (regions_of regions.now) (region_of region) }
{
    is_one_of(regions, region)
}

/// Whether a region is among these, by a search.
fn is_one_of(regions: &[RegionId], region: RegionId) -> bool
    ensures { result ≡ list_any (λ r. same_id (region_of r) (region_of region)) regions.now }
{
    regions.iter().any(|one| one.is_same(region))
}

impl RegionScope {
    /// The scope outside of functions, which has no name.
    #[tactic(auto, using(crate::proofs::Entering::none_in_scope))]
    pub fn of_item(alloc: Global) -> RegionScope
        ensures { AreThose result no_regions }
    {
        RegionScope {
            begun: Vec::new(alloc),
            opened: Vec::new(alloc),
            bounds: Bounds::none(alloc),
        }
    }

    /// The scope at the beginning of a function's body: it has `variables` region variables, and those of the effect are live. The rules
    /// say the same if effect and bounds name no other regions but the heap.
    pub fn of_function(
        alloc: Global,
        variables: u32,
        effect: &[RegionId],
        bounds: &[(RegionId, RegionId)],
    ) -> Result<RegionScope, AllocError>
        ensures { IfOk result (λ s. AllBelow variables (regions_of effect.now) → BoundsBelow variables (map pair_of bounds.now)
            → AreThose s (entry_regions variables (regions_of effect.now) (map pair_of bounds.now))) }
    {
        let bounds = Bounds::of(alloc, bounds)?;
        let size = bounds.size(variables as usize);
        let live = marks::marks_of(alloc, size, effect)?;
        let over_heap = bounds.reaching(alloc, size, &[])?;
        let over_later = bounds.reaching(alloc, size, effect)?;
        let marks = VariableMarks {
            live: live.as_slice(),
            over_heap: over_heap.as_slice(),
            over_later: over_later.as_slice(),
        };
        let begun = entry::variables(alloc, variables, marks)?;
        Ok(RegionScope {
            begun,
            opened: Vec::new(alloc),
            bounds,
        })
    }

    /// The number of names in scope.
    pub fn names(&self) -> usize
        ensures { result ≡ length self.now.begun }
    {
        self.begun.len()
    }

    /// The point at which the scope is now.
    pub fn mark(&self) -> RegionMark
        ensures { result ≡ mark_of self.now }
    {
        RegionMark {
            names: self.begun.len(),
            opened: self.opened.len(),
        }
    }

    /// Adds a name.
    fn begin(&mut self, begun: Begun) -> Result<(), AllocError>
        ensures begun { OnOk result (self.new ≡ with_begun begun self.old) }
        ensures kept { OnErr result (self.new ≡ self.old) }
    {
        self.begun.push(begun)?;
        Ok(())
    }

    /// Adds an opened region.
    #[tactic(auto, using(crate::proofs::Ruled::regions_and))]
    fn add_opened(&mut self, region: RegionId) -> Result<(), AllocError>
        ensures opened { OnOk result (self.new ≡ with_opened (region_of region) self.old) }
        ensures kept { OnErr result (self.new ≡ self.old) }
    {
        self.opened.push(region)?;
        Ok(())
    }

    /// Begins the stack region of a block, or a lexical region. If it fails, none begins.
    #[tactic(auto, using(crate::proofs::Ruled::block_by_rules))]
    pub fn begin_block(&mut self) -> Result<(), AllocError>
        ensures begun { OnOk result (self.new ≡ with_begun Block self.old) }
        ensures kept { OnErr result (self.new ≡ self.old) }
        ensures by_the_rules { OnOk result ((g : Regions) → AreThose self.old g → AreThose self.new (with_scope g)) }
    {
        self.begin(Begun::Block)
    }

    /// Begins the region of an alias, which is live, or of a key, which isn't yet. If it fails, none begins.
    #[tactic(auto, using(crate::proofs::Ruled::name_by_rules))]
    pub fn begin_name(&mut self, live: bool) -> Result<(), AllocError>
        ensures begun { OnOk result (self.new ≡ with_begun (Name live) self.old) }
        ensures kept { OnErr result (self.new ≡ self.old) }
        ensures by_the_rules { OnOk result ((g : Regions) → AreThose self.old g → AreThose self.new (with_name live g)) }
    {
        self.begin(Begun::Name(live))
    }

    /// Opens a key's region. If it fails, it isn't opened.
    #[tactic(auto, using(crate::proofs::Ruled::open_by_rules))]
    pub fn open(&mut self, region: RegionId) -> Result<(), AllocError>
        ensures opened { OnOk result (self.new ≡ with_opened (region_of region) self.old) }
        ensures kept { OnErr result (self.new ≡ self.old) }
        ensures by_the_rules { OnOk result ((g : Regions) → AreThose self.old g → Below g.count (region_of region)
            → AreThose self.new (opened (region_of region) g)) }
    {
        self.add_opened(region)
    }

    /// Leaves a block: the scope is again what it was at the mark.
    #[tactic(auto, using(crate::proofs::Ruled::regions_taken))]
    pub fn leave(&mut self, mark: RegionMark)
        ensures { self.new ≡ first_of mark.names mark.opened self.old }
    {
        self.begun.truncate(mark.names);
        self.opened.truncate(mark.opened);
    }

    /// Whether a region is live.
    pub fn is_live(&self, region: RegionId) -> bool
        ensures is { result ≡ live_in self.now (region_of region) }
        ensures by_the_rules { (g : Regions) → AreThose self.now g → result ≡ g.live (region_of region) }
    {
        match region {
            RegionId::Heap => true,
            RegionId::Level(level) => self.begins_live(level) || self.is_opened(region),
        }
    }

    /// Whether the name of this level is live from its beginning.
    fn begins_live(&self, level: u32) -> bool
        ensures { result ≡ of_name begins_live (slice_get self.now.begun level) }
    {
        match self.begun.get(level as usize) {
            Some(begun) => begun.begins_live(),
            None => false,
        }
    }

    /// Whether a region was opened.
    fn is_opened(&self, region: RegionId) -> bool
        ensures { result ≡ is_among self.now.opened (region_of region) }
    {
        is_among(self.opened.as_slice(), region)
    }

    /// Whether a region outlives another one.
    #[tactic(auto, using(crate::proofs::Ruled::ordered_by_rules))]
    pub fn outlives(&self, one: RegionId, other: RegionId) -> Result<bool, AllocError>
        ensures is { IfOk result (λ b. b ≡ outlives_in self.now (region_of one) (region_of other)) }
        ensures by_the_rules { (g : Regions) → AreThose self.now g → IfOk result (λ b. b ≡ g.order (region_of one) (region_of other)) }
    {
        match (one, other) {
            (RegionId::Heap, _) => Ok(true),
            (RegionId::Level(level), RegionId::Heap) => Ok(self.is_over_heap(level)),
            (RegionId::Level(first), RegionId::Level(second)) => self.are_ordered(first, second),
        }
    }

    /// Whether the name of this level outlives the heap.
    fn is_over_heap(&self, level: u32) -> bool
        ensures { result ≡ of_name is_over_heap (slice_get self.now.begun level) }
    {
        match self.begun.get(level as usize) {
            Some(begun) => begun.is_over_heap(),
            None => false,
        }
    }

    /// Whether the name of this level outlives the stack regions and lexical regions that begin later.
    fn is_over_later(&self, level: u32) -> bool
        ensures { result ≡ of_name is_over_later (slice_get self.now.begun level) }
    {
        match self.begun.get(level as usize) {
            Some(begun) => begun.is_over_later(),
            None => false,
        }
    }

    /// Whether a name outlives another one by the bounds of the function.
    fn is_bound(&self, one: u32, other: u32) -> Result<bool, AllocError>
        ensures { IfOk result (λ b. b ≡ outlives_by self.now.bounds (Level one) (Level other)) }
    {
        let alloc = *self.begun.allocator();
        let (one, other) = (RegionId::Level(one), RegionId::Level(other));
        self.bounds.outlives(alloc, one, other)
    }

    /// Whether a name outlives a later one.
    fn is_over(&self, one: u32, later: u32) -> Result<bool, AllocError>
        ensures { IfOk result (λ b. b ≡ over_this (slice_get self.now.begun one) (slice_get self.now.begun later)
            (outlives_by self.now.bounds (Level one) (Level later))) }
    {
        match self.begun.get(later as usize) {
            Some(Begun::Block) => Ok(self.is_over_later(one)),
            Some(Begun::Name(_)) => Ok(self.is_over_heap(one)),
            _ => self.is_bound(one, later),
        }
    }

    /// Whether a name outlives an earlier one.
    fn is_over_earlier(&self, one: u32, earlier: u32) -> Result<bool, AllocError>
        ensures { IfOk result (λ b. b ≡ over_earlier (slice_get self.now.begun one) (outlives_by self.now.bounds (Level one) (Level earlier))) }
    {
        match self.begun.get(one as usize) {
            Some(Begun::Block | Begun::Name(_)) => Ok(false),
            _ => self.is_bound(one, earlier),
        }
    }

    /// Whether a name outlives another one.
    fn are_ordered(&self, one: u32, other: u32) -> Result<bool, AllocError>
        ensures { IfOk result (λ b. b ≡ names_ordered self.now.begun one other (outlives_by self.now.bounds (Level one) (Level other))) }
    {
        if one == other {
            Ok(true)
        } else if one < other {
            self.is_over(one, other)
        } else {
            self.is_over_earlier(one, other)
        }
    }
}
