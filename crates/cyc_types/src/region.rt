// Names of regions.

ghost use Rattle.std.specs.Prelude.{◌≡◌, IfSome};
ghost use Rattle.source_typing.specs.Regions.{same_id, is_heap};
ghost use Rattle.cyc_types.specs.Pointers.{next_region};
ghost use Rattle.cyc_types.specs.Regions.{region_of};

/// A region's name in a function: the heap, or how many names were declared before it.
#[derive(Clone, Copy, Default)]
pub enum RegionId {
    #[default]
    Heap,
    Level(u32),
}

impl RegionId {
    /// Whether both are the same region.
    pub fn is_same(self, other: RegionId) -> bool
        ensures { result ≡ same_id (region_of self) (region_of other) }
    {
        match (self, other) {
            (RegionId::Heap, RegionId::Heap) => true,
            (RegionId::Level(mine), RegionId::Level(theirs)) => mine == theirs,
            _ => false,
        }
    }

    /// The region whose name was declared next; the heap stays as it is. None: no name was.
    pub(crate) fn next(self) -> Option<RegionId>
        ensures { IfSome result (λ r. r ≡ next_region self) }
    {
        match self {
            RegionId::Heap => Some(RegionId::Heap),
            RegionId::Level(level) => Some(RegionId::Level(level.checked_add(1)?)),
        }
    }

    /// Whether it is the heap.
    pub fn is_heap(self) -> bool
        ensures { result ≡ is_heap (region_of self) }
    {
        matches!(self, RegionId::Heap)
    }
}
