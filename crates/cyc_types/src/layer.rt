// Pointers, without what they lead to.

ghost use Rattle.std.specs.Prelude.{◌≡◌, IfSome, true};
ghost use Rattle.cyc_types.specs.Layers.{has_enough, layers_alike, layer_copies, layer_begins};
ghost use Rattle.cyc_types.specs.Pointers.{is_closed, next_pointer};
ghost use Rattle.cyc_types.specs.Measures.{extent_of, layer_extent};

use crate::extent::Extent;
use crate::likeness::Likeness;
use crate::reach::Reach;
use crate::region::RegionId;

/// A pointer, without the type that it leads to.
#[derive(Clone, Copy)]
pub enum Layer {
    /// To a number of elements in a region.
    Thin(Reach, RegionId),
    /// With bounds, into a region.
    Fat(RegionId),
    /// To one object that nothing else points to; whether it may be `NULL`.
    Unique(bool),
}

/// What stands in the unused places of a list: a pointer into the heap.
impl Default for Layer {
    fn default() -> Self {
        Layer::Fat(RegionId::Heap)
    }
}

impl Layer {
    /// How alike two pointers are, where this is how alike the types are that they lead to.
    pub fn compare(self, other: Layer, inner: Likeness) -> Likeness
        ensures { result ≡ layers_alike self other inner }
    {
        match (self, other) {
            (Layer::Thin(mine, here), Layer::Thin(theirs, there)) => inner
                .with_regions(here.is_same(there))
                .only_if(mine.is_same(theirs)),
            (Layer::Thin(mine, _), Layer::Unique(theirs)) => inner
                .by_regions()
                .only_if(mine.is_same(Reach::single(theirs))),
            (Layer::Unique(mine), Layer::Thin(theirs, _)) => inner
                .by_regions()
                .only_if(Reach::single(mine).is_same(theirs)),
            (Layer::Unique(mine), Layer::Unique(theirs)) => inner.only_if(mine == theirs),
            (Layer::Fat(here), Layer::Fat(there)) => inner.with_regions(here.is_same(there)),
            _ => Likeness::Different,
        }
    }

    /// Whether it leads to at least as many elements as another pointer. Where one of them is fat, that is checked when the program runs.
    pub fn has_enough(self, other: Layer) -> bool
        ensures { result ≡ has_enough self other }
    {
        match (self, other) {
            (Layer::Thin(mine, _), Layer::Thin(theirs, _)) => theirs.count() <= mine.count(),
            (Layer::Unique(_), Layer::Thin(theirs, _)) => theirs.count() <= 1,
            _ => true,
        }
    }

    /// Whether both are the same pointer.
    pub(crate) fn is(self, other: Layer) -> bool
        ensures { result ≡ true → self ≡ other }
    {
        match (self, other) {
            (Layer::Thin(mine, here), Layer::Thin(theirs, there)) => {
                mine.is_same(theirs) && here.is_same(there)
            }
            (Layer::Fat(here), Layer::Fat(there)) => here.is_same(there),
            (Layer::Unique(mine), Layer::Unique(theirs)) => mine == theirs,
            _ => false,
        }
    }

    /// The same pointer into the next region. None: there is no such region.
    pub(crate) fn next(self) -> Option<Layer>
        ensures { IfSome result (λ l. l ≡ next_pointer self) }
    {
        match self {
            Layer::Thin(bound, region) => Some(Layer::Thin(bound, region.next()?)),
            Layer::Fat(region) => Some(Layer::Fat(region.next()?)),
            Layer::Unique(may_be_null) => Some(Layer::Unique(may_be_null)),
        }
    }

    /// Whether no region of it is a variable.
    pub fn is_closed(self) -> bool
        ensures { result ≡ is_closed self }
    {
        match self {
            Layer::Thin(_, region) | Layer::Fat(region) => region.is_heap(),
            Layer::Unique(_) => true,
        }
    }

    /// Whether it is copied: a unique pointer isn't.
    pub fn is_copyable(self) -> bool
        ensures { result ≡ layer_copies self }
    {
        !matches!(self, Layer::Unique(_))
    }

    /// Whether it begins as `NULL` where it has no initializer.
    pub fn has_beginning(self) -> bool
        ensures { result ≡ layer_begins self }
    {
        match self {
            Layer::Thin(bound, _) => bound.may_be_null(),
            Layer::Unique(may_be_null) => may_be_null,
            Layer::Fat(_) => true,
        }
    }

    /// How many bytes it has.
    pub fn extent(self) -> Extent
        ensures { extent_of result ≡ layer_extent self }
    {
        match self {
            Layer::Thin(_, _) | Layer::Unique(_) => Extent::word(),
            Layer::Fat(_) => Extent::fat(),
        }
    }
}
