// Pointers of a type where they lie.

ghost use Rattle.std.specs.Prelude.{◌≡◌, ◌+◌, ◌<◌, drop, length, slice_get, take};
ghost use Rattle.cyc_types.specs.Shared.{listed};

use crate::layer::Layer;

/// Some pointers from the base outwards, in two slices: those of `outer` stand on those of `inner`.
#[derive(Clone, Copy)]
pub struct PointerList<'a> {
    pub inner: &'a [Layer],
    pub outer: &'a [Layer],
}

/// Some pointers without the first `count`.
fn behind(layers: &[Layer], count: usize) -> &[Layer]
    ensures { result.now ≡ drop count layers.now }
{
    &layers[count.min(layers.len())..]
}

/// The first `count` of some pointers.
fn first(layers: &[Layer], count: usize) -> &[Layer]
    ensures { result.now ≡ take count layers.now }
{
    &layers[..count.min(layers.len())]
}

impl<'a> PointerList<'a> {
    /// How many they are.
    pub fn len(self) -> usize
        ensures { result ≡ length (listed self.entry) }
    {
        self.inner.len() + self.outer.len()
    }

    /// The one with `index` pointers before it.
    pub fn get(self, index: usize) -> Option<Layer>
        ensures { result ≡ slice_get (listed self.entry) index }
    {
        if index < self.inner.len() {
            return self.inner.get(index).copied();
        }
        self.outer.get(index - self.inner.len()).copied()
    }

    /// All but the first `count`.
    pub fn from(self, count: usize) -> PointerList<'a>
        ensures { listed result ≡ drop count (listed self.entry) }
    {
        let more = count.saturating_sub(self.inner.len());
        PointerList {
            inner: behind(self.inner, count),
            outer: behind(self.outer, more),
        }
    }

    /// The first `count`.
    pub fn up_to(self, count: usize) -> PointerList<'a>
        ensures { listed result ≡ take count (listed self.entry) }
    {
        let more = count.saturating_sub(self.inner.len());
        PointerList {
            inner: first(self.inner, count),
            outer: first(self.outer, more),
        }
    }
}
