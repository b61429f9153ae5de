// Types of the language.

ghost use Rattle.std.specs.Prelude.{◌≡◌, IfOk, fold, zip};
ghost use Rattle.source_typing.specs.Types.{compare, is_same};
ghost use Rattle.cyc_types.specs.Types.{static_type};
ghost use Rattle.cyc_types.specs.Likeness.{likeness_of};
ghost use Rattle.cyc_types.specs.Layers.{next_alike, outermost, pointed};
ghost use Rattle.cyc_types.specs.Runs.{IsRun};
ghost use Rattle.cyc_types.specs.Shared.{listed};
ghost use Rattle.cyc_types.specs.Bases.{base_type};

use crate::base::BaseType;
use crate::layer::Layer;
use crate::layers::Layers;
use crate::likeness::Likeness;
use crate::pointer_list::PointerList;
use crate::run::Run;
use std::alloc::AllocError;

/// A type: a base, and the pointers to it from the base outwards.
pub struct CType<'p> {
    pub base: BaseType<'p>,
    pub layers: Layers,
}

// Written out, so that a caller's proof sees one call and not the drop of each field.
impl Drop for CType<'_> {
    fn drop(self) {
        let CType {
            base: _base,
            layers: _layers,
        } = self;
    }
}

/// How alike two types are under pointers, by how alike they are themselves.
fn alike_under(mine: PointerList<'_>, theirs: PointerList<'_>, inner: Likeness) -> Likeness
    ensures { result ≡ fold next_alike inner (zip (listed mine.entry) (listed theirs.entry)) }
{
    let mine = mine.inner.iter().chain(mine.outer.iter());
    let theirs = theirs.inner.iter().chain(theirs.outer.iter());
    mine.zip(theirs)
        .fold(inner, |alike, (here, there)| here.compare(*there, alike))
}

/// The pointers of a type, or all of them but the outermost, with what they begin with.
#[derive(Clone, Copy)]
pub(crate) struct Pointed<'a> {
    pub layers: PointerList<'a>,
    pub run: Run,
}

/// The same, where the pointers begin with these runs. As many pointers as both have in them are compared at once.
fn alike_in_runs(mine: Pointed<'_>, theirs: Pointed<'_>, inner: Likeness) -> Likeness
    requires mine { IsRun (listed mine.layers) mine.run }
    requires theirs { IsRun (listed theirs.layers) theirs.run }
    ensures { result ≡ fold next_alike inner (zip (listed mine.entry.layers) (listed theirs.entry.layers)) }
{
    let count = mine.run.common(theirs.run);
    if count == 0 {
        return alike_under(mine.layers, theirs.layers, inner);
    }
    let first = mine.run.pointer.compare(theirs.run.pointer, inner);
    alike_under(mine.layers.from(count), theirs.layers.from(count), first)
}

/// How alike two types are, each a base under pointers.
pub(crate) fn alike(
    mine: &BaseType,
    pointers: Pointed<'_>,
    theirs: &BaseType,
    others: Pointed<'_>,
) -> Likeness
    requires pointers { IsRun (listed pointers.layers) pointers.run }
    requires others { IsRun (listed others.layers) others.run }
    ensures { result ≡ likeness_of (compare (pointed (base_type mine.now) (listed pointers.entry.layers))
        (pointed (base_type theirs.now) (listed others.entry.layers))) }
{
    if pointers.layers.len() != others.layers.len() {
        return Likeness::Different;
    }
    let inner = mine.compare(theirs);
    alike_in_runs(pointers, others, inner)
}

impl<'p> CType<'p> {
    /// How alike two types are: equal, different in regions alone, or different.
    pub fn compare(&self, other: &CType) -> Likeness
        ensures { result ≡ likeness_of (compare (static_type self.now) (static_type other.now)) }
    {
        alike(
            &self.base,
            self.layers.pointed(),
            &other.base,
            other.layers.pointed(),
        )
    }

    /// Whether both are the same type.
    pub fn is_same(&self, other: &CType) -> bool
        ensures { result ≡ is_same (static_type self.now) (static_type other.now) }
    {
        self.compare(other).is_equal()
    }

    /// The same type again. Fails only where no host memory is left.
    pub fn try_clone(&self) -> Result<CType<'p>, AllocError>
        ensures { IfOk result (λ copy. static_type copy ≡ static_type self.now) }
    {
        let layers = self.layers.try_clone()?;
        let base = self.base.try_clone()?;
        Ok(CType { base, layers })
    }

    /// The outermost pointer, where it is one.
    #[tactic(auto, using(crate::proofs::Outermost::last_is))]
    pub fn outer(&self) -> Option<Layer>
        ensures { result ≡ outermost self.now.layers.items }
    {
        let last = self.layers.len().saturating_sub(1);
        self.layers.pointers().get(last)
    }
}
