// What the pointers of a type begin with, where that is one pointer again and again.

ghost use Rattle.std.specs.Prelude.{◌≡◌, IfSome, List, take};
ghost use Rattle.cyc_types.specs.Pointers.{BeginsWith, follows};
ghost use Rattle.cyc_types.specs.Runs.{IsRun};

use crate::layer::Layer;

/// A pointer again and again, from the base on. Where the regions step, each leads into the region that was declared next after that of the one before:
/// so the pointers of a parameter do that name no region.
#[derive(Clone, Copy)]
pub(crate) struct Run {
    pub pointer: Layer,
    pub count: usize,
    pub steps: bool,
}

impl Run {
    /// No pointer.
    pub fn none() -> Run
        ensures { result.count ≡ 0 }
    {
        Run {
            pointer: Layer::default(),
            count: 0,
            steps: false,
        }
    }

    /// What the innermost `count` begin with, of pointers that begin with it.
    pub fn at_most(self, count: usize) -> Run
        ensures { (ls : List Layer) → IsRun ls self → IsRun (take count ls) result }
    {
        Run {
            pointer: self.pointer,
            count: self.count.min(count),
            steps: self.steps,
        }
    }

    /// How many pointers are in both runs.
    pub fn common(self, other: Run) -> usize
        ensures mine { (ls : List Layer) → IsRun ls self → BeginsWith self.steps result self.pointer ls }
        ensures theirs { (ls : List Layer) → IsRun ls other → BeginsWith self.steps result other.pointer ls }
    {
        if self.steps != other.steps {
            return 0;
        }
        self.count.min(other.count)
    }
}

/// What stands on a pointer in a run. None: there is no such pointer.
fn following(pointer: Layer, steps: bool) -> Option<Layer>
    ensures { IfSome result (λ l. l ≡ follows steps pointer) }
{
    if steps { pointer.next() } else { Some(pointer) }
}

/// How many of some pointers, from the first on, are in such a run.
fn count_from(first: Layer, steps: bool, layers: &[Layer]) -> usize
    ensures { BeginsWith steps result first layers.now }
{
    let mut count = 0;
    let mut next = first;
    'each: for layer in layers {
        if !next.is(*layer) {
            return count;
        }
        count += 1;
        match following(next, steps) {
            Some(pointer) => next = pointer,
            None => return count,
        }
    }
    count
}

/// What some pointers begin with.
pub(crate) fn run_of(layers: &[Layer]) -> Run
    ensures { IsRun layers.now result }
{
    let Some(first) = layers.first() else {
        return Run::none();
    };
    let pointer = *first;
    let count = count_from(pointer, false, layers);
    let stepped = count_from(pointer, true, layers);
    if count < stepped {
        return Run {
            pointer,
            count: stepped,
            steps: true,
        };
    }
    Run {
        pointer,
        count,
        steps: false,
    }
}
