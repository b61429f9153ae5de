// The bounds that a function declares, for its calls.

ghost use Rattle.std.specs.Prelude.{◌≡◌, ◌++◌, ◌∷◌, IfOk, List, OnOk, [], map};
ghost use Rattle.source_typing.specs.Regions.{Region};
ghost use Rattle.check_regions.specs.Fields.{pair_of};
ghost use Rattle.check_regions.specs.Once.{AreTaken, HaveSame};

use crate::bounds::Bound;
use crate::marks::past;
use cyc_types::RegionId;
use indexmap::IndexSet;
use std::alloc::{AllocError, Global};
use std::marker::Model;

/// The bounds that a function declares: the first region of each outlives the second. A contract sees them as they were given.
pub struct DeclaredBounds {
    given: Vec<Bound>,
    /// The same bounds without repetitions.
    once: Vec<Bound>,
}

// Written out, so that a caller's proof sees one call and not the drop of each field.
impl Drop for DeclaredBounds {
    fn drop(self) {
        let DeclaredBounds {
            given: _given,
            once: _once,
        } = self;
    }
}

impl Model for DeclaredBounds {
    ghost use Rattle.std.specs.Prelude.{List, map};
    ghost use Rattle.source_typing.specs.Regions.{Region};
    ghost use Rattle.check_regions.specs.Fields.{pair_of};
    ghost use Rattle.check_regions.specs.Once.{HaveSame};

    ghost Value = { List (Region × Region) };

    ghost view = { λ s. map pair_of s.given.items };

    ghost invariant = { λ s. HaveSame (map pair_of s.once.items) (map pair_of s.given.items) };
}

/// Adds a bound to a list, unless it was seen before.
fn take_once(
    seen: &mut IndexSet<(usize, usize)>,
    once: &mut Vec<Bound>,
    bound: Bound,
) -> Result<(), AllocError>
    ensures { OnOk result ((given : List (Region × Region)) → AreTaken seen.old.keys (map pair_of once.old.items) given
        → AreTaken seen.new.keys (map pair_of once.new.items) (given ++ pair_of bound ∷ [])) }
{
    let is_new = seen.insert((past(bound.0), past(bound.1)))?;
    if is_new {
        once.push(bound)?;
    }
    Ok(())
}

/// These bounds without repetitions.
fn each_once(alloc: Global, given: &[Bound]) -> Result<Vec<Bound>, AllocError>
    ensures { IfOk result (λ v. HaveSame (map pair_of v.items) (map pair_of given.now)) }
{
    let mut seen = IndexSet::new(alloc);
    let mut once = Vec::new(alloc);
    'each: for bound in given {
        take_once(&mut seen, &mut once, *bound)?;
    }
    Ok(once)
}

impl DeclaredBounds {
    /// These bounds.
    pub fn of(alloc: Global, given: Vec<(RegionId, RegionId)>) -> Result<DeclaredBounds, AllocError>
        ensures { IfOk result (λ b. b ≡ map pair_of given.items) }
    {
        let once = each_once(alloc, given.as_slice())?;
        Ok(DeclaredBounds { given, once })
    }

    /// The bounds without repetitions.
    pub fn once(&self) -> &[(RegionId, RegionId)]
        ensures { HaveSame (map pair_of result.now) self.now }
    {
        self.once.as_slice()
    }
}
