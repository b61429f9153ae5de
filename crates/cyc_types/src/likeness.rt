// How alike two types are.

ghost use Rattle.std.specs.Prelude.{◌≡◌};
ghost use Rattle.source_typing.specs.Types.{are_equal, by_regions, matched, only};
ghost use Rattle.cyc_types.specs.Likeness.{likeness_of, match_of};

/// How alike two types are.
#[derive(Clone, Copy)]
pub enum Likeness {
    Equal,
    /// Different in regions alone.
    ByRegions,
    Different,
}

impl Likeness {
    /// Whether they are equal.
    pub fn is_equal(self) -> bool
        ensures { result ≡ are_equal (match_of self) }
    {
        matches!(self, Likeness::Equal)
    }

    /// The same where regions are different too.
    pub fn by_regions(self) -> Likeness
        ensures { result ≡ likeness_of (by_regions (match_of self)) }
    {
        match self {
            Likeness::Equal | Likeness::ByRegions => Likeness::ByRegions,
            Likeness::Different => Likeness::Different,
        }
    }

    /// The same where regions are equal too, or aren't.
    pub fn with_regions(self, are_equal: bool) -> Likeness
        ensures { result ≡ likeness_of (matched are_equal (match_of self)) }
    {
        if are_equal { self } else { self.by_regions() }
    }

    /// The same where this holds; else they are different.
    pub fn only_if(self, holds: bool) -> Likeness
        ensures { result ≡ likeness_of (only holds (match_of self)) }
    {
        if holds { self } else { Likeness::Different }
    }
}
