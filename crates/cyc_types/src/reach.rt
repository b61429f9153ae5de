// How far thin pointers lead.

ghost use Rattle.std.specs.Prelude.{◌≡◌};
ghost use Rattle.source_meaning.specs.Shapes.{count_of, may_be_null, number_of, same_bound, single};
ghost use Rattle.cyc_types.specs.Reaches.{reach_of};

/// To how many elements a thin pointer leads, from where it points on, and whether it may be `NULL`.
#[derive(Clone, Copy)]
pub enum Reach {
    MayBeNull(u32),
    NeverNull(u32),
}

impl Reach {
    /// To one element, as a pointer leads that has no other bound.
    pub fn single(may_be_null: bool) -> Reach
        ensures { reach_of result ≡ single may_be_null }
    {
        if may_be_null {
            Reach::MayBeNull(1)
        } else {
            Reach::NeverNull(1)
        }
    }

    /// Whether such a pointer may be `NULL`.
    pub fn may_be_null(self) -> bool
        ensures { result ≡ may_be_null (reach_of self) }
    {
        matches!(self, Reach::MayBeNull(_))
    }

    /// To how many elements such a pointer leads.
    #[tactic(auto, using(crate::proofs::Reaches::word_is))]
    pub fn count(self) -> u32
        ensures written { result ≡ number_of (reach_of self) }
        ensures word { result ≡ count_of (reach_of self) }
    {
        match self {
            Reach::MayBeNull(count) | Reach::NeverNull(count) => count,
        }
    }

    /// Whether both are the same.
    pub fn is_same(self, other: Reach) -> bool
        ensures { result ≡ same_bound (reach_of self) (reach_of other) }
    {
        match (self, other) {
            (Reach::MayBeNull(mine), Reach::MayBeNull(theirs)) => mine == theirs,
            (Reach::NeverNull(mine), Reach::NeverNull(theirs)) => mine == theirs,
            _ => false,
        }
    }
}
