// How region names begin.

ghost use Rattle.std.specs.Prelude.{◌≡◌};
ghost use Rattle.check_regions.specs.Begun.{begins_live, is_over_heap, is_over_later};

/// How a region name began.
#[derive(Clone, Copy)]
pub enum Begun {
    /// A region variable of the function.
    Variable {
        /// Whether the function's effect has it.
        live: bool,
        /// Whether it outlives the heap, by the function's bounds.
        over_heap: bool,
        /// Whether it outlives the stack regions and the lexical regions of the function.
        over_later: bool,
    },
    /// The stack region of a block, or a lexical region.
    Block,
    /// The region of an alias or of a key, and whether it is live from its beginning.
    Name(bool),
}

impl Begun {
    /// Whether the region is live from its beginning.
    pub fn begins_live(self) -> bool
        ensures { result ≡ begins_live self }
    {
        match self {
            Begun::Variable { live, .. } => live,
            Begun::Block => true,
            Begun::Name(live) => live,
        }
    }

    /// Whether the region outlives the heap.
    pub fn is_over_heap(self) -> bool
        ensures { result ≡ is_over_heap self }
    {
        match self {
            Begun::Variable { over_heap, .. } => over_heap,
            Begun::Block | Begun::Name(_) => false,
        }
    }

    /// Whether the region outlives the stack regions and lexical regions that begin later.
    pub fn is_over_later(self) -> bool
        ensures { result ≡ is_over_later self }
    {
        match self {
            Begun::Variable { over_later, .. } => over_later,
            Begun::Block => true,
            Begun::Name(_) => false,
        }
    }
}
