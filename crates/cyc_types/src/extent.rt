// How many bytes a type has.

ghost use Rattle.std.specs.Prelude.{◌≤◌};

/// The most bytes that a type, a variable or a string may have.
pub const MOST_BYTES: u32 = 4096;

/// To how many bytes something is aligned: 1 or 4.
#[derive(Clone, Copy)]
pub enum Alignment {
    Byte,
    Word,
}

impl Alignment {
    ghost use Rattle.std.specs.Prelude.{◌≡◌, max};
    ghost use Rattle.cyc_types.specs.Measures.{align_of};

    /// To how many bytes it aligns.
    pub fn bytes(self) -> u32
        ensures { result ≡ align_of self }
    {
        match self {
            Alignment::Byte => 1,
            Alignment::Word => 4,
        }
    }

    /// What aligns for both.
    fn and(self, other: Alignment) -> Alignment
        ensures { align_of result ≡ max (align_of self) (align_of other) }
    {
        match self {
            Alignment::Byte => other,
            Alignment::Word => Alignment::Word,
        }
    }
}

/// How many bytes a type has, at most 4,096, and how they are aligned.
#[derive(Clone, Copy)]
pub struct Extent {
    size: u32,
    align: Alignment,
    ghost fits: { size ≤ 4096 },
}

impl Extent {
    ghost use Rattle.std.specs.Prelude.{◌≡◌, Some};
    ghost use Rattle.source_meaning.specs.Sizes.{rounded_up};
    ghost use Rattle.cyc_types.specs.Measures.{align_of, bytes_and, extent_of, limited, measured, padded, placed_after};

    /// How many bytes there are.
    pub fn size(self) -> u32
        ensures { result ≡ (extent_of self).size }
    {
        self.size
    }

    /// To how many bytes they are aligned.
    pub fn align(self) -> u32
        ensures { result ≡ (extent_of self).align }
    {
        self.align.bytes()
    }

    /// No bytes.
    pub(crate) fn none() -> Extent
        ensures { extent_of result ≡ bytes_and 0 1 }
    {
        Extent {
            size: 0,
            align: Alignment::Byte,
        }
    }

    /// Those of a `char`.
    pub(crate) fn char() -> Extent
        ensures { extent_of result ≡ bytes_and 1 1 }
    {
        Extent {
            size: 1,
            align: Alignment::Byte,
        }
    }

    /// Those of an integer, a thin pointer, a handle or a key.
    pub(crate) fn word() -> Extent
        ensures { extent_of result ≡ bytes_and 4 4 }
    {
        Extent {
            size: 4,
            align: Alignment::Word,
        }
    }

    /// Those of a pointer with bounds.
    pub(crate) fn fat() -> Extent
        ensures { extent_of result ≡ bytes_and 12 4 }
    {
        Extent {
            size: 12,
            align: Alignment::Word,
        }
    }

    /// So many bytes, where a type may have as many.
    pub(crate) fn limited(size: u32, align: Alignment) -> Option<Extent>
        ensures { measured result ≡ limited (bytes_and size (align_of align)) }
    {
        if size <= MOST_BYTES {
            Some(Extent { size, align })
        } else {
            None
        }
    }

    /// How many bytes there are with those that follow for an alignment.
    fn size_for(self, align: Alignment) -> u32
        ensures size { result ≡ rounded_up self.size (align_of align) }
        ensures most { result ≤ 4096 }
    {
        match align {
            Alignment::Byte => self.size,
            Alignment::Word => (self.size + 3) / 4 * 4,
        }
    }

    /// Where bytes begin that follow at their alignment.
    pub(crate) fn start_of(self, next: Extent) -> u32
        ensures start { result ≡ rounded_up (extent_of self).size (extent_of next).align }
        ensures most { result ≤ 4096 }
    {
        self.size_for(next.align)
    }

    /// The bytes of both, the second ones at their alignment. None: too many.
    pub(crate) fn then(self, next: Extent) -> Option<Extent>
        ensures { measured result ≡ placed_after (extent_of self) (Some (extent_of next)) }
    {
        Extent::limited(
            self.size_for(next.align) + next.size,
            self.align.and(next.align),
        )
    }

    /// The bytes rounded up to their own alignment. None: too many.
    pub(crate) fn padded(self) -> Option<Extent>
        ensures { measured result ≡ padded (extent_of self) }
    {
        Extent::limited(self.size_for(self.align), self.align)
    }
}
