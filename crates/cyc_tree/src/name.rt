// Names, and types as they are written.

use smallvec::SmallVec;
use std::alloc::Global;
use std::default::MadeWith;

/// A name: where it stands, and its spelling.
#[derive(Debug, Drop)]
pub struct Name {
    pub at: u32,
    pub text: Vec<u8>,
}

/// A region name.
#[derive(Debug)]
pub enum RegionName {
    /// `` `H ``, the heap.
    Heap(u32),
    /// `` `U ``, the unique region.
    Unique(u32),
    /// Another name, without its backquote. Its place is the backquote's.
    Named(Name),
}

impl RegionName {
    ghost use Rattle.std.specs.Prelude.{◌≡◌};
    ghost use Rattle.cyc_tree.specs.View.{region_tree};
    ghost use Rattle.cyc_tree.specs.Places.{region_place};

    /// The place of its backquote.
    pub fn place(&self) -> u32
        ensures { result ≡ region_place (region_tree self.now) }
    {
        match self {
            RegionName::Heap(at) | RegionName::Unique(at) => *at,
            RegionName::Named(name) => name.at,
        }
    }
}

// What the places of a short list hold that no region name is in.
impl MadeWith<Global> for RegionName {
    fn made_with(_alloc: Global) -> Self {
        RegionName::Heap(0)
    }
}

/// Region names, in order. Two lie in the list itself, and more than two in an allocation.
pub type RegionNames = SmallVec<RegionName, 2>;

/// What a type begins with.
pub enum Base {
    Int,
    Unsigned,
    Char,
    Void,
    /// A struct by its tag, with the region arguments that are written.
    Struct(Name, RegionNames),
    /// A tagged union by its tag, with the region arguments that are written.
    Union(Name, RegionNames),
    /// A region's handle.
    Handle(RegionName),
    /// A dynamic region's key.
    Key(RegionName),
}

// Written out, so that a caller's proof sees one call and not the drop of each field.
impl Drop for Base {
    fn drop(self) {
        match self {
            Base::Int | Base::Unsigned | Base::Char | Base::Void => {}
            Base::Struct(_tag, _regions) | Base::Union(_tag, _regions) => {}
            Base::Handle(_region) | Base::Key(_region) => {}
        }
    }
}

/// The sign of a pointer.
#[derive(Clone, Copy, Debug)]
pub enum Sign {
    /// `*`, `*{n}`: thin, may be NULL; to how many elements, 1 where no number is written.
    Nullable(u32),
    /// `@`, `@{n}`: thin, never NULL; to how many elements, 1 where no number is written.
    NotNull(u32),
    /// `?`: fat.
    Fat,
}

/// A pointer's sign, and its region where one is written.
#[derive(Debug, Drop)]
pub struct Pointer {
    pub sign: Sign,
    pub region: Option<RegionName>,
}

/// A type as it is written: where it stands, its base, and the pointers to it, from the base outwards.
pub struct TypeName {
    pub at: u32,
    pub base: Base,
    pub pointers: Vec<Pointer>,
}

// Written out, so that a caller's proof sees one call and not the drop of each field.
impl Drop for RegionName {
    fn drop(self) {
        match self {
            RegionName::Heap(_) | RegionName::Unique(_) => {}
            RegionName::Named(_name) => {}
        }
    }
}

// Written out, so that a caller's proof sees one call and not the drop of each field.
impl Drop for TypeName {
    fn drop(self) {
        let TypeName {
            at: _at,
            base: _base,
            pointers: _pointers,
        } = self;
    }
}
