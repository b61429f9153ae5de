// The meanings of names.

use check_regions::DeclaredBounds;
use cyc_types::{CType, RegionId};

/// A function whose head has no error: its parameters and result. Its region variables are the first levels.
pub struct Signature<'p> {
    /// The number of region variables.
    pub regions: u32,
    /// The types of the parameters. None: it has a struct whose declaration has an error, so it isn't known.
    pub parameters: Vec<Option<CType<'p>>>,
    /// The type of the result. None: as of a parameter.
    pub result: Option<CType<'p>>,
    /// The regions that have to be live where it is called.
    pub effect: Vec<RegionId>,
    /// Which region has to outlive which.
    pub bounds: DeclaredBounds,
}

// Written out, so that a caller's proof sees one call and not the drop of each field.
impl Drop for Signature<'_> {
    fn drop(self) {
        let Signature {
            regions: _,
            parameters: _parameters,
            result: _result,
            effect: _effect,
            bounds: _bounds,
        } = self;
    }
}

/// The meaning of a name that no local hides.
pub enum Meaning<'p> {
    /// A variable of a type, in a region.
    Variable(CType<'p>, RegionId),
    /// An array of elements of a type, in a region.
    Array(CType<'p>, RegionId),
    /// The index of an array comprehension.
    Counter,
    /// A function of the program.
    Function(Signature<'p>),
    /// A function that every program has, with its number of parameters.
    Builtin(u32),
    /// A struct or union whose declaration has no error.
    Tag {
        is_union: bool,
        /// The number of region parameters.
        regions: u32,
    },
    /// A struct or union whose declaration has an error, with the number of its region parameters.
    FaultyTag(u32),
    /// A variable whose type isn't known, though its own declaration has no error: a struct or union that it names has one.
    Untyped,
    /// A global or a function whose declaration has an error.
    NotKnown,
}

// Written out, so that a caller's proof sees one call and not the drop of each field.
impl Drop for Meaning<'_> {
    fn drop(self) {
        match self {
            Meaning::Variable(_of, _) | Meaning::Array(_of, _) => {}
            Meaning::Counter | Meaning::Builtin(_) => {}
            Meaning::Untyped | Meaning::NotKnown => {}
            Meaning::Tag {
                is_union: _,
                regions: _,
            } => {}
            Meaning::FaultyTag(_) => {}
            Meaning::Function(_signature) => {}
        }
    }
}
