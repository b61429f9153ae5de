// The scope in which an expression is judged.

ghost use Rattle.std.specs.Prelude.{◌≡◌, IfOk, option_map};
ghost use Rattle.cyc_types.specs.Regions.{region_of};
ghost use Rattle.source_typing.specs.Scope.{Env, is_live, meant, outlives};
ghost use Rattle.check_scopes.specs.Globals.{global_meaning};
ghost use Rattle.check_scopes.specs.Knows.{Names, Sees, means_in, of_local};
ghost use Rattle.check_scopes.specs.Means.{Means, meaning_of};

use crate::globals::Globals;
use crate::locals::{Locals, What};
use crate::meaning::{Meaning, Signature};
use check_regions::RegionScope;
use cyc_types::{CType, RegionId, Tables};
use std::alloc::AllocError;

/// The meaning of a name where it is used.
#[derive(Clone, Copy)]
pub enum Named<'a, 'p> {
    /// A variable of a type, in a region.
    Variable(&'a CType<'p>, RegionId),
    /// An array of elements of a type, in a region.
    Array(&'a CType<'p>, RegionId),
    /// The index of an array comprehension.
    Counter,
    /// A function of the program.
    Function(&'a Signature<'p>),
    /// A function that every program has, with its number of parameters.
    Builtin(u32),
    /// A struct or union whose declaration has no error.
    Tag {
        is_union: bool,
        /// The number of region parameters.
        regions: u32,
    },
    /// A struct or union whose declaration has an error, with the number of its region parameters.
    FaultyTag(u32),
    /// A variable whose type isn't known, though its own declaration has no error: a struct or union that it names has one.
    Untyped,
    /// A local, a global or a function whose declaration has an error.
    NotKnown,
}

/// The scope in which an expression is judged: names, structs and unions, regions, and whether the rules on live regions and effects are
/// left out.
pub struct Scope<'g, 'p> {
    pub globals: &'g Globals<'p>,
    /// The structs and unions of the program.
    pub tables: &'g Tables<'p>,
    pub locals: Locals<'p>,
    pub regions: RegionScope,
    pub lenient: bool,
}

// Written out, so that a caller's proof sees one call and not the drop of each field.
impl Drop for Scope<'_, '_> {
    fn drop(self) {
        let Scope {
            globals: _,
            tables: _,
            locals: _locals,
            regions: _regions,
            lenient: _,
        } = self;
    }
}

/// The meaning of a name that is this local.
fn named_local<'a, 'p>(what: &'a What<'p>) -> Named<'a, 'p>
    ensures { meaning_of result ≡ of_local what.now }
{
    match what {
        What::Variable(stored, region) => Named::Variable(stored, *region),
        What::Array(element, region) => Named::Array(element, *region),
        What::Counter => Named::Counter,
        What::Untyped => Named::Untyped,
        What::NotKnown => Named::NotKnown,
    }
}

/// The meaning of a name that is this global or function.
fn named_global<'a, 'p>(meaning: &'a Meaning<'p>) -> Named<'a, 'p>
    ensures { meaning_of result ≡ meaning.now }
{
    match meaning {
        Meaning::Variable(stored, region) => Named::Variable(stored, *region),
        Meaning::Array(element, region) => Named::Array(element, *region),
        Meaning::Counter => Named::Counter,
        Meaning::Function(signature) => Named::Function(signature),
        Meaning::Builtin(count) => Named::Builtin(*count),
        Meaning::Tag { is_union, regions } => Named::Tag {
            is_union: *is_union,
            regions: *regions,
        },
        Meaning::FaultyTag(regions) => Named::FaultyTag(*regions),
        Meaning::Untyped => Named::Untyped,
        Meaning::NotKnown => Named::NotKnown,
    }
}

impl<'g, 'p> Scope<'g, 'p> {
    /// The meaning of a name, if it has one.
    #[tactic(auto, using(crate::proofs::Ruled::named_by_rules))]
    pub fn meaning(&self, name: &[u8]) -> Option<Named<'_, 'p>>
        ensures is { option_map meaning_of result ≡ means_in self.now name.now }
        ensures by_the_rules { (g : Env) → Names self.now g → Means (meant g name.now) (option_map meaning_of result) }
    {
        match self.locals.find(name) {
            Some(what) => Some(named_local(what)),
            None => self.global_meaning(name),
        }
    }

    /// The meaning of a name that no local hides.
    fn global_meaning(&self, name: &[u8]) -> Option<Named<'_, 'p>>
        ensures { option_map meaning_of result ≡ global_meaning self.now.globals.now name.now }
    {
        match self.globals.meaning(name) {
            Some(meaning) => Some(named_global(meaning)),
            None => None,
        }
    }

    /// Whether a region is live, or is taken as live.
    #[tactic(auto, using(crate::proofs::Ruled::seen_regions, crate::proofs::Ruled::seen_lenient))]
    pub fn is_live(&self, region: RegionId) -> bool
        ensures { (g : Env) → Sees self.now g → result ≡ is_live g (region_of region) }
    {
        self.lenient || self.regions.is_live(region)
    }

    /// Whether a region outlives another one.
    #[tactic(auto, using(crate::proofs::Ruled::seen_regions))]
    pub fn outlives(&self, one: RegionId, other: RegionId) -> Result<bool, AllocError>
        ensures { (g : Env) → Sees self.now g → IfOk result (λ b. b ≡ outlives g (region_of one) (region_of other)) }
    {
        self.regions.outlives(one, other)
    }
}
