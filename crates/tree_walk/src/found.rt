// The literals and callees that the walk lists.

ghost use Rattle.std.specs.Prelude.{◌≡◌, [], ◌∷◌, IfOk, false};
ghost use Rattle.tree_walk.specs.Listing.{Lists};

use std::alloc::{AllocError, Global};

/// A string literal: its place, and its bytes without the final 0.
#[derive(Clone, Copy)]
pub struct Literal<'p> {
    pub at: u32,
    pub bytes: &'p [u8],
}

/// The name that a call names, and the offset in the text at which it does.
#[derive(Clone, Copy)]
pub struct Callee<'p> {
    pub name: &'p [u8],
    pub at: u32,
}

/// Literals and callees that are listed one after the other. Whether memory was wanting on the way is known at the end.
#[derive(Drop)]
pub(crate) struct Found<'p> {
    pub literals: Vec<Literal<'p>>,
    pub callees: Vec<Callee<'p>>,
    pub failed: bool,
}

impl<'p> Found<'p> {
    /// None is listed.
    pub(crate) fn new(alloc: Global) -> Self
        ensures literals { result.literals.items ≡ [] }
        ensures callees { result.callees.items ≡ [] }
        ensures sound { result.failed ≡ false }
    {
        Found {
            literals: Vec::new(alloc),
            callees: Vec::new(alloc),
            failed: false,
        }
    }

    /// The literals that are listed. Fails where memory was wanting.
    pub(crate) fn into_literals(self) -> Result<Vec<Literal<'p>>, AllocError>
        ensures { IfOk result (λ all. (self.entry.failed ≡ false) × (all ≡ self.entry.literals)) }
    {
        if self.failed {
            return Err(AllocError);
        }
        Ok(self.literals)
    }

    /// The callees that are listed. Fails where memory was wanting.
    pub(crate) fn into_callees(self) -> Result<Vec<Callee<'p>>, AllocError>
        ensures { IfOk result (λ all. (self.entry.failed ≡ false) × (all ≡ self.entry.callees)) }
    {
        if self.failed {
            return Err(AllocError);
        }
        Ok(self.callees)
    }
}

/// Appends a literal.
pub(crate) fn add_literal<'p>(found: &mut Found<'p>, at: u32, bytes: &'p [u8])
    ensures { Lists found.old found.new ((at, bytes.entry.now) ∷ []) [] }
{
    if let Err(_) = found.literals.push(Literal { at, bytes }) {
        found.failed = true;
    }
}

/// Appends a callee.
pub(crate) fn add_callee<'p>(found: &mut Found<'p>, name: &'p [u8], at: u32)
    ensures { Lists found.old found.new [] (name.entry.now ∷ []) }
{
    if let Err(_) = found.callees.push(Callee { name, at }) {
        found.failed = true;
    }
}
