// Types made of others.

ghost use Rattle.std.specs.Prelude.{◌≡◌, IfOk, MatchOption};
ghost use Rattle.cyc_types.specs.Bases.{base_type};
ghost use Rattle.cyc_types.specs.Layers.{outermost, pointer_to};
ghost use Rattle.cyc_types.specs.Types.{static_type};

use crate::base::BaseType;
use crate::ctype::CType;
use crate::layer::Layer;
use crate::layers::Layers;
use std::alloc::{AllocError, Global};

impl<'p> CType<'p> {
    /// A type that is no pointer.
    pub fn plain(alloc: Global, base: BaseType<'p>) -> Self
        ensures { static_type result ≡ base_type base.entry }
    {
        CType {
            base,
            layers: Layers::new(alloc),
        }
    }

    /// A pointer to the type. Fails only where no host memory is left.
    #[tactic(auto, using(crate::proofs::Converting::pointed_more))]
    pub fn under(mut self, pointer: Layer) -> Result<Self, AllocError>
        ensures { IfOk result (λ t. static_type t ≡ pointer_to pointer (static_type self.entry)) }
    {
        self.layers.push(pointer)?;
        Ok(self)
    }

    /// What a pointer leads to; a type that is no pointer stays as it is.
    pub fn into_pointee(mut self) -> Self
        ensures { MatchOption (outermost self.entry.layers.items) (static_type result ≡ static_type self.entry)
            (λ l. static_type self.entry ≡ pointer_to l (static_type result)) }
    {
        self.layers.pop();
        self
    }
}
