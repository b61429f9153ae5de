// A program whose types were looked at.

ghost use Rattle.std.specs.Prelude.{◌≡◌, IfOk};
ghost use Rattle.region_types.specs.Faults.{IsEffectFault, IsTypeFault};

use crate::looking::fault_without_effects;
use check_faults::Fault;
use cyc_tree::Program;
use std::alloc::{AllocError, Global};
use std::marker::Model;

/// A program, with its first fault by all rules but those of flow. A contract sees it as the program.
#[derive(Drop)]
pub struct Typed {
    program: Program,
    effect_fault: Option<Fault>,
}

impl Model for Typed {
    ghost use Rattle.cyc_tree.specs.Tree.{Program as Tree};
    ghost use Rattle.cyc_tree.specs.Stored.{coded_program};
    ghost use Rattle.region_types.specs.Faults.{IsEffectFault};

    ghost Value = { Tree };

    ghost coded = { coded_program };

    ghost view = { λ t. t.program };

    ghost invariant = { λ t. IsEffectFault t.effect_fault t.program };
}

impl Typed {
    /// A program whose first fault this is.
    pub(crate) fn new(program: Program, effect_fault: Option<Fault>) -> Self
        requires { IsEffectFault effect_fault program }
        ensures { result ≡ program }
    {
        Typed {
            program,
            effect_fault,
        }
    }

    /// The program.
    pub fn program(&self) -> &Program
        ensures { result.now ≡ self.now }
    {
        &self.program
    }

    /// The program, without what was found out of it.
    pub fn into_program(self) -> Program
        ensures { result ≡ self }
    {
        self.program
    }

    /// The program's earliest fault of names, types, regions and sizes, without the rules on live regions and effects; at one place, the
    /// one of the lowest number. Where the rules with these found a fault, the program is gone over once more. Fails only where no host memory is left.
    pub fn fault(&self, alloc: Global) -> Result<Option<Fault>, AllocError>
        ensures { IfOk result (λ f. IsTypeFault f self.now) }
    {
        fault_without_effects(alloc, &self.program, self.effect_fault)
    }

    /// The program's earliest fault of names, types, regions, effects and sizes; at one place, the one of the lowest number.
    pub fn effect_fault(&self) -> Option<Fault>
        ensures { IsEffectFault result self.now }
    {
        self.effect_fault
    }
}
