// A program whose effects were looked at.

ghost use Rattle.std.specs.Prelude.{◌≡◌, ◌≢◌, Some, None, Err, IfOk};
ghost use Rattle.check_faults.specs.Faults.{fault_of, faults_of};
ghost use Rattle.check_faults.specs.declared.fault.Fault.{Fault as Broken_fault};
ghost use Rattle.source_typing.specs.Answers.{effect_fault};

use crate::fault::CheckFault;
use check_faults::Fault;
use check_programs::program_fault;
use cyc_tree::Program;
use region_types::Typed;
use std::alloc::{AllocError, Global};
use std::marker::Model;

/// A program without a fault of names, types, regions, effects and sizes. A contract sees it as the program.
#[derive(Drop)]
pub struct Effected {
    program: Program,
}

impl Model for Effected {
    ghost use Rattle.std.specs.Prelude.{◌≡◌, None};
    ghost use Rattle.cyc_tree.specs.Tree.{Program as Tree};
    ghost use Rattle.cyc_tree.specs.Stored.{coded_program};
    ghost use Rattle.source_typing.specs.Answers.{effect_fault};

    ghost Value = { Tree };

    ghost coded = { coded_program };

    ghost view = { λ e. e.program };

    ghost invariant = { λ e. effect_fault e.program ≡ None };
}

impl Effected {
    /// The program.
    pub fn program(&self) -> &Program
        ensures same { result.now ≡ self.now }
        ensures faultless { effect_fault self.now ≡ None }
    {
        &self.program
    }

    /// The program, without what was found out of it.
    pub fn into_program(self) -> Program
        ensures same { result ≡ self }
        ensures faultless { effect_fault self ≡ None }
    {
        self.program
    }
}

/// A program's earliest fault of names, types, regions, effects and sizes.
pub fn effect_fault(alloc: Global, program: &Program) -> Result<Option<Fault>, AllocError>
    ensures { IfOk result (λ f. faults_of f ≡ effect_fault program.now) }
{
    program_fault(alloc, program, false)
}

/// Answers a program that was looked at, unless it has a fault of regions and effects, or an earlier one. A program with a fault is
/// refused with its earliest one, and one without a fault isn't refused: no memory is taken here.
pub fn effects(_alloc: Global, typed: Typed) -> Result<Effected, CheckFault>
    // a program without a fault is answered as it is
    ensures ok { IfOk result (λ e. (e ≡ typed) × (effect_fault typed ≡ None)) }
    // a fault is the program's first
    ensures broken { (f : Broken_fault) → result ≡ Err (CheckFault.Broken f) → effect_fault typed ≡ Some (fault_of f) }
    // no memory is asked for
    ensures never { result ≢ Err CheckFault.Memory }
{
    match typed.effect_fault() {
        None => Ok(Effected {
            program: typed.into_program(),
        }),
        Some(fault) => Err(CheckFault::Broken(fault)),
    }
}
