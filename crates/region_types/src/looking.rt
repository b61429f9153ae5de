// Looking at a program.

ghost use Rattle.std.specs.Prelude.{◌≡◌, IfOk};
ghost use Rattle.source_typing.specs.Answers.{type_fault};
ghost use Rattle.check_faults.specs.Faults.{faults_of};
ghost use Rattle.region_types.specs.Faults.{IsEffectFault, IsTypeFault};

use crate::program::Typed;
use check_faults::Fault;
use check_programs::program_fault;
use cyc_tree::Program;
use std::alloc::{AllocError, Global};

/// A program's earliest fault of names, types, regions and sizes, without the rules on live regions and effects.
pub fn type_fault(alloc: Global, program: &Program) -> Result<Option<Fault>, AllocError>
    ensures { IfOk result (λ f. faults_of f ≡ type_fault program.now) }
{
    program_fault(alloc, program, true)
}

/// The same where this is the earliest fault by the rules on live regions and effects too: where these find none, the others find none.
pub(crate) fn fault_without_effects(
    alloc: Global,
    program: &Program,
    effect_fault: Option<Fault>,
) -> Result<Option<Fault>, AllocError>
    requires { IsEffectFault effect_fault program.now }
    ensures { IfOk result (λ f. IsTypeFault f program.now) }
{
    match effect_fault {
        None => Ok(None),
        Some(_) => type_fault(alloc, program),
    }
}

/// Looks at a program's names, types, regions, effects and sizes. It is gone over once, and not copied.
pub fn into_typed(alloc: Global, program: Program) -> Result<Typed, AllocError>
    ensures { IfOk result (λ t. t ≡ program) }
{
    let effect_fault = program_fault(alloc, &program, false)?;
    Ok(Typed::new(program, effect_fault))
}

/// The same of a copy of the program.
pub fn typed(alloc: Global, program: &Program) -> Result<Typed, AllocError>
    ensures { IfOk result (λ t. t ≡ program.now) }
{
    into_typed(alloc, program.clone()?)
}
