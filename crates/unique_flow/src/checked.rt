// The last check: flow.

ghost use Rattle.std.specs.Prelude.{◌≡◌, IfOk, IfErr, None, Some, true};
ghost use Rattle.source_typing.specs.Answers.{effect_fault, first_fault};
ghost use Rattle.source_typing.specs.Faults.{is_of_flow};
ghost use Rattle.accepted_programs.specs.Accepted.{IsAccepted};
ghost use Rattle.check_faults.specs.Faults.{fault_of, faults_of, number_of};
ghost use Rattle.unique_flow.specs.Faults.{IsAs, IsFirstFault, IsOfFlowIfSome};

use crate::fault::FlowFault;
use accepted_programs::Checked;
use check_faults::{Fault, FaultKind, sooner};
use cyc_tree::Program;
use effect_check::Effected;
use flow_check::flow_fault;
use std::alloc::{AllocError, Global};

/// The earliest fault of a program without a fault of names, types, regions, effects or sizes. It is a fault of flow.
fn first_of_flow(alloc: Global, effected: &Effected) -> Result<Option<Fault>, AllocError>
    ensures first { IfOk result (λ f. faults_of f ≡ first_fault effected.now) }
    ensures of_flow { IfOk result (λ f. IsOfFlowIfSome (faults_of f)) }
{
    flow_fault(alloc, effected.program())
}

/// The error of `flow` for a fault of flow.
fn refused(fault: Fault) -> FlowFault
    requires { is_of_flow (number_of fault.kind) ≡ true }
    ensures { IsAs result (fault_of fault) }
{
    match fault.kind {
        FaultKind::Consumed => FlowFault::Consumed(fault.at),
        FaultKind::Lent => FlowFault::Lent(fault.at),
        FaultKind::Copy => FlowFault::Copy(fault.at),
        // other kinds are no faults of flow
        FaultKind::Name
        | FaultKind::Typing
        | FaultKind::Region
        | FaultKind::Outlives
        | FaultKind::Effect
        | FaultKind::Size => unreachable!(),
    }
}

/// Wraps a program in which no rule finds a fault.
fn accepted(program: Program) -> Checked
    requires { first_fault program ≡ None }
    ensures { result ≡ program }
{
    let _items = program.items();
    Checked::new(program)
}

/// Checks a program's flow. A program with a fault is refused with its earliest one, or because no host memory is left. A program without a
/// fault is refused for the latter alone.
pub fn flow(alloc: Global, effected: Effected) -> Result<Checked, FlowFault>
    // the program is answered as it is
    ensures same { IfOk result (λ c. c ≡ effected) }
    // an accepted program is refused only if no host memory is left
    ensures exact { IsAccepted effected → IfErr result (λ fault. fault ≡ FlowFault.Memory) }
    // a fault is the program's first
    ensures broken { IfErr result (λ fault. IsFirstFault fault effected) }
{
    match first_of_flow(alloc, &effected) {
        Ok(None) => Ok(accepted(effected.into_program())),
        Ok(Some(fault)) => Err(refused(fault)),
        Err(_) => Err(FlowFault::Memory),
    }
}

/// The earliest fault of a program by all rules, given the earliest one of names, types, regions, effects and sizes. Flow is the last
/// phase, so a fault that is none of flow is the first, and flow isn't checked. Fails only where no host memory is left.
pub fn first_broken(alloc: Global, program: &Program, broken: Fault) -> Result<Fault, AllocError>
    requires { effect_fault program.now ≡ Some (fault_of broken) }
    ensures { IfOk result (λ first. first_fault program.now ≡ Some (fault_of first)) }
{
    if !broken.kind.is_of_flow() {
        return Ok(broken);
    }
    let flow = flow_fault(alloc, program)?;
    match sooner(Some(broken), flow) {
        Some(first) => Ok(first),
        None => Ok(broken),
    }
}
