// Instructions with labels.

use crate::comparison::Comparison;
use rv32_isa::Instr;

/// A line of code. A label is a number, which a `Label` line places.
#[derive(Clone, Copy)]
pub enum Line {
    /// An instruction as it is.
    Plain(Instr),
    /// The label stands here. The line is no instruction.
    Label(usize),
    /// Goes on at the label.
    Jump(usize),
    /// Goes on at the next line where the comparison holds, else at the label: a branch over a jump.
    JumpUnless(Comparison, usize),
    /// The same, by one branch, which the label has to be in reach of: it is made where the comparison doesn't hold.
    BranchUnless(Comparison, usize),
    /// Calls what stands at the label: x1 gets the address behind the call.
    CallTo(usize),
}
