// What the branches of the machine test.

ghost use Rattle.std.specs.Prelude.{◌≡◌};
ghost use Rattle.core_lines.specs.Comparisons.{opposite, inverse, branch_if};

use rv32_isa::{BranchOffset, Instr, Register};

/// What a branch tests of two words.
#[derive(Clone, Copy)]
pub enum Condition {
    /// They are the same.
    Equal,
    /// They differ.
    NotEqual,
    /// The first is less, both with a sign.
    Less,
    /// It isn't.
    NotLess,
    /// The first is less, both without a sign.
    LessUnsigned,
    /// It isn't.
    NotLessUnsigned,
}

impl Condition {
    /// The condition that holds where this one doesn't.
    pub fn opposite(self) -> Self
        ensures { result ≡ opposite self }
    {
        match self {
            Condition::Equal => Condition::NotEqual,
            Condition::NotEqual => Condition::Equal,
            Condition::Less => Condition::NotLess,
            Condition::NotLess => Condition::Less,
            Condition::LessUnsigned => Condition::NotLessUnsigned,
            Condition::NotLessUnsigned => Condition::LessUnsigned,
        }
    }
}

/// A condition on the words of two registers.
#[derive(Clone, Copy)]
pub struct Comparison {
    pub condition: Condition,
    pub left: Register,
    pub right: Register,
}

/// A comparison of a register's word with a number, which code puts into x7: that is one side of the comparison, and the other is another register.
#[derive(Clone, Copy)]
pub struct NumberComparison {
    pub comparison: Comparison,
    pub number: u64,
}

impl Comparison {
    /// The comparison that holds where this one doesn't.
    pub fn inverse(self) -> Self
        ensures { result ≡ inverse self }
    {
        Comparison {
            condition: self.condition.opposite(),
            left: self.left,
            right: self.right,
        }
    }

    /// The branch by this offset that is made where the comparison holds.
    pub fn branch(self, offset: BranchOffset) -> Instr
        ensures { result ≡ branch_if self offset }
    {
        let (left, right) = (self.left, self.right);
        match self.condition {
            Condition::Equal => Instr::Beq(left, right, offset),
            Condition::NotEqual => Instr::Bne(left, right, offset),
            Condition::Less => Instr::Blt(left, right, offset),
            Condition::NotLess => Instr::Bge(left, right, offset),
            Condition::LessUnsigned => Instr::Bltu(left, right, offset),
            Condition::NotLessUnsigned => Instr::Bgeu(left, right, offset),
        }
    }
}
