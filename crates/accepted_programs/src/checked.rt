// A program that was checked.

ghost use Rattle.std.specs.Prelude.{◌≡◌};
ghost use Rattle.accepted_programs.specs.Accepted.{IsAccepted};

use cyc_tree::Program;
use std::marker::Model;

/// An accepted program: no rule of names, types, regions, effects, sizes and flow finds a fault in it. A contract sees it as the program.
#[derive(Drop)]
pub struct Checked {
    program: Program,
}

impl Model for Checked {
    ghost use Rattle.cyc_tree.specs.Tree.{Program as Tree};
    ghost use Rattle.cyc_tree.specs.Stored.{coded_program};
    ghost use Rattle.accepted_programs.specs.Accepted.{IsAccepted};

    ghost Value = { Tree };

    ghost coded = { coded_program };

    ghost view = { λ c. c.program };

    ghost invariant = { λ c. IsAccepted c.program };
}

impl Checked {
    /// Makes an accepted program of one in which the rules find no fault. It is `unique_flow::flow`, the last of the checks, that knows
    /// of one.
    pub fn new(program: Program) -> Self
        requires { IsAccepted program }
        ensures same { result ≡ program }
    {
        Checked { program }
    }

    /// The program, which is accepted.
    pub fn program(&self) -> &Program
        ensures same { result.now ≡ self.now }
        ensures accepted { IsAccepted self.now }
    {
        &self.program
    }
}
