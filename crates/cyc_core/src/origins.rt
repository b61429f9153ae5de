// The origins of a program's raises and calls.

ghost use Rattle.std.specs.Prelude.{◌≡◌, ◌+◌, IfOk, OnOk, length, map};
ghost use Rattle.cyc_core.specs.Counts.{all_calls, all_raises, calls_in, calls_of, raises_in, raises_of, statement_calls, statement_raises};
ghost use Rattle.cyc_core.specs.Trees.{body_tree, failure_body, function_tree, program_tree, statement_tree};

use crate::program::{Function, Program};
use crate::statement::{Failure, Origin, Statement};
use std::alloc::{AllocError, Global};

/// The origins of a program's raises, and those of its calls, each in the order in which the statements stand: function by function and statement by
/// statement, of a loop its test before its body, and of a choice its first statements before its second.
#[derive(Drop)]
pub struct Origins {
    pub raises: Vec<Origin>,
    pub calls: Vec<Origin>,
}

impl Origins {
    /// Those of a program: one for each raise, and one for each call. Fails only where no host memory is left.
    pub fn of(alloc: Global, program: &Program) -> Result<Origins, AllocError>
        ensures raises { IfOk result (λ origins. length origins.raises.items ≡ raises_in (program_tree program.now)) }
        ensures calls { IfOk result (λ origins. length origins.calls.items ≡ calls_in (program_tree program.now)) }
    {
        let mut origins = Origins {
            raises: Vec::new(alloc),
            calls: Vec::new(alloc),
        };
        origins.add_functions(&program.functions)?;
        Ok(origins)
    }

    /// Appends those of functions.
    fn add_functions(&mut self, functions: &[Function]) -> Result<(), AllocError>
        ensures raises { OnOk result (length self.new.raises.items ≡ length self.old.raises.items + all_raises (map function_tree functions.now)) }
        ensures calls { OnOk result (length self.new.calls.items ≡ length self.old.calls.items + all_calls (map function_tree functions.now)) }
    {
        'each: for function in functions {
            self.add_all(&function.body)?;
        }
        Ok(())
    }

    /// Appends the origin of a failed check for each exception that it may raise.
    fn add_failure(&mut self, failure: Failure, origin: Origin) -> Result<(), AllocError>
        ensures raises { OnOk result (length self.new.raises.items ≡ length self.old.raises.items + raises_of (failure_body failure)) }
        ensures calls { OnOk result (length self.new.calls.items ≡ length self.old.calls.items + calls_of (failure_body failure)) }
    {
        self.raises.push(origin)?;
        if let Failure::ByTest(..) = failure {
            self.raises.push(origin)?;
        }
        Ok(())
    }

    /// Appends those of a statement.
    #[cycle(origins)]
    fn add(&mut self, statement: &Statement) -> Result<(), AllocError>
        ensures raises { OnOk result (length self.new.raises.items ≡ length self.old.raises.items + statement_raises (statement_tree statement.now)) }
        ensures calls { OnOk result (length self.new.calls.items ≡ length self.old.calls.items + statement_calls (statement_tree statement.now)) }
    {
        match statement {
            Statement::Check(_, failure, origin) => self.add_failure(*failure, *origin),
            Statement::If(_, both) | Statement::While(_, both) => {
                self.add_all(&both.0)?;
                self.add_all(&both.1)
            }
            Statement::Block(block) => self.add_all(&block.1),
            Statement::Leave(body) => self.add_all(body),
            Statement::Call(call) => {
                self.calls.push(call.origin)?;
                Ok(())
            }
            Statement::Raise(_, origin) => {
                self.raises.push(*origin)?;
                Ok(())
            }
            Statement::Do(..)
            | Statement::Copy(..)
            | Statement::Clear(..)
            | Statement::RegionAlloc(..)
            | Statement::UniqueAlloc(..)
            | Statement::Break(_)
            | Statement::Continue(_)
            | Statement::Return(..) => Ok(()),
        }
    }

    /// Appends those of statements, one after the other.
    #[cycle(origins)]
    fn add_all(&mut self, body: &[Statement]) -> Result<(), AllocError>
        ensures raises { OnOk result (length self.new.raises.items ≡ length self.old.raises.items + raises_of (body_tree body.now)) }
        ensures calls { OnOk result (length self.new.calls.items ≡ length self.old.calls.items + calls_of (body_tree body.now)) }
    {
        'each: for statement in body {
            self.add(statement)?;
        }
        Ok(())
    }
}
