// The registers that a function's parameters are taken into.

ghost use Rattle.std.specs.Prelude.{◌≡◌, [], ◌∷◌};
ghost use Rattle.core_lines.specs.Held.{nth, nth_block};
ghost use Rattle.core_lines.specs.Parameters.{home_put_at, in_block, in_first_block, parameter_register};
ghost use Rattle.core_lines.specs.Straight.{home_put, home_put_by};
ghost use Rattle.cyc_core.specs.Trees.{operation_tree, statement_tree, body_tree};

use crate::held::result_register;
use crate::homes::home_at;
use cyc_core::{Operation, Statement, Temporary, Variable, Width};
use rv32_isa::Register;

/// The home of a local in a block, or x0, where the block's locals have these homes; x0 of a local further out.
#[tactic(auto, using(crate::proofs::Taken::home_here, crate::proofs::Taken::none_outside))]
fn home_of(homes: &[Register], variable: Variable) -> Register
    ensures { result ≡ nth (nth_block (homes.now ∷ []) variable.out) variable.index }
{
    if variable.out == 0 {
        home_at(homes, variable.index)
    } else {
        Register::ZERO
    }
}

/// The home that an operation in such a block puts a temporary's whole word into, or x0.
fn home_put(homes: &[Register], temporary: Temporary, operation: Operation) -> Register
    ensures { result ≡ home_put (homes.now ∷ []) temporary.0 (operation_tree operation) }
{
    match operation {
        Operation::Put(Width::Word, from, variable) => {
            let home = home_of(homes, variable);
            if from.0 == temporary.0 {
                home
            } else {
                Register::ZERO
            }
        }
        _ => Register::ZERO,
    }
}

/// The same of a statement.
fn home_put_by(homes: &[Register], temporary: Temporary, statement: &Statement) -> Register
    ensures { result ≡ home_put_by (homes.now ∷ []) temporary.0 (statement_tree statement.now) }
{
    match statement {
        Statement::Do(_, operation) => home_put(homes, temporary, *operation),
        _ => Register::ZERO,
    }
}

/// The same of the statement with a parameter's number.
#[tactic(auto, using(crate::proofs::Taken::at_some, crate::proofs::Taken::at_none))]
fn home_put_at(homes: &[Register], parameter: Temporary, statements: &[Statement]) -> Register
    ensures { result ≡ home_put_at homes.now parameter.0 parameter.0 (body_tree statements.now) }
{
    match statements.get(parameter.0 as usize) {
        Some(statement) => home_put_by(homes, parameter, statement),
        None => Register::ZERO,
    }
}

/// The same of that statement in a block.
fn home_put_in(homes: &[Register], parameter: Temporary, block: &Statement) -> Register
    ensures { result ≡ home_put_at homes.now parameter.0 parameter.0 (in_block (statement_tree block.now)) }
{
    match block {
        Statement::Block(block) => home_put_at(homes, parameter, &block.1),
        _ => Register::ZERO,
    }
}

/// The same of the block that a body begins with.
fn home_put_first(homes: &[Register], parameter: Temporary, body: &[Statement]) -> Register
    ensures { result ≡ home_put_at homes.now parameter.0 parameter.0 (in_first_block (body_tree body.now)) }
{
    match body {
        [first, ..] => home_put_in(homes, parameter, first),
        [] => Register::ZERO,
    }
}

/// The register that a parameter is taken into: the home of the local that gets it, or that of its temporary's results.
#[tactic(auto, using(crate::proofs::Taken::register_without, crate::proofs::Taken::register_with))]
pub fn parameter_register(homes: &[Register], body: &[Statement], parameter: Temporary) -> Register
    ensures { result ≡ parameter_register homes.now (body_tree body.now) parameter.0 }
{
    let home = home_put_first(homes, parameter, body);
    if home.number() == 0 {
        result_register(parameter)
    } else {
        home
    }
}
