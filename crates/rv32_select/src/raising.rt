// Statements that do no more than raise an exception.

ghost use Rattle.std.specs.Prelude.{◌≡◌};
ghost use Rattle.core_lines.specs.Held.{raises, raises_only};
ghost use Rattle.cyc_core.specs.Trees.{statement_tree, body_tree};

use cyc_core::Statement;

/// Whether a statement does no more than raise an exception, one or another.
#[cycle(raises)]
fn raises(statement: &Statement) -> bool
    ensures { result ≡ raises (statement_tree statement.now) }
{
    match statement {
        Statement::Raise(..) => true,
        Statement::If(_, both) => raises_only(&both.0) && raises_only(&both.1),
        _ => false,
    }
}

/// Whether statements do no more than that.
#[cycle(raises)]
#[tactic(auto, using(crate::proofs::Raised::several))]
pub fn raises_only(body: &[Statement]) -> bool
    ensures { result ≡ raises_only (body_tree body.now) }
{
    match body {
        [statement] => raises(statement),
        _ => false,
    }
}
