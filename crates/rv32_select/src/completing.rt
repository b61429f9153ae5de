// Which statements can complete normally, and which end in a `Return`.

ghost use Rattle.std.specs.Prelude.{◌≡◌, if◌then◌else◌, take, length};
ghost use Rattle.core_lines.specs.Completing.{can_complete, can_complete_all, ends_in_return, ends_in_return_all};
ghost use Rattle.core_lines.specs.Selected.{ended_code};
ghost use Rattle.cyc_core.specs.Trees.{statement_tree, body_tree};

use core_lines::Line;
use cyc_core::Statement;

/// Whether a statement can complete, so that what stands behind it is reached.
#[cycle(completing)]
pub fn can_complete(statement: &Statement) -> bool
    ensures { result ≡ can_complete (statement_tree statement.now) }
{
    match statement {
        Statement::If(_, both) => can_complete_all(&both.0) || can_complete_all(&both.1),
        Statement::Block(block) => can_complete_all(&block.1),
        Statement::Break(_)
        | Statement::Continue(_)
        | Statement::Return(..)
        | Statement::Raise(_, _) => { false }
        _ => true,
    }
}

/// Whether statements can, one after the other.
#[cycle(completing)]
pub fn can_complete_all(body: &[Statement]) -> bool
    ensures { result ≡ can_complete_all (body_tree body.now) }
{
    'each: for statement in body {
        if !can_complete(statement) {
            return false;
        }
    }
    true
}

/// Whether a statement is a `Return`, or a block that ends in one.
#[cycle(ending)]
fn ends_in_return(statement: &Statement) -> bool
    ensures { result ≡ ends_in_return (statement_tree statement.now) }
{
    match statement {
        Statement::Return(..) => true,
        Statement::Block(block) => ends_in_return_all(&block.1),
        _ => false,
    }
}

/// Whether the first of the statements that can't complete is.
#[cycle(ending)]
fn ends_in_return_all(body: &[Statement]) -> bool
    ensures { result ≡ ends_in_return_all (body_tree body.now) }
{
    'each: for statement in body {
        if !can_complete(statement) {
            return ends_in_return(statement);
        }
    }
    false
}

/// Drops the last line of statements that end in a `Return`: it jumps to where their function ends.
pub fn end_lines(lines: &mut Vec<Line>, body: &[Statement])
    ensures { lines.new.items ≡ ended_code (ends_in_return_all (body_tree body.now)) lines.old.items }
{
    if ends_in_return_all(body) {
        let _jump = lines.pop();
    }
}

/// Keeps the lines behind the first `kept`, if they are reached.
pub fn keep_reached(lines: &mut Vec<Line>, kept: usize, reached: bool)
    ensures { lines.new.items ≡ (if reached then lines.old.items else take kept lines.old.items) }
{
    if !reached {
        lines.truncate(kept);
    }
}
