// How many temporaries code uses, and how many words it passes.

ghost use Rattle.std.specs.Prelude.{◌≡◌, suc, max, map};
ghost use Rattle.cyc_core.specs.Trees.{temporary_tree, optional_tree, operation_tree, failure_body, statement_tree, body_tree};
ghost use Rattle.source_lowering.specs.Programs.{last_of, operation_temporaries, statement_temporaries, temporaries_of, statement_passes, passed_by};

use cyc_core::{Failure, Operation, Statement, Temporary, Words};

/// How many temporaries there are up to one.
fn up_to(temporary: Temporary) -> u64
    ensures { result ≡ suc temporary.0 }
{
    u64::from(temporary.0) + 1
}

/// How many temporaries there are up to the last of these.
fn last(temporaries: &[Temporary]) -> u64
    ensures { result ≡ last_of (map temporary_tree temporaries.now) }
{
    let mut last = 0;
    'each: for temporary in temporaries {
        last = u64::max(last, up_to(*temporary));
    }
    last
}

/// How many temporaries there are up to the last of a value, where there is one.
fn up_to_value(value: Option<Words>) -> u64
    ensures { result ≡ last_of (optional_tree value) }
{
    match value {
        Some(Words::One(t)) => up_to(t),
        Some(Words::Three(t, u, v)) => u64::max(up_to(t), u64::max(up_to(u), up_to(v))),
        None => 0,
    }
}

/// How many temporaries an operation uses.
fn of_operation(operation: Operation) -> u64
    ensures { result ≡ operation_temporaries (operation_tree operation) }
{
    match operation {
        Operation::Constant(t, _)
        | Operation::NullPointer(t)
        | Operation::LocalAddress(t, _)
        | Operation::OwnAddress(t, _)
        | Operation::DataAddress(t, _)
        | Operation::Get(_, t, _)
        | Operation::Put(_, t, _)
        | Operation::Getchar(t)
        | Operation::HeapHandle(t)
        | Operation::RegionNew(t)
        | Operation::RegionFree(t)
        | Operation::UniqueFree(t)
        | Operation::KeyNew(t)
        | Operation::KeyOpen(t)
        | Operation::KeyClose(t)
        | Operation::KeyFree(t) => up_to(t),
        Operation::Move(t, x)
        | Operation::Narrow(t, x)
        | Operation::Offset(t, x, _, _)
        | Operation::Load(t, x, _)
        | Operation::Store(t, _, x)
        | Operation::IsNull(t, x)
        | Operation::Putchar(t, x) => u64::max(up_to(t), up_to(x)),
        Operation::Apply(_, t, x, y)
        | Operation::SamePlace(t, x, y)
        | Operation::Element(t, x, y, _, _) => { u64::max(up_to(t), u64::max(up_to(x), up_to(y))) }
    }
}

/// How many temporaries what a failure raises uses.
fn of_failure(failure: Failure) -> u64
    ensures { result ≡ temporaries_of (failure_body failure) }
{
    match failure {
        Failure::Always(_) => 0,
        Failure::ByTest(t, _, _) => up_to(t),
    }
}

/// How many temporaries a statement uses.
#[cycle(temporaries)]
fn of_statement(statement: &Statement) -> u64
    ensures { result ≡ statement_temporaries (statement_tree statement.now) }
{
    match statement {
        Statement::Do(_, operation) => of_operation(*operation),
        Statement::Check(t, failure, _) => u64::max(up_to(*t), of_failure(*failure)),
        Statement::If(t, both) | Statement::While(t, both) => {
            u64::max(
                up_to(*t),
                u64::max(temporaries(&both.0), temporaries(&both.1)),
            )
        }
        Statement::Block(block) => temporaries(&block.1),
        Statement::Leave(body) => temporaries(body),
        Statement::Copy(to, from, _) => u64::max(up_to(*to), up_to(*from)),
        Statement::Clear(pointer, _, _) => up_to(*pointer),
        Statement::UniqueAlloc(to, _) => up_to(*to),
        Statement::RegionAlloc(to, handle, count, _) => {
            u64::max(up_to(*to), u64::max(up_to(*handle), up_to(*count)))
        }
        Statement::Break(_) | Statement::Continue(_) | Statement::Raise(_, _) => 0,
        Statement::Call(call) => u64::max(up_to_value(call.result), last(&call.arguments)),
        Statement::Return(value, _) => up_to_value(*value),
    }
}

/// How many temporaries statements use.
#[cycle(temporaries)]
pub fn temporaries(body: &[Statement]) -> u64
    ensures { result ≡ temporaries_of (body_tree body.now) }
{
    let mut most = 0;
    'each: for statement in body {
        most = u64::max(most, of_statement(statement));
    }
    most
}

/// The most words that a statement passes to a call.
#[cycle(passed)]
fn passed_in(statement: &Statement) -> usize
    ensures { result ≡ statement_passes (statement_tree statement.now) }
{
    match statement {
        Statement::If(_, both) | Statement::While(_, both) => {
            usize::max(passed(&both.0), passed(&both.1))
        }
        Statement::Block(block) => passed(&block.1),
        Statement::Leave(body) => passed(body),
        Statement::Call(call) => call.arguments.len(),
        Statement::Do(..)
        | Statement::Copy(..)
        | Statement::Clear(..)
        | Statement::RegionAlloc(..)
        | Statement::UniqueAlloc(..)
        | Statement::Check(..)
        | Statement::Break(_)
        | Statement::Continue(_)
        | Statement::Return(..)
        | Statement::Raise(..) => 0,
    }
}

/// The most words that statements pass to a call.
#[cycle(passed)]
pub fn passed(body: &[Statement]) -> usize
    ensures { result ≡ passed_by (body_tree body.now) }
{
    let mut most = 0;
    'each: for statement in body {
        most = usize::max(most, passed_in(statement));
    }
    most
}
