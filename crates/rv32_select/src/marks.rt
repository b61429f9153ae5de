// Which locals of a function may have a home: those of one part whose address no operation takes.

ghost use Rattle.std.specs.Prelude.{◌≡◌, suc, ◌∷◌, ◌++◌, ◌&&◌, ◌||◌, Bool, List, IfOk, OnOk, map, nat_eq};
ghost use Rattle.core_meaning.specs.Core as core;
ghost use Rattle.core_lines.specs.Homes.{fills, is_scalar, takes, addressed, addressed_of, eligible, eligible_of};
ghost use Rattle.cyc_core.specs.Trees.{part_layout, layout_tree, local_tree, operation_tree, statement_tree, body_tree};
ghost use Rattle.rv32_select.specs.Marks.{fills_alone, masked, marked, scalars};

use cyc_core::{Cell, CellLayout, Layout, Local, Operation, Statement, Variable};
use std::alloc::{AllocError, Global};

/// Whether a cell is made for one part.
fn is_one_part(cell: Cell) -> bool
    ensures { result ≡ fills (part_layout cell).bytes (part_layout cell).cells }
{
    match cell {
        Cell::Byte | Cell::Word | Cell::Pointer | Cell::Handle => true,
        Cell::Fat | Cell::Tagged | Cell::TaggedFat => false,
    }
}

/// Whether a cell is one part, which is all of its object's bytes.
fn is_filled_by(cell: CellLayout, bytes: u32) -> bool
    ensures { result ≡ fills_alone cell bytes }
{
    is_one_part(cell.cell) && cell.offset == 0 && cell.padding == 0 && cell.cell.bytes() == bytes
}

/// Whether an object of a layout is one part.
#[tactic(auto, using(crate::proofs::Marking::other_cells))]
fn is_filled(layout: &Layout) -> bool
    ensures { result ≡ fills (layout_tree layout.now).bytes (layout_tree layout.now).cells }
{
    let cells: &[CellLayout] = &layout.cells;
    match cells {
        [cell] => is_filled_by(*cell, layout.bytes),
        _ => false,
    }
}

/// Whether a local is one part.
fn is_scalar(local: &Local) -> bool
    ensures { result ≡ is_scalar (local_tree local.now) }
{
    match local {
        Local::Scalar(cell) => is_one_part(*cell),
        Local::Whole(layout, count) => *count == 1 && is_filled(layout.as_ref()),
    }
}

/// Which locals of a block are one part.
fn scalars(alloc: Global, locals: &[Local]) -> Result<Vec<bool>, AllocError>
    ensures { IfOk result (λ marks. marks.items ≡ scalars (map local_tree locals.now)) }
{
    let mut marks = Vec::new(alloc);
    'each: for local in locals {
        marks.push(is_scalar(local))?;
    }
    Ok(marks)
}

/// Unmarks a local of a block.
fn unmark(marks: &mut Vec<bool>, index: usize)
    ensures { marks.new.items ≡ masked (λ n. nat_eq index n) 0 marks.old.items }
{
    match marks.get_mut(index) {
        Some(mark) => *mark = false,
        None => {}
    }
}

/// Unmarks a local of the blocks around.
fn unmark_around(around: &mut Vec<Vec<bool>>, variable: Variable)
    ensures { map (λ marks. marks.items) around.new.items
        ≡ marked (λ o n. nat_eq variable.out o && nat_eq variable.index n) 0 (map (λ marks. marks.items) around.old.items) }
{
    match around.get_mut(variable.out) {
        Some(marks) => unmark(marks, variable.index),
        None => {}
    }
}

/// Unmarks the local whose address an operation takes, if it takes one's.
fn mark_operation(around: &mut Vec<Vec<bool>>, operation: Operation)
    ensures { map (λ marks. marks.items) around.new.items
        ≡ marked (λ o n. takes o n (operation_tree operation)) 0 (map (λ marks. marks.items) around.old.items) }
{
    match operation {
        Operation::LocalAddress(_, variable) => unmark_around(around, variable),
        _ => {}
    }
}

/// Takes the marks of the innermost block.
fn innermost(alloc: Global, around: &mut Vec<Vec<bool>>) -> Vec<bool>
    ensures { (b : List Bool) (bs : List (List Bool)) → map (λ marks. marks.items) around.old.items ≡ b ∷ bs
        → (result.items ≡ b) × (map (λ marks. marks.items) around.new.items ≡ bs) }
{
    if around.is_empty() {
        Vec::new(alloc)
    } else {
        around.remove(0)
    }
}

/// Appends flags, and others behind them.
fn put_lists(flags: &mut Vec<bool>, first: &[bool], second: &[bool]) -> Result<(), AllocError>
    ensures { OnOk result (flags.new.items ≡ flags.old.items ++ (first.now ++ second.now)) }
{
    flags.extend_from_slice(first)?;
    flags.extend_from_slice(second)
}

/// Appends which locals of a statement's blocks may have a home, each block's before those of blocks within it, and unmarks those of the blocks around
/// whose address it takes.
#[cycle(eligible)]
fn put_marks(
    alloc: Global,
    flags: &mut Vec<bool>,
    around: &mut Vec<Vec<bool>>,
    statement: &Statement,
) -> Result<(), AllocError>
    ensures flags { OnOk result (flags.new.items ≡ flags.old.items ++ eligible (statement_tree statement.now)) }
    ensures around { OnOk result (map (λ marks. marks.items) around.new.items
        ≡ marked (λ o n. addressed o n (statement_tree statement.now)) 0 (map (λ marks. marks.items) around.old.items)) }
{
    match statement {
        Statement::Do(_, operation) => {
            mark_operation(around, *operation);
            Ok(())
        }
        Statement::Check(..) => Ok(()),
        Statement::If(_, both) | Statement::While(_, both) => {
            put_both(alloc, flags, around, &both.0, &both.1)
        }
        Statement::Block(block) => put_block(alloc, flags, around, &block.0, &block.1),
        Statement::Leave(body) => put_all(alloc, flags, around, body),
        _ => Ok(()),
    }
}

/// The same of statements, and of others behind them.
#[cycle(eligible)]
fn put_both(
    alloc: Global,
    flags: &mut Vec<bool>,
    around: &mut Vec<Vec<bool>>,
    first: &[Statement],
    second: &[Statement],
) -> Result<(), AllocError>
    ensures flags { OnOk result (flags.new.items ≡ flags.old.items ++ (eligible_of (body_tree first.now) ++ eligible_of (body_tree second.now))) }
    ensures around { OnOk result (map (λ marks. marks.items) around.new.items
        ≡ marked (λ o n. addressed_of o n (body_tree first.now) || addressed_of o n (body_tree second.now)) 0 (map (λ marks. marks.items) around.old.items)) }
{
    put_all(alloc, flags, around, first)?;
    put_all(alloc, flags, around, second)
}

/// The same of a block with these locals.
#[cycle(eligible)]
fn put_block(
    alloc: Global,
    flags: &mut Vec<bool>,
    around: &mut Vec<Vec<bool>>,
    locals: &[Local],
    body: &[Statement],
) -> Result<(), AllocError>
    ensures flags { OnOk result (flags.new.items ≡ flags.old.items ++ eligible (core.Block (map local_tree locals.now) (body_tree body.now))) }
    ensures around { OnOk result (map (λ marks. marks.items) around.new.items
        ≡ marked (λ o n. addressed_of (suc o) n (body_tree body.now)) 0 (map (λ marks. marks.items) around.old.items)) }
{
    around.insert(0, scalars(alloc, locals)?)?;
    let mut within = Vec::new(alloc);
    put_all(alloc, &mut within, around, body)?;
    let own = innermost(alloc, around);
    put_lists(flags, &own, &within)
}

/// The same of statements, one after the other.
#[cycle(eligible)]
fn put_all(
    alloc: Global,
    flags: &mut Vec<bool>,
    around: &mut Vec<Vec<bool>>,
    statements: &[Statement],
) -> Result<(), AllocError>
    ensures flags { OnOk result (flags.new.items ≡ flags.old.items ++ eligible_of (body_tree statements.now)) }
    ensures around { OnOk result (map (λ marks. marks.items) around.new.items
        ≡ marked (λ o n. addressed_of o n (body_tree statements.now)) 0 (map (λ marks. marks.items) around.old.items)) }
{
    'each: for statement in statements {
        put_marks(alloc, flags, around, statement)?;
    }
    Ok(())
}

/// Which locals of a function's body may have a home, by their numbers.
pub fn eligible(alloc: Global, body: &[Statement]) -> Result<Vec<bool>, AllocError>
    ensures { IfOk result (λ flags. flags.items ≡ eligible_of (body_tree body.now)) }
{
    let mut flags = Vec::new(alloc);
    let mut around = Vec::new(alloc);
    put_all(alloc, &mut flags, &mut around, body)?;
    Ok(flags)
}
