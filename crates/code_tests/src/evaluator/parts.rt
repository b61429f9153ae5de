// The parts of programs that rows say and that own memory: globals, locals, and statements without statements within them.

use crate::evaluator::rows::{Row, operation_of};
use crate::evaluator::words::{Shape, Verb, Word};
use cyc_core::{
    Cell, CellLayout, Datum, Failure, Layout, Local, Origin, Statement, Temporary, Words,
};
use std::alloc::Global;
use std::rc::Rc;

/// A cell of an object.
fn cell(offset: u32, cell: Cell, padding: u32) -> CellLayout {
    CellLayout {
        offset,
        cell,
        padding,
    }
}

/// An object of these cells.
fn object(alloc: Global, cells: &[CellLayout], bytes: u32) -> Option<Rc<Layout>> {
    let cells = cells.to_vec(alloc).ok()?;
    Rc::new(alloc, Layout { cells, bytes }).ok()
}

/// The layout of a shape.
fn layout_of(alloc: Global, shape: Shape) -> Option<Rc<Layout>> {
    match shape {
        Shape::Int => object(alloc, &[cell(0, Cell::Word, 0)], 4),
        Shape::Pair => object(alloc, &[cell(0, Cell::Byte, 3), cell(4, Cell::Word, 0)], 8),
        Shape::Union => object(alloc, &[cell(0, Cell::Tagged, 0)], 8),
        Shape::FatUnion => object(alloc, &[cell(0, Cell::TaggedFat, 0)], 16),
        Shape::Wide => object(alloc, &[cell(0, Cell::Word, 0)], 0x0100_0000),
    }
}

/// The global that a row says, where it says one.
pub fn datum_of(alloc: Global, row: Row) -> Option<Datum> {
    let [first, second, _, _, _] = row.numbers;
    match row.word {
        Word::GlobalByte => Some(Datum::Byte(0)),
        Word::GlobalNull => Some(Datum::Null),
        Word::GlobalAddress => Some(Datum::Address(first as usize)),
        Word::GlobalBounds => Some(Datum::Bounds(first as usize, second)),
        Word::GlobalText => Some(Datum::Text(b"ab".to_vec(alloc).ok()?)),
        Word::GlobalPairs => Some(Datum::Whole(layout_of(alloc, Shape::Pair)?, first)),
        _ => None,
    }
}

/// The local or temporary object that a row says, where it says one.
pub fn local_of(alloc: Global, row: Row) -> Option<Local> {
    let [count, _, _, _, _] = row.numbers;
    match row.word {
        Word::Scalar(cell) => Some(Local::Scalar(cell)),
        Word::Whole(shape) => Some(Local::Whole(layout_of(alloc, shape)?, count)),
        _ => None,
    }
}

/// The temporaries of a value: none, one or three.
pub fn words_of(numbers: [u32; 3], count: usize) -> Option<Words> {
    let [first, second, third] = numbers;
    match count {
        0 => None,
        1 => Some(Words::One(Temporary(first))),
        _ => Some(Words::Three(Temporary(first), Temporary(second), Temporary(third))),
    }
}

/// The statement on objects of a shape that a row says, where it says one.
fn object_statement(alloc: Global, row: Row) -> Option<Statement> {
    let [first, second, third, _, _] = row.numbers;
    let (to, from) = (Temporary(first), Temporary(second));
    let Word::Object(verb, shape) = row.word else {
        return None;
    };
    let layout = layout_of(alloc, shape)?;
    match verb {
        Verb::Copy => Some(Statement::Copy(to, from, layout)),
        Verb::Clear => Some(Statement::Clear(to, layout, second)),
        Verb::Unique => Some(Statement::UniqueAlloc(to, layout)),
        Verb::Region => Some(Statement::RegionAlloc(to, from, Temporary(third), layout)),
    }
}

/// A check of a temporary.
fn checked(test: u32, failure: Failure) -> Statement {
    Statement::Check(Temporary(test), failure, Origin(0))
}

/// The statement without an object that a row says, where it says one.
fn plain_statement(row: Row) -> Option<Statement> {
    let [first, second, third, _, _] = row.numbers;
    match row.word {
        Word::Break => Some(Statement::Break(Origin(0))),
        Word::Continue => Some(Statement::Continue(Origin(0))),
        Word::Return => Some(Statement::Return(
            words_of([first, second, third], row.count),
            Origin(0),
        )),
        Word::Raise(kind) => Some(Statement::Raise(kind, Origin(0))),
        Word::Check(kind) => Some(checked(first, Failure::Always(kind))),
        Word::CheckBy(one, other) => {
            Some(checked(first, Failure::ByTest(Temporary(second), one, other)))
        }
        _ => Some(Statement::Do(Origin(0), operation_of(row)?)),
    }
}

/// The statement that a row says, where it says one that is no call.
pub fn statement_of(alloc: Global, row: Row) -> Option<Statement> {
    match plain_statement(row) {
        Some(statement) => Some(statement),
        None => object_statement(alloc, row),
    }
}
