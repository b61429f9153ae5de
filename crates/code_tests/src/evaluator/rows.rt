// Rows of a program's text, and the operations that they say.

use crate::evaluator::words::{Word, word_of};
use cyc_core::{Distance, Operation, Temporary, Variable, Width};

/// A row: the word of its name, its numbers with zeros behind them, and how many it has.
#[derive(Clone, Copy)]
pub struct Row {
    pub word: Word,
    pub numbers: [u32; 5],
    pub count: usize,
}

/// A decimal number, or a hexadecimal one behind `0x`.
fn number_of(word: &str) -> Option<u32> {
    match word.strip_prefix("0x") {
        Some(digits) => u32::from_str_radix(digits, 16).ok(),
        None => u32::from_str_radix(word, 10).ok(),
    }
}

/// The row that a text says.
pub fn row_of(text: &str) -> Option<Row> {
    let mut words = text.split(' ');
    let word = word_of(words.next()?)?;
    let (mut numbers, mut count) = ([0; 5], 0usize);
    for number in words {
        *numbers.get_mut(count)? = number_of(number)?;
        count = count.saturating_add(1);
    }
    Some(Row {
        word,
        numbers,
        count,
    })
}

/// A local of the innermost block.
fn local(index: u32) -> Variable {
    Variable {
        out: 0,
        index: index as usize,
    }
}

/// So many cells and bytes on, the part of this number, which a byte holds.
fn distance(width: Width, cells: u32, bytes: u32, part: u32) -> Option<Distance> {
    if part > 255 {
        return None;
    }
    Some(Distance {
        cells,
        bytes,
        part: part as u8,
        width,
    })
}

/// What a row of a load or store does: the first temporary gets, or is a pointer, and where no further numbers stand, what lies right there is meant.
fn memory_operation(row: Row) -> Option<Operation> {
    let [first, second, cells, bytes, part] = row.numbers;
    let (to, from) = (Temporary(first), Temporary(second));
    match row.word {
        Word::Load(width) => {
            let distance = distance(width, cells, bytes, part)?;
            Some(Operation::Load(to, from, distance))
        }
        Word::Store(width) => {
            let distance = distance(width, cells, bytes, part)?;
            Some(Operation::Store(to, distance, from))
        }
        Word::Get => Some(Operation::Get(Width::Word, to, local(second))),
        Word::Put => Some(Operation::Put(Width::Word, from, local(first))),
        _ => None,
    }
}

/// What a row that makes or tests a pointer, a handle or a key does.
fn pointer_operation(row: Row) -> Option<Operation> {
    let [first, second, third, fourth, fifth] = row.numbers;
    let (to, from, other) = (Temporary(first), Temporary(second), Temporary(third));
    match row.word {
        Word::NullPointer => Some(Operation::NullPointer(to)),
        Word::LocalAddress => Some(Operation::LocalAddress(to, local(second))),
        Word::OwnAddress => Some(Operation::OwnAddress(to, second as usize)),
        Word::DataAddress => Some(Operation::DataAddress(to, second as usize)),
        Word::Offset => Some(Operation::Offset(to, from, third, fourth)),
        Word::Element => Some(Operation::Element(to, from, other, fourth, fifth)),
        Word::IsNull => Some(Operation::IsNull(to, from)),
        Word::SamePlace => Some(Operation::SamePlace(to, from, other)),
        Word::HeapHandle => Some(Operation::HeapHandle(to)),
        Word::RegionNew => Some(Operation::RegionNew(to)),
        Word::RegionFree => Some(Operation::RegionFree(to)),
        Word::UniqueFree => Some(Operation::UniqueFree(to)),
        Word::KeyNew => Some(Operation::KeyNew(to)),
        Word::KeyOpen => Some(Operation::KeyOpen(to)),
        Word::KeyClose => Some(Operation::KeyClose(to)),
        Word::KeyFree => Some(Operation::KeyFree(to)),
        _ => None,
    }
}

/// What a row on numbers does.
fn number_operation(row: Row) -> Option<Operation> {
    let [first, second, third, _, _] = row.numbers;
    let (to, left, right) = (Temporary(first), Temporary(second), Temporary(third));
    match row.word {
        Word::Constant => Some(Operation::Constant(to, second)),
        Word::Getchar => Some(Operation::Getchar(to)),
        Word::Putchar => Some(Operation::Putchar(to, left)),
        Word::Apply(binary) => Some(Operation::Apply(binary, to, left, right)),
        _ => None,
    }
}

/// The operation that a row says, where it says one.
pub fn operation_of(row: Row) -> Option<Operation> {
    number_operation(row)
        .or(memory_operation(row))
        .or(pointer_operation(row))
}
