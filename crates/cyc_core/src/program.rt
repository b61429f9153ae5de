// Functions, globals and programs.

ghost use Rattle.std.specs.Prelude.{◌<◌, length};

use crate::layout::{Layout, Local};
use crate::statement::Statement;
use std::rc::Rc;

/// A function of Core.
#[derive(Drop)]
pub struct Function {
    /// How many parameters it has: its first temporaries.
    pub parameters: u32,
    /// How many temporaries it has, its parameters among them.
    pub temporaries: u32,
    /// The most words that it passes to a call.
    pub passed: u32,
    /// The numbers of its locals that have a home in a register before others, where they may have one: each block's are numbered before those of
    /// blocks within it. No number need be there.
    pub order: Vec<usize>,
    /// Its temporary objects, which hold nothing when it is called; `OwnAddress` names one by its number in this list.
    pub own: Vec<Local>,
    /// What it does.
    pub body: Vec<Statement>,
}

/// A global or a string, and what it holds at the start.
#[derive(Drop)]
pub enum Datum {
    /// A byte.
    Byte(u8),
    /// A word.
    Word(u32),
    /// NULL.
    Null,
    /// A string: its bytes, and a final 0 behind them.
    Text(Vec<u8>),
    /// A pointer to the first element of the global or string of a number.
    Address(usize),
    /// A fat pointer to the first element of the global or string of a number, and how many elements that has.
    Bounds(usize, u32),
    /// An object with a number of elements of a layout, which begins as the layout's cells do: numbers with 0, pointers with NULL.
    Whole(Rc<Layout>, u32),
}

/// A program of Core.
#[derive(Drop)]
pub struct Program {
    /// Its functions; a call names one by its number in this list.
    pub functions: Vec<Function>,
    /// The number of the function that is run, which is one of these.
    pub main: usize,
    /// Its globals, and behind them its strings; `DataAddress` names one by its number in this list.
    pub globals: Vec<Datum>,
    ghost main_there: { main < length functions.items },
}
