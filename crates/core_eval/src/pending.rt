// What an evaluator does next, and what is still to be done after that.

use crate::caller::Waiting;
use crate::frame::Frame;
use crate::held::Bound;
use crate::memory::Memory;
use crate::value::Value;
use cyc_core::{Function, Statement, Temporary, Words};
use cyc_words::Kind;

/// What a function returns: a word, or the three of a fat pointer, which are its first element, how many it has, and its index.
#[derive(Clone, Copy)]
pub enum Returned {
    One(Value),
    Three(Value, Bound, Bound),
}

/// How a statement is left, where its function isn't.
#[derive(Clone, Copy)]
pub enum Flow {
    Falls,
    Breaks,
    Continues,
}

/// The test and the body of a loop.
pub type Loop = Box<(Vec<Statement>, Vec<Statement>)>;

/// What is done next.
#[derive(Clone, Copy)]
pub enum Now<'p> {
    /// These statements are executed.
    Follow(&'p [Statement]),
    /// A statement was left, and what waits for that goes on.
    Leave(Flow),
}

/// What waits for the end of a statement. Most of what a call takes are these, so a caller is in a box.
#[derive(Drop)]
pub enum Pending<'p> {
    /// The statements after it.
    Then(&'p [Statement]),
    /// A loop, for the end of its test: the temporary that tells whether there is another turn, the test and the body.
    Test(Temporary, &'p Loop),
    /// A loop, for the end of its body.
    Body(Temporary, &'p Loop),
    /// The end of a block.
    Block,
    /// A statement that a `Break` in its body ends, for the end of that body.
    Breakable,
    /// A caller, for the end of the function that it called.
    Caller(Box<Waiting>),
}

// A run keeps up to four of these for each active call.
const _: () = prove!(size_of::<Pending<'static>>() == 24);

/// What a move leads to: another one, a unit of fuel that is due, or the end.
#[derive(Drop)]
pub enum Due<'p> {
    Go(Now<'p>),
    /// A unit for a byte of the input, which the temporary gets.
    Getchar(Temporary),
    /// A unit for a byte that is written, and that the temporary gets.
    Putchar(Temporary, u8),
    /// A unit for a turn of a loop.
    Turn(Temporary, &'p Loop),
    /// A unit for a call: the temporaries that get the result, the function's number, and what it is passed.
    Call(Option<Words>, usize, Vec<Value>),
    /// The end of the program, with its status.
    Over(u32),
    /// The end of the program, with an exception.
    Raised(Kind),
    /// What no rule gives a meaning.
    Wrong,
}

/// A run of a program, between two moves.
#[derive(Drop)]
pub struct Run<'p> {
    /// The program's functions.
    pub functions: &'p [Function],
    /// What waits, the outermost first.
    pub stack: Vec<Pending<'p>>,
    /// The activation of the innermost function.
    pub frame: Frame,
    /// What is stored.
    pub memory: Memory,
}
