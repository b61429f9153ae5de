// Statements of a function.

use crate::layout::{Layout, Local};
use crate::operation::{Operation, Temporary, Words};
use cyc_words::Kind;
use std::rc::Rc;

/// The offset in the source's text of the phrase that raises or calls, or of the statement that does something. No promise rests on it: the meaning of a
/// statement leaves it out.
#[derive(Clone, Copy)]
pub struct Origin(pub u32);

/// What a failed check raises.
#[derive(Clone, Copy)]
pub enum Failure {
    /// One exception.
    Always(Kind),
    /// The first exception where a temporary isn't 0 or NULL, and else the second.
    ByTest(Temporary, Kind, Kind),
}

/// A call of the function with a number.
#[derive(Drop)]
pub struct Call {
    /// The temporaries that get its result, if it has one.
    pub result: Option<Words>,
    /// The number of the function.
    pub function: usize,
    /// The temporaries whose words are passed.
    pub arguments: Vec<Temporary>,
    pub origin: Origin,
}

/// A statement of a function. What takes much space is in a box, so that a list of statements takes less.
#[cycle(statement)]
#[derive(Drop)]
pub enum Statement {
    /// The operation is done.
    Do(Origin, Operation),
    /// The object of this layout that the first temporary points to gets what that holds which the second points to.
    Copy(Temporary, Temporary, Rc<Layout>),
    /// So many elements of this layout, from where the temporary points on, get what they begin as: numbers 0, and pointers NULL.
    Clear(Temporary, Rc<Layout>, u32),
    /// The first temporary gets a pointer to a new block in the region whose handle the second holds: as many objects of this layout as the third's word
    /// says, which hold nothing.
    RegionAlloc(Temporary, Temporary, Temporary, Rc<Layout>),
    /// The temporary gets a pointer to a new unique block, which alone is in a region of its own: an object of this layout, which holds nothing.
    UniqueAlloc(Temporary, Rc<Layout>),
    /// Where the temporary is 0 or NULL, the program ends with an exception.
    Check(Temporary, Failure, Origin),
    /// Where the temporary is neither 0 nor NULL, the first statements are done, else the second.
    If(Temporary, Box<(Vec<Statement>, Vec<Statement>)>),
    /// The first statements are done, and where the temporary is neither 0 nor NULL then, the second and the loop again.
    While(Temporary, Box<(Vec<Statement>, Vec<Statement>)>),
    /// The statements are done with these locals, which hold nothing at first.
    Block(Box<(Vec<Local>, Vec<Statement>)>),
    /// The statements are done, and a `Break` among them ends them; a `Continue` is one of the loop around.
    Leave(Vec<Statement>),
    /// The innermost loop, or `Leave`, is left.
    Break(Origin),
    /// The innermost loop goes on with its test.
    Continue(Origin),
    /// A function is called with what temporaries hold, and others get its result, if it has one.
    Call(Box<Call>),
    /// The function returns, with what the temporaries hold if it has a result.
    Return(Option<Words>, Origin),
    /// The program ends with this exception.
    Raise(Kind, Origin),
}

// A list of statements is most of what a program in Core takes, so none takes more than this.
const _: () = prove!(size_of::<Statement>() == 32);
