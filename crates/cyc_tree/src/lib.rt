//! The syntax tree of a source text.
//!
//! `Program` holds every form of the language. A contract sees a program as the pure tree of
//! specs/Tree.antt, with no boxes, vectors or pointers in it; all definitions of the language speak
//! of that tree. Places are offsets in the text, in bytes; the end of the text is `END_OF_TEXT`.
//! specs/Operands and specs/Room say what the tree of each text has: an operator has its operands, and a word counts its temporaries.
//! `nesting` answers how deep a program's phrases nest.
#![tactic(auto)]

mod expression;
mod item;
mod laws;
mod name;
mod nested;
mod statement;

pub use expression::{Expression, Link, Made, Operator, Prefix, Suffix};
pub use item::{
    Bound, Bounds, Constant, END_OF_TEXT, Function, Global, Initial, Item, Member, Program,
    Structure,
};
pub use laws::deepest;
pub use name::{Base, Name, Pointer, RegionName, RegionNames, Sign, TypeName};
pub use nested::nesting;
pub use statement::{BlockItem, Clause, Declaration, Initializer, Pattern, Statement};
