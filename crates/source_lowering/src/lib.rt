//! From a program's tree to Core, as definitions, and the proof that Core does what the source does.
//!
//! specs/Lowered has the code of expressions, from the pieces in specs/Members, specs/Pieces and specs/Operators,
//! specs/Whole that of expressions as statements, specs/Exchanges that of `a :=: b`, specs/Leaving that of ways out of
//! regions, specs/Data the globals and strings, and specs/Programs the code of statements, functions and programs.
//! specs/Lowerable says of which programs that is proved: each accepted program is one (specs/Objects has the shapes and
//! types of variables, specs/Taken the constants). specs/Agreeing has what is proved of these, `programs_are_the_same`, by
//! the relation in specs/Memories and specs/Simulation, and specs/Bounds the bounds on frames and code. There is no code but
//! these laws.
//! Stands on `source_meaning` and `core_meaning`.
#![tactic(auto)]

mod laws;

pub use laws::{code_is_bounded, frames_are_bounded, programs_are_the_same};
