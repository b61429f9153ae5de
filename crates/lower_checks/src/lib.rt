//! From a program's tree to Core.
//!
//! `lower` appends operation after operation: an expression leaves its value in a temporary, and its
//! parts use the temporaries above it; a block's locals have numbers in it. The result is the Core
//! program of `program_code` in `source_lowering`. Functions, globals, structs and unions are found by tables of their names,
//! strings by their places.
//! Stands on `accepted_programs`, `cyc_core`, `accepted_proof`, `source_lowering`, `tree_walk`, `cyc_tree`, `bumpalo` and `indexmap`.
#![tactic(auto)]

mod array;
mod assigned;
mod body;
mod call;
mod datum;
mod declaration;
mod exchange;
mod expression;
mod fat;
mod first;
mod freeing;
mod function;
mod given;
mod indices;
mod last;
mod layouts;
mod leaf;
mod leaving;
mod locals;
mod made;
mod mark;
mod member;
mod member_places;
mod names;
mod numbers;
mod objects;
mod operands;
mod operator;
mod order;
mod place;
mod program;
mod scope;
mod shape;
mod shaped;
mod side;
mod signs;
mod simple;
mod sizes;
mod statement;
mod stored;
mod subscript;
mod switch;
mod table;
mod text;
mod union_members;
mod unions;
mod usage;
mod values;
mod variable;
mod vectors;
mod whole;
mod words;

pub use program::lower;
