//! The grammar of programs: which rows of tokens each form of the language is written with.
//!
//! specs/Grammar has the relation of a whole program to its tokens, over the phrases, types, expressions and statements of the other files.
//! `cyc_parser` reads by it, and what is counted in tokens (`token_proof`) speaks of it. Stands on the tokens of `cyc_lexer` and the tree of
//! `cyc_tree`. There is no code.
#![tactic(auto)]
