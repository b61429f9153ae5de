//! The rules of the language: which programs are in order, and where the others have a fault.
//!
//! Definitions alone, in specs/: names, types, regions, effects, sizes and flow, one rule in one
//! place. `program_faults` is the list of a program's faults, each with its rule and place, and
//! `first_fault` the one that is answered. Stands on the tree of `cyc_tree`, and on the shapes and
//! sizes of `source_meaning`.
#![tactic(auto)]
