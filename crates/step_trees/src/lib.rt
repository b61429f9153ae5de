//! Runs as trees of steps, cut where a unit of fuel is due: what the meanings of the source and of
//! Core have in common.
//!
//! specs/Trees has the tree and its runs, over any events, calls, loops and memory; proofs/Fuel that
//! more fuel changes no run that was over, and only adds to what is seen. Stands on the events and
//! endings of `cyc_words`. There is no code.
#![tactic(auto)]
