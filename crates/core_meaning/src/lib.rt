//! Core, the lowered language, and its meaning: functions of structured statements over flat
//! operations, with the source's memory, number for number.
//!
//! specs/Core has the language, specs/Memory its memory, specs/Operations what each operation does,
//! and specs/Meaning a run of a program on an input with an amount of fuel; docs/CORE.md is the
//! page to read beside them. There is no code. Stands on `step_trees` and `cyc_words`.
#![tactic(auto)]
