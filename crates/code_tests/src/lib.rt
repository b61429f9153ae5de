//! Tests in code, of what is no text or whose answer is none: what a tree holds, types, programs of Core made by hand, stores call by call, the machine step
//! by step, the words of the command line, and which paths lead to one file. All that a text and its answer say stands in the cases of `case_runs`.
//!
//! A crate with tests is proved twice, so they stand here, where nothing else is proved; and one crate is read, proved and built in less time than several.
#![tactic(auto)]

#[cfg(test)]
mod devices;
#[cfg(test)]
mod evaluator;
#[cfg(test)]
mod files;
#[cfg(test)]
mod machines;
#[cfg(test)]
mod stores;
#[cfg(test)]
mod texts;
#[cfg(test)]
mod trees;
#[cfg(test)]
mod types;
#[cfg(test)]
mod usage;
