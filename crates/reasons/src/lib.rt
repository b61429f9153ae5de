//! What is told of a fault, and the faults behind the first one.
//!
//! `reason` says of a fault what the checker's own judgements tell of it, in the words of `fault_words`. `cure` has the edits that these words tell,
//! `reasons_of` both and the places that they name, of several faults of a text that is read once, and `shown_fault` all that is shown of a fault
//! behind its line. `further_faults` answers the faults of the other functions and globals. Nothing rests on the words: the fault and its place are
//! `check`'s. No more is claimed than that each answers, or that no host memory is left. Stands on `fault_words`, `token_reasons`, the checker
//! and `cycc_driver`.
#![tactic(auto)]

mod further;
mod item_faults;
mod places;
mod shown;
mod told;
mod unknown;

pub use further::further_faults;
pub use shown::{push_shown, shown_fault};
pub use told::{cure, reason, reasons_of};
