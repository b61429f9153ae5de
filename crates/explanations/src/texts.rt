// What is said of each fault, ending and status, and of words of C. `tools/explain --write` writes this file, of docs/FAULTS.md.

mod c_words;
mod endings;
mod flow_faults;
mod image_faults;
mod machine_faults;
mod region_faults;
mod source_faults;
mod statuses;

use crate::explanation::Explanation;
pub use c_words::C_WORDS;
use endings::ENDINGS;
use flow_faults::FLOW_FAULTS;
use image_faults::IMAGE_FAULTS;
use machine_faults::MACHINE_FAULTS;
use region_faults::REGION_FAULTS;
use source_faults::SOURCE_FAULTS;
use statuses::STATUSES;

/// All explanations, those of words of C last.
pub const TABLES: [&[Explanation]; 8] = [
    &SOURCE_FAULTS,
    &REGION_FAULTS,
    &FLOW_FAULTS,
    &IMAGE_FAULTS,
    &MACHINE_FAULTS,
    &ENDINGS,
    &STATUSES,
    &C_WORDS,
];

/// The names, below a line that says so.
pub const NAMES: &str = r#"Names:
  Lex, Parse, TooDeep, Name, Type, Region, Outlives, Effect, Consumed, Lent,
  Copy, Size, TooLarge, Short, Magic, Version, Limit, Entry, Trailing, Illegal,
  Access, Misaligned, Break, BadCall, Null_Exception, Array_bounds, exhausted,
  step limit, stuck, read fault, write fault, cannot read, cannot write, out of
  memory, error, 0, 1, 2, 3, 4, 5, 6, 7, 8, 9"#;
