//! From Core to instructions with labels.
//!
//! Each function has a frame: its return address, the words that it passes to callees, its
//! temporaries, and the locals of its blocks. An operation takes its temporaries from where their
//! words are known to be, else loads them into registers; its result goes into a register, and is
//! saved where the function's code loads it later, which a walk over the function finds before. A
//! choice and a loop are jumps to labels, a call is a jump to the function's label, whose number is
//! the function's, and a return one to its end. The lines are
//! those of `program_code` in `core_lines`, with no branch alone: no label is placed twice, and a
//! machine that begins with them does what the program does. A local of one part whose address isn't
//! taken has its home in a register where its function's order has it among the first.
//! Stands on `cyc_core`, `cyc_words`, `core_lines`, `rv32_isa` and `rv32_machine`.
#![tactic(auto)]

mod answers;
mod behind;
mod calls;
mod checks;
mod comparing;
mod completing;
mod emit;
mod flags;
mod framing;
mod function;
mod held;
mod homes;
mod immediates;
mod joining;
mod keeper;
mod labelled;
mod layout;
mod live;
mod live_leaves;
mod loads;
mod locals;
mod marks;
mod memory;
mod nulls;
mod numbered;
mod operands;
mod operation;
mod place;
mod points;
mod raising;
mod results;
mod runs;
mod saves;
mod settling;
mod starts;
mod statement;
mod straight;
mod taking;
mod ways;
mod whole;
mod words;

pub use framing::frames;
pub use function::select;
pub use labelled::Labelled;
pub use layout::statics;
pub use place::DATA_BASE;
pub use starts::Start;
