// Images, the machine, its runs between devices and how far a placed jump reaches: what no clause of theirs says, and no case of `case_runs`.

mod counted_calls;
mod images;
mod machine;
mod placing;
mod programs;
mod registers;
mod rows;
mod runs;
