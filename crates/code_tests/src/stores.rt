// Stores of regions: what no clause of theirs says, and each public call once, by tables of calls.

mod asked;
mod calls;
mod parts;
mod rows;
mod tables;

// the arena's first address
const BASE: u32 = 0x1000_0000;
