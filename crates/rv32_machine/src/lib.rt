//! The machine: RV32IM with the memory map and the calls of docs/MACHINE.md, over any store.
//!
//! `Machine::new` makes the arrays for an image and decodes its code. `step` executes one
//! instruction, for every instruction, call and fault as specs/Step.antt says, with the answers that
//! the store gave. `give` answers a `getchar`. Stands on `rv32_isa`, `cyc_words`, `cyc_image`,
//! `arena_laws`, `cyc_arena` and `byteorder`.
#![tactic(auto)]

mod access;
mod areas;
mod arena;
mod calls;
mod computing;
mod decoded;
mod event;
mod execute;
mod machine;
mod memory;
mod motion;
mod numbers;
mod ops;
mod phase;
mod quick;
mod registers;
mod requests;
mod width;

pub use areas::{CODE_BASE, STACK_BASE};
pub use event::Event;
pub use machine::Machine;
pub use numbers::{
    EXIT, GETCHAR, KEY_CLOSE, KEY_FREE, KEY_NEW, KEY_OPEN, PUTCHAR, RAISE, REGION_ALLOC,
    REGION_FREE, REGION_NEW, STACK_REFUSED, UNIQUE_ALLOC, UNIQUE_FREE,
};
