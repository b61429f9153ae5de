//! Words of 32 bits, devices whose failures are counted, and what runs show.
//!
//! Each arithmetic call is the operation on whole numbers modulo 2^32 that its contract names; each
//! is total. `Input` and `Output` are readers and writers that count their failed calls, and
//! `Counted` makes one of any reader or writer. The events and endings of sources and images stand
//! in specs/Events.antt. Stands on std alone.
#![tactic(auto)]

mod arithmetic;
mod devices;
mod faults;

pub use arithmetic::{
    add32, div32, divu32, lt32, ltu32, mul32, mulh32, mulhsu32, mulhu32, rem32, remu32, sar32,
    shl32, shr32, sub32,
};
pub use devices::{Counted, Input, Output};
pub use faults::{Kind, MachineFault};
