// Where a run stopped, and in which calls.

use crate::frame::Frame;
use crate::pending::Pending;
use cyc_core::Origin;
use std::alloc::{AllocError, Global};

/// A call that is active: the number of the function that was called, and where in the text the call stands.
#[derive(Clone, Copy)]
pub struct ActiveCall {
    pub function: usize,
    pub origin: Origin,
}

/// Where in its text a run stopped.
#[derive(Drop)]
pub struct Stop {
    /// The phrase that raised, where the run ended by a raise.
    pub at: Origin,
    /// The number of the function in which it stopped.
    pub function: usize,
    /// The active calls, the innermost first. That of `main` isn't among them.
    pub calls: Vec<ActiveCall>,
}

/// Where a run of a program with this `main` stands, by what waits and the frame of the function that it is in.
pub fn stop_of(
    alloc: Global,
    main: usize,
    stack: &[Pending<'_>],
    frame: &Frame,
) -> Result<Stop, AllocError> {
    let mut calls = Vec::new(alloc);
    for pending in stack.iter().rev() {
        if let Pending::Caller(caller) = pending {
            calls.push(ActiveCall {
                function: caller.function,
                origin: caller.at,
            })?;
        }
    }
    let innermost = calls.first().map(|call: &ActiveCall| call.function);
    Ok(Stop {
        at: frame.at,
        function: innermost.unwrap_or(main),
        calls,
    })
}
