// The frames of active functions, as a run left them.

use cyc_arena::BlockStore;
use rv32_machine::{Machine, STACK_BASE};
use std::alloc::Global;

/// The bytes of the stack from an address on.
#[derive(Drop)]
pub struct Frames {
    from: u32,
    bytes: Vec<u8>,
}

impl Frames {
    /// None.
    pub fn none(alloc: Global) -> Frames {
        Frames {
            from: 0,
            bytes: Vec::new(alloc),
        }
    }

    /// Keeps those of the functions that are active: the stack from the stack pointer on. None where no host memory is left for them.
    pub fn keep<S: BlockStore>(&mut self, machine: &Machine<S>) {
        self.from = machine.reg(2);
        self.bytes.clear();
        let used = self.from.wrapping_sub(STACK_BASE) as usize;
        let bytes = machine.stack().get(used..).unwrap_or(&[]);
        if self.bytes.extend_from_slice(bytes).is_err() {
            self.bytes.clear();
        }
    }

    /// The word at an address; none outside the bytes that are kept.
    pub fn word(&self, address: u32) -> Option<u32> {
        let offset = address.wrapping_sub(self.from) as usize;
        match self.bytes.get(offset..) {
            Some([first, second, third, fourth, ..]) => {
                let word = [*first, *second, *third, *fourth];
                Some(u32::from_le_bytes(word))
            }
            _ => None,
        }
    }
}
