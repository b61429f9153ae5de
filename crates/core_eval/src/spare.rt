// Vectors that are done with, whose memory is used again.

ghost use Rattle.std.specs.Prelude.{◌≡◌, []};

use crate::kept::{kept_of_room, kept_of_temps};
use crate::value::{Object, Value};
use std::alloc::Global;

/// The most vectors of a sort that are kept. What a deep recursion had is freed.
const MOST_KEPT: usize = 1024;

/// Vectors that are done with, whose memory is used again.
#[derive(Drop)]
pub struct Spare {
    temps: Vec<Vec<Value>>,
    objects: Vec<Vec<Object>>,
    /// How many bytes are kept of these vectors, of the temporaries of callers, and of all objects. No promise rests on it.
    bytes: u64,
}

impl Spare {
    /// None as yet.
    pub fn new(alloc: Global) -> Self {
        Spare {
            temps: Vec::new(alloc),
            objects: Vec::new(alloc),
            bytes: 0,
        }
    }

    /// How many bytes are kept, of what was counted.
    pub fn bytes(&self) -> u64 {
        self.bytes
    }

    /// So many bytes more are kept.
    pub fn count(&mut self, bytes: u64) {
        self.bytes = self.bytes.saturating_add(bytes);
    }

    /// So many bytes are no longer kept, or by another one.
    pub fn uncount(&mut self, bytes: u64) {
        self.bytes = self.bytes.saturating_sub(bytes);
    }

    /// An empty one for temporaries.
    pub fn take_temps(&mut self, alloc: Global) -> Vec<Value>
        ensures { result.items ≡ [] }
    {
        match self.temps.pop() {
            Some(mut temps) => {
                self.uncount(kept_of_temps(&temps));
                temps.clear();
                temps
            }
            None => Vec::new(alloc),
        }
    }

    /// An empty one for the locals of a block.
    pub fn take_objects(&mut self, alloc: Global) -> Vec<Object>
        ensures { result.items ≡ [] }
    {
        match self.objects.pop() {
            Some(mut objects) => {
                self.uncount(kept_of_room(&objects));
                objects.clear();
                objects
            }
            None => Vec::new(alloc),
        }
    }

    /// Keeps one of temporaries. Where there are enough, or the host has no memory to keep it, it is freed.
    pub fn keep_temps(&mut self, temps: Vec<Value>) {
        if self.temps.len() < MOST_KEPT {
            self.count(kept_of_temps(&temps));
            let _ = self.temps.push(temps);
        }
    }

    /// Keeps one of locals, whose objects end. Where there are enough, or the host has no memory to keep it, it is freed.
    pub fn keep_objects(&mut self, mut objects: Vec<Object>) {
        objects.clear();
        if self.objects.len() < MOST_KEPT {
            self.count(kept_of_room(&objects));
            let _ = self.objects.push(objects);
        }
    }
}
