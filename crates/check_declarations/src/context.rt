// What is in scope beside the names of values and regions.

ghost use Rattle.std.specs.Prelude.{◌≡◌, ◌||◌, true};

use cyc_types::{CType, RegionId};

/// What is in scope in a function's body beside the names of values and regions: what stays as it is while the body is judged, and what
/// changes with the blocks and loops around a statement.
#[derive(Clone, Copy)]
pub struct Context<'a, 'p> {
    /// The function's result type, where it is known.
    pub result: Option<&'a CType<'p>>,
    /// The stack region of the innermost block.
    pub frame: RegionId,
    /// How many items stand before the one that is judged.
    pub item: u32,
    /// Whether a loop is around.
    pub in_loop: bool,
    /// Whether a `switch` is around.
    pub in_switch: bool,
}

impl<'a, 'p> Context<'a, 'p> {
    /// Whether a `break` may stand here.
    pub fn can_break(self) -> bool
        ensures { result ≡ (self.entry.in_loop || self.entry.in_switch) }
    {
        self.in_loop || self.in_switch
    }

    /// Within a loop.
    pub fn looping(self) -> Self
        ensures { result ≡ record self.entry { in_loop = true } }
    {
        Context {
            in_loop: true,
            ..self
        }
    }

    /// Within a `switch`.
    pub fn switching(self) -> Self
        ensures { result ≡ record self.entry { in_switch = true } }
    {
        Context {
            in_switch: true,
            ..self
        }
    }

    /// Within a block whose stack region this is.
    pub fn in_block(self, frame: RegionId) -> Self
        ensures { result ≡ record self.entry { frame = frame } }
    {
        Context { frame, ..self }
    }
}
