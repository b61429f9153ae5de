// A local that was found by its name, and temporaries behind others.

ghost use Rattle.std.specs.Prelude.{◌≡◌, ◌+◌};
ghost use Rattle.lower_checks.specs.Room.{HasRoom};

use crate::stored::Stored;
use cyc_core::Temporary;

/// A local: its name, what it is, how many blocks out it is, and its number in that block.
#[derive(Clone, Copy)]
pub struct Named<'p> {
    pub name: &'p [u8],
    pub stored: Stored<'p>,
    pub out: usize,
    pub index: usize,
}

/// The temporary whose number is greater than another's by a count.
pub fn behind(temporary: Temporary, by: u32) -> Temporary
    requires { HasRoom temporary.0 by }
    ensures { result.0 ≡ temporary.0 + by }
{
    Temporary(temporary.0 + by)
}
