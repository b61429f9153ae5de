// The handle of a region.

ghost use Rattle.std.specs.Prelude.{Some};
ghost use Rattle.std.specs.Fmt.{decimal};

use std::fmt;

/// The handle of a region, by its number. The heap's is 0.
#[derive(Clone, Copy, PartialEq, Eq)]
pub struct Handle(pub u32);

impl fmt::Display for Handle {
    ghost output = { λ h. Some (decimal h.0) };

    fn fmt<W: fmt::Write>(&self, f: &mut fmt::Formatter<W>) -> fmt::Result {
        write!(f, "{}", self.0)
    }
}
