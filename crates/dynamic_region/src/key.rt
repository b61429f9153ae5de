// The key of a dynamic region.

ghost use Rattle.std.specs.Prelude.{Some};
ghost use Rattle.std.specs.Fmt.{decimal};

use std::fmt;

/// The key of a dynamic region, by its number, from 1 up.
#[derive(Clone, Copy)]
pub struct Key(pub u32);

impl fmt::Display for Key {
    ghost output = { λ k. Some (decimal k.0) };

    fn fmt<W: fmt::Write>(&self, f: &mut fmt::Formatter<W>) -> fmt::Result {
        write!(f, "{}", self.0)
    }
}
