// The bytes of a program's data, one object after another.

ghost use Rattle.std.specs.Prelude.{◌≡◌, ◌∷◌, [], List, length, ◌+◌};
ghost use Rattle.source_meaning.specs.Sizes.{rounded_up};
ghost use Rattle.source_typing.specs.Faults.{fault, size_rule};
ghost use Rattle.source_typing.specs.Globals.{Static};
ghost use Rattle.check_faults.specs.Faults.{fault_of, faults_of};
ghost use Rattle.check_programs.specs.Totals.{counted, counted_at};
ghost use Rattle.check_programs.specs.declared.total.Total.TheVariants as variant;

use check_faults::{Fault, FaultKind};

/// The most bytes that globals and strings may have together.
const MOST_BYTES: u64 = 1048576;

/// How far a program's data is counted.
#[derive(Clone, Copy)]
pub(crate) enum Total {
    /// So many bytes.
    Bytes(u64),
    /// The object at this place passed the limit.
    Passed(u32),
}

/// Too many bytes.
fn too_large(at: u32) -> Fault
    ensures { fault_of result ≡ fault size_rule at }
{
    Fault {
        kind: FaultKind::Size,
        at,
    }
}

/// So many bytes, unless an object at this place passes the limit with them.
fn within(bytes: u64, at: u32) -> Total
    ensures { (more : List Static) → counted result more ≡ counted_at bytes at more }
{
    if bytes <= MOST_BYTES {
        Total::Bytes(bytes)
    } else {
        Total::Passed(at)
    }
}

/// The total after an object of `bytes` bytes at this position, where it was `before`.
fn added(before: u64, at: u32, bytes: u64) -> Total
    ensures { (more : List Static) → counted result more ≡ counted (variant.Bytes before) ((at, bytes) ∷ more) }
{
    match before.checked_add(bytes) {
        Some(sum) => within(sum, at),
        None => Total::Passed(at),
    }
}

impl Total {
    /// The total with an object of `bytes` bytes more, at this position.
    pub(crate) fn with(self, at: u32, bytes: u64) -> Total
        ensures { (more : List Static) → counted result more ≡ counted self ((at, bytes) ∷ more) }
    {
        match self {
            Total::Bytes(before) => added(before, at, bytes),
            Total::Passed(place) => Total::Passed(place),
        }
    }

    /// The fault of the object that passed the limit.
    pub(crate) fn fault(self) -> Option<Fault>
        ensures { faults_of result ≡ counted self [] }
    {
        match self {
            Total::Bytes(_) => None,
            Total::Passed(at) => Some(too_large(at)),
        }
    }
}

/// How many bytes a string has in the data, with its final 0, rounded up to 8.
pub(crate) fn string_bytes(text: &[u8]) -> u64
    ensures { result ≡ rounded_up (length text.now + 1) 8 }
{
    (text.len() as u64 + 8) / 8 * 8
}
