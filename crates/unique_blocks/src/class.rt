// The places of the classes of unique blocks.

ghost use Rattle.std.specs.Prelude.{◌≡◌, ◌<◌};
ghost use Rattle.unique_blocks.specs.Slots.{place_of};

/// The place, among the eight classes, of the smallest one that holds `bytes` bytes.
pub(crate) fn place_for(bytes: u32) -> usize
    ensures place { result ≡ place_of bytes }
    ensures few { result < 8 }
{
    match bytes {
        0..=32 => 0,
        33..=64 => 1,
        65..=128 => 2,
        129..=256 => 3,
        257..=512 => 4,
        513..=1024 => 5,
        1025..=2048 => 6,
        _ => 7,
    }
}
