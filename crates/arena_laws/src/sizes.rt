// Where the arena begins, how large a page is, and the rooms that blocks take.

ghost use Rattle.std.specs.Prelude.{◌≡◌, ◌<◌, ◌≤◌};
ghost use Rattle.arena_laws.specs.Counts.{block_limit, class_of, room_of, run_of};

/// The arena's first address.
pub const BASE: u32 = 0x1000_0000;

/// The bytes of a page of the arena.
pub const PAGE: u32 = 4096;

/// The most bytes of a region's block.
pub const LIMIT: u32 = 0x10_0000;

/// The bytes that a region's block takes, for the bytes asked for: these rounded up to a multiple of
/// 8, and 8 for none. Above 1,048,576 there is no block, and the answer is 0.
pub fn room_for(bytes: u32) -> u32
    ensures room { bytes ≤ block_limit → result ≡ room_of bytes }
    ensures none { block_limit < bytes → result ≡ 0 }
{
    match bytes {
        0 => 8,
        1..=LIMIT => (bytes + 7) / 8 * 8,
        _ => 0,
    }
}

/// The pages of a large block's run, for the bytes of its room.
pub fn run_for(room: u32) -> u32
    requires { room ≤ block_limit }
    ensures { result ≡ run_of room }
{
    (room + 4095) / PAGE
}

/// The bytes of a unique block's slot, for the bytes asked for: the smallest class that holds them,
/// and 4,096 where none does.
pub fn class_for(bytes: u32) -> u32
    ensures { result ≡ class_of bytes }
{
    match bytes {
        0..=32 => 32,
        33..=64 => 64,
        65..=128 => 128,
        129..=256 => 256,
        257..=512 => 512,
        513..=1024 => 1024,
        1025..=2048 => 2048,
        _ => 4096,
    }
}
