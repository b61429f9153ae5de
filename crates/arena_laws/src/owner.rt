// Whose a live address is.

/// Whose a live address is.
#[derive(Clone, Copy, Drop)]
pub enum Owner {
    /// The region's or key's with this number (the heap's is 0).
    Region(u32),
    /// The unique block's that begins at an address, and the bytes of its room.
    Alone(u32, u32),
}
