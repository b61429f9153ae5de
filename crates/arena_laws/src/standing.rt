// What a live number stands for.

/// What a live number stands for.
#[derive(Clone, Copy, Drop)]
pub enum Standing {
    /// A lexical region, by its handle.
    Lexical,
    /// A key that is open: its number is a handle too.
    Opened,
    /// A key that is closed: its number is no handle.
    Closed,
}
