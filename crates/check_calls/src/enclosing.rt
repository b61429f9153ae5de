// The `rnew` around a call.

use cyc_types::RegionId;

/// The region that a call's region variables become if no argument instantiates them: that of the innermost enclosing `rnew`.
#[derive(Clone, Copy)]
pub enum Enclosing {
    /// The region of a handle, or the heap if there is no `rnew`.
    In(RegionId),
    /// The unique region, which no variable may be.
    Unique,
    /// The region of a handle that has a fault or isn't known.
    NotKnown,
}
