// What holds of all lists of calls on a store.

ghost use Rattle.arena_laws.specs.Blocks.{LiveBlocks};
ghost use Rattle.arena_laws.specs.Calls.{RefusedByCount};

/// A law, with nothing to run: over each list of calls in order on a store just made, with no want
/// of host memory, those that are Full are the ones that the count of pages by births refuses, a
/// function of the requests alone.
pub fn refused_by_count()
    ensures { RefusedByCount }
{}

/// A law, with nothing to run: after each list of calls on a store just made, an address is live
/// exactly where it lies in the room of a block that was granted, and freed neither alone nor with
/// its region or key.
pub fn live_blocks()
    ensures { LiveBlocks }
{}
