// What holds of the Core of all programs that lowering takes.

ghost use Rattle.selectable_proof.specs.Laws.{LoweredAreSelectable};

/// A law, with nothing to run: the numbers in the Core of each such program name what there is, and the parts of its
/// objects lie apart.
pub fn lowered_are_selectable()
    ensures { LoweredAreSelectable }
{}
