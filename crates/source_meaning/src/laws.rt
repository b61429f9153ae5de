// What holds of all runs.

ghost use Rattle.source_meaning.specs.Laws.{StaysOver, OnlyGrows, EndsAtOnce};

/// A law, with nothing to run: more fuel changes no run that was over.
pub fn stays_over()
    ensures { StaysOver }
{}

/// A law, with nothing to run: with more fuel, what was seen with less is seen first.
pub fn only_grows()
    ensures { OnlyGrows }
{}

/// A law, with nothing to run: a raise ends a run at once, and no region is left.
pub fn ends_at_once()
    ensures { EndsAtOnce }
{}
