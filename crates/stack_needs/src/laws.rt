// What holds of all runs.

ghost use Rattle.stack_needs.specs.Laws.{AnsweredStackSuffices};

/// A law, with nothing to run: where `stack_needs` answers a number of bytes below the greatest, a machine that begins with the
/// program's lines and has so much stack is never out of stack.
pub fn answered_stack_suffices()
    ensures { AnsweredStackSuffices }
{}
