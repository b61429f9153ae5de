// What holds of all runs.

ghost use Rattle.stack_proof.specs.Laws.{CutsAreRequests, NeverOutOfStack, RoomIsPages, StackSuffices};

/// A law, with nothing to run: where `main` fits so many bytes, the frames of the functions that are active at a call and that
/// of the called one fit them too, at each call that is seen, on each input and with each amount of fuel. It holds of every
/// program, accepted or not, and of every bound on frames.
pub fn stack_suffices()
    ensures { StackSuffices }
{}

/// A law, with nothing to run: a machine that does what a program means is never out of stack, where `main` fits its stack.
pub fn never_out_of_stack()
    ensures { NeverOutOfStack }
{}

/// A law, with nothing to run: where `main` fits the stack, there is room for a run's events if there are pages for them.
pub fn room_is_pages()
    ensures { RoomIsPages }
{}

/// A law, with nothing to run: where `main` fits the stack, what was cut for want of room was cut at a request of the store.
pub fn cuts_are_requests()
    ensures { CutsAreRequests }
{}
