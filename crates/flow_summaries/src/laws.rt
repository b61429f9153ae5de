// What holds of the flow of all phrases and programs.

ghost use Rattle.flow_summaries.specs.Laws.{ExpressionsDoAsTold, FlowIsPassed, LoopsTurnOnce, StatementsLeaveAsTold};

/// A law, with nothing to run: if the iterations of a loop have the same effects from any states of
/// the locals, these effects give the states at its head in one step.
pub fn loops_turn_once()
    ensures { LoopsTurnOnce }
{}

/// A law, with nothing to run: from any states of the locals, each expression leaves the states that
/// its passages say, and has the earliest fault that they say, in each way in which it is used.
pub fn expressions_do_as_told()
    ensures { ExpressionsDoAsTold }
{}

/// A law, with nothing to run: from any states of the locals, each statement has the ways out that its
/// exits say, in the states that they say, and the earliest fault that they say.
pub fn statements_leave_as_told()
    ensures { StatementsLeaveAsTold }
{}

/// A law, with nothing to run: the earliest fault of flow of a program, also of one with other faults,
/// is that which is found from what each of its phrases does to the locals.
pub fn flow_is_passed()
    ensures { FlowIsPassed }
{}
