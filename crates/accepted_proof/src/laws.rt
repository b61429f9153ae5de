// What holds of all programs that are accepted.

ghost use Rattle.accepted_proof.specs.Refused.{EachRuleIsNeeded};
ghost use Rattle.accepted_proof.specs.Laws.{AcceptedAreJudged, AcceptedAreLowerable, AcceptedAreNeverStuck, AcceptedHaveMain};

/// A law, with nothing to run: a program that is accepted is in order by the rules' own tables of its names.
pub fn accepted_are_judged()
    ensures { AcceptedAreJudged }
{}

/// A law, with nothing to run: lowering takes each such program.
pub fn accepted_are_lowerable()
    ensures { AcceptedAreLowerable }
{}

/// A law, with nothing to run: no such program is ever stuck, on any input and with any fuel.
pub fn accepted_are_never_stuck()
    ensures { AcceptedAreNeverStuck }
{}

/// A law, with nothing to run: the Core that such a program is lowered to has the function that it begins with.
pub fn accepted_have_main()
    ensures { AcceptedHaveMain }
{}

/// A law, with nothing to run: for each of the rules on live regions, on what outlives what, on effects, on moved and
/// on lent locals and on what can't be copied there is a program that breaks it, breaks no other, and gets stuck.
pub fn refused_get_stuck()
    ensures { EachRuleIsNeeded }
{}
