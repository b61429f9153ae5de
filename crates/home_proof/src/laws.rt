// Where the names of accepted programs live.

ghost use Rattle.home_proof.specs.Laws.{HomesAreOfNames};

/// A law, with nothing to run: of each function of a program that is accepted, the registers of its locals, in the order of
/// the text, are those that the rule for the names of the source gives.
pub fn homes_are_of_names()
    ensures { HomesAreOfNames }
{}
