// What holds of all programs of which lowering is proved.

ghost use Rattle.source_lowering.specs.Agreeing.{ProgramsAreTheSame, FramesAreBounded, CodeIsBounded};

/// A law, with nothing to run: on each input of bytes and with each amount of fuel such a program is Stuck, or its Core
/// shows the same events, calls and returns too, and ends alike.
pub fn programs_are_the_same()
    ensures { ProgramsAreTheSame }
{}

/// A law, with nothing to run: the frame of each function of Core is within the bound on the frame of the source's function.
pub fn frames_are_bounded()
    ensures { FramesAreBounded }
{}

/// A law, with nothing to run: the code of such a program is within a bound on its text.
pub fn code_is_bounded()
    ensures { CodeIsBounded }
{}
