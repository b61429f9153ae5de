// What holds of all programs that lowering takes.

ghost use Rattle.compile_proof.specs.Laws.{AllLowerableDo, AllAcceptedDo};

/// A law, with nothing to run: of each program that lowering takes and in which no two functions have one name, a
/// machine that begins with lines of its lowered Core, whichever they are, and its data does what the source does, on
/// each input of bytes on which the source is never stuck, and whatever the machine's store answers; and the bound on
/// the lines' bytes is within the bound on the text's code.
pub fn lowerable_do()
    ensures { AllLowerableDo }
{}

/// A law, with nothing to run: of each program that is accepted, and whose unions have no more members than a word
/// counts, `lowerable_do` holds, its data are numbers that fit their places and pointers into the data, and they take no
/// more bytes than the data of an image may.
pub fn accepted_do()
    ensures { AllAcceptedDo }
{}
