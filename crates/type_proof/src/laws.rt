// What holds of all programs that are in order.

ghost use Rattle.type_proof.specs.Programs.{NeverStuck};

/// A law, with nothing to run: a program that is in order, of any forms of the language, is never
/// stuck, on any input and with any fuel.
pub fn never_stuck()
    ensures { NeverStuck }
{}
