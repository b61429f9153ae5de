// What holds of all programs of Core.

ghost use Rattle.core_lines.specs.Laws.{LinesDoAsCore};

/// A law, with nothing to run: a machine that begins with the lines of a program of Core does what the
/// program does, on each input of bytes on which the program is never out of order, and whatever the
/// machine's store answers; and the lines take at most the bytes that the program's operations count for.
pub fn lines_do_as_core()
    ensures { LinesDoAsCore }
{}
