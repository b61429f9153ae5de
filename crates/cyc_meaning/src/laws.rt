// What holds of each checked program.

ghost use Rattle.std.specs.Prelude.{◌≢◌, ℕ, List};
ghost use Rattle.cyc_words.specs.Events.{SourceEnding};
ghost use Rattle.source_meaning.specs.Programs.{source};

use accepted_programs::Checked;

/// No run of a checked program is out of order, on any input and with any amount of fuel. The call does nothing.
pub fn never_stuck(checked: &Checked)
    ensures { (input : List ℕ) (n : ℕ) → (source checked.now input n).ending ≢ SourceEnding.Stuck }
{
    // a checked program is an accepted one
    checked.program();
}
