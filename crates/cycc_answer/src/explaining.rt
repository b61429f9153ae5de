// What a fault, an ending or a status means.

ghost use Rattle.std.specs.Prelude.{◌≢◌};
ghost use Rattle.cycc_answer.specs.Answers.{IsExplained};

use crate::lines::printed;
use cyc_words::Output;
use std::io::Write;

/// Prints an explanation, and answers the status.
pub fn explained<W: Output, E: Write>(text: &str, writer: &mut W, faults: &mut E) -> u8
    ensures explained { IsExplained text.now (W.contents writer.old) (W.contents writer.new) result }
    ensures other { result ≢ 8 }
{
    let succeeded = writer.write_all(text.as_bytes()).is_ok();
    printed(succeeded, faults)
}
