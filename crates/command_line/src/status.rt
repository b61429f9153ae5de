// Exit statuses.

ghost use Rattle.std.specs.Prelude.{◌≡◌, ◌≢◌};
ghost use Rattle.clap.specs.Words.{kind_of};

use clap::Error;
use clap::error::ErrorKind;

/// The run ended with status 0, or the command succeeded.
pub const SUCCESS: u8 = 0;
/// The run ended with another status.
pub const ENDED: u8 = 1;
/// A check of the source failed at run time.
pub const RAISED: u8 = 2;
/// The store or the stack had no room.
pub const EXHAUSTED: u8 = 3;
/// The given number of steps was made, or the units of fuel are used up.
pub const STEP_LIMIT: u8 = 4;
/// The machine stopped at a fault, or an evaluation was stuck.
pub const MACHINE_FAULT: u8 = 5;
/// A file, the input or the output failed.
pub const FILE_FAULT: u8 = 6;
/// No host memory is left.
pub const MEMORY: u8 = 7;
/// The source or the image was refused.
pub const REFUSED: u8 = 8;
/// The arguments are wrong.
pub const USAGE: u8 = 9;

/// The status of words that are no command: `SUCCESS` where help was asked for, `MEMORY` where none is left, else `USAGE`.
pub fn usage_status(error: &Error) -> u8
    ensures help { kind_of error.now ≡ ErrorKind.DisplayHelp → result ≡ 0 }
    ensures memory { kind_of error.now ≡ ErrorKind.OutOfMemory → result ≡ 7 }
    ensures usage { kind_of error.now ≢ ErrorKind.DisplayHelp → kind_of error.now ≢ ErrorKind.OutOfMemory → result ≡ 9 }
{
    match error.kind() {
        ErrorKind::DisplayHelp => SUCCESS,
        ErrorKind::OutOfMemory => MEMORY,
        _ => USAGE,
    }
}
