// What a command is answered.

ghost use Rattle.std.specs.Prelude.{◌≡◌, ◌+◌, IfOk, true};
ghost use Rattle.std.specs.Option.{option_map};
ghost use Rattle.cyc_lexer.specs.Lexing.{text_limit};
ghost use Rattle.cyc_image.specs.Format.{header_length, code_limit, data_limit};
ghost use Rattle.cycc_answer.specs.Commands.{IsAnswered, longest};
ghost use Rattle.cycc_answer.specs.Devices.{AreCounted, runs};

use crate::explaining::explained;
use crate::images::{dump, exec};
use crate::lines::Told;
use crate::result::Answer;
use crate::sources::{checked, compiled, interpreted, ran};
use crate::stacks::told_of_stack;
use crate::watching::ran_watched;
use command_line::Command;
use core_eval::Bounds;
use cyc_words::{Input, Output};
use cycc_driver::Limits;
use std::alloc::{AllocError, Global};
use std::io::Write;

/// The most bytes of a source that are read: one more than a text may have.
const SOURCE_BYTES: u64 = 1048577;

/// The most bytes of an image that are read: one more than an image may have.
const IMAGE_BYTES: u64 = 2097181;

/// The most bytes of a command's file that are read: one more than a text, or an image, may have. Where it reads no file, none
/// counts as an empty one.
pub fn longest_file(command: &Command<'_>) -> u64
    ensures { result ≡ longest command.now + 1 }
{
    match command {
        Command::Check { .. }
        | Command::Compile { .. }
        | Command::Run { .. }
        | Command::Eval { .. }
        | Command::Stack { .. } => SOURCE_BYTES,
        Command::Exec { .. } | Command::Dump { .. } => IMAGE_BYTES,
        Command::Explain { .. } => 1,
    }
}

/// Answers a command on the bytes of its file: what is written, what is said on standard error, the exit status, and the
/// bytes for OUT with the map. An Err is an allocation that failed: status 7. What a run had written by then stays written.
pub fn answer<R: Input, W: Output, E: Write>(
    alloc: Global,
    command: &Command<'_>,
    file: &[u8],
    reader: &mut R,
    writer: &mut W,
    faults: &mut E,
) -> Result<Answer, AllocError>
    // the status says how the command ended, and there is an image exactly where a `compile` succeeded
    ensures answer { IfOk result (λ a. IsAnswered command.now file.now
        (R.remaining reader.old) (R.remaining reader.new) (W.contents writer.old) (W.contents writer.new)
        (option_map (λ bytes. bytes.items) a.image) a.status) }
    // a refusal leaves the reader and the writer as they were
    ensures untouched { IfOk result (λ a. a.status ≡ 8 → (reader.new ≡ reader.old) × (writer.new ≡ writer.old)) }
    // of a run: where the status is 6 just one call of one device failed, and at every other status none
    ensures devices { runs command.now ≡ true → IfOk result (λ a. AreCounted a.status
        (R.fault_count reader.old) (R.fault_count reader.new) (W.fault_count writer.old) (W.fault_count writer.new)) }
{
    let told = Told::of(command);
    match *command {
        Command::Check { .. } => Ok(Answer::plain(checked(alloc, told, file, writer, faults)?)),
        Command::Compile {
            map,
            pages,
            stack_pages,
            ..
        } => {
            let has_map = map.is_some();
            compiled(alloc, told, pages, stack_pages, has_map, file, faults)
        }
        Command::Run {
            pages,
            stack_pages,
            steps,
            ..
        } => {
            let limits = Limits {
                pages: pages.number(),
                steps,
                stack_pages: stack_pages.number(),
            };
            if told.is_watched() {
                return Ok(Answer::plain(ran_watched(
                    alloc, told, limits, file, reader, writer, faults,
                )?));
            }
            Ok(Answer::plain(ran(alloc, told, limits, file, reader, writer, faults)?))
        }
        Command::Eval {
            fuel,
            depth,
            memory,
            ..
        } => {
            let bounds = Bounds {
                calls: depth,
                bytes: memory,
            };
            Ok(Answer::plain(interpreted(alloc, told, fuel, bounds, file, reader, writer, faults)?))
        }
        Command::Stack { .. } => {
            Ok(Answer::plain(told_of_stack(alloc, told, file, writer, faults)?))
        }
        Command::Exec { steps, .. } => {
            Ok(Answer::plain(exec(alloc, told, steps, file, reader, writer, faults)?))
        }
        Command::Dump { input } => Ok(Answer::plain(dump(alloc, input, file, writer, faults)?)),
        Command::Explain { text } => Ok(Answer::plain(explained(text, writer, faults))),
    }
}
