// Runs over a plain store, which are those of `cycc` over a paged one.

use crate::answers::{Found, found_between};
use crate::devices::Given;
use command_line::Command;
use cyc_arena::PlainStore;
use cyc_host::run;
use cyc_image::{Image, load};
use cycc_answer::ended;
use cycc_driver::compile;
use rv32_machine::Machine;
use std::alloc::{AllocError, Global};

/// How far an image is run, and what is told of it: its ending, and where it ended, which is told of no source.
#[derive(Clone, Copy)]
struct Told {
    steps: u64,
    shows_ending: bool,
    shows_place: bool,
}

/// How the run of an image ends, and what it writes.
fn image_run(
    alloc: Global,
    image: &Image,
    given: Given<'_>,
    told: Told,
) -> Result<Found, AllocError> {
    let Ok(store) = PlainStore::new(alloc, image.pages()) else {
        return Err(AllocError);
    };
    let Ok(mut machine) = Machine::new(alloc, image, store) else {
        return Err(AllocError);
    };
    let mut reader = given.reader();
    let mut writer = given.writer(alloc);
    let mut said = Vec::new(alloc);
    let ending = run(&mut machine, &mut reader, &mut writer, told.steps);
    let place = told.shows_place.then_some(machine.pc());
    let status = ended(alloc, ending, place, told.shows_ending, &mut said)?;
    found_between(status, None, reader, writer, said)
}

/// The same of the image that bytes are, or none where they are no image.
fn bytes_run(
    alloc: Global,
    bytes: &[u8],
    given: Given<'_>,
    told: Told,
) -> Result<Option<Found>, AllocError> {
    match load(alloc, bytes) {
        Ok(image) => Ok(Some(image_run(alloc, &image, given, told)?)),
        Err(_) => Ok(None),
    }
}

/// What a command answers that runs an image, where the run is over a plain store; none of another command, of a run that is watched, and
/// where nothing runs.
pub fn run_over_plain(
    alloc: Global,
    command: &Command<'_>,
    source: &[u8],
    given: Given<'_>,
) -> Result<Option<Found>, AllocError> {
    match *command {
        Command::Run {
            pages,
            stack_pages,
            steps,
            shows_ending,
            shows_where: false,
            shows_values: false,
            shows_stats: false,
            shows_counts: false,
            ..
        } => match compile(alloc, source, pages.number(), stack_pages.number()) {
            Ok(bytes) => {
                let told = Told {
                    steps,
                    shows_ending,
                    shows_place: false,
                };
                bytes_run(alloc, &bytes, given, told)
            }
            Err(_) => Ok(None),
        },
        Command::Exec {
            steps,
            shows_ending,
            shows_where: false,
            shows_stats: false,
            shows_counts: false,
            ..
        } => {
            let told = Told {
                steps,
                shows_ending,
                shows_place: true,
            };
            bytes_run(alloc, source, given, told)
        }
        _ => Ok(None),
    }
}
