// Which paths lead to one file, and what an image may be written over.

use crate::texts::{parted, refuse};
use command_line::{is_replaceable, is_same_entry, is_same_file};
use std::test::Fail;

/// Whether the paths of a row lead to one file, or not, as it says.
fn is_so(rt: &HostRuntime, row: &str) -> bool {
    let (path, rest) = parted(row);
    let (other, answer) = parted(rest);
    is_same_file(rt, path, other) == (answer == "one")
}

// Two paths, and whether they lead to one regular file: links to the program that runs, another file, a device, which is written all the same,
// and a path with nothing there.
const PATHS: &str = "\
/proc/self/exe /proc/self/exe one
/proc/self/exe /proc/thread-self/exe one
/proc/self/exe /proc/self/status two
/proc/self/exe /bin/sh two
/dev/null /dev/null two
/proc/self/exe /proc/self/nothing two
/proc/self/nothing /proc/self/nothing two";

#[test]
fn links_lead_to_one_file(rt: HostRuntime) -> Result<(), Fail> {
    for row in PATHS.lines() {
        if !is_so(&rt, row) {
            return refuse(Some(row));
        }
    }
    Ok(())
}

/// Whether the paths of a row end in one name of one folder, or not, as it says.
fn is_so_of_entries(rt: &HostRuntime, row: &str) -> bool {
    let (path, rest) = parted(row);
    let (other, answer) = parted(rest);
    is_same_entry(rt, path, other) == (answer == "one")
}

// Two paths with nothing there, and whether a file written to the one would stand at the other: spellings of one path, a folder behind a link, the
// folder of the run, another name, another folder, and folders that there aren't.
const ENTRIES: &str = "\
/proc/self/nothing /proc/self/nothing one
/proc/self/nothing /proc//self/./nothing one
/tmp/nothing /tmp/../tmp/nothing one
/tmp/nothing /proc/self/root/tmp/nothing one
nothing ./nothing one
/nothing /proc/../nothing one
/tmp/nothing /tmp/other two
/tmp/nothing /proc/nothing two
/nowhere/nothing /nowhere/nothing two";

#[test]
fn spellings_of_a_path_are_one_entry(rt: HostRuntime) -> Result<(), Fail> {
    for row in ENTRIES.lines() {
        if !is_so_of_entries(&rt, row) {
            return refuse(Some(row));
        }
    }
    Ok(())
}

/// Whether an image that begins so may be written over a path's file, or not, as a row says.
fn is_so_of_output(rt: &HostRuntime, row: &str) -> bool {
    let (path, rest) = parted(row);
    let (image, answer) = parted(rest);
    is_replaceable(rt, path, image.as_bytes()) == (answer == "written")
}

// A path, how an image begins, and whether it may be written over the path's file: the program that runs, which begins as the first image does and
// as the others don't; a device, an empty file, and a path with nothing there.
const OUTPUTS: &str = "\
/proc/self/exe \x7fELF. written
/proc/self/exe CYI1. kept
/proc/self/exe \x7fEL kept
/dev/null CYI1. written
/proc/self/status CYI1. written
/proc/self/nothing CYI1. written";

#[test]
fn other_files_are_kept(rt: HostRuntime) -> Result<(), Fail> {
    for row in OUTPUTS.lines() {
        if !is_so_of_output(&rt, row) {
            return refuse(Some(row));
        }
    }
    Ok(())
}
