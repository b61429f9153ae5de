// Tables, and the parts of their rows: which parts an image may have, or what a machine does.

use crate::machines::images::{LIMITS, are_limits};
use crate::machines::machine::{STEPS, is_done};
use crate::machines::runs::RUNS;
use std::alloc::Global;
use std::test::Fail;

/// A number in hexadecimal, or one that no row has where a text is none.
pub fn hex(text: &str) -> u32 {
    u32::from_str_radix(text, 16).unwrap_or(0xdead_beef)
}

/// Whether it is so what a row says; behind ` <- ` stands of what a machine is made.
fn holds(alloc: Global, row: &'static str) -> Result<bool, Fail> {
    match row.split_once(" <- ") {
        None => Ok(are_limits(alloc, row)?),
        Some((said, image)) => is_done(alloc, said, image),
    }
}

/// Refuses a table with a row that isn't so.
fn expect(alloc: Global, table: &'static str) -> Result<(), Fail> {
    for row in table.lines() {
        if !holds(alloc, row)? {
            return Err(Fail::new(row));
        }
    }
    Ok(())
}

const TABLES: [&str; 3] = [LIMITS, STEPS, RUNS];

#[test]
fn images_and_machines_are_as_rows_say(rt: HostRuntime) -> Result<(), Fail> {
    for table in TABLES.iter() {
        expect(rt.alloc(), table)?;
    }
    Ok(())
}
