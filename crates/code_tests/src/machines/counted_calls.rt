// Flushes, which never count, whether they fail or not, and writes that take nothing.

use crate::devices::Tape;
use cyc_words::{Counted, Output};
use std::io::Write;

/// Whether a flush is what it is inside, and counts nothing, nor a write of nothing; and a write of a byte that isn't taken counts.
fn are_counted(output: &mut Counted<Tape>) -> bool {
    let is_flushed = output.flush().is_ok();
    let nothing = output.send(b"").ok();
    let is_lost = output.flush().is_err();
    let uncounted = output.faults();
    let byte = output.send(b"a").ok();
    let taken = (nothing, byte) == (Some(0), Some(0));
    is_flushed && is_lost && taken && (uncounted, output.faults()) == (0, 1)
}

#[test]
fn a_flush_never_counts(rt: HostRuntime) {
    let mut output = Counted::new(Tape::stumbling("0 0 fails"));
    let are_right = are_counted(&mut output);
    assert!(rt; are_right);
}
