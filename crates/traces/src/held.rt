// What the active functions of a run held, as words: for whoever knows by a map where their names live.

use crate::told::shown_of;
use cyc_host::Watch;
use std::alloc::{AllocError, Global};

/// How many words of a frame are told.
const WORDS: u32 = 1024;

/// An active function: the address that it had come to, where its frame begins, and what its registers held.
#[derive(Clone, Copy)]
struct Stand<'a> {
    at: u32,
    stack: u32,
    homes: &'a [u32],
}

/// Appends words.
fn push_words(alloc: Global, line: &mut String, words: &[u32]) -> Result<(), AllocError> {
    for word in words {
        let word = *word;
        let word = format!(in alloc; " {word:08x}")?;
        line.push_str(word.as_str())?;
    }
    Ok(())
}

/// Appends the words of a frame that ends at an address.
fn push_frame(
    alloc: Global,
    line: &mut String,
    watch: &Watch,
    stack: u32,
    end: u32,
) -> Result<(), AllocError> {
    let words = (end.wrapping_sub(stack) / 4).min(WORDS);
    for number in 0..words {
        let address = stack.wrapping_add(number.wrapping_mul(4));
        let word = watch.frame_word(address).unwrap_or(0);
        let word = format!(in alloc; " {word:08x}")?;
        line.push_str(word.as_str())?;
    }
    Ok(())
}

/// Appends the line of an active function: the address that it had come to, where its frame begins, the first words that were passed to it, what the registers
/// held in which names live, and the words of its frame.
fn push_stand(
    alloc: Global,
    lines: &mut String,
    watch: &Watch,
    stand: Stand<'_>,
    passed: &[u32],
    end: u32,
) -> Result<(), AllocError> {
    let Stand { at, stack, homes } = stand;
    let mut line = format!(in alloc; "held {at:08x} {stack:08x}")?;
    push_words(alloc, &mut line, passed)?;
    push_words(alloc, &mut line, homes)?;
    push_frame(alloc, &mut line, watch, stack, end)?;
    line.push_str("\n")?;
    lines.push_str(line.as_str())
}

/// The lines of the active functions, the innermost first: of that, where its call is known, and of those that make the calls that are shown.
pub fn held_lines(alloc: Global, watch: &Watch) -> Result<String, AllocError> {
    let mut lines = String::new(alloc);
    let active = watch.active();
    let (first, left_out) = shown_of(active.len());
    let mut stand = Stand {
        at: watch.last().pc,
        stack: watch.last().stack,
        homes: watch.homes(),
    };
    for (number, call) in active.iter().rev().enumerate() {
        let is_shown = number <= first || number > first.saturating_add(left_out);
        let is_known = number > 0 || watch.unkept() == 0;
        if is_shown && is_known {
            push_stand(alloc, &mut lines, watch, stand, &call.passed, call.stack)?;
        }
        stand = Stand {
            at: call.at,
            stack: call.stack,
            homes: &call.homes,
        };
    }
    Ok(lines)
}
