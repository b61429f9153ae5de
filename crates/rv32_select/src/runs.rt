// Flags in runs of those that are alike.

ghost use Rattle.std.specs.Prelude.{◌≡◌, ◌+◌, ◌≤◌, ◌++◌, ◌||◌, true, Bool, List, IfOk, OnOk, length, replicate, reverse};
ghost use Rattle.core_lines.specs.Homes.{flag_at};
ghost use Rattle.core_lines.specs.Saved.{cleared, either_flagged, flagged};
ghost use Rattle.rv32_select.specs.Runs.{flags_in, run_flags, set_at};

use std::alloc::{AllocError, Global};

/// So many flags in turn that are alike.
#[derive(Clone, Copy)]
pub struct Run {
    /// How many they are.
    pub count: usize,
    /// What each of them is.
    pub value: bool,
}

/// How many flags two runs have together. Fails where no word says it: no memory has that many temporaries.
fn together(first: usize, second: usize) -> Result<usize, AllocError>
    ensures { IfOk result (λ n. n ≡ first + second) }
{
    match first.checked_add(second) {
        Some(both) => Ok(both),
        None => Err(AllocError),
    }
}

/// Whether two flags are alike.
#[tactic(auto, using(crate::proofs::Running::both_true, crate::proofs::Running::not_both))]
fn are_alike(first: bool, second: bool) -> bool
    ensures { result ≡ true → first ≡ second }
{
    if first { second } else { !second }
}

/// Whether one of two flags is true.
fn is_either(first: bool, second: bool) -> bool
    ensures { result ≡ (first || second) }
{
    first || second
}

/// Appends a run.
fn push_run(runs: &mut Vec<Run>, count: usize, value: bool) -> Result<(), AllocError>
    ensures { OnOk result (flags_in runs.new.items ≡ flags_in runs.old.items ++ replicate count value) }
{
    runs.push(Run { count, value })?;
    Ok(())
}

/// Appends a run and flags behind it, which are one run if they are alike.
#[tactic(auto, using(crate::proofs::Running::one_run, crate::proofs::Running::two_runs))]
fn put_behind(runs: &mut Vec<Run>, last: Run, count: usize, value: bool) -> Result<(), AllocError>
    ensures { OnOk result (flags_in runs.new.items ≡ (flags_in runs.old.items ++ run_flags last) ++ replicate count value) }
{
    if are_alike(last.value, value) {
        let both = together(last.count, count)?;
        push_run(runs, both, value)?;
    } else {
        push_run(runs, last.count, last.value)?;
        push_run(runs, count, value)?;
    }
    Ok(())
}

/// Appends so many flags that are alike.
#[tactic(auto, using(crate::proofs::Running::none_put, crate::proofs::Running::put_last, crate::proofs::Running::put_first))]
pub fn put_run(runs: &mut Vec<Run>, count: usize, value: bool) -> Result<(), AllocError>
    ensures { OnOk result (flags_in runs.new.items ≡ flags_in runs.old.items ++ replicate count value) }
{
    if count == 0 {
        return Ok(());
    }
    match runs.pop() {
        Some(last) => put_behind(runs, last, count, value),
        None => push_run(runs, count, value),
    }
}

/// Appends a run with one flag of it set.
fn put_set(runs: &mut Vec<Run>, run: Run, number: usize, value: bool) -> Result<(), AllocError>
    requires { number + 1 ≤ run.count }
    ensures { OnOk result (flags_in runs.new.items ≡ flags_in runs.old.items ++ flagged value number (run_flags run)) }
{
    put_run(runs, number, run.value)?;
    put_run(runs, 1, value)?;
    put_run(runs, run.count - number - 1, run.value)?;
    Ok(())
}

/// Appends a run, with a flag of it set if it has the flag of this number. Answers the flag's number among those behind the run if it hasn't.
fn put_next(
    runs: &mut Vec<Run>,
    run: Run,
    number: Option<usize>,
    value: bool,
) -> Result<Option<usize>, AllocError>
    ensures { (rest : List Bool) → IfOk result (λ further. flags_in runs.new.items ++ set_at value further rest
        ≡ flags_in runs.old.items ++ set_at value number (run_flags run ++ rest)) }
{
    match number {
        Some(number) if number < run.count => {
            put_set(runs, run, number, value)?;
            Ok(None)
        }
        Some(number) => {
            put_run(runs, run.count, run.value)?;
            Ok(Some(number - run.count))
        }
        None => {
            put_run(runs, run.count, run.value)?;
            Ok(None)
        }
    }
}

/// Runs with the flag of a number set, if they have it.
pub fn with_set(
    alloc: Global,
    runs: &[Run],
    number: usize,
    value: bool,
) -> Result<Vec<Run>, AllocError>
    ensures { IfOk result (λ set. flags_in set.items ≡ flagged value number (flags_in runs.now)) }
{
    let mut set = Vec::new(alloc);
    let mut left = Some(number);
    'each: for run in runs {
        left = put_next(&mut set, *run, left, value)?;
    }
    Ok(set)
}

/// The flag of a number, which is false where there is none.
pub fn flag_in(runs: &[Run], number: usize) -> bool
    ensures { result ≡ flag_at (flags_in runs.now) number }
{
    let mut left = number;
    'each: for run in runs {
        if left < run.count {
            return run.value;
        }
        left -= run.count;
    }
    false
}

/// As many flags, all of which are false.
pub fn all_cleared(alloc: Global, runs: &[Run]) -> Result<Vec<Run>, AllocError>
    ensures { IfOk result (λ none. flags_in none.items ≡ cleared (flags_in runs.now)) }
{
    let mut none = Vec::new(alloc);
    'each: for run in runs {
        put_run(&mut none, run.count, false)?;
    }
    Ok(none)
}

/// Runs, the last one first.
fn turned(alloc: Global, runs: &[Run]) -> Result<Vec<Run>, AllocError>
    ensures { IfOk result (λ turned. turned.items ≡ reverse runs.now) }
{
    let mut turned = Vec::new(alloc);
    turned.extend_from_slice(runs)?;
    turned.reverse();
    Ok(turned)
}

/// Takes the longer one of two runs, with what the other hasn't left of it, back to those that it begins. Appends what is true in one or the other.
fn put_pair(
    runs: &mut Vec<Run>,
    first: &mut Vec<Run>,
    second: &mut Vec<Run>,
    one: Run,
    other: Run,
) -> Result<(), AllocError>
    ensures flags { OnOk result (flags_in runs.new.items ++ either_flagged (flags_in (reverse first.new.items)) (flags_in (reverse second.new.items))
        ≡ flags_in runs.old.items ++ either_flagged (run_flags one ++ flags_in (reverse first.old.items))
        (run_flags other ++ flags_in (reverse second.old.items))) }
    ensures fewer { OnOk result (length first.new.items + length second.new.items ≤ length first.old.items + length second.old.items + 1) }
{
    let value = is_either(one.value, other.value);
    if one.count <= other.count {
        put_run(runs, one.count, value)?;
        second.push(Run {
            count: other.count - one.count,
            value: other.value,
        })?;
    } else {
        put_run(runs, other.count, value)?;
        first.push(Run {
            count: one.count - other.count,
            value: one.value,
        })?;
    }
    Ok(())
}

/// Appends runs that are there with the last one first.
#[tactic(auto, using(crate::proofs::Running::turned_more))]
fn put_turned(runs: &mut Vec<Run>, turned: Vec<Run>) -> Result<(), AllocError>
    ensures { OnOk result (flags_in runs.new.items ≡ flags_in runs.old.items ++ flags_in (reverse turned.items)) }
{
    let mut left = turned;
    'each: while let Some(run) = left.pop() {
        put_run(runs, run.count, run.value)?;
    }
    Ok(())
}

/// Of each number, whether one of its two flags is true.
#[tactic(auto, using(crate::proofs::Running::taken_both))]
pub fn either_of(alloc: Global, first: &[Run], second: &[Run]) -> Result<Vec<Run>, AllocError>
    ensures { IfOk result (λ both. flags_in both.items ≡ either_flagged (flags_in first.now) (flags_in second.now)) }
{
    let mut both = Vec::new(alloc);
    let mut ones = turned(alloc, first)?;
    let mut others = turned(alloc, second)?;
    'each: while let Some(one) = ones.pop() {
        match others.pop() {
            Some(other) => put_pair(&mut both, &mut ones, &mut others, one, other)?,
            None => put_run(&mut both, one.count, one.value)?,
        }
    }
    put_turned(&mut both, others)?;
    Ok(both)
}

/// Appends so many flags that are alike, one by one.
fn put_alike(flags: &mut Vec<bool>, count: usize, value: bool) -> Result<(), AllocError>
    ensures { OnOk result (flags.new.items ≡ flags.old.items ++ replicate count value) }
{
    'each: for _ in 0..count {
        flags.push(value)?;
    }
    Ok(())
}

/// Appends the flags of runs, one by one.
pub fn put_flags(flags: &mut Vec<bool>, runs: &[Run]) -> Result<(), AllocError>
    ensures { OnOk result (flags.new.items ≡ flags.old.items ++ flags_in runs.now) }
{
    'each: for run in runs {
        put_alike(flags, run.count, run.value)?;
    }
    Ok(())
}
