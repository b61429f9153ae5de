// Which results are saved: those whose temporaries' slots are loaded behind them.

ghost use Rattle.std.specs.Prelude.{◌≡◌, false, [], ◌∷◌, ◌++◌, reverse, OnOk};
ghost use Rattle.core_lines.specs.Homes.{flag_at};
ghost use Rattle.core_lines.specs.Saved.{flagged, all_flagged, flags_of, results_of};
ghost use Rattle.cyc_core.specs.Trees.{operation_tree, optional_tree};

use crate::flags::Flags;
use crate::results::result_of;
use cyc_core::{Operation, Temporary, Words};
use std::alloc::AllocError;

/// Appends whether a result is saved. Before it its temporary's slot isn't loaded.
pub fn settle(saves: &mut Vec<bool>, live: &mut Flags, to: Temporary) -> Result<(), AllocError>
    ensures saves { OnOk result (saves.new.items ≡ saves.old.items ++ flag_at live.old to.0 ∷ []) }
    ensures live { OnOk result (live.new ≡ flagged false to.0 live.old) }
{
    saves.push(live.flag(to))?;
    live.set(to, false)
}

/// The same of an operation's result, if it has one.
pub fn settle_operation(
    saves: &mut Vec<bool>,
    live: &mut Flags,
    operation: Operation,
) -> Result<(), AllocError>
    ensures saves { OnOk result (saves.new.items ≡ saves.old.items ++ reverse (flags_of live.old (results_of (operation_tree operation)))) }
    ensures live { OnOk result (live.new ≡ all_flagged false (results_of (operation_tree operation)) live.old) }
{
    match result_of(operation) {
        Some(to) => settle(saves, live, to),
        None => Ok(()),
    }
}

/// The same of three results, the last one's flag first.
fn settle_three(
    saves: &mut Vec<bool>,
    live: &mut Flags,
    first: Temporary,
    count: Temporary,
    index: Temporary,
) -> Result<(), AllocError>
    ensures saves { OnOk result (saves.new.items ≡ saves.old.items ++ reverse (flags_of live.old (first.0 ∷ count.0 ∷ index.0 ∷ []))) }
    ensures live { OnOk result (live.new ≡ all_flagged false (first.0 ∷ count.0 ∷ index.0 ∷ []) live.old) }
{
    let loaded_first = live.flag(first);
    let loaded_count = live.flag(count);
    let loaded_index = live.flag(index);
    live.set(first, false)?;
    live.set(count, false)?;
    live.set(index, false)?;
    saves.extend_from_slice(&[loaded_index, loaded_count, loaded_first])
}

/// The same of a call's results.
pub fn settle_results(
    saves: &mut Vec<bool>,
    live: &mut Flags,
    results: Option<Words>,
) -> Result<(), AllocError>
    ensures saves { OnOk result (saves.new.items ≡ saves.old.items ++ reverse (flags_of live.old (optional_tree results))) }
    ensures live { OnOk result (live.new ≡ all_flagged false (optional_tree results) live.old) }
{
    match results {
        Some(Words::One(to)) => settle(saves, live, to),
        Some(Words::Three(first, count, index)) => settle_three(saves, live, first, count, index),
        None => Ok(()),
    }
}
