// Going back over statements that have no others in them, where it is found out which results of a function are saved.

ghost use Rattle.std.specs.Prelude.{◌≡◌, true, false, [], ◌∷◌, ◌++◌, reverse, OnOk, map};
ghost use Rattle.core_lines.specs.Loaded.{unknown_in, loads_of_operation, loads_of_values};
ghost use Rattle.core_lines.specs.Saved.{cleared, all_flagged, flags_of, results_of};
ghost use Rattle.core_lines.specs.Selected.{holding, naming};
ghost use Rattle.cyc_core.specs.Trees.{operation_tree, optional_tree, temporary_tree};
ghost use Rattle.rv32_select.specs.Failures.{failure_loads};
ghost use Rattle.rv32_select.specs.Places.{surroundings};

use crate::flags::Flags;
use crate::held::Known;
use crate::loads::{
    flag_arguments, flag_both, flag_failure, flag_operation, flag_return, flag_unknown,
};
use crate::place::Place;
use crate::settling::{settle, settle_operation, settle_results};
use cyc_core::{Failure, Operation, Temporary, Words};
use std::alloc::AllocError;

/// Goes back over an operation.
pub fn live_operation(
    saves: &mut Vec<bool>,
    held: &Known,
    live: &mut Flags,
    operation: Operation,
) -> Result<(), AllocError>
    ensures saves { OnOk result (saves.new.items ≡ saves.old.items ++ reverse (flags_of live.old (results_of (operation_tree operation)))) }
    ensures live { OnOk result (live.new ≡ all_flagged true (loads_of_operation held.now (operation_tree operation))
        (all_flagged false (results_of (operation_tree operation)) live.old)) }
{
    settle_operation(saves, live, operation)?;
    flag_operation(live, held, operation)
}

/// Goes back over a request for elements of a region, as many as a temporary says.
pub fn live_request(
    saves: &mut Vec<bool>,
    held: &Known,
    live: &mut Flags,
    to: Temporary,
    handle: Temporary,
    count: Temporary,
) -> Result<(), AllocError>
    ensures saves { OnOk result (saves.new.items ≡ saves.old.items ++ reverse (flags_of live.old (to.0 ∷ []))) }
    ensures live { OnOk result (live.new ≡ all_flagged true (unknown_in held.now (handle.0 ∷ count.0 ∷ []))
        (all_flagged false (to.0 ∷ []) live.old)) }
{
    settle(saves, live, to)?;
    flag_both(live, held, handle, count)
}

/// Goes back over a call.
pub fn live_call(
    saves: &mut Vec<bool>,
    held: &Known,
    live: &mut Flags,
    results: Option<Words>,
    arguments: &[Temporary],
) -> Result<(), AllocError>
    ensures saves { OnOk result (saves.new.items ≡ saves.old.items ++ reverse (flags_of live.old (optional_tree results))) }
    ensures live { OnOk result (live.new ≡ all_flagged true (unknown_in held.now (map temporary_tree arguments.now))
        (all_flagged false (optional_tree results) live.old)) }
{
    settle_results(saves, live, results)?;
    flag_arguments(live, held, arguments)
}

/// Goes back over a check.
pub fn live_check(
    live: &mut Flags,
    held: &Known,
    test: Temporary,
    failure: Failure,
) -> Result<(), AllocError>
    ensures { OnOk result (live.new ≡ all_flagged true (unknown_in held.now (test.0 ∷ [])) (all_flagged true (failure_loads held.now failure) live.old)) }
{
    flag_failure(live, held, failure)?;
    flag_unknown(live, held, test)
}

/// Goes back over what ends a function or the program: nothing is loaded behind it.
pub fn live_end(live: &mut Flags) -> Result<(), AllocError>
    ensures { OnOk result (live.new ≡ cleared live.old) }
{
    *live = live.cleared()?;
    Ok(())
}

/// Goes back over a return.
pub fn live_return(
    place: &mut Place,
    live: &mut Flags,
    value: Option<Words>,
) -> Result<(), AllocError>
    ensures live { OnOk result (live.new ≡ all_flagged true (loads_of_values place.old.held 9 (optional_tree value)) (cleared live.old)) }
    ensures same { OnOk result (surroundings place.new ≡ holding place.new.held (naming (surroundings place.new).names (surroundings place.old))) }
    ensures homes { OnOk result (place.new.homes.items ≡ place.old.homes.items) }
{
    live_end(live)?;
    flag_return(live, place, value)
}

/// Goes back over a jump to where these are loaded.
pub fn live_jump(live: &mut Flags, there: &Flags) -> Result<(), AllocError>
    ensures { OnOk result (live.new ≡ there.now) }
{
    *live = there.copied()?;
    Ok(())
}
