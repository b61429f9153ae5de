// What is known of temporaries behind an operation.

ghost use Rattle.std.specs.Prelude.{◌≡◌, ◌%◌, ◌^◌, OnOk};
ghost use Rattle.core_lines.specs.Held.{held_behind_operation};
ghost use Rattle.core_lines.specs.Selected.{holding};
ghost use Rattle.cyc_core.specs.Trees.{operation_tree};
ghost use Rattle.rv32_select.specs.Places.{surroundings};

use crate::answers::{hold_answer, hold_asked};
use crate::held::Source;
use crate::nulls::hold_null;
use crate::place::{HEAP, Place};
use cyc_core::Operation;
use std::alloc::AllocError;

/// Goes on behind an operation.
pub fn hold_behind(place: &mut Place, operation: Operation) -> Result<(), AllocError>
    ensures same { let u = surroundings place.old in OnOk result (surroundings place.new
        ≡ holding (held_behind_operation u.homes u.statics u.held (operation_tree operation)) u) }
    ensures saves { place.new.saves.items ≡ place.old.saves.items }
    ensures homes { place.new.homes.items ≡ place.old.homes.items }
{
    match operation {
        Operation::Constant(to, word) => place.held.hold(to, Source::Number(u64::from(word))),
        Operation::NullPointer(to) | Operation::HeapHandle(to) => {
            place.held.hold(to, Source::Number(HEAP))
        }
        Operation::DataAddress(to, object) => {
            let address = place.data_address(object)?;
            place.held.hold(to, Source::Number(address))
        }
        Operation::Move(to, from) => place.held.hold_moved(to, from),
        Operation::Get(_, to, variable) => {
            let (_, home) = place.local(variable);
            place.held.hold_local(to, home)
        }
        Operation::Put(width, from, variable) => {
            let (_, home) = place.local(variable);
            place.held.hold_put(width, from, home)
        }
        Operation::Store(..) => Ok(()),
        Operation::Apply(binary, to, left, right) => {
            place.held.hold_applied(binary, to, left, right)
        }
        Operation::Narrow(to, from) => place.held.hold_narrowed(to, from),
        Operation::IsNull(to, pointer) => hold_null(&mut place.held, to, pointer),
        Operation::LocalAddress(to, _)
        | Operation::OwnAddress(to, _)
        | Operation::Offset(to, _, _, _)
        | Operation::Element(to, _, _, _, _)
        | Operation::Load(to, _, _)
        | Operation::SamePlace(to, _, _) => place.held.hold_result(to),
        Operation::Getchar(to)
        | Operation::Putchar(to, _)
        | Operation::RegionNew(to)
        | Operation::KeyNew(to) => hold_answer(place, to),
        Operation::RegionFree(_)
        | Operation::UniqueFree(_)
        | Operation::KeyOpen(_)
        | Operation::KeyClose(_)
        | Operation::KeyFree(_) => {
            hold_asked(place);
            Ok(())
        }
    }
}
