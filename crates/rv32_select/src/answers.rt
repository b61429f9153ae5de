// What is known of temporaries behind a call of the environment.

ghost use Rattle.std.specs.Prelude.{◌≡◌, OnOk};
ghost use Rattle.core_lines.specs.Held.{without_call, with_answer};
ghost use Rattle.core_lines.specs.Selected.{holding};
ghost use Rattle.rv32_select.specs.Places.{surroundings};

use crate::held::Source;
use crate::place::Place;
use cyc_core::Temporary;
use rv32_isa::Register;
use std::alloc::AllocError;

/// Goes on behind a call of the environment. What the registers had that it uses isn't known any more.
pub fn hold_asked(place: &mut Place)
    ensures same { surroundings place.new ≡ holding (without_call place.old.held) (surroundings place.old) }
    ensures saves { place.new.saves.items ≡ place.old.saves.items }
    ensures homes { place.new.homes.items ≡ place.old.homes.items }
{
    place.held.forget_register(Register::ARGUMENT_0);
    place.held.forget_register(Register::ARGUMENT_1);
    place.held.forget_register(Register::ARGUMENT_7);
}

/// Goes on behind a call of the environment whose answer a temporary gets.
pub fn hold_answer(place: &mut Place, to: Temporary) -> Result<(), AllocError>
    ensures same { OnOk result (surroundings place.new ≡ holding (with_answer to.0 place.old.held) (surroundings place.old)) }
    ensures saves { place.new.saves.items ≡ place.old.saves.items }
    ensures homes { place.new.homes.items ≡ place.old.homes.items }
{
    hold_asked(place);
    place.held.hold(to, Source::Register(Register::ARGUMENT_0))
}
