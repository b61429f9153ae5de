// Which registers have the words that are compared.

ghost use Rattle.std.specs.Prelude.{◌≡◌, option_map};
ghost use Rattle.core_lines.specs.Held.{register_in, compared_by};
ghost use Rattle.rv32_select.specs.Known.{source_tree, keeper_tree};

use crate::held::Source;
use core_lines::{Comparison, Condition};
use rv32_isa::Register;

/// Which register has a word, if one has.
#[derive(Clone, Copy)]
pub enum Keeper {
    In(Register),
    Nowhere,
}

/// The register that has a word, if one has: x0 if it is known to be 0.
#[tactic(auto, using(crate::proofs::Knowing::in_none, crate::proofs::Knowing::number_else))]
pub fn keeper_of(source: Option<Source>) -> Keeper
    ensures { keeper_tree result ≡ register_in (option_map source_tree source) }
{
    match source {
        Some(source) => match source {
            Source::Register(register) => Keeper::In(register),
            Source::Number(word) => {
                if word == 0 {
                    Keeper::In(Register::ZERO)
                } else {
                    Keeper::Nowhere
                }
            }
            Source::Compared(_) => Keeper::Nowhere,
            Source::ComparedWith(_) => Keeper::Nowhere,
        },
        None => Keeper::Nowhere,
    }
}

/// A comparison of the words of two registers, if registers have both.
pub fn compared(condition: Condition, left: Keeper, right: Keeper) -> Option<Comparison>
    ensures { result ≡ compared_by condition (keeper_tree left) (keeper_tree right) }
{
    match left {
        Keeper::In(left) => match right {
            Keeper::In(right) => Some(Comparison {
                condition,
                left,
                right,
            }),
            Keeper::Nowhere => None,
        },
        Keeper::Nowhere => None,
    }
}
