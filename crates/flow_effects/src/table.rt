// A map from the locals' numbers to what a phrase does to them.

ghost use Rattle.flow_effects.specs.Touches.{IsNothingFrom};

use crate::touches::Touches;

/// What a phrase does to each local. Access to one local takes time logarithmic in its number. Two tables are joined in time linear in the
/// number of locals that both have.
#[derive(Drop)]
pub struct Table {
    /// Nothing is done to the locals from this number on.
    pub count: usize,
    pub touches: Touches,
    ghost nothing_from: { IsNothingFrom count touches },
}
