// The names of items that were seen.

ghost use Rattle.std.specs.Prelude.{◌≡◌, ◌∷◌, IfOk, List, OnOk, not, ℕ};
ghost use Rattle.source_typing.specs.Programs.{is_seen};
ghost use Rattle.check_programs.specs.Programs.{AreSeen};

use check_scopes::{Globals, Meaning};
use std::alloc::AllocError;

/// Adds a name to those that are seen, and tells whether it is a new one.
#[tactic(auto, using(crate::proofs::Seeing::seen_now, crate::proofs::Seeing::seen_more))]
pub(crate) fn see<'p>(seen: &mut Globals<'p>, name: &'p [u8]) -> Result<bool, AllocError>
    ensures is_new { (names : List (List ℕ)) → AreSeen names seen.old → IfOk result (λ b. b ≡ not (is_seen names name.entry.now)) }
    ensures seen { (names : List (List ℕ)) → AreSeen names seen.old → OnOk result (AreSeen (name.entry.now ∷ names) seen.new) }
{
    seen.add(name, Meaning::NotKnown)
}
