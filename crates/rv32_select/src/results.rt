// Which operations give a temporary a word.

ghost use Rattle.std.specs.Prelude.{◌≡◌, option_map, option_to_list};
ghost use Rattle.core_lines.specs.Saved.{results_of};
ghost use Rattle.cyc_core.specs.Trees.{operation_tree, temporary_tree};

use cyc_core::{Operation, Temporary};

/// The temporary that an operation gives a word, if it gives one.
pub fn result_of(operation: Operation) -> Option<Temporary>
    ensures { option_to_list (option_map temporary_tree result) ≡ results_of (operation_tree operation) }
{
    match operation {
        Operation::Put(..)
        | Operation::Store(..)
        | Operation::RegionFree(..)
        | Operation::UniqueFree(..)
        | Operation::KeyOpen(..)
        | Operation::KeyClose(..)
        | Operation::KeyFree(..) => None,
        Operation::Constant(to, _)
        | Operation::NullPointer(to)
        | Operation::Move(to, _)
        | Operation::Narrow(to, _)
        | Operation::Apply(_, to, _, _)
        | Operation::LocalAddress(to, _)
        | Operation::OwnAddress(to, _)
        | Operation::DataAddress(to, _)
        | Operation::Get(_, to, _)
        | Operation::Offset(to, _, _, _)
        | Operation::Element(to, _, _, _, _)
        | Operation::Load(to, _, _)
        | Operation::IsNull(to, _)
        | Operation::SamePlace(to, _, _)
        | Operation::Getchar(to)
        | Operation::Putchar(to, _)
        | Operation::HeapHandle(to)
        | Operation::RegionNew(to)
        | Operation::KeyNew(to) => Some(to),
    }
}
