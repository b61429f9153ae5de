// Lists of a tree, most of which are short.

ghost use Rattle.std.specs.Prelude.{◌≡◌};

/// How many items a vector has space for from its first one on.
const FIRST_SPACE: usize = 4;

/// The same items. A short list keeps no space for more, if there is memory to move it.
pub fn without_spare<T: Drop>(mut items: Vec<T>) -> Vec<T>
    ensures { result.items ≡ items.items }
{
    if items.len() < FIRST_SPACE {
        items.shrink_to_fit();
    }
    items
}
