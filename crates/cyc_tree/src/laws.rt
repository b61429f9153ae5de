// Laws of the definitions: empty functions whose contracts say them.

ghost use Rattle.std.specs.Prelude.{◌≡◌, ◌<◌, ◌≤◌, ℕ, Some, None};
ghost use Rattle.cyc_tree.specs.Tree.{Program as Tree};
ghost use Rattle.cyc_tree.specs.Depths.{nesting, nesting_limit, too_deep_at};

/// A program has a token that is too deep exactly where it nests deeper than the limit.
pub fn deepest()
    ensures within { (program : Tree) → nesting program ≤ nesting_limit → too_deep_at program ≡ None }
    ensures deeper { (program : Tree) → nesting_limit < nesting program → (at : ℕ) × (too_deep_at program ≡ Some at) }
{}
