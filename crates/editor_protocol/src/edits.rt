// Edits of a text.

ghost use Rattle.std.specs.Prelude.{◌≡◌, ◌≤◌, ◌++◌, take, drop, length, IfOk};

use std::alloc::{AllocError, Global};

/// The text with other bytes in place of those between two offsets.
pub fn replaced(
    alloc: Global,
    text: &[u8],
    begin: usize,
    end: usize,
    with: &[u8],
) -> Result<Vec<u8>, AllocError>
    requires begins { begin ≤ end }
    requires ends { end ≤ length text.now }
    ensures { IfOk result (λ new. new.items ≡ take begin text.now ++ with.now ++ drop end text.now) }
{
    let mut new = Vec::from_slice(alloc, &text[..begin])?;
    new.extend_from_slice(with)?;
    new.extend_from_slice(&text[end..])?;
    Ok(new)
}
