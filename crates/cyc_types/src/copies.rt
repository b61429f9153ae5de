// What is copied.

ghost use Rattle.std.specs.Prelude.{◌≡◌};
ghost use Rattle.source_typing.specs.Tables.{is_copyable};
ghost use Rattle.cyc_types.specs.Tables.{tables_of};
ghost use Rattle.cyc_types.specs.Types.{static_type};

use crate::ctype::CType;
use crate::tables::Tables;

/// Whether a value of a type is copied: it is no unique pointer and no key, and no struct that holds one.
pub fn is_copyable(of: &CType, tables: &Tables) -> bool
    ensures { result ≡ is_copyable (tables_of tables.now) (static_type of.now) }
{
    tables.copies_value(of)
}
