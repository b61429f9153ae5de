// A program's structs, where its globals and heads are judged.

use check_types::TagNames;
use cyc_types::Tables;

/// What is known of a program's structs.
#[derive(Clone, Copy)]
pub struct Structs<'g, 'p> {
    /// What names mean where a tag is wanted.
    pub tags: &'g TagNames<'p>,
    /// Members and bytes.
    pub tables: &'g Tables<'p>,
}
