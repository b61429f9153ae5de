// A warning: its kind, where it stands, and its words.

/// What is wrong. Each kind has a name of one word, by which a comment allows it.
#[derive(Clone, Copy)]
pub enum WarningKind {
    /// A name that nothing uses.
    Unused,
    /// An assignment that is a whole condition.
    Assignment,
    /// A statement that no run comes to.
    Unreachable,
    /// A comparison whose outcome its operands' types decide.
    Always,
    /// An index that is never within the bounds.
    Raises,
    /// A block with one owner that is never freed.
    Leak,
}

impl WarningKind {
    /// The kind's name.
    pub fn name(self) -> &'static str {
        match self {
            WarningKind::Unused => "Unused",
            WarningKind::Assignment => "Assignment",
            WarningKind::Unreachable => "Unreachable",
            WarningKind::Always => "Always",
            WarningKind::Raises => "Raises",
            WarningKind::Leak => "Leak",
        }
    }
}

/// A warning.
#[derive(Clone, Copy)]
pub struct Warning<'p> {
    pub kind: WarningKind,
    /// The offset in the text.
    pub at: u32,
    /// The name that it is of; nothing, where it is of none.
    pub name: &'p [u8],
    /// What is said behind the name.
    pub words: &'static str,
    /// What to write instead, in a sentence.
    pub cure: &'static str,
}
