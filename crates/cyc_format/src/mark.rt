// What a piece is to the lines.

use crate::class::Class;

/// What begins or ends at a piece.
#[derive(Clone, Copy)]
pub(crate) enum Role {
    /// Nothing: it goes on with what stands before it.
    Inside,
    /// A statement, a declaration, a member, an item, or a comment between such.
    Begin,
    /// A `case` or a `default`, or a comment before it.
    Label,
    Else,
    /// The body of an `if`, an `else` or a `while`, other than a block.
    Body,
    /// A block, also of members or of clauses.
    Open,
    Close,
}

/// A piece's role, and the space before it.
#[derive(Clone, Copy)]
pub(crate) struct Mark {
    pub role: Role,
    /// Whether a statement begins here: also where the role is `Open`.
    pub starts: bool,
    /// Whether the body of an `if`, an `else` or a `while` begins here.
    pub enters: bool,
    /// How many such bodies end before this piece.
    pub leaves: u32,
    pub has_space: bool,
    /// Where the line may be broken before this piece: how deep that is, and how tightly the operator binds.
    pub wrap: Option<u32>,
    /// Of a block's brace the index of the other one.
    pub partner: Option<usize>,
}

/// What an unfinished `if`, `else` or `while` is.
#[derive(Clone, Copy)]
pub(crate) enum Head {
    If,
    Else,
    While,
}

/// What stands before a parenthesis.
#[derive(Clone, Copy)]
pub(crate) enum Before {
    If,
    While,
    Switch,
    Rnew,
    Other,
}

/// What is open.
#[derive(Clone, Copy)]
pub(crate) enum Frame {
    /// A block, by the index of its brace.
    Block(usize),
    /// The clauses of a `switch`.
    Clauses(usize),
    /// The members of a struct or a union.
    Members(usize),
    Body(Head),
    Parenthesis(Before),
    Bracket,
    /// `<` before a region.
    Angle,
    /// A brace within a phrase; whether it is a pointer's.
    Inline(bool),
}

/// How a sign is used.
#[derive(Clone, Copy)]
pub(crate) enum Use {
    Plain,
    Unary,
    Binary,
    Pointer,
    AngleOpen,
    AngleClose,
    InlineOpen,
}

/// What the next token begins.
#[derive(Clone, Copy)]
pub(crate) enum Expects {
    Begin,
    Body,
    Else,
    Inside,
}

/// What a parenthesis belongs to, by the token before it.
pub(crate) fn before_parenthesis(class: Class) -> Before {
    match class {
        Class::If => Before::If,
        Class::While => Before::While,
        Class::Switch => Before::Switch,
        Class::Rnew => Before::Rnew,
        _ => Before::Other,
    }
}
