// Tokens.

/// A word that is no name.
#[derive(Clone, Copy, Debug)]
pub enum Keyword {
    Int,
    Unsigned,
    Char,
    Void,
    Struct,
    Union,
    RegionT,
    UregionKeyT,
    Region,
    Open,
    Let,
    Alias,
    NewDynamicRegion,
    NewUkey,
    FreeUkey,
    Ufree,
    Numelts,
    Rnew,
    New,
    HeapRegion,
    UniqueRegion,
    Null,
    If,
    Else,
    While,
    Break,
    Continue,
    Return,
    Switch,
    Case,
    Default,
    For,
}

/// A sign.
#[derive(Clone, Copy, Debug)]
pub enum Sign {
    /// `@tagged`
    Tagged,
    /// `@notnull`
    NotNull,
    /// `@fat`
    FatSign,
    /// `@thin`
    Thin,
    /// `:=:`
    Exchange,
    /// `->`
    Arrow,
    /// `<<`
    ShiftLeft,
    /// `>>`
    ShiftRight,
    /// `<=`
    LessEqual,
    /// `>=`
    GreaterEqual,
    /// `==`
    EqualEqual,
    /// `!=`
    NotEqual,
    /// `&&`
    AndAnd,
    /// `||`
    OrOr,
    /// `+`
    Plus,
    /// `-`
    Minus,
    /// `*`
    Star,
    /// `/`
    Slash,
    /// `%`
    Percent,
    /// `<`
    Less,
    /// `>`
    Greater,
    /// `=`
    Assign,
    /// `!`
    Not,
    /// `&`
    And,
    /// `|`
    Or,
    /// `^`
    Xor,
    /// `~`
    Tilde,
    /// `(`
    LeftParenthesis,
    /// `)`
    RightParenthesis,
    /// `[`
    LeftBracket,
    /// `]`
    RightBracket,
    /// `{`
    LeftBrace,
    /// `}`
    RightBrace,
    /// `,`
    Comma,
    /// `;`
    Semicolon,
    /// `:`
    Colon,
    /// `.`
    Dot,
    /// `@`
    At,
    /// `?`
    Question,
}

/// What a token is.
#[derive(Clone, Copy, Debug)]
pub enum TokenKind {
    Keyword(Keyword),
    /// A name that is no keyword.
    Identifier,
    /// A region name, with its backquote.
    Region,
    /// A number, and whether it has the suffix `u` or `U`.
    Number(u32, bool),
    /// A character, as the byte that it means.
    Character(u8),
    /// A string, as it is spelled.
    Text,
    Sign(Sign),
}

/// A token: its kind, the offset of its first byte in the text, and its bytes there.
#[derive(Clone, Copy)]
pub struct Token<'a> {
    pub kind: TokenKind,
    pub at: u32,
    pub text: &'a [u8],
}
