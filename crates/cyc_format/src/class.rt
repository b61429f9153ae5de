// What the layout sees in a token.

use cyc_lexer::{Keyword, Sign, TokenKind};

/// A token by what its layout depends on, or a comment.
#[derive(Clone, Copy)]
pub(crate) enum Class {
    /// Before the first token and after the last.
    Nothing,
    /// `//` to the end of the line.
    LineComment,
    /// `/*` to `*/`.
    BlockComment,
    Name,
    /// A number, a character, a string, or a keyword that is a value.
    Value,
    Region,
    /// `int`, `unsigned`, `char` or `void`.
    Base,
    /// `region_t` or `uregion_key_t`.
    HandleType,
    /// `struct` or `union`.
    Tag,
    /// `region` or `alias`.
    RegionWord,
    /// A keyword that is written like a function, but for `rnew`.
    Call,
    Rnew,
    New,
    NewDynamicRegion,
    Case,
    Default,
    For,
    If,
    While,
    Switch,
    Else,
    /// Any other keyword, and `@tagged`.
    Word,
    /// An operator that always has two operands, and how tightly it binds.
    Binary(u32),
    Star,
    Minus,
    And,
    /// `!` or `~`.
    Not,
    Less,
    Greater,
    /// `@` or `?`.
    Pointer,
    /// `@thin`, `@fat` or `@notnull`.
    Modifier,
    Semicolon,
    Comma,
    /// `.` or `->`.
    Dot,
    Colon,
    LeftParenthesis,
    RightParenthesis,
    LeftBracket,
    RightBracket,
    LeftBrace,
    RightBrace,
}

/// The class of a keyword.
fn class_of_keyword(keyword: Keyword) -> Class {
    match keyword {
        Keyword::Int | Keyword::Unsigned | Keyword::Char | Keyword::Void => Class::Base,
        Keyword::RegionT | Keyword::UregionKeyT => Class::HandleType,
        Keyword::Struct | Keyword::Union => Class::Tag,
        Keyword::Region | Keyword::Alias => Class::RegionWord,
        Keyword::Open | Keyword::NewUkey | Keyword::FreeUkey | Keyword::Ufree => Class::Call,
        Keyword::Numelts => Class::Call,
        Keyword::Null | Keyword::HeapRegion | Keyword::UniqueRegion => Class::Value,
        Keyword::Rnew => Class::Rnew,
        Keyword::New => Class::New,
        Keyword::NewDynamicRegion => Class::NewDynamicRegion,
        Keyword::Case => Class::Case,
        Keyword::Default => Class::Default,
        Keyword::For => Class::For,
        Keyword::If => Class::If,
        Keyword::While => Class::While,
        Keyword::Switch => Class::Switch,
        Keyword::Else => Class::Else,
        Keyword::Let | Keyword::Break | Keyword::Continue | Keyword::Return => Class::Word,
    }
}

/// The class of a sign between operands, where it can be nothing else.
fn class_of_operator(sign: Sign) -> Class {
    match sign {
        Sign::Assign | Sign::Exchange => Class::Binary(1),
        Sign::OrOr => Class::Binary(2),
        Sign::AndAnd => Class::Binary(3),
        Sign::Or => Class::Binary(4),
        Sign::Xor => Class::Binary(5),
        Sign::EqualEqual | Sign::NotEqual => Class::Binary(7),
        Sign::LessEqual | Sign::GreaterEqual => Class::Binary(8),
        Sign::ShiftLeft | Sign::ShiftRight => Class::Binary(9),
        Sign::Plus => Class::Binary(10),
        _ => Class::Binary(11),
    }
}

/// The class of a sign.
fn class_of_sign(sign: Sign) -> Class {
    match sign {
        Sign::Tagged => Class::Word,
        Sign::NotNull | Sign::FatSign | Sign::Thin => Class::Modifier,
        Sign::At | Sign::Question => Class::Pointer,
        Sign::Star => Class::Star,
        Sign::Minus => Class::Minus,
        Sign::And => Class::And,
        Sign::Not | Sign::Tilde => Class::Not,
        Sign::Less => Class::Less,
        Sign::Greater => Class::Greater,
        Sign::LeftParenthesis => Class::LeftParenthesis,
        Sign::RightParenthesis => Class::RightParenthesis,
        Sign::LeftBracket => Class::LeftBracket,
        Sign::RightBracket => Class::RightBracket,
        Sign::LeftBrace => Class::LeftBrace,
        Sign::RightBrace => Class::RightBrace,
        Sign::Comma => Class::Comma,
        Sign::Semicolon => Class::Semicolon,
        Sign::Colon => Class::Colon,
        Sign::Dot | Sign::Arrow => Class::Dot,
        operator => class_of_operator(operator),
    }
}

/// The class of a token.
pub(crate) fn class_of(kind: TokenKind) -> Class {
    match kind {
        TokenKind::Keyword(keyword) => class_of_keyword(keyword),
        TokenKind::Identifier => Class::Name,
        TokenKind::Region => Class::Region,
        TokenKind::Number(_, _) | TokenKind::Character(_) | TokenKind::Text => Class::Value,
        TokenKind::Sign(sign) => class_of_sign(sign),
    }
}

/// How tightly an operator binds: a line is rather broken after one that binds less.
pub(crate) fn tightness(class: Class) -> u32 {
    match class {
        Class::Binary(tightness) => tightness,
        Class::And => 6,
        Class::Less | Class::Greater => 8,
        Class::Minus => 10,
        Class::Star => 11,
        _ => 0,
    }
}
