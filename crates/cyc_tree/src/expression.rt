// Expressions.

ghost use Rattle.std.specs.Prelude.{◌≡◌};

use crate::name::Name;

/// An operator between two operands of one level.
#[derive(Clone, Copy)]
pub enum Operator {
    BitOr,
    BitXor,
    BitAnd,
    Equal,
    NotEqual,
    Less,
    LessEqual,
    Greater,
    GreaterEqual,
    ShiftLeft,
    ShiftRight,
    Add,
    Subtract,
    Multiply,
    Divide,
    Remainder,
}

/// An operator before its operand.
#[derive(Clone, Copy)]
pub enum Prefix {
    /// `-`
    Negate,
    /// `!`
    Not,
    /// `~`
    Complement,
    /// `*`
    Dereference,
    /// `&`
    AddressOf,
}

/// An expression. A number that comes first is the place of its first token.
#[cycle(expression)]
pub enum Expression {
    /// A number, and whether it has the suffix `u`.
    Number(u32, u32, bool),
    /// A character.
    Character(u32, u8),
    /// A string's bytes, without the final 0.
    Text(u32, Vec<u8>),
    /// `NULL`
    Null(u32),
    /// `heap_region`
    HeapRegion(u32),
    /// `unique_region`
    UniqueRegion(u32),
    /// A variable.
    Variable(Name),
    /// A call, or the making of a struct: the name and the arguments.
    Call(Name, Vec<Expression>),
    /// The making of a union value: the union's tag, the member and its value.
    MakeUnion(Name, Name, Box<Expression>),
    /// `numelts(e)`
    NumElts(u32, Box<Expression>),
    /// An expression in parentheses.
    Grouped(u32, Box<Expression>),
    /// A primary and its suffixes, of which there is one at least.
    Suffixed(Box<Expression>, Vec<Suffix>),
    /// An operator before its operand.
    Prefixed(u32, Prefix, Box<Expression>),
    /// `new`, and what is made in the heap.
    New(u32, Made),
    /// `rnew(handle)`, and what is made in the handle's region.
    NewIn(u32, Box<Expression>, Made),
    /// Operands of one level: the first, and the others, of which there is one at least.
    Chain(Box<Expression>, Vec<Link>),
    /// Operands of `&&`: the first, and the others, of which there is one at least.
    AllOf(Box<Expression>, Vec<Expression>),
    /// Operands of `||`: the first, and the others, of which there is one at least.
    AnyOf(Box<Expression>, Vec<Expression>),
    /// An assignment: the place, and the value.
    Assign(Box<Expression>, Box<Expression>),
}

/// What stands after a primary.
#[cycle(expression)]
pub enum Suffix {
    /// `[e]`
    Index(Box<Expression>),
    /// `.f`
    Dot(Name),
    /// `->f`
    Arrow(Name),
}

// Written out, so that a caller's proof sees one call and not the drop of each field.
impl Drop for Suffix {
    #[cycle(expression)]
    fn drop(self) {
        match self {
            Suffix::Index(_index) => {}
            Suffix::Dot(_name) | Suffix::Arrow(_name) => {}
        }
    }
}

/// An operator with its right operand.
#[cycle(expression)]
#[derive(Drop)]
pub struct Link {
    pub operator: Operator,
    pub operand: Expression,
}

/// What `new` and `rnew` make.
#[cycle(expression)]
pub enum Made {
    /// One object with this value.
    One(Box<Expression>),
    /// An array, `{for i < count : element}`: the index's name, the count and the element.
    Array(Name, Box<Expression>, Box<Expression>),
}

// Written out, so that a caller's proof sees one call and not the drop of each field.
impl Drop for Made {
    #[cycle(expression)]
    fn drop(self) {
        match self {
            Made::One(_value) => {}
            Made::Array(_index, _count, _element) => {}
        }
    }
}

// Written out, so that a caller's proof sees one call and not the drop of each field.
impl Drop for Expression {
    #[cycle(expression)]
    fn drop(self) {
        match self {
            Expression::Number(_, _, _)
            | Expression::Character(_, _)
            | Expression::Null(_)
            | Expression::HeapRegion(_)
            | Expression::UniqueRegion(_) => {}
            Expression::Text(_, _bytes) => {}
            Expression::Variable(_name) => {}
            Expression::Call(_name, _arguments) => {}
            Expression::MakeUnion(_tag, _member, _value) => {}
            Expression::NumElts(_, _inner) => {}
            Expression::Grouped(_, _inner) => {}
            Expression::Suffixed(_first, _suffixes) => {}
            Expression::Prefixed(_, _, _operand) => {}
            Expression::New(_, _made) => {}
            Expression::NewIn(_, _handle, _made) => {}
            Expression::Chain(_first, _links) => {}
            Expression::AllOf(_first, _others) => {}
            Expression::AnyOf(_first, _others) => {}
            Expression::Assign(_place, _value) => {}
        }
    }
}

impl Expression {
    ghost use Rattle.cyc_tree.specs.View.{expression_tree};
    ghost use Rattle.cyc_tree.specs.Places.{expression_place};

    /// The place of its first token.
    pub fn place(&self) -> u32
        ensures { result ≡ expression_place (expression_tree self.now) }
    {
        match self {
            Expression::Number(at, _, _)
            | Expression::Character(at, _)
            | Expression::Text(at, _)
            | Expression::Null(at)
            | Expression::HeapRegion(at)
            | Expression::UniqueRegion(at)
            | Expression::NumElts(at, _)
            | Expression::Grouped(at, _)
            | Expression::Prefixed(at, _, _)
            | Expression::New(at, _)
            | Expression::NewIn(at, _, _) => *at,
            Expression::Variable(name)
            | Expression::Call(name, _)
            | Expression::MakeUnion(name, _, _) => name.at,
            Expression::Suffixed(first, _)
            | Expression::Chain(first, _)
            | Expression::AllOf(first, _)
            | Expression::AnyOf(first, _)
            | Expression::Assign(first, _) => first.place(),
        }
    }
}
