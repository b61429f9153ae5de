// Statements, and the declarations among them.

ghost use Rattle.std.specs.Prelude.{◌≡◌};

use crate::expression::Expression;
use crate::name::{Name, RegionName, TypeName};

/// What a local begins with.
#[derive(Drop)]
pub enum Initializer {
    /// The beginning of its type.
    None,
    /// An array with this number of elements.
    Array(u32),
    /// A value.
    Value(Expression),
}

/// A declaration in a block. A number that comes first is the place of its first token.
pub enum Declaration {
    /// A local variable or array.
    Local(TypeName, Name, Initializer),
    /// `` region<`r> h; ``: the region and its handle.
    Region(u32, RegionName, Name),
    /// `` region<`r> h = open(k); ``: the region, its handle and the key.
    Open(u32, RegionName, Name, Name),
    /// `` let alias<`r> T x = p; ``: the region, the type, the alias and the pointer.
    Alias(u32, RegionName, TypeName, Name, Name),
    /// `` let NewDynamicRegion{<`r> k} = new_ukey(); ``: the region and its key.
    NewKey(u32, RegionName, Name),
}

// Written out, so that a caller's proof sees one call and not the drop of each field.
impl Drop for Declaration {
    fn drop(self) {
        match self {
            Declaration::Local(_of, _name, _initializer) => {}
            Declaration::Region(_, _region, _name) | Declaration::NewKey(_, _region, _name) => {}
            Declaration::Open(_, _region, _name, _key) => {}
            Declaration::Alias(_, _region, _of, _name, _source) => {}
        }
    }
}

/// A statement. A number that comes first is the place of its first token.
#[cycle(statement)]
pub enum Statement {
    /// `;`
    Empty(u32),
    /// A block.
    Block(u32, Vec<BlockItem>),
    /// An expression that is evaluated and discarded.
    Run(Expression),
    /// `:=:` between two places.
    Exchange(Box<Expression>, Box<Expression>),
    /// An `if` with no `else`.
    If(u32, Expression, Box<Statement>),
    /// An `if` with its `else`.
    IfElse(u32, Expression, Box<Statement>, Box<Statement>),
    While(u32, Expression, Box<Statement>),
    /// A `switch` on a union's place, with its clauses.
    Switch(u32, Expression, Vec<Clause>),
    Break(u32),
    Continue(u32),
    /// A `return` with its result, where it has one.
    Return(u32, Option<Expression>),
    /// `ufree` of a local.
    FreeUnique(u32, Name),
    /// `free_ukey` of a local.
    FreeKey(u32, Name),
}

/// What stands in a block.
#[cycle(statement)]
pub enum BlockItem {
    Declare(Box<Declaration>),
    Execute(Statement),
}

/// Which members a clause takes.
pub enum Pattern {
    /// A member, whose value the name stands for.
    Case(Name, Name),
    /// All members that no other clause names.
    Default,
}

// Written out, so that a caller's proof sees one call and not the drop of each field.
impl Drop for Pattern {
    fn drop(self) {
        match self {
            Pattern::Case(_member, _name) => {}
            Pattern::Default => {}
        }
    }
}

/// A clause of a `switch`: where it stands, its pattern, and what it does.
#[cycle(statement)]
pub struct Clause {
    pub at: u32,
    pub pattern: Pattern,
    pub body: Vec<BlockItem>,
}

// Written out, so that a caller's proof sees one call and not the drop of each field.
impl Drop for Clause {
    #[cycle(statement)]
    fn drop(self) {
        let Clause {
            at: _,
            pattern: _pattern,
            body: _body,
        } = self;
    }
}

// Written out, so that a caller's proof sees one call and not the drop of each field.
impl Drop for Statement {
    #[cycle(statement)]
    fn drop(self) {
        match self {
            Statement::Empty(_) | Statement::Break(_) | Statement::Continue(_) => {}
            Statement::Block(_, _items) => {}
            Statement::Run(_value) => {}
            Statement::Exchange(_left, _right) => {}
            Statement::If(_, _condition, _body) => {}
            Statement::IfElse(_, _condition, _body, _otherwise) => {}
            Statement::While(_, _condition, _body) => {}
            Statement::Switch(_, _place, _clauses) => {}
            Statement::Return(_, _value) => {}
            Statement::FreeUnique(_, _name) | Statement::FreeKey(_, _name) => {}
        }
    }
}

// Written out, so that a caller's proof sees one call and not the drop of each field.
impl Drop for BlockItem {
    #[cycle(statement)]
    fn drop(self) {
        match self {
            BlockItem::Declare(_declaration) => {}
            BlockItem::Execute(_statement) => {}
        }
    }
}

impl Declaration {
    ghost use Rattle.cyc_tree.specs.Tree.{local_of};
    ghost use Rattle.cyc_tree.specs.View.{declaration_tree, name_tree};
    ghost use Rattle.cyc_tree.specs.Places.{declaration_place};

    /// The place of its first token.
    pub fn place(&self) -> u32
        ensures { result ≡ declaration_place (declaration_tree self.now) }
    {
        match self {
            Declaration::Local(of, _, _) => of.at,
            Declaration::Region(at, _, _)
            | Declaration::Open(at, _, _, _)
            | Declaration::Alias(at, _, _, _, _)
            | Declaration::NewKey(at, _, _) => *at,
        }
    }

    /// The local that it declares.
    pub fn local(&self) -> &Name
        ensures { name_tree result.now ≡ local_of (declaration_tree self.now) }
    {
        match self {
            Declaration::Local(_, name, _)
            | Declaration::Region(_, _, name)
            | Declaration::Open(_, _, name, _)
            | Declaration::Alias(_, _, _, name, _)
            | Declaration::NewKey(_, _, name) => name,
        }
    }
}

impl Statement {
    ghost use Rattle.cyc_tree.specs.View.{statement_tree};
    ghost use Rattle.cyc_tree.specs.Places.{statement_place};

    /// The place of its first token.
    pub fn place(&self) -> u32
        ensures { result ≡ statement_place (statement_tree self.now) }
    {
        match self {
            Statement::Empty(at)
            | Statement::Block(at, _)
            | Statement::If(at, _, _)
            | Statement::IfElse(at, _, _, _)
            | Statement::While(at, _, _)
            | Statement::Switch(at, _, _)
            | Statement::Break(at)
            | Statement::Continue(at)
            | Statement::Return(at, _)
            | Statement::FreeUnique(at, _)
            | Statement::FreeKey(at, _) => *at,
            Statement::Run(first) => first.place(),
            Statement::Exchange(first, _) => first.place(),
        }
    }
}
