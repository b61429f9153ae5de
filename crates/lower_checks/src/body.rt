// What is written of a function's body, step after step; whether a step failed is known at the end.

ghost use Rattle.std.specs.Prelude.{◌≡◌, [], ◌∷◌, true, map, Ok};
ghost use Rattle.core_meaning.specs.Core as core;
ghost use Rattle.cyc_core.specs.Trees.{failure_body, local_tree, operation_tree, statements_of, statement_tree};
ghost use Rattle.source_lowering.specs.Lowered.{all_of};
ghost use Rattle.source_lowering.specs.Pieces.{raised};
ghost use Rattle.lower_checks.specs.Views.{shape_tree};
ghost use Rattle.lower_checks.specs.Writing.{Emits, IsBegun, IsEnded, IsSound, Stays, Writes, code_of, next_of};

use crate::shape::Shape;
use crate::vectors::{append, space_for_one};
use cyc_core::{Failure, Local, Operation, Origin, Statement, Temporary};
use cyc_words::Kind;
use std::alloc::{AllocError, Global};
use std::mem;

/// What is written: statements, the shapes of the temporary objects, where the statement of the source stands that it is of, and whether memory ran out on the
/// way.
#[derive(Drop)]
pub struct Body<'p> {
    pub alloc: Global,
    pub code: Vec<Statement>,
    pub own: Vec<Shape<'p>>,
    pub at: Origin,
    pub failed: bool,
}

impl<'p> Body<'p> {
    /// Nothing is written, of what stands at an origin.
    pub fn new(alloc: Global, at: Origin) -> Body<'p>
        ensures code { result.code.items ≡ [] }
        ensures own { result.own.items ≡ [] }
        ensures sound { IsSound result }
    {
        Body {
            alloc,
            code: Vec::new(alloc),
            own: Vec::new(alloc),
            at,
            failed: false,
        }
    }

    /// Notes that memory ran out.
    pub fn fail(&mut self)
        ensures { self.new.failed ≡ true }
    {
        self.failed = true;
    }

    /// Appends a statement.
    pub fn emit(&mut self, statement: Statement)
        ensures { Emits self.old self.new (statement_tree statement ∷ []) }
    {
        match append(&mut self.code, statement) {
            Ok(()) => {}
            Err(_) => self.failed = true,
        }
    }

    /// Appends an operation.
    pub fn operation(&mut self, operation: Operation)
        ensures { Emits self.old self.new (core.Do (operation_tree operation) ∷ []) }
    {
        let at = self.at;
        self.emit(Statement::Do(at, operation));
    }

    /// Goes on to what stands at an origin.
    pub fn go_to(&mut self, at: Origin)
        ensures { Stays self.old self.new }
    {
        self.at = at;
    }

    /// Sets aside what is written, to begin a part.
    pub fn begin(&mut self) -> Vec<Statement>
        ensures begun { IsBegun self.old self.new }
        ensures aside { map statement_tree result.items ≡ code_of self.old }
    {
        mem::replace(&mut self.code, Vec::new(self.alloc))
    }

    /// Sets aside what is written, to begin a part of what stands at an origin.
    pub fn begin_at(&mut self, at: Origin) -> Vec<Statement>
        ensures begun { IsBegun self.old self.new }
        ensures aside { map statement_tree result.items ≡ code_of self.old }
    {
        self.at = at;
        mem::replace(&mut self.code, Vec::new(self.alloc))
    }

    /// Ends a part, which it gives, and goes on with what was set aside.
    pub fn end(&mut self, outer: Vec<Statement>) -> Vec<Statement>
        ensures ended { IsEnded self.old self.new (map statement_tree outer.items) }
        ensures part { map statement_tree result.items ≡ code_of self.old }
    {
        let mut part = mem::replace(&mut self.code, outer);
        part.shrink_to_fit();
        part
    }

    /// A statement alone, as a part.
    pub fn alone(&mut self, statement: Statement) -> Vec<Statement>
        ensures stays { Stays self.old self.new }
        ensures alone { IsSound self.new → map statement_tree result.items ≡ statement_tree statement ∷ [] }
    {
        let mut part = space_for_one(self.alloc);
        match append(&mut part, statement) {
            Ok(()) => {}
            Err(_) => self.failed = true,
        }
        part
    }

    /// What raises an exception, which the phrase at an origin does.
    pub fn raising(&mut self, kind: Kind, at: Origin) -> Vec<Statement>
        ensures stays { Stays self.old self.new }
        ensures raising { IsSound self.new → all_of (map statement_tree result.items) ≡ raised kind }
    {
        self.alone(Statement::Raise(kind, at))
    }

    /// A choice, as the tree of its parts.
    fn choice(&mut self, condition: Temporary, these: Vec<Statement>, those: Vec<Statement>)
        ensures { Emits self.old self.new
            (core.If condition.0 (statements_of (map statement_tree these.items)) (statements_of (map statement_tree those.items)) ∷ []) }
    {
        match Box::new(self.alloc, (these, those)) {
            Ok(both) => self.emit(Statement::If(condition, both)),
            Err(_) => self.failed = true,
        }
    }

    /// Appends a choice.
    pub fn branch(&mut self, condition: Temporary, these: Vec<Statement>, those: Vec<Statement>)
        ensures { Emits self.old self.new
            (core.If condition.0 (all_of (map statement_tree these.items)) (all_of (map statement_tree those.items)) ∷ []) }
    {
        self.choice(condition, these, those);
    }

    /// A loop, as the tree of its parts.
    fn turning(&mut self, test: Vec<Statement>, condition: Temporary, turn: Vec<Statement>)
        ensures { Emits self.old self.new
            (core.While (statements_of (map statement_tree test.items)) condition.0 (statements_of (map statement_tree turn.items)) ∷ []) }
    {
        match Box::new(self.alloc, (test, turn)) {
            Ok(both) => self.emit(Statement::While(condition, both)),
            Err(_) => self.failed = true,
        }
    }

    /// Appends a loop.
    pub fn turns(&mut self, test: Vec<Statement>, condition: Temporary, turn: Vec<Statement>)
        ensures { Emits self.old self.new
            (core.While (all_of (map statement_tree test.items)) condition.0 (all_of (map statement_tree turn.items)) ∷ []) }
    {
        self.turning(test, condition, turn);
    }

    /// A block, as the tree of its parts.
    fn within(&mut self, locals: Vec<Local>, inside: Vec<Statement>)
        ensures { Emits self.old self.new (core.Block (map local_tree locals.items) (statements_of (map statement_tree inside.items)) ∷ []) }
    {
        match Box::new(self.alloc, (locals, inside)) {
            Ok(block) => self.emit(Statement::Block(block)),
            Err(_) => self.failed = true,
        }
    }

    /// Appends a block with these locals.
    pub fn block(&mut self, locals: Vec<Local>, inside: Vec<Statement>)
        ensures { Emits self.old self.new (core.Block (map local_tree locals.items) (all_of (map statement_tree inside.items)) ∷ []) }
    {
        self.within(locals, inside);
    }

    /// What a break leaves, as the tree of its parts.
    fn leaving(&mut self, inside: Vec<Statement>)
        ensures { Emits self.old self.new (core.Leave (statements_of (map statement_tree inside.items)) ∷ []) }
    {
        self.emit(Statement::Leave(inside));
    }

    /// Appends statements that a break leaves.
    pub fn leaves(&mut self, inside: Vec<Statement>)
        ensures { Emits self.old self.new (core.Leave (all_of (map statement_tree inside.items)) ∷ []) }
    {
        self.leaving(inside);
    }

    /// Appends a break.
    pub fn breaks(&mut self)
        ensures { Emits self.old self.new (core.Break ∷ []) }
    {
        let at = self.at;
        self.emit(Statement::Break(at));
    }

    /// Appends the shape of a further temporary object.
    pub fn add(&mut self, shape: &Shape<'p>)
        ensures { Writes self.old self.new [] (shape_tree shape.now ∷ []) }
    {
        match append(&mut self.own, *shape) {
            Ok(()) => {}
            Err(_) => self.failed = true,
        }
    }

    /// Appends the shape of a further temporary object, and gives the value's number.
    pub fn value(&mut self, shape: &Shape<'p>) -> usize
        ensures writes { Writes self.old self.new [] (shape_tree shape.now ∷ []) }
        ensures number { IsSound self.new → result ≡ next_of self.old }
    {
        let number = self.own.len();
        self.add(shape);
        number
    }

    /// Appends what raises the exception of a failure where a temporary has NULL, or 0.
    pub fn check(&mut self, condition: Temporary, failure: Failure, at: Origin)
        ensures { Emits self.old self.new (core.If condition.0 core.NoStatements (failure_body failure) ∷ []) }
    {
        self.emit(Statement::Check(condition, failure, at));
    }

    /// Appends what raises an exception where a temporary has NULL, or 0.
    pub fn raise_unless(&mut self, condition: Temporary, kind: Kind, at: Origin)
        ensures { Emits self.old self.new (core.If condition.0 core.NoStatements (raised kind) ∷ []) }
    {
        self.check(condition, Failure::Always(kind), at);
    }

    /// The shape that is found, or any other where that failed.
    pub fn known(&mut self, found: Result<Shape<'p>, AllocError>) -> Shape<'p>
        ensures stays { Stays self.old self.new }
        ensures known { IsSound self.new → found.entry ≡ Ok result }
    {
        match found {
            Ok(shape) => shape,
            Err(_) => {
                self.failed = true;
                Shape::Void
            }
        }
    }

    /// A form that never comes.
    pub fn never(&self)
        requires { IsSound self.now → ⊥ }
    {
        if !self.failed {
            unreachable!()
        }
    }
}
