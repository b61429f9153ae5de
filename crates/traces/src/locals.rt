// The names that a function declares, in the order in which Core has its locals: the parameters, and then each name where the text declares it.

use cyc_core::Cell;
use cyc_tree::{
    Base, BlockItem, Clause, Declaration, Expression, Function, Initializer, Link, Made, Name,
    Pattern, Sign, Statement, Suffix, TypeName,
};
use std::alloc::{AllocError, Global};

/// How a value of a name is written.
#[derive(Clone, Copy)]
pub enum Sort {
    /// `int`
    Signed,
    /// `unsigned int` and `char`
    Unsigned,
    /// A thin pointer, a handle or a key.
    Address,
    /// A fat pointer, which has three words.
    Fat,
    /// A struct, a union or an array; or what a clause takes out of a union, which is written by what it is made for.
    Other,
}

/// How values of a type are written.
fn sort_of(of: &TypeName) -> Sort {
    match of.pointers.last() {
        Some(pointer) => match pointer.sign {
            Sign::Fat => Sort::Fat,
            Sign::Nullable(_) | Sign::NotNull(_) => Sort::Address,
        },
        None => match of.base {
            Base::Int => Sort::Signed,
            Base::Unsigned | Base::Char => Sort::Unsigned,
            Base::Handle(_) | Base::Key(_) => Sort::Address,
            Base::Void | Base::Struct(_, _) | Base::Union(_, _) => Sort::Other,
        },
    }
}

/// A name of a function.
#[derive(Clone, Copy)]
pub struct Local<'p> {
    pub name: &'p [u8],
    pub sort: Sort,
    /// Where in the text its type begins, and where the name is; both 0 where no type is written.
    pub typed: (u32, u32),
    /// Where in the text it is declared.
    declared: u32,
    /// Where in the text its scope begins: at the statement behind its declaration.
    from: u32,
    /// Where in the text something stands that is behind its block.
    until: u32,
}

impl<'p> Local<'p> {
    /// The same, where what the text doesn't say is known by what it is made for.
    pub fn made_for(self, cell: Option<Cell>) -> Local<'p> {
        let sort = match (self.sort, cell) {
            (Sort::Other, Some(Cell::Pointer | Cell::Handle)) => Sort::Address,
            (Sort::Other, Some(Cell::Fat)) => Sort::Fat,
            (sort, _) => sort,
        };
        Local { sort, ..self }
    }

    /// Where in the text its scope begins and ends.
    pub fn scope(&self) -> (u32, u32) {
        (self.from, self.until)
    }

    /// Whether it is in scope at an offset of the text.
    pub fn is_in_scope(&self, at: u32) -> bool {
        self.from <= at && at < self.until
    }
}

/// The walk over a function: its names so far, the numbers of those that were declared just now, of those in scope, and of those whose block was left
/// just now.
struct Walk<'p> {
    all: Vec<Local<'p>>,
    fresh: Vec<usize>,
    open: Vec<usize>,
    left: Vec<usize>,
    failed: bool,
}

// Written out, so that a caller's proof sees one call and not the drop of each field.
impl Drop for Walk<'_> {
    fn drop(self) {
        let Walk {
            all: _all,
            fresh: _fresh,
            open: _open,
            left: _left,
            failed: _,
        } = self;
    }
}

impl<'p> Walk<'p> {
    /// Declares a name whose scope begins here.
    fn declare_from(&mut self, from: u32, name: &'p Name, sort: Sort, typed: (u32, u32)) {
        let number = self.all.len();
        let local = Local {
            name: &name.text,
            sort,
            typed,
            declared: name.at,
            from,
            until: u32::MAX,
        };
        if self.all.push(local).is_err() || self.open.push(number).is_err() {
            self.failed = true;
        }
    }

    /// Declares a name whose scope begins at what comes next.
    fn declare(&mut self, name: &'p Name, sort: Sort, typed: (u32, u32)) {
        if self.fresh.push(self.all.len()).is_err() {
            self.failed = true;
        }
        self.declare_from(u32::MAX, name, sort, typed);
    }

    /// Declares a name of a type.
    fn declare_typed(&mut self, name: &'p Name, of: &TypeName) {
        self.declare(name, sort_of(of), (of.at, name.at));
    }

    /// Leaves the blocks behind this number of names in scope.
    fn leave(&mut self, depth: usize) {
        let left = self.open.len().saturating_sub(depth);
        for _ in 0..left {
            if let Some(number) = self.open.pop() {
                if self.left.push(number).is_err() {
                    self.failed = true;
                }
            }
        }
    }

    /// Ends the scope of a name at an offset behind it.
    fn end(&mut self, number: usize, at: u32) {
        if let Some(local) = self.all.get_mut(number) {
            if at > local.declared {
                local.until = at;
            }
        }
    }

    /// Comes to an offset of the text, behind the blocks that were left just now.
    fn come_out(&mut self, at: u32) {
        for _ in 0..self.left.len() {
            if let Some(number) = self.left.pop() {
                self.end(number, at);
            }
        }
    }

    /// Comes to an offset of the text, behind what was declared just now.
    fn come_to(&mut self, at: u32) {
        self.come_out(at);
        for _ in 0..self.fresh.len() {
            if let Some(local) = self.fresh.pop().and_then(|number| self.all.get_mut(number)) {
                local.from = at;
            }
        }
    }
}

impl<'p> Walk<'p> {
    /// The names. Fails where memory was wanting on the way.
    fn into_locals(self) -> Result<Vec<Local<'p>>, AllocError> {
        let Walk {
            all,
            fresh: _fresh,
            open: _open,
            left: _left,
            failed,
        } = self;
        if failed {
            return Err(AllocError);
        }
        Ok(all)
    }
}

/// Goes over an expression, for the indices of arrays that are made.
#[cycle(expressions)]
fn pass<'p>(walk: &mut Walk<'p>, expression: &'p Expression) {
    match expression {
        Expression::Number(_, _, _)
        | Expression::Character(_, _)
        | Expression::Text(_, _)
        | Expression::Null(_)
        | Expression::HeapRegion(_)
        | Expression::UniqueRegion(_)
        | Expression::Variable(_) => {}
        Expression::Call(_, arguments) => pass_all(walk, arguments),
        Expression::MakeUnion(_, _, inner)
        | Expression::Grouped(_, inner)
        | Expression::NumElts(_, inner)
        | Expression::Prefixed(_, _, inner) => pass(walk, inner),
        Expression::Suffixed(primary, suffixes) => {
            pass(walk, primary);
            pass_suffixes(walk, suffixes);
        }
        Expression::New(_, made) => pass_made(walk, made),
        Expression::NewIn(_, handle, made) => {
            pass(walk, handle);
            pass_made(walk, made);
        }
        Expression::Chain(first, links) => {
            pass(walk, first);
            pass_links(walk, links);
        }
        Expression::AllOf(first, others) | Expression::AnyOf(first, others) => {
            pass(walk, first);
            pass_all(walk, others);
        }
        Expression::Assign(place, value) => {
            pass(walk, place);
            pass(walk, value);
        }
    }
}

/// Goes over expressions.
#[cycle(expressions)]
fn pass_all<'p>(walk: &mut Walk<'p>, expressions: &'p [Expression]) {
    'each: for expression in expressions {
        pass(walk, expression);
    }
}

/// Goes over the other operands of one level.
#[cycle(expressions)]
fn pass_links<'p>(walk: &mut Walk<'p>, links: &'p [Link]) {
    'each: for link in links {
        pass(walk, &link.operand);
    }
}

/// Goes over suffixes.
#[cycle(expressions)]
fn pass_suffixes<'p>(walk: &mut Walk<'p>, suffixes: &'p [Suffix]) {
    'each: for suffix in suffixes {
        match suffix {
            Suffix::Index(index) => pass(walk, index),
            Suffix::Dot(_) | Suffix::Arrow(_) => {}
        }
    }
}

/// Goes over what is made. The index of an array comes before the names in its count.
#[cycle(expressions)]
fn pass_made<'p>(walk: &mut Walk<'p>, made: &'p Made) {
    match made {
        Made::One(value) => pass(walk, value),
        Made::Array(index, count, element) => {
            let depth = walk.open.len();
            walk.declare_from(element.place(), index, Sort::Unsigned, (0, 0));
            pass(walk, count);
            pass(walk, element);
            walk.leave(depth);
        }
    }
}

/// Goes over the declaration of a variable or an array.
fn pass_local<'p>(
    walk: &mut Walk<'p>,
    of: &'p TypeName,
    name: &'p Name,
    initializer: &'p Initializer,
) {
    match initializer {
        Initializer::None => walk.declare_typed(name, of),
        Initializer::Array(_) => walk.declare(name, Sort::Other, (0, 0)),
        Initializer::Value(value) => {
            walk.declare_typed(name, of);
            pass(walk, value);
        }
    }
}

/// Goes over a declaration.
fn pass_declaration<'p>(walk: &mut Walk<'p>, declaration: &'p Declaration) {
    match declaration {
        Declaration::Local(of, name, initializer) => pass_local(walk, of, name, initializer),
        Declaration::Alias(_, _, of, name, _) => walk.declare_typed(name, of),
        Declaration::Region(_, _, name)
        | Declaration::Open(_, _, name, _)
        | Declaration::NewKey(_, _, name) => walk.declare(name, Sort::Address, (0, 0)),
    }
}

/// Goes over a statement without others in it.
fn pass_plain<'p>(walk: &mut Walk<'p>, statement: &'p Statement) {
    match statement {
        Statement::Run(value) | Statement::Return(_, Some(value)) => pass(walk, value),
        Statement::Exchange(left, right) => {
            pass(walk, left);
            pass(walk, right);
        }
        _ => {}
    }
}

/// Goes over a statement.
#[cycle(statements)]
fn pass_statement<'p>(walk: &mut Walk<'p>, statement: &'p Statement) {
    walk.come_to(statement.place());
    match statement {
        Statement::Block(_, items) => pass_block(walk, items),
        Statement::If(_, condition, body) | Statement::While(_, condition, body) => {
            pass(walk, condition);
            pass_statement(walk, body);
        }
        Statement::IfElse(_, condition, body, otherwise) => {
            pass(walk, condition);
            pass_statement(walk, body);
            pass_statement(walk, otherwise);
        }
        Statement::Switch(_, place, clauses) => {
            pass(walk, place);
            pass_clauses(walk, clauses);
        }
        other => pass_plain(walk, other),
    }
}

/// Goes over a block.
#[cycle(statements)]
fn pass_block<'p>(walk: &mut Walk<'p>, items: &'p [BlockItem]) {
    let depth = walk.open.len();
    pass_items(walk, items);
    walk.leave(depth);
}

/// Goes over the items of a block.
#[cycle(statements)]
fn pass_items<'p>(walk: &mut Walk<'p>, items: &'p [BlockItem]) {
    'each: for item in items {
        match item {
            BlockItem::Declare(declaration) => {
                walk.come_to(declaration.place());
                pass_declaration(walk, declaration);
            }
            BlockItem::Execute(statement) => pass_statement(walk, statement),
        }
    }
}

/// Goes over the clauses of a `switch`, each a block with its name.
#[cycle(statements)]
fn pass_clauses<'p>(walk: &mut Walk<'p>, clauses: &'p [Clause]) {
    'each: for clause in clauses {
        let depth = walk.open.len();
        match &clause.pattern {
            Pattern::Case(_, name) => walk.declare(name, Sort::Other, (0, 0)),
            Pattern::Default => {}
        }
        pass_items(walk, &clause.body);
        walk.leave(depth);
    }
}

/// The names of a function, in the order of its locals.
pub fn locals_of<'p>(alloc: Global, function: &'p Function) -> Result<Vec<Local<'p>>, AllocError> {
    let mut walk = Walk {
        all: Vec::new(alloc),
        fresh: Vec::new(alloc),
        open: Vec::new(alloc),
        left: Vec::new(alloc),
        failed: false,
    };
    // they are taken where the function's name stands
    let body = function.name.at.wrapping_add(1);
    for parameter in &function.parameters {
        let of = &parameter.of;
        let name = &parameter.name;
        walk.declare_from(body, name, sort_of(of), (of.at, name.at));
    }
    pass_items(&mut walk, &function.body);
    walk.into_locals()
}
