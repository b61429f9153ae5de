// The way to a position in a function's body, with what is in scope there.

use crate::labels::{Label, Labels};
use check_declarations::{Context, bind, declare, declare_parameter, next_region, union_of};
use check_expressions::judge;
use check_heads::{Head, Names, entered, known_type, read_head};
use check_regions::RegionNames;
use check_scopes::Scope;
use cyc_tree::{
    BlockItem, Clause, Declaration, Expression, Function, Initializer, Item, Name, Statement,
    TypeName,
};
use cyc_types::RegionId;
use std::alloc::{AllocError, Global};

/// What stands at the position.
#[derive(Clone, Copy)]
pub enum Here<'p> {
    /// Nothing that is looked at.
    Nothing,
    /// A local with its type and its value.
    Begins(&'p TypeName, &'p Name, &'p Expression),
    /// A value that is returned.
    Returned(&'p Expression),
    /// A `return` without a value.
    ReturnedNone,
    /// A condition.
    Tested(&'p Expression),
    /// A value that is used otherwise.
    Other(&'p Expression),
    /// Two places that are exchanged.
    Exchanged(&'p Expression, &'p Expression),
}

/// The way to a position: what is in scope where it has come to, and what regions are called.
pub struct Walk<'g, 'p> {
    pub scope: Scope<'g, 'p>,
    pub known: RegionNames<'p>,
    pub labels: Labels<'p>,
    pub here: Here<'p>,
    /// Where the innermost item of a block begins that the position is in.
    pub item: Option<u32>,
    at: u32,
    /// Whether a declaration is passed whose name is at the position.
    passes: bool,
    alloc: Global,
}

// Written out, so that a caller's proof sees one call and not the drop of each field.
impl Drop for Walk<'_, '_> {
    fn drop(self) {
        let Walk {
            scope: _scope,
            known: _known,
            labels: _labels,
            here: _,
            item: _,
            at: _,
            passes: _,
            alloc: _,
        } = self;
    }
}

/// Where an item of a block begins.
fn place_of(item: &BlockItem) -> u32 {
    match item {
        BlockItem::Declare(declaration) => declaration.place(),
        BlockItem::Execute(statement) => statement.place(),
    }
}

/// How many items of a block begin at or before an offset.
fn begun(items: &[BlockItem], at: u32) -> usize {
    let mut count = 0usize;
    for item in items {
        if place_of(item) <= at {
            count = count.saturating_add(1);
        }
    }
    count
}

/// How many clauses begin at or before an offset.
fn clauses_begun(clauses: &[Clause], at: u32) -> usize {
    let mut count = 0usize;
    for clause in clauses {
        if clause.at <= at {
            count = count.saturating_add(1);
        }
    }
    count
}

impl<'g, 'p> Walk<'g, 'p> {
    /// Passes a declaration. Fails only where no host memory is left, as all of these.
    fn pass(
        &mut self,
        context: Context<'_, 'p>,
        outer: usize,
        declaration: &'p Declaration,
    ) -> Result<(), AllocError> {
        let _fault = declare(
            &mut self.scope,
            &mut self.known,
            self.alloc,
            context,
            outer,
            declaration,
        )?;
        self.labels.add_declared(&self.known, declaration)
    }

    /// Begins a block at an offset, and answers its locals' region.
    fn begin_block(&mut self, at: u32) -> Result<RegionId, AllocError> {
        let frame = next_region(self.scope.regions.names())?;
        self.scope.regions.begin_block()?;
        self.labels.add(frame, Label::Block(at))?;
        Ok(frame)
    }

    /// Comes to a declaration.
    fn reach(
        &mut self,
        context: Context<'_, 'p>,
        outer: usize,
        declaration: &'p Declaration,
    ) -> Result<(), AllocError> {
        if let Declaration::Local(of, name, Initializer::Value(value)) = declaration {
            self.here = Here::Begins(of, name, value);
        }
        if self.passes && declaration.local().at == self.at {
            return self.pass(context, outer, declaration);
        }
        Ok(())
    }
}

/// Comes to a statement without others in it.
fn plain<'p>(statement: &'p Statement) -> Here<'p> {
    match statement {
        Statement::Run(value) => Here::Other(value),
        Statement::Exchange(left, right) => Here::Exchanged(left, right),
        Statement::Return(_, Some(value)) => Here::Returned(value),
        Statement::Return(_, None) => Here::ReturnedNone,
        _ => Here::Nothing,
    }
}

/// Goes on within a statement.
#[cycle(walk)]
fn into_statement<'p>(
    walk: &mut Walk<'_, 'p>,
    context: Context<'_, 'p>,
    statement: &'p Statement,
) -> Result<(), AllocError> {
    match statement {
        Statement::Block(at, items) => into_block(walk, context, *at, items),
        Statement::If(_, condition, body) => {
            if body.place() <= walk.at {
                return into_statement(walk, context, body);
            }
            walk.here = Here::Tested(condition);
            Ok(())
        }
        Statement::While(_, condition, body) => {
            if body.place() <= walk.at {
                return into_statement(walk, context.looping(), body);
            }
            walk.here = Here::Tested(condition);
            Ok(())
        }
        Statement::IfElse(_, condition, body, otherwise) => {
            if otherwise.place() <= walk.at {
                return into_statement(walk, context, otherwise);
            }
            if body.place() <= walk.at {
                return into_statement(walk, context, body);
            }
            walk.here = Here::Tested(condition);
            Ok(())
        }
        Statement::Switch(_, place, clauses) => {
            walk.here = Here::Other(place);
            into_clauses(walk, context, clauses)
        }
        other => {
            walk.here = plain(other);
            Ok(())
        }
    }
}

/// Goes on within a block that begins at an offset.
#[cycle(walk)]
fn into_block<'p>(
    walk: &mut Walk<'_, 'p>,
    context: Context<'_, 'p>,
    at: u32,
    items: &'p [BlockItem],
) -> Result<(), AllocError> {
    let outer = walk.scope.locals.len();
    let frame = walk.begin_block(at)?;
    into_items(walk, context.in_block(frame), outer, items)
}

/// Goes on among the items of a block, whose own locals come after the first `outer` ones.
#[cycle(walk)]
fn into_items<'p>(
    walk: &mut Walk<'_, 'p>,
    context: Context<'_, 'p>,
    outer: usize,
    items: &'p [BlockItem],
) -> Result<(), AllocError> {
    let mut left = begun(items, walk.at);
    'each: for item in items {
        if left > 1 {
            if let BlockItem::Declare(declaration) = item {
                walk.pass(context, outer, declaration)?;
            }
        } else if left == 1 {
            walk.item = Some(place_of(item));
            match item {
                BlockItem::Declare(declaration) => walk.reach(context, outer, declaration)?,
                BlockItem::Execute(statement) => into_statement(walk, context, statement)?,
            }
        }
        left = left.saturating_sub(1);
    }
    Ok(())
}

/// Goes on among the clauses of a `switch`, whose place it is at.
#[cycle(walk)]
fn into_clauses<'p>(
    walk: &mut Walk<'_, 'p>,
    context: Context<'_, 'p>,
    clauses: &'p [Clause],
) -> Result<(), AllocError> {
    let mut left = clauses_begun(clauses, walk.at);
    'each: for clause in clauses {
        if left == 1 {
            into_clause(walk, context, clause)?;
        }
        left = left.saturating_sub(1);
    }
    Ok(())
}

/// Goes on within a clause of a `switch`, which is a block with its name.
#[cycle(walk)]
fn into_clause<'p>(
    walk: &mut Walk<'_, 'p>,
    context: Context<'_, 'p>,
    clause: &'p Clause,
) -> Result<(), AllocError> {
    let outer = walk.scope.locals.len();
    let frame = walk.begin_block(clause.at)?;
    bind_in(walk, frame, clause)?;
    walk.here = Here::Nothing;
    into_items(
        walk,
        context.switching().in_block(frame),
        outer,
        &clause.body,
    )
}

/// Declares the name of a clause of a `switch`, whose place the walk is at.
fn bind_in<'p>(
    walk: &mut Walk<'_, 'p>,
    frame: RegionId,
    clause: &'p Clause,
) -> Result<(), AllocError> {
    let Here::Other(place) = walk.here else {
        return Ok(());
    };
    let judged = judge(&walk.scope, walk.alloc, place)?;
    let tables = walk.scope.tables;
    let union = union_of(tables, &judged);
    bind(&mut walk.scope, &union, frame, &clause.pattern)
}

/// The names of a head's region variables.
fn variables_of<'p>(
    alloc: Global,
    names: Names<'_, 'p>,
    function: &'p Function,
) -> Result<RegionNames<'p>, AllocError> {
    let head = read_head(alloc, names.tags, false, function)?;
    Ok(head.variables.into_names())
}

/// The way's beginning, where a function's body begins.
fn begin<'g, 'p>(
    alloc: Global,
    names: Names<'g, 'p>,
    head: &Head<'p>,
    function: &'p Function,
    at: u32,
) -> Result<Walk<'g, 'p>, AllocError> {
    let mut labels = Labels::new(alloc);
    labels.add_head(head, function)?;
    let scope = entered(alloc, names, false, head)?;
    Ok(Walk {
        scope,
        known: variables_of(alloc, names, function)?,
        labels,
        here: Here::Nothing,
        item: None,
        at,
        passes: false,
        alloc,
    })
}

/// Goes on within the body of a function, which has this head and is the item with this index.
fn into_body<'p>(
    walk: &mut Walk<'_, 'p>,
    head: &Head<'p>,
    item: u32,
    function: &'p Function,
) -> Result<(), AllocError> {
    let context = Context {
        result: known_type(&head.result),
        frame: RegionId::Level(head.variables.count()),
        item,
        in_loop: false,
        in_switch: false,
    };
    for parameter in head.parameters.iter() {
        declare_parameter(&mut walk.scope, context, parameter)?;
    }
    into_items(walk, context, 0, &function.body)
}

/// The way to an offset in the body of a function, which has this head and is the item with this index.
pub fn walk_to<'g, 'p>(
    alloc: Global,
    names: Names<'g, 'p>,
    head: &Head<'p>,
    item: u32,
    function: &'p Function,
    at: u32,
) -> Result<Walk<'g, 'p>, AllocError> {
    let mut walk = begin(alloc, names, head, function, at)?;
    into_body(&mut walk, head, item, function)?;
    Ok(walk)
}

/// The same, with what a declaration declares whose name is at the offset.
pub fn walk_behind<'g, 'p>(
    alloc: Global,
    names: Names<'g, 'p>,
    head: &Head<'p>,
    item: u32,
    function: &'p Function,
    at: u32,
) -> Result<Walk<'g, 'p>, AllocError> {
    let mut walk = begin(alloc, names, head, function, at)?;
    walk.passes = true;
    into_body(&mut walk, head, item, function)?;
    Ok(walk)
}

/// The index of the last item that begins at or before an offset.
pub fn item_at(items: &[Item], at: u32) -> Option<usize> {
    let mut found = None;
    for (index, item) in items.iter().enumerate() {
        if item.place() <= at {
            found = Some(index);
        }
    }
    found
}
