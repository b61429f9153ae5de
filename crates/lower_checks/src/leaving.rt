// The regions that are in scope, and how they are left.

ghost use Rattle.std.specs.Prelude.{◌≡◌, ◌+◌, ◌<◌, ◌≤◌, ◌∷◌, ◌++◌, [], Bool, List, false, length, reverse, slice_index_or, suc};
ghost use Rattle.core_meaning.specs.Core as core;
ghost use Rattle.cyc_tree.specs.View.{declaration_tree, expression_tree};
ghost use Rattle.cyc_core.specs.Trees.{operation_tree, statement_tree};
ghost use Rattle.source_lowering.specs.Lowered.{conversion_code, expression_code, expression_values, results_in, static_shape};
ghost use Rattle.source_lowering.specs.Programs.{in_loop, in_switch, leaving_code, left_by, no_regions, regions_with};
ghost use Rattle.source_lowering.specs.Lowerable.{Takes};
ghost use Rattle.cyc_tree.specs.Room.{room};
ghost use Rattle.lower_checks.specs.Counted.{IsCounted};
ghost use Rattle.lower_checks.specs.Room.{HasRoom};
ghost use Rattle.lower_checks.specs.Scoped.{names_in, world_in};
ghost use Rattle.lower_checks.specs.Views.{regions_tree, shape_tree};
ghost use Rattle.lower_checks.specs.Writing.{Emits, IsSound, Stays, Writes, next_of};

use crate::body::Body;
use crate::expression::lower_expression;
use crate::scope::Scope;
use crate::shape::Shape;
use crate::values::lower_conversion;
use cyc_core::{Operation, Origin, Statement, Temporary};
use cyc_tree::{Declaration, Expression};

/// The regions around a statement: how many of its function are in scope, whose handles are in the first temporaries, how many of these
/// were opened within what a `break` leaves, the innermost loop or `switch`, and how many within the innermost loop. Whether a key opened
/// each of all stands beside this, the innermost one last.
#[derive(Clone, Copy)]
pub struct RegionsAround {
    pub all: u32,
    pub broken: u32,
    pub continued: u32,
}

impl RegionsAround {
    /// No region is in scope.
    pub fn none() -> RegionsAround
        ensures none { regions_tree result [] ≡ no_regions }
        ensures counted { IsCounted result }
    {
        RegionsAround {
            all: 0,
            broken: 0,
            continued: 0,
        }
    }

    /// Within a loop.
    pub fn in_loop(self) -> RegionsAround
        ensures regions { (opened : List Bool) → regions_tree result opened ≡ in_loop (regions_tree self opened) }
        ensures all { result.all ≡ self.all }
        ensures counted { IsCounted result }
    {
        RegionsAround {
            all: self.all,
            broken: 0,
            continued: 0,
        }
    }

    /// Within a `switch`.
    pub fn in_switch(self) -> RegionsAround
        requires counted { IsCounted self }
        ensures regions { (opened : List Bool) → regions_tree result opened ≡ in_switch (regions_tree self opened) }
        ensures all { result.all ≡ self.all }
        ensures counted { IsCounted result }
    {
        RegionsAround {
            all: self.all,
            broken: 0,
            continued: self.continued,
        }
    }

    /// One more, which a key opened or not.
    fn further(self, body: &mut Body<'_>, opened: &mut Vec<bool>, by_key: bool) -> RegionsAround
        requires room { HasRoom self.all 1 }
        requires counted { IsCounted self }
        ensures stays { Stays body.old body.new }
        ensures all { result.all ≡ suc self.all }
        ensures counted { IsCounted result }
        ensures regions { IsSound body.new → regions_tree result opened.new.items ≡ record {
          all = suc self.all;
          broken = suc self.broken;
          continued = suc self.continued;
          opened = by_key ∷ reverse opened.old.items;
        } }
    {
        note_opened(body, opened, by_key);
        RegionsAround {
            all: self.all + 1,
            broken: self.broken + 1,
            continued: self.continued + 1,
        }
    }

    /// Behind a declaration: one more where it declares a region.
    pub fn with(
        self,
        body: &mut Body<'_>,
        opened: &mut Vec<bool>,
        declaration: &Declaration,
    ) -> RegionsAround
        requires room { HasRoom self.all 1 }
        requires counted { IsCounted self }
        ensures stays { Stays body.old body.new }
        ensures all { result.all ≤ suc self.all }
        ensures counted { IsCounted result }
        ensures regions { IsSound body.new →
            regions_tree result opened.new.items ≡ regions_with (declaration_tree declaration.now) (regions_tree self opened.old.items) }
    {
        match declaration {
            Declaration::Region(_, _, _) => self.further(body, opened, false),
            Declaration::Open(_, _, _, _) => self.further(body, opened, true),
            _ => self,
        }
    }

    /// The temporary of a statement's own values.
    pub fn value(self) -> Temporary
        ensures { result.0 ≡ self.all }
    {
        Temporary(self.all)
    }
}

/// Adds whether a key opened a further region.
fn note_opened(body: &mut Body<'_>, opened: &mut Vec<bool>, by_key: bool)
    ensures stays { Stays body.old body.new }
    ensures noted { IsSound body.new → opened.new.items ≡ opened.old.items ++ by_key ∷ [] }
{
    match opened.push(by_key) {
        Ok(()) => {}
        Err(_) => body.fail(),
    }
}

/// Whether a key opened each region that is in scope where a block begins, to which those of the block are added.
pub fn opened_outside(body: &mut Body<'_>, opened: &[bool]) -> Vec<bool>
    ensures stays { Stays body.old body.new }
    ensures opened { IsSound body.new → result.items ≡ opened.now }
{
    let mut outside = Vec::new(body.alloc);
    match outside.extend_from_slice(opened) {
        Ok(()) => {}
        Err(_) => body.fail(),
    }
    outside
}

/// Whether a key opened the region of this number.
fn opened_at(opened: &[bool], number: usize) -> bool
    requires { number < length opened.now }
    ensures { result ≡ slice_index_or opened.now number false }
{
    opened[number]
}

/// What leaves a region whose handle, or key, is in a temporary: it is closed where a key opened it, and else freed.
fn left_by(opened: bool, handle: Temporary) -> Operation
    ensures { operation_tree result ≡ left_by opened handle.0 }
{
    if opened {
        Operation::KeyClose(handle)
    } else {
        Operation::RegionFree(handle)
    }
}

/// Appends what leaves this number of the regions in scope, the innermost first.
pub fn lower_leaving(body: &mut Body<'_>, opened: &[bool], all: u32, count: u32)
    ensures { Emits body.old body.new (leaving_code (reverse opened.now) all count) }
{
    let mut at = opened.len();
    let mut regions = all;
    let mut more = count;
    'each: while at != 0 && regions != 0 && more != 0 {
        at -= 1;
        regions -= 1;
        more -= 1;
        let by_key = opened_at(opened, at);
        body.operation(left_by(by_key, Temporary(regions)));
    }
}

/// Appends a return with the value of a shape in a temporary and those behind it.
fn lower_result(body: &mut Body<'_>, shape: &Shape<'_>, to: Temporary)
    requires room { HasRoom to.0 2 }
    ensures { Emits body.old body.new (core.Return (results_in (shape_tree shape.now) to.0) ∷ []) }
{
    let at = body.at;
    body.emit(Statement::Return(shape.result_in(to), at));
}

/// Appends a return, with the value of an expression in the shape of the function's result, when all regions of the function are left;
/// appends the shapes of the temporary objects.
pub fn lower_return<'p>(
    scope: &Scope<'_, 'p>,
    shape: &Shape<'_>,
    value: &'p Expression,
    body: &mut Body<'p>,
    around: RegionsAround,
    opened: &[bool],
)
    requires room { HasRoom around.all (3 + room (expression_tree value.now)) }
    requires taken { IsSound body.old → Takes (world_in scope.now) (names_in scope.now) (expression_tree value.now) }
    ensures writes { let w = world_in scope.now in
        let names = names_in scope.now in
        let s = shape_tree shape.now in
        let e = expression_tree value.entry.now in
        let d = around.all in
        Writes body.old body.new
        (expression_code w names e d (next_of body.old) ++
        (conversion_code w s (static_shape w names e) d ++ (leaving_code (reverse opened.now) d d ++ core.Return (results_in s d) ∷ [])))
        (expression_values w names e) }
{
    let to = around.value();
    let from = lower_expression(scope, value, body, to);
    lower_conversion(scope.program, body, shape, &from, to, Origin(value.place()));
    lower_leaving(body, opened, around.all, around.all);
    lower_result(body, shape, to);
}

/// Appends a statement that leaves this number of regions, when these are left.
pub fn lower_left(
    body: &mut Body<'_>,
    around: RegionsAround,
    opened: &[bool],
    count: u32,
    statement: Statement,
)
    ensures { Emits body.old body.new (leaving_code (reverse opened.now) around.all count ++ statement_tree statement ∷ []) }
{
    lower_leaving(body, opened, around.all, count);
    body.emit(statement);
}
