// Functions.

ghost use Rattle.std.specs.Prelude.{◌≡◌, ◌+◌, ◌*◌, ◌++◌, ◌<◌, ◌^◌, IfOk, length, map};
ghost use Rattle.cyc_tree.specs.View.{member_tree, function_tree as source_tree};
ghost use Rattle.cyc_core.specs.Trees.{body_tree, function_tree};
ghost use Rattle.source_meaning.specs.Shapes.{part_of, part_shapes};
ghost use Rattle.source_lowering.specs.Members.{all_words};
ghost use Rattle.source_meaning.specs.Programs.{world_of, routine_of};
ghost use Rattle.source_lowering.specs.Programs.{parameter_names, parameters_code, end_code, body_code, routine_values, function_code};
ghost use Rattle.lower_checks.specs.Views.{shape_tree, stored_tree};
ghost use Rattle.lower_checks.specs.Visible.{names_of};
ghost use Rattle.source_lowering.specs.Lowerable.{TakesFunction};
ghost use Rattle.cyc_tree.specs.Room.{function_room};
ghost use Rattle.lower_checks.specs.Room.{HasRoom};
ghost use Rattle.lower_checks.specs.Writing.{Emits, IsSound, values_of};

use crate::body::Body;
use crate::leaving::RegionsAround;
use crate::locals::Locals;
use crate::objects::values_of;
use crate::order::locals_order;
use crate::shape::Shape;
use crate::statement::{declare, lower_inside, lower_items};
use crate::stored::Stored;
use crate::table::Table;
use crate::usage::{passed, temporaries};
use crate::variable::lower_store_local;
use cyc_core::{Function, Operation, Origin, Statement, Temporary, Variable, Words};
use cyc_tree::{Function as Source, Member};
use std::alloc::{AllocError, Global};

/// How many words parameters take.
fn parameter_words(parameters: &[Member]) -> u32
    requires room { HasRoom 0 (3 * length parameters.now) }
    ensures { result ≡ all_words (part_shapes (map part_of (map member_tree parameters.now))) }
{
    let mut words = 0;
    'each: for parameter in parameters {
        words += Shape::of(&parameter.of).words();
    }
    words
}

/// Declares the parameters, and appends what stores the value of each, whose words are in the temporaries from 0 on, one parameter behind
/// the other; one temporary is free behind all of them.
fn lower_parameters<'p>(
    locals: &mut Locals<'p>,
    all: &mut Vec<Stored<'p>>,
    body: &mut Body<'_>,
    parameters: &'p [Member],
    free: Temporary,
)
    requires room { HasRoom 0 (2 + 3 * length parameters.now) }
    ensures code { Emits body.old body.new (parameters_code (map part_of (map member_tree parameters.entry.now)) 0 0 free.0) }
    ensures names { IsSound body.new → names_of locals.new ≡ parameter_names (map part_of (map member_tree parameters.entry.now)) 0 (names_of locals.old) }
    ensures stored { IsSound body.new →
        map stored_tree all.new.items ≡ map stored_tree all.old.items ++ part_shapes (map part_of (map member_tree parameters.entry.now)) }
{
    let mut index = 0;
    let mut words = 0;
    'each: for parameter in parameters {
        let shape = Shape::of(&parameter.of);
        let local = Variable { out: 0, index };
        lower_store_local(body, &shape, local, free, Temporary(words));
        declare(
            locals,
            all,
            &parameter.name,
            Stored::One(shape),
            index,
            body,
        );
        index += 1;
        words += shape.words();
    }
}

/// Appends the end of a function without `return`, which gives 0 where a result is due, of what stands at an origin.
fn lower_end(body: &mut Body<'_>, shape: &Shape<'_>, at: Origin)
    ensures { Emits body.old body.new (end_code (shape_tree shape.now)) }
{
    match shape {
        Shape::Void => body.emit(Statement::Return(None, at)),
        _ => {
            body.emit(Statement::Do(at, Operation::Constant(Temporary(0), 0)));
            body.emit(Statement::Return(Some(Words::One(Temporary(0))), at));
        }
    }
}

/// What a function does whose parameters take this number of words, and the shapes of its temporary objects.
fn lower_body<'p>(
    alloc: Global,
    program: &Table<'p>,
    function: &'p Source,
    parameters: u32,
) -> Body<'p>
    requires room { HasRoom 0 (function_room (source_tree function.now)) }
    requires taken { TakesFunction (world_of program.now) (source_tree function.now) }
    requires words { parameters ≡ all_words (part_shapes (routine_of (source_tree function.now)).parameters) }
    ensures code { let f = routine_of (source_tree function.entry.now) in IsSound result → body_tree result.code.items ≡ body_code (world_of program.now) f }
    ensures values { let f = routine_of (source_tree function.entry.now) in IsSound result → values_of result ≡ routine_values (world_of program.now) f }
{
    let shape = Shape::of(&function.result);
    let mut body = Body::new(alloc, Origin(function.name.at));
    let mut locals = Locals::new(alloc);
    let mut all = Vec::new(alloc);
    let opened = Vec::new(alloc);
    lower_parameters(
        &mut locals,
        &mut all,
        &mut body,
        &function.parameters,
        Temporary(parameters),
    );
    lower_items(
        program,
        &shape,
        &mut locals,
        &function.body,
        &mut all,
        &mut body,
        RegionsAround::none(),
        &opened,
    );
    let inside = body.end(Vec::new(alloc));
    lower_inside(program, &all, &mut body, inside);
    lower_end(&mut body, &shape, Origin(function.end));
    body
}

/// A number that fits a word.
fn word(number: u64) -> u32
    requires fits { number < 2 ^ 32 }
    ensures { result ≡ number }
{
    number as u32
}

/// A function, with as many temporaries as its parameters take or its code uses.
pub fn lower_function<'p>(
    alloc: Global,
    program: &Table<'p>,
    function: &'p Source,
) -> Result<Function, AllocError>
    requires room { HasRoom 0 (function_room (source_tree function.now)) }
    requires taken { TakesFunction (world_of program.now) (source_tree function.now) }
    ensures code { let f = routine_of (source_tree function.entry.now) in
        IfOk result (λ lowered. function_tree lowered ≡ function_code (world_of program.now) f) }
{
    let parameters = parameter_words(&function.parameters);
    let Body {
        code,
        own,
        failed,
        ..
    } = lower_body(alloc, program, function, parameters);
    if failed {
        return Err(AllocError);
    }
    let temporaries = word(u64::max(u64::from(parameters), temporaries(&code)));
    let passed = word(passed(&code) as u64);
    let own = values_of(alloc, program, &own)?;
    Ok(Function {
        parameters,
        temporaries,
        passed,
        order: locals_order(alloc, function)?,
        own,
        body: code,
    })
}
