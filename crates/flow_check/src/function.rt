// The faults of flow of functions.

ghost use Rattle.std.specs.Prelude.{◌≡◌, ◌++◌, IfOk, List, [], OnOk, false, map, reverse};
ghost use Rattle.cyc_tree.specs.Tree as tree;
ghost use Rattle.cyc_tree.specs.View.{function_tree};
ghost use Rattle.flow_summaries.specs.Statements.{fault_of_body};
ghost use Rattle.source_typing.specs.Functions as rules;
ghost use Rattle.source_typing.specs.Functions.{body_scope, head_of, with_parameters};
ghost use Rattle.source_typing.specs.Left.{states_at};
ghost use Rattle.source_typing.specs.Scope.{Env};
ghost use Rattle.source_typing.specs.Tables.{Tables};
ghost use Rattle.source_typing.specs.Written.{RegionNamed};
ghost use Rattle.check_heads.specs.Bodies.{KnowsNames, code_names, names_of, types_of};
ghost use Rattle.check_heads.specs.Heads.{IsHead};
ghost use Rattle.flow_effects.specs.Passed.{state_of};
ghost use Rattle.flow_check.specs.Standing.{Stands};

use crate::declared::begun;
use crate::statement::items_exits;
use check_declarations::{Context, declare_parameter};
use check_faults::Fault;
use check_heads::{Head, Names, Parameter, entered, known_type, read_head};
use check_regions::RegionNames;
use check_scopes::Scope;
use cyc_tree::Function;
use cyc_types::RegionId;
use flow_effects::Begun;
use std::alloc::{AllocError, Global};

/// Declares the parameters as locals, and answers the states in which they begin.
fn parameters_begun<'p>(
    scope: &mut Scope<'_, 'p>,
    alloc: Global,
    context: Context<'_, 'p>,
    parameters: &[Parameter<'p>],
) -> Result<Vec<Begun>, AllocError>
    ensures stands { (ns : List RegionNamed) (g : Env) (ms : List tree.Member) → code_names parameters.now ≡ names_of ms
        → Stands context.entry ns 0 scope.old g → OnOk result (Stands context.entry ns 0 scope.new (with_parameters ms (types_of parameters.now) g)) }
    ensures states { (ns : List RegionNamed) (g : Env) (ms : List tree.Member) → code_names parameters.now ≡ names_of ms
        → Stands context.entry ns 0 scope.old g → IfOk result (λ states. reverse (map state_of states.items) ++ states_at g
        ≡ states_at (with_parameters ms (types_of parameters.now) g)) }
{
    let mut states = Vec::new(alloc);
    'each: for parameter in parameters {
        let around = scope.locals.len();
        declare_parameter(scope, context, parameter)?;
        if let Some(state) = begun(scope, around, parameter.name) {
            states.push(state)?;
        }
    }
    Ok(states)
}

/// The earliest fault of flow of a function's body. No local is in scope yet.
fn body_flow<'p>(
    scope: &mut Scope<'_, 'p>,
    known: &mut RegionNames<'p>,
    alloc: Global,
    context: Context<'_, 'p>,
    parameters: &[Parameter<'p>],
    function: &'p Function,
) -> Result<Option<Fault>, AllocError>
    ensures { (g : Env) → let f = function_tree function.entry.now in g.locals ≡ [] → code_names parameters.now ≡ names_of f.parameters
        → Stands context.entry known.old 0 scope.old g
        → IfOk result (λ o. o ≡ fault_of_body (with_parameters f.parameters (types_of parameters.now) g) f) }
{
    let states = parameters_begun(scope, alloc, context, parameters)?;
    let exits = items_exits(scope, known, alloc, context, 0, &function.body)?;
    Ok(exits.whole.found(states.as_slice()))
}

/// The earliest fault of flow of the function number `item` of the program, which has this head.
fn headed_flow<'p>(
    alloc: Global,
    names: Names<'_, 'p>,
    item: u32,
    head: Head<'p>,
    function: &'p Function,
) -> Result<Option<Fault>, AllocError>
    ensures { (g : Tables) (h : rules.Head) → KnowsNames names.entry g → let f = function_tree function.entry.now in IsHead head.entry f h
        → IfOk result (λ o. o ≡ fault_of_body (body_scope false g item f h) f) }
{
    let mut scope = entered(alloc, names, false, &head)?;
    let frame = RegionId::Level(head.variables.count());
    let mut known = head.variables.into_names();
    let context = Context {
        result: known_type(&head.result),
        frame,
        item,
        in_loop: false,
        in_switch: false,
    };
    let parameters = head.parameters.as_slice();
    body_flow(&mut scope, &mut known, alloc, context, parameters, function)
}

/// The earliest fault of flow of the function number `item` of the program.
pub(crate) fn function_flow<'p>(
    alloc: Global,
    names: Names<'_, 'p>,
    item: u32,
    function: &'p Function,
) -> Result<Option<Fault>, AllocError>
    ensures { (g : Tables) → KnowsNames names.entry g → let f = function_tree function.entry.now in
        IfOk result (λ o. o ≡ fault_of_body (body_scope false g item f (head_of false g f)) f) }
{
    let head = read_head(alloc, names.tags, false, function)?;
    headed_flow(alloc, names, item, head, function)
}
