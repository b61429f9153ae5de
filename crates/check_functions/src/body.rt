// The faults of functions.

ghost use Rattle.std.specs.Prelude.{◌≡◌, IfOk, List, OnOk, map, not, true};
ghost use Rattle.cyc_tree.specs.Tree as tree;
ghost use Rattle.cyc_tree.specs.View.{function_tree, item_tree, items_of};
ghost use Rattle.source_typing.specs.Faults.{earliest, test, type_rule};
ghost use Rattle.source_typing.specs.Functions.{body_scope, end_reached, function_faults, needs_return, with_parameters};
ghost use Rattle.source_typing.specs.Functions as rules;
ghost use Rattle.source_typing.specs.Scope.{Env};
ghost use Rattle.source_typing.specs.Statements.{items_faults};
ghost use Rattle.source_typing.specs.Tables as known;
ghost use Rattle.source_typing.specs.Written.{RegionNamed};
ghost use Rattle.check_faults.specs.Faults.{faults_of};
ghost use Rattle.check_declarations.specs.Contexts.{StandsIn};
ghost use Rattle.check_heads.specs.Bodies.{KnowsNames, code_names, names_of, types_of};
ghost use Rattle.check_functions.specs.Bodies.{own_found};
ghost use Rattle.check_heads.specs.Heads.{IsHead, known_static};

use check_declarations::{Context, declare_parameter};
use check_faults::{Fault, FaultKind, Verdict, sooner};
use check_heads::{Head, Names, Parameter, entered, is_main, known_type, read_head};
use check_regions::RegionNames;
use check_scopes::Scope;
use check_statements::{items_fall, items_fault};
use cyc_tree::{BlockItem, Function};
use cyc_types::{CType, RegionId};
use std::alloc::{AllocError, Global};

/// Declares the parameters in the body's block.
fn declare_parameters<'p>(
    scope: &mut Scope<'_, 'p>,
    context: Context<'_, 'p>,
    parameters: &[Parameter<'p>],
) -> Result<(), AllocError>
    ensures { (ns : List RegionNamed) (g : Env) (ms : List tree.Member) → code_names parameters.now ≡ names_of ms
        → StandsIn context.entry ns 0 scope.old g → OnOk result (StandsIn context.entry ns 0 scope.new (with_parameters ms (types_of parameters.now) g)) }
{
    'each: for parameter in parameters {
        declare_parameter(scope, context, parameter)?;
    }
    Ok(())
}

/// The earliest fault of a body's items, whose block's locals are the parameters.
fn inside_fault<'p>(
    scope: &mut Scope<'_, 'p>,
    known: &mut RegionNames<'p>,
    alloc: Global,
    context: Context<'_, 'p>,
    parameters: &[Parameter<'p>],
    items: &'p [BlockItem],
) -> Result<Option<Fault>, AllocError>
    ensures { (g : Env) (ms : List tree.Member) → code_names parameters.now ≡ names_of ms → StandsIn context.entry known.old 0 scope.old g
        → IfOk result (λ found. faults_of found
        ≡ earliest (items_faults (with_parameters ms (types_of parameters.now) g) true (items_of (map item_tree items.entry.now)))) }
{
    declare_parameters(scope, context, parameters)?;
    items_fault(scope, known, alloc, context, 0, true, items)
}

/// The earliest fault of a function's body.
fn body_fault<'p>(
    alloc: Global,
    names: Names<'_, 'p>,
    lenient: bool,
    item: u32,
    head: Head<'p>,
    function: &'p Function,
) -> Result<Option<Fault>, AllocError>
    ensures { (g : known.Tables) (h : rules.Head) → KnowsNames names.entry g
        → let f = function_tree function.entry.now in IsHead head.entry f h
        → IfOk result (λ found. faults_of found ≡ earliest (items_faults (body_scope lenient g item f h) true f.body)) }
{
    let mut scope = entered(alloc, names, lenient, &head)?;
    let frame = RegionId::Level(head.variables.count());
    let mut known = head.variables.into_names();
    let context = Context {
        result: known_type(&head.result),
        frame,
        item,
        in_loop: false,
        in_switch: false,
    };
    let parameters = head.parameters.as_slice();
    inside_fault(
        &mut scope,
        &mut known,
        alloc,
        context,
        parameters,
        &function.body,
    )
}

/// Whether a function with a result of this type has to return one.
fn needs_return(of: &Verdict<CType>) -> bool
    ensures { result ≡ needs_return (known_static of.now) }
{
    match of {
        Verdict::Of(of) => !of.is_void(),
        Verdict::Wrong(_) | Verdict::NotJudged => false,
    }
}

/// The fault of a function whose end is reached without a result.
fn end_fault(head: &Head, function: &Function) -> Option<Fault>
    ensures { (h : rules.Head) → let f = function_tree function.now in IsHead head.now f h
        → faults_of result ≡ earliest (test (not (end_reached f h)) type_rule f.end) }
{
    let is_reached = head.fault.is_none()
        && items_fall(&function.body)
        && needs_return(&head.result);
    if is_reached && !is_main(&function.name.text) {
        Some(Fault {
            kind: FaultKind::Typing,
            at: function.end,
        })
    } else {
        None
    }
}

/// The fault of a phrase: that of its parts, or else its own.
fn first_or(parts: Option<Fault>, own: Option<Fault>) -> Option<Fault>
    ensures { faults_of result ≡ own_found (faults_of own) (faults_of parts) }
{
    match parts {
        Some(fault) => Some(fault),
        None => own,
    }
}

/// The earliest fault of the function that is the program's item number `item`, where the program's names mean this; with or without
/// the rules on live regions and effects.
pub fn function_fault<'p>(
    alloc: Global,
    names: Names<'_, 'p>,
    lenient: bool,
    item: u32,
    function: &'p Function,
) -> Result<Option<Fault>, AllocError>
    ensures { (g : known.Tables) → KnowsNames names.entry g
        → IfOk result (λ f. faults_of f ≡ earliest (function_faults lenient g item (function_tree function.entry.now))) }
{
    let head = read_head(alloc, names.tags, lenient, function)?;
    let end = end_fault(&head, function);
    let own = head.fault;
    let body = body_fault(alloc, names, lenient, item, head, function)?;
    Ok(sooner(own, first_or(body, end)))
}
