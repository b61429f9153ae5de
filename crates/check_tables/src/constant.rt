// Constants, as globals begin with them.

ghost use Rattle.std.specs.Prelude.{◌≡◌, ◌+◌, Bool, IfOk, length, ℕ};
ghost use Rattle.cyc_tree.specs.Tree as tree;
ghost use Rattle.cyc_tree.specs.View.{constant_tree, initial_tree};
ghost use Rattle.cyc_types.specs.Bases.{base_type};
ghost use Rattle.cyc_types.specs.Types.{static_type};
ghost use Rattle.check_operators.specs.Values.{value_of};
ghost use Rattle.source_typing.specs.Declarations.{set_faults};
ghost use Rattle.source_typing.specs.Expressions.{number_typed};
ghost use Rattle.source_typing.specs.Faults.{earliest};
ghost use Rattle.source_typing.specs.Globals.{constant, string_faults};
ghost use Rattle.source_typing.specs.Scope.{at_item, value};
ghost use Rattle.source_typing.specs.Scope as judged;
ghost use Rattle.source_typing.specs.Tables as rules_tables;
ghost use Rattle.source_typing.specs.Types.{StaticType};
ghost use Rattle.check_faults.specs.Faults.{faults_of};
ghost use Rattle.check_faults.specs.Verdicts.{short_of, shortened};
ghost use Rattle.check_tables.specs.Globals.{are_enough, enough_for, faults_by};
ghost use Rattle.source_typing.specs.Verdicts as rules;

use check_declarations::set_fault;
use check_faults::{Fault, FaultKind, Verdict, sooner};
use check_operators::{Seat, Value, string};
use check_regions::RegionScope;
use check_scopes::{Globals, Locals, Scope};
use cyc_tree::{Constant, Initial};
use cyc_types::{BaseType, CType, Layer, Tables};
use std::alloc::{AllocError, Global};

/// The type of a number, which may have the suffix `u`.
fn number_base<'p>(number: u32, suffix: bool) -> BaseType<'p>
    ensures { base_type result ≡ number_typed number suffix }
{
    if !suffix && number < 0x8000_0000 {
        BaseType::Int
    } else {
        BaseType::Unsigned
    }
}

/// A value of a type that is no pointer.
fn plain_value<'p>(alloc: Global, at: u32, base: BaseType<'p>) -> Verdict<Value<'p>>
    ensures { short_of value_of result ≡ shortened (value at (base_type base.entry)) }
{
    Verdict::Of(Value {
        at,
        of: CType::plain(alloc, base),
        seat: Seat::Nowhere,
    })
}

/// The value of a constant.
fn constant_value<'p>(alloc: Global, given: &Constant) -> Result<Verdict<Value<'p>>, AllocError>
    ensures { IfOk result (λ v. short_of value_of v ≡ shortened (constant (constant_tree given.now))) }
{
    match given {
        Constant::Number(at, number, suffix) | Constant::Negative(at, number, suffix) => {
            Ok(plain_value(alloc, *at, number_base(*number, *suffix)))
        }
        Constant::Character(at, _) => Ok(plain_value(alloc, *at, BaseType::Char)),
        Constant::Null(at) => Ok(plain_value(alloc, *at, BaseType::Null)),
        Constant::Text(at, text) => string(alloc, *at, text),
    }
}

/// The earliest fault of a global's type and its constant.
fn given_fault(
    alloc: Global,
    value: &Verdict<Value<'_>>,
    of: &Verdict<CType<'_>>,
) -> Result<Option<Fault>, AllocError>
    ensures { (lenient : Bool) (g : rules_tables.Tables) (i : ℕ) (v : rules.Verdict judged.Value) (t : rules.Verdict StaticType)
        → short_of value_of value.now ≡ shortened v → short_of static_type of.now ≡ shortened t
        → IfOk result (λ f. faults_of f ≡ earliest (set_faults (at_item lenient g i) v t)) }
{
    let globals = Globals::new(alloc);
    let tables = Tables::new(alloc);
    let scope = Scope {
        globals: &globals,
        tables: &tables,
        locals: Locals::new(alloc),
        regions: RegionScope::of_item(alloc),
        lenient: false,
    };
    set_fault(&scope, value, of)
}

/// Whether there are at least as many elements as the pointer's bound, if it is a thin one.
fn are_enough(elements: usize, pointer: Option<Layer>) -> bool
    ensures { result ≡ are_enough elements pointer }
{
    match pointer {
        Some(Layer::Thin(bound, _)) => bound.count() as usize <= elements,
        Some(Layer::Fat(_) | Layer::Unique(_)) | None => true,
    }
}

/// Whether a string has as many elements as a thin pointer leads to, where the pointer's type is known: its bytes, and a 0 behind them.
#[tactic(auto, using(crate::proofs::Texts::enough_of, crate::proofs::Texts::wrong_enough, crate::proofs::Texts::unjudged_enough))]
fn is_long_enough(bytes: &[u8], to: &Verdict<CType<'_>>) -> bool
    ensures { (t : rules.Verdict StaticType) → short_of static_type to.now ≡ shortened t → result ≡ enough_for (length bytes.now + 1) t }
{
    match to {
        Verdict::Of(of) => are_enough(bytes.len() + 1, of.outer()),
        Verdict::Wrong(_) | Verdict::NotJudged => true,
    }
}

/// The fault of a string at this position that has fewer elements than the bound of its global's pointer.
#[tactic(auto, using(crate::proofs::Texts::enough_faults, crate::proofs::Texts::short_faults))]
fn text_fault(at: u32, bytes: &[u8], to: &Verdict<CType<'_>>) -> Option<Fault>
    ensures { (v : judged.Value) (t : rules.Verdict StaticType) → short_of static_type to.now ≡ shortened t
        → faults_of result ≡ earliest (string_faults (rules.Of v) (tree.Constant.Text at bytes.now) t) }
{
    if is_long_enough(bytes, to) {
        None
    } else {
        Some(Fault {
            kind: FaultKind::Typing,
            at,
        })
    }
}

/// The same of a constant that is in order, which may be a string.
fn constant_fault(given: &Constant, to: &Verdict<CType<'_>>) -> Option<Fault>
    ensures { (v : judged.Value) (t : rules.Verdict StaticType) → short_of static_type to.now ≡ shortened t
        → faults_of result ≡ earliest (string_faults (rules.Of v) (constant_tree given.now) t) }
{
    match given {
        Constant::Text(at, text) => text_fault(*at, text, to),
        Constant::Number(_, _, _) | Constant::Negative(_, _, _) => None,
        Constant::Character(_, _) | Constant::Null(_) => None,
    }
}

/// The same of a constant by its value: one with a fault of its own isn't checked.
#[tactic(auto, using(crate::proofs::Texts::of_value, crate::proofs::Texts::of_wrong, crate::proofs::Texts::of_unjudged))]
fn string_fault(
    given: &Constant,
    value: &Verdict<Value<'_>>,
    to: &Verdict<CType<'_>>,
) -> Option<Fault>
    ensures { (v : rules.Verdict judged.Value) (t : rules.Verdict StaticType)
        → short_of value_of value.now ≡ shortened v → short_of static_type to.now ≡ shortened t
        → faults_of result ≡ earliest (string_faults v (constant_tree given.now) t) }
{
    match value {
        Verdict::Of(_) => constant_fault(given, to),
        Verdict::Wrong(_) | Verdict::NotJudged => None,
    }
}

/// The earliest fault of a global's type and of what it begins with.
pub(crate) fn initial_fault(
    alloc: Global,
    initial: &Initial,
    to: &Verdict<CType<'_>>,
) -> Result<Option<Fault>, AllocError>
    ensures { (lenient : Bool) (g : rules_tables.Tables) (i : ℕ) (v : rules.Verdict StaticType) → short_of static_type to.now ≡ shortened v
        → IfOk result (λ f. faults_of f ≡ earliest (faults_by (at_item lenient g i) (initial_tree initial.now) v)) }
{
    match initial {
        Initial::None => Ok(to.fault()),
        Initial::Array(_) => Ok(to.fault()),
        Initial::Constant(constant) => {
            let value = constant_value(alloc, constant)?;
            let fault = given_fault(alloc, &value, to)?;
            Ok(sooner(fault, string_fault(constant, &value, to)))
        }
    }
}
