// Names that have to be of a kind of type.

ghost use Rattle.std.specs.Prelude.{◌≡◌, IfOk};
ghost use Rattle.cyc_tree.specs.View.{name_tree};
ghost use Rattle.cyc_types.specs.Types.{static_type};
ghost use Rattle.source_typing.specs.Declarations.{if_type, operand};
ghost use Rattle.source_typing.specs.Faults.{earliest};
ghost use Rattle.source_typing.specs.Scope.{Env};
ghost use Rattle.source_typing.specs.Scope as judged;
ghost use Rattle.source_typing.specs.Types.{is_unique};
ghost use Rattle.source_typing.specs.Verdicts as verdict;
ghost use Rattle.check_faults.specs.Faults.{faults_of};
ghost use Rattle.check_faults.specs.Verdicts.{short_of, shortened};
ghost use Rattle.check_scopes.specs.Knows.{Knows};
ghost use Rattle.check_operators.specs.Values.{value_of};
ghost use Rattle.check_declarations.specs.Operands.{is_kind};

use check_faults::{Fault, FaultKind, Verdict};
use check_operators::{Value, variable};
use check_scopes::Scope;
use cyc_tree::Name;
use cyc_types::{CType, Layer};
use std::alloc::{AllocError, Global};

/// Which type a name has to have.
#[derive(Clone, Copy)]
pub enum Kind {
    /// A unique pointer.
    Unique,
    /// A dynamic region's key.
    Key,
}

/// Whether it is a unique pointer.
#[tactic(auto, using(crate::proofs::Operands::unique_kind))]
pub fn is_unique(of: &CType) -> bool
    ensures { result ≡ is_unique (static_type of.now) }
{
    matches!(of.outer(), Some(Layer::Unique(_)))
}

/// Whether a type is of a kind.
fn is_kind(kind: Kind, of: &CType) -> bool
    ensures { result ≡ is_kind kind (static_type of.now) }
{
    match kind {
        Kind::Unique => is_unique(of),
        Kind::Key => of.is_key(),
    }
}

/// A name at this position, whose type has to be of a kind.
fn of_kind<'p>(at: u32, kind: Kind, value: Verdict<Value<'p>>) -> Verdict<Value<'p>>
    ensures { (v : verdict.Verdict judged.Value) → short_of value_of value.entry ≡ shortened v
        → short_of value_of result ≡ shortened (verdict.after v (if_type at (is_kind kind))) }
{
    match value {
        Verdict::Of(value) => {
            if is_kind(kind, &value.of) {
                Verdict::Of(value)
            } else {
                Verdict::Wrong(Fault {
                    kind: FaultKind::Typing,
                    at,
                })
            }
        }
        Verdict::Wrong(fault) => Verdict::Wrong(fault),
        Verdict::NotJudged => Verdict::NotJudged,
    }
}

/// A name whose type has to be of a kind.
pub(crate) fn operand<'p>(
    scope: &Scope<'_, 'p>,
    alloc: Global,
    kind: Kind,
    name: &Name,
) -> Result<Verdict<Value<'p>>, AllocError>
    ensures { (g : Env) → Knows scope.now g → IfOk result (λ v. short_of value_of v ≡ shortened (operand g (name_tree name.now) (is_kind kind))) }
{
    let value = variable(alloc, name.at, scope.meaning(&name.text))?;
    Ok(of_kind(name.at, kind, value))
}

/// The earliest fault of such a name.
#[tactic(auto, using(check_heads::proofs::Answered::fault_is))]
pub fn operand_fault(
    scope: &Scope<'_, '_>,
    alloc: Global,
    kind: Kind,
    name: &Name,
) -> Result<Option<Fault>, AllocError>
    ensures { (g : Env) → Knows scope.now g → IfOk result (λ f. faults_of f ≡ earliest (verdict.faults_of (operand g (name_tree name.now) (is_kind kind)))) }
{
    let value = operand(scope, alloc, kind, name)?;
    Ok(value.fault())
}
