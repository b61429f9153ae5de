// Members of structs and subscripts, by what stands before them.

ghost use Rattle.std.specs.Prelude.{◌≡◌, IfOk};
ghost use Rattle.cyc_tree.specs.View.{name_tree};
ghost use Rattle.cyc_types.specs.Sameness.{HasTags};
ghost use Rattle.check_operators.specs.Values.{value_of};
ghost use Rattle.check_scopes.specs.Knows.{Sees};
ghost use Rattle.source_typing.specs.Places.{arrow, indexed, member};
ghost use Rattle.source_typing.specs.Scope.{Env};
ghost use Rattle.check_faults.specs.Verdicts.{short_after, short_both, short_of, shortened};

use check_faults::Verdict;
use check_operators::{Value, arrow, indexed, member};
use check_scopes::Scope;
use cyc_tree::Name;
use cyc_types::Tables;
use std::alloc::AllocError;

/// A member of what stands before it.
pub fn member_part<'p>(
    tables: &Tables<'p>,
    field: &Name,
    operand: Verdict<Value<'p>>,
) -> Result<Verdict<Value<'p>>, AllocError>
    ensures { (g : Env) → HasTags tables.now g.tables → IfOk result (λ v. short_of value_of v
        ≡ short_after (short_of value_of operand.entry) (λ a. shortened (member g (name_tree field.now) a))) }
{
    match operand {
        Verdict::Of(value) => member(tables, field, &value),
        Verdict::Wrong(fault) => Ok(Verdict::Wrong(fault)),
        Verdict::NotJudged => Ok(Verdict::NotJudged),
    }
}

/// A member of what a pointer leads to that stands before it.
pub fn arrow_part<'p>(
    scope: &Scope<'_, 'p>,
    field: &Name,
    operand: Verdict<Value<'p>>,
) -> Result<Verdict<Value<'p>>, AllocError>
    ensures { (g : Env) → Sees scope.now g → IfOk result (λ v. short_of value_of v
        ≡ short_after (short_of value_of operand.entry) (λ a. shortened (arrow g (name_tree field.now) a))) }
{
    match operand {
        Verdict::Of(value) => arrow(scope, scope.tables, field, value),
        Verdict::Wrong(fault) => Ok(Verdict::Wrong(fault)),
        Verdict::NotJudged => Ok(Verdict::NotJudged),
    }
}

/// A subscript of what stands before it.
#[tactic(auto, using(check_faults::proofs::Shortened::pair_known, check_faults::proofs::Shortened::pair_wrong, check_faults::proofs::Shortened::pair_not_judged))]
pub fn indexed_parts<'p>(
    scope: &Scope<'_, 'p>,
    operand: Verdict<Value<'p>>,
    index: Verdict<Value<'p>>,
) -> Verdict<Value<'p>>
    ensures { (g : Env) → Sees scope.now g → short_of value_of result
        ≡ short_both (short_of value_of operand.entry) (short_of value_of index.entry) (λ a b. shortened (indexed g a b)) }
{
    match operand.paired(index) {
        Verdict::Of((operand, index)) => indexed(scope, operand, &index),
        Verdict::Wrong(fault) => Verdict::Wrong(fault),
        Verdict::NotJudged => Verdict::NotJudged,
    }
}
