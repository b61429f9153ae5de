// Values of unions, which are made of one of their members.

ghost use Rattle.std.specs.Prelude.{◌≡◌, IfOk, List, Option, Some, option_map, true, ℕ};
ghost use Rattle.cyc_tree.specs.View.{name_tree};
ghost use Rattle.cyc_types.specs.Regions.{regions_of};
ghost use Rattle.cyc_types.specs.Sameness.{HasTags};
ghost use Rattle.cyc_types.specs.Tables.{tables_of};
ghost use Rattle.cyc_types.specs.Tags.{member_of, tag_of};
ghost use Rattle.check_operators.specs.Values.{value_of};
ghost use Rattle.check_scopes.specs.Knows.{Sees};
ghost use Rattle.check_scopes.specs.Means.{Means, meaning_of};
ghost use Rattle.check_scopes.specs.declared.meaning.Meaning.TheVariants as code;
ghost use Rattle.source_typing.specs.Calls.{union_made, union_member, union_tag};
ghost use Rattle.source_typing.specs.Regions.{Region};
ghost use Rattle.source_typing.specs.Scope.{Env, meant, value};
ghost use Rattle.source_typing.specs.Tables.{Entry, tag_in};
ghost use Rattle.source_typing.specs.Types.{Union};
ghost use Rattle.source_typing.specs.Verdicts as verdict;
ghost use Rattle.source_typing.specs.Verdicts.{after};
ghost use Rattle.check_faults.specs.Verdicts.{short_of, shortened};
ghost use Rattle.check_calls.specs.Converted.{regions_in};
ghost use Rattle.check_calls.specs.Enclosings.{enclosing_of};
ghost use Rattle.check_calls.specs.Unions.{made_of, union_in};
ghost use Rattle.cyc_tree.specs.Tree as tree;

use crate::arguments::arguments_fit;
use crate::call::given;
use crate::enclosing::Enclosing;
use crate::making::member_type;
use check_faults::{Fault, FaultKind, Verdict};
use check_operators::Value;
use check_scopes::{Named, Scope};
use cyc_tree::Name;
use cyc_types::{BaseType, CType, Member, RegionId, Tables, Tag};
use smallvec::SmallVec;
use std::alloc::{AllocError, Global};

/// The member of a union that a value is made of.
#[derive(Clone, Copy)]
pub struct UnionMember<'a, 'p> {
    /// The union's name in its declaration.
    pub text: &'p [u8],
    pub tag: &'a Tag<'p>,
    pub member: &'a Member<'p>,
}

/// The member `field` of a union, by what was found of that name.
fn member_in<'a, 'p>(
    text: &'p [u8],
    tag: &'a Tag<'p>,
    found: Option<&'a Member<'p>>,
    field: &Name,
) -> Verdict<UnionMember<'a, 'p>>
    ensures { short_of made_of result ≡ shortened (union_member (name_tree field.now) (tag_of text.entry.now tag.now)
        (option_map (λ m. member_of m.now) found.entry)) }
{
    match found {
        Some(member) => Verdict::Of(UnionMember { text, tag, member }),
        None => Verdict::Wrong(Fault {
            kind: FaultKind::Name,
            at: field.at,
        }),
    }
}

/// The member `field` of the union of this name.
fn union_named<'a, 'p>(
    tables: &'a Tables<'p>,
    name: &[u8],
    field: &Name,
) -> Verdict<UnionMember<'a, 'p>>
    ensures { short_of made_of result ≡ shortened (union_in (name_tree field.now) (tag_in (tables_of tables.now) name.now)) }
{
    match tables.named(name) {
        Some((declared, tag)) => {
            let found = tables.member(name, field.text.as_slice());
            member_in(declared, tag, found, field)
        }
        None => Verdict::NotJudged,
    }
}

/// The member that a value is made of, by the meaning of the union's name. `made` is the member in the union of that name.
fn union_by<'a, 'p>(
    at: u32,
    named: Option<Named<'_, 'p>>,
    made: Verdict<UnionMember<'a, 'p>>,
) -> Verdict<UnionMember<'a, 'p>>
    ensures { (x f : tree.Name) (e : Option Entry) → x.at ≡ at → Means e (option_map meaning_of named.entry)
        → ((n : ℕ) → option_map meaning_of named.entry ≡ Some (code.Tag true n) → short_of made_of made.entry ≡ shortened (union_tag x f e))
        → short_of made_of result ≡ shortened (union_tag x f e) }
{
    match named {
        None => Verdict::Wrong(Fault {
            kind: FaultKind::Name,
            at,
        }),
        Some(Named::Variable(_, _)) => Verdict::Wrong(Fault {
            kind: FaultKind::Typing,
            at,
        }),
        Some(Named::Array(_, _)) => Verdict::Wrong(Fault {
            kind: FaultKind::Typing,
            at,
        }),
        Some(
            Named::Counter
            | Named::Function(_)
            | Named::Builtin(_)
            | Named::Tag {
                is_union: false,
                ..
            },
        ) => Verdict::Wrong(Fault {
            kind: FaultKind::Typing,
            at,
        }),
        Some(Named::Untyped) => Verdict::Wrong(Fault {
            kind: FaultKind::Typing,
            at,
        }),
        Some(Named::Tag { is_union: true, .. }) => made,
        Some(Named::FaultyTag(_) | Named::NotKnown) => Verdict::NotJudged,
    }
}

/// The union and its member that a value is made of, by the meaning of the union's name. It is a fault if the name is unknown or is no
/// union's. If its declaration has an error, the value isn't checked.
pub fn union_tag<'a, 'p>(
    tables: &'a Tables<'p>,
    name: &Name,
    field: &Name,
    named: Option<Named<'_, 'p>>,
) -> Verdict<UnionMember<'a, 'p>>
    ensures { (g : Env) → HasTags tables.now g.tables → Means (meant g name.now.text.items) (option_map meaning_of named.entry)
        → short_of made_of result ≡ shortened (union_tag (name_tree name.now) (name_tree field.now) (meant g name.now.text.items)) }
{
    let made = union_named(tables, name.text.as_slice(), field);
    union_by(name.at, named, made)
}

/// The value of a union. `regions` are what its region parameters stand for.
fn union_of<'p>(
    alloc: Global,
    at: u32,
    text: &'p [u8],
    regions: &[RegionId],
) -> Result<Verdict<Value<'p>>, AllocError>
    ensures { IfOk result (λ v. short_of value_of v ≡ shortened (value at (Union text.entry.now (regions_of regions.now)))) }
{
    let arguments = SmallVec::from_slice(alloc, regions)?;
    let base = BaseType::Union(text, arguments);
    Ok(given(at, CType::plain(alloc, base)))
}

/// The verdict on a union's value, by the verdict on what it is made of.
fn made<'p>(
    alloc: Global,
    at: u32,
    text: &'p [u8],
    fit: Verdict<Vec<RegionId>>,
) -> Result<Verdict<Value<'p>>, AllocError>
    ensures { (v : verdict.Verdict (List Region)) → short_of regions_in fit ≡ shortened v
        → IfOk result (λ r. short_of value_of r ≡ shortened (after v (λ rs. value at (Union text.entry.now rs)))) }
{
    match fit {
        Verdict::Wrong(fault) => Ok(Verdict::Wrong(fault)),
        Verdict::NotJudged => Ok(Verdict::NotJudged),
        Verdict::Of(regions) => union_of(alloc, at, text, regions.as_slice()),
    }
}

/// The verdict on a union's value that is made of a member's value, which instantiates the union's region parameters. `enclosing` is the
/// region of the innermost `rnew` around it.
pub fn union_made<'p>(
    scope: &Scope<'_, 'p>,
    alloc: Global,
    enclosing: Enclosing,
    at: u32,
    of: UnionMember<'_, 'p>,
    given: Value<'p>,
) -> Result<Verdict<Value<'p>>, AllocError>
    ensures { (g : Env) → Sees scope.now g → g.enclosing ≡ enclosing_of enclosing
        → IfOk result (λ v. short_of value_of v ≡ shortened (union_made g at (made_of of.entry) (value_of given.entry))) }
{
    let parameters = [member_type(of.member)?];
    let arguments = [given];
    let variables = of.tag.regions;
    let fit = arguments_fit(
        scope,
        alloc,
        enclosing,
        at,
        variables,
        &parameters,
        &arguments,
    )?;
    made(alloc, at, of.text, fit)
}
