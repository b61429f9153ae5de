// What types locals have, and what their tags mean.

ghost use Rattle.std.specs.Prelude.{◌≡◌, Option, option_map};
ghost use Rattle.cyc_tree.specs.View.{type_tree};
ghost use Rattle.cyc_types.specs.Bases.{base_type};
ghost use Rattle.cyc_types.specs.Tables.{tables_of};
ghost use Rattle.cyc_types.specs.Types.{static_type};
ghost use Rattle.source_typing.specs.Declarations.{tag_earlier, tags_in_scope};
ghost use Rattle.source_typing.specs.Extents.{fits_bytes, variable_size};
ghost use Rattle.source_typing.specs.Scope.{Env};
ghost use Rattle.source_typing.specs.Tables.{tag_in};
ghost use Rattle.check_faults.specs.Verdicts.{short_of, shortened};
ghost use Rattle.check_scopes.specs.Knows.{Knows};
ghost use Rattle.check_scopes.specs.Means.{meaning_of};
ghost use Rattle.check_types.specs.Tagged.{TagIs};
ghost use Rattle.check_declarations.specs.Declaring.{could_be, elements_fit, fitting_by, stands_before, tag_of_meaning};

use check_faults::{Fault, FaultKind, Verdict};
use check_scopes::{Named, Scope};
use check_types::{TagName, type_tag};
use cyc_tree::TypeName;
use cyc_types::{BaseType, CType, MOST_BYTES, Tables};

/// What a name means where a tag is wanted, by what it means in scope. A name whose declaration has a fault isn't checked.
fn tag_name(named: Option<Named<'_, '_>>) -> TagName
    ensures { result ≡ tag_of_meaning (option_map meaning_of named.entry) }
{
    match named {
        None => TagName::NoName,
        Some(Named::Tag { is_union, regions }) => TagName::Tag { is_union, regions },
        Some(Named::FaultyTag(regions)) => TagName::NotJudged(regions),
        Some(Named::NotKnown) => TagName::NotJudged(0),
        Some(Named::Variable(_, _)) => TagName::Other,
        Some(Named::Array(_, _)) => TagName::Other,
        Some(Named::Counter | Named::Untyped) => TagName::Other,
        Some(Named::Function(_) | Named::Builtin(_)) => TagName::Other,
    }
}

/// What the tag means in scope that a type of structs or unions has.
pub(crate) fn local_tag(scope: &Scope<'_, '_>, of: &TypeName) -> TagName
    ensures { (g : Env) → Knows scope.now g → TagIs (tags_in_scope g) (type_tree of.now) result }
{
    match type_tag(of) {
        Some(name) => tag_name(scope.meaning(&name.text)),
        None => TagName::NoName,
    }
}

/// Whether the struct or union of a name, if there is one, stands before the item number `item`.
fn is_earlier(tables: &Tables, item: u32, name: &[u8]) -> bool
    ensures { result ≡ tag_earlier item (tag_in (tables_of tables.now) name.now) }
{
    match tables.tag(name) {
        Some(tag) => tag.order < item,
        None => true,
    }
}

/// Whether the struct or union that this base type is, if it is one, stands before the item number `item`.
fn base_before(tables: &Tables, item: u32, base: &BaseType) -> bool
    ensures { result ≡ stands_before (tables_of tables.now) item (base_type base.now) }
{
    match base {
        BaseType::Struct(tag, _) | BaseType::Union(tag, _) => is_earlier(tables, item, tag),
        _ => true,
    }
}

/// Whether the struct or union that a type is, if it is one, stands before the item number `item`.
#[tactic(auto, using(crate::proofs::LocalTypes::plain_stands, crate::proofs::LocalTypes::pointer_stands))]
fn stands_before(tables: &Tables, item: u32, of: &CType) -> bool
    ensures { result ≡ stands_before (tables_of tables.now) item (static_type of.now) }
{
    match of.outer() {
        Some(_) => true,
        None => base_before(tables, item, &of.base),
    }
}

/// Whether a variable of a type, or an array of `count` elements of it, has at most 4,096 bytes.
fn is_sized(tables: &Tables, of: &CType, count: Option<u32>) -> bool
    ensures { result ≡ fits_bytes (variable_size (tables_of tables.now) count (static_type of.now)) }
{
    match (tables.extent(of), count) {
        (Some(_), None) => true,
        (Some(extent), Some(count)) => u64::from(count) * u64::from(extent.size())
            <= u64::from(MOST_BYTES),
        (None, None) => false,
        (None, Some(count)) => count == 0,
    }
}

/// Whether there are elements, and they may be of a type; what is no array has none.
fn elements_fit(count: Option<u32>, of: &CType) -> bool
    ensures { result ≡ elements_fit count (static_type of.now) }
{
    match count {
        Some(count) => count > 0 && of.is_element(),
        None => true,
    }
}

/// Whether a local, or an array of `count` elements, may have a type, by whether it has an initializer.
fn could_be(tables: &Tables, item: u32, of: &CType, count: Option<u32>, set: bool) -> bool
    ensures { result ≡ could_be (tables_of tables.now) item count set (static_type of.now) }
{
    (set || tables.has_beginning(of))
        && !of.is_void()
        && stands_before(tables, item, of)
        && elements_fit(count, of)
}

/// The type of a variable, or of the elements of an array. It is a fault at this place if the item with this number can't have a
/// variable of it: with no value set the type needs a beginning, it isn't `void`, its struct or union stands earlier, an array's
/// elements may be in one, and the variable has at most 4,096 bytes.
pub fn fitted<'p>(
    tables: &Tables,
    item: u32,
    of: CType<'p>,
    at: u32,
    count: Option<u32>,
    set: bool,
) -> Verdict<CType<'p>>
    ensures { let t = static_type of.entry in
        short_of static_type result
        ≡ shortened (fitting_by (could_be (tables_of tables.now) item count set t) (fits_bytes (variable_size (tables_of tables.now) count t)) at t) }
{
    if !could_be(tables, item, &of, count, set) {
        Verdict::Wrong(Fault {
            kind: FaultKind::Typing,
            at,
        })
    } else if is_sized(tables, &of, count) {
        Verdict::Of(of)
    } else {
        Verdict::Wrong(Fault {
            kind: FaultKind::Size,
            at,
        })
    }
}
