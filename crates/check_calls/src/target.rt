// What is called.

ghost use Rattle.std.specs.Prelude.{◌≡◌, Option, Some, false, option_map, ℕ};
ghost use Rattle.cyc_types.specs.Sameness.{HasTags};
ghost use Rattle.cyc_types.specs.Tables.{tables_of};
ghost use Rattle.source_typing.specs.Calls.{target};
ghost use Rattle.source_typing.specs.Scope.{Env, meant};
ghost use Rattle.source_typing.specs.Tables.{Entry, tag_in};
ghost use Rattle.check_faults.specs.Verdicts.{short_of, shortened};
ghost use Rattle.check_scopes.specs.Means.{Means, meaning_of};
ghost use Rattle.check_scopes.specs.declared.meaning.Meaning.TheVariants as code;
ghost use Rattle.check_calls.specs.Targets.{struct_in, target_of};

use check_faults::{Fault, FaultKind, Verdict};
use check_scopes::{Named, Signature};
use cyc_types::{Tables, Tag};

/// What is called.
#[derive(Clone, Copy)]
pub enum Target<'a, 'p> {
    /// A function that every program has, with its number of parameters.
    Builtin(u32),
    /// A struct by its name, which is made of its members.
    Struct(&'p [u8], &'a Tag<'p>),
    /// A function of the program.
    Function(&'a Signature<'p>),
}

/// The struct of this name, as what is called.
fn struct_named<'a, 'p>(tables: &'a Tables<'p>, name: &[u8]) -> Verdict<Target<'a, 'p>>
    ensures { short_of target_of result ≡ shortened (struct_in (tag_in (tables_of tables.now) name.now)) }
{
    match tables.named(name) {
        Some((declared, tag)) => Verdict::Of(Target::Struct(declared, tag)),
        None => Verdict::NotJudged,
    }
}

/// What is called by a name of this meaning. `made` is the struct of the name.
fn target_by<'a, 'p>(
    at: u32,
    named: Option<Named<'a, 'p>>,
    made: Verdict<Target<'a, 'p>>,
) -> Verdict<Target<'a, 'p>>
    ensures { (e : Option Entry) → Means e (option_map meaning_of named.entry)
        → ((n : ℕ) → option_map meaning_of named.entry ≡ Some (code.Tag false n) → short_of target_of made.entry ≡ shortened (target at e))
        → short_of target_of result ≡ shortened (target at e) }
{
    match named {
        None => Verdict::Wrong(Fault {
            kind: FaultKind::Name,
            at,
        }),
        Some(Named::Variable(_, _)) => Verdict::Wrong(Fault {
            kind: FaultKind::Typing,
            at,
        }),
        Some(Named::Array(_, _) | Named::Counter) => Verdict::Wrong(Fault {
            kind: FaultKind::Typing,
            at,
        }),
        Some(Named::Untyped) => Verdict::Wrong(Fault {
            kind: FaultKind::Typing,
            at,
        }),
        Some(Named::Tag { is_union: true, .. }) => Verdict::Wrong(Fault {
            kind: FaultKind::Typing,
            at,
        }),
        Some(
            Named::Tag {
                is_union: false,
                ..
            },
        ) => made,
        Some(Named::Function(signature)) => Verdict::Of(Target::Function(signature)),
        Some(Named::Builtin(parameters)) => Verdict::Of(Target::Builtin(parameters)),
        Some(Named::FaultyTag(_) | Named::NotKnown) => Verdict::NotJudged,
    }
}

/// What a name at this position calls, by its meaning. It is a fault if the name is unknown or can't be called. If its declaration has an
/// error, the call isn't checked.
pub fn called_target<'a, 'p>(
    tables: &'a Tables<'p>,
    at: u32,
    name: &[u8],
    named: Option<Named<'a, 'p>>,
) -> Verdict<Target<'a, 'p>>
    ensures { (g : Env) → HasTags tables.now g.tables → Means (meant g name.now) (option_map meaning_of named.entry)
        → short_of target_of result ≡ shortened (target at (meant g name.now)) }
{
    let made = struct_named(tables, name);
    target_by(at, named, made)
}
