// Types in the heads of functions.

ghost use Rattle.std.specs.Prelude.{◌≡◌, ◌&&◌, ◌||◌, IfOk};
ghost use Rattle.cyc_types.specs.Types.{static_type};
ghost use Rattle.source_typing.specs.Functions.{fits_parameter};
ghost use Rattle.source_typing.specs.Tags.{settled_alone};
ghost use Rattle.source_typing.specs.Types.{PartialType, StaticType, is_void};
ghost use Rattle.source_typing.specs.Verdicts as rules;
ghost use Rattle.check_faults.specs.Verdicts.{short_of, shortened};
ghost use Rattle.check_types.specs.Reading.{if_scalar};
ghost use Rattle.check_types.specs.Written.{partial_type};

use crate::settling::{WrittenType, settled};
use check_faults::{Fault, FaultKind, Verdict};
use cyc_types::CType;
use std::alloc::AllocError;

/// A type that takes no missing regions from another one.
pub fn settled_alone<'p>(
    of: Verdict<WrittenType<'p>>,
    at: u32,
) -> Result<Verdict<CType<'p>>, AllocError>
    ensures { (w : rules.Verdict PartialType) → short_of partial_type of.entry ≡ shortened w
        → IfOk result (λ v. short_of static_type v ≡ shortened (rules.after w (settled_alone at))) }
{
    match of {
        Verdict::Of(of) => {
            let settled = settled(of, at, None)?;
            Ok(settled)
        }
        Verdict::Wrong(fault) => Ok(Verdict::Wrong(fault)),
        Verdict::NotJudged => Ok(Verdict::NotJudged),
    }
}

/// Whether a result may be of a type, where `void` is taken, and else a parameter.
fn fits(of: &CType<'_>, takes_void: bool) -> bool
    ensures { result ≡ ((takes_void && is_void (static_type of.now)) || fits_parameter (static_type of.now)) }
{
    (takes_void && of.is_void()) || (of.is_scalar() && !of.is_union())
}

/// The type, or the fault at this position if it doesn't fit.
fn fitted<'p>(of: CType<'p>, at: u32, takes_void: bool) -> Verdict<CType<'p>>
    ensures { short_of static_type result ≡ shortened (if_scalar takes_void at (static_type of.entry)) }
{
    if fits(&of, takes_void) {
        Verdict::Of(of)
    } else {
        Verdict::Wrong(Fault {
            kind: FaultKind::Typing,
            at,
        })
    }
}

/// The type of a result, where `void` is taken, and else of a parameter.
pub(crate) fn fitting<'p>(of: Verdict<CType<'p>>, at: u32, takes_void: bool) -> Verdict<CType<'p>>
    ensures { (w : rules.Verdict StaticType) → short_of static_type of.entry ≡ shortened w
        → short_of static_type result ≡ shortened (rules.after w (if_scalar takes_void at)) }
{
    match of {
        Verdict::Of(of) => fitted(of, at, takes_void),
        Verdict::Wrong(fault) => Verdict::Wrong(fault),
        Verdict::NotJudged => Verdict::NotJudged,
    }
}
