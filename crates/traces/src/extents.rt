// Where expressions end in a text. The tree has only where they begin.

use cyc_tree::{Expression, Name, Suffix};

/// The offset behind a name.
pub fn end_of_name(name: &Name) -> u32 {
    let length = u32::try_from(name.text.len()).unwrap_or(0);
    name.at.wrapping_add(length)
}

/// The offset behind the next such byte from an offset on.
fn behind_next(text: &[u8], from: u32, closing: u8) -> Option<u32> {
    let rest = text.get(from as usize..)?;
    let length = rest.iter().position(|byte| *byte == closing)?;
    let length = u32::try_from(length).ok()?;
    from.checked_add(length)?.checked_add(1)
}

/// The offset behind suffixes; none where there is none.
#[cycle(extents)]
fn end_of_suffixes(text: &[u8], suffixes: &[Suffix]) -> Option<u32> {
    let mut end = None;
    'each: for suffix in suffixes {
        end = match suffix {
            Suffix::Index(index) => match end_of(text, index) {
                Some(inner) => behind_next(text, inner, b']'),
                None => None,
            },
            Suffix::Dot(name) | Suffix::Arrow(name) => Some(end_of_name(name)),
        };
    }
    end
}

/// The offset behind a call with these arguments.
#[cycle(extents)]
fn end_of_call(text: &[u8], name: &Name, arguments: &[Expression]) -> Option<u32> {
    let last = match arguments.last() {
        None => end_of_name(name),
        Some(argument) => end_of(text, argument)?,
    };
    behind_next(text, last, b')')
}

/// The offset behind an expression; none of one that is never NULL.
#[cycle(extents)]
pub fn end_of(text: &[u8], expression: &Expression) -> Option<u32> {
    match expression {
        Expression::Variable(name) => Some(end_of_name(name)),
        Expression::Null(at) => at.checked_add(4),
        Expression::Number(at, _, _) => {
            let rest = text.get(*at as usize..)?;
            let length = rest.iter().position(|byte| !byte.is_ascii_alphanumeric())?;
            at.checked_add(u32::try_from(length).ok()?)
        }
        Expression::Call(name, arguments) => end_of_call(text, name, arguments),
        Expression::Grouped(_, inner) | Expression::NumElts(_, inner) => {
            behind_next(text, end_of(text, inner)?, b')')
        }
        Expression::Suffixed(_, suffixes) => end_of_suffixes(text, suffixes),
        Expression::Prefixed(_, _, operand) => end_of(text, operand),
        Expression::Chain(_, links) => end_of(text, &links.last()?.operand),
        Expression::AllOf(_, others) | Expression::AnyOf(_, others) => end_of(text, others.last()?),
        Expression::Assign(_, value) => end_of(text, value),
        Expression::Character(_, _)
        | Expression::Text(_, _)
        | Expression::HeapRegion(_)
        | Expression::UniqueRegion(_)
        | Expression::MakeUnion(_, _, _)
        | Expression::New(_, _)
        | Expression::NewIn(_, _, _) => None,
    }
}

/// The offset behind a primary with these suffixes.
pub fn end_of_suffixed(text: &[u8], first: &Expression, suffixes: &[Suffix]) -> Option<u32> {
    if suffixes.is_empty() {
        end_of(text, first)
    } else {
        end_of_suffixes(text, suffixes)
    }
}
