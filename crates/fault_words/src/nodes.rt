// The innermost expression that has a fault of its own.

use check_expressions::judge;
use check_faults::Verdict;
use check_scopes::Scope;
use cyc_tree::{Expression, Link, Made, Suffix};
use std::alloc::{AllocError, Global};

/// How deep expressions nest at most.
const DEEPEST: u32 = 1024;

/// Where an expression is looked at for a fault at an offset.
#[derive(Clone, Copy)]
pub(crate) struct Look<'s, 'g, 'p> {
    pub(crate) scope: &'s Scope<'g, 'p>,
    pub(crate) alloc: Global,
    pub(crate) at: u32,
}

impl<'s, 'g, 'p> Look<'s, 'g, 'p> {
    /// The expression, where it has a fault at the offset. Fails only where no host memory is left, as all of these.
    fn wrong<'e>(self, part: &'e Expression) -> Result<Option<&'e Expression>, AllocError> {
        match judge(self.scope, self.alloc, part)? {
            Verdict::Wrong(fault) if fault.at == self.at => Ok(Some(part)),
            _ => Ok(None),
        }
    }

    /// The first of two expressions that has the fault.
    fn wrong_of<'e>(
        self,
        one: &'e Expression,
        other: &'e Expression,
    ) -> Result<Option<&'e Expression>, AllocError> {
        match self.wrong(one)? {
            Some(part) => Ok(Some(part)),
            None => self.wrong(other),
        }
    }

    /// The first of several expressions that has the fault.
    fn wrong_among<'e>(
        self,
        parts: &'e [Expression],
    ) -> Result<Option<&'e Expression>, AllocError> {
        for part in parts {
            if let Some(wrong) = self.wrong(part)? {
                return Ok(Some(wrong));
            }
        }
        Ok(None)
    }

    /// The first operand that has the fault.
    fn wrong_link<'e>(self, links: &'e [Link]) -> Result<Option<&'e Expression>, AllocError> {
        for link in links {
            if let Some(wrong) = self.wrong(&link.operand)? {
                return Ok(Some(wrong));
            }
        }
        Ok(None)
    }

    /// The first index that has the fault.
    fn wrong_index<'e>(self, suffixes: &'e [Suffix]) -> Result<Option<&'e Expression>, AllocError> {
        for suffix in suffixes {
            if let Suffix::Index(index) = suffix {
                if let Some(wrong) = self.wrong(index)? {
                    return Ok(Some(wrong));
                }
            }
        }
        Ok(None)
    }

    /// What is made and has the fault.
    fn wrong_made<'e>(self, made: &'e Made) -> Result<Option<&'e Expression>, AllocError> {
        match made {
            Made::One(value) => self.wrong(value),
            Made::Array(_, count, _) => self.wrong(count),
        }
    }

    /// The part of an expression that has the fault.
    fn wrong_part<'e>(self, node: &'e Expression) -> Result<Option<&'e Expression>, AllocError> {
        match node {
            Expression::Call(_, arguments) => self.wrong_among(arguments),
            Expression::MakeUnion(_, _, inner)
            | Expression::NumElts(_, inner)
            | Expression::Grouped(_, inner)
            | Expression::Prefixed(_, _, inner) => self.wrong(inner),
            Expression::Suffixed(first, suffixes) => match self.wrong(first)? {
                Some(part) => Ok(Some(part)),
                None => self.wrong_index(suffixes),
            },
            Expression::New(_, made) | Expression::NewIn(_, _, made) => self.wrong_made(made),
            Expression::Chain(first, links) => match self.wrong(first)? {
                Some(part) => Ok(Some(part)),
                None => self.wrong_link(links),
            },
            Expression::AllOf(first, others) | Expression::AnyOf(first, others) => {
                match self.wrong(first)? {
                    Some(part) => Ok(Some(part)),
                    None => self.wrong_among(others),
                }
            }
            Expression::Assign(to, from) => self.wrong_of(to, from),
            _ => Ok(None),
        }
    }

    /// The innermost part of an expression with the fault that has it itself.
    pub(crate) fn innermost<'e>(self, node: &'e Expression) -> Result<&'e Expression, AllocError> {
        let mut inner = node;
        for _ in 0..DEEPEST {
            match self.wrong_part(inner)? {
                Some(part) => inner = part,
                None => return Ok(inner),
            }
        }
        Ok(inner)
    }
}
