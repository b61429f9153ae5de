// What is said of the types at a fault: what was found, and what was wanted.

use crate::labels::{Labels, layer_region};
use crate::nodes::Look;
use crate::order::{Apart, regions_apart, say_order};
use crate::paired::wanted_of;
use crate::printed::say_type;
use crate::redeclared::{say_cure, say_returned_cure};
use crate::walk::{Here, Walk};
use crate::words::Words;
use check_expressions::{applied_parts, judge};
use check_faults::Verdict;
use check_heads::{Head, known_type};
use check_operators::Value;
use cyc_tree::{Expression, Function, Item, Link, Name, Operator, RegionName, TypeName};
use cyc_types::{CType, RegionId};
use std::alloc::{AllocError, Global};

/// What is told at a fault, by what is in scope there.
#[derive(Drop)]
pub struct Told<'m, 'w, 'g, 'p> {
    pub words: &'m mut Words<'w>,
    pub walk: Walk<'g, 'p>,
    pub head: Head<'p>,
    /// The function around the fault, whose head it is.
    pub function: &'p Function,
    pub items: &'p [Item],
    pub alloc: Global,
    /// The offset of the fault.
    pub at: u32,
    /// Whether the fault is of the order of regions.
    pub is_order: bool,
}

impl<'m, 'w, 'g, 'p> Told<'m, 'w, 'g, 'p> {
    /// What an expression is. Fails only where no host memory is left, as all of these.
    pub fn judged(&self, value: &Expression) -> Result<Verdict<Value<'p>>, AllocError> {
        judge(&self.walk.scope, self.alloc, value)
    }

    /// What an operator gives of two operands.
    fn applied(
        &self,
        operator: Operator,
        one: Verdict<Value<'p>>,
        two: Verdict<Value<'p>>,
    ) -> Result<Verdict<Value<'p>>, AllocError> {
        applied_parts(&self.walk.scope, self.alloc, operator, one, two)
    }

    /// The innermost part of an expression that has the fault itself.
    fn innermost<'e>(&self, value: &'e Expression) -> Result<&'e Expression, AllocError> {
        let look = Look {
            scope: &self.walk.scope,
            alloc: self.alloc,
            at: self.at,
        };
        look.innermost(value)
    }

    /// Says the type of what was found.
    pub fn say_found(&mut self, found: &Value<'p>) -> Result<(), AllocError> {
        say_typed(self.words, &self.walk.labels, "Found:  ", &found.of)
    }

    /// Says the type that was wanted.
    fn say_wanted(&mut self, wanted: &CType<'p>) -> Result<(), AllocError> {
        say_typed(self.words, &self.walk.labels, "Wanted: ", wanted)
    }

    /// Says of two regions in which order they have to be, and how parameters are to be declared for it.
    fn say_apart(&mut self, apart: Apart) -> Result<(), AllocError> {
        say_order(self.words, &self.walk.labels, apart)?;
        self.say_parameters(apart)
    }

    /// Says how parameters are to be declared whose regions don't agree.
    fn say_parameters(&mut self, apart: Apart) -> Result<(), AllocError> {
        let written = self.function.parameters.as_slice();
        say_cure(self.words, &self.walk.labels, &self.head, written, apart)
    }

    /// Says in which region a value has to be, and that it isn't.
    pub fn say_outer(
        &mut self,
        found: &Value<'p>,
        wanted: Option<RegionId>,
    ) -> Result<(), AllocError> {
        let own = match found.of.outer() {
            Some(layer) => layer_region(layer),
            None => None,
        };
        let (Some(found), Some(wanted)) = (own, wanted) else {
            return Ok(());
        };
        if !self.is_order || self.walk.scope.outlives(found, wanted)? {
            return Ok(());
        }
        self.say_apart(Apart {
            found,
            wanted,
            is_outer: true,
        })
    }

    /// Says two types that don't agree.
    pub fn say_types(&mut self, found: &Value<'p>, wanted: &CType<'p>) -> Result<(), AllocError> {
        self.say_found(found)?;
        self.say_wanted(wanted)?;
        self.say_regions(&found.of, wanted)
    }

    /// Says which regions of two types don't agree, where that is the fault.
    fn say_regions(&mut self, found: &CType<'p>, wanted: &CType<'p>) -> Result<(), AllocError> {
        if !self.is_order {
            return Ok(());
        }
        match regions_apart(&self.walk.scope, found, wanted)? {
            Some(apart) => self.say_apart(apart),
            None => Ok(()),
        }
    }

    /// Says of an expression its type and the one that was wanted, which don't agree.
    pub fn say_given(
        &mut self,
        value: &Expression,
        found: &Value<'p>,
        wanted: &CType<'p>,
    ) -> Result<(), AllocError> {
        self.say_types(found, wanted)?;
        self.say_union_cure(value, &found.of, wanted)
    }

    /// Says of two operands of an operator their types.
    fn say_beside(
        &mut self,
        operator: Operator,
        one: Option<CType<'p>>,
        other: Option<CType<'p>>,
    ) -> Result<(), AllocError> {
        let (Some(one), Some(other)) = (one, other) else {
            return Ok(());
        };
        say_typed(self.words, &self.walk.labels, "Found:  ", &one)?;
        say_typed(self.words, &self.walk.labels, "Beside: ", &other)?;
        if !self.is_order {
            return self.words.say(wanted_of(operator, &one, &other));
        }
        match regions_apart(&self.walk.scope, &one, &other)? {
            Some(apart) => self.say_parameters(apart),
            None => Ok(()),
        }
    }

    /// Says of operands of one level which of them don't agree.
    fn say_operands(&mut self, first: &Expression, links: &[Link]) -> Result<(), AllocError> {
        let mut judged = self.judged(first)?;
        for link in links {
            let operand = self.judged(&link.operand)?;
            let one = type_of(&judged)?;
            let other = type_of(&operand)?;
            judged = self.applied(link.operator, judged, operand)?;
            if judged.fault().is_some() {
                return self.say_beside(link.operator, one, other);
            }
        }
        Ok(())
    }

    /// Says of an expression alone what it is.
    fn say_one(&mut self, part: &Expression) -> Result<(), AllocError> {
        match self.judged(part)? {
            Verdict::Of(found) => self.say_found(&found),
            _ => Ok(()),
        }
    }

    /// Says of an expression with a fault of its own what was found and wanted in it.
    fn say_node(&mut self, node: &Expression) -> Result<(), AllocError> {
        match node {
            Expression::Assign(to, from) => self.say_assigned(to, from),
            Expression::Call(name, arguments) => self.say_call(name, arguments),
            Expression::Chain(first, links) => self.say_operands(first, links),
            Expression::Variable(name) => self.say_variable(name),
            Expression::Suffixed(part, suffixes) => self.say_suffixed(part, suffixes),
            Expression::Prefixed(_, _, part)
            | Expression::NumElts(_, part)
            | Expression::AllOf(part, _)
            | Expression::AnyOf(part, _) => self.say_one(part),
            Expression::MakeUnion(tag, member, value) => self.say_union(tag, member, value),
            _ => Ok(()),
        }
    }

    /// The value of an expression without a fault; of another one says what was found in it.
    pub fn known(&mut self, value: &Expression) -> Result<Option<Value<'p>>, AllocError> {
        match self.judged(value)? {
            Verdict::Of(found) => Ok(Some(found)),
            Verdict::Wrong(_) => {
                let node = self.innermost(value)?;
                self.say_node(node)?;
                Ok(None)
            }
            Verdict::NotJudged => Ok(None),
        }
    }

    /// Says of a local that begins with a value what was found and wanted.
    fn say_begun(
        &mut self,
        of: &TypeName,
        name: &Name,
        value: &Expression,
    ) -> Result<(), AllocError> {
        let Some(found) = self.known(value)? else {
            return Ok(());
        };
        self.say_found(&found)?;
        self.words.say("Wanted: ")?;
        self.words.written(of.at, end_of(name))?;
        self.words.say("\n")?;
        let region = written_region(&self.walk, of);
        self.say_outer(&found, region)?;
        self.say_begun_cure(value, of)
    }

    /// Says what a function returns.
    fn say_result(&mut self) -> Result<(), AllocError> {
        match known_type(&self.head.result) {
            Some(wanted) => say_typed(self.words, &self.walk.labels, "Wanted: ", wanted),
            None => Ok(()),
        }
    }

    /// Says that a function's end is reached, and what it has to return.
    pub fn say_end(&mut self) -> Result<(), AllocError> {
        self.words
            .say("Found:  the end of the body, without a `return`\n")?;
        self.say_result()
    }

    /// Says of a value that is returned what was found and wanted.
    fn say_returned(&mut self, value: &Expression) -> Result<(), AllocError> {
        let Some(found) = self.known(value)? else {
            return Ok(());
        };
        let wanted = match known_type(&self.head.result) {
            Some(of) => of.try_clone()?,
            None => return self.say_found(&found),
        };
        self.say_returned_type(&found, &wanted)
    }

    /// Says of a value that is returned its type and the result's.
    fn say_returned_type(
        &mut self,
        found: &Value<'p>,
        wanted: &CType<'p>,
    ) -> Result<(), AllocError> {
        self.say_found(found)?;
        self.say_wanted(wanted)?;
        if !self.is_order {
            return Ok(());
        }
        match regions_apart(&self.walk.scope, &found.of, wanted)? {
            Some(apart) => self.say_returned_apart(apart),
            None => Ok(()),
        }
    }

    /// Says of two regions, of a value that is returned and of the result, in which order they have to be.
    fn say_returned_apart(&mut self, apart: Apart) -> Result<(), AllocError> {
        say_order(self.words, &self.walk.labels, apart)?;
        if say_returned_cure(
            self.words,
            &self.walk.labels,
            &self.head,
            self.function,
            apart,
        )? {
            return Ok(());
        }
        self.say_parameters(apart)
    }

    /// Says of a condition what was found.
    fn say_tested(&mut self, value: &Expression) -> Result<(), AllocError> {
        match self.known(value)? {
            Some(found) => {
                self.say_found(&found)?;
                self.words.say("Wanted: an integer or a pointer\n")
            }
            None => Ok(()),
        }
    }

    /// Says what was found and wanted at the position.
    pub fn say_here(&mut self) -> Result<(), AllocError> {
        match self.walk.here {
            Here::Nothing => Ok(()),
            Here::Begins(of, name, value) => self.say_begun(of, name, value),
            Here::Returned(value) => self.say_returned(value),
            Here::ReturnedNone => self.say_result(),
            Here::Tested(value) => self.say_tested(value),
            Here::Other(value) => {
                let _value = self.known(value)?;
                Ok(())
            }
            Here::Exchanged(left, right) => self.say_exchanged(left, right),
        }
    }
}

/// Says a type behind a word.
pub fn say_typed(
    words: &mut Words<'_>,
    labels: &Labels<'_>,
    word: &str,
    of: &CType<'_>,
) -> Result<(), AllocError> {
    words.say(word)?;
    say_type(words, labels, of)?;
    words.say("\n")
}

/// The offset behind a name.
pub fn end_of(name: &Name) -> u32 {
    let length = u32::try_from(name.text.len()).unwrap_or(u32::MAX);
    name.at.saturating_add(length)
}

/// The type of an expression, where it is known. Fails only where no host memory is left.
pub fn type_of<'p>(judged: &Verdict<Value<'p>>) -> Result<Option<CType<'p>>, AllocError> {
    match judged {
        Verdict::Of(value) => Ok(Some(value.of.try_clone()?)),
        Verdict::Wrong(_) | Verdict::NotJudged => Ok(None),
    }
}

/// The region that is written at the outermost pointer of a type.
fn written_region(walk: &Walk<'_, '_>, of: &TypeName) -> Option<RegionId> {
    match &of.pointers.last()?.region {
        Some(RegionName::Named(name)) => walk.known.find(&name.text),
        Some(RegionName::Heap(_)) => Some(RegionId::Heap),
        Some(RegionName::Unique(_)) | None => None,
    }
}
