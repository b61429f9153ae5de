// Summaries of expressions, by how they are used.

ghost use Rattle.std.specs.Prelude.{◌≡◌, IfOk, List};
ghost use Rattle.cyc_tree.specs.Tree as tree;
ghost use Rattle.flow_summaries.specs.Passages.{Passage};
ghost use Rattle.flow_summaries.specs.Uses.{number_of, uses_as_place, uses_as_value, uses_of_array, uses_of_own};
ghost use Rattle.source_typing.specs.Scope.{Local};
ghost use Rattle.flow_effects.specs.Passed.{passage_of};
ghost use Rattle.flow_effects.specs.Used.{IsUsed};
ghost use Rattle.flow_effects.specs.declared.used.Usage.{Usage as TheUsage};

use crate::passed::Passed;
use std::alloc::{AllocError, Global};

/// How an expression is used.
#[derive(Clone, Copy)]
pub enum Usage {
    /// Its value is moved or copied.
    Value,
    /// It is only looked at.
    Look,
    /// Its address is taken by `&`.
    Place,
    /// It is assigned as a whole.
    Target,
}

/// The summary of an expression that is used in one way.
#[derive(Drop)]
pub struct Used {
    pub passed: Passed,
    /// Whether it is the name of a noncopyable local.
    pub whole: bool,
    /// Whether it is a noncopyable local, a part of one, or an element of a local array of noncopyable values.
    pub own: bool,
}

impl Used {
    /// An expression that is no place.
    pub fn value(passed: Passed) -> Used
        ensures { (how : TheUsage) (p : Passage) → passage_of passed ≡ p → IsUsed how (uses_as_value p) result }
    {
        Used {
            passed,
            whole: false,
            own: false,
        }
    }

    /// A place that is no local's name. It is a fault to move a noncopyable value out of it.
    pub fn place(how: Usage, at: u32, moves: bool, own: bool, passed: Passed) -> Used
        ensures { (p : Passage) → passage_of passed ≡ p → IsUsed how (uses_as_place at moves own p) result }
    {
        let passed = match how {
            Usage::Value => passed.in_turn(Passed::copied_if(moves, at)),
            Usage::Look | Usage::Place | Usage::Target => passed,
        };
        Used {
            passed,
            whole: false,
            own,
        }
    }

    /// The name of a noncopyable local with this number.
    pub fn own(
        alloc: Global,
        how: Usage,
        at: u32,
        number: Option<usize>,
    ) -> Result<Used, AllocError>
        ensures { (ls : List Local) (x : tree.Name) → x.at ≡ at → number_of ls x.text ≡ number → IfOk result (IsUsed how (uses_of_own ls x)) }
    {
        let passed = match how {
            Usage::Value => Passed::moved(alloc, at, number)?,
            Usage::Look => Passed::looked_at(alloc, at, number)?,
            Usage::Place => Passed::nothing(),
            Usage::Target => Passed::assigned(alloc, at, number)?,
        };
        Ok(Used {
            passed,
            whole: true,
            own: true,
        })
    }

    /// The name of a local array of noncopyable elements.
    pub fn array(at: u32) -> Used
        ensures { (how : TheUsage) → IsUsed how (uses_of_array at) result }
    {
        Used {
            passed: Passed::copied_if(true, at),
            whole: false,
            own: true,
        }
    }
}
