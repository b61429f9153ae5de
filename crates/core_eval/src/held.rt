// What cells hold.

ghost use Rattle.std.specs.Prelude.{◌≡◌, Some, None, IfSome, false, if◌then◌else◌, slice_get};
ghost use Rattle.core_eval.specs.Values.{
  blanked,
  bound_value,
  first_held,
  first_of,
  kept_of,
  pointer_part,
  put_part,
  refilled,
  values_in,
  width_of,
};

use crate::value::Value;
use cyc_core::{Cell, Width};

/// A count, an index or a tag: a word, or nothing as yet.
#[derive(Clone, Copy)]
pub enum Bound {
    /// Nothing as yet.
    Blank,
    /// A word.
    Word(u32),
}

impl Bound {
    /// The same as a value, if it is nothing or a word.
    pub fn kept(value: Value) -> Option<Self>
        ensures kept { result ≡ kept_of value }
        ensures some { IfSome result (λ bound. bound_value bound ≡ value) }
    {
        match value {
            Value::Blank => Some(Bound::Blank),
            Value::Word(word) => Some(Bound::Word(word)),
            Value::Null | Value::Pointer(_) | Value::Birth(_) => None,
        }
    }

    /// The value that it is.
    pub fn value(self) -> Value
        ensures { result ≡ bound_value self }
    {
        match self {
            Bound::Blank => Value::Blank,
            Bound::Word(word) => Value::Word(word),
        }
    }
}

/// What a cell holds, part by part.
#[derive(Clone, Copy)]
pub enum Held {
    /// A number of one byte.
    Byte(Value),
    /// A number of four bytes, a pointer or a handle.
    Word(Value),
    /// A fat pointer: its first element, how many it has, and its index.
    Fat(Value, Bound, Bound),
    /// A tagged union: the number of the member that it holds, and that member.
    Tagged(Bound, Value),
    /// A tagged union that may hold a fat pointer: the number of the member that it holds, and the member's parts.
    TaggedFat(Bound, Value, Bound, Bound),
}

impl Held {
    /// What a cell begins as.
    pub fn first(cell: Cell) -> Self
        ensures { result ≡ first_held cell }
    {
        match cell {
            Cell::Byte => Held::Byte(Value::Word(0)),
            Cell::Word => Held::Word(Value::Word(0)),
            Cell::Pointer => Held::Word(Value::Null),
            Cell::Fat => Held::Fat(Value::Null, Bound::Word(0), Bound::Word(0)),
            Cell::Handle => Held::Word(Value::Blank),
            Cell::Tagged => Held::Tagged(Bound::Blank, Value::Blank),
            Cell::TaggedFat => {
                Held::TaggedFat(Bound::Blank, Value::Blank, Bound::Blank, Bound::Blank)
            }
        }
    }

    /// As many parts, which hold nothing.
    pub fn blanked(self) -> Self
        ensures { result ≡ blanked self }
    {
        match self {
            Held::Byte(_) => Held::Byte(Value::Blank),
            Held::Word(_) => Held::Word(Value::Blank),
            Held::Fat(_, _, _) => Held::Fat(Value::Blank, Bound::Blank, Bound::Blank),
            Held::Tagged(_, _) => Held::Tagged(Bound::Blank, Value::Blank),
            Held::TaggedFat(_, _, _, _) => {
                Held::TaggedFat(Bound::Blank, Value::Blank, Bound::Blank, Bound::Blank)
            }
        }
    }

    /// How wide each part is.
    pub fn width(self) -> Width
        ensures { result ≡ width_of self }
    {
        match self {
            Held::Byte(_) => Width::Byte,
            Held::Word(_) | Held::Fat(_, _, _) | Held::Tagged(_, _) | Held::TaggedFat(_, _, _, _) =>
                Width::Word,
        }
    }

    /// The number of the part that may be a pointer or a handle: the first, or of a tagged union the one behind its tag. Each other part
    /// is a word, or nothing as yet.
    pub fn pointer_part(self) -> u8
        ensures { result ≡ pointer_part self }
    {
        match self {
            Held::Byte(_) | Held::Word(_) | Held::Fat(_, _, _) => 0,
            Held::Tagged(_, _) | Held::TaggedFat(_, _, _, _) => 1,
        }
    }

    /// What the first part holds.
    pub fn value(self) -> Value
        ensures { result ≡ first_of self }
    {
        match self {
            Held::Byte(value) | Held::Word(value) | Held::Fat(value, _, _) => value,
            Held::Tagged(tag, _) | Held::TaggedFat(tag, _, _, _) => tag.value(),
        }
    }

    /// What the part with this number holds, if there is one.
    pub fn part(self, part: u8) -> Option<Value>
        ensures { result ≡ slice_get (values_in self) part }
    {
        match self {
            Held::Byte(value) => { if part == 0 { Some(value) } else { None } }
            Held::Word(value) => { if part == 0 { Some(value) } else { None } }
            Held::Fat(first, count, index) => match part {
                0 => Some(first),
                1 => Some(count.value()),
                2 => Some(index.value()),
                _ => None,
            },
            Held::Tagged(tag, member) => match part {
                0 => Some(tag.value()),
                1 => Some(member),
                _ => None,
            },
            Held::TaggedFat(tag, first, count, index) => match part {
                0 => Some(tag.value()),
                1 => Some(first),
                2 => Some(count.value()),
                3 => Some(index.value()),
                _ => None,
            },
        }
    }

    /// The same with another value in the part with this number, if there is one, and the value is kept there.
    fn with_part(self, part: u8, value: Value) -> Option<Self>
        ensures { result ≡ put_part self part value }
    {
        match (self, part, Bound::kept(value)) {
            (Held::Byte(_), 0, _) => Some(Held::Byte(value)),
            (Held::Word(_), 0, _) => Some(Held::Word(value)),
            (Held::Fat(_, count, index), 0, _) => Some(Held::Fat(value, count, index)),
            (Held::Fat(first, _, index), 1, Some(count)) => Some(Held::Fat(first, count, index)),
            (Held::Fat(first, count, _), 2, Some(index)) => Some(Held::Fat(first, count, index)),
            (Held::Tagged(_, member), 0, Some(tag)) => Some(Held::Tagged(tag, member)),
            (Held::Tagged(tag, _), 1, _) => Some(Held::Tagged(tag, value)),
            (Held::TaggedFat(_, first, count, index), 0, Some(tag)) => {
                Some(Held::TaggedFat(tag, first, count, index))
            }
            (Held::TaggedFat(tag, _, count, index), 1, _) => {
                Some(Held::TaggedFat(tag, value, count, index))
            }
            (Held::TaggedFat(tag, first, _, index), 2, Some(count)) => {
                Some(Held::TaggedFat(tag, first, count, index))
            }
            (Held::TaggedFat(tag, first, count, _), 3, Some(index)) => {
                Some(Held::TaggedFat(tag, first, count, index))
            }
            _ => None,
        }
    }

    /// Stores a value to the part with this number, if there is one, and the value is kept there, and answers whether it is.
    pub fn put(&mut self, part: u8, value: Value) -> bool
        ensures put { put_part self.old part value ≡ (if result then Some self.new else None) }
        ensures kept { result ≡ false → self.new ≡ self.old }
    {
        match (&mut *self, part) {
            (Held::Word(held), 0) => {
                *held = value;
                return true;
            }
            _ => {}
        }
        match self.with_part(part, value) {
            Some(held) => {
                *self = held;
                true
            }
            None => false,
        }
    }

    /// The same with other values in as many of its parts as these are, where pointers are in the same part of both.
    pub fn refilled(self, held: Held) -> Self
        ensures { result ≡ refilled self held }
    {
        match (self, held) {
            (Held::Byte(_), _) => Held::Byte(held.value()),
            (Held::Word(_), _) => Held::Word(held.value()),
            (Held::Fat(_, _, _), Held::Fat(_, _, _))
            | (Held::Tagged(_, _), Held::Tagged(_, _))
            | (Held::TaggedFat(_, _, _, _), Held::TaggedFat(_, _, _, _)) => held,
            (Held::Fat(_, count, index), _) => Held::Fat(held.value(), count, index),
            (Held::TaggedFat(_, _, count, index), Held::Tagged(tag, member)) => {
                Held::TaggedFat(tag, member, count, index)
            }
            (Held::Tagged(_, _), _) | (Held::TaggedFat(_, _, _, _), _) => self,
        }
    }
}
