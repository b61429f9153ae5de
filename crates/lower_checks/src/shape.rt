// Shapes, and what depends on them alone.

ghost use Rattle.std.specs.Prelude.{◌≡◌, ◌∷◌, List, IfOk, option_map};
ghost use Rattle.cyc_tree.specs.View.{base_tree, pointer_tree, region_tree, type_tree};
ghost use Rattle.source_meaning.specs.Shapes as shapes;
ghost use Rattle.source_meaning.specs.Shapes.{CharShape, FatShape, MayBeNull, NeverNull, ThinShape, VoidShape, Shared, base_shape, count_of};
ghost use Rattle.source_meaning.specs.Shapes.{owner_of, pointee, settled, shared_owner, signed_shape, written};
ghost use Rattle.source_lowering.specs.Lowered.{results_in, width_of};
ghost use Rattle.source_lowering.specs.Members.{words_in};
ghost use Rattle.cyc_core.specs.Trees.{bytes_of, optional_tree};
ghost use Rattle.lower_checks.specs.declared.shape.Written.TheVariants.{Pointed};
ghost use Rattle.lower_checks.specs.Given.{owner_given};
ghost use Rattle.lower_checks.specs.Signs.{around, signs_of};
ghost use Rattle.lower_checks.specs.Room.{HasRoom};
ghost use Rattle.lower_checks.specs.Views.{owner_tree, plain_tree, pointee_shape, reach_tree, shape_tree, written_shape, written_tree};

use crate::given::Given;
use crate::names::behind;
use crate::signs::{Pointing, Signs};
use bumpalo::Bump;
use cyc_core::{Temporary, Width, Words};
use cyc_tree::{Base, Pointer, RegionName, Sign, TypeName};
use std::alloc::{AllocError, Global};

/// To how many elements a thin pointer leads, from where it points on, and whether it may be NULL.
#[derive(Clone, Copy)]
pub enum Reach {
    /// It may be NULL, and leads to this number of elements else.
    MayBeNull(u32),
    /// It is never NULL, and leads to this number of elements.
    NeverNull(u32),
}

impl Reach {
    /// To how many elements.
    pub fn count(self) -> u32
        ensures { result ≡ count_of (reach_tree self) }
    {
        match self {
            Reach::MayBeNull(count) | Reach::NeverNull(count) => count,
        }
    }
}

/// Whether what a pointer leads to is owned by it alone.
#[derive(Clone, Copy)]
pub enum Owner {
    /// No.
    Shared,
    /// Yes: the pointer is unique.
    Alone,
}

impl Owner {
    /// A pointer to one object, which is never NULL.
    fn pointing(self) -> Pointing
        ensures { (signs : List Pointing) (s : shapes.Shape) → around (result ∷ signs) s ≡ ThinShape (NeverNull 1) (owner_tree self) (around signs s) }
    {
        match self {
            Owner::Shared => Pointing::Shared,
            Owner::Alone => Pointing::Alone,
        }
    }
}

/// What a pointer of a type as it is written leads to.
#[derive(Clone, Copy)]
pub enum Written<'p> {
    /// Nothing: so `NULL` has it.
    Nothing,
    /// A type as it is written: the pointers, from the base outwards, the base, and which pointers are unique though that isn't written.
    Pointed(&'p [Pointer], &'p Base, Given<'p>),
}

/// A shape that neither `&` nor `new` gives: that of a type as it is written, or of a value that has no type in the text.
#[derive(Clone, Copy)]
pub enum Plain<'p> {
    Int,
    Unsigned,
    Char,
    Void,
    Thin(Reach, Owner, Written<'p>),
    Fat(Written<'p>),
    Handle,
    Key,
    Struct(&'p [u8]),
    Union(&'p [u8]),
}

/// What a fat pointer leads to.
#[derive(Clone, Copy)]
pub enum Pointee<'p> {
    /// What a type as it is written leads to.
    Written(Written<'p>),
    /// What `new` and `rnew` made the elements of: such pointers around each other, and what the innermost one leads to.
    Made(Signs<'p>, Plain<'p>),
}

/// What a type means at run time. A struct and a union go by their tags.
#[derive(Clone, Copy)]
pub enum Shape<'p> {
    /// `int`
    Int,
    /// `unsigned`
    Unsigned,
    /// `char`
    Char,
    /// `void`
    Void,
    /// A pointer to a number of elements: how many, whether it may be NULL, whether it is unique, and what it leads to.
    Thin(Reach, Owner, Written<'p>),
    /// A pointer to one object as `&`, `new` and `rnew` give it, never NULL: whether it is unique, the pointers that it leads to, one after
    /// the other, and what the last one leads to.
    Address(Owner, Signs<'p>, Plain<'p>),
    /// A pointer that carries bounds, by what it leads to.
    Fat(Pointee<'p>),
    /// A region's handle.
    Handle,
    /// A dynamic region's key.
    Key,
    /// A struct of this tag.
    Struct(&'p [u8]),
    /// A union of this tag.
    Union(&'p [u8]),
}

/// Whether a pointer with this region is unique: one into the unique region is, and one whose region isn't written where it is given.
fn owner_in(region: &Option<RegionName>, given: bool) -> Owner
    ensures { owner_tree result ≡ shared_owner (owner_given given (owner_of (option_map region_tree region.now))) }
{
    match region {
        Some(RegionName::Unique(_)) => Owner::Alone,
        None if given => Owner::Alone,
        _ => Owner::Shared,
    }
}

/// The shape of a base without pointers.
fn base_shape<'p>(base: &'p Base) -> Shape<'p>
    ensures { shape_tree result ≡ settled (base_shape (base_tree base.entry.now)) }
{
    match base {
        Base::Int => Shape::Int,
        Base::Unsigned => Shape::Unsigned,
        Base::Char => Shape::Char,
        Base::Void => Shape::Void,
        Base::Struct(tag, _) => Shape::Struct(&tag.text),
        Base::Union(tag, _) => Shape::Union(&tag.text),
        Base::Handle(_) => Shape::Handle,
        Base::Key(_) => Shape::Key,
    }
}

/// The shape of a pointer to what is written.
fn pointer_shape<'p>(pointer: &Pointer, given: bool, to: Written<'p>) -> Shape<'p>
    ensures { let p = pointer_tree pointer.now in
        shape_tree result ≡ settled (signed_shape p.sign (owner_given given (owner_of p.region)) (written_tree to.entry)) }
{
    let owner = owner_in(&pointer.region, given);
    match pointer.sign {
        Sign::Nullable(count) => Shape::Thin(Reach::MayBeNull(count), owner, to),
        Sign::NotNull(count) => Shape::Thin(Reach::NeverNull(count), owner, to),
        Sign::Fat => Shape::Fat(Pointee::Written(to)),
    }
}

/// The shape of a base with pointers to it, some of which are unique though that isn't written.
pub fn type_shape<'p>(pointers: &'p [Pointer], base: &'p Base, given: Given<'p>) -> Shape<'p>
    ensures { shape_tree result ≡ written_shape (Pointed pointers.entry base.entry given.entry) }
{
    if let [others @ .., outer] = pointers {
        let to = Written::Pointed(others, base, given.within());
        return pointer_shape(outer, given.outermost(), to);
    }
    base_shape(base)
}

impl<'p> Written<'p> {
    /// The shape of what is written.
    pub fn shape(self) -> Shape<'p>
        ensures { shape_tree result ≡ written_shape self.entry }
    {
        match self {
            Written::Nothing => Shape::Void,
            Written::Pointed(pointers, base, given) => type_shape(pointers, base, given),
        }
    }
}

impl<'p> Plain<'p> {
    /// It as a shape.
    pub fn shape(self) -> Shape<'p>
        ensures { shape_tree result ≡ plain_tree self.entry }
    {
        match self {
            Plain::Int => Shape::Int,
            Plain::Unsigned => Shape::Unsigned,
            Plain::Char => Shape::Char,
            Plain::Void => Shape::Void,
            Plain::Thin(bound, owner, to) => Shape::Thin(bound, owner, to),
            Plain::Fat(to) => Shape::Fat(Pointee::Written(to)),
            Plain::Handle => Shape::Handle,
            Plain::Key => Shape::Key,
            Plain::Struct(tag) => Shape::Struct(tag),
            Plain::Union(tag) => Shape::Union(tag),
        }
    }
}

/// The shape of pointers around each other, and of what the innermost one leads to.
fn pointers_shape<'p>(signs: Signs<'p>, to: Plain<'p>) -> Shape<'p>
    ensures { shape_tree result ≡ around (signs_of signs.entry) (plain_tree to.entry) }
{
    match signs.outermost() {
        Some((Pointing::Fat, others)) => Shape::Fat(Pointee::Made(others, to)),
        Some((Pointing::Shared, others)) => Shape::Address(Owner::Shared, others, to),
        Some((Pointing::Alone, others)) => Shape::Address(Owner::Alone, others, to),
        None => to.shape(),
    }
}

impl<'p> Pointee<'p> {
    /// The shape of what is led to.
    pub fn shape(self) -> Shape<'p>
        ensures { shape_tree result ≡ pointee_shape self.entry }
    {
        match self {
            Pointee::Written(to) => to.shape(),
            Pointee::Made(signs, to) => pointers_shape(signs, to),
        }
    }
}

/// A shape as pointers around each other, which `&`, `new` and `rnew` gave, and what the innermost one leads to.
#[derive(Clone, Copy)]
struct Pointers<'p> {
    signs: Signs<'p>,
    to: Plain<'p>,
}

impl<'p> Shape<'p> {
    /// The shape of a type as it is written.
    pub fn of(of: &'p TypeName) -> Shape<'p>
        ensures { shape_tree result ≡ settled (written (type_tree of.entry.now)) }
    {
        type_shape(&of.pointers, &of.base, Given::none())
    }

    /// The shape of `NULL`.
    pub fn null() -> Shape<'p>
        ensures { shape_tree result ≡ ThinShape (MayBeNull 1) Shared VoidShape }
    {
        Shape::Thin(Reach::MayBeNull(1), Owner::Shared, Written::Nothing)
    }

    /// The shape of a string.
    pub fn text() -> Shape<'p>
        ensures { shape_tree result ≡ FatShape CharShape }
    {
        Shape::Fat(Pointee::Made(Signs::none(), Plain::Char))
    }

    /// The shape of what a pointer of the shape leads to; `void` where it isn't a pointer.
    pub fn pointee(self) -> Shape<'p>
        ensures { shape_tree result ≡ pointee (shape_tree self.entry) }
    {
        match self {
            Shape::Thin(_, _, to) => to.shape(),
            Shape::Fat(to) => to.shape(),
            Shape::Address(_, signs, to) => pointers_shape(signs, to),
            _ => Shape::Void,
        }
    }

    /// It as pointers around each other.
    fn pointers(self, alloc: Global, arena: &'p Bump) -> Result<Pointers<'p>, AllocError>
        ensures pointers { IfOk result (λ found. shape_tree self.entry ≡ around (signs_of found.signs) (plain_tree found.to)) }
    {
        let to = match self {
            Shape::Address(owner, signs, to) => {
                return Ok(Pointers {
                    signs: signs.within(alloc, arena, owner.pointing())?,
                    to,
                });
            }
            Shape::Fat(Pointee::Made(signs, to)) => {
                return Ok(Pointers {
                    signs: signs.within(alloc, arena, Pointing::Fat)?,
                    to,
                });
            }
            Shape::Int => Plain::Int,
            Shape::Unsigned => Plain::Unsigned,
            Shape::Char => Plain::Char,
            Shape::Void => Plain::Void,
            Shape::Thin(bound, owner, to) => Plain::Thin(bound, owner, to),
            Shape::Fat(Pointee::Written(to)) => Plain::Fat(to),
            Shape::Handle => Plain::Handle,
            Shape::Key => Plain::Key,
            Shape::Struct(tag) => Plain::Struct(tag),
            Shape::Union(tag) => Plain::Union(tag),
        };
        Ok(Pointers {
            signs: Signs::none(),
            to,
        })
    }

    /// The shape of a pointer to an object of the shape, as `&`, `new` and `rnew` give it: never NULL.
    pub fn address(
        self,
        alloc: Global,
        arena: &'p Bump,
        owner: Owner,
    ) -> Result<Shape<'p>, AllocError>
        ensures address { IfOk result (λ shape. shape_tree shape ≡ ThinShape (NeverNull 1) (owner_tree owner) (shape_tree self.entry)) }
    {
        let pointers = self.pointers(alloc, arena)?;
        Ok(Shape::Address(owner, pointers.signs, pointers.to))
    }

    /// The shape of a fat pointer to objects of the shape, as `new` and `rnew` give it.
    pub fn elements(self, alloc: Global, arena: &'p Bump) -> Result<Shape<'p>, AllocError>
        ensures elements { IfOk result (λ shape. shape_tree shape ≡ FatShape (shape_tree self.entry)) }
    {
        let pointers = self.pointers(alloc, arena)?;
        Ok(Shape::Fat(Pointee::Made(pointers.signs, pointers.to)))
    }

    /// How wide a value of the shape is.
    pub fn width(self) -> Width
        ensures { bytes_of result ≡ width_of (shape_tree self.entry) }
    {
        match self {
            Shape::Char => Width::Byte,
            _ => Width::Word,
        }
    }

    /// How many temporaries a value of the shape takes: a fat pointer three, all else one.
    pub fn words(self) -> u32
        ensures { result ≡ words_in (shape_tree self.entry) }
    {
        match self {
            Shape::Fat(_) => 3,
            _ => 1,
        }
    }

    /// Where a result of the shape goes.
    pub fn result_in(self, to: Temporary) -> Option<Words>
        requires room { HasRoom to.0 2 }
        ensures place { optional_tree result ≡ results_in (shape_tree self.entry) to.0 }
    {
        match self {
            Shape::Void => None,
            Shape::Fat(_) => Some(Words::Three(to, behind(to, 1), behind(to, 2))),
            _ => Some(Words::One(to)),
        }
    }
}
