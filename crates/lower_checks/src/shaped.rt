// The shapes of expressions, which are known without a run.

ghost use Rattle.std.specs.Prelude.{◌≡◌, IfOk, map};
ghost use Rattle.cyc_tree.specs.View.{expression_tree, link_tree, links_of, made_tree, name_tree, suffix_tree, suffixes_of};
ghost use Rattle.source_meaning.specs.Shapes.{FatShape};
ghost use Rattle.source_meaning.specs.Calls.{number_type};
ghost use Rattle.source_meaning.specs.Programs.{world_of, integer_shape};
ghost use Rattle.source_lowering.specs.Lowered.{call_shape, element_names, linked_shape, makes_struct, member_shape, named_shape, new_shape};
ghost use Rattle.source_lowering.specs.Lowered.{owner_in, prefix_shape, static_shape, suffixed_shape, valued};
ghost use Rattle.lower_checks.specs.Scoped.{names_in, world_in};
ghost use Rattle.source_meaning.specs.Expressions.{is_unique_region};
ghost use Rattle.lower_checks.specs.Views.{owner_tree, shape_tree};

use crate::member::member;
use crate::numbers::with_number;
use crate::operator::operator_shape;
use crate::scope::Scope;
use crate::shape::{Owner, Shape};
use crate::table::Table;
use cyc_tree::{Expression, Link, Made, Name, Operator, Prefix, Suffix};
use std::alloc::AllocError;

/// Whether an expression is the unique region.
#[cycle(unique)]
pub fn is_unique(expression: &Expression) -> bool
    ensures { result ≡ is_unique_region (expression_tree expression.now) }
{
    match expression {
        Expression::UniqueRegion(_) => true,
        Expression::Grouped(_, inner) => is_unique(inner),
        _ => false,
    }
}

/// Whether what is made with this handle is unique.
pub fn owner_for(handle: &Expression) -> Owner
    ensures { owner_tree result ≡ owner_in (is_unique_region (expression_tree handle.now)) }
{
    if is_unique(handle) {
        Owner::Alone
    } else {
        Owner::Shared
    }
}

/// The shape of a number: one without a suffix up to 2,147,483,647 is an int.
pub fn number_shape<'p>(value: u32, suffix: bool) -> Shape<'p>
    ensures { shape_tree result ≡ integer_shape (number_type value suffix) }
{
    if suffix || value >= 2_147_483_648 {
        Shape::Unsigned
    } else {
        Shape::Int
    }
}

/// Whether a call of a name makes a struct.
pub fn makes(program: &Table<'_>, name: &[u8]) -> bool
    ensures { result ≡ makes_struct (world_of program.now) name.now }
{
    if name == b"getchar".as_slice() || name == b"putchar".as_slice() {
        return false;
    }
    program.struct_of(name).is_some()
}

/// The shape of a call, or of a struct that is made; `void` where there is nothing of that name.
pub fn call_shape<'p>(program: &Table<'p>, name: &'p [u8]) -> Shape<'p>
    ensures { shape_tree result ≡ call_shape (world_of program.now) name.entry.now }
{
    if name == b"getchar".as_slice() || name == b"putchar".as_slice() {
        return Shape::Int;
    }
    if program.struct_of(name).is_some() {
        return Shape::Struct(name);
    }
    match program.function_named(name) {
        Some(callee) => Shape::of(&callee.function.result),
        None => Shape::Void,
    }
}

/// The shape of the value of the variable of a name: an element's number, a local, or else a global; `void` where there is none.
pub fn named_shape<'p>(scope: &Scope<'_, 'p>, name: &[u8]) -> Shape<'p>
    ensures { shape_tree result ≡ valued (named_shape (world_in scope.now) (names_in scope.now) name.now) }
{
    if let Some(local) = scope.named(name) {
        return local.stored.value();
    }
    match scope.program.global_named(name) {
        Some(global) => global.stored.value(),
        None => Shape::Void,
    }
}

/// The shape of a member of a struct; `void` where there is none of that name.
fn member_shape<'p>(program: &Table<'p>, shape: Shape<'_>, name: &[u8]) -> Shape<'p>
    ensures { shape_tree result ≡ member_shape (world_of program.now) (shape_tree shape.entry) name.now }
{
    member(program, &shape, name).shape
}

/// The shape of what suffixes lead to, from that of what is on their left.
fn suffixed_shape<'p>(program: &Table<'p>, suffixes: &[Suffix], first: Shape<'p>) -> Shape<'p>
    ensures { shape_tree result ≡ suffixed_shape (world_of program.now) (suffixes_of (map suffix_tree suffixes.now)) (shape_tree first.entry) }
{
    let mut left = first;
    'each: for suffix in suffixes {
        left = match suffix {
            Suffix::Dot(name) => member_shape(program, left, &name.text),
            Suffix::Arrow(name) => member_shape(program, left.pointee(), &name.text),
            Suffix::Index(_) => left.pointee(),
        };
    }
    left
}

/// The shape of what a prefix operator gives, by that of its operand.
fn prefix_shape<'p>(
    scope: &Scope<'_, 'p>,
    operator: Prefix,
    operand: Shape<'p>,
) -> Result<Shape<'p>, AllocError>
    ensures shape { IfOk result (λ shape. shape_tree shape ≡ prefix_shape operator (shape_tree operand.entry)) }
{
    match operator {
        Prefix::Negate => Ok(operator_shape(Operator::Subtract, Shape::Int, operand)),
        Prefix::Complement => Ok(operator_shape(Operator::BitXor, Shape::Int, operand)),
        Prefix::Not => Ok(Shape::Int),
        Prefix::Dereference => Ok(operand.pointee()),
        Prefix::AddressOf => operand.address(scope.alloc, scope.program.arena(), Owner::Shared),
    }
}

/// The shape of a chain, from that of what is on its left.
#[cycle(shape)]
fn linked_shape<'p>(
    scope: &Scope<'_, 'p>,
    links: &'p [Link],
    first: Shape<'p>,
) -> Result<Shape<'p>, AllocError>
    ensures shape { IfOk result
        (λ shape.
        shape_tree shape ≡ linked_shape (world_in scope.now) (names_in scope.now) (links_of (map link_tree links.entry.now)) (shape_tree first.entry)) }
{
    let mut left = first;
    'each: for link in links {
        let right = shape_of(scope, &link.operand)?;
        left = operator_shape(link.operator, left, right);
    }
    Ok(left)
}

/// The shape of a fat pointer to elements that are made.
#[cycle(shape)]
fn elements_shape<'p>(
    scope: &Scope<'_, 'p>,
    index: &'p Name,
    element: &'p Expression,
) -> Result<Shape<'p>, AllocError>
    ensures shape { IfOk result
        (λ shape.
        shape_tree shape ≡
        FatShape (static_shape (world_in scope.now) (element_names (name_tree index.entry.now).text (names_in scope.now))
        (expression_tree element.entry.now))) }
{
    let numbers = with_number(scope.alloc, scope.numbers, &index.text)?;
    let inside = Scope {
        alloc: scope.alloc,
        program: scope.program,
        locals: scope.locals,
        numbers: &numbers,
    };
    shape_of(&inside, element)?.elements(scope.alloc, scope.program.arena())
}

/// The shape of a pointer to what `new` and `rnew` make: a fat one to the elements of an array.
#[cycle(shape)]
fn new_shape<'p>(
    scope: &Scope<'_, 'p>,
    owner: Owner,
    made: &'p Made,
) -> Result<Shape<'p>, AllocError>
    ensures shape { IfOk result
        (λ shape. shape_tree shape ≡ new_shape (world_in scope.now) (names_in scope.now) (owner_tree owner) (made_tree made.entry.now)) }
{
    match made {
        Made::One(value) => shape_of(scope, value)?.address(
            scope.alloc,
            scope.program.arena(),
            owner,
        ),
        Made::Array(index, _, element) => elements_shape(scope, index, element),
    }
}

/// The shape of an expression's type. Fails only where no host memory is left.
#[cycle(shape)]
pub fn shape_of<'p>(
    scope: &Scope<'_, 'p>,
    expression: &'p Expression,
) -> Result<Shape<'p>, AllocError>
    ensures shape { IfOk result (λ shape. shape_tree shape ≡ static_shape (world_in scope.now) (names_in scope.now) (expression_tree expression.entry.now)) }
{
    match expression {
        Expression::Number(_, value, suffix) => Ok(number_shape(*value, *suffix)),
        Expression::Character(_, _) => Ok(Shape::Char),
        Expression::Null(_) => Ok(Shape::null()),
        Expression::HeapRegion(_) => Ok(Shape::Handle),
        Expression::Variable(name) => Ok(named_shape(scope, &name.text)),
        Expression::Call(name, _) => Ok(call_shape(scope.program, &name.text)),
        Expression::Grouped(_, inner) => shape_of(scope, inner),
        Expression::Suffixed(primary, suffixes) => {
            let left = shape_of(scope, primary)?;
            Ok(suffixed_shape(scope.program, suffixes, left))
        }
        Expression::Prefixed(_, operator, operand) => {
            prefix_shape(scope, *operator, shape_of(scope, operand)?)
        }
        Expression::New(_, made) => new_shape(scope, Owner::Shared, made),
        Expression::NewIn(_, handle, made) => new_shape(scope, owner_for(handle), made),
        Expression::Chain(first, links) => {
            let left = shape_of(scope, first)?;
            linked_shape(scope, links, left)
        }
        Expression::AllOf(_, _) | Expression::AnyOf(_, _) => Ok(Shape::Int),
        Expression::Assign(place, _) => shape_of(scope, place),
        Expression::NumElts(_, _) => Ok(Shape::Unsigned),
        Expression::Text(_, _) => Ok(Shape::text()),
        Expression::MakeUnion(tag, _, _) => Ok(Shape::Union(&tag.text)),
        Expression::UniqueRegion(_) => Ok(Shape::Void),
    }
}
