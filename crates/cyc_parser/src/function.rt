// Functions.

ghost use Rattle.std.specs.Prelude.{◌<◌, ◌≤◌, OnOk, length, map, option_map};
ghost use Rattle.cyc_tree.specs.Tree.{Name as TheName, TypeName as TheType};
ghost use Rattle.cyc_tree.specs.View.{region_tree, member_tree, bound_tree};
ghost use Rattle.cyc_tree.specs.Depths.{nesting_limit};
ghost use Rattle.cyc_parser.specs.FunctionParts.{function_with};
ghost use Rattle.cyc_parser.specs.Reader.{Gives, listed};
ghost use Rattle.cyc_parser.specs.ReadPrograms.{void_behind, first_parameter as first_parameter_at, parameters as parameters_at, effect as effect_at};
ghost use Rattle.cyc_parser.specs.ReadPrograms.{bound as bound_at, bounds as bounds_at, function_behind};

use crate::cursor::Cursor;
use crate::fault::Parsed;
use crate::first::{begins_declarator, begins_type};
use crate::statement::block_items;
use crate::type_name::{pointers, regions, typed_name};
use cyc_lexer::{Keyword, Sign};
use cyc_tree::{Base, BlockItem, Bound, Bounds, Member, RegionNames, TypeName};
use std::alloc::Global;

/// The most statements, expressions and unary expressions that may contain a token.
pub const NESTING_LIMIT: u32 = 256;

/// What stands behind the name of a function and its parenthesis.
#[derive(Drop)]
pub struct Rest {
    pub parameters: Vec<Member>,
    pub effect: Option<RegionNames>,
    pub bounds: Bounds,
    pub body: Vec<BlockItem>,
    pub end: u32,
}

/// Reads a function from behind its parenthesis.
pub fn function_rest(alloc: Global, cursor: &mut Cursor<'_, '_>) -> Parsed<Rest>
    ensures reads { (t : TheType) (n : TheName) → Gives (λ rest. function_with t n rest) result cursor.new (function_behind nesting_limit t n cursor.old) }
    ensures shorter { OnOk result (length cursor.new < length cursor.old) }
{
    let parameters = parameters(alloc, cursor)?;
    let effect = effect(alloc, cursor)?;
    let bounds = bounds(alloc, cursor)?;
    if !(cursor.eat(Sign::RightParenthesis) && cursor.eat(Sign::LeftBrace)) {
        return Err(cursor.unexpected());
    }
    let body = block_items(alloc, NESTING_LIMIT, cursor)?;
    let end = cursor.sign(Sign::RightBrace)?;
    Ok(Rest {
        parameters,
        effect,
        bounds,
        body,
        end,
    })
}

/// Reads the parameters of a function, where it has such. `void` alone says that it has none.
#[tactic(auto, unfolding(crate::specs::ReadPrograms::parameters, crate::specs::ReadPrograms::other_parameters))]
fn parameters(alloc: Global, cursor: &mut Cursor<'_, '_>) -> Parsed<Vec<Member>>
    ensures reads { Gives (λ parameters. map member_tree parameters.items) result cursor.new (parameters_at cursor.old) }
    ensures shorter { OnOk result (length cursor.new ≤ length cursor.old) }
{
    let mut parameters = Vec::new(alloc);
    let Some(first) = first_parameter(alloc, cursor)? else {
        return Ok(parameters);
    };
    parameters.push(first)?;
    'more: while cursor.eat(Sign::Comma) {
        parameters.push(typed_name(alloc, cursor)?)?;
    }
    Ok(parameters)
}

/// Reads the first parameter, where there is one. After `void`, only what follows tells whether it is the
/// beginning of a parameter.
#[tactic(auto, unfolding(crate::specs::ReadPrograms::first_parameter, crate::specs::ReadPrograms::void_parameter))]
fn first_parameter(alloc: Global, cursor: &mut Cursor<'_, '_>) -> Parsed<Option<Member>>
    ensures reads { Gives (λ first. option_map member_tree first) result cursor.new (first_parameter_at cursor.old) }
    ensures shorter { OnOk result (length cursor.new ≤ length cursor.old) }
{
    if !begins_type(cursor.kind()) {
        return Ok(None);
    }
    let at = cursor.place();
    if cursor.eat_keyword(Keyword::Void) {
        void_parameter(alloc, at, cursor)
    } else {
        Ok(Some(typed_name(alloc, cursor)?))
    }
}

/// Reads a parameter from behind the `void` with which its type begins, or nothing behind `void` alone. The position is that of the `void`.
fn void_parameter(alloc: Global, at: u32, cursor: &mut Cursor<'_, '_>) -> Parsed<Option<Member>>
    ensures reads { Gives (λ first. option_map member_tree first) result cursor.new (void_behind at cursor.old) }
    ensures shorter { OnOk result (length cursor.new ≤ length cursor.old) }
{
    if !begins_declarator(cursor.kind()) {
        return Ok(None);
    }
    let pointers = pointers(alloc, cursor)?;
    let name = cursor.name(alloc)?;
    let base = Base::Void;
    let of = TypeName { at, base, pointers };
    Ok(Some(Member { of, name }))
}

/// Reads the effect of a function, where one is written.
#[tactic(auto, unfolding(crate::specs::ReadPrograms::effect))]
fn effect(alloc: Global, cursor: &mut Cursor<'_, '_>) -> Parsed<Option<RegionNames>>
    ensures reads { Gives (λ effect. option_map (λ regions. map region_tree regions.items) effect) result cursor.new (effect_at cursor.old) }
    ensures shorter { OnOk result (length cursor.new ≤ length cursor.old) }
{
    if !cursor.eat(Sign::Semicolon) {
        return Ok(None);
    }
    cursor.sign(Sign::LeftBrace)?;
    let effect = if cursor.is_region() {
        regions(alloc, cursor)?
    } else {
        RegionNames::new(alloc)
    };
    cursor.sign(Sign::RightBrace)?;
    Ok(Some(effect))
}

/// Reads the bounds of a function, where such are written.
#[tactic(auto, unfolding(crate::specs::ReadPrograms::bounds))]
fn bounds(alloc: Global, cursor: &mut Cursor<'_, '_>) -> Parsed<Bounds>
    ensures reads { Gives (λ bounds. map bound_tree bounds.items) result cursor.new (bounds_at cursor.old) }
    ensures shorter { OnOk result (length cursor.new ≤ length cursor.old) }
{
    if cursor.eat(Sign::Colon) {
        listed_bounds(alloc, cursor)
    } else {
        Ok(Bounds::new(alloc))
    }
}

/// Reads one bound or more, with commas between them.
fn listed_bounds(alloc: Global, cursor: &mut Cursor<'_, '_>) -> Parsed<Bounds>
    ensures reads { Gives (λ bounds. map bound_tree bounds.items) result cursor.new (listed bound_at cursor.old) }
    ensures shorter { OnOk result (length cursor.new < length cursor.old) }
{
    let mut bounds = Bounds::new(alloc);
    'more: loop {
        bounds.push(bound(alloc, cursor)?)?;
        if !cursor.eat(Sign::Comma) {
            return Ok(bounds);
        }
    }
}

/// Reads a bound: a region that outlives another one.
#[tactic(auto, unfolding(crate::specs::ReadPrograms::bound))]
fn bound(alloc: Global, cursor: &mut Cursor<'_, '_>) -> Parsed<Bound>
    ensures reads { Gives bound_tree result cursor.new (bound_at cursor.old) }
    ensures shorter { OnOk result (length cursor.new < length cursor.old) }
{
    let longer = cursor.region(alloc)?;
    cursor.sign(Sign::Greater)?;
    let shorter = cursor.region(alloc)?;
    Ok(Bound { longer, shorter })
}
