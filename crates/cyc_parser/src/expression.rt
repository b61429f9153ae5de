// Expressions.

ghost use Rattle.std.specs.Prelude.{◌≡◌, ◌-◌, ◌<◌, ◌≤◌, OnOk, option_map, map, length};
ghost use Rattle.cyc_tree.specs.View.{name_tree, expression_tree, made_tree, suffix_tree, link_tree};
ghost use Rattle.cyc_parser.specs.Levels.{levels_from, levels_left};
ghost use Rattle.cyc_parser.specs.Reader.{Gives, done, read, listed as listed_by, sign as sign_at};
ghost use Rattle.cyc_parser.specs.ReadExpressions.{parenthesized_by, primary_by, arguments_behind, named_by, suffix_by, suffixes_by, postfix_by, array_behind};
ghost use Rattle.cyc_parser.specs.ReadExpressions.{made_by, made_in_behind, prefixed_by, operation_by};
ghost use Rattle.cyc_parser.specs.ReadExpressions.{links_by, chain_by, all_of_by, any_of_by, assignment_by, expression_at, unary_at};

use crate::cursor::Cursor;
use crate::fault::{ParseFault, Parsed};
use crate::first::{begins_prefixed, begins_suffix, begins_unary};
use crate::level::{boxed, is_unary, linked, next_operator};
use crate::lists::without_spare;
use crate::literal::literal;
use crate::operator::{LOOSEST, Level, prefix_of, tighter};
use cyc_lexer::{Keyword, Sign};
use cyc_tree::{Expression, Link, Made, Name, Suffix};
use std::alloc::Global;

/// Reads an expression, in which at most `depth` phrases nest.
#[cycle(expression)]
pub fn expression(alloc: Global, depth: u32, cursor: &mut Cursor<'_, '_>) -> Parsed<Expression>
    ensures reads { Gives expression_tree result cursor.new (expression_at depth cursor.old) }
    ensures shorter { OnOk result (length cursor.new < length cursor.old) }
{
    if depth == 0 {
        Err(cursor.too_deep(begins_unary(cursor.kind())))
    } else {
        assignment(alloc, depth - 1, cursor)
    }
}

/// Reads operands of `||`, or a unary expression and what is assigned to it.
#[cycle(expression)]
#[tactic(auto, unfolding(crate::specs::ReadExpressions::assignment_by, crate::specs::ReadExpressions::assigned_by))]
fn assignment(alloc: Global, depth: u32, cursor: &mut Cursor<'_, '_>) -> Parsed<Expression>
    ensures reads { Gives expression_tree result cursor.new (assignment_by (unary_at depth) (expression_at depth) cursor.old) }
    ensures shorter { OnOk result (length cursor.new < length cursor.old) }
{
    let first = any_of(alloc, depth, cursor)?;
    if is_unary(&first) && cursor.eat(Sign::Assign) {
        let value = expression(alloc, depth, cursor)?;
        let place = boxed(alloc, first)?;
        Ok(Expression::Assign(place, boxed(alloc, value)?))
    } else {
        Ok(first)
    }
}

/// Reads operands of `||`.
#[cycle(expression)]
#[tactic(auto, unfolding(crate::specs::ReadExpressions::any_of_by))]
fn any_of(alloc: Global, depth: u32, cursor: &mut Cursor<'_, '_>) -> Parsed<Expression>
    ensures reads { Gives expression_tree result cursor.new (any_of_by (unary_at depth) cursor.old) }
    ensures shorter { OnOk result (length cursor.new < length cursor.old) }
{
    let first = all_of(alloc, depth, cursor)?;
    let mut others = Vec::new(alloc);
    'others: while cursor.eat(Sign::OrOr) {
        others.push(all_of(alloc, depth, cursor)?)?;
    }
    if others.is_empty() {
        Ok(first)
    } else {
        Ok(Expression::AnyOf(boxed(alloc, first)?, others))
    }
}

/// Reads operands of `&&`.
#[cycle(expression)]
#[tactic(auto, unfolding(crate::specs::ReadExpressions::all_of_by))]
fn all_of(alloc: Global, depth: u32, cursor: &mut Cursor<'_, '_>) -> Parsed<Expression>
    ensures reads { Gives expression_tree result cursor.new (all_of_by (unary_at depth) cursor.old) }
    ensures shorter { OnOk result (length cursor.new < length cursor.old) }
{
    let first = chain(alloc, depth, Some(LOOSEST), cursor)?;
    let mut others = Vec::new(alloc);
    'others: while cursor.eat(Sign::AndAnd) {
        others.push(chain(alloc, depth, Some(LOOSEST), cursor)?)?;
    }
    if others.is_empty() {
        Ok(first)
    } else {
        Ok(Expression::AllOf(boxed(alloc, first)?, others))
    }
}

/// Reads operands of a level, with its operators between them. With no level, reads a unary expression.
#[cycle(expression)]
fn chain(
    alloc: Global,
    depth: u32,
    level: Option<Level>,
    cursor: &mut Cursor<'_, '_>,
) -> Parsed<Expression>
    ensures reads { Gives expression_tree result cursor.new (chain_by (unary_at depth) (levels_left level) cursor.old) }
    ensures shorter { OnOk result (length cursor.new < length cursor.old) }
{
    let Some(level) = level else {
        return unary(alloc, depth, cursor);
    };
    let first = chain(alloc, depth, tighter(level), cursor)?;
    let links = links(alloc, depth, level, cursor)?;
    Ok(linked(alloc, first, links)?)
}

/// Reads the operators of a level, each with its right operand, as far as they go.
#[cycle(expression)]
#[tactic(auto, unfolding(crate::specs::ReadExpressions::links_by))]
fn links(alloc: Global, depth: u32, level: Level, cursor: &mut Cursor<'_, '_>) -> Parsed<Vec<Link>>
    ensures reads { Gives (λ links. map link_tree links.items) result cursor.new (links_by (chain_by (unary_at depth) (levels_from level - 1)) (levels_from level - 1) cursor.old) }
    ensures shorter { OnOk result (length cursor.new ≤ length cursor.old) }
{
    let mut links = Vec::new(alloc);
    'links: while let Some(operator) = next_operator(cursor, level) {
        cursor.read()?;
        let operand = chain(alloc, depth, tighter(level), cursor)?;
        links.push(Link { operator, operand })?;
    }
    Ok(links)
}

/// Reads a unary expression, in which at most `depth` phrases nest.
#[cycle(expression)]
fn unary(alloc: Global, depth: u32, cursor: &mut Cursor<'_, '_>) -> Parsed<Expression>
    ensures reads { Gives expression_tree result cursor.new (unary_at depth cursor.old) }
    ensures shorter { OnOk result (length cursor.new < length cursor.old) }
{
    if depth == 0 {
        Err(cursor.too_deep(begins_unary(cursor.kind())))
    } else {
        operation(alloc, depth - 1, cursor)
    }
}

/// Reads a unary expression. In it at most `depth` phrases nest.
#[cycle(expression)]
#[tactic(auto, unfolding(crate::specs::ReadExpressions::operation_by, crate::specs::ReadExpressions::made_in_by))]
fn operation(alloc: Global, depth: u32, cursor: &mut Cursor<'_, '_>) -> Parsed<Expression>
    ensures reads { Gives expression_tree result cursor.new (operation_by (unary_at depth) (expression_at depth) cursor.old) }
    ensures shorter { OnOk result (length cursor.new < length cursor.old) }
{
    let at = cursor.place();
    if cursor.eat_keyword(Keyword::New) {
        Ok(Expression::New(at, made(alloc, depth, cursor)?))
    } else if cursor.eat_keyword(Keyword::Rnew) {
        made_in(alloc, depth, at, cursor)
    } else if begins_prefixed(cursor.kind()) {
        prefixed(alloc, depth, cursor)
    } else {
        postfix(alloc, depth, cursor)
    }
}

/// Reads a prefix operator and its operand.
#[cycle(expression)]
#[tactic(auto, unfolding(crate::specs::ReadExpressions::prefixed_by))]
fn prefixed(alloc: Global, depth: u32, cursor: &mut Cursor<'_, '_>) -> Parsed<Expression>
    ensures reads { Gives expression_tree result cursor.new (prefixed_by (unary_at depth) cursor.old) }
    ensures shorter { OnOk result (length cursor.new < length cursor.old) }
{
    let sign = cursor.read()?;
    let Some(prefix) = prefix_of(sign.kind) else {
        return Err(ParseFault::Parse(sign.at));
    };
    let operand = unary(alloc, depth, cursor)?;
    let operand = boxed(alloc, operand)?;
    Ok(Expression::Prefixed(sign.at, prefix, operand))
}

/// Reads the handle of an `rnew` and what it makes, from behind its word, which stands at this position.
#[cycle(expression)]
fn made_in(alloc: Global, depth: u32, at: u32, cursor: &mut Cursor<'_, '_>) -> Parsed<Expression>
    ensures reads { Gives expression_tree result cursor.new (made_in_behind (unary_at depth) (expression_at depth) at cursor.old) }
    ensures shorter { OnOk result (length cursor.new < length cursor.old) }
{
    let handle = enclosed(alloc, depth, cursor)?;
    let made = made(alloc, depth, cursor)?;
    Ok(Expression::NewIn(at, handle, made))
}

/// Reads what `new` or `rnew` makes.
#[cycle(expression)]
#[tactic(auto, unfolding(crate::specs::ReadExpressions::made_by, crate::specs::ReadExpressions::array_by))]
fn made(alloc: Global, depth: u32, cursor: &mut Cursor<'_, '_>) -> Parsed<Made>
    ensures reads { Gives made_tree result cursor.new (made_by (unary_at depth) (expression_at depth) cursor.old) }
    ensures shorter { OnOk result (length cursor.new < length cursor.old) }
{
    if cursor.eat(Sign::LeftBrace) {
        array(alloc, depth, cursor)
    } else {
        let value = unary(alloc, depth, cursor)?;
        Ok(Made::One(boxed(alloc, value)?))
    }
}

/// Reads an array comprehension, from behind its brace: the index's name, the count and the element.
#[cycle(expression)]
fn array(alloc: Global, depth: u32, cursor: &mut Cursor<'_, '_>) -> Parsed<Made>
    ensures reads { Gives made_tree result cursor.new (array_behind (expression_at depth) cursor.old) }
    ensures shorter { OnOk result (length cursor.new < length cursor.old) }
{
    cursor.keyword(Keyword::For)?;
    let index = cursor.name(alloc)?;
    cursor.sign(Sign::Less)?;
    let count = closed(alloc, depth, Sign::Colon, cursor)?;
    let element = closed(alloc, depth, Sign::RightBrace, cursor)?;
    Ok(Made::Array(index, count, element))
}

/// Reads an expression and the sign behind it, and answers the expression in a box.
#[cycle(expression)]
fn closed(
    alloc: Global,
    depth: u32,
    sign: Sign,
    cursor: &mut Cursor<'_, '_>,
) -> Parsed<Box<Expression>>
    ensures reads { Gives (λ box. expression_tree box.value) result cursor.new (read (expression_at depth) (λ e. read (sign_at sign) (λ _. done e)) cursor.old) }
    ensures shorter { OnOk result (length cursor.new < length cursor.old) }
{
    let expression = expression(alloc, depth, cursor)?;
    if cursor.eat(sign) {
        boxed(alloc, expression)
    } else {
        Err(cursor.unexpected())
    }
}

/// Reads a primary expression and its suffixes.
#[cycle(expression)]
#[tactic(auto, unfolding(crate::specs::ReadExpressions::postfix_by, crate::specs::ReadExpressions::first_by), using(crate::proofs::Chains::is_suffixed))]
fn postfix(alloc: Global, depth: u32, cursor: &mut Cursor<'_, '_>) -> Parsed<Expression>
    ensures reads { Gives expression_tree result cursor.new (postfix_by (expression_at depth) cursor.old) }
    ensures shorter { OnOk result (length cursor.new < length cursor.old) }
{
    let (first, member) = if cursor.is_name() {
        named(alloc, depth, cursor)?
    } else {
        (primary(alloc, depth, cursor)?, None)
    };
    let suffixes = suffixes(alloc, depth, member, cursor)?;
    if suffixes.is_empty() {
        Ok(first)
    } else {
        Ok(Expression::Suffixed(boxed(alloc, first)?, suffixes))
    }
}

/// Reads a primary expression that begins with no name.
#[cycle(expression)]
#[tactic(auto, unfolding(crate::specs::ReadExpressions::primary_by, crate::specs::ReadExpressions::grouped_by, crate::specs::ReadExpressions::parenthesized_by))]
fn primary(alloc: Global, depth: u32, cursor: &mut Cursor<'_, '_>) -> Parsed<Expression>
    ensures reads { Gives expression_tree result cursor.new (primary_by (expression_at depth) cursor.old) }
    ensures shorter { OnOk result (length cursor.new < length cursor.old) }
{
    let at = cursor.place();
    if cursor.eat(Sign::LeftParenthesis) {
        let inner = closed(alloc, depth, Sign::RightParenthesis, cursor)?;
        Ok(Expression::Grouped(at, inner))
    } else if cursor.eat_keyword(Keyword::Numelts) {
        let operand = enclosed(alloc, depth, cursor)?;
        Ok(Expression::NumElts(at, operand))
    } else {
        literal(alloc, cursor)
    }
}

/// Reads an expression in parentheses, and answers it without them.
#[tactic(auto, unfolding(crate::specs::ReadExpressions::parenthesized_by))]
pub fn parenthesized(alloc: Global, depth: u32, cursor: &mut Cursor<'_, '_>) -> Parsed<Expression>
    ensures reads { Gives expression_tree result cursor.new (parenthesized_by (expression_at depth) cursor.old) }
    ensures shorter { OnOk result (length cursor.new < length cursor.old) }
{
    cursor.sign(Sign::LeftParenthesis)?;
    let inner = expression(alloc, depth, cursor)?;
    if cursor.eat(Sign::RightParenthesis) {
        Ok(inner)
    } else {
        Err(cursor.unexpected())
    }
}

/// Reads an expression in parentheses, and answers it without them in a box.
#[cycle(expression)]
#[tactic(auto, unfolding(crate::specs::ReadExpressions::parenthesized_by))]
fn enclosed(alloc: Global, depth: u32, cursor: &mut Cursor<'_, '_>) -> Parsed<Box<Expression>>
    ensures reads { Gives (λ box. expression_tree box.value) result cursor.new (parenthesized_by (expression_at depth) cursor.old) }
    ensures shorter { OnOk result (length cursor.new < length cursor.old) }
{
    cursor.sign(Sign::LeftParenthesis)?;
    closed(alloc, depth, Sign::RightParenthesis, cursor)
}

/// Reads a variable, a call, or the making of a union value. After a variable, a `.` and a member are
/// read too, since only what follows tells it from a union's tag.
#[cycle(expression)]
#[tactic(auto, unfolding(crate::specs::ReadExpressions::named_by, crate::specs::ReadExpressions::member_by, crate::specs::ReadExpressions::arguments_by))]
fn named(
    alloc: Global,
    depth: u32,
    cursor: &mut Cursor<'_, '_>,
) -> Parsed<(Expression, Option<Name>)>
    ensures reads { Gives (λ x. (expression_tree x.0, option_map name_tree x.1)) result cursor.new (named_by (expression_at depth) cursor.old) }
    ensures shorter { OnOk result (length cursor.new < length cursor.old) }
{
    let name = cursor.name(alloc)?;
    if cursor.eat(Sign::LeftParenthesis) {
        let arguments = arguments(alloc, depth, cursor)?;
        return Ok((Expression::Call(name, arguments), None));
    }
    if !cursor.eat(Sign::Dot) {
        return Ok((Expression::Variable(name), None));
    }
    let member = cursor.name(alloc)?;
    if cursor.is_sign(Sign::LeftParenthesis) {
        let value = enclosed(alloc, depth, cursor)?;
        Ok((Expression::MakeUnion(name, member, value), None))
    } else {
        Ok((Expression::Variable(name), Some(member)))
    }
}

/// Reads the arguments of a call from behind their parenthesis, with the one that closes them.
#[cycle(expression)]
fn arguments(alloc: Global, depth: u32, cursor: &mut Cursor<'_, '_>) -> Parsed<Vec<Expression>>
    ensures reads { Gives (λ arguments. map expression_tree arguments.items) result cursor.new (arguments_behind (expression_at depth) cursor.old) }
    ensures shorter { OnOk result (length cursor.new < length cursor.old) }
{
    if cursor.eat(Sign::RightParenthesis) {
        return Ok(Vec::new(alloc));
    }
    let arguments = listed(alloc, depth, cursor)?;
    if cursor.eat(Sign::RightParenthesis) {
        Ok(arguments)
    } else {
        Err(cursor.unexpected())
    }
}

/// Reads one expression or more, with commas between them.
#[cycle(expression)]
fn listed(alloc: Global, depth: u32, cursor: &mut Cursor<'_, '_>) -> Parsed<Vec<Expression>>
    ensures reads { Gives (λ expressions. map expression_tree expressions.items) result cursor.new (listed_by (expression_at depth) cursor.old) }
    ensures shorter { OnOk result (length cursor.new < length cursor.old) }
{
    let mut expressions = Vec::new(alloc);
    'more: loop {
        expressions.push(expression(alloc, depth, cursor)?)?;
        if !cursor.eat(Sign::Comma) {
            return Ok(without_spare(expressions));
        }
    }
}

/// Reads the suffixes of a primary expression, as far as they go. The first may have been read: the member
/// that it names.
#[cycle(expression)]
#[tactic(auto, unfolding(crate::specs::ReadExpressions::suffixes_by))]
fn suffixes(
    alloc: Global,
    depth: u32,
    member: Option<Name>,
    cursor: &mut Cursor<'_, '_>,
) -> Parsed<Vec<Suffix>>
    ensures reads { Gives (λ suffixes. map suffix_tree suffixes.items) result cursor.new (suffixes_by (expression_at depth) (option_map name_tree member) cursor.old) }
    ensures shorter { OnOk result (length cursor.new ≤ length cursor.old) }
{
    let mut suffixes = Vec::new(alloc);
    if let Some(member) = member {
        suffixes.push(Suffix::Dot(member))?;
    }
    'more: while begins_suffix(cursor.kind()) {
        suffixes.push(suffix(alloc, depth, cursor)?)?;
    }
    Ok(without_spare(suffixes))
}

/// Reads a suffix of a primary expression.
#[cycle(expression)]
#[tactic(auto, unfolding(crate::specs::ReadExpressions::suffix_by))]
fn suffix(alloc: Global, depth: u32, cursor: &mut Cursor<'_, '_>) -> Parsed<Suffix>
    ensures reads { Gives suffix_tree result cursor.new (suffix_by (expression_at depth) cursor.old) }
    ensures shorter { OnOk result (length cursor.new < length cursor.old) }
{
    if cursor.eat(Sign::LeftBracket) {
        let index = closed(alloc, depth, Sign::RightBracket, cursor)?;
        Ok(Suffix::Index(index))
    } else if cursor.eat(Sign::Dot) {
        Ok(Suffix::Dot(cursor.name(alloc)?))
    } else {
        cursor.sign(Sign::Arrow)?;
        Ok(Suffix::Arrow(cursor.name(alloc)?))
    }
}
