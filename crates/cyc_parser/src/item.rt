// Items and programs.

ghost use Rattle.std.specs.Prelude.{◌≡◌, ◌<◌, ◌≤◌, ◌^◌, ℕ, IfOk, IfErr, OnOk, MatchResult, MatchOption, length, map};
ghost use Rattle.cyc_lexer.specs.Tokens.{token_tree};
ghost use Rattle.cyc_tree.specs.Tree.{Program as Tree};
ghost use Rattle.cyc_tree.specs.Depths.{nesting, nesting_limit};
ghost use Rattle.source_grammar.specs.Phrases.{Tokens};
ghost use Rattle.source_grammar.specs.Grammar.{IsProgram};
ghost use Rattle.cyc_parser.specs.Refusals.{token_limit, IsBehindLimit, IsUnexpectedAt, IsUnexpectedFirst, IsTooDeepAt, IsRefusedFor, IsRefusedProgram};
ghost use Rattle.cyc_tree.specs.View.{type_tree, member_tree, structure_tree, initial_tree, program_item_tree};
ghost use Rattle.cyc_parser.specs.Reader.{Gives, some};
ghost use Rattle.cyc_parser.specs.Tests.{begins_type as type_test};
ghost use Rattle.cyc_parser.specs.ReadPrograms.{member as member_at, members as members_at, union_behind, initial as initial_at, typed as typed_at};
ghost use Rattle.cyc_parser.specs.ReadPrograms.{struct_behind, item as item_at, program as program_at};

use crate::cursor::Cursor;
use crate::fault::{ParseFault, Parsed};
use crate::first::begins_type;
use crate::function::function_rest;
use crate::literal::{constant, element_count};
use crate::type_name::{pointers, region_list, type_name, typed_name};
use cyc_lexer::{Keyword, Sign, Token};
use cyc_tree::{Base, Function, Initial, Item, Member, Program, Structure, TypeName};
use std::alloc::Global;

// A text has no more tokens than bytes.
const TOKEN_LIMIT: usize = 1_048_576;

/// Reads an item.
#[tactic(auto, unfolding(crate::specs::ReadPrograms::item, crate::specs::ReadPrograms::tagged_union, crate::specs::ReadPrograms::struct_or_typed))]
fn item(alloc: Global, cursor: &mut Cursor<'_, '_>) -> Parsed<Item>
    ensures reads { Gives program_item_tree result cursor.new (item_at nesting_limit cursor.old) }
    ensures shorter { OnOk result (length cursor.new < length cursor.old) }
{
    let at = cursor.place();
    if cursor.eat(Sign::Tagged) {
        Ok(Item::Union(tagged_union(alloc, at, cursor)?))
    } else if cursor.eat_keyword(Keyword::Struct) {
        struct_or_typed(alloc, at, cursor)
    } else {
        let of = type_name(alloc, cursor)?;
        typed(alloc, of, cursor)
    }
}

/// Reads a struct, or a global or a function whose type begins with one, from behind its word, which stands at this position. What follows
/// the tag and its regions tells which it is.
fn struct_or_typed(alloc: Global, at: u32, cursor: &mut Cursor<'_, '_>) -> Parsed<Item>
    ensures reads { Gives program_item_tree result cursor.new (struct_behind nesting_limit at cursor.old) }
    ensures shorter { OnOk result (length cursor.new < length cursor.old) }
{
    let tag = cursor.name(alloc)?;
    let regions = region_list(alloc, cursor)?;
    if cursor.is_sign(Sign::LeftBrace) {
        let members = members(alloc, cursor)?;
        Ok(Item::Struct(Structure {
            at,
            tag,
            regions,
            members,
        }))
    } else {
        let pointers = pointers(alloc, cursor)?;
        let base = Base::Struct(tag, regions);
        let of = TypeName { at, base, pointers };
        typed(alloc, of, cursor)
    }
}

/// Reads a tagged union from behind its word, which stands at this position.
fn tagged_union(alloc: Global, at: u32, cursor: &mut Cursor<'_, '_>) -> Parsed<Structure>
    ensures reads { Gives structure_tree result cursor.new (union_behind at cursor.old) }
    ensures shorter { OnOk result (length cursor.new < length cursor.old) }
{
    cursor.keyword(Keyword::Union)?;
    let tag = cursor.name(alloc)?;
    let regions = region_list(alloc, cursor)?;
    let members = members(alloc, cursor)?;
    Ok(Structure {
        at,
        tag,
        regions,
        members,
    })
}

/// Reads the members of a struct or a union, at least one, in braces, and the semicolon after them.
#[tactic(auto, unfolding(crate::specs::ReadPrograms::members))]
fn members(alloc: Global, cursor: &mut Cursor<'_, '_>) -> Parsed<Vec<Member>>
    ensures reads { Gives (λ members. map member_tree members.items) result cursor.new (members_at cursor.old) }
    ensures shorter { OnOk result (length cursor.new < length cursor.old) }
{
    cursor.sign(Sign::LeftBrace)?;
    let members = some_members(alloc, cursor)?;
    cursor.sign(Sign::RightBrace)?;
    cursor.sign(Sign::Semicolon)?;
    Ok(members)
}

/// Reads one member or more, as far as they go.
fn some_members(alloc: Global, cursor: &mut Cursor<'_, '_>) -> Parsed<Vec<Member>>
    ensures reads { Gives (λ members. map member_tree members.items) result cursor.new (some type_test member_at cursor.old) }
    ensures shorter { OnOk result (length cursor.new < length cursor.old) }
{
    let mut members = Vec::new(alloc);
    'more: loop {
        members.push(member(alloc, cursor)?)?;
        if !begins_type(cursor.kind()) {
            return Ok(members);
        }
    }
}

/// Reads a member, with its semicolon.
#[tactic(auto, unfolding(crate::specs::ReadPrograms::member))]
fn member(alloc: Global, cursor: &mut Cursor<'_, '_>) -> Parsed<Member>
    ensures reads { Gives member_tree result cursor.new (member_at cursor.old) }
    ensures shorter { OnOk result (length cursor.new < length cursor.old) }
{
    let member = typed_name(alloc, cursor)?;
    cursor.sign(Sign::Semicolon)?;
    Ok(member)
}

/// Reads a global or a function from its name on, given its type.
#[tactic(auto, unfolding(crate::specs::ReadPrograms::typed, crate::specs::ReadPrograms::function_of))]
fn typed(alloc: Global, of: TypeName, cursor: &mut Cursor<'_, '_>) -> Parsed<Item>
    ensures reads { Gives program_item_tree result cursor.new (typed_at nesting_limit (type_tree of) cursor.old) }
    ensures shorter { OnOk result (length cursor.new < length cursor.old) }
{
    let name = cursor.name(alloc)?;
    if cursor.eat(Sign::LeftParenthesis) {
        let rest = function_rest(alloc, cursor)?;
        Ok(Item::Function(Function {
            result: of,
            name,
            parameters: rest.parameters,
            effect: rest.effect,
            bounds: rest.bounds,
            body: rest.body,
            end: rest.end,
        }))
    } else {
        let initial = initial(alloc, cursor)?;
        if cursor.eat(Sign::Semicolon) {
            Ok(Item::Global(cyc_tree::Global { of, name, initial }))
        } else {
            Err(cursor.unexpected())
        }
    }
}

/// Reads what a global begins with, where that is written.
#[tactic(auto, unfolding(crate::specs::ReadPrograms::initial))]
fn initial(alloc: Global, cursor: &mut Cursor<'_, '_>) -> Parsed<Initial>
    ensures reads { Gives initial_tree result cursor.new (initial_at cursor.old) }
    ensures shorter { OnOk result (length cursor.new ≤ length cursor.old) }
{
    if cursor.eat(Sign::Assign) {
        Ok(Initial::Constant(constant(alloc, cursor)?))
    } else if cursor.is_sign(Sign::LeftBracket) {
        Ok(Initial::Array(element_count(cursor)?))
    } else {
        Ok(Initial::None)
    }
}

/// Reads one item or more, up to the end.
#[tactic(auto, unfolding(crate::specs::ReadPrograms::program))]
fn items(alloc: Global, cursor: &mut Cursor<'_, '_>) -> Parsed<Vec<Item>>
    ensures { Gives (λ items. map program_item_tree items.items) result cursor.new (program_at nesting_limit cursor.old) }
{
    let mut items = Vec::new(alloc);
    'items: loop {
        items.push(item(alloc, cursor)?)?;
        if cursor.kind().is_none() {
            return Ok(items);
        }
    }
}

/// The program that the tokens spell.
///
/// Refuses with `Parse` at the first token with which the tokens so far begin no program, or at the
/// end of the text, where no token before it is in over 256 phrases; with `TooDeep` at the first
/// token that is, where the tokens up to it begin a program; and with `Memory` where no host memory
/// is left. More than 1,048,576 tokens, which no text has, are refused with `Parse` at the first
/// one after these.
pub fn parse(alloc: Global, tokens: &[Token<'_>]) -> Result<Program, ParseFault>
    ensures found { IfOk result (λ program. IsProgram program (map token_tree tokens.entry.now)) }
    // no token of it is in over 256 phrases
    ensures nested { IfOk result (λ program. nesting program ≤ nesting_limit) }
    // there are no more tokens than a text may have
    ensures few { IfOk result (λ program. length (map token_tree tokens.entry.now) ≤ token_limit) }
    // the tokens' program is answered, unless it nests too deep or no memory is left
    ensures only { (program : Tree) → length (map token_tree tokens.entry.now) ≤ token_limit → IsProgram program (map token_tree tokens.entry.now)
        → MatchResult result (λ answered. answered ≡ program) (λ fault. IsRefusedProgram program fault) }
    // why there is none, and where
    ensures refused { IfErr result (λ fault. IsRefusedFor fault (map token_tree tokens.entry.now)) }
{
    match behind_limit(tokens) {
        Some(at) => Err(ParseFault::Parse(at)),
        None => program(alloc, tokens),
    }
}

/// The position of the first token after as many as a text may have, if there are more.
fn behind_limit(tokens: &[Token<'_>]) -> Option<u32>
    ensures { MatchOption result (length (map token_tree tokens.entry.now) ≤ token_limit) (λ at. IsBehindLimit (map token_tree tokens.entry.now) at) }
{
    match tokens.get(TOKEN_LIMIT) {
        Some(token) => Some(token.at),
        None => None,
    }
}

/// The program that the tokens spell, where they are no more than a text may have.
fn program(alloc: Global, tokens: &[Token<'_>]) -> Result<Program, ParseFault>
    requires few { length (map token_tree tokens.now) ≤ token_limit }
    ensures found { IfOk result (λ program. IsProgram program (map token_tree tokens.entry.now)) }
    ensures nested { IfOk result (λ program. nesting program ≤ nesting_limit) }
    ensures only { (program : Tree) → IsProgram program (map token_tree tokens.entry.now)
        → MatchResult result (λ answered. answered ≡ program) (λ fault. IsRefusedProgram program fault) }
    ensures refused { IfErr result (λ fault. IsRefusedFor fault (map token_tree tokens.entry.now)) }
{
    let mut cursor = Cursor::new(tokens);
    let items = items(alloc, &mut cursor)?;
    match Program::new(alloc, items) {
        Ok(program) => Ok(program),
        Err(_) => Err(ParseFault::Memory),
    }
}

/// Tokens spell one program at most.
pub fn one_program()
    ensures { (tokens : Tokens) (program other : Tree) → IsProgram program tokens → IsProgram other tokens → program ≡ other }
{}

/// Tokens have one fault: there is one first token at most that no program has there, and one that is
/// the first in over 256 phrases, and none have both, if their positions are below 4,294,967,296.
pub fn one_place()
    ensures unexpected { (tokens : Tokens) (at other : ℕ) → IsUnexpectedAt tokens at → IsUnexpectedAt tokens other → at ≡ other }
    ensures too_deep { (tokens : Tokens) (at other : ℕ) → IsTooDeepAt tokens at → IsTooDeepAt tokens other → at ≡ other }
    ensures not_both { (tokens : Tokens) (at other : ℕ) → IsUnexpectedFirst tokens at → IsTooDeepAt tokens other → other < 2 ^ 32 → ⊥ }
{}
