// Types, and the regions that they name.

ghost use Rattle.std.specs.Prelude.{◌≡◌, ◌<◌, ◌≤◌, Ok, OnOk, length, map};
ghost use Rattle.cyc_tree.specs.View.{region_tree, base_tree, pointer_tree, type_tree, member_tree};
ghost use Rattle.cyc_parser.specs.Reader.{Gives};
ghost use Rattle.cyc_parser.specs.ReadTypes.{base as base_at, pointee_count as pointee_count_at, qualified as qualified_at, pointer_sign_read};
ghost use Rattle.cyc_parser.specs.ReadTypes.{pointer as pointer_at, pointers as pointers_at, type_name as type_name_at, typed_name as typed_name_at};
ghost use Rattle.cyc_parser.specs.ReadTypes.{one_region as one_region_at, regions as regions_at, region_list as region_list_at};

use crate::cursor::Cursor;
use crate::fault::{ParseFault, Parsed};
use crate::first::begins_pointer;
use cyc_lexer::{Keyword, Sign, TokenKind};
use cyc_tree::{Base, Member, Pointer, RegionName, RegionNames, TypeName};
use std::alloc::Global;

/// Reads a type.
#[tactic(auto, unfolding(crate::specs::ReadTypes::type_name))]
pub fn type_name(alloc: Global, cursor: &mut Cursor<'_, '_>) -> Parsed<TypeName>
    ensures reads { Gives type_tree result cursor.new (type_name_at cursor.old) }
    ensures shorter { OnOk result (length cursor.new < length cursor.old) }
{
    let at = cursor.place();
    let base = base(alloc, cursor)?;
    let pointers = pointers(alloc, cursor)?;
    Ok(TypeName { at, base, pointers })
}

/// Reads a type and a name: a parameter, or a member without its semicolon.
#[tactic(auto, unfolding(crate::specs::ReadTypes::typed_name))]
pub fn typed_name(alloc: Global, cursor: &mut Cursor<'_, '_>) -> Parsed<Member>
    ensures reads { Gives member_tree result cursor.new (typed_name_at cursor.old) }
    ensures shorter { OnOk result (length cursor.new < length cursor.old) }
{
    let of = type_name(alloc, cursor)?;
    let name = cursor.name(alloc)?;
    Ok(Member { of, name })
}

/// Reads what a type begins with.
#[tactic(auto, unfolding(crate::specs::ReadTypes::base))]
fn base(alloc: Global, cursor: &mut Cursor<'_, '_>) -> Parsed<Base>
    ensures reads { Gives base_tree result cursor.new (base_at cursor.old) }
    ensures shorter { OnOk result (length cursor.new < length cursor.old) }
{
    let token = cursor.read()?;
    match token.kind {
        TokenKind::Keyword(Keyword::Int) => Ok(Base::Int),
        TokenKind::Keyword(Keyword::Unsigned) => {
            cursor.eat_keyword(Keyword::Int);
            Ok(Base::Unsigned)
        }
        TokenKind::Keyword(Keyword::Char) => Ok(Base::Char),
        TokenKind::Keyword(Keyword::Void) => Ok(Base::Void),
        TokenKind::Keyword(Keyword::Struct) => {
            let tag = cursor.name(alloc)?;
            Ok(Base::Struct(tag, region_list(alloc, cursor)?))
        }
        TokenKind::Keyword(Keyword::Union) => {
            let tag = cursor.name(alloc)?;
            Ok(Base::Union(tag, region_list(alloc, cursor)?))
        }
        TokenKind::Keyword(Keyword::RegionT) => Ok(Base::Handle(one_region(alloc, cursor)?)),
        TokenKind::Keyword(Keyword::UregionKeyT) => Ok(Base::Key(one_region(alloc, cursor)?)),
        _ => Err(ParseFault::Parse(token.at)),
    }
}

/// Reads the pointers to a base, as far as they go.
pub fn pointers(alloc: Global, cursor: &mut Cursor<'_, '_>) -> Parsed<Vec<Pointer>>
    ensures reads { Gives (λ pointers. map pointer_tree pointers.items) result cursor.new (pointers_at cursor.old) }
    ensures shorter { OnOk result (length cursor.new ≤ length cursor.old) }
{
    let mut pointers = Vec::new(alloc);
    'pointers: while begins_pointer(cursor.kind()) {
        pointers.push(pointer(alloc, cursor)?)?;
    }
    Ok(pointers)
}

/// Reads a pointer: its sign, and the region that may stand after it.
#[tactic(auto, unfolding(crate::specs::ReadTypes::pointer))]
fn pointer(alloc: Global, cursor: &mut Cursor<'_, '_>) -> Parsed<Pointer>
    ensures reads { Gives pointer_tree result cursor.new (pointer_at cursor.old) }
    ensures shorter { OnOk result (length cursor.new < length cursor.old) }
{
    let sign = pointer_sign(cursor)?;
    let region = if cursor.is_region() {
        Some(cursor.region(alloc)?)
    } else {
        None
    };
    Ok(Pointer { sign, region })
}

/// Reads a pointer's sign, with the number of elements that it points to.
#[tactic(auto, unfolding(crate::specs::ReadTypes::pointer_sign_read))]
fn pointer_sign(cursor: &mut Cursor<'_, '_>) -> Parsed<cyc_tree::Sign>
    ensures reads { Gives (λ sign. sign) result cursor.new (pointer_sign_read cursor.old) }
    ensures shorter { OnOk result (length cursor.new < length cursor.old) }
{
    let token = cursor.read()?;
    match token.kind {
        TokenKind::Sign(Sign::Star) => qualified(cursor),
        TokenKind::Sign(Sign::At) => Ok(cyc_tree::Sign::NotNull(pointee_count(cursor)?)),
        TokenKind::Sign(Sign::Question) => Ok(cyc_tree::Sign::Fat),
        _ => Err(ParseFault::Parse(token.at)),
    }
}

/// Reads the word and the number that may stand after `*`, and answers the sign that they make.
#[tactic(auto, unfolding(crate::specs::ReadTypes::qualified))]
fn qualified(cursor: &mut Cursor<'_, '_>) -> Parsed<cyc_tree::Sign>
    ensures reads { Gives (λ sign. sign) result cursor.new (qualified_at cursor.old) }
    ensures shorter { OnOk result (length cursor.new ≤ length cursor.old) }
{
    if cursor.eat(Sign::NotNull) {
        Ok(cyc_tree::Sign::NotNull(pointee_count(cursor)?))
    } else if cursor.eat(Sign::FatSign) {
        Ok(cyc_tree::Sign::Fat)
    } else if cursor.eat(Sign::Thin) {
        Ok(cyc_tree::Sign::Nullable(1))
    } else {
        Ok(cyc_tree::Sign::Nullable(pointee_count(cursor)?))
    }
}

/// Reads the number of elements that a pointer points to, in braces, where it is written. It is 1 where it isn't.
#[tactic(auto, unfolding(crate::specs::ReadTypes::pointee_count))]
fn pointee_count(cursor: &mut Cursor<'_, '_>) -> Parsed<u32>
    ensures reads { Gives (λ count. count) result cursor.new (pointee_count_at cursor.old) }
    ensures shorter { OnOk result (length cursor.new ≤ length cursor.old) }
{
    if !cursor.eat(Sign::LeftBrace) {
        return Ok(1);
    }
    let (count, _) = cursor.number()?;
    cursor.sign(Sign::RightBrace)?;
    Ok(count)
}

/// Reads a region name in angle brackets.
#[tactic(auto, unfolding(crate::specs::ReadTypes::one_region))]
pub fn one_region(alloc: Global, cursor: &mut Cursor<'_, '_>) -> Parsed<RegionName>
    ensures reads { Gives region_tree result cursor.new (one_region_at cursor.old) }
    ensures shorter { OnOk result (length cursor.new < length cursor.old) }
{
    cursor.sign(Sign::Less)?;
    let region = cursor.region(alloc)?;
    cursor.sign(Sign::Greater)?;
    Ok(region)
}

/// Reads the region names in angle brackets that may stand after a tag.
#[tactic(auto, unfolding(crate::specs::ReadTypes::region_list))]
pub fn region_list(alloc: Global, cursor: &mut Cursor<'_, '_>) -> Parsed<RegionNames>
    ensures reads { Gives (λ regions. map region_tree regions.items) result cursor.new (region_list_at cursor.old) }
    ensures shorter { OnOk result (length cursor.new ≤ length cursor.old) }
{
    if !cursor.eat(Sign::Less) {
        return Ok(RegionNames::new(alloc));
    }
    let regions = regions(alloc, cursor)?;
    cursor.sign(Sign::Greater)?;
    Ok(regions)
}

/// Reads one region name or more, with commas between them.
#[tactic(auto, unfolding(crate::specs::ReadTypes::regions))]
pub fn regions(alloc: Global, cursor: &mut Cursor<'_, '_>) -> Parsed<RegionNames>
    ensures reads { Gives (λ regions. map region_tree regions.items) result cursor.new (regions_at cursor.old) }
    ensures shorter { OnOk result (length cursor.new < length cursor.old) }
{
    let mut regions = RegionNames::new(alloc);
    'more: loop {
        regions.push(cursor.region(alloc)?)?;
        if !cursor.eat(Sign::Comma) {
            return Ok(regions);
        }
    }
}
