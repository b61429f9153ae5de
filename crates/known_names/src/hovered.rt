// What is known of a name where it stands: its type with its regions, the size of that, and what a call instantiates.

use crate::held::say_owners;
use crate::instantiated::Called;
use crate::spots::{Spot, is_member_at, spot_at};
use check_expressions::{arrow_part, indexed_parts, member_part};
use check_faults::Verdict;
use check_heads::{Names, read_head};
use check_operators::{Value, variable};
use check_structs::judged_tags;
use check_tables::{Structs, program_names};
use cyc_lexer::{Token, TokenKind, tokens};
use cyc_parser::parse;
use cyc_tree::{Expression, Function, Item, Program, Suffix};
use cyc_types::{BaseType, CType};
use fault_words::{Here, Walk, Words, item_at, say_type, walk_behind};
use smallvec::SmallVec;
use std::alloc::{AllocError, Global};
use token_reasons::index_at;

/// A name in a function's body, and what is in scope there.
#[derive(Drop)]
struct Hovered<'m, 'w, 'g, 'p> {
    words: &'m mut Words<'w>,
    walk: Walk<'g, 'p>,
    names: Names<'g, 'p>,
    items: &'p [Item],
    alloc: Global,
    token: Token<'p>,
}

/// The expression at the position of a walk.
fn expression_at<'p>(here: Here<'p>, at: u32) -> Option<&'p Expression> {
    match here {
        Here::Begins(_, _, value)
        | Here::Returned(value)
        | Here::Tested(value)
        | Here::Other(value) => Some(value),
        Here::Exchanged(left, right) => Some(if right.place() <= at { right } else { left }),
        Here::Nothing | Here::ReturnedNone => None,
    }
}

impl<'m, 'w, 'g, 'p> Hovered<'m, 'w, 'g, 'p> {
    /// Says a type and its size. Fails only where no host memory is left, as all of these.
    fn say_of(&mut self, of: &CType<'p>) -> Result<(), AllocError> {
        self.words.say("Type: ")?;
        say_type(self.words, &self.walk.labels, of)?;
        self.words.say("\n")?;
        match self.names.tables.extent(of) {
            Some(extent) if !of.is_void() => self.words.size(extent.size()),
            _ => Ok(()),
        }
    }

    /// Says what a value is, where it is known.
    fn say_value(&mut self, judged: &Verdict<Value<'p>>) -> Result<(), AllocError> {
        match judged {
            Verdict::Of(value) => self.say_of(&value.of),
            Verdict::Wrong(_) | Verdict::NotJudged => Ok(()),
        }
    }

    /// What a suffix gives.
    fn suffixed(
        &self,
        spot: Spot<'_>,
        before: Verdict<Value<'p>>,
        suffix: &Suffix,
    ) -> Result<Verdict<Value<'p>>, AllocError> {
        match suffix {
            Suffix::Dot(field) => member_part(self.walk.scope.tables, field, before),
            Suffix::Arrow(field) => arrow_part(&self.walk.scope, field, before),
            Suffix::Index(index) => {
                let index = spot.judged(&self.walk.scope, self.alloc, index)?;
                Ok(indexed_parts(&self.walk.scope, before, index))
            }
        }
    }

    /// Says what the member is that is named here, behind an expression.
    fn say_member(
        &mut self,
        spot: Spot<'_>,
        first: &Expression,
        suffixes: &[Suffix],
    ) -> Result<(), AllocError> {
        let mut judged = spot.judged(&self.walk.scope, self.alloc, first)?;
        for suffix in suffixes {
            judged = self.suffixed(spot, judged, suffix)?;
            if is_member_at(suffix, self.token.at) {
                break;
            }
        }
        self.say_value(&judged)
    }

    /// Says what a part of an expression is that has the name here.
    fn say_spot(&mut self, spot: Spot<'_>) -> Result<(), AllocError> {
        if let Expression::Suffixed(first, suffixes) = spot.node {
            return self.say_member(spot, first, suffixes);
        }
        let judged = spot.judged(&self.walk.scope, self.alloc, spot.node)?;
        self.say_value(&judged)?;
        let names = self.names;
        let items = self.items;
        let alloc = self.alloc;
        say_call(self.words, &self.walk, names, items, alloc, spot)
    }

    /// Says what the name here is where no expression has it: that of a local or a parameter.
    fn say_declared(&mut self) -> Result<(), AllocError> {
        let named = self.walk.scope.meaning(self.token.text);
        let judged = variable(self.alloc, self.token.at, named)?;
        self.say_value(&judged)
    }

    /// Says whether the region that is named here is live.
    fn say_region(&mut self) -> Result<(), AllocError> {
        let name = self.token.text;
        let Some(region) = self.walk.known.find(name.get(1..).unwrap_or(name)) else {
            return Ok(());
        };
        let is_live = self.walk.scope.is_live(region);
        self.words.name(name)?;
        self.words.say(if is_live {
            " is live here.\n"
        } else {
            " isn't live here.\n"
        })
    }

    /// Says what the name here is.
    fn say_name(&mut self) -> Result<(), AllocError> {
        let at = self.token.at;
        let spot = match expression_at(self.walk.here, at) {
            Some(whole) => spot_at(&self.walk.scope, self.alloc, whole, at)?,
            None => None,
        };
        match spot {
            Some(spot) => self.say_spot(spot),
            None => self.say_declared(),
        }
    }

    /// Says what is known here; of a tag how large that is.
    fn say_here(&mut self) -> Result<(), AllocError> {
        let before = self.words.len();
        match self.token.kind {
            TokenKind::Region => self.say_region()?,
            _ => self.say_name()?,
        }
        if self.words.len() > before {
            return Ok(());
        }
        say_tag(self.words, self.alloc, self.token, self.names)
    }

    /// Says which locals own a block or a key here.
    fn say_held(&mut self, site: Site<'_, 'p>, function: &Function) -> Result<(), AllocError> {
        say_owners(
            self.words,
            site.alloc,
            site.tokens,
            site.program,
            &self.walk,
            function,
        )
    }
}

/// A name in a text, with the tokens and the items of that.
#[derive(Clone, Copy)]
struct Site<'t, 'p> {
    alloc: Global,
    tokens: &'t [Token<'p>],
    token: Token<'p>,
    program: &'p Program,
}

/// Says what a call instantiates the region variables of its function to.
fn say_call<'g, 'p>(
    words: &mut Words<'_>,
    walk: &Walk<'g, 'p>,
    names: Names<'g, 'p>,
    items: &'p [Item],
    alloc: Global,
    spot: Spot<'_>,
) -> Result<(), AllocError> {
    let Expression::Call(name, arguments) = spot.node else {
        return Ok(());
    };
    let called = Called {
        scope: &walk.scope,
        labels: &walk.labels,
        names,
        items,
        alloc,
    };
    called.say(words, spot, name, arguments)
}

/// Says the size of the struct or union of a tag, where a name is one.
fn say_tag(
    words: &mut Words<'_>,
    alloc: Global,
    token: Token<'_>,
    names: Names<'_, '_>,
) -> Result<(), AllocError> {
    let Some((tag, found)) = names.tables.named(token.text) else {
        return Ok(());
    };
    let regions = SmallVec::new(alloc);
    let base = if found.is_union {
        BaseType::Union(tag, regions)
    } else {
        BaseType::Struct(tag, regions)
    };
    match names.tables.extent(&CType::plain(alloc, base)) {
        Some(extent) => words.size(extent.size()),
        None => Ok(()),
    }
}

/// Says what is known of a name in a function, and which locals own a block or a key there.
fn say_inside<'p>(
    words: &mut Words<'_>,
    site: Site<'_, 'p>,
    names: Names<'_, 'p>,
    item: u32,
    function: &'p Function,
) -> Result<(), AllocError> {
    let head = read_head(site.alloc, names.tags, false, function)?;
    let walk = walk_behind(site.alloc, names, &head, item, function, site.token.at)?;
    let mut hovered = Hovered {
        words,
        walk,
        names,
        items: site.program.items(),
        alloc: site.alloc,
        token: site.token,
    };
    hovered.say_here()?;
    hovered.say_held(site, function)
}

/// Says what is known of a name, by what the program's names mean.
fn say_known<'p>(words: &mut Words<'_>, site: Site<'_, 'p>) -> Result<(), AllocError> {
    let items = site.program.items();
    let Some(index) = item_at(items, site.token.at) else {
        return Ok(());
    };
    let tags = judged_tags(site.alloc, items)?;
    let structs = Structs {
        tags: &tags.names,
        tables: &tags.tables,
    };
    let globals = program_names(site.alloc, structs, false, items)?;
    let names = Names {
        globals: &globals,
        tags: structs.tags,
        tables: structs.tables,
    };
    match (items.get(index), u32::try_from(index)) {
        (Some(Item::Function(function)), Ok(item)) => {
            say_inside(words, site, names, item, function)
        }
        _ => say_tag(words, site.alloc, site.token, names),
    }
}

/// Says what is known of the name at an offset of a text.
fn say_at(words: &mut Words<'_>, alloc: Global, text: &[u8], at: u32) -> Result<(), AllocError> {
    let Ok(tokens) = tokens(alloc, text) else {
        return Ok(());
    };
    let Some(token) = tokens.get(index_at(tokens.as_slice(), at)).copied() else {
        return Ok(());
    };
    match parse(alloc, tokens.as_slice()) {
        Ok(program) => {
            let site = Site {
                alloc,
                tokens: tokens.as_slice(),
                token,
                program: &program,
            };
            say_known(words, site)
        }
        Err(_) => Ok(()),
    }
}

/// What is known of the name that begins at an offset of a text, in lines of words: its type with the regions filled in, and the size of that;
/// what a call instantiates the region variables to; whether a region is live; and which locals own a block or a key there, and which gave
/// it away or lent it. Nothing of a text that is no program. Fails only where no host memory is left.
pub fn known_at(alloc: Global, text: &[u8], at: u32) -> Result<Vec<u8>, AllocError> {
    let mut words = Words::new(alloc, text);
    say_at(&mut words, alloc, text, at)?;
    Ok(words.into_reason().into_words())
}
