// The tokens that are left to read.

ghost use Rattle.std.specs.Prelude.{◌≡◌, ◌<◌, MatchBool, Ok, Err, OnOk, List, length, map, drop, if◌then◌else◌};
ghost use Rattle.cyc_lexer.specs.Tokens.{token_tree};
ghost use Rattle.cyc_tree.specs.View.{name_tree, region_tree};
ghost use Rattle.cyc_parser.specs.declared.fault.ParseFault.TheVariants.{Parse, TooDeep};
ghost use Rattle.cyc_parser.specs.Reading.{next_kind, next_place};
ghost use Rattle.cyc_parser.specs.Tests.{is_any as any_token, is_sign as sign_test, is_keyword as keyword_test, is_region as region_test};
ghost use Rattle.cyc_parser.specs.Tests.{is_identifier as name_test};
ghost use Rattle.cyc_parser.specs.Reader.{next_is, token, sign as sign_at, keyword as keyword_at, Gives};
ghost use Rattle.cyc_parser.specs.ReadTypes.{name as name_at, region as region_at, number as number_at};

use crate::fault::{ParseFault, Parsed};
use cyc_lexer::{Keyword, Sign, Token, TokenKind};
use cyc_tree::{END_OF_TEXT, Name, RegionName};
use std::alloc::Global;
use std::marker::Model;

/// The tokens that are left to read. A contract sees them as their list.
#[derive(Drop)]
pub struct Cursor<'t, 'a> {
    tokens: &'t [Token<'a>],
    next: usize,
}

impl<'t, 'a> Model for Cursor<'t, 'a> {
    ghost use Rattle.std.specs.Prelude.{List, map, drop};
    ghost use Rattle.cyc_lexer.specs.Lexing.{Token as PureToken};
    ghost use Rattle.cyc_lexer.specs.Tokens.{token_tree};

    ghost Value = { List PureToken };

    ghost view = { λ c. map token_tree (drop c.next c.tokens.now) };
}

impl<'t, 'a> Cursor<'t, 'a> {
    /// All of the tokens.
    pub fn new(tokens: &'t [Token<'a>]) -> Self
        ensures { result ≡ map token_tree tokens.entry.now }
    {
        Cursor { tokens, next: 0 }
    }

    /// The next token's kind.
    pub fn kind(&self) -> Option<TokenKind>
        ensures next { result ≡ next_kind self.now }
    {
        match self.tokens.get(self.next) {
            Some(token) => Some(token.kind),
            None => None,
        }
    }

    /// The position of the next token, or the end of the text.
    pub fn place(&self) -> u32
        ensures { result ≡ next_place self.now }
    {
        match self.tokens.get(self.next) {
            Some(token) => token.at,
            None => END_OF_TEXT,
        }
    }

    /// The fault that the next token is unexpected.
    pub fn unexpected(&self) -> ParseFault
        ensures { result ≡ Parse (next_place self.now) }
    {
        ParseFault::Parse(self.place())
    }

    /// The fault where a phrase would nest too deep, given whether the next token begins such a phrase.
    pub fn too_deep(&self, begins: bool) -> ParseFault
        ensures { result ≡ (if begins then TooDeep (next_place self.now) else Parse (next_place self.now)) }
    {
        if begins {
            ParseFault::TooDeep(self.place())
        } else {
            self.unexpected()
        }
    }

    /// Whether the next token is this sign.
    pub fn is_sign(&self, sign: Sign) -> bool
        ensures { result ≡ next_is (sign_test sign) self.now }
    {
        match self.kind() {
            Some(TokenKind::Sign(next)) => next == sign,
            _ => false,
        }
    }

    /// Whether the next token is this keyword.
    pub fn is_keyword(&self, keyword: Keyword) -> bool
        ensures { result ≡ next_is (keyword_test keyword) self.now }
    {
        match self.kind() {
            Some(TokenKind::Keyword(next)) => next == keyword,
            _ => false,
        }
    }

    /// Whether the next token is a name.
    pub fn is_name(&self) -> bool
        ensures { result ≡ next_is name_test self.now }
    {
        matches!(self.kind(), Some(TokenKind::Identifier))
    }

    /// Whether the next token is a region name.
    pub fn is_region(&self) -> bool
        ensures { result ≡ next_is region_test self.now }
    {
        matches!(self.kind(), Some(TokenKind::Region))
    }

    /// Reads the next token, of any kind. Where there is none, the fault is at the end of the text.
    pub fn read(&mut self) -> Parsed<Token<'a>>
        ensures reads { Gives token_tree result self.new (token any_token self.old) }
        ensures shorter { OnOk result (length self.new < length self.old) }
    {
        match self.tokens.get(self.next) {
            Some(token) => {
                let token = *token;
                self.next += 1;
                Ok(token)
            }
            None => Err(ParseFault::Parse(END_OF_TEXT)),
        }
    }

    /// Reads the next token, which has to be this sign, and answers its position.
    pub fn sign(&mut self, sign: Sign) -> Parsed<u32>
        ensures reads { Gives (λ at. at) result self.new (sign_at sign self.old) }
        ensures shorter { OnOk result (length self.new < length self.old) }
    {
        let at = self.place();
        if self.eat(sign) {
            Ok(at)
        } else {
            Err(self.unexpected())
        }
    }

    /// Reads the next token where it is this sign, and answers whether it is.
    pub fn eat(&mut self, sign: Sign) -> bool
        ensures next { result ≡ next_is (sign_test sign) self.old }
        ensures reads { MatchBool result (sign_at sign self.old ≡ Ok (next_place self.old, self.new)) (sign_at sign self.old ≡ Err (Parse (next_place self.new))) }
        ensures shorter { MatchBool result (length self.new < length self.old) (self.new ≡ self.old) }
    {
        let stands = self.is_sign(sign);
        if stands {
            self.next += 1;
        }
        stands
    }

    /// Reads the next token where it is this keyword, and answers whether it is.
    pub fn eat_keyword(&mut self, keyword: Keyword) -> bool
        ensures next { result ≡ next_is (keyword_test keyword) self.old }
        ensures reads { MatchBool result (keyword_at keyword self.old ≡ Ok (next_place self.old, self.new)) (keyword_at keyword self.old ≡ Err (Parse (next_place self.new))) }
        ensures shorter { MatchBool result (length self.new < length self.old) (self.new ≡ self.old) }
    {
        let stands = self.is_keyword(keyword);
        if stands {
            self.next += 1;
        }
        stands
    }

    /// Reads the next token, which has to be this keyword, and answers its position.
    pub fn keyword(&mut self, keyword: Keyword) -> Parsed<u32>
        ensures reads { Gives (λ at. at) result self.new (keyword_at keyword self.old) }
        ensures shorter { OnOk result (length self.new < length self.old) }
    {
        let at = self.place();
        if self.eat_keyword(keyword) {
            Ok(at)
        } else {
            Err(self.unexpected())
        }
    }

    /// Reads the next token, which has to be a name.
    #[tactic(auto, unfolding(crate::specs::ReadTypes::name))]
    pub fn name(&mut self, alloc: Global) -> Parsed<Name>
        ensures reads { Gives name_tree result self.new (name_at self.old) }
        ensures shorter { OnOk result (length self.new < length self.old) }
    {
        if !self.is_name() {
            return Err(self.unexpected());
        }
        let token = self.read()?;
        let text = token.text.to_vec(alloc)?;
        Ok(Name { at: token.at, text })
    }

    /// Reads the next token, which has to be a region name.
    #[tactic(auto, unfolding(crate::specs::ReadTypes::region), using(crate::proofs::Spellings::are_same, crate::proofs::Spellings::are_other))]
    pub fn region(&mut self, alloc: Global) -> Parsed<RegionName>
        ensures reads { Gives region_tree result self.new (region_at self.old) }
        ensures shorter { OnOk result (length self.new < length self.old) }
    {
        if !self.is_region() {
            return Err(self.unexpected());
        }
        let token = self.read()?;
        if token.text == b"`H".as_slice() {
            Ok(RegionName::Heap(token.at))
        } else if token.text == b"`U".as_slice() {
            Ok(RegionName::Unique(token.at))
        } else {
            let text = token.text.strip_prefix(b"`").unwrap_or(token.text);
            let text = text.to_vec(alloc)?;
            Ok(RegionName::Named(Name { at: token.at, text }))
        }
    }

    /// Reads the next token, which has to be a number, and answers its value and whether it has the suffix.
    #[tactic(auto, unfolding(crate::specs::ReadTypes::number))]
    pub fn number(&mut self) -> Parsed<(u32, bool)>
        ensures reads { Gives (λ n. n) result self.new (number_at self.old) }
        ensures shorter { OnOk result (length self.new < length self.old) }
    {
        let Some(TokenKind::Number(value, suffix)) = self.kind() else {
            return Err(self.unexpected());
        };
        self.read()?;
        Ok((value, suffix))
    }
}
