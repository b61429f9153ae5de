// Names and keywords.

ghost use Rattle.std.specs.Prelude.{◌≡◌, map};
ghost use Rattle.cyc_lexer.specs.Reading.{same, find_keyword, keywords};

use crate::token::Keyword;

// Each keyword and its spelling.
pub(crate) static KEYWORDS: [(Keyword, &[u8]); 32] = [
    (Keyword::Int, b"int"),
    (Keyword::Unsigned, b"unsigned"),
    (Keyword::Char, b"char"),
    (Keyword::Void, b"void"),
    (Keyword::Struct, b"struct"),
    (Keyword::Union, b"union"),
    (Keyword::RegionT, b"region_t"),
    (Keyword::UregionKeyT, b"uregion_key_t"),
    (Keyword::Region, b"region"),
    (Keyword::Open, b"open"),
    (Keyword::Let, b"let"),
    (Keyword::Alias, b"alias"),
    (Keyword::NewDynamicRegion, b"NewDynamicRegion"),
    (Keyword::NewUkey, b"new_ukey"),
    (Keyword::FreeUkey, b"free_ukey"),
    (Keyword::Ufree, b"ufree"),
    (Keyword::Numelts, b"numelts"),
    (Keyword::Rnew, b"rnew"),
    (Keyword::New, b"new"),
    (Keyword::HeapRegion, b"heap_region"),
    (Keyword::UniqueRegion, b"unique_region"),
    (Keyword::Null, b"NULL"),
    (Keyword::If, b"if"),
    (Keyword::Else, b"else"),
    (Keyword::While, b"while"),
    (Keyword::Break, b"break"),
    (Keyword::Continue, b"continue"),
    (Keyword::Return, b"return"),
    (Keyword::Switch, b"switch"),
    (Keyword::Case, b"case"),
    (Keyword::Default, b"default"),
    (Keyword::For, b"for"),
];

/// Whether the bytes are these.
fn are(bytes: &[u8], spelled: &[u8]) -> bool
    ensures { result ≡ same bytes.now spelled.now }
{
    bytes == spelled
}

/// The first of the keywords of this spelling.
fn find_keyword(keywords: &[(Keyword, &[u8])], word: &[u8]) -> Option<Keyword>
    ensures { result ≡ find_keyword (map (λ e. (e.0, e.1.now)) keywords.now) word.now }
{
    for (keyword, spelled) in keywords {
        if are(word, spelled) {
            return Some(*keyword);
        }
    }
    None
}

/// The keyword of this spelling.
pub(crate) fn keyword_of(word: &[u8]) -> Option<Keyword>
    ensures { result ≡ find_keyword keywords word.now }
{
    find_keyword(&KEYWORDS, word)
}
