// Explanations, by their names.

ghost use Rattle.std.specs.Prelude.{◌≡◌, IfSome};
ghost use Rattle.std.specs.Str.{str_to_ascii_lowercase};

use crate::texts::{C_WORDS, TABLES};

/// What is said of a fault, an ending or an exit status.
#[derive(Clone, Copy)]
pub struct Explanation {
    /// The name as it is printed, and of a status the number.
    pub name: &'static str,
    /// The text, in lines of 80 columns: the name and what it is, in a line with a colon at its end; what it means, in one
    /// sentence; and all the rest.
    pub text: &'static str,
}

impl Explanation {
    /// What the name means, in one sentence without its full stop.
    pub fn meaning(&self) -> &'static str {
        let (_, said) = self.text.split_once(":\n").unwrap_or(("", self.text));
        let (sentence, _) = said.split_once(".\n").unwrap_or((said, ""));
        sentence
    }
}

/// The explanation of a name, in whatever case it is written; none of a name that nothing has.
pub fn explain(name: &str) -> Option<&'static Explanation>
    ensures { IfSome result (λ e. str_to_ascii_lowercase e.now.name.now ≡ str_to_ascii_lowercase name.now) }
{
    for table in TABLES {
        for entry in table {
            if entry.name.eq_ignore_ascii_case(name) {
                return Some(entry);
            }
        }
    }
    None
}

/// What to write in place of a word of C, in a sentence with its full stop left out; none of another word.
pub fn c_word(name: &[u8]) -> Option<&'static str> {
    let words: &[Explanation] = &C_WORDS;
    for entry in words {
        if entry.name.as_bytes() == name {
            return Some(entry.meaning());
        }
    }
    None
}
