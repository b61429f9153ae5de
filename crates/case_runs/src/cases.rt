// A file of cases: its head, its cases, and their parts.

/// A part of a case: a line `-- KEY: TEXT`, or a line `-- KEY` and the lines below it.
#[derive(Clone, Copy)]
pub struct Part<'a> {
    pub key: &'a str,
    pub text: &'a str,
    /// Whether the text is lines, of which the last one ends as the others do.
    pub has_lines: bool,
}

/// The keys that mean something.
const KEYS: [&str; 16] = [
    "command",
    "source",
    "pieces",
    "file",
    "bytes",
    "input",
    "read_fails",
    "write_fails",
    "write_takes_nothing",
    "calls",
    "writes",
    "writes_pieces",
    "says",
    "status",
    "pages",
    "",
];

impl<'a> Part<'a> {
    /// The part that stands behind a `-- `.
    pub fn of(text: &'a str) -> Part<'a> {
        let (first, lines) = match text.split_once('\n') {
            Some((first, lines)) => (first, Some(lines)),
            None => (text, None),
        };
        if let Some((key, text)) = first.split_once(": ") {
            return Part {
                key,
                text,
                has_lines: false,
            };
        }
        Part {
            key: first,
            text: lines.unwrap_or(""),
            has_lines: lines.is_some(),
        }
    }
}

/// A case, by its name, or a file's head, by what it says of the cases; and its parts, with a `\n-- ` between them.
#[derive(Clone, Copy)]
pub struct Case<'a> {
    pub name: &'a str,
    pub parts: &'a str,
}

impl<'a> Case<'a> {
    /// The case that stands behind a `== `, or the head before the first one. An empty line at its end is for the eye alone.
    pub fn of(text: &'a str) -> Case<'a> {
        let text = text.strip_suffix('\n').unwrap_or(text);
        let (name, parts) = text.split_once("\n-- ").unwrap_or((text, ""));
        Case { name, parts }
    }

    /// The first part with this key.
    pub fn part(self, key: &str) -> Option<Part<'a>> {
        for text in self.parts.split("\n-- ") {
            let part = Part::of(text);
            if part.key == key {
                return Some(part);
            }
        }
        None
    }

    /// The text of the part with this key, which is one line.
    pub fn word(self, key: &str) -> Option<&'a str> {
        match self.part(key) {
            Some(part) => Some(part.text),
            None => None,
        }
    }

    /// Whether each of its parts means something.
    pub fn is_known(self) -> bool {
        for text in self.parts.split("\n-- ") {
            if !KEYS.contains(&Part::of(text).key) {
                return false;
            }
        }
        true
    }
}
