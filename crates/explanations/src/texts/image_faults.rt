// Faults of an image. `tools/explain --write` writes this file, of docs/FAULTS.md.

use crate::explanation::Explanation;

/// Faults of an image.
pub const IMAGE_FAULTS: [Explanation; 6] = [
    Explanation {
        name: "Short",
        text: r#"Short, a fault of an image:
Under 24 bytes, or fewer than the header with the code and data that it
announces; the header has 28 bytes in version 2, else 24.

The smallest file:
    the empty file
"#,
    },
    Explanation {
        name: "Magic",
        text: r#"Magic, a fault of an image:
The first bytes are not CYI1.

The smallest file:
    24 bytes 0
"#,
    },
    Explanation {
        name: "Version",
        text: r#"Version, a fault of an image:
The version is neither 1 nor 2.

The smallest file:
    CYI1 and 20 bytes 0
"#,
    },
    Explanation {
        name: "Limit",
        text: r#"Limit, a fault of an image:
The code's length is 0, no multiple of 4 or over 1,048,576, the data's is over
1,048,576, or the pages of the arena, or of the stack in version 2, are not 1 to
4,096.

The smallest file:
    CYI1, the number 1, and 16 bytes 0
"#,
    },
    Explanation {
        name: "Entry",
        text: r#"Entry, a fault of an image:
The entry is no multiple of 4, or not below the code's length.

The smallest file:
    one page, one word of code, and the entry 4
"#,
    },
    Explanation {
        name: "Trailing",
        text: r#"Trailing, a fault of an image:
There are bytes after the data.

The smallest file:
    one page, one word of code, the entry 0, and a byte more
"#,
    },
];
