// Faults of the machine. `tools/explain --write` writes this file, of docs/FAULTS.md.

use crate::explanation::Explanation;

/// Faults of the machine.
pub const MACHINE_FAULTS: [Explanation; 5] = [
    Explanation {
        name: "Illegal",
        text: r#"Illegal, a fault of the machine:
The word is no instruction.

Code that comes to it:
    00000000
"#,
    },
    Explanation {
        name: "Access",
        text: r#"Access, a fault of the machine:
An access outside the areas, or a fetch outside the code.

Code that comes to it:
    00002083, a load from 0
"#,
    },
    Explanation {
        name: "Misaligned",
        text: r#"Misaligned, a fault of the machine:
An address that is no multiple of the access's size, or a jump's target that is
no multiple of 4.

Code that comes to it:
    00102083, a load of a word from 1
"#,
    },
    Explanation {
        name: "Break",
        text: r#"Break, a fault of the machine:
EBREAK.

Code that comes to it:
    00100073
"#,
    },
    Explanation {
        name: "BadCall",
        text: r#"BadCall, a fault of the machine:
An ECALL with an unknown number, or with invalid arguments.

Code that comes to it:
    00600893 00900513 00000073
"#,
    },
];
