// Exit statuses. `tools/explain --write` writes this file, of docs/FAULTS.md.

use crate::explanation::Explanation;

/// Exit statuses.
pub const STATUSES: [Explanation; 10] = [
    Explanation {
        name: "0",
        text: r#"The exit status 0:
The run ended with 0, or the command succeeded.
"#,
    },
    Explanation {
        name: "1",
        text: r#"The exit status 1:
The run ended with another status.
"#,
    },
    Explanation {
        name: "2",
        text: r#"The exit status 2:
A null pointer or an index out of bounds was raised.

With it come: Null_Exception, Array_bounds. `cycc explain Null_Exception` says
more.
"#,
    },
    Explanation {
        name: "3",
        text: r#"The exit status 3:
The memory for regions, blocks or the stack is exhausted.

With it come: exhausted. `cycc explain exhausted` says more.
"#,
    },
    Explanation {
        name: "4",
        text: r#"The exit status 4:
The steps, or the units of fuel, are used up, or a bound of eval is passed.

With it come: step limit. `cycc explain step limit` says more.
"#,
    },
    Explanation {
        name: "5",
        text: r#"The exit status 5:
The machine stopped at a fault, or an evaluation was stuck.

With it come: stuck. `cycc explain stuck` says more.
"#,
    },
    Explanation {
        name: "6",
        text: r#"The exit status 6:
A file, standard input or standard output failed.

With it come: read fault, write fault, cannot read, cannot write. `cycc explain
read fault` says more.
"#,
    },
    Explanation {
        name: "7",
        text: r#"The exit status 7:
The host's memory is used up.

With it come: out of memory. `cycc explain out of memory` says more.
"#,
    },
    Explanation {
        name: "8",
        text: r#"The exit status 8:
The source or the image is refused.
"#,
    },
    Explanation {
        name: "9",
        text: r#"The exit status 9:
The arguments are wrong.

With it come: error. `cycc explain error` says more.
"#,
    },
];
