// Endings, and other lines on standard error. `tools/explain --write` writes this file, of docs/FAULTS.md.

use crate::explanation::Explanation;

/// Endings, and other lines on standard error.
pub const ENDINGS: [Explanation; 11] = [
    Explanation {
        name: "Null_Exception",
        text: r#"Null_Exception, said on standard error:
The exit status is 2; it is said where --ending stands.

NULL was followed, or converted to a @.
Test the pointer where it comes from, if (p == NULL) return 0;, and pass on a T
@, which is never NULL and never tested again.
"#,
    },
    Explanation {
        name: "Array_bounds",
        text: r#"Array_bounds, said on standard error:
The exit status is 2; it is said where --ending stands.

An index wasn't below the count of the elements or the pointer's bound, or a fat
pointer with too few elements was converted to one with a bound.
Compare the index with numelts(a), as an unsigned, before you use it. A text
without its final 0 is read up to its bounds, and then raises.
Test lengths and indices that come from the input first, as in
examples/packets.cyc.
"#,
    },
    Explanation {
        name: "exhausted",
        text: r#"exhausted, said on standard error:
The exit status is 3; it is said where --ending stands.

The memory for regions and blocks is used up, or the stack.

- Give regions and blocks more with --pages, and the stack with --stack-pages:
  up to 4,096 pages each.
- Open a region for short-lived objects, limit the length of lines and lists,
  and free a dynamic region when it is full, as in examples/cache.cyc.
- Replace a recursion that is as deep as its input is long by a loop, or count
  its depth and give up.
- An array made by {for ..} has at most 1,048,576 bytes, however many pages
  there are. For more, keep a table of pieces, as lib/buffer.cyc does.
- An array of over 4,096 bytes needs adjacent pages that were never used. Pages
  that were freed serve only smaller blocks.
"#,
    },
    Explanation {
        name: "step limit",
        text: r#"step limit, said on standard error:
The exit status is 4; it is said where --ending stands.

The steps of run or exec, or the fuel of eval, are used up: 4,294,967,295 if
--steps isn't given.
The run could go on. Either a loop never ends, or the program needs more:
--steps takes up to 18,446,744,073,709,551,615.
"#,
    },
    Explanation {
        name: "stuck",
        text: r#"stuck, said on standard error:
An evaluation for which the meaning has no next step; no accepted source gets
there.
The exit status is 5.
"#,
    },
    Explanation {
        name: "read fault",
        text: r#"read fault, said on standard error:
Standard input or standard output failed, also where help is printed.
The exit status is 6.
"#,
    },
    Explanation {
        name: "write fault",
        text: r#"write fault, said on standard error:
Standard input or standard output failed, also where help is printed.
The exit status is 6.
"#,
    },
    Explanation {
        name: "cannot read",
        text: r#"cannot read, said on standard error:
The file cannot be read or written, OUT is the source's own file or another one
that is neither empty nor an image, or the name isn't UTF-8: it is printed with
U+FFFD for the invalid bytes, and no file is opened for it.
The exit status is 6.
"#,
    },
    Explanation {
        name: "cannot write",
        text: r#"cannot write, said on standard error:
The file cannot be read or written, OUT is the source's own file or another one
that is neither empty nor an image, or the name isn't UTF-8: it is printed with
U+FFFD for the invalid bytes, and no file is opened for it.
The exit status is 6.
"#,
    },
    Explanation {
        name: "out of memory",
        text: r#"out of memory, said on standard error:
The host's memory is used up.
The exit status is 7.
"#,
    },
    Explanation {
        name: "error",
        text: r#"error, said on standard error:
The arguments are wrong, also where one that isn't UTF-8 stands for a command,
an option or a number.
The exit status is 9.
"#,
    },
];
