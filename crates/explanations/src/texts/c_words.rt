// Words of C, and what to write in their place. `tools/explain --write` writes this file, of docs/FROM_C.md.

use crate::explanation::Explanation;

/// Words of C, and what to write in their place.
pub const C_WORDS: [Explanation; 50] = [
    Explanation {
        name: "printf",
        text: r#"printf, a word of C:
Nothing formats a text: write bytes with putchar, or use print_text and
print_int of lib/io.cyc.
"#,
    },
    Explanation {
        name: "fprintf",
        text: r#"fprintf, a word of C:
Nothing formats a text: write bytes with putchar, or use print_text and
print_int of lib/io.cyc.
"#,
    },
    Explanation {
        name: "sprintf",
        text: r#"sprintf, a word of C:
Nothing formats a text: write bytes with putchar, or use print_text and
print_int of lib/io.cyc.
"#,
    },
    Explanation {
        name: "puts",
        text: r#"puts, a word of C:
Nothing formats a text: write bytes with putchar, or use print_text and
print_int of lib/io.cyc.
"#,
    },
    Explanation {
        name: "fputs",
        text: r#"fputs, a word of C:
Nothing formats a text: write bytes with putchar, or use print_text and
print_int of lib/io.cyc.
"#,
    },
    Explanation {
        name: "scanf",
        text: r#"scanf, a word of C:
Read bytes with getchar, or use read_line and read_int of lib/io.cyc.
"#,
    },
    Explanation {
        name: "gets",
        text: r#"gets, a word of C:
Read bytes with getchar, or use read_line and read_int of lib/io.cyc.
"#,
    },
    Explanation {
        name: "fgets",
        text: r#"fgets, a word of C:
Read bytes with getchar, or use read_line and read_int of lib/io.cyc.
"#,
    },
    Explanation {
        name: "EOF",
        text: r#"EOF, a word of C:
At the end of its input getchar() is negative: while ((c = getchar()) >= 0).
"#,
    },
    Explanation {
        name: "malloc",
        text: r#"malloc, a word of C:
A struct is made by new P(1, 2) in the heap and by rnew(h) P(1, 2) in a region,
an array by new {for i < n : 0}.
"#,
    },
    Explanation {
        name: "calloc",
        text: r#"calloc, a word of C:
A struct is made by new P(1, 2) in the heap and by rnew(h) P(1, 2) in a region,
an array by new {for i < n : 0}.
"#,
    },
    Explanation {
        name: "realloc",
        text: r#"realloc, a word of C:
A struct is made by new P(1, 2) in the heap and by rnew(h) P(1, 2) in a region,
an array by new {for i < n : 0}.
"#,
    },
    Explanation {
        name: "free",
        text: r#"free, a word of C:
A unique block is freed by ufree(p), and a region as a whole.
"#,
    },
    Explanation {
        name: "sizeof",
        text: r#"sizeof, a word of C:
Nothing needs a size: numelts(a) is how many elements there are.
"#,
    },
    Explanation {
        name: "memcpy",
        text: r#"memcpy, a word of C:
Write a loop over the elements; of a struct *p = *q copies all.
"#,
    },
    Explanation {
        name: "memmove",
        text: r#"memmove, a word of C:
Write a loop over the elements; of a struct *p = *q copies all.
"#,
    },
    Explanation {
        name: "memset",
        text: r#"memset, a word of C:
Write a loop over the elements; of a struct *p = *q copies all.
"#,
    },
    Explanation {
        name: "strlen",
        text: r#"strlen, a word of C:
Functions on strings, which keep to their bounds, are in lib/text.cyc.
"#,
    },
    Explanation {
        name: "strcmp",
        text: r#"strcmp, a word of C:
Functions on strings, which keep to their bounds, are in lib/text.cyc.
"#,
    },
    Explanation {
        name: "strcpy",
        text: r#"strcpy, a word of C:
Functions on strings, which keep to their bounds, are in lib/text.cyc.
"#,
    },
    Explanation {
        name: "strcat",
        text: r#"strcat, a word of C:
Functions on strings, which keep to their bounds, are in lib/text.cyc.
"#,
    },
    Explanation {
        name: "strchr",
        text: r#"strchr, a word of C:
Functions on strings, which keep to their bounds, are in lib/text.cyc.
"#,
    },
    Explanation {
        name: "strstr",
        text: r#"strstr, a word of C:
Functions on strings, which keep to their bounds, are in lib/text.cyc.
"#,
    },
    Explanation {
        name: "atoi",
        text: r#"atoi, a word of C:
Functions on strings, which keep to their bounds, are in lib/text.cyc.
"#,
    },
    Explanation {
        name: "exit",
        text: r#"exit, a word of C:
Return a status from function to function, up to main.
"#,
    },
    Explanation {
        name: "abort",
        text: r#"abort, a word of C:
Return a status from function to function, up to main.
"#,
    },
    Explanation {
        name: "assert",
        text: r#"assert, a word of C:
Of a pointer write int @q = p;, which raises Null_Exception where p is NULL.
"#,
    },
    Explanation {
        name: "bool",
        text: r#"bool, a word of C:
A truth is an int, 1 or 0.
"#,
    },
    Explanation {
        name: "true",
        text: r#"true, a word of C:
A truth is an int, 1 or 0.
"#,
    },
    Explanation {
        name: "false",
        text: r#"false, a word of C:
A truth is an int, 1 or 0.
"#,
    },
    Explanation {
        name: "typedef",
        text: r#"typedef, a word of C:
Write the type itself at each use, as struct P.
"#,
    },
    Explanation {
        name: "enum",
        text: r#"enum, a word of C:
Write a global for each name, int RED = 0;.
"#,
    },
    Explanation {
        name: "const",
        text: r#"const, a word of C:
Leave it out.
"#,
    },
    Explanation {
        name: "extern",
        text: r#"extern, a word of C:
Leave it out.
"#,
    },
    Explanation {
        name: "inline",
        text: r#"inline, a word of C:
Leave it out.
"#,
    },
    Explanation {
        name: "register",
        text: r#"register, a word of C:
Leave it out.
"#,
    },
    Explanation {
        name: "volatile",
        text: r#"volatile, a word of C:
Leave it out.
"#,
    },
    Explanation {
        name: "static",
        text: r#"static, a word of C:
Leave it out; what outlives a call is a global.
"#,
    },
    Explanation {
        name: "long",
        text: r#"long, a word of C:
Numbers are int and unsigned of 32 bits, and char of 8 without a sign.
"#,
    },
    Explanation {
        name: "short",
        text: r#"short, a word of C:
Numbers are int and unsigned of 32 bits, and char of 8 without a sign.
"#,
    },
    Explanation {
        name: "float",
        text: r#"float, a word of C:
Numbers are int and unsigned of 32 bits, and char of 8 without a sign.
"#,
    },
    Explanation {
        name: "double",
        text: r#"double, a word of C:
Numbers are int and unsigned of 32 bits, and char of 8 without a sign.
"#,
    },
    Explanation {
        name: "signed",
        text: r#"signed, a word of C:
Numbers are int and unsigned of 32 bits, and char of 8 without a sign.
"#,
    },
    Explanation {
        name: "size_t",
        text: r#"size_t, a word of C:
Write unsigned, int or char.
"#,
    },
    Explanation {
        name: "uint32_t",
        text: r#"uint32_t, a word of C:
Write unsigned, int or char.
"#,
    },
    Explanation {
        name: "int32_t",
        text: r#"int32_t, a word of C:
Write unsigned, int or char.
"#,
    },
    Explanation {
        name: "uint8_t",
        text: r#"uint8_t, a word of C:
Write unsigned, int or char.
"#,
    },
    Explanation {
        name: "do",
        text: r#"do, a word of C:
Write while (1) { f(); if (!x) break; }.
"#,
    },
    Explanation {
        name: "for",
        text: r#"for, a word of C:
Write int i = 0; while (i < n) { f(i); i = i + 1; }.
"#,
    },
    Explanation {
        name: "goto",
        text: r#"goto, a word of C:
Write a function of its own, which return leaves.
"#,
    },
];
