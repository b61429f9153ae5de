// Faults of a source's tokens, grammar, names, types and sizes. `tools/explain --write` writes this file, of docs/FAULTS.md.

use crate::explanation::Explanation;

/// Faults of a source's tokens, grammar, names, types and sizes.
pub const SOURCE_FAULTS: [Explanation; 7] = [
    Explanation {
        name: "Lex",
        text: r#"Lex, a fault of a source:
A byte that begins no token, a wrong token, a comment or a string without end;
or a source of over 1,048,576 bytes, at 1:1.

The smallest source, at 1:1:
    #
"#,
    },
    Explanation {
        name: "Parse",
        text: r#"Parse, a fault of a source:
The first token that no program has there, or the end of the text.

The smallest source, at 1:1:
    the empty text

- a second local of a name in one block: Name
  refused at 1:56:
      int f(int n) { int i = 1; while (i < n) i = 2 * i; int i = 0; return i; }
  accepted:
      int f(int n) { int i = 1; while (i < n) i = 2 * i; i = 0; return i; }

- a cast within an expression: Parse
  refused at 1:26:
      int f(unsigned u) { if ((int)u < 0) return 1; return 0; }
  accepted:
      int int_of(unsigned u) { return u; } int f(unsigned u) { if (int_of(u) <
      0) return 1; return 0; }

- docs/FROM_C.md has the constructs of C that don't exist here, and what to
  write instead.
- Each else if is nested in the one before it: a chain of 253 is accepted, and
  the 254th is TooDeep. Return from the function at each (if (n == 1) return 8;,
  any number of times), or split the chain by a test of its middle.
"#,
    },
    Explanation {
        name: "TooDeep",
        text: r#"TooDeep, a fault of a source:
The first token inside more than 256 nested statements, expressions and unary
expressions.

The smallest source, at 1:148:
    int main() { return (..(1)..); } with 127 parentheses

- a second local of a name in one block: Name
  refused at 1:56:
      int f(int n) { int i = 1; while (i < n) i = 2 * i; int i = 0; return i; }
  accepted:
      int f(int n) { int i = 1; while (i < n) i = 2 * i; i = 0; return i; }

- a cast within an expression: Parse
  refused at 1:26:
      int f(unsigned u) { if ((int)u < 0) return 1; return 0; }
  accepted:
      int int_of(unsigned u) { return u; } int f(unsigned u) { if (int_of(u) <
      0) return 1; return 0; }

- docs/FROM_C.md has the constructs of C that don't exist here, and what to
  write instead.
- Each else if is nested in the one before it: a chain of 253 is accepted, and
  the 254th is TooDeep. Return from the function at each (if (n == 1) return 8;,
  any number of times), or split the chain by a test of its middle.
"#,
    },
    Explanation {
        name: "Name",
        text: r#"Name, a fault of a source:
An unknown name, or one that is declared twice.

The smallest source, at 1:14:
    int main() { x; }

- a second local of a name in one block: Name
  refused at 1:56:
      int f(int n) { int i = 1; while (i < n) i = 2 * i; int i = 0; return i; }
  accepted:
      int f(int n) { int i = 1; while (i < n) i = 2 * i; i = 0; return i; }

- a cast within an expression: Parse
  refused at 1:26:
      int f(unsigned u) { if ((int)u < 0) return 1; return 0; }
  accepted:
      int int_of(unsigned u) { return u; } int f(unsigned u) { if (int_of(u) <
      0) return 1; return 0; }

- docs/FROM_C.md has the constructs of C that don't exist here, and what to
  write instead.
- Each else if is nested in the one before it: a chain of 253 is accepted, and
  the 254th is TooDeep. Return from the function at each (if (n == 1) return 8;,
  any number of times), or split the chain by a test of its middle.
"#,
    },
    Explanation {
        name: "Type",
        text: r#"Type, a fault of a source:
A phrase of a wrong type, or a construct that isn't allowed there.

The smallest source, at 1:11:
    int f() { }

The bound is part of the type. A pointer converts to one with the same bound or
a smaller one; bounds inside the type it points to have to be equal.
What isn't known at compile time is checked at run time: an array or a fat
pointer that is too short, and an index that isn't below the bound, raise
Array_bounds.

- a pointer to fewer elements than are expected
  refused at 1:65:
      int f(int @{4} p) { return p[3]; } int g(int @{3} p) { return f(p); } int
      main() { }
  accepted:
      int f(int @{3} p) { return p[2]; } int g(int @{4} p) { return f(p); } int
      main() { }

- the bound of a pointer inside another one
  refused at 1:33:
      int f(int @{3} *p) { int @ *q = p; return 0; } int main() { }
  accepted:
      int f(int @{3} *p) { int @{3} *q = p; return 0; } int main() { }

- & of an element points to one element
  refused at 1:34:
      int f(int @{3} p) { int @{2} q = &p[0]; return 1; } int main() { }
  accepted:
      int f(int @{3} p) { int @{2} q = p; return q[1]; } int main() { }

- arithmetic on a pointer with a bound
  refused at 1:30:
      int f(int @{3} p) { return *(p + 1); } int main() { }
  accepted:
      int f(int @{3} p) { return p[1]; } int main() { }

- a bound of 0
  refused at 1:1:
      int *{0} g; int main() { }
  accepted:
      int *{1} g; int main() { }

- a unique pointer to more than one element
  refused at 1:1:
       int *{2}`U g; int main() { }
  accepted:
       int *`U g; int main() { }

- a string that is shorter than the bound
  refused at 1:15:
      char *{5} g = "abc"; int main() { }
  accepted:
      char *{4} g = "abc"; int main() { }
"#,
    },
    Explanation {
        name: "Size",
        text: r#"Size, a fault of a source:
A struct of over 4,096 bytes, at its tag; an array of over 4,096 bytes, at its
type; a string of over 4,096 bytes with its final 0, at it; globals and strings
of over 1,048,576 bytes in all, each rounded up to 8, at the first that passes
that.

The smallest source, at the last global:
    131,073 globals of integers, and int main() { }
"#,
    },
    Explanation {
        name: "TooLarge",
        text: r#"TooLarge, a fault of a source:
Code of over 1,048,576 bytes, at 1:1; of compile and run alone.

The smallest source, at 1:1:
    int main() {, 43,688 times putchar(1);, and }
"#,
    },
];
