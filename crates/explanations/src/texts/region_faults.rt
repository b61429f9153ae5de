// Faults of a source's regions. `tools/explain --write` writes this file, of docs/FAULTS.md.

use crate::explanation::Explanation;

/// Faults of a source's regions.
pub const REGION_FAULTS: [Explanation; 3] = [
    Explanation {
        name: "Region",
        text: r#"Region, a fault of a source:
An unknown region name, or a pointer followed into a region that isn't live.

The smallest source, at 1:31:
    int f(int *`r p; {}) { return *p; } and int main() { }

A region's name has to be in scope. A region has to be live where a pointer into
it is followed or an object is made in it.
These regions are live: the heap, the regions of the enclosing blocks, the
lexical regions in scope, the dynamic regions that are open, and the regions of
the function's effect.

- a region name that nothing declares
  refused at 1:19:
      int main() { int *`r p = NULL; }
  accepted:
      int main() { region<`r> h; int *`r p = NULL; }

- a region name whose block has ended
  refused at 1:37:
      int main() { { region<`r> h; } int *`r p = NULL; }
  accepted:
      int main() { region<`r> h; { int *`r p = NULL; } }

- a region of that name is in scope already
  refused at 1:37:
      int main() { region<`r> h; { region<`r> g; } }
  accepted:
      int main() { region<`r> h; { region<`s> g; } }

- a result into a region that no parameter names
  refused at 1:6:
      int *`r f() { return NULL; }
  accepted:
      int *`r f(region_t<`r> h) { return rnew(h) 1; }

- a pointer is followed whose region isn't in the effect
  refused at 1:28:
      int f(int *p; {}) { return *p; }
  accepted:
      int f(int *p) { return *p; }

- the same, of the region of a handle
  refused at 1:42:
      int f(region_t<`r> h; {}) { return *rnew(h) 1; }
  accepted:
      int f(region_t<`r> h; {`r}) { return *rnew(h) 1; }

- a pointer is followed into a region whose key isn't open
  refused at 1:125:
      int main() { let NewDynamicRegion{<`r> k} = new_ukey(); int *`r p = NULL;
      { region<`r> h = open(k); p = rnew(h) 5; } return *p; }
  accepted:
      int main() { let NewDynamicRegion{<`r> k} = new_ukey(); int *`r p = NULL;
      { region<`r> h = open(k); p = rnew(h) 5; } region<`r> h = open(k); return
      *p; }

- two pointers into a region that was freed are compared
  refused at 1:115:
      int main() { let NewDynamicRegion{<`r> k} = new_ukey(); int *`r p = NULL;
      int *`r q = new 1; free_ukey(k); return p == q; }
  accepted:
      int main() { let NewDynamicRegion{<`r> k} = new_ukey(); int *`r p = NULL;
      int *`r q = new 1; free_ukey(k); return p == NULL; }

- a key is opened with another name than its region's
  refused at 1:64:
      int main() { let NewDynamicRegion{<`r> k} = new_ukey(); region<`s> h =
      open(k); }
  accepted:
      int main() { let NewDynamicRegion{<`r> k} = new_ukey(); region<`r> h =
      open(k); }
"#,
    },
    Explanation {
        name: "Outlives",
        text: r#"Outlives, a fault of a source:
A pointer into a region that doesn't outlive the one it has to point into.

The smallest source, at 1:26:
    int *f() { int x; return &x; } and int main() { }

A pointer converts only to a type whose region its own region outlives.
A region that isn't written means the heap in members, results, globals and
locals without an initializer. In a parameter each such place gets a region of
its own.

- a pointer to a local is returned
  refused at 1:30:
      int *f() { int x = 1; return &x; }
  accepted:
      int *`r f(region_t<`r> h) { int x = 1; return rnew(h) x; }

- a result without a region points into the heap
  refused at 1:25:
      int *f(int *p) { return p; }
  accepted:
      int *`r f(int *`r p) { return p; }

- a local without an initializer and without a region points into the heap
  refused at 1:33:
      int main() { int x; int *p; p = &x; }
  accepted:
      int main() { int x; int *p = &x; }

- a member without a region points into the heap
  refused at 1:58:
      struct S { int *p; }; int main() { int x; struct S s = S(&x); }
  accepted:
      struct S<`r> { int *`r p; }; int main() { int x; struct S s = S(&x); }

- a pointer to what ends sooner is stored in what ends later
  refused at 1:47:
      int main() { int y; int *p = &y; { int x; p = &x; } }
  accepted:
      int main() { int y; int x; int *p = &y; { p = &x; } }

- the same, of the local of a clause
  refused at 1:122:
      @tagged union U { int a; char b; }; int main() { union U u = U.a(1); int
      y; int *p = &y; switch (u) { case {.a = v}: p = &v; break; default: break;
      } }
  accepted:
      @tagged union U { int a; char b; }; int main() { union U u = U.a(1); int
      y; int *p = &y; switch (u) { case {.a = v}: y = v; break; default: break;
      } }

- a union's member without a region makes a union for the heap
  refused at 1:87:
      @tagged union U<`r> { int *`r p; int n; }; int main() { region<`r> h;
      union U<`r> u = U.n(1); }
  accepted:
      @tagged union U<`r> { int *`r p; int n; }; int main() { region<`r> h;
      union U<`r> u = *rnew(h) U.n(1); }

- two parameters have different regions
  refused at 1:30:
      void f(int *p, int *q) { p = q; }
  accepted:
      void f(int *`r p, int *`r q) { p = q; }

- the same, where one may end sooner
  refused at 1:36:
      void f(int *`r p, int *`s q) { p = q; }
  accepted:
      void f(int *`r p, int *`s q : `s > `r) { p = q; }

- the same, compared
  refused at 1:32:
      int f(int *p, int *q) { return p == q; }
  accepted:
      int f(int *`r p, int *`r q) { return p == q; }

- a parameter struct N * has a region for the pointer and one for the struct
  refused at 1:78:
      struct N<`r> { struct N<`r> *`r next; }; void f(struct N *l) { while (l) l
      = l->next; }
  accepted:
      struct N<`r> { struct N<`r> *`r next; }; void f(struct N<`r> *`r l) {
      while (l) l = l->next; }

- a call at which a bound of the callee doesn't hold
  refused at 1:85:
      void f(int *`a p, int *`b q : `a > `b) { q = p; } int main() { int x;
      region<`r> h; f(rnew(h) 2, &x); }
  accepted:
      void f(int *`a p, int *`b q : `a > `b) { q = p; } int main() { int x;
      region<`r> h; f(&x, rnew(h) 2); }

- a parameter is kept in a global, which points into the heap
  refused at 1:39:
      int *kept; void keep(int *p) { kept = p; }
  accepted:
      int *kept; void keep(int *`H p) { kept = p; }

- the same, in a struct whose member points into the heap
  refused at 1:63:
      struct S { int *p; }; void keep(struct S *s, int *p) { s->p = p; }
  accepted:
      struct S { int *p; }; void keep(struct S *s, int *`H p) { s->p = p; }

- the same, in a struct that points into a region
  refused at 1:74:
      struct L<`r> { int *`r p; }; void keep(struct L<`r> *l, int *p) { l->p =
      p; }
  accepted:
      struct L<`r> { int *`r p; }; void keep(struct L<`r> *l, int *`r p) { l->p
      = p; }

- a variable would point into one region and then into another
  refused at 1:100:
      int *`H f() { return NULL; } int main() { region<`a> g; int *`a p =
      rnew(g) 1; { region<`b> h; p = rnew(h) 2; } return *p; }
  accepted:
      int read(int *p) { return *p; } int main() { region<`a> g; int n =
      read(rnew(g) 1); { region<`b> h; n = read(rnew(h) 2); } return n; }

- a key's variable would hold another region's key
  refused at 1:70:
      void f(uregion_key_t<`a> k, uregion_key_t<`b> l) { free_ukey(k); k = l; }
  accepted:
      void f(uregion_key_t<`a> k, uregion_key_t<`b> l) { free_ukey(k); g(l); }
      void g(uregion_key_t<`a> k) { free_ukey(k); }

- a member without a region is stored where a region is expected
  refused at 1:90:
      @tagged union U<`r> { int *`r p; int n; }; void f(region_t<`r> h, union
      U<`r> *u) { *u = U.n(1); }
  accepted:
      @tagged union U<`r> { int *`r p; int n; }; void f(region_t<`r> h, union
      U<`r> *u) { int *`r none = NULL; *u = U.p(none); }

- What a function keeps of a parameter has to lie in the region of what keeps
  it. Name that region in the parameter's type; a caller that has the value
  elsewhere makes a copy there.
- A variable belongs to one region and never to another one later. Use a call
  instead: a function with a region variable is called for each region, and has
  its own variables for it (examples/tutorial_service.cyc).
- v = *rnew(h) U.n(i) makes a value in the region of h each time, and its memory
  is freed only with the region. In a loop make such a value once, or use a
  member that names the region: U.p(none), with int *`r none = NULL;, allocates
  nothing.
"#,
    },
    Explanation {
        name: "Effect",
        text: r#"Effect, a fault of a source:
A call whose regions aren't all live.

The smallest source, at 1:56:
    int g(int *p) { return 1; } int f(int *p; {}) { return g(p); } and int
    main() { }

All regions of the callee's effect have to be live at a call.
The effect is what is written after the parameters. If nothing is written there,
it is all regions of the parameters except those of keys.

- a function with an empty effect calls one that follows its argument
  refused at 1:57:
      int g(int *p) { return *p; } int f(int *q; {}) { return g(q); }
  accepted:
      int g(int *p) { return *p; } int f(int *q) { return g(q); }

- the callee follows no pointer, but its effect doesn't say so
  refused at 1:64:
      int g(int *p) { return p == NULL; } int f(int *q; {}) { return g(q); }
  accepted:
      int g(int *p; {}) { return p == NULL; } int f(int *q; {}) { return g(q); }

- the effect has only one of two regions
  refused at 1:86:
      int g(int *p, int *q) { return *p + *q; } int f(int *`a p, int *`b q;
      {`a}) { return g(p, q); }
  accepted:
      int g(int *p, int *q) { return *p + *q; } int f(int *`a p, int *`b q; {`a,
      `b}) { return g(p, q); }

- the effect leaves out the region of a handle
  refused at 1:77:
      int *`r g(region_t<`r> h) { return rnew(h) 1; } int f(region_t<`r> h; {})
      { g(h); return 1; }
  accepted:
      int *`r g(region_t<`r> h) { return rnew(h) 1; } int f(region_t<`r> h;
      {`r}) { g(h); return 1; }

- a pointer into a region whose key isn't open is passed on
  refused at 1:107:
      int g(int *`a p) { return *p; } int main() { let NewDynamicRegion{<`r> k}
      = new_ukey(); int *`r p = NULL; g(p); free_ukey(k); }
  accepted:
      int g(int *`a p) { return *p; } int main() { let NewDynamicRegion{<`r> k}
      = new_ukey(); int *`r p = NULL; { region<`r> h = open(k); g(p); }
      free_ukey(k); }

- an effect names the region of a key
  refused at 1:40:
      int f(uregion_key_t<`r> k, int *`r p; {`r}) { return *p; }
  accepted:
      int f(uregion_key_t<`r> k, int *`r p) { region<`r> h = open(k); return *p;
      }
"#,
    },
];
