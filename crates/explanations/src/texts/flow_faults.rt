// Faults of a source's values that can't be copied. `tools/explain --write` writes this file, of docs/FAULTS.md.

use crate::explanation::Explanation;

/// Faults of a source's values that can't be copied.
pub const FLOW_FAULTS: [Explanation; 3] = [
    Explanation {
        name: "Consumed",
        text: r#"Consumed, a fault of a source:
A local that is used after its value was moved or freed.

The smallest source, at 1:35:
    int main() { int *`U p = NULL; p; p; }

A unique pointer, a key, and a struct that holds a unique pointer can't be
copied: the value is moved from local to local.
After its value was moved, such a local has nothing; a use of it is Consumed.
A pointer is lent while its alias is in scope, a key while its region is open.
Any use meanwhile is Lent.
Only a local can be moved from. Anywhere else it is Copy; exchange the value out
with :=: instead.

- used after it was freed
  refused at 1:67:
      int main() { int @`U p = rnew(unique_region) 1; ufree(p); return *p; }
  accepted:
      int main() { int @`U p = rnew(unique_region) 1; int n = *p; ufree(p);
      return n; }

- used after it was moved
  refused at 1:70:
      int main() { int @`U p = rnew(unique_region) 1; int @`U q = p; ufree(p); }
  accepted:
      int main() { int @`U p = rnew(unique_region) 1; int @`U q = p; ufree(q); }

- freed on one of two paths, and used after they meet
  refused at 1:51:
      void f(int c, int *`U p) { if (c) ufree(p); ufree(p); }
  accepted:
      void f(int c, int *`U p) { if (c) { ufree(p); return; } ufree(p); }

- moved in each iteration of a loop
  refused at 1:46:
      void f(int n, int *`U p) { while (n) { ufree(p); n = n - 1; } }
  accepted:
      void f(int n, int *`U p) { while (n) { ufree(p); p = NULL; n = n - 1; } }

- moved and used in one call
  refused at 1:66:
      void f(int *`U p, int n) { ufree(p); } void g(int *`U p) { f(p, *p); }
  accepted:
      void f(int *`U p, int n) { ufree(p); } void g(int *`U p) { int n = *p;
      f(p, n); }

- moved by the right side of an assignment through it
  refused at 1:63:
      int g(int *`U p) { ufree(p); return 1; } void f(int *`U p) { *p = g(p); }
  accepted:
      int g(int *`U p) { ufree(p); return 1; } void f(int *`U p) { *p = 1; g(p);
      }

- moved by an expression statement
  refused at 1:41:
      int main() { int *`U p = NULL; p; ufree(p); }
  accepted:
      int main() { int *`U p = NULL; if (p) putchar('p'); ufree(p); }

- a struct is used after it was moved with the pointer in it
  refused at 1:94:
      struct B { int *`U p; int n; }; int main() { struct B b = B(NULL, 1);
      struct B c = b; return b.n; }
  accepted:
      struct B { int *`U p; int n; }; int main() { struct B b = B(NULL, 1);
      struct B c = b; return c.n; }

- a key is freed twice
  refused at 1:81:
      int main() { let NewDynamicRegion{<`r> k} = new_ukey(); free_ukey(k);
      free_ukey(k); }
  accepted:
      int main() { let NewDynamicRegion{<`r> k} = new_ukey(); free_ukey(k); }

- a key was passed to a function that doesn't return it
  refused at 1:79:
      void f(uregion_key_t<`r> k) { } void g(uregion_key_t<`r> k) { f(k);
      free_ukey(k); }
  accepted:
      uregion_key_t<`r> f(uregion_key_t<`r> k) { return k; } void
      g(uregion_key_t<`r> k) { k = f(k); free_ukey(k); }
"#,
    },
    Explanation {
        name: "Lent",
        text: r#"Lent, a fault of a source:
A local that is used while it is lent.

The smallest source, at 1:61:
    int main() { int *`U p = NULL; let alias<`r> int *`r x = p; p; }

A unique pointer, a key, and a struct that holds a unique pointer can't be
copied: the value is moved from local to local.
After its value was moved, such a local has nothing; a use of it is Consumed.
A pointer is lent while its alias is in scope, a key while its region is open.
Any use meanwhile is Lent.
Only a local can be moved from. Anywhere else it is Copy; exchange the value out
with :=: instead.

- freed while it has an alias
  refused at 1:67:
      int main() { int *`U p = NULL; let alias<`r> int *`r x = p; ufree(p); }
  accepted:
      int main() { int *`U p = NULL; { let alias<`r> int *`r x = p; } ufree(p);
      }

- assigned while it has an alias
  refused at 1:61:
      int main() { int *`U p = NULL; let alias<`r> int *`r x = p; p = NULL; }
  accepted:
      int main() { int *`U p = NULL; { let alias<`r> int *`r x = p; } p = NULL;
      }

- followed while it has an alias
  refused at 1:57:
      int f(int *`U p) { let alias<`r> int *`r x = p; return *p; }
  accepted:
      int f(int *`U p) { let alias<`r> int *`r x = p; return *x; }

- moved while it has an alias
  refused at 1:68:
      int *`U f(int *`U p) { let alias<`r> int *`r x = p; *x = 1; return p; }
  accepted:
      int *`U f(int *`U p) { { let alias<`r> int *`r x = p; *x = 1; } return p;
      }

- a key is opened while it is open
  refused at 1:103:
      int main() { let NewDynamicRegion{<`r> k} = new_ukey(); { region<`r> h =
      open(k); region<`r> g = open(k); } free_ukey(k); }
  accepted:
      int main() { let NewDynamicRegion{<`r> k} = new_ukey(); { region<`r> h =
      open(k); region_t<`r> g = h; } free_ukey(k); }

- a key is freed while it is open
  refused at 1:91:
      int main() { let NewDynamicRegion{<`r> k} = new_ukey(); region<`r> h =
      open(k); free_ukey(k); }
  accepted:
      int main() { let NewDynamicRegion{<`r> k} = new_ukey(); { region<`r> h =
      open(k); } free_ukey(k); }

- a key is returned while it is open
  refused at 1:75:
      uregion_key_t<`r> f(uregion_key_t<`r> k) { region<`r> h = open(k); return
      k; }
  accepted:
      uregion_key_t<`r> f(uregion_key_t<`r> k) { { region<`r> h = open(k); }
      return k; }
"#,
    },
    Explanation {
        name: "Copy",
        text: r#"Copy, a fault of a source:
A value that can only be moved would be copied.

The smallest source, at 1:25:
    int *`U g; int main() { g; }

A unique pointer, a key, and a struct that holds a unique pointer can't be
copied: the value is moved from local to local.
After its value was moved, such a local has nothing; a use of it is Consumed.
A pointer is lent while its alias is in scope, a key while its region is open.
Any use meanwhile is Lent.
Only a local can be moved from. Anywhere else it is Copy; exchange the value out
with :=: instead.

- copied out of a struct
  refused at 1:60:
      struct B { int *`U p; }; void f(struct B @b) { int *`U t = b->p; ufree(t);
      }
  accepted:
      struct B { int *`U p; }; void f(struct B @b) { int *`U t = NULL; t :=:
      b->p; ufree(t); }

- a global is freed
  refused at 1:25:
      int *`U g; int main() { ufree(g); }
  accepted:
      int *`U g; int main() { int *`U t = NULL; t :=: g; ufree(t); }

- a unique pointer in a struct is followed
  refused at 1:54:
      struct B { int *`U p; }; int f(struct B @b) { return *b->p; }
  accepted:
      struct B { int *`U p; }; int f(struct B @b) { int *`U t = NULL; t :=:
      b->p; int n = *t; t :=: b->p; return n; }

- the address of a local that can't be copied
  refused at 1:34:
      void f(int *`U p) { int *`U @q = &p; ufree(p); }
  accepted:
      void f(int *`U p) { { let alias<`r> int *`r q = p; } ufree(p); }

- returned from a global
  refused at 1:33:
      int *`U g; int *`U f() { return g; }
  accepted:
      int *`U g; int *`U f() { int *`U t = NULL; t :=: g; return t; }

- the next node of a node is followed
  refused at 1:72:
      struct N { int v; struct N *`U next; }; int f(struct N *`U l) { return
      l->next->v; }
  accepted:
      struct N { int v; struct N *`U next; }; int f(struct N *`U l) { struct N
      *`U t = NULL; t :=: l->next; int n = t->v; t :=: l->next; return n; }

- the address of a part of a unique block
  refused at 1:58:
      struct S { int x; }; int f(struct S @`U p) { int @`U q = &p->x; return 0;
      }
  accepted:
      struct S { int x; }; int f(struct S @`U p) { let alias<`r> struct S @`r s
      = p; int @`r q = &s->x; return *q; }

- a local array of unique pointers is used
  refused at 1:28:
      int main() { int *`U a[2]; a[0] = NULL; }
  accepted:
      int *`U a[2]; int main() { a[0] = NULL; }
"#,
    },
];
