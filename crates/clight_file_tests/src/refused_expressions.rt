//! Files whose statements or expressions break a rule, and files that nearly do. An `@` stands before the byte
//! at which a file breaks the rule first; it is no byte of the file.

use crate::answers::{accept, refuse};
use std::test::Fail;

// A struct where a value stands.
const STRUCT_VALUES: [&str; 18] = [
    "struct s { int a; } g, h; int main(void) { g = @h; }",
    "struct s { int a; } g; int main(void) { struct s x = @g; }",
    "struct s { int a; }; struct s @f(void); int main(void) { }",
    "struct s { int a; }; int f(int a, struct s @x); int main(void) { }",
    "struct s { int a; }; int (*p)(int, int (*)(struct s @x)); int main(void) { }",
    "struct s { int a; } g; int main(void) { if (1) { while (0) @g; } }",
    "struct s { int a; } g; int main(void) { for (@g; ; ) break; }",
    "struct s { int a; } g; int main(void) { for (; ; @g) break; }",
    "struct s { int a; } g; int f(int a) { return a; } int main(void) { f(@g); }",
    "struct s { int a; } g; int main(void) { return @g; }",
    "struct s { int a; }; struct s (*@f)(void); int main(void) { }",
    "struct s { int a; } g; void f(void) { return @g; } int main(void) { }",
    "struct s { int a; } g; int main(void) { int x; x = @g; }",
    "struct s { int a; } g; int f(int a) { return a; } int main(void) { f(@g, 1); }",
    "struct s { int a; } g, *p; int main(void) { g = @*p; }",
    "struct s { int a; }; int f(@struct s) { return 0; } int main(void) { }",
    "struct s { int a; }; char f(struct s @x); int main(void) { }",
    "struct s { int a; } g; int main(void) { atomic_add(3, @g); }",
];

const STRUCT_VALUES_KEPT: [&str; 1] = [
    "struct s { int a; } g, h; struct s *f(struct s *x) { return x; } int main(void) { struct s *p; p = &g; p->a = h.a; g.a = p[0].a; p = f(&h); return 0; }",
];

#[test]
fn struct_values(rt: HostRuntime) -> Result<(), Fail> {
    let alloc = rt.alloc();
    refuse(&rt, alloc, 11, &STRUCT_VALUES)?;
    accept(&rt, alloc, &STRUCT_VALUES_KEPT)
}

// Operands that an operator does not take.
const OPERANDS: [&str; 22] = [
    "int *p; int main(void) { return p @* 2 == 0; }",
    "void *v; int main(void) { v@++; }",
    "int (*f)(void); int main(void) { f = f @+ 1; }",
    "int *p; int main(void) { return p @== 5; }",
    "int *p; char *q; int main(void) { return p @- q; }",
    "int *p; int main(void) { return 1 + (3 << (4 & @~p)); }",
    "struct s { int a; } g; int main(void) { return @(int)g; }",
    "int main(void) { @(void)1; }",
    "int main(void) { return @*3; }",
    "int main(void) { return 1@[2]; }",
    "int *p; int main(void) { 1 @? p : 5; }",
    "struct s { int a; } g; int main(void) { return 1 || (g @&& 1); }",
    "int main(void) { int a[2]; return 3 + @-a; }",
    "int *p; int main(void) { 3 @*= p; }",
    "void *v; int main(void) { while (1) { if (@*v) ; } }",
    "int *p; int main(void) { int i; i @+= p; }",
    "int *p, *q; int main(void) { p @-= q; }",
    "int *p; int main(void) { return 3 @- p == 0; }",
    "int *p; char *q; int main(void) { return p @< q; }",
    "struct s { int a; } g; int main(void) { return @!g; }",
    "struct s { int a; } g; int main(void) { return sizeof(@+g); }",
    "struct s { int a; } g; int *p; int main(void) { g @? 1 : p; }",
];

const OPERANDS_KEPT: [&str; 2] = [
    "int *p, *q; void *v; int main(void) { p = p + 1; p = 1 + p; v = p; return (p - q) + (p == v) + (p != 0) + 0[p] + (p < q) + !p + (p && v) + *(1 ? p : 0); }",
    "int (*f)(void); void *v; int main(void) { return (f == v) + (v >= f) + (f == 0) + (f ? 1 : 2) + (int)(char *)f + ((1 ? f : 0) == 0); }",
];

#[test]
fn operands(rt: HostRuntime) -> Result<(), Fail> {
    let alloc = rt.alloc();
    refuse(&rt, alloc, 15, &OPERANDS)?;
    accept(&rt, alloc, &OPERANDS_KEPT)
}

// Assignments to what is no scalar object.
const NOT_ASSIGNABLE: [&str; 14] = [
    "int main(void) { 1 @= 2; }",
    "int main(void) { int a[2]; a @= 0; }",
    "int f(void) { return 1; } int main(void) { f @= 0; }",
    "int main(void) { int x; x = 1; (x + 1)@++; }",
    "int main(void) { @--3; }",
    "int main(void) { while (1) { if (0) ; else main @= 0; } }",
    "int main(void) { for (; ; 3 @= 4) ; }",
    "enum { A }; int main(void) { A @+= 1; }",
    "struct s { int a; } g; int main(void) { g @= 3; }",
    "char *p; int main(void) { 'a' @= p; }",
    "int x; int main(void) { x = 1 + (3 @= 4); }",
    "int main(void) { int x; x = 1; (x ? x : x) @= 1; }",
    "int main(void) { int x; x = 0; (-x)@++; }",
    "int a[2][2]; int main(void) { *a @= 0; }",
];

const NOT_ASSIGNABLE_KEPT: [&str; 1] = [
    "int x, *p, a[2]; struct s { int m; } g; int main(void) { (x) = 1; p = &x; *p = 2; a[1] = 3; g.m = 4; (&g)->m++; *(a + 1) -= 1; --*p; ++a[0]; return 0; }",
];

#[test]
fn not_assignable(rt: HostRuntime) -> Result<(), Fail> {
    let alloc = rt.alloc();
    refuse(&rt, alloc, 16, &NOT_ASSIGNABLE)?;
    accept(&rt, alloc, &NOT_ASSIGNABLE_KEPT)
}

// Conversions that need a cast.
const CASTS_NEEDED: [&str; 19] = [
    "int *p; int main(void) { p = @1; }",
    "int *p; int main(void) { return @p; }",
    "int f(int *a) { return *a; } int main(void) { f(@3); }",
    "char *p; int *q; int main(void) { if (1) { while (0) p = @q; } }",
    "int main(void) { int x = @&x; }",
    "void v(void) { } int main(void) { int x; x = @v(); }",
    "int (*h)(int); int f(void) { return 1; } int main(void) { h = @f; }",
    "void *v; void (*h)(void); int main(void) { h = @v; }",
    "int *p = @1; int main(void) { }",
    "struct s { int *p; int a; } g = { @3, 1 }; int main(void) { }",
    "int x, *p; int main(void) { atomic_xchg(&x, @p); }",
    "int *p; int main(void) { malloc(@p); }",
    "int f(int a) { return a; } int *p; int main(void) { f(@p, 2); }",
    "int f(int a) { return a; } int *p; int main(void) { int x; x = 1 + f(@p); }",
    "int main(void) { int a[2] = @5; }",
    "int *p; int main(void) { exit(@p); }",
    "void w(int n) { } int main(void) { thread_create(@w, 0); }",
    "int x; int main(void) { free(@x); }",
    "int *a[2] = { 0, @5 }; int main(void) { }",
];

const CASTS_NEEDED_KEPT: [&str; 2] = [
    "int *p; void *v; char c; int (*h)(void); int f(void) { return 1; } int main(void) { unsigned u = -1; char *q = 0; p = 0; p = (int *)1; v = p; p = v; c = 300; h = f; h = 0; h = (int (*)(void))v; q = 1 - 1; return (int)p + (int)q + u; }",
    "void w(void *a) { } int main(void) { thread_create(w, 0); free(0); exit(0u); }",
];

#[test]
fn casts_needed(rt: HostRuntime) -> Result<(), Fail> {
    let alloc = rt.alloc();
    refuse(&rt, alloc, 17, &CASTS_NEEDED)?;
    accept(&rt, alloc, &CASTS_NEEDED_KEPT)
}

// Calls of what is no function, or with another number of arguments.
const CALLS: [&str; 16] = [
    "int x; int main(void) { @x(); }",
    "int main(void) { @3(1); }",
    "int f(int a) { return a; } int main(void) { @f(); }",
    "int f(int a) { return a; } int main(void) { if (0) ; else { @f(1, 2); } }",
    "int main(void) { @mfence(1); }",
    "int main(void) { @malloc(); }",
    "int x; int main(void) { @atomic_cas(&x, 1); }",
    "void w(void *a) { } int main(void) { @thread_create(w); }",
    "int (*h[2])(int); int main(void) { while (0) { return @h[1](); } return 0; }",
    "int f(int a) { return a; } int main(void) { (@1 ? f : f)(); }",
    "int *p; int main(void) { (@*p)(); }",
    "int f(void) { return 1; } int main(void) { int x; x = 1 + @f(2); }",
    "int main(void) { @atomic_add(3); }",
    "int e(int a, int b); int main(void) { @e(1); }",
    "struct s { int a; } g; int main(void) { @g.a(1); }",
    "int main(void) { @atomic_cas(1); }",
];

const CALLS_KEPT: [&str; 1] = [
    "int f(int a) { return a; } int (*h)(int); struct s { int (*m)(int); } g, *p; int main(void) { h = f; g.m = f; p = &g; f(1); (f)(1); (*h)(1); h(1); (1 ? f : h)(1); g.m(1); p->m(1); (**f)(1); return 0; }",
];

#[test]
fn calls(rt: HostRuntime) -> Result<(), Fail> {
    let alloc = rt.alloc();
    refuse(&rt, alloc, 18, &CALLS)?;
    accept(&rt, alloc, &CALLS_KEPT)
}

// The labels and the selector of a switch.
const LABELS: [&str; 13] = [
    "int x; int main(void) { switch (x) { @case x: ; } }",
    "int main(void) { switch (1) { case 1: ; @case 2 - 1: ; } }",
    "int main(void) { switch (1) { default: ; @default: ; } }",
    "int *p; int main(void) { switch (@p) { } }",
    "struct s { int a; } g; int main(void) { switch (@g) { } }",
    "int main(void) { switch (1) { case 1: switch (2) { case 1: case 2: @case 1: ; } } }",
    "int main(void) { switch ('a') { case 97: ; @case 'a': ; } }",
    "int main(void) { switch (1) { case 1: @case 1: ; } }",
    "int main(void) { switch (1) { @case 1 / 0: ; } }",
    "unsigned char c; int main(void) { switch (c) { case 1: ; @case 257 - 256: ; } }",
    "int main(void) { switch (1u) { case 4294967295u: ; default: ; @case -1: ; } }",
    "int *p; int main(void) { switch (@p) { case y: ; } }",
    "int main(void) { for (; ; ) switch (1) { case 2: { switch (1) { default: ; } } default: ; @default: ; } }",
];

const LABELS_KEPT: [&str; 1] = [
    "unsigned char c; enum { A = 2 }; int main(void) { switch (c) { case 1: ; case 257: ; case A: ; case -1: ; default: switch (1) { case 1: ; default: ; } } switch (1) { } switch (c) { case 1 ? 3 : 1 / 0: ; } }",
];

#[test]
fn labels(rt: HostRuntime) -> Result<(), Fail> {
    let alloc = rt.alloc();
    refuse(&rt, alloc, 19, &LABELS)?;
    accept(&rt, alloc, &LABELS_KEPT)
}

// A `break` or a `continue` outside.
const JUMPS: [&str; 8] = [
    "int main(void) { @break; }",
    "int main(void) { @continue; }",
    "int main(void) { switch (1) { case 1: @continue; } }",
    "int main(void) { if (1) { { @break; } } }",
    "int main(void) { while (0) ; @break; }",
    "int main(void) { for (; ; ) { break; } @break; continue; }",
    "int main(void) { switch (1) { default: if (0) @continue; else break; } }",
    "void f(void) { do ; while (0); if (1) ; else @continue; } int main(void) { }",
];

const JUMPS_KEPT: [&str; 1] = [
    "int main(void) { while (1) { if (1) break; else continue; } do { continue; } while (0); for (; ; ) break; switch (1) { case 1: break; } while (0) { switch (1) { default: continue; } } }",
];

#[test]
fn jumps(rt: HostRuntime) -> Result<(), Fail> {
    let alloc = rt.alloc();
    refuse(&rt, alloc, 20, &JUMPS)?;
    accept(&rt, alloc, &JUMPS_KEPT)
}

// A `return` with a value where none is given, or without one.
const RETURNS: [&str; 6] = [
    "void f(void) { @return 1; } int main(void) { }",
    "int f(void) { @return; } int main(void) { }",
    "int main(void) { do { switch (1) { default: @return; } } while (0); }",
    "int *p; void f(void) { @return p; } int main(void) { }",
    "void w(void *a) { if (a) @return a; } int main(void) { }",
    "struct s { int a; } g; struct s *f(void) { for (; ; ) @return; } int main(void) { }",
];

const RETURNS_KEPT: [&str; 1] = [
    "void f(void) { return; } int g(void) { } int h(int n) { if (n) return 1; } char k(void) { return 300; } int main(void) { }",
];

#[test]
fn returns(rt: HostRuntime) -> Result<(), Fail> {
    let alloc = rt.alloc();
    refuse(&rt, alloc, 21, &RETURNS)?;
    accept(&rt, alloc, &RETURNS_KEPT)
}

// The address of what is no object, or an external function or builtin that is not called.
const NO_OBJECTS: [&str; 15] = [
    "int main(void) { @&3; }",
    "int f(void) { return 1; } int main(void) { @&f; }",
    "int x; int main(void) { return 1 + (2 * (@&(x + 1) == 0)); }",
    "int e(int); int (*h)(int); int main(void) { h = @e; }",
    "void (*h)(void *); int main(void) { h = @free; }",
    "int e(int); int main(void) { return sizeof(@e); }",
    "int e(int); int main(void) { (1 ? @e : 0)(1); }",
    "enum { A }; int main(void) { @&A; }",
    "void e(void *); int main(void) { thread_create(@e, 0); }",
    "int *h; int main(void) { h = @malloc; }",
    "int e(int); int main(void) { &@e; }",
    "int main(void) { if (1) @mfence; }",
    "int f(void) { return 1; } int main(void) { @&*f; }",
    "int *p; int main(void) { @&-1; }",
    "int e(int); int x = 1, y = @e; int main(void) { }",
];

const NO_OBJECTS_KEPT: [&str; 1] = [
    "int x, a[2]; struct s { int m; } g, *p; int e(int); void (*k)(void *); void w(void *q) { } int main(void) { &x; &a; &a[1]; &g; &g.m; &p->m; &*p; e(1); (e)(1); mfence(); k = w; k = *w; return 0; }",
];

#[test]
fn no_objects(rt: HostRuntime) -> Result<(), Fail> {
    let alloc = rt.alloc();
    refuse(&rt, alloc, 22, &NO_OBJECTS)?;
    accept(&rt, alloc, &NO_OBJECTS_KEPT)
}

// Calls, assignments and steps in places where none may stand.
const EFFECT_PLACES: [&str; 22] = [
    "int f(int a) { return a; } int main(void) { return 1 + f@(2); }",
    "int main(void) { int x, y; x = 0; y = x @= 1; }",
    "int main(void) { int x, y; y = 0; x = 1 + y@++; }",
    "int f(int a) { return a; } int main(void) { if (f@(1)) ; }",
    "int main(void) { int x; while (x @= 0) ; }",
    "int f(void) { return 1; } int main(void) { switch (f@()) { } }",
    "int f(int a) { return a; } int main(void) { f(f@(1)); }",
    "int a[2], x; int main(void) { return a[x@++]; }",
    "int x; int main(void) { return sizeof(x@++); }",
    "int f(int a) { return a; } int g = f@(1); int main(void) { }",
    "int x; int main(void) { return x @= 1; }",
    "int x; int main(void) { for (; x @= 0; ) ; }",
    "int f(void) { return 1; } int main(void) { int x; x = 0; x += f@(); }",
    "int f(void) { return 1; } int main(void) { char x; x = (char)f@(); }",
    "int main(void) { return 2 * atomic_xchg@(5, 6); }",
    "int x; int main(void) { do { if (1) { @++x + 1; } } while (0); }",
    "int f(void) { return 1; } int main(void) { 1 ? f@() : 0; }",
    "int f(void) { return 1; } int main(void) { switch (1) { case f@(): ; } }",
    "int x; int main(void) { x = -x@--; }",
    "int *f(void) { return 0; } int main(void) { *f@() = 1; }",
    "int x; int a[sizeof(@++x)]; int main(void) { }",
    "int main(void) { int x; x = 0; -x@++; }",
];

const EFFECT_PLACES_KEPT: [&str; 1] = [
    "int x; int f(int a) { return a; } int main(void) { int y = f(1), z; f(1); x = f(1); z = f(2); for (f(1); ; f(1)) break; for (x = 0; x < 2; x++) ; for (int i = f(0); i < 2; i += 1) ; x++; --x; x += 1; (x = f(1)); (f(1)); (x) = (f(y)); return f(1); }",
];

#[test]
fn effect_places(rt: HostRuntime) -> Result<(), Fail> {
    let alloc = rt.alloc();
    refuse(&rt, alloc, 23, &EFFECT_PLACES)?;
    accept(&rt, alloc, &EFFECT_PLACES_KEPT)
}

// The first argument of an atomic.
const ATOMICS: [&str; 10] = [
    "char c; int main(void) { @atomic_add(&c, 1); }",
    "int main(void) { @atomic_add(3, 4); }",
    "int *p; int main(void) { @atomic_add(&p, 1); }",
    "void *v; int main(void) { @atomic_cas(v, 1, 2); }",
    "struct s { int a; } g; int main(void) { @atomic_xchg(&g, 1); }",
    "int x; short c; int main(void) { while (1) { if (x) x = @atomic_add(&c, 1); } }",
    "int a[2]; int main(void) { @atomic_xchg(&a, 1); }",
    "int f(void) { return 1; } int main(void) { @atomic_xchg(f, 1); }",
    "unsigned short s; int main(void) { @atomic_cas(&s, 0, 1); }",
    "char c; int *p; int main(void) { @atomic_cas(&c, p, 1); }",
];

const ATOMICS_KEPT: [&str; 1] = [
    "int x, *p, a[2]; unsigned u; void *v; enum e { A } w; int (*h)(void); int f(void) { return 1; } int main(void) { atomic_add(&x, 1); atomic_add(&u, -1); atomic_cas(&p, 0, &x); atomic_xchg(&v, p); atomic_xchg(&h, f); atomic_cas(&w, A, 3); atomic_add(a, 1); atomic_add(p + 1, u); return 0; }",
];

#[test]
fn atomics(rt: HostRuntime) -> Result<(), Fail> {
    let alloc = rt.alloc();
    refuse(&rt, alloc, 25, &ATOMICS)?;
    accept(&rt, alloc, &ATOMICS_KEPT)
}

// Members that are not there.
const MEMBERS: [&str; 12] = [
    "struct s { int a; } g; int main(void) { return g.@b; }",
    "struct s { int a; } *p; int main(void) { return p->@b; }",
    "int x; int main(void) { return x.@a; }",
    "struct s { int a; } g; int main(void) { return g->@a; }",
    "struct s { int a; } *p; int main(void) { return p.@a; }",
    "struct q *p; int main(void) { return p->@a; }",
    "struct s { struct { int a; } in; } g; int main(void) { return 1 + (2 * g.in.@in); }",
    "struct s { int a; } g; int main(void) { return sizeof(g.@b); }",
    "void *v; int main(void) { v->@a = 3; }",
    "int main(void) { int x; x.@a++; }",
    "struct s { int a; } *p; int main(void) { if (1) { p->a.@a = p->b; } }",
    "struct s { int a; } *a[2]; int main(void) { return a[1].@a; }",
];

const MEMBERS_KEPT: [&str; 1] = [
    "struct s { int a; struct { int a; struct s *n; } in; } g, *p; int main(void) { p = &g; p->in.n = p; return g.in.a + p->in.a + (&g)->in.a + (*p).a + p[1].a + p->in.n->in.n->a; }",
];

#[test]
fn members(rt: HostRuntime) -> Result<(), Fail> {
    let alloc = rt.alloc();
    refuse(&rt, alloc, 26, &MEMBERS)?;
    accept(&rt, alloc, &MEMBERS_KEPT)
}

// Conditions that are no scalars.
const CONDITIONS: [&str; 9] = [
    "struct s { int a; } g; int main(void) { if (@g) ; }",
    "struct s { int a; } g; int main(void) { while (@g) ; }",
    "struct s { int a; } g; int main(void) { do ; while (@g); }",
    "struct s { int a; } g; int main(void) { for (; @g; ) ; }",
    "struct s { int a; } g; int main(void) { @g ? 1 : 2; }",
    "struct s { int a; } g; int main(void) { if (1) for (; ; ) { while (@g) ; } }",
    "struct s { int a; } g; int main(void) { return 1 + (@g ? 2 : 3); }",
    "struct s { int a; } *p; int main(void) { if (@*p) ; }",
    "struct s { int a; } t[2]; int main(void) { for (; @t[0]; ) break; }",
];

const CONDITIONS_KEPT: [&str; 1] = [
    "int *p, a[2]; char c; void (*h)(void); int main(void) { if (p) if (a) if (main) while (c) ; if (h) ; for (; !p; ) ; do ; while (*p); return a ? 1 : h ? 2 : 3; }",
];

#[test]
fn conditions(rt: HostRuntime) -> Result<(), Fail> {
    let alloc = rt.alloc();
    refuse(&rt, alloc, 28, &CONDITIONS)?;
    accept(&rt, alloc, &CONDITIONS_KEPT)
}
