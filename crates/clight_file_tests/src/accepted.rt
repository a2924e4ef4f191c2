//! Files that break no rule and pass no count.

use crate::answers::accept;
use std::test::Fail;

// Each builtin, with the conversions that its arguments take.
const BUILTINS: [&str; 14] = [
    "void w(void *a) { } int main(void) { int t; t = thread_create(w, 0); return t; }",
    "void w(void *a) { } int x; int main(void) { int t = thread_create(w, &x); return thread_create(w, (void *)t); }",
    "void w(void *a) { } void (*h)(void *); int main(void) { h = w; thread_create(h, h == 0 ? 0 : &h); return 0; }",
    "int main(void) { mfence(); (mfence)(); }",
    "int x; int main(void) { int old; old = atomic_cas(&x, 1, 2); return atomic_cas(&x, old, 3u); }",
    "struct n { struct n *next; } *top; int main(void) { struct n *old; old = atomic_cas(&top, 0, top); return old == 0; }",
    "unsigned x; int main(void) { unsigned old = atomic_add(&x, -1); return atomic_add(&x, (char)old); }",
    "long a[3]; enum e { A, B } w; int main(void) { atomic_add(a, 1); atomic_add(a + 2, A); return atomic_add(&w, B); }",
    "void *v; int *p; char *c; int main(void) { c = atomic_xchg(&v, p); p = atomic_xchg(&p, v); return p == 0; }",
    "int f(int a) { return a; } int (*h)(int); int main(void) { int (*old)(int); old = atomic_xchg(&h, f); return (old == 0) + (h == f); }",
    "struct s { int a; } *p; int main(void) { p = malloc(sizeof(struct s)); free(p); }",
    "int main(void) { char *c = malloc(-1); c = malloc('a'); free(c); free(0); free((void *)5); return 0; }",
    "void f(void) { exit(1u); } int main(void) { exit('a'); exit(-1); }",
    "int thread_create(void (*run)(void *), void *); void mfence(void); void *malloc(unsigned long); void free(void *p); void exit(int w); int main(void) { exit(0); }",
];

#[test]
fn builtins(rt: HostRuntime) -> Result<(), Fail> {
    accept(&rt, rt.alloc(), &BUILTINS)
}

// Each form of statement.
const STATEMENTS: [&str; 14] = [
    "int main(void) {  }",
    "int main(void) { ; }",
    "int main(void) { { } { ; } { { int x; } int x; x = 1; } }",
    "int main(void) { int x, *p = &x, a[2]; x = 1; x; *p; a; main; &a; sizeof(x); 0; }",
    "int main(void) { int x = 0; if (x) ; if (x) x = 1; else x = 2; if (x) if (!x) ; else ; else { } }",
    "int main(void) { int x = 3; while (x) x--; while (1) { if (x) continue; break; } }",
    "int main(void) { int x = 3; do x -= 1; while (x > 0); do { continue; } while (0); }",
    "int main(void) { for (; ; ) break; int i; for (i = 0; i < 3; i++) ; for (int i = 0, *p = &i; *p < 3; *p += 1) { int i; i = 1; } for (int k; ; ) break; }",
    "int f(void) { return 1; } int main(void) { int x; for (f(); x; f()) ; for (x = f(); ; --x) break; for (x; 1; x) { continue; } }",
    "int main(void) { int x = 1; switch (x) { } switch (x) { case 1: } switch (x) { default: ; case 1: case 2: x = 3; break; case -1: ; int y; y = x; { break; } } }",
    "char c; enum { A, B = 7 }; int main(void) { switch (c) { case 'a': case A: ; case B << 1: ; case sizeof(c): ; case -128: ; case 0xFFFFFFFF: ; } }",
    "unsigned u; int main(void) { switch (u) { case 0: ; case -1: ; case 4294967294u: ; } switch (u == 1) { case 0: switch (u) { case 0: break; } } }",
    "void f(int n) { if (n) return; } int g(void) { return 1; } char h(void) { return g(); } int *k(void) { return 0; } void *l(void) { return k(); } int main(void) { }",
    "int main(void) { int x, y; x = 1; y = x; x += y; x -= 1; x *= 2; x /= 3; x %= 4; x <<= 1; x >>= 1; x &= 7; x ^= 2; x |= 8; x++; ++x; x--; --x; }",
];

#[test]
fn statements(rt: HostRuntime) -> Result<(), Fail> {
    accept(&rt, rt.alloc(), &STATEMENTS)
}

// Declarations at file scope and in blocks.
const DECLARATIONS: [&str; 12] = [
    "int x, *y, z[2], (*w)[3], *(*v[4])(int, char *); extern int f(), *g(void); static const volatile int k = 3; int main(void) { }",
    "typedef int t, *u, v[2], w(t); t x; u y = 0; v z = { 1, 2 }; w f; int f(t a) { u p = &a; return *p; } int main(void) { }",
    "struct s { char a; short b, *c; struct { int d[2]; } e; struct s *next; enum { P, Q = 4 } f; } x, *y = 0, z[Q]; int main(void) { }",
    "struct s; struct t { struct s *p; }; struct s { struct t t; }; struct s x; int main(void) { return x.t.p == 0; }",
    "enum e { A = 1, B, C = B * 3, D = -C, }; enum e x = C; int y[D + 8] = { A, B }, z = sizeof(y); int main(void) { }",
    "int a[3] = { 1, -2, }; unsigned b = -1; char c = 511; struct s { char x; unsigned short y; int *p; } d = { 300, -1 }; int e = sizeof(d); int main(void) { }",
    "extern int x; int x = 2; extern int x; int f(void); int f(void) { return x; } int f(void); int g(int), h(void), i; int h(void) { return g(i); } int main(void) { }",
    "int f(int a[], int b[3][2], int c(int), void (*d)(void)) { int n = c(b[1][0]); return a[1] + n + (d == 0); } int main(void) { }",
    "inline int f(void) { return 1; } static inline int g(void) { return f(); } int inline h(void) { return g(); } int main(void) { }",
    "int; struct { int a; }; enum { A }; struct s; typedef int; typedef struct s { int a; } s; s x; struct s *y; int main(void) { }",
    "int main(void) { int a, b = 1, *c = &a, d[2][3]; const int e = b; inline volatile int f; struct q *g; { struct q *h; h = g; } }",
    "long int x; int long unsigned y; short z; signed w; unsigned char c; signed char *p; char *q; int main(void) { p = q; return x + y; }",
];

#[test]
fn declarations(rt: HostRuntime) -> Result<(), Fail> {
    accept(&rt, rt.alloc(), &DECLARATIONS)
}

// Operators, conversions and constants.
const EXPRESSIONS: [&str; 10] = [
    "int x; unsigned u; char c; short s; int main(void) { return -x + +u - ~c * !s / 3 % 5 << 1 >> 2 & 3 ^ 4 | (x < u) + (c > s) + (x <= 1) + (u >= 'a') + (x == c) + (s != 0); }",
    "int x, *p; int main(void) { return x && p || !p && (x ? 1 : 2u) || (p ? p : 0) || (1 ? (void *)0 : p) != p; }",
    "int a[2][3], (*p)[3], *q; int main(void) { p = a; q = *a; q = p[1]; q = &a[1][2]; p = &a[1]; p = 1 + p; p += 1; p++; q -= 2; return p - a + 1[a][2] + (q - *a); }",
    "struct s { int a[2]; struct { char c; } in, *p; } g, *h, k[2]; int main(void) { h = &g; h = k + 1; h->p = &g.in; return h->a[1] + g.in.c + (*h).p->c + k[1].a[0] + (&k[1])->in.c; }",
    "int f(int a) { return a; } int (*h)(int), (*k[2])(int); int main(void) { h = f; h = *f; h = 1 ? f : h; k[0] = h; return k[0](f == h); }",
    "void *v; int *p; char *c; int main(void) { v = p; c = v; p = (int *)c; p = (int *)4; v = 1 - 1; return (int)p + (char)(int)v + (unsigned)c + (p == v) + (v < c); }",
    "int x = 0x7fffffff + 1, y = 010 + '\\n' + '\\377' + 1ul, z = 1 ? 2 : 1 / 0, w = -7 / 2 % 3, v = 5u > -1, u = sizeof(char[3]) + sizeof(1 ? (char)1 : 2); int main(void) { }",
    "int x, a[3]; struct s { int m[4]; } g; int main(void) { return sizeof x + sizeof(x) + sizeof a[0] + sizeof(g.m) + sizeof(int (*)[3]) + sizeof(struct s) + sizeof &a + sizeof(x ? 1 : 2); }",
    "int e(int, char *); char *k(void); int main(void) { int n; char *c; n = e(1, 0); c = k(); e(n, c); (e)(2, c + 1); return e(3, (char *)&n); }",
    "int x; char c; int main(void) { x = 300; c = x; c += x; c <<= 1; c--; x = c ? x : c; x = (char)x + (unsigned char)x + (short)x; (c) = (((x))); return (c); }",
];

#[test]
fn expressions(rt: HostRuntime) -> Result<(), Fail> {
    accept(&rt, rt.alloc(), &EXPRESSIONS)
}
