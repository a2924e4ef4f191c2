//! Files whose declarations break a rule, and files that nearly do. An `@` stands before the byte at which a
//! file breaks the rule first; it is no byte of the file. The body of `main` is left empty where it does not
//! matter.

use crate::answers::{accept, refuse};
use std::test::Fail;

// A floating type or `long long`.
const FLOATING: [&str; 7] = [
    "@float x; int main(void) { }",
    "struct s { int a; struct { int b; @double c; } d; }; int main(void) { }",
    "unsigned f(int a, int (*g)(char, const @long double *)); int main(void) { }",
    "int main(void) { return sizeof(int (*)[sizeof(@long long)]); }",
    "int f(short a, volatile @long int unsigned long b); int main(void) { }",
    "@double x[0]; int main(void) { }",
    "int x = (@float)y; int main(void) { }",
];

const FLOATING_KEPT: [&str; 2] = [
    "long int unsigned x; unsigned long y; int short z; signed char c; int signed long w; int main(void) { }",
    "struct float_s { int double_x, long_long; }; struct float_s x; int main(void) { }",
];

#[test]
fn floating(rt: HostRuntime) -> Result<(), Fail> {
    let alloc = rt.alloc();
    refuse(&rt, alloc, 1, &FLOATING)?;
    accept(&rt, alloc, &FLOATING_KEPT)
}

// A union.
const UNIONS: [&str; 6] = [
    "@union u { int a; } x; int main(void) { }",
    "struct s { int a; struct { @union { int b; } *c; } d; }; int main(void) { }",
    "int f(int (*g)(@union u *)); int main(void) { }",
    "int main(void) { return sizeof(@union u); }",
    "struct u { int a; }; @union u x; int main(void) { }",
    "int main(void) { if (1) { @union { float x; } b; } }",
];

const UNIONS_KEPT: [&str; 1] = [
    "struct union_like { int u; }; struct union_like u; int main(void) { }",
];

#[test]
fn unions(rt: HostRuntime) -> Result<(), Fail> {
    let alloc = rt.alloc();
    refuse(&rt, alloc, 2, &UNIONS)?;
    accept(&rt, alloc, &UNIONS_KEPT)
}

// A decimal constant above 2147483647 without `u`.
const LARGE_DECIMALS: [&str; 7] = [
    "int x = @2147483648; int main(void) { }",
    "int main(void) { return 1 - (-@2147483648); }",
    "int main(void) { return 0 ? 1 : sizeof(3 + @4294967295); }",
    "int a[@3000000000]; int main(void) { }",
    "enum { A = 1 || @2147483648l }; int main(void) { }",
    "int main(void) { switch (1) { case 1: case @4000000000: ; } }",
    "int main(void) { return @2147483650 + y; }",
];

const LARGE_DECIMALS_KEPT: [&str; 1] = [
    "unsigned x = 2147483648u, y = 4294967295UL, z = 0xFFFFFFFF, w = 037777777777; int v = -2147483647 - 1, u = 2147483647l; int main(void) { }",
];

#[test]
fn large_decimals(rt: HostRuntime) -> Result<(), Fail> {
    let alloc = rt.alloc();
    refuse(&rt, alloc, 3, &LARGE_DECIMALS)?;
    accept(&rt, alloc, &LARGE_DECIMALS_KEPT)
}

// A name or a tag that is not declared.
const UNDECLARED: [&str; 19] = [
    "int x = @y; int main(void) { }",
    "int main(void) { return 1 + 2 * (3 - @y); }",
    "int f(int a[sizeof(@b)], int b); int main(void) { }",
    "int main(void) { { int k; k = 1; } return @k; }",
    "int main(void) { for (int i = 0; i < 3; i++) ; return @i; }",
    "int main(void) { switch (1) { case 1: ; int k; k = 1; } return @k; }",
    "enum @e x; int main(void) { }",
    "int main(void) { if (1) while (0) { do ; while (@z); } }",
    "int main(void) { return @f(y); }",
    "int main(void) { return !@y(1); }",
    "enum { A = @B, B }; int main(void) { }",
    "int g(void) { return @h(); } int h(void) { return 1; } int main(void) { }",
    "int x = { 1, @y }; int main(void) { }",
    "int main(void) { switch (1) { case 1: ; case 1 + @y: ; } }",
    "void f(void) { return @y; } int main(void) { }",
    "int main(void) { atomic_add(3, @y); }",
    "enum { A = 1 + @y }; int main(void) { }",
    "struct s { int a; } g; int main(void) { while (g.a + @y) ; }",
    "extern int x; int main(void) { return @y; }",
];

const UNDECLARED_KEPT: [&str; 4] = [
    "struct s *p; int x = sizeof(x); enum { A = 1, B = A + 1 }; int main(void) { }",
    "int f(int n, int a[sizeof(n)]) { int m[sizeof(a)]; m[0] = n; return m[0]; } int main(void) { }",
    "static int h(void); int g(void) { return h(); } static int h(void) { return g(); } int main(void) { }",
    "int main(void) { int x = x; { int y = x; x = y; } }",
];

#[test]
fn undeclared(rt: HostRuntime) -> Result<(), Fail> {
    let alloc = rt.alloc();
    refuse(&rt, alloc, 4, &UNDECLARED)?;
    accept(&rt, alloc, &UNDECLARED_KEPT)
}

// A name that is defined twice, or that a builtin or a typedef has.
const DEFINED_TWICE: [&str; 17] = [
    "int x; int @x; int main(void) { }",
    "int f(int a, int @a); int main(void) { }",
    "int f(int a) { int @a; return 0; } int main(void) { }",
    "struct s { int a; struct { int b; int @b; } c; }; int main(void) { }",
    "int main(void) { { int y; { int z; int @z; } } }",
    "int main(void) { switch (1) { case 1: ; int k; case 2: ; int @k; } }",
    "int main(void) { for (int i = 0, @i = 1; ; ) ; }",
    "int @mfence; int main(void) { }",
    "int f(int (*g)(int @thread_create)); int main(void) { }",
    "void @exit(int n) { } int main(void) { }",
    "enum { A, B, @A }; int main(void) { }",
    "int x; typedef int @x; int main(void) { }",
    "int f(void) { return 1; } void *@f(void) { return 0; } int main(void) { }",
    "int x; char @x[0]; int main(void) { }",
    "int main(void) { int a; void @a; }",
    "int main(void) { int f; int @f(void); }",
    "enum { f }; char @f(void) { return 1; } int main(void) { }",
];

const DEFINED_TWICE_KEPT: [&str; 5] = [
    "extern int x; int x = 1; int f(int x) { { int x; x = 1; } return x; } extern int x; int main(void) { }",
    "void free(void *p); void *malloc(unsigned n); void mfence(void); void exit(int); int thread_create(void (*)(void *), void *); int main(void) { }",
    "struct x { int x; } x; enum y { A } y; int main(void) { }",
    "int f(int); int f(int a); int f(int b) { return b; } int f(int); int main(void) { }",
    "struct free { int malloc; struct { int malloc; } exit; }; struct free v; int main(void) { }",
];

#[test]
fn defined_twice(rt: HostRuntime) -> Result<(), Fail> {
    let alloc = rt.alloc();
    refuse(&rt, alloc, 5, &DEFINED_TWICE)?;
    accept(&rt, alloc, &DEFINED_TWICE_KEPT)
}

// Declarations of one name with different types.
const TYPES_DIFFER: [&str; 11] = [
    "extern int x; char @x; int main(void) { }",
    "int f(int); int @f(char); int main(void) { }",
    "extern int a[2]; extern int @a[3]; int main(void) { }",
    "int f(int (*g)(char *)); int @f(int (*g)(unsigned char *)); int main(void) { }",
    "int f(void (*g)(int, int)); int b, *c, @f(void (*g)(int)); int main(void) { }",
    "extern struct { int a; } *x; extern struct { int a; } *@x; int main(void) { }",
    "extern int x; void @x(void) { } int main(void) { }",
    "extern int y; extern void @y; int main(void) { }",
    "int f(void); char @f(void); int main(void) { }",
    "int f(int); extern int @f; int main(void) { }",
    "extern int A; int b; enum { @A = b }; int main(void) { }",
];

const TYPES_DIFFER_KEPT: [&str; 3] = [
    "int f(int a[3]); int f(int *a); int f(int *a) { return *a; } int main(void) { }",
    "extern char c; signed char c; enum e { A }; extern int x; enum e x; long y; extern int y; int main(void) { }",
    "int g(int f(void)); int g(int (*)(void)); extern const int k; volatile int k; int main(void) { }",
];

#[test]
fn types_differ(rt: HostRuntime) -> Result<(), Fail> {
    let alloc = rt.alloc();
    refuse(&rt, alloc, 6, &TYPES_DIFFER)?;
    accept(&rt, alloc, &TYPES_DIFFER_KEPT)
}

// An object or the size of an incomplete type.
const INCOMPLETE: [&str; 15] = [
    "void @x; int main(void) { }",
    "struct s @x; int main(void) { }",
    "struct t { int a; struct t @b; }; int main(void) { }",
    "int main(void) { struct q *p; p = 0; return 1 + @sizeof(*p); }",
    "int f(int a, void @b); int main(void) { }",
    "int main(void) { return @sizeof(main); }",
    "struct s { int @f(void); }; int main(void) { }",
    "void @a[3]; int main(void) { }",
    "int x = @sizeof(void); int main(void) { }",
    "struct s; int main(void) { { struct s @v; } return 0; } struct s { int a; };",
    "int f(struct s @x); int main(void) { }",
    "struct s { void @a[0]; }; int main(void) { }",
    "int f(int a, @const void); int main(void) { }",
    "int main(void) { return sizeof(int [@sizeof(struct s)]); }",
    "int f(int a, @void) { return a; } int main(void) { }",
];

const INCOMPLETE_KEPT: [&str; 3] = [
    "struct s; struct s *p; struct s { struct s *next; struct s *others[4]; }; struct s x; int main(void) { }",
    "void *p; void (*f)(void); int n = sizeof(void *) + sizeof(void (*)(void)); int main(void) { }",
    "struct t *q; int main(void) { return &*q == 0; }",
];

#[test]
fn incomplete(rt: HostRuntime) -> Result<(), Fail> {
    let alloc = rt.alloc();
    refuse(&rt, alloc, 7, &INCOMPLETE)?;
    accept(&rt, alloc, &INCOMPLETE_KEPT)
}

// A tag that is defined twice, or used as another kind.
const TAGS: [&str; 9] = [
    "struct s { int a; }; struct @s { int a; }; int main(void) { }",
    "struct s { int a; }; enum @s { A }; int main(void) { }",
    "enum e { A }; struct @e *p; int main(void) { }",
    "struct s { struct @s { int a; } b; }; int main(void) { }",
    "struct s { int a; }; int f(int (*g)(enum @s)); int main(void) { }",
    "enum e { A }; int main(void) { return sizeof(struct @e *); }",
    "struct s *p; enum @s x; int main(void) { }",
    "enum e { A }; enum @e { A }; int main(void) { }",
    "struct s { int a; }; int main(void) { struct @s { float b; } x; return 0; }",
];

const TAGS_KEPT: [&str; 2] = [
    "struct s; struct s; struct s { int a; }; struct s x; struct s; int main(void) { }",
    "enum e { A }; enum e x; struct f { enum e y; }; int e; int f; int main(void) { }",
];

#[test]
fn tags(rt: HostRuntime) -> Result<(), Fail> {
    let alloc = rt.alloc();
    refuse(&rt, alloc, 8, &TAGS)?;
    accept(&rt, alloc, &TAGS_KEPT)
}

// The length of an array, and what arrays have and functions give.
const ARRAYS_AND_FUNCTIONS: [&str; 16] = [
    "int @a[]; int main(void) { }",
    "int @a[0]; int main(void) { }",
    "int x, @a[-1]; int main(void) { }",
    "int @a[16777217]; int main(void) { }",
    "int n; int @a[n]; int main(void) { }",
    "struct s { int a; struct { int (*@b)[]; } c; }; int main(void) { }",
    "int main(void) { return 1 + sizeof(@int [0]); }",
    "int f(int (*g)(int @a[2][])); int main(void) { }",
    "int @a[3](void); int main(void) { }",
    "int @f(void)[3]; int main(void) { }",
    "int @f(void)(void); int main(void) { }",
    "int (*@f(int a))(int b)[3]; int main(void) { }",
    "struct s { int a; }; struct s @f(void)[2]; int main(void) { }",
    "int x[4]; extern int @x[0]; int main(void) { }",
    "enum { N = 4 }; int a[N], @b[N - 4]; int main(void) { }",
    "int f(int @a[0]); int main(void) { }",
];

const ARRAYS_AND_FUNCTIONS_KEPT: [&str; 2] = [
    "enum { N = 2 }; char a[N * N], b[sizeof(a)], d[0 ? 0 : 3]; int f(int x[], int y[][2]); int main(void) { }",
    "int n = sizeof(char [16777216]); int (*f(int))(void); int (*(*g)(void))[3]; int main(void) { }",
];

#[test]
fn arrays_and_functions(rt: HostRuntime) -> Result<(), Fail> {
    let alloc = rt.alloc();
    refuse(&rt, alloc, 9, &ARRAYS_AND_FUNCTIONS)?;
    accept(&rt, alloc, &ARRAYS_AND_FUNCTIONS_KEPT)
}

// A type of more than 16,777,216 bytes.
const LARGE_TYPES: [&str; 9] = [
    "char @a[16777216][2]; int main(void) { }",
    "int x, @a[4194305]; int main(void) { }",
    "int main(void) { return 1 + sizeof(@short [8388609]); }",
    "struct s { int a; char b[16777212]; char @c; }; int main(void) { }",
    "int f(int (*@p)[5000000]); int main(void) { }",
    "struct s { char a[16777216]; }; struct s @x[2]; int main(void) { }",
    "struct s { struct { char a[16777215]; char b[1]; char @c; } d; }; int main(void) { }",
    "int @a[5000000] = 3; int main(void) { }",
    "char @main[16777216][3];",
];

const LARGE_TYPES_KEPT: [&str; 1] = [
    "int n = sizeof(char [16777216]) + sizeof(int [4194304]); struct s { char a[16777212]; int b; }; int k = sizeof(struct s); int main(void) { }",
];

#[test]
fn large_types(rt: HostRuntime) -> Result<(), Fail> {
    let alloc = rt.alloc();
    refuse(&rt, alloc, 10, &LARGE_TYPES)?;
    accept(&rt, alloc, &LARGE_TYPES_KEPT)
}

// In a block: storage words, functions, bodies of structs and enums.
const IN_BLOCKS: [&str; 12] = [
    "int main(void) { @static int x; }",
    "int main(void) { int y; @extern int x; }",
    "int main(void) { @typedef int t; }",
    "int main(void) { @int f(void); }",
    "int main(void) { struct s @{ int a; } x; }",
    "int main(void) { return sizeof(enum @{ A }); }",
    "int main(void) { while (0) { if (1) { switch (1) { case 1: ; @extern int x; } } } }",
    "int main(void) { for (@static int i = 0; i < 1; i++) ; }",
    "int main(void) { int a; a = (struct t @{ int b; } *)0 == 0; }",
    "int main(void) { const @static double x; }",
    "int main(void) { enum @{ A = y }; }",
    "int main(void) { @int x, *f(void), y[0]; }",
];

const IN_BLOCKS_KEPT: [&str; 2] = [
    "struct s { int a; }; int main(void) { int (*f)(void); struct s *p, x; inline int y; const volatile int z; f = 0; p = &x; p->a = 1; }",
    "int f(struct t { int a; } *x) { return x->a; } int g(int a[sizeof(enum { P, Q })]) { return P + Q + a[0]; } int main(void) { }",
];

#[test]
fn in_blocks(rt: HostRuntime) -> Result<(), Fail> {
    let alloc = rt.alloc();
    refuse(&rt, alloc, 12, &IN_BLOCKS)?;
    accept(&rt, alloc, &IN_BLOCKS_KEPT)
}

// An initializer that is not constant, or of another sort than its object.
const INITIALIZERS: [&str; 16] = [
    "int x; int y = @x; int main(void) { }",
    "int x = @{ 1 }; int main(void) { }",
    "int main(void) { int a[2] = @{ 1, 2 }; }",
    "int a[2] = @{ 1, 2, 3 }; int main(void) { }",
    "int f(void) = @0; int main(void) { }",
    "extern int x = @1; int main(void) { }",
    "typedef int t = @1; int main(void) { }",
    "int b; int a[2] = @{ 1, 2 + (3 * b) }; int main(void) { }",
    "int main(void) { for (int i = @{ 0 }; i < 1; i++) ; }",
    "int a[2][2] = @{ 1 }; int main(void) { }",
    "struct s { int a[2]; } x = @{ 1 }; int main(void) { }",
    "int x; int *p = @&x; int main(void) { }",
    "int x; int *p = @x; int main(void) { }",
    "int x = 1, y = @1 / 0; int main(void) { }",
    "int x = @1 << 32; int main(void) { }",
    "struct { int a; int b; } x = @{ 1, 1 % 0 }; int main(void) { }",
];

const INITIALIZERS_KEPT: [&str; 3] = [
    "int x = 1 || 1 / 0, y = 0 && 1 / 0, a[3] = { 1, 2 }, z[2] = { 3, }; struct s { char c; int *p; } v = { 7, 0 }; int main(void) { }",
    "int *p = 0; unsigned y = -1; int w = (char)300 + sizeof(w); int v = 1 ? 2 : 3 % 0; char c = 300; int main(void) { }",
    "int main(void) { int x = 3, *p = &x; return *p; }",
];

#[test]
fn initializers(rt: HostRuntime) -> Result<(), Fail> {
    let alloc = rt.alloc();
    refuse(&rt, alloc, 13, &INITIALIZERS)?;
    accept(&rt, alloc, &INITIALIZERS_KEPT)
}

// The function `main`.
const MAINS: [&str; 12] = [
    "int x;@",
    "@",
    "int @main(int a) { return 0; }",
    "void @main(void) { }",
    "int main(void);@",
    "int @main;",
    "int x, *@main(void);",
    "int (*@main)(void);",
    "char @main(int a);",
    "extern int @main;",
    "typedef int main;@",
    "int f(void) { { int main; main = 1; } return 0; }\n@",
];

const MAINS_KEPT: [&str; 4] = [
    "static int main() { return 0; }",
    "int main(void); int f(void) { return main(); } int main(void) { return f(); }",
    "struct main { int main; }; int f(int main) { return main; } long int main(void) { return 0; }",
    "enum e { A }; enum e main(void) { return A; }",
];

#[test]
fn mains(rt: HostRuntime) -> Result<(), Fail> {
    let alloc = rt.alloc();
    refuse(&rt, alloc, 14, &MAINS)?;
    accept(&rt, alloc, &MAINS_KEPT)
}

// External functions with narrow results.
const NARROW_RESULTS: [&str; 7] = [
    "char @f(void); int main(void) { }",
    "short @f(int a); int main(void) { }",
    "extern unsigned short @f(int a); int main(void) { }",
    "typedef signed char t; t @f(void); int main(void) { }",
    "int x, *f(void), g(void); char *h(void), @k(void); int main(void) { }",
    "typedef unsigned char t(void); int x; t *p, @f; int main(void) { }",
    "char @f(int a), *f(int a); int main(void) { }",
];

const NARROW_RESULTS_KEPT: [&str; 2] = [
    "char f(void) { return 1; } static short g(void); static short g(void) { return 2; } char h(void); unsigned char (*p)(void); char h(void) { return 2; } int main(void) { }",
    "char *k(void); void e(void); int i(void); unsigned u(void); enum e { A }; enum e v(void); int main(void) { }",
];

#[test]
fn narrow_results(rt: HostRuntime) -> Result<(), Fail> {
    let alloc = rt.alloc();
    refuse(&rt, alloc, 24, &NARROW_RESULTS)?;
    accept(&rt, alloc, &NARROW_RESULTS_KEPT)
}

// Values of enumerators that are not constant.
const ENUMERATORS: [&str; 8] = [
    "int x; enum { @A = x }; int main(void) { }",
    "enum { A = 1, @B = 1 / 0 }; int main(void) { }",
    "struct s { struct { enum { @A = sizeof(int) % 0 } e; } in; }; int main(void) { }",
    "enum { @A = (char *)1 }; int main(void) { }",
    "enum { @A = (int *)0 == 0 }; int main(void) { }",
    "int x; int f(enum e { A, @B = x } y); int main(void) { }",
    "int b; enum { P, @Q = P ? b : 1 }; int main(void) { }",
    "int b; enum { P, Q = P || 1, @R = Q || b }; int main(void) { }",
];

const ENUMERATORS_KEPT: [&str; 1] = [
    "enum { A = 1 << 3, B = A + sizeof(int), C = 'a', D = -1, E, F = 1 ? 2 : 1 / 0, G = (char)300, H = !A, I = 2147483647, J, }; int x[B == 12 && E == 0 ? 2 : -1]; int main(void) { }",
];

#[test]
fn enumerators(rt: HostRuntime) -> Result<(), Fail> {
    let alloc = rt.alloc();
    refuse(&rt, alloc, 27, &ENUMERATORS)?;
    accept(&rt, alloc, &ENUMERATORS_KEPT)
}

// Objects and static functions that are never defined.
const NEVER_DEFINED: [&str; 9] = [
    "extern int @x; int main(void) { }",
    "static int @f(void); int main(void) { }",
    "extern int @x, y; int y; int main(void) { }",
    "extern int x, @y; int x = 1; int main(void) { }",
    "static int @f(void); int g(void) { return f(); } int main(void) { }",
    "int @f(void); static int f(void); int main(void) { }",
    "extern int a; int a; extern char @b[2]; static void c(void); int main(void) { }",
    "static int @f(void); extern int x;",
    "extern struct { int (*a)(void); } *@x; int main(void) { return x->a == 0; }",
];

const NEVER_DEFINED_KEPT: [&str; 1] = [
    "extern int x; int x; static int f(void); static int f(void) { return 1; } extern int e(int); int e2(void); static int y; static int g(void) { return 1; } int main(void) { }",
];

#[test]
fn never_defined(rt: HostRuntime) -> Result<(), Fail> {
    let alloc = rt.alloc();
    refuse(&rt, alloc, 29, &NEVER_DEFINED)?;
    accept(&rt, alloc, &NEVER_DEFINED_KEPT)
}

// Parameters of definitions without names.
const NAMELESS_PARAMETERS: [&str; 8] = [
    "int f(@int) { return 1; } int main(void) { }",
    "int f(int a, @char *) { return a; } int main(void) { }",
    "int f(int a, @const char *, int) { return a; } int main(void) { }",
    "int f(@int (*)(void)) { return 1; } int main(void) { }",
    "int f(int (*g)(int), @int [3]) { return 1; } int main(void) { }",
    "int f(int); int f(@int) { return 1; } int main(void) { }",
    "int f(@int, int y) { return z; } int main(void) { }",
    "int main(@int) { return 0; }",
];

const NAMELESS_PARAMETERS_KEPT: [&str; 1] = [
    "int f(int, char *); int g(int (*h)(int, char *)) { return h(1, 0); } int k() { return 1; } int m(void) { return sizeof(int (*)(int)); } int main(void) { }",
];

#[test]
fn nameless_parameters(rt: HostRuntime) -> Result<(), Fail> {
    let alloc = rt.alloc();
    refuse(&rt, alloc, 30, &NAMELESS_PARAMETERS)?;
    accept(&rt, alloc, &NAMELESS_PARAMETERS_KEPT)
}
