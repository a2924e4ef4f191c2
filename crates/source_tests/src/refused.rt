//! Files that break a rule of types, or that are of no grammar.

use crate::replayed::replayed;
use std::test::Fail;
use tso_top::Status;

// A file, the rule that it breaks first and the byte of the place. The schedule is none, which nobody
// comes to see.
const TYPES: [(&str, u8, u32); 84] = [
    ("float x;", 1, 0),
    (
        "unsigned x; long long y; int main(void) { return 7; }",
        1,
        12,
    ),
    ("int main(void) { return sizeof(double); return 0; }", 1, 31),
    ("union u { int a; } x; int main(void) { return 7; }", 2, 0),
    ("int f(union u *p); int main(void) { return 7; }", 2, 6),
    ("int x = 2147483648; int main(void) { return 7; }", 3, 8),
    ("int main(void) { return -2147483648; return 0; }", 3, 25),
    ("int main(void) { return y; return 0; }", 4, 24),
    ("enum e x; int main(void) { return 7; }", 4, 5),
    ("int main(void) { f(1); return 0; }", 4, 17),
    (
        "int f(void) { return g; } int g; int main(void) { return 7; }",
        4,
        21,
    ),
    ("int x; int x; int main(void) { return 7; }", 5, 11),
    (
        "int f(int a) { int a; return 0; } int main(void) { return 7; }",
        5,
        19,
    ),
    ("void mfence(void) { } int main(void) { return 7; }", 5, 5),
    (
        "struct s { int a; int a; }; int main(void) { return 7; }",
        5,
        22,
    ),
    ("int x; extern char x; int main(void) { return 7; }", 6, 19),
    (
        "int f(int); int f(char); int main(void) { return 7; }",
        6,
        16,
    ),
    ("void x; int main(void) { return 7; }", 7, 5),
    ("struct s x; int main(void) { return 7; }", 7, 9),
    ("int x = sizeof(void); int main(void) { return 7; }", 7, 8),
    (
        "struct s { int a; }; struct s { int a; }; int main(void) { return 7; }",
        8,
        28,
    ),
    (
        "enum e { A }; struct e *p; int main(void) { return 7; }",
        8,
        21,
    ),
    ("int a[]; int main(void) { return 7; }", 9, 4),
    ("int a[0]; int main(void) { return 7; }", 9, 4),
    ("int n; int a[n]; int main(void) { return 7; }", 9, 11),
    ("int f(void)[3]; int main(void) { return 7; }", 9, 4),
    ("int a[4194305]; int main(void) { return 7; }", 10, 4),
    ("int (*p)[16777216]; int main(void) { return 7; }", 10, 6),
    (
        "struct s { int a; char c; }; struct s g, h; int main(void) { g = h; return 0; }",
        11,
        65,
    ),
    (
        "struct s { int a; char c; }; struct s g, h; int f(struct s p); int main(void) { return 7; }",
        11,
        59,
    ),
    (
        "struct s { int a; char c; }; struct s g, h; int main(void) { return g; return 0; }",
        11,
        68,
    ),
    ("int main(void) { static int x; return 0; }", 12, 17),
    ("int main(void) { typedef int t; return 0; }", 12, 17),
    ("int x; int y = x; int main(void) { return 7; }", 13, 15),
    (
        "int a[2] = { 1, 2, 3 }; int main(void) { return 7; }",
        13,
        11,
    ),
    ("extern int x = 3; int main(void) { return 7; }", 13, 15),
    ("int main(void) { int a[2] = { 1, 2 }; return 0; }", 13, 28),
    ("", 14, 0),
    ("int f(void) { return 1; }", 14, 25),
    ("void main(void) { }", 14, 5),
    ("int main(void);", 14, 15),
    (
        "struct s { int a; char c; }; struct s g, h; int main(void) { return g + 1; return 0; }",
        15,
        70,
    ),
    (
        "int main(void) { int x; x = 0; return *x; return 0; }",
        15,
        38,
    ),
    ("int main(void) { void *p; p = 0; p++; return 0; }", 15, 34),
    (
        "int main(void) { int *p; char *q; p = 0; q = 0; return p == q; return 0; }",
        15,
        57,
    ),
    ("int main(void) { 3 = 4; return 0; }", 16, 19),
    ("int main(void) { int a[2]; a = 0; return 0; }", 16, 29),
    ("int main(void) { ++3; return 0; }", 16, 17),
    ("int main(void) { int *p; p = 5; return 0; }", 17, 29),
    ("int main(void) { int x; x = &x; return 0; }", 17, 28),
    (
        "int *f(void) { return 5; } int main(void) { return 7; }",
        17,
        22,
    ),
    (
        "int main(void) { thread_create(main, 0); return 0; }",
        17,
        31,
    ),
    (
        "int f(int a) { return a; }int main(void) { f(); return 0; }",
        18,
        43,
    ),
    ("int main(void) { mfence(1); return 0; }", 18, 17),
    ("int main(void) { int x; x = 1; x(); return 0; }", 18, 31),
    (
        "int main(void) { int x; x = 1; switch (x) { case x: ; } return 0; }",
        19,
        44,
    ),
    (
        "int main(void) { switch (1) { case 1: ; case 1: ; } return 0; }",
        19,
        40,
    ),
    (
        "int main(void) { switch (1) { default: ; default: ; } return 0; }",
        19,
        41,
    ),
    (
        "int main(void) { int *p; p = 0; switch (p) { } return 0; }",
        19,
        40,
    ),
    ("int main(void) { break; return 0; }", 20, 17),
    (
        "int main(void) { switch (1) { case 1: continue; } return 0; }",
        20,
        38,
    ),
    (
        "void f(void) { return 1; } int main(void) { return 7; }",
        21,
        15,
    ),
    (
        "int f(void) { return; } int main(void) { return 7; }",
        21,
        14,
    ),
    ("int main(void) { return &3 == 0; return 0; }", 22, 24),
    (
        "void print(int);int main(void) { print; return 0; }",
        22,
        33,
    ),
    (
        "int main(void) { int x; x = sizeof(malloc); return 0; }",
        22,
        35,
    ),
    (
        "int f(void) { return 1; } int main(void) { return f() + 1; }",
        23,
        51,
    ),
    ("int main(void) { int x, y; x = y = 3; return 0; }", 23, 33),
    (
        "int main(void) { int x; x = 1; while (--x) ; return 0; }",
        23,
        38,
    ),
    (
        "int f(int a) { return a; }int main(void) { f(f(1)); return 0; }",
        23,
        46,
    ),
    ("char f(void); int main(void) { return 7; }", 24, 5),
    (
        "int main(void) { char c; c = 1; atomic_add(&c, 1); return 0; }",
        25,
        32,
    ),
    (
        "int main(void) { int *p; p = 0; atomic_add(&p, 1); return 0; }",
        25,
        32,
    ),
    (
        "struct s { int a; char c; }; struct s g, h; int main(void) { return g.b; return 0; }",
        26,
        70,
    ),
    (
        "int main(void) { int x; x = 1; return x.a; return 0; }",
        26,
        40,
    ),
    (
        "int x; enum { A = x }; int main(void) { return 7; }",
        27,
        14,
    ),
    (
        "struct s { int a; char c; }; struct s g, h; int main(void) { if (g) ; return 0; }",
        28,
        65,
    ),
    (
        "struct s { int a; char c; }; struct s g, h; int main(void) { return g ? 1 : 2; return 0; }",
        28,
        68,
    ),
    ("extern int x; int main(void) { return 7; }", 29, 11),
    ("static int f(void); int main(void) { return 7; }", 29, 11),
    ("extern int x; static int f(void);", 29, 11),
    (
        "int f(int) { return 1; } int main(void) { return 7; }",
        30,
        6,
    ),
    (
        "int f(void) { float x; return y; } int main(void) { return z; }",
        1,
        14,
    ),
    ("int x = y; float z;", 4, 8),
];

#[test]
fn files_that_break_a_type_rule(rt: HostRuntime) -> Result<(), Fail> {
    let alloc = rt.alloc();
    for (text, rule, at) in TYPES {
        let (got, printed) = replayed(alloc, text.as_bytes(), b"walk")?;
        let line = format!(in alloc; "types: rule {rule}, byte {at}\n")?;
        assert_eq!(rt; got, Status::Types { rule, at }, "{text}");
        assert_eq!(rt; got.code(), 7);
        assert!(rt; printed.as_slice() == line.as_bytes(), "{text}");
    }
    Ok(())
}

// Files that are of no grammar, with the byte of the fault.
const SYNTAX: [(&str, u32); 9] = [
    ("int x; int = 3;", 11),
    ("int main(void) { return 7; } /*", 29),
    ("int main(void) { return 7; ", 27),
    ("x", 0),
    ("int main(void) { x = 4294967296; }", 21),
    ("int main(void) { goto out; }", 17),
    ("int main(void) { return y }", 26),
    ("typedef int t; int t;", 19),
    ("float x; int int", 13),
];

#[test]
fn files_of_no_grammar(rt: HostRuntime) -> Result<(), Fail> {
    let alloc = rt.alloc();
    for (text, at) in SYNTAX {
        let (got, printed) = replayed(alloc, text.as_bytes(), b"walk")?;
        let line = format!(in alloc; "syntax: byte {at}\n")?;
        assert_eq!(rt; got, Status::Syntax { at }, "{text}");
        assert!(rt; printed.as_slice() == line.as_bytes(), "{text}");
    }
    Ok(())
}
