//! Each form of statement step by step, the values of expressions, and what whole programs return.

use crate::replayed::{AUTO, BLOCK, SEVEN, replayed};
use std::test::Fail;
use tso_top::Status;

// A file, the number of runs before the one that exits, and the lines then. Each file goes through a
// form of statement, so that the number tells each of its steps.
const STEPS: [(&str, u32, &str); 46] = [
    (SEVEN, 3, "exit 7\nend exited\n"),
    ("int main(void) { }", 3, "exit 0\nend exited\n"),
    ("int main(void) { ; }", 5, "exit 0\nend exited\n"),
    ("int main(void) { { } }", 6, "exit 0\nend exited\n"),
    (
        "int main(void) { int r; r = 5; return r; }",
        6,
        "exit 5\nend exited\n",
    ),
    (
        "int main(void) { int r = 5; return r; }",
        6,
        "exit 5\nend exited\n",
    ),
    (
        "int x; int main(void) { x = 5; return x; }",
        7,
        "exit 5\nend exited\n",
    ),
    (
        "int x; int main(void) { x; return 3; }",
        7,
        "exit 3\nend exited\n",
    ),
    (
        "int x = 1, y = 2; int main(void) { return x + y; }",
        5,
        "exit 3\nend exited\n",
    ),
    (
        "int x, y; int main(void) { return x && y; }",
        4,
        "exit 0\nend exited\n",
    ),
    (
        "int x = 1, y = 4; int main(void) { return x && y; }",
        5,
        "exit 1\nend exited\n",
    ),
    (
        "int x; int main(void) { return x || 1; }",
        4,
        "exit 1\nend exited\n",
    ),
    (
        "int x, y; int main(void) { return x ? y : 3; }",
        4,
        "exit 3\nend exited\n",
    ),
    (
        "int x = 1, y = 4; int main(void) { return x ? y : 3; }",
        5,
        "exit 4\nend exited\n",
    ),
    (
        "int x = 4; int main(void) { int *p; p = &x; return *p; }",
        7,
        "exit 4\nend exited\n",
    ),
    (
        "int main(void) { int r; r = 3; r += 2; return r; }",
        9,
        "exit 5\nend exited\n",
    ),
    (
        "int x; int main(void) { x += 2; return x; }",
        14,
        "exit 2\nend exited\n",
    ),
    (
        "int x; int main(void) { x++; return x; }",
        14,
        "exit 1\nend exited\n",
    ),
    (
        "int x; int main(void) { --x; return x; }",
        14,
        "exit -1\nend exited\n",
    ),
    (
        "int main(void) { if (1) return 3; return 4; }",
        4,
        "exit 3\nend exited\n",
    ),
    (
        "int main(void) { if (0) return 3; return 4; }",
        6,
        "exit 4\nend exited\n",
    ),
    (
        "int main(void) { if (0) return 3; else return 4; }",
        4,
        "exit 4\nend exited\n",
    ),
    (
        "int main(void) { int i; i = 0; while (i < 1) i = i + 1; return i; }",
        23,
        "exit 1\nend exited\n",
    ),
    (
        "int main(void) { do ; while (0); return 2; }",
        9,
        "exit 2\nend exited\n",
    ),
    (
        "int main(void) { for (; ; ) break; return 2; }",
        12,
        "exit 2\nend exited\n",
    ),
    (
        "int main(void) { int i; for (i = 0; i < 1; i++) continue; return i; }",
        25,
        "exit 1\nend exited\n",
    ),
    (
        "int main(void) { for (int i = 0; i < 0; ) ; return 2; }",
        16,
        "exit 2\nend exited\n",
    ),
    (
        "int main(void) { while (1) { { break; } } return 4; }",
        16,
        "exit 4\nend exited\n",
    ),
    (
        "int main(void) { switch (2) { case 1: return 1; case 2: return 5; default: return 9; } return 0; }",
        5,
        "exit 5\nend exited\n",
    ),
    (
        "int main(void) { switch (1) { case 1: ; case 2: ; } return 3; }",
        12,
        "exit 3\nend exited\n",
    ),
    (
        "int main(void) { switch (7) { case 1: return 1; } return 3; }",
        6,
        "exit 3\nend exited\n",
    ),
    (
        "int main(void) { switch (1) { default: break; } return 3; }",
        9,
        "exit 3\nend exited\n",
    ),
    (
        "int main(void) { int i; i = 1; while (i) { i = 0; switch (1) { case 1: continue; } i = 9; } return i; }",
        30,
        "exit 0\nend exited\n",
    ),
    (
        "int f(void) { return 5; } int main(void) { return f(); }",
        11,
        "exit 5\nend exited\n",
    ),
    (
        "void f(void) { } int main(void) { f(); return 2; }",
        10,
        "exit 2\nend exited\n",
    ),
    (
        "int f(int a, int b) { return a - b; } int main(void) { int r; r = f(9, 4); return r; }",
        16,
        "exit 5\nend exited\n",
    ),
    (
        "int x; int f(void) { return 5; } int main(void) { x = f(); return x; }",
        20,
        "exit 5\nend exited\n",
    ),
    (
        "int (*p)(void); int f(void) { return 5; } int main(void) { p = f; return p(); }",
        15,
        "exit 5\nend exited\n",
    ),
    (
        "int f(int n) { if (n == 0) return 0; return f(n - 1); } int main(void) { return f(1); }",
        23,
        "exit 0\nend exited\n",
    ),
    (
        "int main(void) { int v; int *p; p = &v; *p = 6; return v; }",
        12,
        "exit 6\nend exited\n",
    ),
    (
        "int main(void) { int a[2]; int b[3]; return 1; }",
        7,
        "exit 1\nend exited\n",
    ),
    (
        "int f(int a) { int *p; p = &a; return *p; } int main(void) { return f(8); }",
        18,
        "exit 8\nend exited\n",
    ),
    (
        "int main(void) { mfence(); return 1; }",
        6,
        "exit 1\nend exited\n",
    ),
    (
        "int x = 4; int main(void) { int r; r = atomic_add(&x, 3); return r; }",
        12,
        "exit 4\nend exited\n",
    ),
    (BLOCK, 12, "exit 0\nend exited\n"),
    (
        "int main(void) { exit(3); return 1; }",
        2,
        "exit 3\nend exited\n",
    ),
];

#[test]
fn statements_step_by_step(rt: HostRuntime) -> Result<(), Fail> {
    let alloc = rt.alloc();
    for (text, before, lines) in STEPS {
        let short = format!(in alloc; "hold 0 {before}\n")?;
        let (got, printed) = replayed(alloc, text.as_bytes(), short.as_bytes())?;
        assert_eq!(rt; got, Status::Done, "{text}");
        assert!(rt; printed.as_slice() == "end running\n".as_bytes(), "{text}");
        let whole = format!(in alloc; "hold 0 {before}\nrun 0\n")?;
        let (got, printed) = replayed(alloc, text.as_bytes(), whole.as_bytes())?;
        assert_eq!(rt; got, Status::Done, "{text}");
        assert!(rt; printed.as_slice() == lines.as_bytes(), "{text}");
    }
    Ok(())
}

// An expression, and its value as `main` returns it.
const VALUES: [(&str, &str); 56] = [
    ("2147483647 + 1", "-2147483648"),
    ("-2147483647 - 1", "-2147483648"),
    ("65536 * 65536", "0"),
    ("46341 * 46341", "-2147479015"),
    ("9 - 4 - 3", "2"),
    ("-7 / 2", "-3"),
    ("-7 % 2", "-1"),
    ("7 / -2", "-3"),
    ("7 % -2", "1"),
    ("4294967289u / 2", "2147483644"),
    ("-7 / 2u", "2147483644"),
    ("4294967289u % 10", "9"),
    ("1 << 31", "-2147483648"),
    ("-1 >> 31", "-1"),
    ("-8 >> 1", "-4"),
    ("4294967295u >> 31", "1"),
    ("~0", "-1"),
    ("!7 + !0", "1"),
    ("- -5", "5"),
    ("+(char)200", "-56"),
    ("(unsigned char)-1", "255"),
    ("(short)40000", "-25536"),
    ("(unsigned short)-1", "65535"),
    ("(char)(unsigned char)200", "-56"),
    ("(int)4294967295u", "-1"),
    ("-1 < 0", "1"),
    ("-1 < 0u", "0"),
    ("1 - 2u > 0", "1"),
    ("0x80000000 > 0", "1"),
    ("0x7fffffff < -1", "0"),
    ("0x7fffffff < -1u", "1"),
    ("(unsigned char)255 > -1", "1"),
    ("5 == 5 != 0", "1"),
    ("3 < 2 < 1", "1"),
    ("5 & 6 | 8 ^ 1", "13"),
    ("1 + 2 * 3 - 8 / 4", "5"),
    ("16 >> 2 << 1", "8"),
    ("'a'", "97"),
    ("'\\377'", "-1"),
    ("'\\x80'", "-128"),
    ("'\\n' * 100 + '\\0'", "1000"),
    ("0x10 + 010 + 10", "34"),
    ("0xFFFFFFFF", "-1"),
    ("0 && 1 / 0", "0"),
    ("1 || 1 / 0", "1"),
    ("7 && 9", "1"),
    ("0 || 0", "0"),
    ("1 ? 2 : 1 / 0", "2"),
    ("0 ? 1 / 0 : 3", "3"),
    ("1 ? -1 : 0u", "-1"),
    ("(1 ? -1 : 0u) > 0", "1"),
    (
        "sizeof(char) + sizeof(short) * 10 + sizeof(long) * 100 + sizeof(int *) * 1000",
        "4421",
    ),
    ("sizeof 'a'", "4"),
    ("sizeof(char [7])", "7"),
    ("sizeof(int [2][3])", "24"),
    ("sizeof(int) - 5 > 0", "1"),
];

#[test]
fn values_of_expressions(rt: HostRuntime) -> Result<(), Fail> {
    let alloc = rt.alloc();
    for (expression, value) in VALUES {
        let text = format!(in alloc; "int main(void) {{ return {expression}; }}")?;
        let (got, printed) = replayed(alloc, text.as_bytes(), AUTO.as_bytes())?;
        let lines = format!(in alloc; "exit {value}\nend exited\n")?;
        assert_eq!(rt; got, Status::Done, "{expression}");
        assert!(rt; printed.as_slice() == lines.as_bytes(), "{expression}");
    }
    Ok(())
}

// A file, and what its `main` returns.
const EXITS: [(&str, &str); 60] = [
    (
        "int main(void) { int r; r = 0; if (1) if (0) r = 1; else r = 2; return r; }",
        "2",
    ),
    (
        "struct s { char c; int n; }; int main(void) { return sizeof(struct s); }",
        "8",
    ),
    (
        "typedef int t; int main(void) { t x; x = 1; return (t) - 1; }",
        "-1",
    ),
    (
        "int main(void) { char a[65536]; a[0] = 1; return a[0]; }",
        "1",
    ),
    ("char c; int main(void) { c = 200; return c; }", "-56"),
    (
        "unsigned char c; int main(void) { c = 200; return c; }",
        "200",
    ),
    ("int main(void) { short s; s = 40000; return s; }", "-25536"),
    (
        "int main(void) { unsigned short s; s = 70000; return s; }",
        "4464",
    ),
    (
        "int main(void) { char c; c = 100; c += 100; return c; }",
        "-56",
    ),
    (
        "int main(void) { unsigned char c; c = 250; c += 10; return c; }",
        "4",
    ),
    ("char c = 127; int main(void) { c++; return c; }", "-128"),
    (
        "unsigned short s; int main(void) { --s; return s; }",
        "65535",
    ),
    (
        "int a[3] = { 1, 2 }; int main(void) { return a[0] * 100 + a[1] * 10 + a[2]; }",
        "120",
    ),
    (
        "struct { char c; short h; int n; } g = { 1, 2, 3 }; int main(void) { return g.c + g.h + g.n + sizeof(g); }",
        "14",
    ),
    (
        "struct { char c; short h; int n; } g = { 1, 2, 3 }; int main(void) { char *p; p = (char *)&g; return p[0] * 100 + p[2] * 10 + p[4]; }",
        "123",
    ),
    (
        "int w = 0x7f000001; int main(void) { char *p; p = (char *)&w; return p[0] + p[3] * 2; }",
        "255",
    ),
    (
        "int a[4]; int main(void) { int *p; p = &a[3]; return p - a; }",
        "3",
    ),
    (
        "int a[4]; int main(void) { int *p; p = &a[3]; return a - p; }",
        "-3",
    ),
    ("int a[2]; int main(void) { return &a[1] > &a[0]; }", "1"),
    (
        "int a[2][3]; int main(void) { int *p; a[1][2] = 5; p = a[0]; return p[5]; }",
        "5",
    ),
    (
        "int main(void) { int a[5]; int i; int s; for (i = 0; i < 5; i++) a[i] = i * i; s = 0; while (i > 0) { i--; s += a[i]; } return s; }",
        "30",
    ),
    (
        "int main(void) { int a[3]; int *p; p = a; *p = 1; p++; *p = 2; p += 1; *p = 4; p -= 2; return p[0] + p[1] * 10 + p[2] * 100; }",
        "421",
    ),
    (
        "int a[3] = { 1, 2, 3 }; int main(void) { int *p; p = a + 2; return p[-1] * 10 + *p; }",
        "23",
    ),
    (
        "struct q { int a[2]; char n; }; int main(void) { struct q s; struct q *p; p = &s; p->a[1] = 7; s.n = 1; return (*p).a[1] * 10 + p->n; }",
        "71",
    ),
    (
        "struct { char c; struct { int x; int y; } in; } t[2]; int main(void) { t[1].in.y = 6; t[0].in.y = 1; return t[1].in.y * 10 + sizeof(t); }",
        "84",
    ),
    (
        "enum color { RED, GREEN = 4, BLUE }; int main(void) { return GREEN * 10 + BLUE; }",
        "45",
    ),
    (
        "int x = 1; int main(void) { int r; r = x; { int x; x = 5; r = r * 10 + x; } return r * 10 + x; }",
        "151",
    ),
    (
        "int main(void) { int *p; { int v; v = 4; p = &v; } return *p; }",
        "4",
    ),
    (
        "int f(int a[3]) { return sizeof(a); } int a[3]; int main(void) { return sizeof(a); }",
        "12",
    ),
    (
        "int f(int a[3]) { return sizeof(a); } int a[3]; int main(void) { return f(a); }",
        "4",
    ),
    (
        "int f(char c) { return c; } int main(void) { return f(200); }",
        "-56",
    ),
    (
        "unsigned char f(void) { return 300; } int main(void) { return f(); }",
        "44",
    ),
    (
        "int f(int n) { int r; if (n == 0) return 1; r = f(n - 1); return n * r; } int main(void) { return f(5); }",
        "120",
    ),
    (
        "int f(int n) { int a; int b; if (n < 2) return n; a = f(n - 1); b = f(n - 2); return a + b; } int main(void) { return f(10); }",
        "55",
    ),
    (
        "int f(int a) { return a; } int g(int a) { return a * 2; } int main(void) { int (*p[2])(int); p[0] = f; p[1] = g; return p[1](3); }",
        "6",
    ),
    (
        "int f(int a) { return a + 1; } int h(int (*p)(int), int a) { int r; r = p(a); return r * 10; } int main(void) { return h(f, 4); }",
        "50",
    ),
    (
        "int main(void) { int *p; p = 0; return p == 0 ? 8 : 9; }",
        "8",
    ),
    (
        "int main(void) { void *v; int x; x = 3; v = &x; return *(int *)v; }",
        "3",
    ),
    ("int x; int main(void) { return (int)&x; }", "536870912"),
    (
        "char c; short s; int main(void) { return (int)&s; }",
        "536870914",
    ),
    (
        "void f(void) { } int main(void) { return (int)main; }",
        "134217729",
    ),
    ("int main(void) { int v; return (int)&v; }", "-1879048192"),
    (
        "int main(void) { char a[17]; int v; return (int)&v; }",
        "-1879048160",
    ),
    (
        "int main(void) { char *p; p = malloc(1); return (int)p; }",
        "805306368",
    ),
    (
        "int main(void) { int r; r = 0; for (int i = 0, j = 9; i < j; i += 2) r++; return r; }",
        "5",
    ),
    (
        "int main(void) { int i; int s; s = 0; for (i = 0; i < 9; i++) { if (i == 3) continue; if (i == 6) break; s = s * 10 + i; } return s; }",
        "1245",
    ),
    (
        "int main(void) { int i; i = 0; do { i++; if (i == 2) continue; } while (i < 5); return i; }",
        "5",
    ),
    (
        "int main(void) { int r; r = 0; switch (3) { case 1: r = 1; case 3: r += 10; default: r += 100; break; case 4: r = 9; } return r; }",
        "110",
    ),
    (
        "unsigned x = 4294967295u; int main(void) { switch (x) { case -1: return 4; default: return 5; } }",
        "4",
    ),
    (
        "char c = -56; int main(void) { switch (c) { case 200: return 4; case -56: return 5; } return 6; }",
        "5",
    ),
    (
        "int x = 1; int main(void) { x <<= 4; x |= 3; x ^= 1; x &= 30; x *= 5; x -= 2; x /= 3; x %= 10; x >>= 1; return x; }",
        "4",
    ),
    (
        "int f(int r) { r = r + 1; r = r + 1; r = r + 1; r = r + 1; r = r + 1; r = r + 1; r = r + 1; r = r + 1; r = r + 1; r = r + 1; r = r + 1; r = r + 1; r = r + 1; r = r + 1; r = r + 1; r = r + 1; r = r + 1; r = r + 1; r = r + 1; r = r + 1; r = r + 1; r = r + 1; r = r + 1; r = r + 1; r = r + 1; r = r + 1; r = r + 1; r = r + 1; r = r + 1; r = r + 1; r = r + 1; r = r + 1; r = r + 1; r = r + 1; r = r + 1; r = r + 1; r = r + 1; r = r + 1; r = r + 1; r = r + 1; return r; } int main(void) { int x; x = f(1); return x; }",
        "41",
    ),
    (
        "int f(int a, int b) { return (a ^ b) * (a ^ b); } int main(void) { int r; r = f(5, 3); return r; }",
        "36",
    ),
    (
        "int x; int main(void) { int a; int b; x = 3; a = x; b = x; return a + b; }",
        "6",
    ),
    ("int main(void) { int a; a = 6; return a * 7; }", "42"),
    ("int main(void) { int r; int s; r = s; return 3; }", "3"),
    (
        "int f(int a) { return 2; } int main(void) { int r; int s; s = f(r); return s; }",
        "2",
    ),
    (
        "int f(void) { } int main(void) { int r; r = f(); return 3; }",
        "3",
    ),
    (
        "static int static_x; extern int static_x; int main(void) { const volatile int v = 3; static_x = v; return static_x; }",
        "3",
    ),
    (
        "static inline int f(void); static inline int f(void) { return 4; } int main(void) { return f(); }",
        "4",
    ),
];

#[test]
fn what_programs_return(rt: HostRuntime) -> Result<(), Fail> {
    let alloc = rt.alloc();
    for (text, value) in EXITS {
        let (got, printed) = replayed(alloc, text.as_bytes(), AUTO.as_bytes())?;
        let lines = format!(in alloc; "exit {value}\nend exited\n")?;
        assert_eq!(rt; got, Status::Done, "{text}");
        assert!(rt; printed.as_slice() == lines.as_bytes(), "{text}");
    }
    Ok(())
}
