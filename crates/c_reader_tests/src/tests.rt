//! Small files, read or refused at their exact places.
ghost use Rattle.std.specs.Prelude.{◌≤◌, length};

use c_reader::{ReadFileRefusal, read_file};
use c_tree::print_file;
use std::alloc::Global;
use std::process::Abort;
use std::test::Fail;

const ACCEPTED: [&[u8]; 67] = [
    b"int x;",
    b"int main(void) { return 7; }",
    b"extern int a, *b, c[3];",
    b"static const volatile unsigned long int x;",
    b"int long unsigned long x;",
    b"double long d;",
    b"signed char short_name;",
    b"struct s { int a; char *b, c[2]; } v;",
    b"struct s;",
    b"union u { struct { int x; } inner; } *p;",
    b"struct { int x; };",
    b"enum e { A, B = 2, C, } z;",
    b"enum { A = 1 ? 2 : 3 };",
    b"enum e *p;",
    b"int f();",
    b"int f(void);",
    b"int f(int a, const char *restrict b, int c[], int (*d)(int));",
    b"int (*f(int a))[3];",
    b"int (f)(void);",
    b"int *(*(*p)[2])(int *(void));",
    b"inline static int f(void) { return 0; }",
    b"int *f(void) { ; }",
    b"int **const *f(int a) { }",
    b"typedef int t; int f(t), g(t x), h(t (x));",
    b"typedef int t; t *t_pointer;",
    b"typedef int a, *b; a x; b y;",
    b"int f(void) { typedef int t; t x; } t y;",
    b"typedef int t; struct t { int t_member; } ; struct t x;",
    b"typedef int t; int f(void) { struct t *p; return p->t + p[0].t; }",
    b"int x = 1, y = { 1, 2, }, z[] = { 3 };",
    b"int x = a = b;",
    b"int f(void) { a = b = c += d; }",
    b"int f(void) { a ? b : c ? d : e; }",
    b"int f(void) { a ? b = 1 : d; }",
    b"int f(void) { a || b && c | d ^ e & f == g < h << i + j * k; }",
    b"int f(void) { -a * +b / ~c % !d - - e; }",
    b"int f(void) { *p++ = &q[1].r->s; }",
    b"int f(void) { ++*p; --a[0]; a++ + ++b; }",
    b"int f(void) { sizeof a; sizeof (a); sizeof (int); sizeof (int *[3]); sizeof sizeof a; }",
    b"int f(void) { sizeof (int) + 1; sizeof (a)[0]; (sizeof a)[0]; }",
    b"int f(void) { (int) a; (int) (char *) a; (int (*)(void)) a; (a)(b); -(int) a; }",
    b"typedef int t; int f(void) { (t) a; (t) * a; sizeof (t); }",
    b"int f(void) { (a) * b; (a) - b; (a) & b; }",
    b"int f(void) { g(); g(a); g(a, b = c, (d)); }",
    b"int f(void) { if (a) b; if (a) b; else c; if (a) if (b) c; else d; }",
    b"int f(void) { if (a) { } else if (b) ; else { } }",
    b"int f(void) { while (a) b; do c; while (d); do { } while (e); }",
    b"int f(void) { for (;;) ; for (a; b; c) d; for (int i = 0; i < 3; i++) { } }",
    b"typedef int t; int f(void) { for (t i = 0, *j;;) ; }",
    b"int f(void) { switch (a) { } switch (a) { case 1: } switch (a) { default: b; } }",
    b"int f(void) { switch (a) { case 1: case 2: b; int c; break; default: case 3: { } continue; } }",
    b"int f(void) { switch (a) { case b ? 1 : 2: ; } }",
    b"int f(void) { return; return a; return (a); }",
    b"int f(void) { int a; a; int b = 1; { int c; } struct s { int x; } d; }",
    b"int x = 0, y = 07, z = 0x1fU, w = 1ul, v = 'a', u = '\\n', t = '\\377', s = '\\x41';",
    b"/* a */ int // b\nx;",
    b"# 1 \"stack.c\"\nint x;",
    b"int(*(x));",
    b"int f(int (void));",
    b"int f(int (x));",
    b"int f(int (*x)(void), int *(y));",
    b"int f(int (*)(int (*)(void)), int (*[3])(void), int *(*)[]);",
    b"int a[sizeof (int)], b[2 * 3][4];",
    b"int f(void) { (struct s *) a; (enum e) b; (const int) c; sizeof (struct s { int x; }); }",
    b"int f(void) { int x, y; x = y; } int g(void) { }",
    b"struct s { struct s *next; int (*call)(struct s *, int); const int x; };",
    b"int f(volatile int x) { x; }",
];

// The files, and the byte of the syntax fault in each.
const REFUSED: [(&[u8], u32); 82] = [
    (b"int", 3),
    (b"int x", 5),
    (b"int x = 3", 9),
    (b"int x; int = 3;", 11),
    (b"int main(void) { return 7;", 26),
    (b"int main(void) { return 7; ", 27),
    (b"int main(void) { return 7; } /*", 29),
    (b"x;", 0),
    (b"int x y;", 6),
    (b"int int x;", 4),
    (b"char unsigned signed x;", 14),
    (b"long long long x;", 10),
    (b"struct s { } v;", 11),
    (b"struct s { int x } v;", 17),
    (b"struct s { int; } v;", 14),
    (b"struct s { static int x; };", 11),
    (b"enum e { };", 9),
    (b"enum e { A B };", 11),
    (b"enum { A = b = 1 };", 13),
    (b"struct;", 6),
    (b"extern static int x;", 7),
    (b"typedef int t; static t typedef u;", 24),
    (b"typedef int f(void) { }", 20),
    (b"int f(void) int x;", 12),
    (b"int f(void) { } ;", 16),
    (b"int x { }", 6),
    (b"int *x[3] { }", 10),
    (b"int (f)(void) { }", 14),
    (b"int (*f)(void) { }", 15),
    (b"int x, f(void) { }", 15),
    (b"int f(int) { } int f(int, void x;", 32),
    (b"int f(static int x);", 6),
    (b"int f(int x,);", 12),
    (b"int f(int x y);", 12),
    (b"int f(int ();", 12),
    (b"int x[a = 1];", 8),
    (b"int x[1;", 7),
    (b"int x = { };", 10),
    (b"int x = { { 1 } };", 10),
    (b"int x = 1, ;", 11),
    (b"int x = ;", 8),
    (b"int f(void) { a b; }", 16),
    (b"int f(void) { (a; }", 16),
    (b"int f(void) { a[]; }", 16),
    (b"int f(void) { a.1; }", 15),
    (b"int f(void) { a + b = c; }", 20),
    (b"int f(void) { (int) a = b; }", 22),
    (b"int f(void) { a ? b : c = d; }", 24),
    (b"int f(void) { g(a, ); }", 19),
    (b"int f(void) { sizeof (int) a; }", 27),
    (b"int f(void) { (int a; }", 19),
    (b"int f(void) { ((int)) a; }", 20),
    (b"typedef int t; int f(void) { t; } int t;", 38),
    (b"typedef int t; int f(void) { a = t; }", 33),
    (b"typedef int t; int f(void) { int t; }", 33),
    (b"typedef int t; t t;", 17),
    (b"int f(void) { else a; }", 14),
    (b"int f(void) { if (a) int b; }", 21),
    (b"int f(void) { if (a) b else c; }", 23),
    (b"int f(void) { do a while (b); }", 19),
    (b"int f(void) { for (int;;) ; }", 22),
    (b"int f(void) { for (int i; ) ; }", 26),
    (b"int f(void) { switch (a) { b; } }", 27),
    (b"int f(void) { case 1: a; }", 14),
    (b"int f(void) { switch (a) { case 1 a; } }", 34),
    (b"int f(void) { switch (a) { case 1: { case 2: } } }", 37),
    (b"int f(void) { switch (a) { default 1: } }", 35),
    (b"int f(void) { goto a; }", 14),
    (b"int f(void) { a: b; }", 15),
    (b"int f(void) { int g(void) { } }", 26),
    (b"int x = 1.5;", 8),
    (b"int x = 4294967296;", 8),
    (b"int x = 1 @ 2;", 10),
    (b"int x; /* open", 7),
    (b"int x; #define", 7),
    (b"auto int x;", 0),
    (b"int f(int, ...);", 11),
    (b"int * const * restrict 1;", 23),
    (b"int ((x);", 8),
    (b"int f(int (*)(x));", 14),
    (b"int f(int x[) ;", 12),
    (b"}", 0),
];

fn expect_refusal(
    rt: &impl Abort,
    alloc: Global,
    file: &[u8],
    refusal: ReadFileRefusal,
) -> Result<(), Fail> {
    assert!(rt; file.len() <= 4_194_304);
    match read_file(alloc, file) {
        Ok(_) => panic!(rt; "read: {file:?}"),
        Err(got) => assert_eq!(rt; got, refusal, "{file:?}"),
    }
    Ok(())
}

fn expect_file(rt: &impl Abort, alloc: Global, file: &[u8]) -> Result<(), Fail> {
    assert!(rt; file.len() <= 4_194_304);
    match read_file(alloc, file) {
        Ok(_) => Ok(()),
        Err(got) => panic!(rt; "{got:?}: {file:?}"),
    }
}

#[test]
fn files(rt: HostRuntime) -> Result<(), Fail> {
    let alloc = rt.alloc();
    for file in &ACCEPTED {
        expect_file(&rt, alloc, *file)?;
    }
    Ok(())
}

#[test]
fn syntax_faults(rt: HostRuntime) -> Result<(), Fail> {
    let alloc = rt.alloc();
    for (file, at) in &REFUSED {
        expect_refusal(&rt, alloc, *file, ReadFileRefusal::Syntax { at: *at })?;
    }
    Ok(())
}

// A file that is cut is refused at its end, or at its last word where that is another word yet.
#[test]
fn prefixes(rt: HostRuntime) -> Result<(), Fail> {
    let alloc = rt.alloc();
    let file = b"int main(void) { return 7; }";
    expect_file(&rt, alloc, b"")?;
    for end in 1..28 {
        let at = match end {
            1..=2 => 0,
            10..=12 => 9,
            _ => end as u32,
        };
        expect_refusal(&rt, alloc, &file[..end], ReadFileRefusal::Syntax { at })?;
    }
    Ok(())
}

// A file with a piece of it many times: what stands before, the piece that opens, what stands in
// the middle, the piece that closes, what stands behind. Then how often the pieces may stand, and
// the byte of the token that nests too deep with one more of each.
const DEEP: [([&[u8]; 5], u32, u32); 16] = [
    (
        [b"int main(void) { return ", b"(", b"7", b")", b"; }"],
        198,
        222,
    ),
    ([b"int f(void) ", b"{", b"", b"}", b""], 200, 212),
    ([b"int x = ", b"- ", b"1", b"", b";"], 200, 408),
    ([b"int ", b"(", b"x", b")", b";"], 200, 204),
    ([b"int x = sizeof (int ", b"*", b"", b"", b");"], 199, 219),
    ([b"int x = sizeof (int ", b"(", b"*", b")", b");"], 198, 219),
    ([b"", b"struct {", b"int x;", b"} x;", b""], 200, 1607),
    ([b"int x = a", b"()", b"", b"", b";"], 200, 409),
    ([b"int x = ", b"1 ? ", b"1", b" : 1", b";"], 200, 810),
    ([b"int x = ", b"a = ", b"1", b"", b";"], 200, 810),
    ([b"int x = ", b"(int) ", b"a", b"", b";"], 200, 1208),
    ([b"int x = 1", b"+ 1", b"", b"", b";"], 200, 609),
    (
        [b"int f(void) { ", b"if (1) ; else ", b";", b"", b" }"],
        198,
        2793,
    ),
    (
        [b"int f(void) { ", b"do ", b";", b" while (1);", b" }"],
        198,
        611,
    ),
    (
        [
            b"int f(void) { ",
            b"switch (1) { case 1: ",
            b";",
            b"}",
            b" }",
        ],
        198,
        4193,
    ),
    ([b"int f", b"(int (*)", b"(void)", b")", b";"], 198, 1802),
];

fn nested(alloc: Global, parts: &[&[u8]; 5], count: u32) -> Result<Vec<u8>, Fail> {
    let [before, opening, middle, closing, after] = parts;
    let mut file = Vec::from_slice(alloc, *before)?;
    for _ in 0..count {
        file.extend_from_slice(*opening)?;
    }
    file.extend_from_slice(*middle)?;
    for _ in 0..count {
        file.extend_from_slice(*closing)?;
    }
    file.extend_from_slice(*after)?;
    Ok(file)
}

#[test]
fn depths(rt: HostRuntime) -> Result<(), Fail> {
    let alloc = rt.alloc();
    for (parts, most, at) in &DEEP {
        let file = nested(alloc, parts, *most)?;
        expect_file(&rt, alloc, &file)?;
        assert!(rt; *most < 1000);
        let file = nested(alloc, parts, *most + 1)?;
        expect_refusal(&rt, alloc, &file, ReadFileRefusal::TooDeep { at: *at })?;
    }
    Ok(())
}

// Files, and the texts of their trees.
const PRINTED: [(&[u8], &[u8]); 5] = [
    (
        b"int main(void) { return 7; }",
        b"int main ( void ) {\nreturn 7 ;\n}\n",
    ),
    (
        b"int x = a - b - c, y = a - (b - c);",
        b"int x = a - b - c , y = a - ( b - c ) ;\n",
    ),
    (
        b"typedef int t; int x = sizeof (t) * -(t) (y);",
        b"typedef int t ;\nint x = sizeof ( t ) * - ( t ) y ;\n",
    ),
    (
        b"int f(void) { switch (a) { case 1: case 2: b; default: ; } }",
        b"int f ( void ) {\nswitch ( a ) {\ncase 1 :\ncase 2 :\nb ;\ndefault :\n;\n}\n}\n",
    ),
    (
        b"int *(*p)[3], q(int (*)(void), char *);",
        b"int * ( * p ) [ 3 ] , q ( int ( * ) ( void ) , char * ) ;\n",
    ),
];

// A stack that two threads share.
const STACK: &[u8] =
    b"# 1 \"stack.c\"\ntypedef struct node { int value; struct node *next; } node;\nextern void print(int);\nstatic node *head;\nstatic int done;\nstatic void push(int v) {\n  node *n, *old, *seen;\n  n = malloc(sizeof(node));\n  n->value = v;\n  do { old = head; n->next = old; seen = atomic_cas(&head, old, n); } while (seen != old);\n}\nstatic int pop(void) {\n  node *old, *next, *seen;\n  int v;\n  do {\n    old = head;\n    if (old == 0) return -1;\n    next = old->next;\n    seen = atomic_cas(&head, old, next);\n  } while (seen != old);\n  v = old->value;\n  free(old);\n  return v;\n}\nstatic void worker(void *arg) { push(2); atomic_add(&done, 1); }\nint main(void) {\n  int a, b;\n  thread_create(worker, 0);\n  push(1);\n  while (done == 0) ;\n  a = pop();\n  push(a + 3);   /* takes the place that pop freed */\n  b = pop();\n  print(a);\n  print(b);\n  return a + b;\n}\n";

fn printed(rt: &impl Abort, alloc: Global, file: &[u8]) -> Result<Vec<u8>, Fail> {
    assert!(rt; file.len() <= 4_194_304);
    let Ok(tree) = read_file(alloc, file) else {
        panic!(rt; "refused: {file:?}");
    };
    Ok(print_file(alloc, &tree)?)
}

#[test]
fn texts(rt: HostRuntime) -> Result<(), Fail> {
    let alloc = rt.alloc();
    for (file, text) in &PRINTED {
        let got = printed(&rt, alloc, *file)?;
        assert_eq!(rt; got.as_slice(), *text, "{file:?}");
    }
    Ok(())
}

// The text of a tree reads as a tree with that text.
#[test]
fn read_again(rt: HostRuntime) -> Result<(), Fail> {
    let alloc = rt.alloc();
    let text = printed(&rt, alloc, STACK)?;
    let again = printed(&rt, alloc, &text)?;
    assert!(rt; text.len() > 800);
    assert_eq!(rt; again.as_slice(), text.as_slice());
    Ok(())
}
