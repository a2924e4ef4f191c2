//! Files at each limit of what is counted, and one above. An `@` stands before the byte at which a file
//! passes a count; it is no byte of the file.

use crate::answers::{accept, exceed, refuse};
use std::alloc::{AllocError, Global};
use std::test::Fail;

/// A text with a piece of it so many times.
fn repeated(
    alloc: Global,
    before: &str,
    piece: &str,
    times: u32,
    behind: &str,
) -> Result<String, AllocError> {
    let mut text = String::from_str(alloc, before)?;
    for _ in 0..times {
        text.push_str(piece)?;
    }
    text.push_str(behind)?;
    Ok(text)
}

/// A text with numbered pieces: each number from 0 on stands between the two parts of its piece.
fn numbered(
    alloc: Global,
    before: &str,
    piece: (&str, &str),
    times: u32,
    behind: &str,
) -> Result<String, AllocError> {
    let mut text = String::from_str(alloc, before)?;
    let (opening, closing) = piece;
    for n in 0..times {
        let digits = format!(in alloc; "{n}")?;
        text.push_str(opening)?;
        text.push_str(&digits)?;
        text.push_str(closing)?;
    }
    text.push_str(behind)?;
    Ok(text)
}

#[test]
fn functions(rt: HostRuntime) -> Result<(), Fail> {
    let alloc = rt.alloc();
    let piece = ("void f", "(void) { }\n");
    let most = numbered(alloc, "", piece, 4_095, "int main(void) { }")?;
    accept(&rt, alloc, &[most.as_str()])?;
    let more = numbered(alloc, "", piece, 4_096, "int main(void) { }@")?;
    exceed(&rt, alloc, 1, &[more.as_str()])
}

#[test]
fn parameters(rt: HostRuntime) -> Result<(), Fail> {
    let alloc = rt.alloc();
    let main = "int a) { } int main(void) { }";
    let most = numbered(alloc, "void f(", ("int a", ", "), 63, main)?;
    accept(&rt, alloc, &[most.as_str()])?;
    let more = numbered(alloc, "void @f(", ("int a", ", "), 64, main)?;
    exceed(&rt, alloc, 2, &[more.as_str()])
}

#[test]
fn parameters_of_externals(rt: HostRuntime) -> Result<(), Fail> {
    let alloc = rt.alloc();
    let main = "char *); int main(void) { }";
    let most = repeated(alloc, "int x, e(", "int, ", 63, main)?;
    accept(&rt, alloc, &[most.as_str()])?;
    let more = repeated(alloc, "int x, @e(", "int, ", 64, main)?;
    exceed(&rt, alloc, 2, &[more.as_str()])?;
    // The type of a pointer may have more.
    let pointer = repeated(alloc, "int x, (*e)(", "int, ", 64, main)?;
    accept(&rt, alloc, &[pointer.as_str()])
}

const BYTES: [&str; 5] = [
    "int main(void) { char a[65536]; }",
    "int f(char a) { char b[65527]; short c; char d, e; int g[1]; } int main(void) { }",
    "int f(char a[70000]) { char b[65532]; } int main(void) { }",
    "int main(void) { { char a[40000]; } { char b[25536]; } }",
    "int f(char a) { char b[65530]; { short c; } for (char d; ; ) { char e, g; } } int main(void) { }",
];

const BYTES_PASSED: [&str; 6] = [
    "int @main(void) { char a[65537]; }",
    "int @f(char a); int g(void) { char b[65537]; } int f(char a) { char b[65536]; } int main(void) { }",
    "int @f(char a[70000]) { char b[65533]; } int main(void) { }",
    "int @main(void) { { char a[40000]; } { char b[25537]; } }",
    "int @f(char a) { char b[65531]; { short c; } for (char d; ; ) { char e, g; } } int main(void) { }",
    "int @f(void) { int a[2000][1000]; } char b[16777216], c; int main(void) { }",
];

#[test]
fn bytes(rt: HostRuntime) -> Result<(), Fail> {
    let alloc = rt.alloc();
    accept(&rt, alloc, &BYTES)?;
    exceed(&rt, alloc, 3, &BYTES_PASSED)
}

#[test]
fn nodes(rt: HostRuntime) -> Result<(), Fail> {
    let alloc = rt.alloc();
    let most = repeated(alloc, "int main(void) { ", ";", 7_999, " }")?;
    accept(&rt, alloc, &[most.as_str()])?;
    let more = repeated(alloc, "int @main(void) { ", ";", 8_000, " }")?;
    exceed(&rt, alloc, 4, &[more.as_str()])
}

/// The parameter, the block, the local, the three of its length, the loop, the two of its condition, its
/// empty body, the `return`, the cast and the name make 13. Parentheses and types are none.
#[test]
fn nodes_of_each_kind(rt: HostRuntime) -> Result<(), Fail> {
    let alloc = rt.alloc();
    let most = "int main(void); int f(int *p) { int a[1 + 2]; for (; *p; ) ; return (int)((p)); ";
    let most = repeated(alloc, most, ";", 7_987, "} int main(void) { }")?;
    accept(&rt, alloc, &[most.as_str()])?;
    let more = "int main(void); int @f(int *p) { int a[1 + 2]; for (; *p; ) ; return (int)((p)); ";
    let more = repeated(alloc, more, ";", 7_988, "} int main(void) { }")?;
    exceed(&rt, alloc, 4, &[more.as_str()])
}

#[test]
fn labels(rt: HostRuntime) -> Result<(), Fail> {
    let alloc = rt.alloc();
    let most = "int main(void) { switch (1) { default: switch (2) { case 1: ; } ";
    let most = numbered(alloc, most, ("case ", ": "), 1_023, "; } }")?;
    accept(&rt, alloc, &[most.as_str()])?;
    let more = "int @main(void) { switch (1) { default: switch (2) { case 1: ; } ";
    let more = numbered(alloc, more, ("case ", ": "), 1_024, "; } }")?;
    exceed(&rt, alloc, 5, &[more.as_str()])
}

/// Ten functions with 8,000 nodes each, of which the last is `main`.
fn full(alloc: Global, behind: &str) -> Result<String, AllocError> {
    let filled = repeated(alloc, "(void) { ", ";", 7_999, " }\n")?;
    let mut text = numbered(alloc, "", ("int f", &filled), 9, "int main")?;
    text.push_str(&filled)?;
    text.push_str(behind)?;
    Ok(text)
}

#[test]
fn nodes_of_the_file(rt: HostRuntime) -> Result<(), Fail> {
    let alloc = rt.alloc();
    let most = full(alloc, "")?;
    accept(&rt, alloc, &[most.as_str()])
}

#[test]
fn one_node_more(rt: HostRuntime) -> Result<(), Fail> {
    let alloc = rt.alloc();
    let more = full(alloc, "int x = 1;@")?;
    exceed(&rt, alloc, 6, &[more.as_str()])
}

const GLOBAL_BYTES: [&str; 2] = [
    "char a[16777216]; int main(void) { char b[3]; }",
    "extern int a[2]; char b; int c; int main(void) { } char d[16777203]; int a[2];",
];

const GLOBAL_BYTES_PASSED: [&str; 3] = [
    "char a[16777216], b; int main(void) { }@",
    "extern int a[2]; char b; int c; int main(void) { } char d[16777204]; int a[2];@",
    "int main(void) { } struct s { char a[16777213]; } x, y; extern char z; char z;\n@",
];

#[test]
fn bytes_of_objects(rt: HostRuntime) -> Result<(), Fail> {
    let alloc = rt.alloc();
    accept(&rt, alloc, &GLOBAL_BYTES)?;
    exceed(&rt, alloc, 7, &GLOBAL_BYTES_PASSED)
}

/// What a function has too many of comes before what the file has, and a rule before a count.
#[test]
fn the_first_count(rt: HostRuntime) -> Result<(), Fail> {
    let alloc = rt.alloc();
    let parameters = "char a) { char b[65536]; } char g[16777216], h; int main(void) { }";
    let wide = numbered(alloc, "void @f(", ("int a", ", "), 64, parameters)?;
    exceed(&rt, alloc, 2, &[wide.as_str()])?;
    let main = "int b) { } int g(void) { char a[65537]; } int main(void) { }";
    let later = numbered(alloc, "int @g(void); void f(", ("int a", ", "), 64, main)?;
    exceed(&rt, alloc, 3, &[later.as_str()])?;
    let faulty = numbered(
        alloc,
        "void f(",
        ("int a", ", "),
        64,
        "int b) { } int x = @y;",
    )?;
    refuse(&rt, alloc, 4, &[faulty.as_str()])
}
