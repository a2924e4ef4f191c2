//! Each count, the depth and the length of a file at its limit, and one above.

use crate::replayed::{AUTO, replayed};
use std::alloc::{AllocError, Global};
use std::test::Fail;
use tso_top::Status;

// Each piece so many times, one behind the other.
fn repeated(alloc: Global, pieces: &[(&str, u32)]) -> Result<Vec<u8>, AllocError> {
    let mut file = Vec::new(alloc);
    for (piece, times) in pieces {
        for _ in 0..*times {
            file.extend_from_slice(piece.as_bytes())?;
        }
    }
    Ok(file)
}

// So many times two pieces with a number between them, counted from 0, between a front and a rest.
fn numbered(
    alloc: Global,
    front: &str,
    before: &str,
    behind: &str,
    times: u32,
    rest: &str,
) -> Result<Vec<u8>, AllocError> {
    let mut file = Vec::from_slice(alloc, front.as_bytes())?;
    for number in 0..times {
        let piece = format!(in alloc; "{before}{number}{behind}")?;
        file.extend_from_slice(piece.as_bytes())?;
    }
    file.extend_from_slice(rest.as_bytes())?;
    Ok(file)
}

// The status of `source` on a file without a schedule, where its line is that of the status.
fn opened(alloc: Global, file: &[u8]) -> Result<Option<Status>, AllocError> {
    let (status, printed) = replayed(alloc, file, b"")?;
    let line = match status {
        Status::Done => Vec::from_slice(alloc, b"end running\n")?,
        other => Vec::from_slice(alloc, other.line().as_slice())?,
    };
    if printed.as_slice() == line.as_slice() {
        Ok(Some(status))
    } else {
        Ok(None)
    }
}

// A function has at most 64 parameters.
#[test]
fn parameters_of_a_function(rt: HostRuntime) -> Result<(), Fail> {
    let alloc = rt.alloc();
    for (times, got) in [
        (63u32, Status::Done),
        (64, Status::TooLarge { count: 2, at: 4 }),
    ] {
        let declared = repeated(
            alloc,
            &[
                ("int f(int", 1),
                (", int", times),
                ("); int main(void) { return 7; }", 1),
            ],
        )?;
        assert_eq!(rt;
            opened(alloc, &declared)?,
            Some(got),
            "{times} more parameters"
        );
    }
    Ok(())
}

// The locals of a function have at most 65,536 bytes, each rounded up to words.
#[test]
fn bytes_of_locals(rt: HostRuntime) -> Result<(), Fail> {
    let alloc = rt.alloc();
    for (text, got) in [
        (
            "int main(void) { char a[65532]; int r; r = 1; return r; }",
            Status::Done,
        ),
        (
            "int main(void) { char a[65533]; int r; r = 1; return r; }",
            Status::TooLarge { count: 3, at: 4 },
        ),
        (
            "int main(void) { char a[65537]; a[0] = 1; return a[0]; }",
            Status::TooLarge { count: 3, at: 4 },
        ),
        (
            "int f(int a) { char b[65532]; return a; } int main(void) { return 7; }",
            Status::Done,
        ),
        (
            "int x; int f(int a) { char b[65533]; return a; } int main(void) { return 7; }",
            Status::TooLarge { count: 3, at: 11 },
        ),
    ] {
        assert_eq!(rt; opened(alloc, text.as_bytes())?, Some(got), "{text}");
    }
    Ok(())
}

// A function has at most 8,000 nodes, of which its block is one.
#[test]
fn nodes_of_a_function(rt: HostRuntime) -> Result<(), Fail> {
    let alloc = rt.alloc();
    for (times, got) in [
        (7999u32, Status::Done),
        (8000, Status::TooLarge { count: 4, at: 4 }),
    ] {
        let empty = repeated(alloc, &[("int main(void) { ", 1), (";", times), (" }", 1)])?;
        assert_eq!(rt; opened(alloc, &empty)?, Some(got), "{times} statements");
    }
    Ok(())
}

// A `switch` has at most 1,024 labels.
#[test]
fn labels_of_a_switch(rt: HostRuntime) -> Result<(), Fail> {
    let alloc = rt.alloc();
    for (times, got) in [
        (1024u32, Status::Done),
        (1025, Status::TooLarge { count: 5, at: 4 }),
    ] {
        let cases = numbered(
            alloc,
            "int main(void) { switch (1) { ",
            "case ",
            ": ;",
            times,
            " } return 0; }",
        )?;
        assert_eq!(rt; opened(alloc, &cases)?, Some(got), "{times} labels");
    }
    Ok(())
}

// A file defines at most 4,096 functions; the place of the counts of a file is its length.
#[test]
fn functions_of_a_file(rt: HostRuntime) -> Result<(), Fail> {
    let alloc = rt.alloc();
    for (times, got) in [
        (4095u32, Status::Done),
        (
            4096,
            Status::TooLarge {
                count: 1,
                at: 84934,
            },
        ),
    ] {
        let functions = numbered(
            alloc,
            "",
            "void f",
            "(void) { } ",
            times,
            "int main(void) { return 7; }",
        )?;
        assert_eq!(rt; opened(alloc, &functions)?, Some(got), "{times} functions");
    }
    Ok(())
}

// A file has at most 80,000 nodes.
#[test]
fn nodes_of_a_file(rt: HostRuntime) -> Result<(), Fail> {
    let alloc = rt.alloc();
    // Ten functions of 8,000 nodes each, and a constant at the end.
    for (constant, got) in [
        ("", Status::Done),
        (
            "int x = 1;",
            Status::TooLarge {
                count: 6,
                at: 80171,
            },
        ),
    ] {
        let file = repeated(
            alloc,
            &[
                ("void f0(void) {", 1),
                (";", 7999),
                ("} void f1(void) {", 1),
                (";", 7999),
                ("} void f2(void) {", 1),
                (";", 7999),
                ("} void f3(void) {", 1),
                (";", 7999),
                ("} void f4(void) {", 1),
                (";", 7999),
                ("} void f5(void) {", 1),
                (";", 7999),
                ("} void f6(void) {", 1),
                (";", 7999),
                ("} void f7(void) {", 1),
                (";", 7999),
                ("} void f8(void) {", 1),
                (";", 7999),
                ("} int main(void) {", 1),
                (";", 7999),
                ("} ", 1),
                (constant, 1),
            ],
        )?;
        assert_eq!(rt; opened(alloc, &file)?, Some(got), "{constant}");
    }
    Ok(())
}

// The globals of a file have at most 16,777,216 bytes.
#[test]
fn bytes_of_globals(rt: HostRuntime) -> Result<(), Fail> {
    let alloc = rt.alloc();
    for (text, got) in [
        (
            "char a[16777216]; int main(void) { return 0; }",
            Status::Done,
        ),
        (
            "char a[16777216]; char b; int main(void) { return 0; }",
            Status::TooLarge { count: 7, at: 54 },
        ),
    ] {
        assert_eq!(rt; opened(alloc, text.as_bytes())?, Some(got), "{text}");
    }
    Ok(())
}

// At most 198 pairs of parentheses stand in a `return` of a body.
#[test]
fn nesting(rt: HostRuntime) -> Result<(), Fail> {
    let alloc = rt.alloc();
    for (pairs, got) in [(198u32, Status::Done), (199, Status::TooDeep { at: 222 })] {
        let file = repeated(
            alloc,
            &[
                ("int main(void) { return ", 1),
                ("(", pairs),
                ("7", 1),
                (")", pairs),
                ("; }", 1),
            ],
        )?;
        assert_eq!(rt; opened(alloc, &file)?, Some(got), "{pairs} pairs");
        let (played, printed) = replayed(alloc, &file, AUTO.as_bytes())?;
        let lines = match got {
            Status::Done => "exit 7\nend exited\n",
            _ => "too deep: byte 222\n",
        };
        assert_eq!(rt; played, got, "{pairs} pairs");
        assert!(rt; printed.as_slice() == lines.as_bytes(), "{pairs} pairs");
    }
    Ok(())
}

// A file of blanks of the greatest length, in which no `main` is, and one byte more.
#[test]
fn length(rt: HostRuntime) -> Result<(), Fail> {
    let alloc = rt.alloc();
    for (size, got) in [
        (
            4_194_304usize,
            Status::Types {
                rule: 14,
                at: 4_194_304,
            },
        ),
        (4_194_305, Status::TooLong),
    ] {
        let blanks = vec![in alloc; b' '; size]?;
        assert_eq!(rt; opened(alloc, &blanks)?, Some(got), "{size} bytes");
    }
    Ok(())
}
