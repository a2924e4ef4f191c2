// Commands over a store and a sink in memory. Expected values are worked out by hand.
ghost use Rattle.std.specs.Prelude.{◌<◌};

use super::*;
use std::alloc::{AllocError, Global};
use std::test::Fail;
use tso_outside::{MemSink, MemStore, SteadySink, SteadyStore};

const SEVEN: &str = "int main(void) { return 7; }";

// 59 bytes
const TEXT: &str = "# pace 1\n.globl main\n.data\n.text\nmain:\n\tmovl $7, %eax\n\tret\n";

fn words(alloc: Global, list: &[&str]) -> Result<Vec<String>, AllocError> {
    let mut words = Vec::new(alloc);
    for word in list {
        words.push(String::from_str(alloc, word)?)?;
    }
    Ok(words)
}

fn one_file(alloc: Global, name: &str, bytes: &[u8]) -> Result<Vec<(String, Vec<u8>)>, AllocError> {
    let mut files = Vec::new(alloc);
    files.push((
        String::from_str(alloc, name)?,
        Vec::from_slice(alloc, bytes)?,
    ))?;
    Ok(files)
}

// A store with one file.
fn store_with(
    alloc: Global,
    name: &str,
    bytes: &[u8],
    grain: u32,
    failing: Vec<u64>,
) -> Result<MemStore, AllocError>
    requires { 0 < grain }
{
    let mut files = Vec::new(alloc);
    files.push((
        String::from_str(alloc, name)?,
        Vec::from_slice(alloc, bytes)?,
    ))?;
    Ok(MemStore::made(files, grain, failing))
}

fn held<'a>(store: &'a MemStore, name: &str) -> Option<&'a [u8]> {
    for file in &store.files {
        if file.0.as_str() == name {
            return Some(&file.1);
        }
    }
    None
}

// The status of `compile IN OUT`, where IN holds these bytes, and what OUT holds then.
fn compiled(alloc: Global, file: &[u8]) -> Result<(Status, Vec<u8>), AllocError> {
    let mut store = store_with(alloc, "in.c", file, 4096, Vec::new(alloc))?;
    let mut out = MemSink::made(alloc, 4096, Vec::new(alloc));
    let list = words(alloc, &["compile", "in.c", "out.s"])?;
    let status = run(alloc, &list, &mut store, &mut out);
    let bytes = held(&store, "out.s").unwrap_or(b"");
    Ok((status, Vec::from_slice(alloc, bytes)?))
}

#[test]
fn a_file_is_compiled(rt: HostRuntime) -> Result<(), Fail> {
    let alloc = rt.alloc();
    let mut store = store_with(alloc, "seven.c", SEVEN.as_bytes(), 4096, Vec::new(alloc))?;
    let mut out = MemSink::made(alloc, 8, Vec::new(alloc));
    let list = words(alloc, &["compile", "seven.c", "seven.s"])?;
    let status = run(alloc, &list, &mut store, &mut out);
    assert_eq!(rt; status, Status::Done);
    assert_eq!(rt; status.code(), 0);
    assert!(rt; held(&store, "seven.s") == Some(TEXT.as_bytes()));
    assert!(rt; held(&store, "seven.c") == Some(SEVEN.as_bytes()));
    assert_eq!(rt; store.files.len(), 2);
    assert_eq!(rt; out.calls, 0);
    let same = words(alloc, &["compile", "seven.c", "seven.c"])?;
    assert_eq!(rt; run(alloc, &same, &mut store, &mut out), Status::Done);
    assert!(rt; held(&store, "seven.c") == Some(TEXT.as_bytes()));
    Ok(())
}

// The number of a call that fails, the status, and how many bytes OUT holds then. With a grain of
// eight the reads are calls 0 to 4, making OUT new is call 5, and eight appends follow.
const FAILING_CALLS: [(u64, Status, Option<usize>); 15] = [
    (0, Status::ReadFault, None),
    (1, Status::ReadFault, None),
    (2, Status::ReadFault, None),
    (3, Status::ReadFault, None),
    (4, Status::ReadFault, None),
    (5, Status::WriteFault, None),
    (6, Status::WriteFault, Some(0)),
    (7, Status::WriteFault, Some(8)),
    (8, Status::WriteFault, Some(16)),
    (9, Status::WriteFault, Some(24)),
    (10, Status::WriteFault, Some(32)),
    (11, Status::WriteFault, Some(40)),
    (12, Status::WriteFault, Some(48)),
    (13, Status::WriteFault, Some(56)),
    (14, Status::Done, Some(59)),
];

#[test]
fn each_call_fails_in_turn(rt: HostRuntime) -> Result<(), Fail> {
    let alloc = rt.alloc();
    let list = words(alloc, &["compile", "a.c", "a.s"])?;
    for (failing, status, size) in FAILING_CALLS {
        let mut store = store_with(alloc, "a.c", SEVEN.as_bytes(), 8, vec![in alloc; failing]?)?;
        let mut out = MemSink::made(alloc, 8, Vec::new(alloc));
        assert_eq!(rt;
            run(alloc, &list, &mut store, &mut out),
            status,
            "at {failing}"
        );
        let text = held(&store, "a.s");
        assert_eq!(rt; text.map(|bytes| bytes.len()), size, "at {failing}");
        assert!(rt;
            TEXT.as_bytes().starts_with(text.unwrap_or(b"")),
            "at {failing}"
        );
        assert_eq!(rt; store.calls, if failing < 14 { failing + 1 } else { 14 });
        let lines = match status {
            Status::ReadFault => "read fault\n",
            Status::WriteFault => "write fault\n",
            _ => "",
        };
        assert!(rt; out.bytes.as_slice() == lines.as_bytes(), "at {failing}");
    }
    Ok(())
}

#[test]
fn files_of_the_form(rt: HostRuntime) -> Result<(), Fail> {
    let alloc = rt.alloc();
    for (text, number) in [
        ("int main(void){return 0;}", "0"),
        ("int main(void) { return 2147483647; }", "2147483647"),
        (" \tint\r\nmain ( void )\x0b{\x0creturn 10 ; }\n", "10"),
        (
            "# 1 \"seven.c\"\nint/**/main(void) // {\n#2\n{ return/*;*/7; } /* 8 */",
            "7",
        ),
    ] {
        let (status, written) = compiled(alloc, text.as_bytes())?;
        assert_eq!(rt; status, Status::Done, "{text}");
        let lines = format!(in alloc;
            "# pace 1\n.globl main\n.data\n.text\nmain:\n\tmovl ${number}, %eax\n\tret\n"
        )?;
        assert!(rt; written.as_slice() == lines.as_bytes(), "{text}");
    }
    Ok(())
}

// Files of the grammar that are not of the form, and their statuses.
const OTHER_FILES: [(&str, Status); 14] = [
    ("", Status::Types { rule: 14, at: 0 }),
    ("// nothing", Status::Types { rule: 14, at: 10 }),
    ("int x;", Status::Types { rule: 14, at: 6 }),
    ("int main(void) { return 7u; }", Status::NotBuilt),
    ("int main(void) { return 7l; }", Status::NotBuilt),
    ("int main(void) { return 07; }", Status::NotBuilt),
    ("int main(void) { return 0x7; }", Status::NotBuilt),
    (
        "int main(void) { return 2147483648; }",
        Status::Types { rule: 3, at: 24 },
    ),
    ("int main(void) { return -7; }", Status::NotBuilt),
    (
        "int main(void) { return; }",
        Status::Types { rule: 21, at: 17 },
    ),
    (
        "int main(void) { return7; }",
        Status::Types { rule: 4, at: 17 },
    ),
    ("int main() { return 7; }", Status::NotBuilt),
    (
        "int f(void) { return 7; }",
        Status::Types { rule: 14, at: 25 },
    ),
    ("int main(void) { return 7; } int x;", Status::NotBuilt),
];

// Files that are of no grammar, with the byte of the fault.
const NO_FILES: [(&str, u32); 15] = [
    ("int x; int = 3;", 11),
    ("int main(void) { return 7; } /*", 29),
    ("int x; /* open", 7),
    ("intmain(void) { return 7; }", 0),
    ("int main(void) { return 7 }", 26),
    ("int main(void) { return 7;", 26),
    ("int main(void) { return 4294967296; }", 24),
    ("int main(void) { return 7; }\x00", 28),
    ("int main(void) { return 7; } # pragma", 29),
    ("int main(void) { goto out; }", 17),
    ("int main(void) { return 7; } x", 29),
    ("typedef int t; t t;", 17),
    ("@", 0),
    ("int int;", 4),
    ("int x = ;", 8),
];

#[test]
fn files_of_another_form(rt: HostRuntime) -> Result<(), Fail> {
    let alloc = rt.alloc();
    for (text, expected) in OTHER_FILES {
        let (status, written) = compiled(alloc, text.as_bytes())?;
        assert_eq!(rt; status, expected, "{text}");
        assert_eq!(rt; written.len(), 0, "{text}");
    }
    for (text, at) in NO_FILES {
        let (status, written) = compiled(alloc, text.as_bytes())?;
        assert_eq!(rt; status, Status::Syntax { at }, "{text}");
        assert_eq!(rt; written.len(), 0, "{text}");
    }
    Ok(())
}

// The place of the fault in the first bytes of the file of seven: a word that is cut short is a name,
// which no file begins with, and which no list of parameters begins with.
fn place_of_front(size: u32) -> u32 {
    match size {
        1 | 2 => 0,
        10..=12 => 9,
        _ => size,
    }
}

#[test]
fn fronts_of_a_file(rt: HostRuntime) -> Result<(), Fail> {
    let alloc = rt.alloc();
    for size in 1..28u32 {
        let front = SEVEN.as_bytes().get(..size as usize).unwrap_or(b"");
        let (status, _) = compiled(alloc, front)?;
        let at = place_of_front(size);
        assert_eq!(rt; status, Status::Syntax { at }, "{size}");
        assert_eq!(rt; status.code(), 5);
    }
    Ok(())
}

// A file whose main returns 7 in so many pairs of parentheses, between these.
fn nested(alloc: Global, front: &str, pairs: usize, rest: &str) -> Result<Vec<u8>, AllocError> {
    let mut file = Vec::from_slice(alloc, front.as_bytes())?;
    file.extend_from_slice(b"int main(void) { return ")?;
    for _ in 0..pairs {
        file.push(b'(')?;
    }
    file.push(b'7')?;
    for _ in 0..pairs {
        file.push(b')')?;
    }
    file.extend_from_slice(rest.as_bytes())?;
    Ok(file)
}

// What stands before main, the number of pairs, what stands behind them, the status and its line: the
// fault that comes first in the file is told.
const NESTED: [(&str, usize, &str, Status, &str); 6] = [
    ("", 198, "; }", Status::NotBuilt, "not built\n"),
    (
        "",
        199,
        "; }",
        Status::TooDeep { at: 222 },
        "too deep: byte 222\n",
    ),
    (
        "",
        199,
        ";",
        Status::TooDeep { at: 222 },
        "too deep: byte 222\n",
    ),
    ("", 198, "; } int;", Status::NotBuilt, "not built\n"),
    (
        "",
        198,
        ";",
        Status::Syntax { at: 422 },
        "syntax: byte 422\n",
    ),
    (
        "x; ",
        199,
        "; }",
        Status::Syntax { at: 0 },
        "syntax: byte 0\n",
    ),
];

#[test]
fn nesting_that_is_too_deep(rt: HostRuntime) -> Result<(), Fail> {
    let alloc = rt.alloc();
    let list = words(alloc, &["compile", "a.c", "a.s"])?;
    for (front, pairs, rest, status, line) in NESTED {
        let file = nested(alloc, front, pairs, rest)?;
        let mut store = store_with(alloc, "a.c", &file, 4096, Vec::new(alloc))?;
        let mut out = MemSink::made(alloc, 4, Vec::new(alloc));
        assert_eq!(rt; run(alloc, &list, &mut store, &mut out), status);
        assert!(rt; out.bytes.as_slice() == line.as_bytes());
        assert!(rt; held(&store, "a.s").is_none());
    }
    Ok(())
}

#[test]
fn the_limit_of_a_file(rt: HostRuntime) -> Result<(), Fail> {
    let alloc = rt.alloc();
    let list = words(alloc, &["compile", "a.c", "a.s"])?;
    for (size, status, line) in [
        (
            4_194_304usize,
            Status::Types {
                rule: 14,
                at: 4_194_304,
            },
            "types: rule 14, byte 4194304\n",
        ),
        (4_194_305, Status::TooLong, "too long\n"),
    ] {
        let blanks = vec![in alloc; b' '; size]?;
        let mut store = store_with(alloc, "a.c", &blanks, u32::MAX, Vec::new(alloc))?;
        let mut out = MemSink::made(alloc, 4, Vec::new(alloc));
        assert_eq!(rt; run(alloc, &list, &mut store, &mut out), status);
        assert!(rt; out.bytes.as_slice() == line.as_bytes());
        assert!(rt; held(&store, "a.s").is_none());
        let files = one_file(alloc, "a.c", &blanks)?;
        assert_eq!(rt; run_steady(alloc, &list, &files), status);
    }
    Ok(())
}

#[test]
fn a_run_that_meets_no_fault(rt: HostRuntime) -> Result<(), Fail> {
    let alloc = rt.alloc();
    let list = words(alloc, &["compile", "a.c", "a.s"])?;
    let files = one_file(alloc, "a.c", SEVEN.as_bytes())?;
    let mut store = SteadyStore {
        files: &files,
        written: 0,
    };
    let mut out = SteadySink { written: 0 };
    assert_eq!(rt; run(alloc, &list, &mut store, &mut out), Status::Done);
    assert_eq!(rt; store.written, 59);
    assert_eq!(rt; out.written, 0);
    assert_eq!(rt; run_steady(alloc, &list, &files), Status::Done);
    Ok(())
}

// The sink takes three bytes at a time. Behind a call of it that failed none follows.
#[test]
fn a_sink_that_fails(rt: HostRuntime) -> Result<(), Fail> {
    let alloc = rt.alloc();
    let short = words(alloc, &["compile", "a.c"])?;
    let missing = words(alloc, &["compile", "no.c", "out.s"])?;
    for (failing, usage, fault, calls) in [
        (0u64, "", "", 1u64),
        (1, "usa", "rea", 2),
        (2, "usage\n", "read f", 3),
    ] {
        let mut store = store_with(alloc, "a.c", SEVEN.as_bytes(), 8, Vec::new(alloc))?;
        let mut out = MemSink::made(alloc, 3, vec![in alloc; failing]?);
        assert_eq!(rt; run(alloc, &short, &mut store, &mut out), Status::Usage);
        assert!(rt; out.bytes.as_slice() == usage.as_bytes(), "at {failing}");
        assert_eq!(rt; out.calls, calls.min(2));
        assert_eq!(rt; store.calls, 0);
        let mut other = MemSink::made(alloc, 3, vec![in alloc; failing]?);
        assert_eq!(rt;
            run(alloc, &missing, &mut store, &mut other),
            Status::ReadFault
        );
        assert!(rt; other.bytes.as_slice() == fault.as_bytes(), "at {failing}");
        assert_eq!(rt; other.calls, calls);
        assert_eq!(rt; store.files.len(), 1);
    }
    Ok(())
}

#[test]
fn words_that_are_no_command(rt: HostRuntime) -> Result<(), Fail> {
    let alloc = rt.alloc();
    let mut store = MemStore::made(Vec::new(alloc), 8, Vec::new(alloc));
    let all: [&[&str]; 7] = [
        &[],
        &["compile", "a.c"],
        &["compile", "a.c", "a.s", "more"],
        &["Compile", "a.c", "a.s"],
        &["target", "a.s"],
        &["target", "a.s", "a.sched", "more"],
        &["source", "a.c"],
    ];
    for list in all {
        let mut out = MemSink::made(alloc, 100, Vec::new(alloc));
        let list = words(alloc, list)?;
        let status = run(alloc, &list, &mut store, &mut out);
        assert_eq!(rt; status.code(), 1);
        assert!(rt; out.bytes.as_slice() == "usage\n".as_bytes());
    }
    assert_eq!(rt; store.calls, 0);
    Ok(())
}
