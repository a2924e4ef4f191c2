//! Which of several faults is told, files that are not read, and a sink that fails.

use crate::replayed::{SEVEN, replayed, store_of, words};
use std::test::Fail;
use tso_outside::MemSink;
use tso_top::{Status, run};

// A file, a schedule and the status: of several faults that comes which is first of the length of the
// file, its grammar and nesting, its types, its counts, the schedule and the run.
const FIRST_FAULTS: [(&str, &str, Status); 6] = [
    ("float x; int = 3;", "walk", Status::Syntax { at: 13 }),
    (
        "float x; int main(void) { char a[65537]; }",
        "walk",
        Status::Types { rule: 1, at: 0 },
    ),
    (
        "int main(void) { char a[65537]; return a; }",
        "walk",
        Status::Types { rule: 17, at: 39 },
    ),
    (
        "int main(void) { char a[65537]; return 0; }",
        "walk",
        Status::TooLarge { count: 3, at: 4 },
    ),
    (
        "int f(int a) { char b[65536]; return 0; } char c[16777216]; char d; int main(void) { return 0; }",
        "run 7",
        Status::TooLarge { count: 3, at: 4 },
    ),
    (SEVEN, "run 7\nwalk", Status::BadSchedule { line: 2 }),
];

#[test]
fn the_first_of_several_faults(rt: HostRuntime) -> Result<(), Fail> {
    let alloc = rt.alloc();
    for (text, schedule, status) in FIRST_FAULTS {
        let (got, printed) = replayed(alloc, text.as_bytes(), schedule.as_bytes())?;
        assert_eq!(rt; got, status, "{text}");
        assert!(rt; printed.as_slice() == status.line().as_slice(), "{text}");
    }
    Ok(())
}

// The words, the call of the store that fails, the status and the calls. A file takes two reads: its
// bytes, and none at its end. Both are read before the file, which is bad here, is looked into.
#[test]
fn files_that_are_not_read(rt: HostRuntime) -> Result<(), Fail> {
    let alloc = rt.alloc();
    for (file, schedule, failing, status, calls) in [
        ("no.c", "a.sched", 9u64, Status::ReadFault, 1u64),
        ("a.c", "no.sched", 9, Status::ReadFault, 3),
        ("a.c", "a.sched", 0, Status::ReadFault, 1),
        ("a.c", "a.sched", 1, Status::ReadFault, 2),
        ("a.c", "a.sched", 2, Status::ReadFault, 3),
        ("a.c", "a.sched", 3, Status::ReadFault, 4),
        ("a.c", "a.sched", 4, Status::Syntax { at: 11 }, 4),
    ] {
        let list = words(alloc, &["source", file, schedule])?;
        let mut store = store_of(alloc, b"int x; int = 3;", b"walk", vec![in alloc; failing]?)?;
        let mut out = MemSink::made(alloc, 4096, Vec::new(alloc));
        assert_eq!(rt;
            run(alloc, &list, &mut store, &mut out),
            status,
            "{schedule} at {failing}"
        );
        assert!(rt; out.bytes.as_slice() == status.line().as_slice());
        assert_eq!(rt; store.calls, calls);
        assert_eq!(rt; store.files.len(), 2);
    }
    Ok(())
}

#[test]
fn words_of_another_number(rt: HostRuntime) -> Result<(), Fail> {
    let alloc = rt.alloc();
    let all: [&[&str]; 4] = [
        &["source"],
        &["source", "a.c"],
        &["source", "a.c", "a.sched", "more"],
        &["Source", "a.c", "a.sched"],
    ];
    for list in all {
        let mut store = store_of(alloc, SEVEN.as_bytes(), b"", Vec::new(alloc))?;
        let mut out = MemSink::made(alloc, 100, Vec::new(alloc));
        let list = words(alloc, list)?;
        assert_eq!(rt; run(alloc, &list, &mut store, &mut out), Status::Usage);
        assert!(rt; out.bytes.as_slice() == "usage\n".as_bytes());
        assert_eq!(rt; store.calls, 0);
    }
    Ok(())
}

// The sink takes eight bytes at a time. A fault of it takes the place of Done alone, and nothing is
// put behind it.
#[test]
fn a_sink_that_fails_among_the_lines(rt: HostRuntime) -> Result<(), Fail> {
    let alloc = rt.alloc();
    let list = words(alloc, &["source", "a.c", "a.sched"])?;
    for (schedule, failing, status, bytes, calls) in [
        ("auto 0 9", 0u64, Status::WriteFault, "", 1u64),
        ("auto 0 9", 1, Status::WriteFault, "exit 7\ne", 2),
        ("auto 0 9", 2, Status::WriteFault, "exit 7\nend exite", 3),
        ("auto 0 9", 3, Status::Done, "exit 7\nend exited\n", 3),
        ("run 1", 1, Status::NotARun { line: 1 }, "not a ru", 2),
        ("walk", 1, Status::BadSchedule { line: 1 }, "bad sche", 2),
    ] {
        let mut store = store_of(
            alloc,
            SEVEN.as_bytes(),
            schedule.as_bytes(),
            Vec::new(alloc),
        )?;
        let mut out = MemSink::made(alloc, 8, vec![in alloc; failing]?);
        assert_eq!(rt;
            run(alloc, &list, &mut store, &mut out),
            status,
            "at {failing}"
        );
        assert!(rt; out.bytes.as_slice() == bytes.as_bytes(), "at {failing}");
        assert_eq!(rt; out.calls, calls);
    }
    Ok(())
}
