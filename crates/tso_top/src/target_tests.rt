// The command `target` over a store and a sink in memory. Expected values are worked out by hand.
use super::*;
use std::alloc::{AllocError, Global};
use std::test::Fail;
use tso_outside::{MemSink, MemStore};

const SEVEN: &str = "# pace 1\n.globl main\n.data\n.text\nmain:\n\tmovl $7, %eax\n\tret\n";

// The least number by -1.
const OVERFLOW: &str =
    ".text\nmain:\nmovl $-2147483648, %eax\nmovl $-1, %ecx\ncltd\nidivl %ecx\nret";

const TWO_BLOCKS: &str =
    ".text\nmain:\nsubl $4, %esp\nmovl $8, (%esp)\ncall malloc\nmovl $8, (%esp)\ncall malloc\naddl $4, %esp\nret";

// `examples/store_buffering.s`, and the schedule beside it.
const STORE_BUFFERING: &str =
    "# Store buffering: each of two threads writes one word and then prints the other one.\n# extern print 1\n.data\nx:\n\t.long 0\ny:\n\t.long 0\n.text\nmain:\n\tsubl $8, %esp\n\tmovl $f, %eax\n\tmovl %eax, (%esp)\n\tmovl $0, 4(%esp)\n\tcall thread_create\n\tmovl $1, x\n\tmovl y, %eax\n\tmovl %eax, (%esp)\n\tcall print\n\tret\nf:\n\tsubl $4, %esp\n\tmovl $1, y\n\tmovl x, %eax\n\tmovl %eax, (%esp)\n\tcall print\n.L0:\n\tjmp .L0\n";

const BOTH_BUFFERED: &str =
    "# Each thread runs up to its event; its write of x or y stays in its buffer.\nlazy 0 100\nhold 1 100\n";

// A text, a schedule, the status and the lines.
const REPLAYS: [(&str, &str, Status, &str); 19] = [
    (SEVEN, "auto 0 100000", Status::Done, "exit 7\nend exited\n"),
    (SEVEN, "", Status::Done, "end running\n"),
    (SEVEN, "hold 7 5", Status::Done, "end running\n"),
    (
        SEVEN,
        "run 0\nwalk 0",
        Status::BadSchedule { line: 2 },
        "bad schedule: line 2\n",
    ),
    (
        SEVEN,
        "drain 0",
        Status::NotARun { line: 1 },
        "not a run: line 1\n",
    ),
    (
        SEVEN,
        "auto 0 9\n\nrun 0",
        Status::NotARun { line: 3 },
        "exit 7\nnot a run: line 3\n",
    ),
    (OVERFLOW, "auto 0 10", Status::Done, "end fault\n"),
    (
        TWO_BLOCKS,
        "run 0\nrun 0\ndrain 0\nrun 0 0",
        Status::Done,
        "end no heap\n",
    ),
    (
        TWO_BLOCKS,
        "run 0\nrun 0\nrun 0",
        Status::NotARun { line: 3 },
        "not a run: line 3\n",
    ),
    (
        TWO_BLOCKS,
        "run 0\nrun 0\ndrain 0\nrun 0 0x30000000\nrun 0\ndrain 0\nrun 0 0x30000000",
        Status::NotARun { line: 7 },
        "not a run: line 7\n",
    ),
    (
        TWO_BLOCKS,
        "run 0\nrun 0\ndrain 0\nrun 0 0x30000000\nrun 0\ndrain 0\nrun 0 0x30000010",
        Status::Done,
        "end running\n",
    ),
    (
        STORE_BUFFERING,
        BOTH_BUFFERED,
        Status::Done,
        "call 0 print 0\ncall 1 print 0\nend running\n",
    ),
    (
        STORE_BUFFERING,
        "auto 0 100\nauto 1 100",
        Status::Done,
        "call 0 print 0\ncall 1 print 1\nend running\n",
    ),
    (
        STORE_BUFFERING,
        "lazy 0 100\nrun 7",
        Status::NotARun { line: 2 },
        "call 0 print 0\nnot a run: line 2\n",
    ),
    (
        ".text\nmain:\nmovl $7 %eax\nret",
        "",
        Status::BadText { line: 3 },
        "bad text: line 3\n",
    ),
    (
        ".text\nmain:\njmp out",
        "",
        Status::BadText { line: 3 },
        "bad text: line 3\n",
    ),
    ("", "", Status::BadText { line: 1 }, "bad text: line 1\n"),
    (
        "\n",
        "walk",
        Status::BadText { line: 2 },
        "bad text: line 2\n",
    ),
    (
        SEVEN,
        "run 0 18446744073709551616",
        Status::BadSchedule { line: 1 },
        "bad schedule: line 1\n",
    ),
];

fn words(alloc: Global, list: &[&str]) -> Result<Vec<String>, AllocError> {
    let mut words = Vec::new(alloc);
    for word in list {
        words.push(String::from_str(alloc, word)?)?;
    }
    Ok(words)
}

// A store that has the text as `a.s` and the schedule as `a.sched`.
fn store_of(
    alloc: Global,
    text: &str,
    schedule: &str,
    failing: Vec<u64>,
) -> Result<MemStore, AllocError> {
    let mut files = Vec::new(alloc);
    files.push((
        String::from_str(alloc, "a.s")?,
        Vec::from_slice(alloc, text.as_bytes())?,
    ))?;
    let mut store = MemStore::made(files, 4096, failing);
    store.files.push((
        String::from_str(alloc, "a.sched")?,
        Vec::from_slice(alloc, schedule.as_bytes())?,
    ))?;
    Ok(store)
}

#[test]
fn replays_on_texts(rt: HostRuntime) -> Result<(), Fail> {
    let alloc = rt.alloc();
    let list = words(alloc, &["target", "a.s", "a.sched"])?;
    for (text, schedule, status, lines) in REPLAYS {
        let mut store = store_of(alloc, text, schedule, Vec::new(alloc))?;
        let mut out = MemSink::made(alloc, 4096, Vec::new(alloc));
        assert_eq!(rt;
            run(alloc, &list, &mut store, &mut out),
            status,
            "{schedule}"
        );
        assert!(rt; out.bytes.as_slice() == lines.as_bytes(), "{schedule}");
        assert_eq!(rt; store.files.len(), 2);
    }
    Ok(())
}

// The words, the call of the store that fails, and the status. A file takes two reads: its bytes,
// and none at its end. Both are read before the text, which is bad here, is looked into.
#[test]
fn files_that_are_not_read(rt: HostRuntime) -> Result<(), Fail> {
    let alloc = rt.alloc();
    for (assembly, schedule, failing, status, calls) in [
        ("no.s", "a.sched", 9u64, Status::ReadFault, 1u64),
        ("a.s", "no.sched", 9, Status::ReadFault, 3),
        ("a.s", "a.sched", 0, Status::ReadFault, 1),
        ("a.s", "a.sched", 1, Status::ReadFault, 2),
        ("a.s", "a.sched", 2, Status::ReadFault, 3),
        ("a.s", "a.sched", 3, Status::ReadFault, 4),
        ("a.s", "a.sched", 4, Status::BadText { line: 1 }, 4),
    ] {
        let list = words(alloc, &["target", assembly, schedule])?;
        let mut store = store_of(alloc, "mov", "walk", vec![in alloc; failing]?)?;
        let mut out = MemSink::made(alloc, 4096, Vec::new(alloc));
        assert_eq!(rt;
            run(alloc, &list, &mut store, &mut out),
            status,
            "{schedule} at {failing}"
        );
        assert!(rt; out.bytes.as_slice() == status.line().as_slice());
        assert_eq!(rt; store.calls, calls);
    }
    Ok(())
}

// The sink takes eight bytes at a time. A fault of it takes the place of Done alone, and nothing is
// put behind it.
#[test]
fn a_sink_that_fails_among_the_lines(rt: HostRuntime) -> Result<(), Fail> {
    let alloc = rt.alloc();
    let list = words(alloc, &["target", "a.s", "a.sched"])?;
    for (schedule, failing, status, bytes, calls) in [
        ("auto 0 9", 0u64, Status::WriteFault, "", 1u64),
        ("auto 0 9", 1, Status::WriteFault, "exit 7\ne", 2),
        ("auto 0 9", 2, Status::WriteFault, "exit 7\nend exite", 3),
        ("auto 0 9", 3, Status::Done, "exit 7\nend exited\n", 3),
        ("run 1", 1, Status::NotARun { line: 1 }, "not a ru", 2),
        ("walk", 1, Status::BadSchedule { line: 1 }, "bad sche", 2),
    ] {
        let mut store = store_of(alloc, SEVEN, schedule, Vec::new(alloc))?;
        let mut out = MemSink::made(alloc, 8, vec![in alloc; failing]?);
        assert_eq!(rt;
            run(alloc, &list, &mut store, &mut out),
            status,
            "at {failing}"
        );
        assert!(rt; out.bytes.as_slice() == bytes.as_bytes(), "at {failing}");
        assert_eq!(rt; out.calls, calls);
    }
    Ok(())
}
