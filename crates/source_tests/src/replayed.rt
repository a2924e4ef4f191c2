//! A replay of a file by `run`, over a store and a sink in memory.

use std::alloc::{AllocError, Global};
use std::process::Abort;
use std::test::Fail;
use tso_outside::{MemSink, MemStore};
use tso_top::{Status, run};

pub const AUTO: &str = "auto 0 100000";

pub const HOLD: &str = "hold 0 100000";

pub const SEVEN: &str = "int main(void) { return 7; }";

pub const BLOCK: &str = "int main(void) { int *p; p = malloc(4); return 0; }";

/// The words of a command.
pub fn words(alloc: Global, list: &[&str]) -> Result<Vec<String>, AllocError> {
    let mut words = Vec::new(alloc);
    for word in list {
        words.push(String::from_str(alloc, word)?)?;
    }
    Ok(words)
}

/// A store that has the file as `a.c` and the schedule as `a.sched`.
pub fn store_of(
    alloc: Global,
    file: &[u8],
    schedule: &[u8],
    failing: Vec<u64>,
) -> Result<MemStore, AllocError> {
    let mut files = Vec::new(alloc);
    files.push((
        String::from_str(alloc, "a.c")?,
        Vec::from_slice(alloc, file)?,
    ))?;
    let mut store = MemStore::made(files, 65536, failing);
    store.files.push((
        String::from_str(alloc, "a.sched")?,
        Vec::from_slice(alloc, schedule)?,
    ))?;
    Ok(store)
}

/// The status of `source` on a file and a schedule, and what it prints.
pub fn replayed(
    alloc: Global,
    file: &[u8],
    schedule: &[u8],
) -> Result<(Status, Vec<u8>), AllocError> {
    let list = words(alloc, &["source", "a.c", "a.sched"])?;
    let mut store = store_of(alloc, file, schedule, Vec::new(alloc))?;
    let mut out = MemSink::made(alloc, 4096, Vec::new(alloc));
    let status = run(alloc, &list, &mut store, &mut out);
    Ok((status, out.bytes))
}

/// A row of a table: a file, a schedule, the status and the lines.
pub type Row = (&'static str, &'static str, Status, &'static str);

/// Replays the rows of a table, and compares.
pub fn assert_rows(rt: &impl Abort, alloc: Global, rows: &[Row]) -> Result<(), Fail> {
    for (text, schedule, status, lines) in rows {
        let (got, printed) = replayed(alloc, text.as_bytes(), schedule.as_bytes())?;
        assert_eq!(rt; got, *status, "{schedule} on {text}");
        assert!(rt;
            printed.as_slice() == lines.as_bytes(),
            "{schedule} on {text}"
        );
    }
    Ok(())
}
