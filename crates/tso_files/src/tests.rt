// Files over a store in memory.
use super::*;
use std::alloc::{AllocError, Global};
use std::test::Fail;
use tso_outside::MemStore;

const BYTES: &[u8] = b"int main(void) { return 7; }";

// A store with one file, of which a read gives at most eight bytes.
fn store_with(alloc: Global, name: &str, bytes: &[u8]) -> Result<MemStore, AllocError> {
    let mut files = Vec::new(alloc);
    files.push((
        String::from_str(alloc, name)?,
        Vec::from_slice(alloc, bytes)?,
    ))?;
    Ok(MemStore::made(files, 8, Vec::new(alloc)))
}

#[test]
fn a_file_that_is_read_whole(rt: HostRuntime) -> Result<(), Fail> {
    let alloc = rt.alloc();
    let mut store = store_with(alloc, "a.c", BYTES)?;
    let read = read_whole(alloc, &mut store, "a.c", 28);
    assert!(rt; read.is_ok_and(|bytes| bytes.as_slice() == BYTES));
    assert_eq!(rt; store.calls, 5);
    let long = read_whole(alloc, &mut store, "a.c", 27);
    assert!(rt; long.is_err_and(|refusal| refusal == ReadRefusal::TooLong));
    let missing = read_whole(alloc, &mut store, "b.c", 28);
    assert!(rt; missing.is_err_and(|refusal| refusal == ReadRefusal::ReadFault));
    assert_eq!(rt; store.misses, 1);
    Ok(())
}
