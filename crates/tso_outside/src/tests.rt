// The store and the sink in memory, call by call. Expected values are worked out by hand.
ghost use Rattle.std.specs.Prelude.{◌<◌};

use super::*;
use std::alloc::{AllocError, Global};
use std::test::Fail;

// A store with the one file `a`, which holds ten bytes.
fn ten_bytes(alloc: Global, grain: u32, failing: Vec<u64>) -> Result<MemStore, AllocError>
    requires { 0 < grain }
{
    let mut files = Vec::new(alloc);
    files.push((
        String::from_str(alloc, "a")?,
        Vec::from_slice(alloc, b"0123456789")?,
    ))?;
    Ok(MemStore::made(files, grain, failing))
}

#[test]
fn a_read_takes_what_is_left(rt: HostRuntime) -> Result<(), Fail> {
    let alloc = rt.alloc();
    let mut store = ten_bytes(alloc, 4, vec![in alloc; 5u64]?)?;
    let mut into = [b'-'; 6];
    // The grain, the rest of the file and the room bound a read in turn.
    for (from, room, count) in [
        (0u64, 6usize, 4usize),
        (7, 6, 3),
        (2, 3, 3),
        (10, 6, 0),
        (u64::MAX, 6, 0),
    ] {
        if room <= 6 {
            let read = store.read_at("a", from, &mut into[..room]);
            assert_eq!(rt; read.ok(), Some(count), "from {from}");
        }
    }
    assert!(rt; into.as_slice() == b"2343--".as_slice());
    // Call number 5 is to fail; a missing file is a miss.
    assert!(rt; store.read_at("a", 0, &mut into).is_err());
    assert_eq!(rt; (store.calls, store.read_faults, store.misses), (6, 1, 0));
    assert!(rt; store.read_at("b", 0, &mut into).is_err());
    assert_eq!(rt; (store.calls, store.read_faults, store.misses), (7, 1, 1));
    Ok(())
}

#[test]
fn a_file_is_made_and_grows(rt: HostRuntime) -> Result<(), Fail> {
    let alloc = rt.alloc();
    let mut store = ten_bytes(alloc, 4, vec![in alloc; 2u64, 4]?)?;
    assert_eq!(rt; store.append("b", b"abcdef").ok(), Some(4));
    assert_eq!(rt; store.append("a", b"x").ok(), Some(1));
    assert!(rt; store.append("b", b"x").is_err());
    assert!(rt; store.write_new("a").is_ok());
    assert!(rt; store.write_new("b").is_err());
    assert!(rt; store.append("a", b"").is_ok_and(|count| count == 0));
    assert_eq!(rt;
        (store.calls, store.write_faults, store.read_faults),
        (6, 2, 0)
    );
    let mut into = [0u8; 6];
    assert_eq!(rt; store.read_at("b", 0, &mut into).ok(), Some(4));
    assert!(rt; into.as_slice() == b"abcd\0\0".as_slice());
    assert_eq!(rt; store.read_at("a", 0, &mut into).ok(), Some(0));
    Ok(())
}

#[test]
fn counts_stand_at_their_end(rt: HostRuntime) -> Result<(), Fail> {
    let alloc = rt.alloc();
    let mut store = ten_bytes(alloc, 4, vec![in alloc; u64::MAX]?)?;
    store.calls = u64::MAX - 1;
    store.write_faults = u64::MAX;
    assert!(rt; store.write_new("a").is_ok());
    assert!(rt; store.write_new("a").is_err());
    assert!(rt; store.append("a", b"x").is_err());
    assert_eq!(rt; (store.calls, store.write_faults), (u64::MAX, u64::MAX));
    Ok(())
}

#[test]
fn a_sink_takes_a_grain(rt: HostRuntime) -> Result<(), Fail> {
    let alloc = rt.alloc();
    let mut sink = MemSink::made(alloc, 4, vec![in alloc; 1u64]?);
    assert_eq!(rt; sink.put(b"abcdef").ok(), Some(4));
    assert!(rt; sink.put(b"ef").is_err());
    assert_eq!(rt; sink.put(b"ef").ok(), Some(2));
    assert!(rt; sink.bytes.as_slice() == b"abcdef".as_slice());
    assert_eq!(rt; (sink.calls, sink.faults), (3, 1));
    Ok(())
}

#[test]
fn the_steady_forms_count_bytes(rt: HostRuntime) -> Result<(), Fail> {
    let alloc = rt.alloc();
    let store = ten_bytes(alloc, 1, Vec::new(alloc))?;
    let mut steady = SteadyStore {
        files: &store.files,
        written: u64::MAX - 4,
    };
    let mut into = [0u8; 4];
    assert_eq!(rt; steady.read_at("a", 8, &mut into).ok(), Some(2));
    assert_eq!(rt; steady.read_at("b", 0, &mut into).ok(), Some(0));
    assert!(rt; steady.write_new("b").is_ok());
    assert_eq!(rt; steady.append("b", b"abc").ok(), Some(3));
    assert_eq!(rt; steady.append("b", b"abc").ok(), Some(3));
    assert_eq!(rt; steady.written, u64::MAX);
    let mut sink = SteadySink { written: 0 };
    assert_eq!(rt; sink.put(b"abc").ok(), Some(3));
    assert_eq!(rt; sink.written, 3);
    Ok(())
}
