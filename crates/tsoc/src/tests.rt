// The adapters over real files and a writer in memory.
use crate::file_store::FileStore;
use crate::out_sink::OutSink;
use std::test::Fail;
use tso_outside::{Sink, Store};

#[test]
fn a_refused_call_is_a_fault(rt: HostRuntime) -> Result<(), Fail> {
    let mut store = FileStore::new(&rt);
    let mut into = [0u8; 8];
    assert!(rt; store.read_at("no such folder/file", 0, &mut into).is_err());
    assert!(rt; store.write_new("no such folder/file").is_err());
    assert!(rt; store.append("no such folder/file", b"x").is_err());
    Ok(())
}

#[test]
fn a_line_is_put_on_a_writer(rt: HostRuntime) -> Result<(), Fail> {
    let mut out = OutSink::new(Vec::new(rt.alloc()));
    assert_eq!(rt; out.put(b"usage\n").ok(), Some(6));
    assert_eq!(rt; out.put(b"").ok(), Some(0));
    Ok(())
}
