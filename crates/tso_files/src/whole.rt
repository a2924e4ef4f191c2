// Files that are read and written whole, over any store.
ghost use Rattle.tso_files.specs.Whole.{PutsWhole, ReadsWhole, WritesWhole};

use std::alloc::Global;
use tso_outside::{Failed, Sink, Store};

/// Why a file was not read whole.
#[derive(Clone, Copy, Debug, PartialEq, Eq)]
pub enum ReadRefusal {
    /// The store refused a read: the file is missing or could not be read.
    ReadFault,
    /// The file has more bytes than it may have.
    TooLong,
    /// Memory lacked.
    NoMemory,
}

/// Reads a file from its first byte until its end, or until more than `limit` bytes were read.
pub fn read_whole<S: Store>(
    alloc: Global,
    store: &mut S,
    name: &str,
    limit: u64,
) -> Result<Vec<u8>, ReadRefusal>
    ensures { ReadsWhole (S.view store.old) (S.view store.new) name.now limit result }
{
    let mut bytes = Vec::new(alloc);
    let mut buffer = [0u8; 4096];
    loop {
        let count = match store.read_at(name, bytes.len() as u64, &mut buffer) {
            Ok(count) => count,
            Err(Failed) => return Err(ReadRefusal::ReadFault),
        };
        if count == 0 {
            return Ok(bytes);
        }
        if bytes.extend_from_slice(&buffer[..count]).is_err() {
            return Err(ReadRefusal::NoMemory);
        }
        if bytes.len() as u64 > limit {
            return Err(ReadRefusal::TooLong);
        }
    }
}

/// Makes a file new and appends the text until all of it was taken.
pub fn write_whole<S: Store>(store: &mut S, name: &str, text: &[u8]) -> Result<(), Failed>
    ensures { WritesWhole (S.view store.old) (S.view store.new) name.now text.now result }
{
    store.write_new(name)?;
    let mut taken = 0;
    while taken < text.len() {
        match store.append(name, &text[taken..]) {
            Ok(count) => taken += count,
            Err(failed) => return Err(failed),
        }
    }
    Ok(())
}

/// Puts lines on a sink until all of them were taken.
pub fn put_whole<K: Sink>(out: &mut K, lines: &[u8]) -> Result<(), Failed>
    ensures { PutsWhole (K.view out.old) (K.view out.new) lines.now result }
{
    let mut taken = 0;
    while taken < lines.len() {
        match out.put(&lines[taken..]) {
            Ok(count) => taken += count,
            Err(failed) => return Err(failed),
        }
    }
    Ok(())
}
