// The files of the current folder as a store, which counts its faults and tells nothing else.
ghost use Rattle.std.specs.Prelude.{None, ◌≡◌, ◌≤◌, length, IfOk};
ghost use Rattle.tso_outside.specs.Views.{Takes};

use std::fs::{self, OpenOptions};
use std::io::{self, Read, Seek, SeekFrom, Write};
use std::rt::Files;
use tso_outside::{Failed, Store};

/// A read of a missing file counts as a read fault.
#[derive(Drop)]
pub struct FileStore<'a, R: Files> {
    files: &'a R,
    read_faults: u64,
    write_faults: u64,
}

impl<'a, R: Files> FileStore<'a, R> {
    pub fn new(files: &'a R) -> Self {
        FileStore {
            files,
            read_faults: 0,
            write_faults: 0,
        }
    }
}

fn read_from<R: Files>(files: &R, name: &str, from: u64, into: &mut [u8]) -> io::Result<usize>
    ensures { IfOk result (λ n. n ≤ length into.new) }
{
    let mut file = fs::open(files, name)?;
    file.seek(SeekFrom::Start(from))?;
    file.read(into)
}

fn write_empty<R: Files>(files: &R, name: &str) -> io::Result<()> {
    fs::create(files, name)?;
    Ok(())
}

fn append_to<R: Files>(files: &R, name: &str, piece: &[u8]) -> io::Result<usize>
    ensures { IfOk result (λ n. Takes piece.now n) }
{
    let mut file = OpenOptions::new()
        .append(true)
        .create(true)
        .open(files, name)?;
    let count = file.write(piece)?;
    taken(count, piece)
}

/// What a write took of a piece. Nothing of some bytes is a fault.
pub fn taken(count: usize, piece: &[u8]) -> io::Result<usize>
    requires { count ≤ length piece.now }
    ensures { IfOk result (λ n. Takes piece.now n) }
{
    if count == 0 && !piece.is_empty() {
        Err(io::Error::from(io::ErrorKind::WriteZero))
    } else {
        Ok(count)
    }
}

impl<'a, R: Files> Store for FileStore<'a, R> {
    ghost use Rattle.tso_outside.specs.Views.{StoreView};

    ghost view = { λ s. record { files = None; read_faults = s.read_faults; write_faults = s.write_faults; misses = 0 } };

    fn read_at(&mut self, name: &str, from: u64, into: &mut [u8]) -> Result<usize, Failed> {
        match read_from(self.files, name, from, into) {
            Ok(count) => Ok(count),
            Err(_) => {
                self.read_faults = self.read_faults.saturating_add(1);
                Err(Failed)
            }
        }
    }

    fn write_new(&mut self, name: &str) -> Result<(), Failed> {
        match write_empty(self.files, name) {
            Ok(()) => Ok(()),
            Err(_) => {
                self.write_faults = self.write_faults.saturating_add(1);
                Err(Failed)
            }
        }
    }

    fn append(&mut self, name: &str, piece: &[u8]) -> Result<usize, Failed> {
        match append_to(self.files, name, piece) {
            Ok(count) => Ok(count),
            Err(_) => {
                self.write_faults = self.write_faults.saturating_add(1);
                Err(Failed)
            }
        }
    }
}
