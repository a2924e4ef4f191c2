// A store and a sink that never fail and tell nothing.
ghost use Rattle.std.specs.Prelude.{◌≡◌, length, Ok, Some};
ghost use Rattle.tso_outside.specs.Steady.{bytes_in, plus, silent_sink, silent_store};
ghost use Rattle.tso_outside.specs.Views.{Appends, Puts, ReadsAt, ReadsFrom, WritesNew};

use crate::files::{copy_front, place_of, rest};
use crate::{Failed, Sink, Store};

/// Lent files that are read; of what is written only the number of bytes is kept.
///
/// A name that is not among the files reads as an empty file.
#[derive(Clone, Copy)]
pub struct SteadyStore<'a> {
    pub files: &'a [(String, Vec<u8>)],
    /// The bytes that were written so far, at most the last value of its type.
    pub written: u64,
}

fn bytes_of<'a>(files: &'a [(String, Vec<u8>)], name: &str) -> &'a [u8]
    ensures { result.now ≡ bytes_in files.now name.now }
{
    match place_of(files, name) {
        Some(place) => &files[place].1,
        None => &[],
    }
}

impl<'a> Store for SteadyStore<'a> {
    ghost view = { λ s. silent_store };

    /// Reads as much as `into` has room for.
    fn read_at(&mut self, name: &str, from: u64, into: &mut [u8]) -> Result<usize, Failed>
        ensures reads { ReadsAt silent_store silent_store name.now from into.new result }
        ensures gives { ReadsFrom (Some (bytes_in self.old.files.now name.now)) from into.new result }
        ensures unwritten { self.new.written ≡ self.old.written }
    {
        let source = rest(bytes_of(self.files, name), from);
        Ok(copy_front(source, source.len(), into))
    }

    fn write_new(&mut self, _name: &str) -> Result<(), Failed>
        ensures writes { WritesNew silent_store silent_store _name.now result }
        ensures unwritten { self.new.written ≡ self.old.written }
    {
        Ok(())
    }

    /// Takes the whole piece.
    fn append(&mut self, _name: &str, piece: &[u8]) -> Result<usize, Failed>
        ensures appends { Appends silent_store silent_store _name.now piece.now result }
        ensures whole { result ≡ Ok (length piece.now) }
        ensures written { self.new.written ≡ plus self.old.written (length piece.now) }
    {
        self.written = self.written.saturating_add(piece.len() as u64);
        Ok(piece.len())
    }
}

/// A sink that keeps only the number of bytes that were put on it.
#[derive(Clone, Copy)]
pub struct SteadySink {
    /// The bytes that were put so far, at most the last value of its type.
    pub written: u64,
}

impl Sink for SteadySink {
    ghost view = { λ s. silent_sink };

    /// Takes the whole piece.
    fn put(&mut self, piece: &[u8]) -> Result<usize, Failed>
        ensures puts { Puts silent_sink silent_sink piece.now result }
        ensures whole { result ≡ Ok (length piece.now) }
        ensures written { self.new.written ≡ plus self.old.written (length piece.now) }
    {
        self.written = self.written.saturating_add(piece.len() as u64);
        Ok(piece.len())
    }
}
