// A store of named files and a sink of bytes, as the program above sees them.
ghost use Rattle.tso_outside.specs.Views.{Appends, Puts, ReadsAt, SinkView, StoreView, WritesNew};

/// A call of a store or a sink failed.
#[derive(Clone, Copy, Debug, PartialEq, Eq)]
pub struct Failed;

/// Files by name, of which a part is read or written at a time.
///
/// A store counts its read faults, its write faults and its misses (reads of a missing file) as
/// numbers of 64 bits, which never fall and stand still at their last value. It may tell what its
/// files hold, or not.
pub trait Store {
    /// The files, where it tells them, and its counts of faults.
    ghost view: { Self → StoreView };

    /// Reads the bytes of a file from the place `from` on to the front of `into`.
    ///
    /// Answers how many bytes were read: 0 for a non-empty `into` only at the end of the file.
    fn read_at(&mut self, name: &str, from: u64, into: &mut [u8]) -> Result<usize, Failed>
        ensures reads { ReadsAt (view self.old) (view self.new) name.now from into.new result };

    /// Makes a file empty, whether it was there or not.
    fn write_new(&mut self, name: &str) -> Result<(), Failed>
        ensures writes { WritesNew (view self.old) (view self.new) name.now result };

    /// Puts first bytes of `piece` behind those of a file; a missing file counts as empty.
    ///
    /// Answers how many bytes were taken, at least one of a non-empty piece.
    fn append(&mut self, name: &str, piece: &[u8]) -> Result<usize, Failed>
        ensures appends { Appends (view self.old) (view self.new) name.now piece.now result };
}

/// A stream of bytes that is written only.
///
/// A sink counts its faults as a number of 64 bits, which never falls and stands still at its last
/// value. It may tell what was put on it, or not.
pub trait Sink {
    /// The bytes, where it tells them, and its count of faults.
    ghost view: { Self → SinkView };

    /// Puts first bytes of `piece` behind those that the sink has.
    ///
    /// Answers how many bytes were taken, at least one of a non-empty piece.
    fn put(&mut self, piece: &[u8]) -> Result<usize, Failed>
        ensures puts { Puts (view self.old) (view self.new) piece.now result };
}
