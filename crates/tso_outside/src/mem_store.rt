// A store in memory. It takes few bytes at a time, and fails at the calls that it is told to.
ghost use Rattle.std.specs.Prelude.{◌≡◌, ◌<◌, map};
ghost use Rattle.tso_outside.specs.Entries.{AreDistinct, entries};

use crate::files::{append_to, copy_front, is_failing, make_empty, place_of, rest};
use crate::{Failed, Store};

/// Files in memory, all of them told.
#[derive(Drop)]
pub struct MemStore {
    /// Each name with its bytes.
    pub files: Vec<(String, Vec<u8>)>,
    /// The most bytes that one read or append takes.
    pub grain: u32,
    /// The numbers of the calls that fail, counted from 0 over all three kinds.
    pub failing: Vec<u64>,
    /// The calls so far.
    pub calls: u64,
    pub read_faults: u64,
    pub write_faults: u64,
    pub misses: u64,
    ghost some_grain: { 0 < grain },
}

impl MemStore {
    ghost use Rattle.tso_outside.specs.StoreCalls.{Opens};

    /// A store that holds these files, before its first call.
    pub fn made(files: Vec<(String, Vec<u8>)>, grain: u32, failing: Vec<u64>) -> MemStore
        requires some_grain { 0 < grain }
        requires distinct { AreDistinct (entries files.items) }
        ensures { Opens files.items grain failing.items result }
    {
        MemStore {
            files,
            grain,
            failing,
            calls: 0,
            read_faults: 0,
            write_faults: 0,
            misses: 0,
        }
    }
}

impl Store for MemStore {
    ghost use Rattle.std.specs.Prelude.{IsErr, IfOk, OnErr, ◌⊎◌, None, length, min};
    ghost use Rattle.tso_outside.specs.Views.{Appends, ReadsAt, WritesNew, held};
    ghost use Rattle.tso_outside.specs.StoreCalls.{Counts, IsDue, ReadEnds, WriteEnds, store_view};

    ghost view = { store_view };

    /// Call number n fails where n is among `failing` or the file is missing, and nowhere else.
    fn read_at(&mut self, name: &str, from: u64, into: &mut [u8]) -> Result<usize, Failed>
        ensures reads { ReadsAt (store_view self.old) (store_view self.new) name.now from into.new result }
        ensures counts { Counts self.old self.new }
        ensures ends { ReadEnds self.old name.now from (length into.new) self.new.read_faults self.new.misses result }
    {
        if is_failing(&mut self.calls, &self.failing) {
            self.read_faults = self.read_faults.saturating_add(1);
            return Err(Failed);
        }
        match place_of(&self.files, name) {
            Some(place) => Ok(copy_front(
                rest(&self.files[place].1, from),
                self.grain as usize,
                into,
            )),
            None => {
                self.misses = self.misses.saturating_add(1);
                Err(Failed)
            }
        }
    }

    /// Call number n fails where n is among `failing`, else only where memory lacks.
    fn write_new(&mut self, name: &str) -> Result<(), Failed>
        ensures writes { WritesNew (store_view self.old) (store_view self.new) name.now result }
        ensures counts { Counts self.old self.new }
        ensures due { IsDue self.old → IsErr result }
        ensures memory { OnErr result (IsDue self.old ⊎ (held (entries self.old.files.items) name.now ≡ None)) }
        ensures faults { WriteEnds self.old self.new.write_faults result }
    {
        if !is_failing(&mut self.calls, &self.failing) {
            if let Ok(()) = make_empty(&mut self.files, name) {
                return Ok(());
            }
        }
        self.write_faults = self.write_faults.saturating_add(1);
        Err(Failed)
    }

    /// Call number n fails where n is among `failing`, else only where memory lacks.
    fn append(&mut self, name: &str, piece: &[u8]) -> Result<usize, Failed>
        ensures appends { Appends (store_view self.old) (store_view self.new) name.now piece.now result }
        ensures counts { Counts self.old self.new }
        ensures due { IsDue self.old → IsErr result }
        ensures takes { IfOk result (λ n. n ≡ min self.old.grain (length piece.now)) }
        ensures faults { WriteEnds self.old self.new.write_faults result }
    {
        let count = piece.len().min(self.grain as usize);
        if !is_failing(&mut self.calls, &self.failing) {
            if let Ok(()) = append_to(&mut self.files, name, &piece[..count]) {
                return Ok(count);
            }
        }
        self.write_faults = self.write_faults.saturating_add(1);
        Err(Failed)
    }
}
