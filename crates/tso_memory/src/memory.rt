//! Memory: live objects and their cells.
ghost use Rattle.std.specs.Prelude.{◌≡◌, ◌≢◌, ℕ, ◌+◌, ◌≤◌, ◌↔◌, Err, Some, None, [], OnOk, OnErr, IsOk, IsTrue, MatchResult, true, false, ◌==◌};
ghost use Rattle.std.specs.List.{find, list_any};
ghost use Rattle.tso_memory.specs.Memory.{IsSound, AreObjects, IsApart, holds, is_right, load, put, added, only, is_in, unmet, lifted, removed};
ghost use Rattle.tso_memory.specs.Buffer.{applied, local, IsSoundItem};
ghost use Rattle.tso_memory.specs.Kept.{memory_of, kept_at, empty};
ghost use Rattle.tso_words.specs.declared.value.Cell.TheVariants.{Blank, Byte};

use crate::buffer::Item;
use crate::object::{
    Kind, Object, end_at, end_lifted, end_met, find_object, insert_object, is_any_met, is_held,
    is_live_at,
};
use crate::pages::Pages;
use std::alloc::Global;
use std::marker::Model;
use thiserror::Error;
use tso_words::{Cell, Chunk, NoMemory, Val, bytes_of, size_of_chunk, val_of};

/// The access is not right: its address is `Undef` or no multiple of its size, or its bytes do not
/// lie in one live object.
#[derive(Clone, Copy, PartialEq, Eq, Debug, Error)]
#[error("wrong access")]
pub struct WrongAccess;

/// Why an item was not applied.
#[derive(Clone, Copy, PartialEq, Eq, Debug, Error)]
pub enum ApplyRefusal {
    /// It is a store that is not right.
    #[error("wrong access")]
    Wrong,
    /// The allocator had no memory.
    #[error("no memory")]
    NoMemory,
}

/// Live objects and the cells of their bytes.
#[derive(Drop)]
pub struct Memory {
    /// The live objects, by rising base.
    objects: Vec<Object>,
    /// Those that began with zeros.
    zeroed: Vec<Object>,
    /// What was written since.
    pages: Pages,
}

impl Model for Memory {
    ghost use Rattle.std.specs.Vec.{vec_len, vec_capacity};
    ghost use Rattle.tso_memory.specs.Kept.{Kept, IsKept, object_room};

    ghost Value = { Kept };

    ghost view = { λ m. record { objects = m.objects.items; zeroed = m.zeroed.items; pages = m.pages; spare = object_room (vec_len m.objects) (vec_capacity m.objects) m.pages.spare } };

    ghost invariant = { λ m. IsKept m.objects.items m.zeroed.items };
}

impl Memory {
    /// A memory without objects.
    pub fn new(alloc: Global) -> Memory
        ensures { memory_of result ≡ empty }
    {
        Memory {
            objects: Vec::new(alloc),
            zeroed: Vec::new(alloc),
            pages: Pages::new(alloc),
        }
    }

    /// The live objects, by rising base.
    pub fn objects(&self) -> &[Object]
        ensures list { result.now ≡ self.now.objects }
        ensures in_order { AreObjects 0 self.now.objects }
    {
        self.objects.as_slice()
    }

    /// Whether no live object shares a byte with the `size` bytes from `base` on.
    pub fn is_apart(&self, base: u32, size: u32) -> bool
        ensures { IsTrue result ↔ IsApart base size self.now.objects }
    {
        !is_any_met(&self.objects, base, size)
    }

    /// Whether the access is right.
    fn is_right(&self, chunk: Chunk, addr: Val) -> bool
        ensures { result ≡ is_right self.now.objects chunk addr }
    {
        let Val::Word(base) = addr else {
            return false;
        };
        let size = size_of_chunk(chunk);
        base % size == 0 && is_held(&self.objects, base, size)
    }

    /// The object that has all `size` bytes from `base` on.
    pub(crate) fn holder(&self, base: u32, size: u32) -> Option<Object>
        requires { 1 ≤ size }
        ensures held { result ≡ find (λ o. holds o base size) self.now.objects }
        ensures in_order { AreObjects 0 self.now.objects }
    {
        find_object(&self.objects, base, size)
    }

    /// The cell at an address of a live object.
    pub(crate) fn cell(&self, x: u32) -> Cell
        ensures { result ≡ kept_at self.now x }
    {
        match self.pages.at(x) {
            Some(cell) => cell,
            None if is_live_at(&self.zeroed, x) => Cell::Byte(0),
            None => Cell::Blank,
        }
    }

    /// The value that an access finds; the access is not right where it answers so.
    pub fn load(&self, chunk: Chunk, addr: Val) -> Result<Val, WrongAccess>
        ensures { MatchResult result (λ v. load (memory_of self.now) chunk addr ≡ Some v) (λ _. load (memory_of self.now) chunk addr ≡ None) }
    {
        if !self.is_right(chunk, addr) {
            return Err(WrongAccess);
        }
        let Val::Word(x) = addr else {
            return Err(WrongAccess);
        };
        Ok(match chunk {
            Chunk::I8s | Chunk::I8u => val_of(chunk, &[self.cell(x)]),
            Chunk::I16s | Chunk::I16u => val_of(chunk, &[self.cell(x), self.cell(x + 1)]),
            Chunk::I32 => val_of(
                chunk,
                &[
                    self.cell(x),
                    self.cell(x + 1),
                    self.cell(x + 2),
                    self.cell(x + 3),
                ],
            ),
        })
    }

    /// Adds an object whose bytes are blank.
    pub fn add(&mut self, o: Object) -> Result<(), NoMemory>
        requires sound { IsSound o.base o.size }
        requires apart { IsApart o.base o.size self.old.objects }
        ensures ok { OnOk result (memory_of self.new ≡ added o Blank (memory_of self.old)) }
        ensures err { OnErr result (memory_of self.new ≡ memory_of self.old) }
        ensures room { 1 ≤ self.old.spare → IsOk result }
    {
        insert_object(&mut self.objects, o)?;
        self.pages.forget(o.base, o.size);
        Ok(())
    }

    /// Adds an object whose bytes are zeros. No cell is written for it, however large it is.
    pub fn add_zeroed(&mut self, o: Object) -> Result<(), NoMemory>
        requires sound { IsSound o.base o.size }
        requires apart { IsApart o.base o.size self.old.objects }
        ensures ok { OnOk result (memory_of self.new ≡ added o (Byte 0) (memory_of self.old)) }
        ensures err { OnErr result (memory_of self.new ≡ memory_of self.old) }
    {
        self.objects.reserve(1)?;
        insert_object(&mut self.zeroed, o)?;
        insert_object(&mut self.objects, o)?;
        self.pages.forget(o.base, o.size);
        Ok(())
    }

    /// Ends the object with this base.
    pub fn remove(&mut self, base: u32)
        requires { list_any (λ o. o.base == base) self.old.objects ≡ true }
        ensures { memory_of self.new ≡ only (removed base self.old.objects) (memory_of self.old) }
    {
        end_at(&mut self.objects, base);
        end_at(&mut self.zeroed, base);
    }

    /// Sees to it that the next change of the memory needs no memory of the allocator.
    pub fn reserve(&mut self) -> Result<(), NoMemory>
        ensures same { memory_of self.new ≡ memory_of self.old }
        ensures spare { OnOk result (1 ≤ self.new.spare) }
    {
        self.objects.reserve(1)?;
        self.pages.reserve()
    }

    /// Begins the object of a local in place of the objects that it meets.
    fn place(&mut self, base: u32, size: u32) -> Result<(), NoMemory>
        requires { IsSound base size }
        ensures ok { OnOk result (memory_of self.new ≡ added (local base size) Blank (only (unmet base size self.old.objects) (memory_of self.old))) }
        ensures err { OnErr result (memory_of self.new ≡ memory_of self.old) }
        ensures room { 1 ≤ self.old.spare → IsOk result }
    {
        self.objects.reserve(1)?;
        end_met(&mut self.objects, base, size);
        end_met(&mut self.zeroed, base, size);
        let kind = Kind::Local;
        insert_object(&mut self.objects, Object { base, size, kind })?;
        self.pages.forget(base, size);
        Ok(())
    }

    /// Ends the object with this base and size, where there is one.
    fn lift(&mut self, base: u32, size: u32)
        ensures { memory_of self.new ≡ only (lifted base size self.old.objects) (memory_of self.old) }
    {
        end_lifted(&mut self.objects, base, size);
        end_lifted(&mut self.zeroed, base, size);
    }

    /// Writes the low bytes of a value.
    fn put(&mut self, chunk: Chunk, addr: Val, val: Val) -> Result<(), ApplyRefusal>
        ensures wrong { (result ≡ Err ApplyRefusal.Wrong) ↔ (put (memory_of self.old) chunk addr val ≡ None) }
        ensures ok { OnOk result (put (memory_of self.old) chunk addr val ≡ Some (memory_of self.new)) }
        ensures err { OnErr result (memory_of self.new ≡ memory_of self.old) }
        ensures room { 1 ≤ self.old.spare → result ≢ Err ApplyRefusal.NoMemory }
    {
        if !self.is_right(chunk, addr) {
            return Err(ApplyRefusal::Wrong);
        }
        let Val::Word(x) = addr else {
            return Err(ApplyRefusal::Wrong);
        };
        if self.pages.open(x).is_err() {
            return Err(ApplyRefusal::NoMemory);
        }
        let size = size_of_chunk(chunk) as usize;
        self.pages.set_all(x, &bytes_of(chunk, val)[..size]);
        Ok(())
    }

    /// Applies an item of a store buffer. After a refusal the memory is as it was.
    pub fn apply(&mut self, item: &Item) -> Result<(), ApplyRefusal>
        requires { IsSoundItem item.now }
        ensures wrong { (result ≡ Err ApplyRefusal.Wrong) ↔ (applied (memory_of self.old) item.now ≡ None) }
        ensures ok { OnOk result (applied (memory_of self.old) item.now ≡ Some (memory_of self.new)) }
        ensures err { OnErr result (memory_of self.new ≡ memory_of self.old) }
        ensures room { 1 ≤ self.old.spare → result ≢ Err ApplyRefusal.NoMemory }
    {
        match *item {
            Item::Put { chunk, addr, val } => self.put(chunk, addr, val),
            Item::Place { base, size } => match self.place(base, size) {
                Ok(()) => Ok(()),
                Err(NoMemory) => Err(ApplyRefusal::NoMemory),
            },
            Item::Lift { base, size } => {
                self.lift(base, size);
                Ok(())
            }
        }
    }
}
