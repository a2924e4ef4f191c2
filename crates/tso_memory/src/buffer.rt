//! Store buffers: what a thread has done to memory that has not reached it.
ghost use Rattle.std.specs.Prelude.{◌≡◌, ℕ, ◌≤◌, [], ◌∷◌, ◌++◌, OnOk, OnErr, IsOk, MatchOption, IfSome};
ghost use Rattle.tso_memory.specs.Buffer.{IsSoundItem, AreSoundItems};

use std::alloc::{AllocError, Global};
use std::marker::Model;
use tso_words::{Chunk, NoMemory, Val};

/// A change of memory that waits in a buffer.
#[derive(Clone, Copy, PartialEq, Eq, Debug)]
pub enum Item {
    /// A store of the low bytes of `val`.
    Put { chunk: Chunk, addr: Val, val: Val },
    /// The object of a local begins: `size` bytes from `base` on.
    Place { base: u32, size: u32 },
    /// The object with this base and size ends.
    Lift { base: u32, size: u32 },
}

/// The items of a thread that have not reached memory, oldest first.
#[derive(Drop)]
pub struct Buffer {
    /// The items, behind some that were taken off: at most half of the list.
    list: Vec<Item>,
    /// How many were taken off.
    head: usize,
}

impl Model for Buffer {
    ghost use Rattle.std.specs.Prelude.{◌-◌, drop};
    ghost use Rattle.std.specs.Vec.{vec_len, vec_capacity};
    ghost use Rattle.tso_memory.specs.Buffer.{BufferMeaning};
    ghost use Rattle.tso_memory.specs.Kept.{IsQueue};

    ghost Value = { BufferMeaning };

    ghost view = { λ b. record { items = drop b.head b.list.items; spare = vec_capacity b.list - vec_len b.list } };

    ghost invariant = { λ b. IsQueue b.list.items b.head };
}

impl Buffer {
    /// An empty buffer.
    pub fn new(alloc: Global) -> Buffer
        ensures { result.items ≡ [] }
    {
        Buffer {
            list: Vec::new(alloc),
            head: 0,
        }
    }

    /// The items, oldest first.
    pub fn items(&self) -> &[Item]
        ensures list { result.now ≡ self.now.items }
        ensures sound { AreSoundItems self.now.items }
    {
        &self.list[self.head..]
    }

    /// Adds an item behind the others.
    pub fn push(&mut self, item: Item) -> Result<(), NoMemory>
        requires { IsSoundItem item }
        ensures ok { OnOk result (self.new.items ≡ self.old.items ++ item ∷ []) }
        ensures err { OnErr result (self.new.items ≡ self.old.items) }
        ensures room { 1 ≤ self.old.spare → IsOk result }
    {
        match self.list.push(item) {
            Ok(()) => Ok(()),
            Err(e) => Err(AllocError::from(e).into()),
        }
    }

    /// Takes the oldest item off, in constant time over all calls: those in front of the oldest are
    /// cut off once they are more than half of the list.
    pub fn pop(&mut self) -> Option<Item>
        ensures oldest { MatchOption result ((self.old.items ≡ []) × (self.new.items ≡ [])) (λ item. self.old.items ≡ item ∷ self.new.items) }
        ensures sound { IfSome result IsSoundItem }
    {
        if self.head == self.list.len() {
            return None;
        }
        let item = self.list[self.head];
        self.head += 1;
        if self.head > self.list.len() / 2 {
            self.list.drain(..self.head);
            self.head = 0;
        }
        Some(item)
    }

    /// Sees to it that one more item needs no memory.
    pub fn reserve(&mut self) -> Result<(), NoMemory>
        ensures same { self.new.items ≡ self.old.items }
        ensures spare { OnOk result (1 ≤ self.new.spare) }
    {
        self.list.reserve(1)?;
        Ok(())
    }
}
