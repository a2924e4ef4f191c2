//! Buffers of writes: what a thread has written that has not reached memory.
ghost use Rattle.std.specs.Prelude.{◌≡◌, ℕ, ◌≤◌, [], ◌∷◌, ◌++◌, OnOk, OnErr, IsOk, MatchOption, IfSome};
ghost use Rattle.x86_memory.specs.Bytes.{IsSound, AreSound, byte_of};

use std::alloc::{AllocError, Global};
use std::marker::Model;
use tso_words::NoMemory;
use x86_steps::access::Size;

/// A write of the low bytes of a value.
#[derive(Clone, Copy, PartialEq, Eq, Debug)]
pub struct Write {
    pub address: u32,
    pub size: Size,
    pub value: u32,
}

impl Write {
    /// The byte that it writes at an address, if it writes one there.
    pub fn byte(&self, x: u32) -> Option<u8>
        ensures { result ≡ byte_of self.now x }
    {
        if x < self.address || x - self.address >= self.size.bytes() {
            return None;
        }
        let byte = match x - self.address {
            0 => self.value % 256,
            1 => self.value / 256 % 256,
            2 => self.value / 65536 % 256,
            _ => self.value / 16777216,
        };
        Some(byte as u8)
    }
}

/// The writes of a thread that have not reached memory, oldest first.
#[derive(Drop)]
pub struct Buffer {
    /// The writes, behind some that were taken off: at most half of the list.
    list: Vec<Write>,
    /// How many were taken off.
    head: usize,
}

impl Model for Buffer {
    ghost use Rattle.std.specs.Prelude.{◌-◌, drop};
    ghost use Rattle.std.specs.Vec.{vec_len, vec_capacity};
    ghost use Rattle.x86_memory.specs.Bytes.{Waiting};
    ghost use Rattle.x86_memory.specs.Kept.{IsQueue};

    ghost Value = { Waiting };

    ghost view = { λ b. record { writes = drop b.head b.list.items; spare = vec_capacity b.list - vec_len b.list } };

    ghost invariant = { λ b. IsQueue b.list.items b.head };
}

impl Buffer {
    /// An empty buffer.
    pub fn new(alloc: Global) -> Buffer
        ensures { result.writes ≡ [] }
    {
        Buffer {
            list: Vec::new(alloc),
            head: 0,
        }
    }

    /// The writes, oldest first.
    pub fn writes(&self) -> &[Write]
        ensures list { result.now ≡ self.now.writes }
        ensures sound { AreSound self.now.writes }
    {
        &self.list[self.head..]
    }

    /// Adds a write behind the others.
    pub fn push(&mut self, write: Write) -> Result<(), NoMemory>
        requires { IsSound write }
        ensures ok { OnOk result (self.new.writes ≡ self.old.writes ++ write ∷ []) }
        ensures err { OnErr result (self.new.writes ≡ self.old.writes) }
        ensures room { 1 ≤ self.old.spare → IsOk result }
    {
        match self.list.push(write) {
            Ok(()) => Ok(()),
            Err(e) => Err(AllocError::from(e).into()),
        }
    }

    /// Takes the oldest write off: those in front of it are cut off once they are more than half of
    /// the list.
    pub fn pop(&mut self) -> Option<Write>
        ensures oldest { MatchOption result ((self.old.writes ≡ []) × (self.new.writes ≡ [])) (λ write. self.old.writes ≡ write ∷ self.new.writes) }
        ensures sound { IfSome result IsSound }
    {
        if self.head == self.list.len() {
            return None;
        }
        let write = self.list[self.head];
        self.head += 1;
        if self.head > self.list.len() / 2 {
            self.list.drain(..self.head);
            self.head = 0;
        }
        Some(write)
    }

    /// Sees to it that one more write needs no memory.
    pub fn reserve(&mut self) -> Result<(), NoMemory>
        ensures same { self.new.writes ≡ self.old.writes }
        ensures spare { OnOk result (1 ≤ self.new.spare) }
    {
        self.list.reserve(1)?;
        Ok(())
    }
}
