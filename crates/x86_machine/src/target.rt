//! The state of the machine, and what a step changes of it.
ghost use Rattle.std.specs.Prelude.{◌≡◌, ◌==◌, not, length, ◌<◌, ◌+◌, ◌^◌, ◌%◌, ◌≤◌, Some, OnOk, OnErr, slice_get, vec_len, true};
ghost use Rattle.x86_memory.specs.Bytes.{IsAligned, word_at};
ghost use Rattle.x86_memory.specs.Kept.{bytes_in};
ghost use Rattle.x86_machine.specs.Kept.{thread_of, threads_of, state_of, thread_with, memory_with, IsAlignedAccess};
ghost use Rattle.x86_machine.specs.Target.{Thread as ThreadMeaning, seen, start_of};
ghost use Rattle.x86_machine.specs.X86Tso.{with_thread, answered, begun, waiting, thread_after, write_of, stored, stored_at, is_last_return};

use crate::now::X86Now;
use crate::thread::{STACK_SIZE, Thread};
use std::alloc::Global;
use tso_words::NoMemory;
use x86_memory::buffer::Write;
use x86_memory::memory::Memory;
use x86_steps::access::{Access, Kind, Size};
use x86_steps::execution::After;
use x86_steps::flags::Flags;
use x86_steps::registers::Registers;
use x86_table::instruction::Instr;

/// The state of the machine.
#[derive(Drop)]
pub struct Target {
    pub status: X86Now,
    pub memory: Memory,
    /// The live blocks of the heap, bases with sizes, by rising base.
    pub blocks: Vec<(u32, u32)>,
    /// In order of creation.
    pub threads: Vec<Thread>,
}

// The write of a value at an access.
fn write_of(access: &Access, value: u32) -> Write
    ensures { result ≡ write_of access.now value }
{
    Write {
        address: access.address,
        size: access.size,
        value,
    }
}

impl Thread {
    // Goes on behind an instruction.
    fn go(&mut self, after: &After)
        ensures thread { thread_of self.new ≡ thread_after (thread_of self.old) after.now }
        ensures buffer { self.new.buffer ≡ self.old.buffer }
    {
        self.registers = after.registers;
        self.flags = after.flags;
        self.place = after.place;
    }

    // What an access stores waits in the buffer, unless the access is locked.
    fn wait_for(&mut self, access: &Access, written: Option<u32>) -> Result<(), NoMemory>
        requires { IsAligned access.now.address access.now.size }
        ensures ok { OnOk result (thread_of self.new ≡ thread_with (thread_of self.old) access.now access.now.kind written) }
        ensures err { OnErr result ((thread_of self.new ≡ thread_of self.old) × (access.now.kind ≡ Kind.Store)) }
    {
        match (access.kind, written) {
            (Kind::Store, Some(value)) => self.buffer.push(write_of(access, value)),
            _ => Ok(()),
        }
    }
}

impl Thread {
    // Goes on behind an instruction, whose access stores.
    fn store(&mut self, after: &After, access: &Access) -> Result<(), NoMemory>
        requires { IsAligned access.now.address access.now.size }
        ensures ok { OnOk result (thread_of self.new ≡ thread_with (thread_after (thread_of self.old) after.now) access.now access.now.kind after.now.written) }
        ensures err { OnErr result ((thread_of self.new ≡ thread_of self.old) × (access.now.kind ≡ Kind.Store)) }
    {
        self.wait_for(access, after.written)?;
        self.go(after);
        Ok(())
    }

    // A call is done, with a word in EAX.
    fn answer(&mut self, word: u32)
        requires { self.old.place + 1 < 2 ^ 32 }
        ensures { thread_of self.new ≡ answered (thread_of self.old) word }
    {
        self.registers.eax = word;
        self.flags = Flags::unknown();
        self.place += 1;
        self.waits = false;
    }

    // A call of the outside has not returned.
    fn wait(&mut self)
        ensures { thread_of self.new ≡ waiting (thread_of self.old) }
    {
        self.flags = Flags::unknown();
        self.waits = true;
    }

    /// Its registers, its flags and its place.
    pub fn executing(&self) -> (Registers, Flags, u32)
        ensures { result ≡ (self.now.registers, self.now.flags, self.now.place) }
    {
        (self.registers, self.flags, self.place)
    }

    /// Whether writes wait in its buffer.
    pub fn has_writes(&self) -> bool
        ensures { result ≡ not (length (thread_of self.now).buffer == 0) }
    {
        !self.buffer.writes().is_empty()
    }

    /// Whether this is the return from the function that the thread began with.
    pub fn is_last_return(&self, instr: &Instr, place: u32) -> bool
        ensures { result ≡ is_last_return instr.now (thread_of self.now) place }
    {
        match instr {
            Instr::Return => place == 0 && self.is_at_start(),
            _ => false,
        }
    }

    // The stack pointer is where it began.
    fn is_at_start(&self) -> bool
        ensures { result ≡ (self.now.registers.esp == start_of self.now.stack) }
    {
        u64::from(self.registers.esp) == u64::from(self.stack) + u64::from(STACK_SIZE - 8)
    }
}

// What a locked access stores is in memory at once.
fn store_locked(memory: &mut Memory, access: &Access, written: Option<u32>) -> Result<(), NoMemory>
    requires { IsAligned access.now.address access.now.size }
    ensures ok { OnOk result (bytes_in memory.new ≡ memory_with (bytes_in memory.old) access.now access.now.kind written) }
    ensures err { OnErr result (bytes_in memory.new ≡ bytes_in memory.old) }
{
    match (access.kind, written) {
        (Kind::Locked, Some(value)) => memory.put(write_of(access, value)),
        _ => Ok(()),
    }
}

impl Target {
    /// The machine stops; everything else stays.
    pub fn stop(&mut self, end: X86Now)
        ensures { state_of self.new ≡ record (state_of self.old) { now = end } }
    {
        self.status = end;
    }

    /// A thread goes on behind an instruction.
    pub fn go(&mut self, thread: usize, after: &After)
        requires { thread < vec_len self.old.threads }
        ensures { (t : ThreadMeaning) → slice_get (state_of self.old).threads thread ≡ Some t → state_of self.new ≡ with_thread (state_of self.old) thread (thread_after t after.now) }
    {
        self.threads[thread].go(after);
    }

    /// The word that a thread loads, extended by zeros.
    pub fn load(&self, thread: usize, size: Size, address: u32) -> u32
        requires there { thread < vec_len self.now.threads }
        requires aligned { IsAligned address size }
        ensures { (t : ThreadMeaning) → slice_get (state_of self.now).threads thread ≡ Some t → result ≡ word_at (seen (state_of self.now) t) size address }
    {
        self.memory
            .load(self.threads[thread].buffer.writes(), size, address)
    }

    /// A thread has ended.
    pub fn end(&mut self, thread: usize)
        requires { thread < vec_len self.old.threads }
        ensures { (t : ThreadMeaning) → slice_get (state_of self.old).threads thread ≡ Some t → state_of self.new ≡ with_thread (state_of self.old) thread (record t { ended = true }) }
    {
        self.threads[thread].ended = true;
    }

    // A thread goes on behind an instruction, whose access stores. Of a store and what is stored at
    // once there is one, so that where memory lacks nothing has changed.
    fn store(&mut self, thread: usize, after: &After, access: &Access) -> Result<(), NoMemory>
        requires there { thread < vec_len self.old.threads }
        requires aligned { IsAligned access.now.address access.now.size }
        ensures ok { (t : ThreadMeaning) → slice_get (state_of self.old).threads thread ≡ Some t → OnOk result (state_of self.new ≡ stored (state_of self.old) thread (thread_after t after.now) access.now access.now.kind after.now.written) }
        ensures err { OnErr result (state_of self.new ≡ state_of self.old) }
    {
        store_locked(&mut self.memory, access, after.written)?;
        self.threads[thread].store(after, access)
    }

    /// A thread goes on behind an instruction.
    pub fn go_on(
        &mut self,
        thread: usize,
        after: &After,
        access: &Option<Access>,
    ) -> Result<(), NoMemory>
        requires there { thread < vec_len self.old.threads }
        requires aligned { IsAlignedAccess access.now }
        ensures ok { (t : ThreadMeaning) → slice_get (state_of self.old).threads thread ≡ Some t → OnOk result (state_of self.new ≡ stored_at (state_of self.old) thread (thread_after t after.now) access.now after.now.written) }
        ensures err { OnErr result (state_of self.new ≡ state_of self.old) }
    {
        match access {
            None => {
                self.go(thread, after);
                Ok(())
            }
            Some(access) => self.store(thread, after, access),
        }
    }

    /// A further thread begins at a function, with its argument and its stack.
    pub fn begin(
        &mut self,
        alloc: Global,
        place: u32,
        argument: u32,
        stack: u32,
    ) -> Result<(), NoMemory>
        requires multiple { stack % 16 ≡ 0 }
        requires fits { stack + 1048576 ≤ 2 ^ 32 }
        ensures ok { OnOk result (state_of self.new ≡ begun (state_of self.old) place argument stack) }
        ensures err { OnErr result (state_of self.new ≡ state_of self.old) }
    {
        self.threads.reserve(1)?;
        let top = stack + (STACK_SIZE - 8);
        self.memory.put_pair(top, 0, argument)?;
        match self.threads.push(Thread::new(alloc, place, stack)) {
            Ok(()) => Ok(()),
            Err(_) => Err(NoMemory),
        }
    }

    /// A call of a thread is done, with a word in EAX.
    pub fn answer(&mut self, thread: usize, word: u32)
        requires there { thread < vec_len self.old.threads }
        requires place { (t : ThreadMeaning) → slice_get (state_of self.old).threads thread ≡ Some t → t.place + 1 < 2 ^ 32 }
        ensures { (t : ThreadMeaning) → slice_get (state_of self.old).threads thread ≡ Some t → state_of self.new ≡ with_thread (state_of self.old) thread (answered t word) }
    {
        self.threads[thread].answer(word);
    }

    /// A call of the outside of a thread has not returned.
    pub fn wait(&mut self, thread: usize)
        requires { thread < vec_len self.old.threads }
        ensures { (t : ThreadMeaning) → slice_get (state_of self.old).threads thread ≡ Some t → state_of self.new ≡ with_thread (state_of self.old) thread (waiting t) }
    {
        self.threads[thread].wait();
    }
}
