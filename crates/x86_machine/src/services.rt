//! Services of the machine, and calls of the outside.
ghost use Rattle.std.specs.Prelude.{◌≡◌, MatchOption, OnOk, [], ◌∷◌, ◌++◌, true, false, ◌<◌, ◌+◌, ◌^◌, ◌≤◌, None, Some, IfOk, slice_get, vec_len, length};
ghost use Rattle.std.specs.Bool.{OnTrue};
ghost use Rattle.x86_lang.specs.Assembly.{assembly_of};
ghost use Rattle.x86_memory.specs.Bytes.{word_at};
ghost use Rattle.x86_steps.specs.declared.access.Size.TheVariants as size;
ghost use Rattle.x86_machine.specs.Gives.{Gives};
ghost use Rattle.x86_machine.specs.Kept.{state_of, thread_of};
ghost use Rattle.x86_machine.specs.Services.{service_of, needs_empty_buffer, may_choose};
ghost use Rattle.x86_machine.specs.Target.{Thread as ThreadMeaning, is_code, is_right as is_right_in, are_right, seen, words_from};
ghost use Rattle.x86_machine.specs.X86Tso.{done as done_in, returned as returned_in, word_at_esp, outside as outside_in, exit as exit_in, freed as freed_in, free as free_in, given as given_in, malloc as malloc_in, created as created_in, create as create_in};

use crate::address_map::{is_right, is_stack_allowed};
use crate::heap::{add_block, block_size, is_block, is_block_allowed, remove_block};
use crate::now::X86Now;
use crate::program::Program;
use crate::target::Target;
use crate::thread::Thread;
use std::alloc::Global;
use tso_core::Event;
use tso_core::offer::StepRefusal;
use tso_words::{Name, NoMemory, Words};
use x86_steps::access::Size;

/// What the machine itself answers to a call.
#[derive(Clone, Copy, Debug, PartialEq, Eq)]
pub enum Service {
    Malloc,
    Free,
    ThreadCreate,
    Exit,
}

/// The most threads that a machine has.
const THREADS: usize = 4_294_967_295;

/// The service with a name.
pub fn service_of(name: &Name) -> Option<Service>
    ensures { result ≡ service_of name.now }
{
    if name.bytes() == b"malloc".as_slice() {
        return Some(Service::Malloc);
    }
    if name.bytes() == b"free".as_slice() {
        return Some(Service::Free);
    }
    if name.bytes() == b"thread_create".as_slice() {
        return Some(Service::ThreadCreate);
    }
    if name.bytes() == b"exit".as_slice() {
        return Some(Service::Exit);
    }
    None
}

impl Service {
    /// Whether a call of it waits until the thread's buffer is empty.
    pub fn needs_empty_buffer(self) -> bool
        ensures { result ≡ needs_empty_buffer self }
    {
        match self {
            Service::Malloc | Service::Free | Service::ThreadCreate => true,
            Service::Exit => false,
        }
    }

    /// Whether a call of it may take a choice.
    pub fn may_choose(self) -> bool
        ensures { result ≡ may_choose self }
    {
        match self {
            Service::Malloc | Service::ThreadCreate => true,
            Service::Free | Service::Exit => false,
        }
    }
}

impl Target {
    /// The word that a thread loads from an address, which may lie past the last one; None where
    /// the access is not right.
    pub fn word(&self, program: &Program, who: &Thread, address: u64) -> Option<u32>
        ensures { MatchOption result (is_right_in (assembly_of program.now) (state_of self.now) size.Word address ≡ false) (λ w. (is_right_in (assembly_of program.now) (state_of self.now) size.Word address ≡ true) × (w ≡ word_at (seen (state_of self.now) (thread_of who.now)) size.Word address)) }
    {
        if !is_right(program.bytes(), &self.threads, Size::Word, address) {
            return None;
        }
        Some(
            self.memory
                .load(who.buffer.writes(), Size::Word, address as u32),
        )
    }

    /// The words that a thread loads from an address on; None where one of the accesses is not
    /// right.
    pub fn words(
        &self,
        alloc: Global,
        program: &Program,
        who: &Thread,
        esp: u32,
        count: u32,
    ) -> Result<Option<Vec<u32>>, NoMemory>
        ensures { IfOk result (λ r. MatchOption r (are_right (assembly_of program.now) (state_of self.now) esp count ≡ false) (λ ws. (are_right (assembly_of program.now) (state_of self.now) esp count ≡ true) × (ws.items ≡ words_from (seen (state_of self.now) (thread_of who.now)) esp count))) }
    {
        let mut words = Vec::new(alloc);
        let mut address = u64::from(esp);
        for _turn in 0..count {
            match self.word(program, who, address) {
                None => return Ok(None),
                Some(word) => add_word(&mut words, word)?,
            }
            address += 4;
        }
        Ok(Some(words))
    }

    /// The word at the stack pointer of a thread; None where the access to it is not right.
    pub fn first_word(&self, program: &Program, thread: u32) -> Option<u32>
        requires { thread < vec_len self.now.threads }
        ensures { (t : ThreadMeaning) → slice_get (state_of self.now).threads thread ≡ Some t → MatchOption result (are_right (assembly_of program.now) (state_of self.now) t.registers.esp 1 ≡ false) (λ w. (are_right (assembly_of program.now) (state_of self.now) t.registers.esp 1 ≡ true) × (w ≡ word_at_esp (state_of self.now) t 0)) }
    {
        let who = &self.threads[thread as usize];
        self.word(program, who, u64::from(who.registers.esp))
    }

    /// The two words at the stack pointer of a thread; None where an access to one is not right.
    pub fn two_words(&self, program: &Program, thread: u32) -> Option<(u32, u32)>
        requires { thread < vec_len self.now.threads }
        ensures { (t : ThreadMeaning) → slice_get (state_of self.now).threads thread ≡ Some t → MatchOption result (are_right (assembly_of program.now) (state_of self.now) t.registers.esp 2 ≡ false) (λ w. (are_right (assembly_of program.now) (state_of self.now) t.registers.esp 2 ≡ true) × (w ≡ (word_at_esp (state_of self.now) t 0, word_at_esp (state_of self.now) t 1))) }
    {
        let who = &self.threads[thread as usize];
        let esp = u64::from(who.registers.esp);
        let first = self.word(program, who, esp)?;
        let second = self.word(program, who, esp + 4)?;
        Some((first, second))
    }

    /// Whether an instruction follows that of the thread.
    fn has_next(&self, program: &Program, thread: u32) -> bool
        requires { thread < vec_len self.now.threads }
        ensures value { (t : ThreadMeaning) → slice_get (state_of self.now).threads thread ≡ Some t → result ≡ is_code (assembly_of program.now) (t.place + 1) }
        ensures fits { OnTrue result ((t : ThreadMeaning) → slice_get (state_of self.now).threads thread ≡ Some t → t.place + 1 < 2 ^ 32) }
    {
        program.is_code(u64::from(self.threads[thread as usize].place) + 1)
    }

    // A call that is done and shows nothing.
    fn done(&mut self, program: &Program, thread: u32, word: u32) -> Option<Event>
        requires { thread < vec_len self.old.threads }
        ensures { (t : ThreadMeaning) → slice_get (state_of self.old).threads thread ≡ Some t → Some (result, state_of self.new) ≡ done_in (assembly_of program.now) (state_of self.old) thread t word }
    {
        if !self.has_next(program, thread) {
            self.status = X86Now::Fault;
            return None;
        }
        self.answer(thread as usize, word);
        None
    }

    /// A call of the outside is done with a word that is chosen.
    pub fn returned(
        &mut self,
        program: &Program,
        thread: u32,
        choice: Option<u32>,
    ) -> Result<Option<Event>, StepRefusal>
        requires { thread < vec_len self.old.threads }
        ensures { (t : ThreadMeaning) → slice_get (state_of self.old).threads thread ≡ Some t → Gives (returned_in (assembly_of program.now) (state_of self.old) thread t choice) (state_of self.old) (state_of self.new) result }
    {
        match choice {
            None => Err(StepRefusal::NotEnabled),
            Some(word) => {
                if !self.has_next(program, thread) {
                    self.status = X86Now::Fault;
                    return Ok(None);
                }
                self.answer(thread as usize, word);
                Ok(Some(Event::Return { thread, word }))
            }
        }
    }

    /// A call of the outside shows its words, and the thread waits.
    pub fn outside(
        &mut self,
        alloc: Global,
        program: &Program,
        thread: u32,
        name: &Name,
        count: u32,
    ) -> Result<Option<Event>, StepRefusal>
        requires { thread < vec_len self.old.threads }
        ensures { (t : ThreadMeaning) → slice_get (state_of self.old).threads thread ≡ Some t → Gives (outside_in (assembly_of program.now) (state_of self.old) thread t name.now count) (state_of self.old) (state_of self.new) result }
    {
        let who = &self.threads[thread as usize];
        let Some(words) = self.words(alloc, program, who, who.registers.esp, count)? else {
            self.status = X86Now::Fault;
            return Ok(None);
        };
        let name = copy_of(alloc, name)?;
        let words = Words::made(alloc, words.as_slice())?;
        self.wait(thread as usize);
        Ok(Some(Event::Call {
            thread,
            name,
            words,
        }))
    }

    /// The service `exit`.
    pub fn exit(&mut self, program: &Program, thread: u32) -> Option<Event>
        requires { thread < vec_len self.old.threads }
        ensures { (t : ThreadMeaning) → slice_get (state_of self.old).threads thread ≡ Some t → Some (result, state_of self.new) ≡ exit_in (assembly_of program.now) (state_of self.old) t }
    {
        match self.first_word(program, thread) {
            None => {
                self.status = X86Now::Fault;
                None
            }
            Some(word) => {
                self.status = X86Now::Exited;
                Some(Event::Exit { word })
            }
        }
    }

    // A block ends; 0 does nothing, and what is no live block's base is a fault.
    fn freed(&mut self, program: &Program, thread: u32, base: u32) -> Option<Event>
        requires { thread < vec_len self.old.threads }
        ensures { (t : ThreadMeaning) → slice_get (state_of self.old).threads thread ≡ Some t → Some (result, state_of self.new) ≡ freed_in (assembly_of program.now) (state_of self.old) thread t base }
    {
        let eax = self.threads[thread as usize].registers.eax;
        if base == 0 {
            return self.done(program, thread, eax);
        }
        if !is_block(&self.blocks, base) {
            self.status = X86Now::Fault;
            return None;
        }
        if !self.has_next(program, thread) {
            self.status = X86Now::Fault;
            return None;
        }
        remove_block(&mut self.blocks, base);
        self.answer(thread as usize, eax);
        None
    }

    /// The service `free`.
    pub fn free(&mut self, program: &Program, thread: u32) -> Option<Event>
        requires { thread < vec_len self.old.threads }
        ensures { (t : ThreadMeaning) → slice_get (state_of self.old).threads thread ≡ Some t → Some (result, state_of self.new) ≡ free_in (assembly_of program.now) (state_of self.old) thread t }
    {
        match self.first_word(program, thread) {
            None => {
                self.status = X86Now::Fault;
                None
            }
            Some(base) => self.freed(program, thread, base),
        }
    }

    // A block at the base that is chosen; 0 is the want of heap.
    fn given(
        &mut self,
        program: &Program,
        thread: u32,
        asked: u32,
        choice: u32,
    ) -> Result<Option<Event>, StepRefusal>
        requires { thread < vec_len self.old.threads }
        ensures { (t : ThreadMeaning) → slice_get (state_of self.old).threads thread ≡ Some t → Gives (given_in (assembly_of program.now) (state_of self.old) thread t asked choice) (state_of self.old) (state_of self.new) result }
    {
        if choice == 0 {
            self.status = X86Now::NoHeap;
            return Ok(None);
        }
        let bytes = block_size(asked);
        if !is_block_allowed(&self.blocks, choice, bytes) {
            return Err(StepRefusal::NotEnabled);
        }
        if !self.has_next(program, thread) {
            self.status = X86Now::Fault;
            return Ok(None);
        }
        add_block(&mut self.blocks, choice, bytes)?;
        self.answer(thread as usize, choice);
        Ok(None)
    }

    /// The service `malloc`.
    pub fn malloc(
        &mut self,
        program: &Program,
        thread: u32,
        choice: Option<u32>,
    ) -> Result<Option<Event>, StepRefusal>
        requires { thread < vec_len self.old.threads }
        ensures { (t : ThreadMeaning) → slice_get (state_of self.old).threads thread ≡ Some t → Gives (malloc_in (assembly_of program.now) (state_of self.old) thread t choice) (state_of self.old) (state_of self.new) result }
    {
        match (self.first_word(program, thread), choice) {
            (None, None) => {
                self.status = X86Now::Fault;
                Ok(None)
            }
            (Some(asked), Some(choice)) => self.given(program, thread, asked, choice),
            (None, Some(_)) | (Some(_), None) => Err(StepRefusal::NotEnabled),
        }
    }

    // A thread with its stack at the base that is chosen; 0 is the want of a stack.
    fn created(
        &mut self,
        alloc: Global,
        program: &Program,
        thread: u32,
        function: u32,
        argument: u32,
        choice: u32,
    ) -> Result<Option<Event>, StepRefusal>
        requires there { thread < vec_len self.old.threads }
        requires room { vec_len self.old.threads < 4294967295 }
        ensures { (t : ThreadMeaning) → slice_get (state_of self.old).threads thread ≡ Some t → Gives (created_in (assembly_of program.now) (state_of self.old) thread t function argument choice) (state_of self.old) (state_of self.new) result }
    {
        if choice == 0 {
            self.status = X86Now::NoStack;
            return Ok(None);
        }
        if !is_stack_allowed(&self.threads, choice) {
            return Err(StepRefusal::NotEnabled);
        }
        if !program.is_code(u64::from(function)) {
            self.status = X86Now::Fault;
            return Ok(None);
        }
        if !self.has_next(program, thread) {
            self.status = X86Now::Fault;
            return Ok(None);
        }
        let number = self.threads.len() as u32;
        self.begin(alloc, function, argument, choice)?;
        self.answer(thread as usize, number);
        Ok(None)
    }

    /// The service `thread_create`.
    pub fn create(
        &mut self,
        alloc: Global,
        program: &Program,
        thread: u32,
        choice: Option<u32>,
    ) -> Result<Option<Event>, StepRefusal>
        requires { thread < vec_len self.old.threads }
        ensures { (t : ThreadMeaning) → slice_get (state_of self.old).threads thread ≡ Some t → Gives (create_in (assembly_of program.now) (state_of self.old) thread t choice) (state_of self.old) (state_of self.new) result }
    {
        if self.threads.len() >= THREADS {
            return Err(StepRefusal::NotEnabled);
        }
        match (self.two_words(program, thread), choice) {
            (None, None) => {
                self.status = X86Now::Fault;
                Ok(None)
            }
            (Some((function, argument)), Some(choice)) => {
                self.created(alloc, program, thread, function, argument, choice)
            }
            (None, Some(_)) | (Some(_), None) => Err(StepRefusal::NotEnabled),
        }
    }
}

// Adds a word behind the others.
fn add_word(words: &mut Vec<u32>, word: u32) -> Result<(), NoMemory>
    ensures { OnOk result (words.new.items ≡ words.old.items ++ word ∷ []) }
{
    match words.push(word) {
        Ok(()) => Ok(()),
        Err(_) => Err(NoMemory),
    }
}

// A copy of a name.
fn copy_of(alloc: Global, name: &Name) -> Result<Name, NoMemory>
    ensures { IfOk result (λ copy. copy ≡ name.now) }
{
    Name::made(alloc, name.bytes())
}
