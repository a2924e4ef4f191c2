//! Steps of the machine: runs of threads and drains of their buffers.
ghost use Rattle.std.specs.Prelude.{◌≡◌, ◌<◌, ◌+◌, ◌^◌, MatchOption, None, Some, slice_get, vec_len};
ghost use Rattle.tso_core.specs.declared.Step.TheVariants.{Run, Drain};
ghost use Rattle.x86_lang.specs.Assembly.{assembly_of};
ghost use Rattle.x86_machine.specs.Gives.{Gives};
ghost use Rattle.x86_machine.specs.Kept.{state_of};
ghost use Rattle.x86_machine.specs.Services.{name_called, served as served_in};
ghost use Rattle.x86_machine.specs.Target.{Thread as ThreadMeaning, label_of, instruction_at, words_of};
ghost use Rattle.x86_machine.specs.X86Tso.{called as called_in, called_by, performed as performed_in, ran as ran_in, drained_by, step};
ghost use Rattle.x86_table.specs.declared.instruction.Instr.TheVariants.{Call};

use crate::now::X86Now;
use crate::program::Program;
use crate::services::{Service, service_of};
use crate::target::Target;
use std::alloc::Global;
use tso_core::offer::StepRefusal;
use tso_core::{Event, Step};
use tso_words::Name;
use x86_table::instruction::Instr;

/// The name that a call has.
pub fn name_called<'i>(instr: &'i Instr) -> Option<&'i Name>
    ensures { MatchOption result (name_called instr.now ≡ None) (λ name. name_called instr.now ≡ Some name.now) }
{
    match instr {
        Instr::Call { name } => Some(name),
        _ => None,
    }
}

impl Target {
    // A call of a service.
    fn served(
        &mut self,
        alloc: Global,
        program: &Program,
        thread: u32,
        choice: Option<u32>,
        service: Service,
    ) -> Result<Option<Event>, StepRefusal>
        requires { thread < vec_len self.old.threads }
        ensures { (t : ThreadMeaning) → slice_get (state_of self.old).threads thread ≡ Some t → Gives (served_in (assembly_of program.now) (state_of self.old) thread t choice service) (state_of self.old) (state_of self.new) result }
    {
        if service.needs_empty_buffer() && self.threads[thread as usize].has_writes() {
            return Err(StepRefusal::NotEnabled);
        }
        if !service.may_choose() && choice.is_some() {
            return Err(StepRefusal::NotEnabled);
        }
        match service {
            Service::Malloc => self.malloc(program, thread, choice),
            Service::Free => Ok(self.free(program, thread)),
            Service::ThreadCreate => self.create(alloc, program, thread, choice),
            Service::Exit => Ok(self.exit(program, thread)),
        }
    }

    // A call of an external or of a label.
    fn called_by_name(
        &mut self,
        alloc: Global,
        program: &Program,
        thread: u32,
        instr: &Instr,
        label: u32,
        name: &Name,
    ) -> Result<Option<Event>, StepRefusal>
        requires there { thread < vec_len self.old.threads }
        requires label { label ≡ label_of (assembly_of program.now) instr.now }
        requires place { (t : ThreadMeaning) → slice_get (state_of self.old).threads thread ≡ Some t → t.place + 1 < 2 ^ 32 }
        requires call { instr.now ≡ Call name.now }
        ensures { (t : ThreadMeaning) → slice_get (state_of self.old).threads thread ≡ Some t → Gives (called_by (assembly_of program.now) (state_of self.old) thread t name.now (words_of (assembly_of program.now).externs name.now)) (state_of self.old) (state_of self.new) result }
    {
        match program.words_of(name) {
            Some(count) => self.outside(alloc, program, thread, name, count),
            None => self.instructed(program, thread, instr, label),
        }
    }

    // A call by its name.
    fn called(
        &mut self,
        alloc: Global,
        program: &Program,
        thread: u32,
        choice: Option<u32>,
        instr: &Instr,
        label: u32,
        name: &Name,
    ) -> Result<Option<Event>, StepRefusal>
        requires there { thread < vec_len self.old.threads }
        requires label { label ≡ label_of (assembly_of program.now) instr.now }
        requires place { (t : ThreadMeaning) → slice_get (state_of self.old).threads thread ≡ Some t → t.place + 1 < 2 ^ 32 }
        requires call { instr.now ≡ Call name.now }
        ensures { (t : ThreadMeaning) → slice_get (state_of self.old).threads thread ≡ Some t → Gives (called_in (assembly_of program.now) (state_of self.old) thread t choice name.now) (state_of self.old) (state_of self.new) result }
    {
        match service_of(name) {
            Some(service) => self.served(alloc, program, thread, choice, service),
            None => {
                if choice.is_some() {
                    return Err(StepRefusal::NotEnabled);
                }
                self.called_by_name(alloc, program, thread, instr, label, name)
            }
        }
    }

    // The instruction of a thread.
    fn performed_at(
        &mut self,
        alloc: Global,
        program: &Program,
        thread: u32,
        choice: Option<u32>,
        instr: &Instr,
        label: u32,
    ) -> Result<Option<Event>, StepRefusal>
        requires there { thread < vec_len self.old.threads }
        requires label { label ≡ label_of (assembly_of program.now) instr.now }
        requires place { (t : ThreadMeaning) → slice_get (state_of self.old).threads thread ≡ Some t → t.place + 1 < 2 ^ 32 }
        ensures { (t : ThreadMeaning) → slice_get (state_of self.old).threads thread ≡ Some t → Gives (performed_in (assembly_of program.now) (state_of self.old) thread t choice (Some instr.now)) (state_of self.old) (state_of self.new) result }
    {
        match name_called(instr) {
            Some(name) => self.called(alloc, program, thread, choice, instr, label, name),
            None => {
                if choice.is_some() {
                    return Err(StepRefusal::NotEnabled);
                }
                self.instructed(program, thread, instr, label)
            }
        }
    }

    // What stands at the place of a thread.
    fn performed(
        &mut self,
        alloc: Global,
        program: &Program,
        thread: u32,
        choice: Option<u32>,
    ) -> Result<Option<Event>, StepRefusal>
        requires { thread < vec_len self.old.threads }
        ensures { (t : ThreadMeaning) → slice_get (state_of self.old).threads thread ≡ Some t → Gives (performed_in (assembly_of program.now) (state_of self.old) thread t choice (instruction_at (assembly_of program.now) t.place)) (state_of self.old) (state_of self.new) result }
    {
        let place = self.threads[thread as usize].place;
        match program.at(u64::from(place)) {
            Some((instr, label)) => self.performed_at(alloc, program, thread, choice, instr, label),
            None => {
                if choice.is_some() {
                    return Err(StepRefusal::NotEnabled);
                }
                self.status = X86Now::Fault;
                Ok(None)
            }
        }
    }

    // A run of a thread, with the choice that it takes.
    fn ran(
        &mut self,
        alloc: Global,
        program: &Program,
        thread: u32,
        choice: Option<u32>,
    ) -> Result<Option<Event>, StepRefusal>
        ensures { Gives (ran_in (assembly_of program.now) (state_of self.old) thread choice (slice_get (state_of self.old).threads thread)) (state_of self.old) (state_of self.new) result }
    {
        if thread as usize >= self.threads.len() {
            return Err(StepRefusal::NotEnabled);
        }
        let who = &self.threads[thread as usize];
        if who.ended {
            return Err(StepRefusal::NotEnabled);
        }
        if who.waits {
            return self.returned(program, thread, choice);
        }
        self.performed(alloc, program, thread, choice)
    }

    // The oldest write of a thread reaches memory.
    fn drained(&mut self, thread: u32) -> Result<Option<Event>, StepRefusal>
        ensures { Gives (drained_by (state_of self.old) thread (slice_get (state_of self.old).threads thread)) (state_of self.old) (state_of self.new) result }
    {
        if thread as usize >= self.threads.len() {
            return Err(StepRefusal::NotEnabled);
        }
        self.memory.reserve()?;
        match self.threads[thread as usize].buffer.pop() {
            None => Err(StepRefusal::NotEnabled),
            Some(write) => {
                self.memory.put(write)?;
                Ok(None)
            }
        }
    }

    /// A step, with the choice that it takes. After a refusal the state is as it was.
    pub fn take(
        &mut self,
        alloc: Global,
        program: &Program,
        s: &Step,
    ) -> Result<Option<Event>, StepRefusal>
        ensures { Gives (step (assembly_of program.now) (state_of self.old) s.now) (state_of self.old) (state_of self.new) result }
    {
        if self.status != X86Now::Running {
            return Err(StepRefusal::NotEnabled);
        }
        match *s {
            Step::Run { thread, choice } => self.ran(alloc, program, thread, choice),
            Step::Drain { thread } => self.drained(thread),
        }
    }
}
