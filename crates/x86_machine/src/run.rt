//! A run of a thread: the instruction at its place.
ghost use Rattle.std.specs.Prelude.{◌≡◌, ◌<◌, ◌+◌, ◌^◌, Some, slice_get, vec_len};
ghost use Rattle.std.specs.Bool.{OnTrue};
ghost use Rattle.x86_lang.specs.Assembly.{assembly_of};
ghost use Rattle.x86_machine.specs.Gives.{Gives};
ghost use Rattle.x86_machine.specs.Kept.{state_of, IsAlignedAccess};
ghost use Rattle.x86_machine.specs.Target.{Thread as ThreadMeaning, is_on_stack, label_of};
ghost use Rattle.x86_machine.specs.X86Tso.{finished, or_fault, or_no_stack, access_is_right as access_is_right_in, loaded as loaded_in, went as went_in, tried as tried_in, plain as plain_in, instructed as instructed_in};

use crate::address_map::is_right;
use crate::now::X86Now;
use crate::program::Program;
use crate::target::Target;
use tso_core::Event;
use tso_core::offer::StepRefusal;
use x86_steps::access::{Access, access_of, loads_stack_pointer, needs_empty_buffer};
use x86_steps::execution::{After, executed};
use x86_table::instruction::Instr;

impl Target {
    // The thread returns from the function that it began with: main ends the program.
    fn finish(&mut self, thread: u32) -> Option<Event>
        requires { thread < vec_len self.old.threads }
        ensures { (t : ThreadMeaning) → slice_get (state_of self.old).threads thread ≡ Some t → Some (result, state_of self.new) ≡ finished (state_of self.old) thread t }
    {
        if thread == 0 {
            let word = self.threads[0].registers.eax;
            self.status = X86Now::Exited;
            return Some(Event::Exit { word });
        }
        self.end(thread as usize);
        None
    }

    // The thread goes on behind an instruction, or has ended, or its next place is no instruction.
    fn went(
        &mut self,
        program: &Program,
        thread: u32,
        instr: &Instr,
        access: &Option<Access>,
        after: &After,
    ) -> Result<Option<Event>, StepRefusal>
        requires there { thread < vec_len self.old.threads }
        requires aligned { IsAlignedAccess access.now }
        ensures { (t : ThreadMeaning) → slice_get (state_of self.old).threads thread ≡ Some t → Gives (went_in (assembly_of program.now) (state_of self.old) thread t instr.now access.now after.now) (state_of self.old) (state_of self.new) result }
    {
        if self.threads[thread as usize].is_last_return(instr, after.place) {
            return Ok(self.finish(thread));
        }
        if !program.is_code(u64::from(after.place)) {
            self.status = X86Now::Fault;
            return Ok(None);
        }
        self.go_on(thread as usize, after, access)?;
        Ok(None)
    }

    /// Whether the access of an instruction is right.
    pub fn is_access_right(&self, program: &Program, access: &Option<Access>) -> bool
        ensures right { result ≡ access_is_right_in (assembly_of program.now) (state_of self.now) access.now }
        ensures aligned { OnTrue result (IsAlignedAccess access.now) }
    {
        match access {
            None => true,
            Some(access) => is_right(
                program.bytes(),
                &self.threads,
                access.size,
                u64::from(access.address),
            ),
        }
    }

    // The word that the access finds.
    fn loaded(&self, program: &Program, thread: u32, access: &Option<Access>) -> u32
        requires there { thread < vec_len self.now.threads }
        ensures { (t : ThreadMeaning) → slice_get (state_of self.now).threads thread ≡ Some t → result ≡ loaded_in (assembly_of program.now) (state_of self.now) t access.now }
    {
        match access {
            None => 0,
            Some(x) => {
                if is_right(program.bytes(), &self.threads, x.size, u64::from(x.address)) {
                    self.load(thread as usize, x.size, x.address)
                } else {
                    0
                }
            }
        }
    }

    // The access is tried before the stack pointer, which it gives.
    fn tried_behind_access(
        &mut self,
        program: &Program,
        thread: u32,
        instr: &Instr,
        access: &Option<Access>,
        after: &After,
    ) -> Result<Option<Event>, StepRefusal>
        requires there { thread < vec_len self.old.threads }
        ensures { (t : ThreadMeaning) → slice_get (state_of self.old).threads thread ≡ Some t → Gives (or_fault (state_of self.old) (access_is_right_in (assembly_of program.now) (state_of self.old) access.now) (or_no_stack (state_of self.old) (is_on_stack t after.now.registers.esp) (went_in (assembly_of program.now) (state_of self.old) thread t instr.now access.now after.now))) (state_of self.old) (state_of self.new) result }
    {
        if !self.is_access_right(program, access) {
            self.status = X86Now::Fault;
            return Ok(None);
        }
        if !self.threads[thread as usize].is_on_stack(after.registers.esp) {
            self.status = X86Now::NoStack;
            return Ok(None);
        }
        self.went(program, thread, instr, access, after)
    }

    // The stack pointer is tried before the access.
    fn tried_before_access(
        &mut self,
        program: &Program,
        thread: u32,
        instr: &Instr,
        access: &Option<Access>,
        after: &After,
    ) -> Result<Option<Event>, StepRefusal>
        requires there { thread < vec_len self.old.threads }
        ensures { (t : ThreadMeaning) → slice_get (state_of self.old).threads thread ≡ Some t → Gives (or_no_stack (state_of self.old) (is_on_stack t after.now.registers.esp) (or_fault (state_of self.old) (access_is_right_in (assembly_of program.now) (state_of self.old) access.now) (went_in (assembly_of program.now) (state_of self.old) thread t instr.now access.now after.now))) (state_of self.old) (state_of self.new) result }
    {
        if !self.threads[thread as usize].is_on_stack(after.registers.esp) {
            self.status = X86Now::NoStack;
            return Ok(None);
        }
        if !self.is_access_right(program, access) {
            self.status = X86Now::Fault;
            return Ok(None);
        }
        self.went(program, thread, instr, access, after)
    }

    // What the instruction does is tried; None is a fault.
    fn tried(
        &mut self,
        program: &Program,
        thread: u32,
        instr: &Instr,
        access: &Option<Access>,
        after: &Option<After>,
    ) -> Result<Option<Event>, StepRefusal>
        requires there { thread < vec_len self.old.threads }
        ensures { (t : ThreadMeaning) → slice_get (state_of self.old).threads thread ≡ Some t → Gives (tried_in (assembly_of program.now) (state_of self.old) thread t instr.now access.now after.now) (state_of self.old) (state_of self.new) result }
    {
        match after {
            None => {
                self.status = X86Now::Fault;
                Ok(None)
            }
            Some(after) => {
                if loads_stack_pointer(instr) {
                    self.tried_behind_access(program, thread, instr, access, after)
                } else {
                    self.tried_before_access(program, thread, instr, access, after)
                }
            }
        }
    }

    // An instruction that is no call of a service or of the outside.
    fn plain(
        &mut self,
        program: &Program,
        thread: u32,
        instr: &Instr,
        label: u32,
    ) -> Result<Option<Event>, StepRefusal>
        requires there { thread < vec_len self.old.threads }
        requires label { label ≡ label_of (assembly_of program.now) instr.now }
        requires place { (t : ThreadMeaning) → slice_get (state_of self.old).threads thread ≡ Some t → t.place + 1 < 2 ^ 32 }
        ensures { (t : ThreadMeaning) → slice_get (state_of self.old).threads thread ≡ Some t → Gives (plain_in (assembly_of program.now) (state_of self.old) thread t instr.now) (state_of self.old) (state_of self.new) result }
    {
        let (registers, flags, place) = self.threads[thread as usize].executing();
        let access = access_of(instr, label, &registers);
        let loaded = self.loaded(program, thread, &access);
        let after = executed(instr, label, place, &registers, &flags, loaded);
        self.tried(program, thread, instr, &access, &after)
    }

    /// The same, only with an empty buffer where the instruction waits for it.
    pub fn instructed(
        &mut self,
        program: &Program,
        thread: u32,
        instr: &Instr,
        label: u32,
    ) -> Result<Option<Event>, StepRefusal>
        requires there { thread < vec_len self.old.threads }
        requires label { label ≡ label_of (assembly_of program.now) instr.now }
        requires place { (t : ThreadMeaning) → slice_get (state_of self.old).threads thread ≡ Some t → t.place + 1 < 2 ^ 32 }
        ensures { (t : ThreadMeaning) → slice_get (state_of self.old).threads thread ≡ Some t → Gives (instructed_in (assembly_of program.now) (state_of self.old) thread t instr.now) (state_of self.old) (state_of self.new) result }
    {
        if needs_empty_buffer(instr) && self.threads[thread as usize].has_writes() {
            return Err(StepRefusal::NotEnabled);
        }
        self.plain(program, thread, instr, label)
    }
}
