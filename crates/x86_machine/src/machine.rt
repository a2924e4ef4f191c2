//! Assemblies on their machine.

use crate::now::{X86Now, X86Out};
use crate::opening::{main_of, opened};
use crate::program::Program;
use crate::target::Target;
use std::alloc::Global;
use tso_core::Step;
use tso_core::offer::StepRefusal;
use tso_words::NoMemory;
use x86_lang::{Asm, placement_of};

/// An assembly on the x86-TSO machine: its threads run, and their buffers drain, one step at a
/// time.
#[derive(Drop)]
pub struct X86Machine<'a> {
    alloc: Global,
    program: Program<'a>,
    target: Target,
}

impl<'a> X86Machine<'a> {
    ghost use Rattle.std.specs.Prelude.{◌≡◌, IfOk};
    ghost use Rattle.x86_lang.specs.Assembly.{assembly_of};
    ghost use Rattle.x86_machine.specs.Choices.{MachineGives};
    ghost use Rattle.x86_machine.specs.Machines.{machine_assembly, machine_state};
    ghost use Rattle.x86_machine.specs.X86Tso.{opening};

    /// The machine of an assembly as it opens: main alone with an empty buffer, and the data in
    /// memory.
    pub fn made(alloc: Global, asm: &'a Asm) -> Result<X86Machine<'a>, NoMemory>
        ensures opens { IfOk result (λ m. machine_state m ≡ opening (assembly_of asm.now) (assembly_of asm.now).labels) }
        ensures of_assembly { IfOk result (λ m. machine_assembly m ≡ assembly_of asm.now) }
    {
        let places = placement_of(alloc, asm)?;
        let program = Program::made(alloc, asm, &places)?;
        let main = main_of(alloc, &places)?;
        let target = opened(alloc, asm, main)?;
        Ok(X86Machine {
            alloc,
            program,
            target,
        })
    }

    /// Whether it runs, or how it has ended.
    pub fn now(&self) -> X86Now
        ensures { result ≡ (machine_state self.now).now }
    {
        self.target.status
    }

    /// One step of a schedule. `NotEnabled` comes exactly where the step, with the default choice
    /// where it gives none, is not enabled. After a refusal the machine is as it was.
    pub fn step(&mut self, s: &Step) -> Result<X86Out, StepRefusal>
        ensures gives { MachineGives (machine_assembly self.old) s.now (machine_state self.old) (machine_state self.new) result }
        ensures same_assembly { machine_assembly self.new ≡ machine_assembly self.old }
    {
        let taken = self.target.chosen(&self.program, s);
        let event = self.target.take(self.alloc, &self.program, &taken)?;
        Ok(X86Out {
            event,
            now: self.target.status,
        })
    }
}
