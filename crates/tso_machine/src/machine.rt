//! Programs on their machines.

ghost use Rattle.tso_core.specs.Language.{Language};
ghost use Rattle.tso_core.specs.Machine.{machine};
ghost use Rattle.tso_machine.specs.Proper.{IsPlaced, IsPlaced-prop};

use crate::keep::Core;
use crate::opening::opened;
use crate::steps::take_step;
use std::alloc::Global;
use tso_core::Step;
use tso_core::language::ThreadLang;
use tso_core::offer::{StepOut, StepRefusal};
use tso_core::placement::Placement;
use tso_core::traced::Traced;
use tso_words::NoMemory;

/// A program on its machine: its names are placed, and its threads run one step at a time.
pub struct Machine<'a, L: ThreadLang> {
    alloc: Global,
    program: &'a L::Program,
    at: Placement,
    core: Core<L::Thread>,
    ghost proper: { IsPlaced (L.language program.now).globals at } by { IsPlaced-prop (L.language program.now).globals at },
}

impl<'a, L: ThreadLang> Machine<'a, L> {
    ghost use Rattle.std.specs.Prelude.{◌≡◌, IfOk};
    ghost use Rattle.tso_core.specs.Machine.{open_machine};
    ghost use Rattle.tso_core.specs.Runs.{IsProper};
    ghost use Rattle.tso_machine.specs.Choices.{MachineGives};
    ghost use Rattle.tso_machine.specs.Machines.{machine_program, machine_state};

    /// The machine of a program as it opens, with its names at these addresses: main alone with an
    /// empty buffer, and the globals in memory.
    pub fn made(
        alloc: Global,
        program: &'a L::Program,
        at: Placement,
    ) -> Result<Machine<'a, L>, NoMemory>
        requires { IsProper (L.language program.now).globals at }
        ensures opens { IfOk result (λ m. machine_state L.state_of m ≡ (open_machine (L.language program.now)).opening at) }
        ensures of_program { IfOk result (λ m. machine_program m ≡ program.now) }
    {
        let core = opened::<L>(alloc, program, &at)?;
        Ok(Machine {
            alloc,
            program,
            at,
            core,
        })
    }

    /// One step of a schedule. `NotEnabled` comes exactly where the step, with the default choice
    /// where it gives none, is not enabled. After a refusal the machine is as it was.
    ///
    /// Most steps take constant time over all steps. A load takes a few walks over its thread's
    /// buffer, and one more for each item there that no load has tried since the objects changed
    /// last; a store or an atomic step in memory a search among the objects; and what begins or
    /// ends an object a walk over the objects and the threads, a Place one over all buffers too.
    pub fn step(&mut self, s: &Step) -> Result<StepOut, StepRefusal>
        ensures gives { MachineGives (L.language (machine_program self.old)) s.now (machine_state L.state_of self.old) (machine_state L.state_of self.new) result }
        ensures same_program { machine_program self.new ≡ machine_program self.old }
        ensures same_places { (machine_state L.state_of self.new).at ≡ (machine_state L.state_of self.old).at }
    {
        take_step::<L>(self.alloc, self.program, &self.at, &mut self.core, s)
    }
}

impl<'a, L: ThreadLang> Drop for Machine<'a, L> {
    fn drop(self) {
        let Machine {
            alloc: _,
            program: _,
            at: _,
            core: _,
        } = self;
    }
}

impl<'a, L: ThreadLang> Traced for Machine<'a, L> {
    type Program = L::Program;

    ghost system = { λ p. machine (L.language p) };
}
