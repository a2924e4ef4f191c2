//! The choice that a step takes where its schedule gives none.
ghost use Rattle.std.specs.Prelude.{◌≡◌, ◌<◌, Some, slice_get, vec_len};
ghost use Rattle.tso_core.specs.declared.Step.TheVariants.{Run};
ghost use Rattle.x86_lang.specs.Assembly.{assembly_of};
ghost use Rattle.x86_machine.specs.Choices.{asked_of, asked_by_call, IsChosen, IsDefault};
ghost use Rattle.x86_machine.specs.Kept.{state_of};
ghost use Rattle.x86_machine.specs.Target.{Thread as ThreadMeaning};

use crate::heap::block_size;
use crate::program::Program;
use crate::services::{Service, service_of};
use crate::skips::{least_block, least_stack};
use crate::steps::name_called;
use crate::target::Target;
use tso_core::Step;
use x86_table::instruction::Instr;

/// What a step asks a schedule to choose.
#[derive(Clone, Copy, Debug, PartialEq, Eq)]
pub enum Asked {
    Nothing,
    /// The word that a call of the outside returns.
    Word,
    /// The base of a block of the heap, of which so many bytes are asked for.
    Block { bytes: u32 },
    /// Where the stack of a new thread begins.
    Stack,
}

impl Target {
    // What an instruction of a thread asks for.
    fn asked_by_call(&self, program: &Program, thread: u32, instr: &Instr) -> Asked
        requires { thread < vec_len self.now.threads }
        ensures { (t : ThreadMeaning) → slice_get (state_of self.now).threads thread ≡ Some t → result ≡ asked_by_call (assembly_of program.now) (state_of self.now) t (Some instr.now) }
    {
        let service = match name_called(instr) {
            None => None,
            Some(name) => service_of(name),
        };
        match service {
            Some(Service::Malloc) => match self.first_word(program, thread) {
                None => Asked::Nothing,
                Some(bytes) => Asked::Block { bytes },
            },
            Some(Service::ThreadCreate) => match self.two_words(program, thread) {
                None => Asked::Nothing,
                Some(_) => Asked::Stack,
            },
            _ => Asked::Nothing,
        }
    }

    // What the next step of a thread asks for.
    fn asked(&self, program: &Program, thread: u32) -> Asked
        requires { thread < vec_len self.now.threads }
        ensures { (t : ThreadMeaning) → slice_get (state_of self.now).threads thread ≡ Some t → result ≡ asked_of (assembly_of program.now) (state_of self.now) t }
    {
        let who = &self.threads[thread as usize];
        if who.waits {
            return Asked::Word;
        }
        match program.at(u64::from(who.place)) {
            None => Asked::Nothing,
            Some((instr, _)) => self.asked_by_call(program, thread, instr),
        }
    }

    // The default choice of a step.
    fn default_of(&self, asked: Asked) -> Option<u32>
        ensures { IsDefault (state_of self.now) asked result }
    {
        match asked {
            Asked::Nothing => None,
            Asked::Word => Some(0),
            Asked::Block { bytes } => Some(least_block(&self.blocks, block_size(bytes))),
            Asked::Stack => Some(least_stack(&self.threads)),
        }
    }

    // The choice that a run takes.
    fn choice_of(&self, program: &Program, thread: u32, choice: Option<u32>) -> Option<u32>
        ensures { IsChosen (assembly_of program.now) (state_of self.now) (Run thread choice) (Run thread result) }
    {
        match choice {
            Some(word) => Some(word),
            None => {
                if thread as usize >= self.threads.len() {
                    return None;
                }
                self.default_of(self.asked(program, thread))
            }
        }
    }

    /// The step that the machine takes for a step of a schedule.
    pub fn chosen(&self, program: &Program, s: &Step) -> Step
        ensures { IsChosen (assembly_of program.now) (state_of self.now) s.now result }
    {
        match *s {
            Step::Drain { thread } => Step::Drain { thread },
            Step::Run { thread, choice } => Step::Run {
                thread,
                choice: self.choice_of(program, thread, choice),
            },
        }
    }
}
