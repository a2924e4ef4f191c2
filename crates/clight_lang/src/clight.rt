//! ClightTSO as a thread language.

ghost use Rattle.clight_lang.specs.State.{State, state_of};
ghost use Rattle.clight_lang.specs.Meaning.{language, program_of};
ghost use Rattle.clight_lang.specs.Lawful.{lawful};

use crate::leading::same;
use crate::offering::{callee, thread_offer};
use crate::program::Program;
use crate::resuming::{resume_thread, thread_of};
use crate::thread::Thread;
use std::alloc::Global;
use tso_core::language::ThreadLang;
use tso_core::offer::{Answer, Offer};
use tso_core::placement::{Globals, Placement};
use tso_words::{NoMemory, Val};

/// The language whose programs are of the type `Program`.
pub struct Clight;

impl ThreadLang for Clight {
    type Program = Program;

    type Thread = Thread;

    ghost State = { State };

    ghost state_of = { state_of };

    ghost language = { λ p. language (program_of p) };

    ghost lawful = { λ p. lawful (program_of p) };

    #[tactic(auto, unfolding(crate::specs::Meaning::language))]
    fn globals(p: &Program) -> &Globals {
        &p.globals
    }

    #[tactic(auto, unfolding(crate::specs::Meaning::language))]
    fn first(alloc: Global, p: &Program, _at: &Placement) -> Result<Thread, NoMemory> {
        Ok(thread_of(alloc, true, same(&p.main)?, Vec::new(alloc)))
    }

    #[tactic(auto, unfolding(crate::specs::Meaning::language))]
    fn started(
        alloc: Global,
        p: &Program,
        at: &Placement,
        fun: Val,
        arg: Val,
    ) -> Result<Option<Thread>, NoMemory> {
        let Some(thread_type) = p.thread_type else {
            return Ok(None);
        };
        match callee(&p.functions, at, thread_type, fun) {
            None => Ok(None),
            Some(f) => {
                let args = Vec::from_slice(alloc, &[arg])?;
                Ok(Some(thread_of(alloc, false, same(f)?, args)))
            }
        }
    }

    #[tactic(auto, unfolding(crate::specs::Meaning::language))]
    fn offer(alloc: Global, p: &Program, at: &Placement, t: &Thread) -> Result<Offer, NoMemory> {
        thread_offer(alloc, &p.functions, at, t)
    }

    #[tactic(auto, unfolding(crate::specs::Meaning::language))]
    fn resume(
        alloc: Global,
        p: &Program,
        at: &Placement,
        t: &mut Thread,
        a: Answer,
    ) -> Result<(), NoMemory> {
        resume_thread(alloc, &p.functions, at, t, a)
    }
}
