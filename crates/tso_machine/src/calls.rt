//! Calls of external functions and what they return, and objects of locals.

ghost use Rattle.std.specs.Prelude.{◌≡◌, ◌<◌, ◌^◌, length, None, Some, map, slice_get};
ghost use Rattle.tso_core.specs.declared.offer.Offer.TheVariants as O;
ghost use Rattle.tso_core.specs.declared.offer.Answer.TheVariants.{Nothing, Value};
ghost use Rattle.tso_core.specs.Language.{Language, Takes};
ghost use Rattle.tso_core.specs.Runs.{IsProper};
ghost use Rattle.tso_core.specs.Shared.{effect_of};
ghost use Rattle.tso_machine.specs.State.{core_state, OffersAt, EffectGives};

use crate::keep::Core;
use crate::resuming::{push_at, resume_at};
use std::alloc::Global;
use tso_core::Event;
use tso_core::language::ThreadLang;
use tso_core::offer::{Answer, StepOut, StepRefusal};
use tso_core::placement::Placement;
use tso_memory::{Item, place_ok};
use tso_words::{Name, Val, Words};

/// The thread calls an external function, which shows.
pub fn call<L: ThreadLang>(
    alloc: Global,
    p: &L::Program,
    at: &Placement,
    core: &mut Core<L::Thread>,
    i: usize,
    choice: Option<u32>,
    name: Name,
    words: Words,
) -> Result<StepOut, StepRefusal>
    requires proper { IsProper (L.language p.now).globals at.now }
    requires thread { i < length core.old.threads.items }
    requires buffer { i < length core.old.buffers.items }
    requires small { i < 2 ^ 32 }
    requires offers { OffersAt (L.language p.now) (O.Call name words) i (core_state L.state_of at.now core.old) }
    ensures { EffectGives (L.language p.now) (effect_of (O.Call name words) i choice (core_state L.state_of at.now core.old).shared) i (core_state L.state_of at.now core.old) (core_state L.state_of at.now core.new) result }
{
    if choice.is_some() {
        return Err(StepRefusal::NotEnabled);
    }
    resume_at::<L>(alloc, p, at, &mut core.threads, i, Answer::Nothing)?;
    let thread = i as u32;
    Ok(StepOut {
        event: Some(Event::Call {
            thread,
            name,
            words,
        }),
        now: core.now,
    })
}

/// An external call gives the thread the word that is chosen, which shows.
pub fn wait<L: ThreadLang>(
    alloc: Global,
    p: &L::Program,
    at: &Placement,
    core: &mut Core<L::Thread>,
    i: usize,
    choice: Option<u32>,
) -> Result<StepOut, StepRefusal>
    requires proper { IsProper (L.language p.now).globals at.now }
    requires thread { i < length core.old.threads.items }
    requires buffer { i < length core.old.buffers.items }
    requires small { i < 2 ^ 32 }
    requires offers { OffersAt (L.language p.now) (O.Wait) i (core_state L.state_of at.now core.old) }
    ensures { EffectGives (L.language p.now) (effect_of (O.Wait) i choice (core_state L.state_of at.now core.old).shared) i (core_state L.state_of at.now core.old) (core_state L.state_of at.now core.new) result }
{
    let Some(word) = choice else {
        return Err(StepRefusal::NotEnabled);
    };
    let answer = Answer::Value(Val::Word(word));
    resume_at::<L>(alloc, p, at, &mut core.threads, i, answer)?;
    let thread = i as u32;
    Ok(StepOut {
        event: Some(Event::Return { thread, word }),
        now: core.now,
    })
}

/// The beginning of a local object waits in the thread's buffer, where it is allowed.
pub fn place<L: ThreadLang>(
    alloc: Global,
    p: &L::Program,
    at: &Placement,
    core: &mut Core<L::Thread>,
    i: usize,
    choice: Option<u32>,
    size: u32,
    align: u32,
) -> Result<StepOut, StepRefusal>
    requires proper { IsProper (L.language p.now).globals at.now }
    requires thread { i < length core.old.threads.items }
    requires buffer { i < length core.old.buffers.items }
    requires offers { OffersAt (L.language p.now) (O.Place size align) i (core_state L.state_of at.now core.old) }
    ensures { EffectGives (L.language p.now) (effect_of (O.Place size align) i choice (core_state L.state_of at.now core.old).shared) i (core_state L.state_of at.now core.old) (core_state L.state_of at.now core.new) result }
{
    let Some(base) = choice else {
        return Err(StepRefusal::NotEnabled);
    };
    if !place_ok(&core.memory, &core.buffers, i, base, size, align) {
        return Err(StepRefusal::NotEnabled);
    }
    let item = Item::Place { base, size };
    let answer = Answer::Value(Val::Word(base));
    push_at::<L>(
        alloc,
        p,
        at,
        &mut core.threads,
        &mut core.buffers,
        i,
        answer,
        item,
    )?;
    Ok(StepOut {
        event: None,
        now: core.now,
    })
}
