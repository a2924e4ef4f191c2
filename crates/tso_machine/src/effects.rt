//! What a machine keeps, and the effect of each offer on it.

ghost use Rattle.std.specs.Prelude.{◌≡◌, ◌<◌, length, None, Some, map, slice_get};
ghost use Rattle.tso_core.specs.declared.offer.Offer.TheVariants as O;
ghost use Rattle.tso_core.specs.declared.offer.Answer.TheVariants.{Nothing, Value};
ghost use Rattle.tso_core.specs.Language.{Language, Takes};
ghost use Rattle.tso_core.specs.Runs.{IsProper};
ghost use Rattle.tso_core.specs.Shared.{answered, effect_of};
ghost use Rattle.tso_machine.specs.State.{core_state, OffersAt, EffectGives};

use crate::keep::Core;
use crate::known::load_at;
use crate::resuming::{push_at, resume_at};
use std::alloc::Global;
use tso_core::Event;
use tso_core::language::ThreadLang;
use tso_core::offer::{Answer, Now, StepOut, StepRefusal};
use tso_core::placement::Placement;
use tso_memory::Item;
use tso_words::{Chunk, Val};

/// The thread goes on with the value that its load found.
fn go_on_with<L: ThreadLang>(
    alloc: Global,
    p: &L::Program,
    at: &Placement,
    core: &mut Core<L::Thread>,
    i: usize,
    chunk: Chunk,
    addr: Val,
    v: Val,
) -> Result<StepOut, StepRefusal>
    requires proper { IsProper (L.language p.now).globals at.now }
    requires thread { i < length core.old.threads.items }
    requires offers { OffersAt (L.language p.now) (O.Load chunk addr) i (core_state L.state_of at.now core.old) }
    ensures { EffectGives (L.language p.now) (answered (core_state L.state_of at.now core.old).shared (Some v)) i (core_state L.state_of at.now core.old) (core_state L.state_of at.now core.new) result }
{
    resume_at::<L>(alloc, p, at, &mut core.threads, i, Answer::Value(v))?;
    Ok(StepOut {
        event: None,
        now: core.now,
    })
}

/// The thread loads through its own buffer.
pub fn load<L: ThreadLang>(
    alloc: Global,
    p: &L::Program,
    at: &Placement,
    core: &mut Core<L::Thread>,
    i: usize,
    choice: Option<u32>,
    chunk: Chunk,
    addr: Val,
) -> Result<StepOut, StepRefusal>
    requires proper { IsProper (L.language p.now).globals at.now }
    requires thread { i < length core.old.threads.items }
    requires buffer { i < length core.old.buffers.items }
    requires offers { OffersAt (L.language p.now) (O.Load chunk addr) i (core_state L.state_of at.now core.old) }
    ensures { EffectGives (L.language p.now) (effect_of (O.Load chunk addr) i choice (core_state L.state_of at.now core.old).shared) i (core_state L.state_of at.now core.old) (core_state L.state_of at.now core.new) result }
{
    if choice.is_some() {
        return Err(StepRefusal::NotEnabled);
    }
    match load_at(&core.memory, &core.buffers, &mut core.known, i, chunk, addr) {
        Err(_) => {
            core.now = Now::Wrong;
            Ok(StepOut {
                event: None,
                now: Now::Wrong,
            })
        }
        Ok(v) => go_on_with::<L>(alloc, p, at, core, i, chunk, addr, v),
    }
}

/// The thread's store waits in its buffer.
pub fn store<L: ThreadLang>(
    alloc: Global,
    p: &L::Program,
    at: &Placement,
    core: &mut Core<L::Thread>,
    i: usize,
    choice: Option<u32>,
    chunk: Chunk,
    addr: Val,
    val: Val,
) -> Result<StepOut, StepRefusal>
    requires proper { IsProper (L.language p.now).globals at.now }
    requires thread { i < length core.old.threads.items }
    requires buffer { i < length core.old.buffers.items }
    requires offers { OffersAt (L.language p.now) (O.Store chunk addr val) i (core_state L.state_of at.now core.old) }
    ensures { EffectGives (L.language p.now) (effect_of (O.Store chunk addr val) i choice (core_state L.state_of at.now core.old).shared) i (core_state L.state_of at.now core.old) (core_state L.state_of at.now core.new) result }
{
    if choice.is_some() {
        return Err(StepRefusal::NotEnabled);
    }
    let item = Item::Put { chunk, addr, val };
    let answer = Answer::Nothing;
    push_at::<L>(
        alloc,
        p,
        at,
        &mut core.threads,
        &mut core.buffers,
        i,
        answer,
        item,
    )?;
    Ok(StepOut {
        event: None,
        now: core.now,
    })
}

/// The end of a local object waits in the thread's buffer.
pub fn lift<L: ThreadLang>(
    alloc: Global,
    p: &L::Program,
    at: &Placement,
    core: &mut Core<L::Thread>,
    i: usize,
    choice: Option<u32>,
    base: u32,
    size: u32,
) -> Result<StepOut, StepRefusal>
    requires proper { IsProper (L.language p.now).globals at.now }
    requires thread { i < length core.old.threads.items }
    requires buffer { i < length core.old.buffers.items }
    requires offers { OffersAt (L.language p.now) (O.Lift base size) i (core_state L.state_of at.now core.old) }
    ensures { EffectGives (L.language p.now) (effect_of (O.Lift base size) i choice (core_state L.state_of at.now core.old).shared) i (core_state L.state_of at.now core.old) (core_state L.state_of at.now core.new) result }
{
    if choice.is_some() {
        return Err(StepRefusal::NotEnabled);
    }
    let item = Item::Lift { base, size };
    let answer = Answer::Nothing;
    push_at::<L>(
        alloc,
        p,
        at,
        &mut core.threads,
        &mut core.buffers,
        i,
        answer,
        item,
    )?;
    Ok(StepOut {
        event: None,
        now: core.now,
    })
}

/// The thread goes on with an empty buffer.
pub fn fence<L: ThreadLang>(
    alloc: Global,
    p: &L::Program,
    at: &Placement,
    core: &mut Core<L::Thread>,
    i: usize,
    choice: Option<u32>,
) -> Result<StepOut, StepRefusal>
    requires proper { IsProper (L.language p.now).globals at.now }
    requires thread { i < length core.old.threads.items }
    requires buffer { i < length core.old.buffers.items }
    requires offers { OffersAt (L.language p.now) (O.Fence) i (core_state L.state_of at.now core.old) }
    ensures { EffectGives (L.language p.now) (effect_of (O.Fence) i choice (core_state L.state_of at.now core.old).shared) i (core_state L.state_of at.now core.old) (core_state L.state_of at.now core.new) result }
{
    if choice.is_some() {
        return Err(StepRefusal::NotEnabled);
    }
    if !core.buffers[i].items().is_empty() {
        return Err(StepRefusal::NotEnabled);
    }
    resume_at::<L>(alloc, p, at, &mut core.threads, i, Answer::Nothing)?;
    Ok(StepOut {
        event: None,
        now: core.now,
    })
}

/// The program ends, or goes wrong where the status is not known. Buffers stay.
pub fn exit<L: ThreadLang>(
    _p: &L::Program,
    _at: &Placement,
    core: &mut Core<L::Thread>,
    _i: usize,
    choice: Option<u32>,
    word: Val,
) -> Result<StepOut, StepRefusal>
    requires proper { IsProper (L.language _p.now).globals _at.now }
    requires thread { _i < length core.old.threads.items }
    requires buffer { _i < length core.old.buffers.items }
    requires offers { OffersAt (L.language _p.now) (O.Exit word) _i (core_state L.state_of _at.now core.old) }
    ensures { EffectGives (L.language _p.now) (effect_of (O.Exit word) _i choice (core_state L.state_of _at.now core.old).shared) _i (core_state L.state_of _at.now core.old) (core_state L.state_of _at.now core.new) result }
{
    if choice.is_some() {
        return Err(StepRefusal::NotEnabled);
    }
    let (event, now) = match word {
        Val::Undef => (None, Now::Wrong),
        Val::Word(word) => (Some(Event::Exit { word }), Now::Exited),
    };
    core.now = now;
    Ok(StepOut { event, now })
}
