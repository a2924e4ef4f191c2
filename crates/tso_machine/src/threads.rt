//! Threads that begin and end.

ghost use Rattle.std.specs.Prelude.{◌≡◌, ◌<◌, length, None, Some, map, slice_get};
ghost use Rattle.tso_core.specs.declared.offer.Answer.TheVariants.{Value};
ghost use Rattle.tso_core.specs.declared.offer.Offer.TheVariants as O;
ghost use Rattle.tso_core.specs.Language.{Language, Takes};
ghost use Rattle.tso_core.specs.Runs.{IsProper};
ghost use Rattle.tso_core.specs.Shared.{effect_of, spawned};
ghost use Rattle.tso_machine.specs.State.{core_state, OffersAt, EffectGives};

use crate::keep::Core;
use crate::resuming::add_thread_at;
use std::alloc::Global;
use tso_core::language::ThreadLang;
use tso_core::offer::{Answer, Now, StepOut, StepRefusal};
use tso_core::placement::Placement;
use tso_memory::Buffer;
use tso_words::Val;

/// The number of threads that a machine has at most.
const THREADS: usize = 4_294_967_295;

/// The thread ends. Its buffer stays.
pub fn end<L: ThreadLang>(
    _p: &L::Program,
    _at: &Placement,
    core: &mut Core<L::Thread>,
    i: usize,
    choice: Option<u32>,
) -> Result<StepOut, StepRefusal>
    requires proper { IsProper (L.language _p.now).globals _at.now }
    requires thread { i < length core.old.threads.items }
    requires buffer { i < length core.old.buffers.items }
    requires ended { i < length core.old.ended.items }
    requires offers { OffersAt (L.language _p.now) (O.End) i (core_state L.state_of _at.now core.old) }
    ensures { EffectGives (L.language _p.now) (effect_of (O.End) i choice (core_state L.state_of _at.now core.old).shared) i (core_state L.state_of _at.now core.old) (core_state L.state_of _at.now core.new) result }
{
    if choice.is_some() {
        return Err(StepRefusal::NotEnabled);
    }
    core.ended[i] = true;
    Ok(StepOut {
        event: None,
        now: core.now,
    })
}

/// A further thread begins; its number is answered. Where no function can be called so, the machine
/// goes wrong.
fn spawn<L: ThreadLang>(
    alloc: Global,
    p: &L::Program,
    at: &Placement,
    core: &mut Core<L::Thread>,
    i: usize,
    fun: Val,
    arg: Val,
) -> Result<StepOut, StepRefusal>
    requires proper { IsProper (L.language p.now).globals at.now }
    requires thread { i < length core.old.threads.items }
    requires unborn { length core.old.ended.items ≡ length core.old.buffers.items }
    requires offers { OffersAt (L.language p.now) (O.Start fun arg) i (core_state L.state_of at.now core.old) }
    ensures { EffectGives (L.language p.now) (spawned (core_state L.state_of at.now core.old).shared fun arg) i (core_state L.state_of at.now core.old) (core_state L.state_of at.now core.new) result }
{
    if core.buffers.len() >= THREADS {
        return Err(StepRefusal::NotEnabled);
    }
    let Some(further) = L::started(alloc, p, at, fun, arg)? else {
        core.now = Now::Wrong;
        return Ok(StepOut {
            event: None,
            now: core.now,
        });
    };
    let answer = Answer::Value(Val::Word(core.buffers.len() as u32));
    add_thread_at::<L>(
        alloc,
        p,
        at,
        &mut core.threads,
        &mut core.buffers,
        &mut core.known,
        &mut core.ended,
        i,
        answer,
        further,
    )?;
    Ok(StepOut {
        event: None,
        now: core.now,
    })
}

/// A further thread begins, with an empty buffer; its number is answered. Where no function can be
/// called so, the machine goes wrong.
pub fn start<L: ThreadLang>(
    alloc: Global,
    p: &L::Program,
    at: &Placement,
    core: &mut Core<L::Thread>,
    i: usize,
    choice: Option<u32>,
    fun: Val,
    arg: Val,
) -> Result<StepOut, StepRefusal>
    requires proper { IsProper (L.language p.now).globals at.now }
    requires thread { i < length core.old.threads.items }
    requires buffer { i < length core.old.buffers.items }
    requires unborn { length core.old.ended.items ≡ length core.old.buffers.items }
    requires offers { OffersAt (L.language p.now) (O.Start fun arg) i (core_state L.state_of at.now core.old) }
    ensures { EffectGives (L.language p.now) (effect_of (O.Start fun arg) i choice (core_state L.state_of at.now core.old).shared) i (core_state L.state_of at.now core.old) (core_state L.state_of at.now core.new) result }
{
    if choice.is_some() {
        return Err(StepRefusal::NotEnabled);
    }
    if !core.buffers[i].items().is_empty() {
        return Err(StepRefusal::NotEnabled);
    }
    spawn::<L>(alloc, p, at, core, i, fun, arg)
}
