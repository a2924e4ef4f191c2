//! Atomic read-modify-writes of words.

ghost use Rattle.std.specs.Prelude.{◌≡◌, ◌<◌, length, None, Some, map, slice_get};
ghost use Rattle.tso_core.specs.declared.offer.Answer.TheVariants.{Value};
ghost use Rattle.tso_core.specs.declared.offer.Offer.TheVariants as O;
ghost use Rattle.tso_core.specs.Language.{Language, Takes};
ghost use Rattle.tso_core.specs.Runs.{IsProper};
ghost use Rattle.tso_core.specs.Shared.{effect_of, exchanged, swapped_at};
ghost use Rattle.tso_memory.specs.Memory.{load};
ghost use Rattle.tso_words.specs.declared.value.Chunk.TheVariants.{I32};
ghost use Rattle.tso_machine.specs.State.{core_state, OffersAt, EffectGives};

use crate::keep::Core;
use crate::resuming::apply_at;
use std::alloc::Global;
use tso_core::language::ThreadLang;
use tso_core::offer::{Answer, Atomic, Now, StepOut, StepRefusal};
use tso_core::placement::Placement;
use tso_memory::Item;
use tso_words::{Chunk, Cond, Op, Val, eval_cond, eval_op};

/// What the word has after the step; `None` where a compared value is not known.
pub fn exchanged(kind: Atomic, old: Val, expected: Val, desired: Val) -> Option<Val>
    ensures { result ≡ exchanged kind old expected desired }
{
    match kind {
        Atomic::Cas => match eval_cond(Cond::Eq, old, expected) {
            None => None,
            Some(same) => Some(if same { desired } else { old }),
        },
        Atomic::Add => eval_op(Op::Add, &[old, desired]),
        Atomic::Xchg => Some(desired),
    }
}

/// The old word is answered, and the new one is in memory at once, whatever waits in the buffer.
fn swap<L: ThreadLang>(
    alloc: Global,
    p: &L::Program,
    at: &Placement,
    core: &mut Core<L::Thread>,
    i: usize,
    kind: Atomic,
    addr: Val,
    expected: Val,
    desired: Val,
) -> Result<StepOut, StepRefusal>
    requires proper { IsProper (L.language p.now).globals at.now }
    requires thread { i < length core.old.threads.items }
    requires offers { OffersAt (L.language p.now) (O.Atomic kind addr expected desired) i (core_state L.state_of at.now core.old) }
    ensures { EffectGives (L.language p.now) (swapped_at (core_state L.state_of at.now core.old).shared kind addr expected desired (load (core_state L.state_of at.now core.old).shared.memory I32 addr)) i (core_state L.state_of at.now core.old) (core_state L.state_of at.now core.new) result }
{
    let Ok(old) = core.memory.load(Chunk::I32, addr) else {
        core.now = Now::Wrong;
        return Ok(StepOut {
            event: None,
            now: core.now,
        });
    };
    let Some(val) = exchanged(kind, old, expected, desired) else {
        core.now = Now::Wrong;
        return Ok(StepOut {
            event: None,
            now: core.now,
        });
    };
    let chunk = Chunk::I32;
    let item = Item::Put { chunk, addr, val };
    let answer = Answer::Value(old);
    apply_at::<L>(
        alloc,
        p,
        at,
        &mut core.threads,
        &mut core.memory,
        i,
        answer,
        item,
    )?;
    Ok(StepOut {
        event: None,
        now: core.now,
    })
}

/// The old word is answered, and the new one is in memory at once.
pub fn atomic<L: ThreadLang>(
    alloc: Global,
    p: &L::Program,
    at: &Placement,
    core: &mut Core<L::Thread>,
    i: usize,
    choice: Option<u32>,
    kind: Atomic,
    addr: Val,
    expected: Val,
    desired: Val,
) -> Result<StepOut, StepRefusal>
    requires proper { IsProper (L.language p.now).globals at.now }
    requires thread { i < length core.old.threads.items }
    requires buffer { i < length core.old.buffers.items }
    requires offers { OffersAt (L.language p.now) (O.Atomic kind addr expected desired) i (core_state L.state_of at.now core.old) }
    ensures { EffectGives (L.language p.now) (effect_of (O.Atomic kind addr expected desired) i choice (core_state L.state_of at.now core.old).shared) i (core_state L.state_of at.now core.old) (core_state L.state_of at.now core.new) result }
{
    if choice.is_some() {
        return Err(StepRefusal::NotEnabled);
    }
    if !core.buffers[i].items().is_empty() {
        return Err(StepRefusal::NotEnabled);
    }
    swap::<L>(alloc, p, at, core, i, kind, addr, expected, desired)
}
