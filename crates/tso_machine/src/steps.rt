//! The steps of a machine over what it keeps: a run of a thread, and a drain of a buffer.

ghost use Rattle.std.specs.Prelude.{◌≡◌, ◌<◌, ◌^◌, true, false, List, length, map, ◌≢◌, slice_get, slice_set, None, Some, IfSome};
ghost use Rattle.tso_core.specs.declared.offer.Answer.TheVariants.{Nothing};
ghost use Rattle.tso_core.specs.declared.offer.Now.TheVariants as N;
ghost use Rattle.tso_core.specs.declared.offer.Offer.TheVariants as O;
ghost use Rattle.tso_core.specs.declared.Step.TheVariants.{Run, Drain};
ghost use Rattle.tso_core.specs.Language.{Language, Takes};
ghost use Rattle.tso_core.specs.Machine.{step};
ghost use Rattle.tso_core.specs.Runs.{IsProper};
ghost use Rattle.tso_core.specs.Shared.{items_or_none};
ghost use Rattle.tso_memory.specs.declared.object.Object.{Object};
ghost use Rattle.tso_memory.specs.Buffer.{IsSoundItem};
ghost use Rattle.tso_memory.specs.Through.{objects_at};
ghost use Rattle.tso_machine.specs.Known.{are_known};
ghost use Rattle.tso_machine.specs.Choices.{MachineGives};
ghost use Rattle.tso_machine.specs.State.{core_state, flag, OffersAt, ActGives, CannotRun, StepGives, oldest_of, behind};

use crate::atomics::atomic;
use crate::calls::{call, place, wait};
use crate::choices::default_choice;
use crate::effects::{exit, fence, lift, load, store};
use crate::heap::{free, malloc};
use crate::keep::Core;
use crate::known::count_drained;
use crate::resuming::resume_at;
use crate::threads::{end, start};
use std::alloc::Global;
use tso_core::Step;
use tso_core::language::ThreadLang;
use tso_core::offer::{Answer, Now, Offer, StepOut, StepRefusal};
use tso_core::placement::Placement;
use tso_memory::{ApplyRefusal, Buffer, Item};

/// The thread does a step of its own.
fn silent<L: ThreadLang>(
    alloc: Global,
    p: &L::Program,
    at: &Placement,
    core: &mut Core<L::Thread>,
    i: usize,
    choice: Option<u32>,
) -> Result<StepOut, StepRefusal>
    requires proper { IsProper (L.language p.now).globals at.now }
    requires thread { i < length core.old.threads.items }
    requires offers { OffersAt (L.language p.now) O.Silent i (core_state L.state_of at.now core.old) }
    ensures { ActGives (L.language p.now) O.Silent choice i (core_state L.state_of at.now core.old) (core_state L.state_of at.now core.new) result }
{
    if choice.is_some() {
        return Err(StepRefusal::NotEnabled);
    }
    resume_at::<L>(alloc, p, at, &mut core.threads, i, Answer::Nothing)?;
    Ok(StepOut {
        event: None,
        now: core.now,
    })
}

/// The thread has gone wrong, and the machine with it.
fn go_wrong<L: ThreadLang>(
    _p: &L::Program,
    _at: &Placement,
    core: &mut Core<L::Thread>,
    _i: usize,
    choice: Option<u32>,
) -> Result<StepOut, StepRefusal>
    requires proper { IsProper (L.language _p.now).globals _at.now }
    requires thread { _i < length core.old.threads.items }
    requires offers { OffersAt (L.language _p.now) O.Wrong _i (core_state L.state_of _at.now core.old) }
    ensures { ActGives (L.language _p.now) O.Wrong choice _i (core_state L.state_of _at.now core.old) (core_state L.state_of _at.now core.new) result }
{
    if choice.is_some() {
        return Err(StepRefusal::NotEnabled);
    }
    core.now = Now::Wrong;
    Ok(StepOut {
        event: None,
        now: core.now,
    })
}

/// The thread does what it offers.
fn act<L: ThreadLang>(
    alloc: Global,
    p: &L::Program,
    at: &Placement,
    core: &mut Core<L::Thread>,
    i: usize,
    choice: Option<u32>,
    offer: Offer,
) -> Result<StepOut, StepRefusal>
    requires proper { IsProper (L.language p.now).globals at.now }
    requires thread { i < length core.old.threads.items }
    requires small { i < 2 ^ 32 }
    requires offers { OffersAt (L.language p.now) offer i (core_state L.state_of at.now core.old) }
    ensures { ActGives (L.language p.now) offer choice i (core_state L.state_of at.now core.old) (core_state L.state_of at.now core.new) result }
{
    match offer {
        Offer::Silent => silent::<L>(alloc, p, at, core, i, choice),
        Offer::Load { chunk, addr } => load::<L>(alloc, p, at, core, i, choice, chunk, addr),
        Offer::Store { chunk, addr, val } => store::<L>(
            alloc, p, at, core, i, choice, chunk, addr, val,
        ),
        Offer::Place { size, align } => place::<L>(alloc, p, at, core, i, choice, size, align),
        Offer::Lift { base, size } => lift::<L>(alloc, p, at, core, i, choice, base, size),
        Offer::Fence => fence::<L>(alloc, p, at, core, i, choice),
        Offer::Atomic {
            kind,
            addr,
            expected,
            desired,
        } => atomic::<L>(alloc, p, at, core, i, choice, kind, addr, expected, desired),
        Offer::Malloc { size } => malloc::<L>(alloc, p, at, core, i, choice, size),
        Offer::Free { addr } => free::<L>(alloc, p, at, core, i, choice, addr),
        Offer::Start { fun, arg } => start::<L>(alloc, p, at, core, i, choice, fun, arg),
        Offer::Call { name, words } => call::<L>(alloc, p, at, core, i, choice, name, words),
        Offer::Wait => wait::<L>(alloc, p, at, core, i, choice),
        Offer::Exit { word } => exit::<L>(p, at, core, i, choice, word),
        Offer::End => end::<L>(p, at, core, i, choice),
        Offer::Wrong => go_wrong::<L>(p, at, core, i, choice),
    }
}

/// Whether the machine runs, and the thread is there and has not ended.
fn can_run(now: Now, ended: &[bool], i: usize) -> bool
    ensures thread { result ≡ true → i < length ended.now }
    ensures running { result ≡ true → now ≡ N.Running }
    ensures live { result ≡ true → flag (slice_get ended.now i) ≡ false }
    ensures not { result ≡ false → CannotRun now ended.now i }
{
    match now {
        Now::Running => i < ended.len() && !ended[i],
        Now::Exited | Now::Wrong | Now::NoHeap => false,
    }
}

/// A thread does one step, with a choice where the step takes one.
pub fn run<L: ThreadLang>(
    alloc: Global,
    p: &L::Program,
    at: &Placement,
    core: &mut Core<L::Thread>,
    thread: u32,
    choice: Option<u32>,
) -> Result<StepOut, StepRefusal>
    requires proper { IsProper (L.language p.now).globals at.now }
    ensures { StepGives (step (L.language p.now) (core_state L.state_of at.now core.old) (Run thread choice)) (core_state L.state_of at.now core.old) (core_state L.state_of at.now core.new) result }
{
    let i = thread as usize;
    if !can_run(core.now, &core.ended, i) {
        return Err(StepRefusal::NotEnabled);
    }
    let offer = L::offer(alloc, p, at, &core.threads[i])?;
    act::<L>(alloc, p, at, core, i, choice, offer)
}

/// The oldest item of a buffer; `None` where there is no buffer, or no item in it.
fn oldest(buffers: &[Buffer], i: usize) -> Option<Item>
    ensures item { result ≡ oldest_of (items_or_none (slice_get (map (λ b. b.items) buffers.now) i)) }
    ensures sound { IfSome result IsSoundItem }
    ensures there { IfSome result (λ _. i < length buffers.now) }
{
    match buffers.get(i) {
        None => None,
        Some(buffer) => first_item(buffer),
    }
}

/// The oldest item of one buffer.
fn first_item(buffer: &Buffer) -> Option<Item>
    ensures item { result ≡ oldest_of buffer.now.items }
    ensures sound { IfSome result IsSoundItem }
{
    match buffer.items() {
        [] => None,
        [item, ..] => Some(*item),
    }
}

/// Takes the oldest item of one buffer off.
fn drop_first(buffer: &mut Buffer)
    ensures { buffer.new.items ≡ behind buffer.old.items }
{
    match buffer.pop() {
        None => {}
        Some(_) => {}
    }
}

/// Takes the oldest item of the buffer at a place off, once it is in memory.
fn drop_oldest(buffers: &mut Vec<Buffer>, known: &mut Vec<usize>, i: usize, item: &Item)
    requires buffer { i < length buffers.old.items }
    requires counts { length known.old.items ≡ length buffers.old.items }
    requires oldest { Some item.now ≡ oldest_of (items_or_none (slice_get (map (λ b. b.items) buffers.old.items) i)) }
    ensures rest { map (λ b. b.items) buffers.new.items ≡ slice_set (map (λ b. b.items) buffers.old.items) i (behind (items_or_none (slice_get (map (λ b. b.items) buffers.old.items) i))) }
    ensures as_many { length buffers.new.items ≡ length buffers.old.items }
    ensures as_many_counts { length known.new.items ≡ length known.old.items }
    ensures known { (os : List Object) → are_known os (map (λ b. b.items) buffers.old.items) known.old.items ≡ true → are_known (objects_at item.now os) (map (λ b. b.items) buffers.new.items) known.new.items ≡ true }
{
    count_drained(known, i, item);
    let buffer = &mut buffers[i];
    drop_first(buffer);
}

/// Whether the machine runs.
fn is_running(now: Now) -> bool
    ensures yes { result ≡ true → now ≡ N.Running }
    ensures no { result ≡ false → now ≢ N.Running }
{
    match now {
        Now::Running => true,
        Now::Exited | Now::Wrong | Now::NoHeap => false,
    }
}

/// The oldest item of a thread's buffer reaches memory; one that is wrong makes the machine wrong.
pub fn drain<L: ThreadLang>(
    _p: &L::Program,
    _at: &Placement,
    core: &mut Core<L::Thread>,
    thread: u32,
) -> Result<StepOut, StepRefusal>
    ensures { StepGives (step (L.language _p.now) (core_state L.state_of _at.now core.old) (Drain thread)) (core_state L.state_of _at.now core.old) (core_state L.state_of _at.now core.new) result }
{
    let i = thread as usize;
    if !is_running(core.now) {
        return Err(StepRefusal::NotEnabled);
    }
    let Some(item) = oldest(&core.buffers, i) else {
        return Err(StepRefusal::NotEnabled);
    };
    match core.memory.apply(&item) {
        Ok(()) => drop_oldest(&mut core.buffers, &mut core.known, i, &item),
        Err(ApplyRefusal::Wrong) => core.now = Now::Wrong,
        Err(ApplyRefusal::NoMemory) => return Err(StepRefusal::NoMemory),
    }
    Ok(StepOut {
        event: None,
        now: core.now,
    })
}

/// A thread does one step, with the default choice where the step takes one.
fn run_by_default<L: ThreadLang>(
    alloc: Global,
    p: &L::Program,
    at: &Placement,
    core: &mut Core<L::Thread>,
    thread: u32,
) -> Result<StepOut, StepRefusal>
    requires proper { IsProper (L.language p.now).globals at.now }
    ensures { MachineGives (L.language p.now) (Run thread None) (core_state L.state_of at.now core.old) (core_state L.state_of at.now core.new) result }
{
    let i = thread as usize;
    if !can_run(core.now, &core.ended, i) {
        return Err(StepRefusal::NotEnabled);
    }
    let offer = L::offer(alloc, p, at, &core.threads[i])?;
    let choice = default_choice(&core.memory, &core.buffers, i, &offer);
    act::<L>(alloc, p, at, core, i, choice, offer)
}

/// A thread does one step, with this choice or with the default one.
fn run_chosen<L: ThreadLang>(
    alloc: Global,
    p: &L::Program,
    at: &Placement,
    core: &mut Core<L::Thread>,
    thread: u32,
    choice: Option<u32>,
) -> Result<StepOut, StepRefusal>
    requires proper { IsProper (L.language p.now).globals at.now }
    ensures { MachineGives (L.language p.now) (Run thread choice) (core_state L.state_of at.now core.old) (core_state L.state_of at.now core.new) result }
{
    match choice {
        Some(base) => run::<L>(alloc, p, at, core, thread, Some(base)),
        None => run_by_default::<L>(alloc, p, at, core, thread),
    }
}

/// One step of a schedule. After a refusal everything is as it was.
pub fn take_step<L: ThreadLang>(
    alloc: Global,
    p: &L::Program,
    at: &Placement,
    core: &mut Core<L::Thread>,
    s: &Step,
) -> Result<StepOut, StepRefusal>
    requires proper { IsProper (L.language p.now).globals at.now }
    ensures { MachineGives (L.language p.now) s.now (core_state L.state_of at.now core.old) (core_state L.state_of at.now core.new) result }
{
    match *s {
        Step::Drain { thread } => drain::<L>(p, at, core, thread),
        Step::Run { thread, choice } => run_chosen::<L>(alloc, p, at, core, thread, choice),
    }
}
