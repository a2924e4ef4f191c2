//! A thread that goes on together with a change of memory or of its buffer. Each reserves first, then
//! resumes the thread, and changes last, so that after want of memory everything is as it was.

ghost use Rattle.std.specs.Prelude.{◌≡◌, ◌<◌, ◌∷◌, [], ◌++◌, ◌+◌, false, length, map, slice_get, slice_set, Some, OnOk, OnErr, IfErr};
ghost use Rattle.tso_core.specs.declared.offer.StepRefusal.TheVariants as R;
ghost use Rattle.tso_core.specs.Language.{Language, Takes};
ghost use Rattle.tso_core.specs.Runs.{IsProper};
ghost use Rattle.tso_memory.specs.Buffer.{IsSoundItem};

use std::alloc::Global;
use tso_core::language::ThreadLang;
use tso_core::offer::{Answer, StepRefusal};
use tso_core::placement::Placement;
use tso_memory::{Buffer, Item};

/// The thread goes on, and the item waits in its buffer.
pub fn resume_pushing<L: ThreadLang>(
    alloc: Global,
    p: &L::Program,
    at: &Placement,
    thread: &mut L::Thread,
    buffer: &mut Buffer,
    answer: Answer,
    item: Item,
) -> Result<(), StepRefusal>
    requires proper { IsProper (L.language p.now).globals at.now }
    requires takes { Takes ((L.language p.now).offer at.now (L.state_of thread.old)) answer }
    requires sound { IsSoundItem item }
    ensures resumed { OnOk result (L.state_of thread.new ≡ (L.language p.now).resumed at.now (L.state_of thread.old) answer) }
    ensures pushed { OnOk result (buffer.new.items ≡ buffer.old.items ++ item ∷ []) }
    ensures memory { IfErr result (λ e. e ≡ R.NoMemory) }
    ensures same_thread { OnErr result (L.state_of thread.new ≡ L.state_of thread.old) }
    ensures same_buffer { OnErr result (buffer.new.items ≡ buffer.old.items) }
{
    if buffer.reserve().is_err() {
        return Err(StepRefusal::NoMemory);
    }
    match L::resume(alloc, p, at, thread, answer) {
        Err(_) => Err(StepRefusal::NoMemory),
        Ok(()) => match buffer.push(item) {
            Ok(()) => Ok(()),
            Err(_) => unreachable!(),
        },
    }
}

/// The thread at a place goes on, and a further one stands behind the others.
pub fn resume_adding<L: ThreadLang>(
    alloc: Global,
    p: &L::Program,
    at: &Placement,
    threads: &mut Vec<L::Thread>,
    i: usize,
    answer: Answer,
    further: L::Thread,
) -> Result<(), StepRefusal>
    requires proper { IsProper (L.language p.now).globals at.now }
    requires thread { i < length threads.old.items }
    requires takes { (s : L.State) → slice_get (map L.state_of threads.old.items) i ≡ Some s → Takes ((L.language p.now).offer at.now s) answer }
    ensures resumed { OnOk result ((s : L.State) → slice_get (map L.state_of threads.old.items) i ≡ Some s → map L.state_of threads.new.items ≡ slice_set (map L.state_of threads.old.items) i ((L.language p.now).resumed at.now s answer) ++ L.state_of further ∷ []) }
    ensures memory { IfErr result (λ e. e ≡ R.NoMemory) }
    ensures same_threads { OnErr result (map L.state_of threads.new.items ≡ map L.state_of threads.old.items) }
    ensures as_many { OnOk result (length threads.new.items ≡ length threads.old.items + 1) }
    ensures no_more { OnErr result (length threads.new.items ≡ length threads.old.items) }
{
    if threads.reserve(1).is_err() {
        return Err(StepRefusal::NoMemory);
    }
    let thread = &mut threads[i];
    match L::resume(alloc, p, at, thread, answer) {
        Err(_) => Err(StepRefusal::NoMemory),
        Ok(()) => match threads.push(further) {
            Ok(()) => Ok(()),
            Err(_) => unreachable!(),
        },
    }
}

/// A buffer without items, of which nothing is known, and the mark of a thread that has not ended
/// stand behind the others.
pub fn add_buffer(
    alloc: Global,
    buffers: &mut Vec<Buffer>,
    known: &mut Vec<usize>,
    ended: &mut Vec<bool>,
) -> Result<(), StepRefusal>
    ensures memory { IfErr result (λ e. e ≡ R.NoMemory) }
    ensures added { OnOk result (map (λ b. b.items) buffers.new.items ≡ map (λ b. b.items) buffers.old.items ++ [] ∷ []) }
    ensures counted { OnOk result (known.new.items ≡ known.old.items ++ 0 ∷ []) }
    ensures begun { OnOk result (ended.new.items ≡ ended.old.items ++ false ∷ []) }
    ensures same_buffers { OnErr result (buffers.new.items ≡ buffers.old.items) }
    ensures same_known { OnErr result (known.new.items ≡ known.old.items) }
    ensures same_ended { OnErr result (ended.new.items ≡ ended.old.items) }
    ensures buffer_more { OnOk result (length buffers.new.items ≡ length buffers.old.items + 1) }
    ensures as_many_buffers { OnErr result (length buffers.new.items ≡ length buffers.old.items) }
{
    if ended.reserve(1).is_err() {
        return Err(StepRefusal::NoMemory);
    }
    if known.reserve(1).is_err() {
        return Err(StepRefusal::NoMemory);
    }
    if buffers.push(Buffer::new(alloc)).is_err() {
        return Err(StepRefusal::NoMemory);
    }
    match (known.push(0), ended.push(false)) {
        (Ok(()), Ok(())) => Ok(()),
        _ => unreachable!(),
    }
}
