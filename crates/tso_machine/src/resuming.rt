//! A thread at a place that goes on, together with a change of memory or of buffers.

ghost use Rattle.std.specs.Prelude.{◌≡◌, ◌<◌, ◌∷◌, [], ◌++◌, ◌+◌, ◌≢◌, ◌==◌, true, ℕ, List, length, map, OnOk, OnErr, IfErr, slice_get, slice_set, None, Some, false};
ghost use Rattle.tso_core.specs.declared.offer.StepRefusal.TheVariants as R;
ghost use Rattle.tso_core.specs.Language.{Language, Takes};
ghost use Rattle.tso_core.specs.Runs.{IsProper};
ghost use Rattle.tso_core.specs.Shared.{items_or_none};
ghost use Rattle.tso_memory.specs.Buffer.{IsSoundItem, applied};
ghost use Rattle.tso_memory.specs.Memory.{IsSound, IsApart, added, only, removed};
ghost use Rattle.tso_memory.specs.declared.object.Object.{Object};
ghost use Rattle.tso_memory.specs.Kept.{memory_of};
ghost use Rattle.tso_memory.specs.Through.{is_store};
ghost use Rattle.tso_machine.specs.Known.{are_known};
ghost use Rattle.tso_words.specs.declared.value.Cell.TheVariants.{Blank};
ghost use Rattle.std.specs.List.{list_any};

use crate::parts::{add_buffer, resume_adding, resume_pushing};
use std::alloc::Global;
use tso_core::language::ThreadLang;
use tso_core::offer::{Answer, StepRefusal};
use tso_core::placement::Placement;
use tso_memory::{Buffer, Item, Memory, Object};

/// The thread at a place goes on.
pub fn resume_at<L: ThreadLang>(
    alloc: Global,
    p: &L::Program,
    at: &Placement,
    threads: &mut Vec<L::Thread>,
    i: usize,
    answer: Answer,
) -> Result<(), StepRefusal>
    requires proper { IsProper (L.language p.now).globals at.now }
    requires thread { i < length threads.old.items }
    requires takes { (s : L.State) → slice_get (map L.state_of threads.old.items) i ≡ Some s → Takes ((L.language p.now).offer at.now s) answer }
    ensures ok { OnOk result ((s : L.State) → slice_get (map L.state_of threads.old.items) i ≡ Some s → map L.state_of threads.new.items ≡ slice_set (map L.state_of threads.old.items) i ((L.language p.now).resumed at.now s answer)) }
    ensures memory { IfErr result (λ e. e ≡ R.NoMemory) }
    ensures err { OnErr result (map L.state_of threads.new.items ≡ map L.state_of threads.old.items) }
    ensures as_many { length threads.new.items ≡ length threads.old.items }
{
    let thread = &mut threads[i];
    match L::resume(alloc, p, at, thread, answer) {
        Ok(()) => Ok(()),
        Err(_) => Err(StepRefusal::NoMemory),
    }
}

/// The thread at a place goes on, and an item waits in its buffer.
pub fn push_at<L: ThreadLang>(
    alloc: Global,
    p: &L::Program,
    at: &Placement,
    threads: &mut Vec<L::Thread>,
    buffers: &mut Vec<Buffer>,
    i: usize,
    answer: Answer,
    item: Item,
) -> Result<(), StepRefusal>
    requires proper { IsProper (L.language p.now).globals at.now }
    requires thread { i < length threads.old.items }
    requires buffer { i < length buffers.old.items }
    requires takes { (s : L.State) → slice_get (map L.state_of threads.old.items) i ≡ Some s → Takes ((L.language p.now).offer at.now s) answer }
    requires sound { IsSoundItem item }
    ensures resumed { OnOk result ((s : L.State) → slice_get (map L.state_of threads.old.items) i ≡ Some s → map L.state_of threads.new.items ≡ slice_set (map L.state_of threads.old.items) i ((L.language p.now).resumed at.now s answer)) }
    ensures pushed { OnOk result (map (λ b. b.items) buffers.new.items ≡ slice_set (map (λ b. b.items) buffers.old.items) i (items_or_none (slice_get (map (λ b. b.items) buffers.old.items) i) ++ item ∷ [])) }
    ensures memory { IfErr result (λ e. e ≡ R.NoMemory) }
    ensures same_threads { OnErr result (map L.state_of threads.new.items ≡ map L.state_of threads.old.items) }
    ensures same_buffers { OnErr result (map (λ b. b.items) buffers.new.items ≡ map (λ b. b.items) buffers.old.items) }
    ensures as_many { length threads.new.items ≡ length threads.old.items }
    ensures as_many_buffers { length buffers.new.items ≡ length buffers.old.items }
    ensures known { (os : List Object) (ks : List ℕ) → are_known os (map (λ b. b.items) buffers.old.items) ks ≡ true → are_known os (map (λ b. b.items) buffers.new.items) ks ≡ true }
{
    let buffer = &mut buffers[i];
    let thread = &mut threads[i];
    resume_pushing::<L>(alloc, p, at, thread, buffer, answer, item)
}

/// The thread at a place goes on, and a store that is right reaches memory at once.
pub fn apply_at<L: ThreadLang>(
    alloc: Global,
    p: &L::Program,
    at: &Placement,
    threads: &mut Vec<L::Thread>,
    memory: &mut Memory,
    i: usize,
    answer: Answer,
    item: Item,
) -> Result<(), StepRefusal>
    requires proper { IsProper (L.language p.now).globals at.now }
    requires thread { i < length threads.old.items }
    requires takes { (s : L.State) → slice_get (map L.state_of threads.old.items) i ≡ Some s → Takes ((L.language p.now).offer at.now s) answer }
    requires sound { IsSoundItem item }
    requires right { applied (memory_of memory.old) item ≢ None }
    requires store { is_store item ≡ true }
    ensures resumed { OnOk result ((s : L.State) → slice_get (map L.state_of threads.old.items) i ≡ Some s → map L.state_of threads.new.items ≡ slice_set (map L.state_of threads.old.items) i ((L.language p.now).resumed at.now s answer)) }
    ensures applied { OnOk result (applied (memory_of memory.old) item ≡ Some (memory_of memory.new)) }
    ensures memory { IfErr result (λ e. e ≡ R.NoMemory) }
    ensures same_threads { OnErr result (map L.state_of threads.new.items ≡ map L.state_of threads.old.items) }
    ensures same_memory { OnErr result (memory_of memory.new ≡ memory_of memory.old) }
    ensures same_objects { memory.new.objects ≡ memory.old.objects }
    ensures as_many { length threads.new.items ≡ length threads.old.items }
{
    if memory.reserve().is_err() {
        return Err(StepRefusal::NoMemory);
    }
    resume_at::<L>(alloc, p, at, threads, i, answer)?;
    match memory.apply(&item) {
        Ok(()) => Ok(()),
        Err(_) => unreachable!(),
    }
}

/// The thread at a place goes on, and a new object is in memory.
pub fn add_at<L: ThreadLang>(
    alloc: Global,
    p: &L::Program,
    at: &Placement,
    threads: &mut Vec<L::Thread>,
    memory: &mut Memory,
    i: usize,
    answer: Answer,
    object: Object,
) -> Result<(), StepRefusal>
    requires proper { IsProper (L.language p.now).globals at.now }
    requires thread { i < length threads.old.items }
    requires takes { (s : L.State) → slice_get (map L.state_of threads.old.items) i ≡ Some s → Takes ((L.language p.now).offer at.now s) answer }
    requires sound { IsSound object.base object.size }
    requires apart { IsApart object.base object.size (memory_of memory.old).objects }
    ensures resumed { OnOk result ((s : L.State) → slice_get (map L.state_of threads.old.items) i ≡ Some s → map L.state_of threads.new.items ≡ slice_set (map L.state_of threads.old.items) i ((L.language p.now).resumed at.now s answer)) }
    ensures added { OnOk result (memory_of memory.new ≡ added object Blank (memory_of memory.old)) }
    ensures memory { IfErr result (λ e. e ≡ R.NoMemory) }
    ensures same_threads { OnErr result (map L.state_of threads.new.items ≡ map L.state_of threads.old.items) }
    ensures same_memory { OnErr result (memory_of memory.new ≡ memory_of memory.old) }
    ensures as_many { length threads.new.items ≡ length threads.old.items }
{
    if memory.reserve().is_err() {
        return Err(StepRefusal::NoMemory);
    }
    resume_at::<L>(alloc, p, at, threads, i, answer)?;
    match memory.add(object) {
        Ok(()) => Ok(()),
        Err(_) => unreachable!(),
    }
}

/// The thread at a place goes on, and the object with a base ends.
pub fn remove_at<L: ThreadLang>(
    alloc: Global,
    p: &L::Program,
    at: &Placement,
    threads: &mut Vec<L::Thread>,
    memory: &mut Memory,
    i: usize,
    answer: Answer,
    base: u32,
) -> Result<(), StepRefusal>
    requires proper { IsProper (L.language p.now).globals at.now }
    requires thread { i < length threads.old.items }
    requires takes { (s : L.State) → slice_get (map L.state_of threads.old.items) i ≡ Some s → Takes ((L.language p.now).offer at.now s) answer }
    requires live { list_any (λ o. o.base == base) (memory_of memory.old).objects ≡ true }
    ensures resumed { OnOk result ((s : L.State) → slice_get (map L.state_of threads.old.items) i ≡ Some s → map L.state_of threads.new.items ≡ slice_set (map L.state_of threads.old.items) i ((L.language p.now).resumed at.now s answer)) }
    ensures removed { OnOk result (memory_of memory.new ≡ only (removed base (memory_of memory.old).objects) (memory_of memory.old)) }
    ensures memory { IfErr result (λ e. e ≡ R.NoMemory) }
    ensures same_threads { OnErr result (map L.state_of threads.new.items ≡ map L.state_of threads.old.items) }
    ensures same_memory { OnErr result (memory_of memory.new ≡ memory_of memory.old) }
    ensures as_many { length threads.new.items ≡ length threads.old.items }
{
    resume_at::<L>(alloc, p, at, threads, i, answer)?;
    memory.remove(base);
    Ok(())
}

/// The thread at a place goes on, and a further one stands behind the others, with an empty buffer.
pub fn add_thread_at<L: ThreadLang>(
    alloc: Global,
    p: &L::Program,
    at: &Placement,
    threads: &mut Vec<L::Thread>,
    buffers: &mut Vec<Buffer>,
    known: &mut Vec<usize>,
    ended: &mut Vec<bool>,
    i: usize,
    answer: Answer,
    further: L::Thread,
) -> Result<(), StepRefusal>
    requires proper { IsProper (L.language p.now).globals at.now }
    requires thread { i < length threads.old.items }
    requires takes { (s : L.State) → slice_get (map L.state_of threads.old.items) i ≡ Some s → Takes ((L.language p.now).offer at.now s) answer }
    ensures resumed { OnOk result ((s : L.State) → slice_get (map L.state_of threads.old.items) i ≡ Some s → map L.state_of threads.new.items ≡ slice_set (map L.state_of threads.old.items) i ((L.language p.now).resumed at.now s answer) ++ L.state_of further ∷ []) }
    ensures added { OnOk result (map (λ b. b.items) buffers.new.items ≡ map (λ b. b.items) buffers.old.items ++ [] ∷ []) }
    ensures counted { OnOk result (known.new.items ≡ known.old.items ++ 0 ∷ []) }
    ensures begun { OnOk result (ended.new.items ≡ ended.old.items ++ false ∷ []) }
    ensures memory { IfErr result (λ e. e ≡ R.NoMemory) }
    ensures same_threads { OnErr result (map L.state_of threads.new.items ≡ map L.state_of threads.old.items) }
    ensures same_buffers { OnErr result (map (λ b. b.items) buffers.new.items ≡ map (λ b. b.items) buffers.old.items) }
    ensures same_known { OnErr result (known.new.items ≡ known.old.items) }
    ensures same_ended { OnErr result (ended.new.items ≡ ended.old.items) }
    ensures as_many { OnOk result (length threads.new.items ≡ length threads.old.items + 1) }
    ensures no_more { OnErr result (length threads.new.items ≡ length threads.old.items) }
    ensures buffer_more { OnOk result (length buffers.new.items ≡ length buffers.old.items + 1) }
    ensures as_many_buffers { OnErr result (length buffers.new.items ≡ length buffers.old.items) }
{
    add_buffer(alloc, buffers, known, ended)?;
    match resume_adding::<L>(alloc, p, at, threads, i, answer, further) {
        Ok(()) => Ok(()),
        Err(e) => {
            let _ = buffers.pop();
            let _ = known.pop();
            let _ = ended.pop();
            Err(e)
        }
    }
}
