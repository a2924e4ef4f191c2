//! Blocks of the heap.

ghost use Rattle.std.specs.Prelude.{◌≡◌, ◌<◌, ◌≤◌, ◌==◌, ◌&&◌, not, length, None, Some, map, slice_get};
ghost use Rattle.std.specs.List.{find, list_all};
ghost use Rattle.tso_memory.specs.Memory.{meets};
ghost use Rattle.tso_core.specs.declared.offer.Answer.TheVariants.{Nothing, Value};
ghost use Rattle.tso_core.specs.declared.offer.Offer.TheVariants as O;
ghost use Rattle.tso_core.specs.Language.{Language, Takes};
ghost use Rattle.tso_core.specs.Runs.{IsProper};
ghost use Rattle.tso_core.specs.Shared.{effect_of, is_block_allowed, is_heap, heap_at, block_size, given_at, freed_at, freed};
ghost use Rattle.tso_words.specs.declared.value.Val.TheVariants.{Word};
ghost use Rattle.tso_machine.specs.State.{core_state, given_from, OffersAt, EffectGives};

use crate::keep::Core;
use crate::known::forget;
use crate::resuming::{add_at, remove_at, resume_at};
use std::alloc::Global;
use tso_core::language::ThreadLang;
use tso_core::offer::{Answer, Now, StepOut, StepRefusal};
use tso_core::placement::Placement;
use tso_memory::{Kind, Object};
use tso_words::Val;

/// The first address of the heap.
const HEAP_BEGIN: u32 = 0x3000_0000;

/// The first address behind the heap.
const HEAP_END: u64 = 0x9000_0000;

/// Whether no object shares a byte with the `size` bytes from `base` on.
fn is_clear(objects: &[Object], base: u32, size: u32) -> bool
    ensures { result ≡ list_all (λ o. not (meets o.base o.size base size)) objects.now }
{
    objects.iter().all(|o| !o.meets(base, size))
}

/// Whether a block of `size` bytes may begin at `base`: its base is a multiple of 16, and its range
/// lies in the heap and meets no live object.
pub fn is_block_allowed(objects: &[Object], base: u32, size: u32) -> bool
    ensures { result ≡ is_block_allowed objects.now base size }
{
    base % 16 == 0
        && HEAP_BEGIN <= base
        && u64::from(base) + u64::from(size) <= HEAP_END
        && is_clear(objects, base, size)
}

/// Whether an object is the block with this base.
fn is_block_at(o: &Object, base: u32) -> bool
    ensures { result ≡ ((o.now.base == base) && is_heap o.now.kind) }
{
    match o.kind {
        Kind::Heap => o.base == base,
        Kind::Static | Kind::Local => false,
    }
}

/// The live block with this base.
fn find_block(objects: &[Object], base: u32) -> Option<Object>
    ensures { result ≡ find (λ o. (o.base == base) && is_heap o.kind) objects.now }
{
    objects.iter().copied().find(|o| is_block_at(o, base))
}

/// The size of the live block with this base.
#[tactic(auto, using(crate::proofs::Blocks::found_heap, crate::proofs::Blocks::no_heap))]
pub fn heap_block(objects: &[Object], base: u32) -> Option<u32>
    ensures { result ≡ heap_at objects.now base }
{
    match find_block(objects, base) {
        Some(o) => Some(o.size),
        None => None,
    }
}

/// A block of no bytes takes one.
pub fn block_size(size: u32) -> u32
    ensures size { result ≡ block_size size }
    ensures some { 1 ≤ result }
{
    if size == 0 { 1 } else { size }
}

/// A block of `size` bytes begins at `base`, where it may.
#[tactic(auto, using(crate::proofs::Blocks::block_apart))]
fn give<L: ThreadLang>(
    alloc: Global,
    p: &L::Program,
    at: &Placement,
    core: &mut Core<L::Thread>,
    i: usize,
    size: u32,
    base: u32,
) -> Result<StepOut, StepRefusal>
    requires proper { IsProper (L.language p.now).globals at.now }
    requires thread { i < length core.old.threads.items }
    requires offers { OffersAt (L.language p.now) (O.Malloc (Word size)) i (core_state L.state_of at.now core.old) }
    ensures { EffectGives (L.language p.now) (given_from (core_state L.state_of at.now core.old).shared size base) i (core_state L.state_of at.now core.old) (core_state L.state_of at.now core.new) result }
{
    let size = block_size(size);
    if !is_block_allowed(core.memory.objects(), base, size) {
        return Err(StepRefusal::NotEnabled);
    }
    let kind = Kind::Heap;
    let object = Object { base, size, kind };
    let answer = Answer::Value(Val::Word(base));
    forget(&mut core.known);
    add_at::<L>(
        alloc,
        p,
        at,
        &mut core.threads,
        &mut core.memory,
        i,
        answer,
        object,
    )?;
    Ok(StepOut {
        event: None,
        now: core.now,
    })
}

/// A block of `size` bytes begins at `base`; 0 is the want of heap.
fn give_at<L: ThreadLang>(
    alloc: Global,
    p: &L::Program,
    at: &Placement,
    core: &mut Core<L::Thread>,
    i: usize,
    size: u32,
    base: u32,
) -> Result<StepOut, StepRefusal>
    requires proper { IsProper (L.language p.now).globals at.now }
    requires thread { i < length core.old.threads.items }
    requires offers { OffersAt (L.language p.now) (O.Malloc (Word size)) i (core_state L.state_of at.now core.old) }
    ensures { EffectGives (L.language p.now) (given_at (core_state L.state_of at.now core.old).shared size base) i (core_state L.state_of at.now core.old) (core_state L.state_of at.now core.new) result }
{
    if base == 0 {
        core.now = Now::NoHeap;
        return Ok(StepOut {
            event: None,
            now: core.now,
        });
    }
    give::<L>(alloc, p, at, core, i, size, base)
}

/// The block with this base ends; it is wrong where there is none.
#[tactic(auto, using(crate::proofs::Blocks::heap_live))]
fn end_block<L: ThreadLang>(
    alloc: Global,
    p: &L::Program,
    at: &Placement,
    core: &mut Core<L::Thread>,
    i: usize,
    base: u32,
) -> Result<StepOut, StepRefusal>
    requires proper { IsProper (L.language p.now).globals at.now }
    requires thread { i < length core.old.threads.items }
    requires offers { OffersAt (L.language p.now) (O.Free (Word base)) i (core_state L.state_of at.now core.old) }
    ensures { EffectGives (L.language p.now) (freed (core_state L.state_of at.now core.old).shared base (heap_at (core_state L.state_of at.now core.old).shared.memory.objects base)) i (core_state L.state_of at.now core.old) (core_state L.state_of at.now core.new) result }
{
    if heap_block(core.memory.objects(), base).is_none() {
        core.now = Now::Wrong;
        return Ok(StepOut {
            event: None,
            now: core.now,
        });
    }
    let answer = Answer::Nothing;
    forget(&mut core.known);
    remove_at::<L>(
        alloc,
        p,
        at,
        &mut core.threads,
        &mut core.memory,
        i,
        answer,
        base,
    )?;
    Ok(StepOut {
        event: None,
        now: core.now,
    })
}

/// The block at an address ends. 0 does nothing, and what is no live block's base is wrong.
fn end_at<L: ThreadLang>(
    alloc: Global,
    p: &L::Program,
    at: &Placement,
    core: &mut Core<L::Thread>,
    i: usize,
    addr: Val,
) -> Result<StepOut, StepRefusal>
    requires proper { IsProper (L.language p.now).globals at.now }
    requires thread { i < length core.old.threads.items }
    requires offers { OffersAt (L.language p.now) (O.Free addr) i (core_state L.state_of at.now core.old) }
    ensures { EffectGives (L.language p.now) (freed_at (core_state L.state_of at.now core.old).shared addr) i (core_state L.state_of at.now core.old) (core_state L.state_of at.now core.new) result }
{
    match addr {
        Val::Undef => {
            core.now = Now::Wrong;
            Ok(StepOut {
                event: None,
                now: core.now,
            })
        }
        Val::Word(0) => {
            resume_at::<L>(alloc, p, at, &mut core.threads, i, Answer::Nothing)?;
            Ok(StepOut {
                event: None,
                now: core.now,
            })
        }
        Val::Word(base) => end_block::<L>(alloc, p, at, core, i, base),
    }
}

/// The block ends. 0 does nothing, and what is no live block's base is wrong.
pub fn free<L: ThreadLang>(
    alloc: Global,
    p: &L::Program,
    at: &Placement,
    core: &mut Core<L::Thread>,
    i: usize,
    choice: Option<u32>,
    addr: Val,
) -> Result<StepOut, StepRefusal>
    requires proper { IsProper (L.language p.now).globals at.now }
    requires thread { i < length core.old.threads.items }
    requires buffer { i < length core.old.buffers.items }
    requires offers { OffersAt (L.language p.now) (O.Free addr) i (core_state L.state_of at.now core.old) }
    ensures { EffectGives (L.language p.now) (effect_of (O.Free addr) i choice (core_state L.state_of at.now core.old).shared) i (core_state L.state_of at.now core.old) (core_state L.state_of at.now core.new) result }
{
    if choice.is_some() {
        return Err(StepRefusal::NotEnabled);
    }
    if !core.buffers[i].items().is_empty() {
        return Err(StepRefusal::NotEnabled);
    }
    end_at::<L>(alloc, p, at, core, i, addr)
}

/// A new block begins at the chosen base; 0 is the want of heap.
pub fn malloc<L: ThreadLang>(
    alloc: Global,
    p: &L::Program,
    at: &Placement,
    core: &mut Core<L::Thread>,
    i: usize,
    choice: Option<u32>,
    size: Val,
) -> Result<StepOut, StepRefusal>
    requires proper { IsProper (L.language p.now).globals at.now }
    requires thread { i < length core.old.threads.items }
    requires buffer { i < length core.old.buffers.items }
    requires offers { OffersAt (L.language p.now) (O.Malloc size) i (core_state L.state_of at.now core.old) }
    ensures { EffectGives (L.language p.now) (effect_of (O.Malloc size) i choice (core_state L.state_of at.now core.old).shared) i (core_state L.state_of at.now core.old) (core_state L.state_of at.now core.new) result }
{
    if !core.buffers[i].items().is_empty() {
        return Err(StepRefusal::NotEnabled);
    }
    match (size, choice) {
        (Val::Undef, None) => {
            core.now = Now::Wrong;
            Ok(StepOut {
                event: None,
                now: core.now,
            })
        }
        (Val::Word(size), Some(base)) => give_at::<L>(alloc, p, at, core, i, size, base),
        _ => Err(StepRefusal::NotEnabled),
    }
}
