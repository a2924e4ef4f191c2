//! The choices that steps take where a schedule gives none.

ghost use Rattle.std.specs.Prelude.{◌≡◌, ◌+◌, ◌^◌, ◌%◌, ◌<◌, ◌≤◌, ◌==◌, ◌&&◌, length, map, slice_index_or, []};
ghost use Rattle.tso_core.specs.Shared.{is_block_allowed};
ghost use Rattle.tso_memory.specs.Buffer.{is_place_allowed, objects_lifted, pending_ok};
ghost use Rattle.tso_memory.specs.Kept.{memory_of};
ghost use Rattle.tso_machine.specs.Choices.{IsLeastOrNone, IsLeastOrZero, IsDefault};
ghost use Rattle.tso_core.specs.Least.{Skips};

use crate::heap::block_size;
use crate::skips::{skip_objects, skip_pending, skip_to_aligned};
use tso_core::offer::Offer;
use tso_memory::{Buffer, Memory, Object};
use tso_words::Val;

/// The first address of the stacks, and the first one behind them.
const STACKS_BEGIN: u64 = 0x9000_0000;

const STACKS_END: u64 = 0xF000_0000;

/// The first address of the heap, and the first one behind it.
const HEAP_BEGIN: u64 = 0x3000_0000;

const HEAP_END: u64 = 0x9000_0000;

/// Leaps towards the next place: to a multiple of the alignment, behind objects, and behind Places
/// that wait.
fn skip_to_place(
    memory: &Memory,
    buffers: &[Buffer],
    i: usize,
    x: u64,
    size: u32,
    align: u32,
) -> u64
    requires thread { i < length buffers.now }
    requires start { x % 16 ≡ 0 }
    requires some { 1 ≤ align }
    requires before { x < 0xF0000000 }
    ensures skips { Skips (λ y. (y % align == 0) && (objects_lifted y size (slice_index_or (map (λ b. b.items) buffers.now) i []) memory.now.objects && pending_ok y size i (map (λ b. b.items) buffers.now))) x result }
    ensures low { result ≤ 2 ^ 33 }
{
    let aligned = skip_to_aligned(x, align, STACKS_END);
    let clear = skip_objects(memory.objects(), buffers[i].items(), aligned, size);
    skip_pending(buffers, i, clear, size)
}

/// The least place that is allowed. Each leap passes an object or a Place that waits, so the search
/// costs as many walks as there are leaps over Places, and two or three over the objects where
/// none waits.
fn least_place(memory: &Memory, buffers: &[Buffer], i: usize, size: u32, align: u32) -> Option<u32>
    requires { i < length buffers.now }
    ensures { IsLeastOrNone 0x90000000 (λ base. is_place_allowed (memory_of memory.now).objects (map (λ b. b.items) buffers.now) i base size align) result }
{
    if size == 0 {
        return None;
    }
    if align == 0 {
        return None;
    }
    let mut x = STACKS_BEGIN;
    while x + u64::from(size) <= STACKS_END {
        let next = skip_to_place(memory, buffers, i, x, size, align);
        if next == x {
            return Some(x as u32);
        }
        x = next;
    }
    None
}

/// The least base of a block that is allowed.
fn least_block(objects: &[Object], size: u32) -> Option<u32>
    requires { 1 ≤ size }
    ensures { IsLeastOrNone 0x30000000 (λ base. is_block_allowed objects.now base size) result }
{
    let mut x = HEAP_BEGIN;
    while x + u64::from(size) <= HEAP_END {
        let next = skip_objects(objects, &[], x, size);
        if next == x {
            return Some(x as u32);
        }
        x = next;
    }
    None
}

/// The base of a block where none is chosen; 0 where none is allowed.
fn default_block(objects: &[Object], size: u32) -> u32
    ensures { IsLeastOrZero objects.now size result }
{
    match least_block(objects, block_size(size)) {
        Some(base) => base,
        None => 0,
    }
}

/// The default choice of an offer of the thread at this position of `buffers`.
pub fn default_choice(memory: &Memory, buffers: &[Buffer], i: usize, offer: &Offer) -> Option<u32>
    requires { i < length buffers.now }
    ensures { IsDefault (memory_of memory.now).objects (map (λ b. b.items) buffers.now) i offer.now result }
{
    match *offer {
        Offer::Place { size, align } => least_place(memory, buffers, i, size, align),
        Offer::Malloc {
            size: Val::Word(size),
        } => Some(default_block(memory.objects(), size)),
        Offer::Wait => Some(0),
        _ => None,
    }
}
