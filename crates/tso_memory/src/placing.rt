//! Where a thread may place the object of a local.
ghost use Rattle.std.specs.Prelude.{◌≡◌, ℕ, ◌<◌, length, map, drop};
ghost use Rattle.tso_memory.specs.Buffer.{is_place_allowed, places_lifted, unplaced, objects_lifted, pending_ok, is_lift, is_place};
ghost use Rattle.std.specs.List.{list_any, list_all};
ghost use Rattle.tso_memory.specs.Kept.{memory_of};
ghost use Rattle.tso_memory.specs.Through.{is_lifted_by, is_fit};
ghost use Rattle.tso_memory.specs.Memory.{meets};

use crate::buffer::{Buffer, Item};
use crate::memory::Memory;
use crate::object::Object;

/// The first address of the stacks.
const STACKS_BEGIN: u64 = 0x9000_0000;

/// The first address behind the stacks.
const STACKS_END: u64 = 0xF000_0000;

/// Whether two ranges share an address.
fn ranges_meet(base1: u32, size1: u32, base2: u32, size2: u32) -> bool
    ensures { result ≡ meets base1 size1 base2 size2 }
{
    u64::from(base1) < u64::from(base2) + u64::from(size2)
        && u64::from(base2) < u64::from(base1) + u64::from(size1)
}

/// Whether an item is the Lift of a whole range.
fn is_lift(item: &Item, base: u32, size: u32) -> bool
    ensures { result ≡ is_lift base size item.now }
{
    match *item {
        Item::Lift { base: b, size: n } => b == base && n == size,
        _ => false,
    }
}

/// Whether an item is a Place that meets a range.
fn is_place(item: &Item, base: u32, size: u32) -> bool
    ensures { result ≡ is_place base size item.now }
{
    match *item {
        Item::Place { base: b, size: n } => ranges_meet(b, n, base, size),
        _ => false,
    }
}

/// Whether the Lift of a whole range is among the items.
fn has_lift(items: &[Item], base: u32, size: u32) -> bool
    ensures { result ≡ list_any (is_lift base size) items.now }
{
    items.iter().any(|item| is_lift(item, base, size))
}

/// Whether no Place among the items meets the range.
fn is_unplaced(items: &[Item], base: u32, size: u32) -> bool
    ensures { result ≡ unplaced base size items.now }
{
    items.iter().all(|item| !is_place(item, base, size))
}

/// Whether each object that meets the range has its Lift among the items.
fn are_objects_lifted(objects: &[Object], own: &[Item], base: u32, size: u32) -> bool
    ensures { result ≡ objects_lifted base size own.now objects.now }
{
    objects
        .iter()
        .all(|o| !o.meets(base, size) || has_lift(own, o.base, o.size))
}

/// Whether an item is no Place that meets the range, or its Lift is among the items behind it.
fn is_lifted_by(item: &Item, behind: &[Item], base: u32, size: u32) -> bool
    ensures { result ≡ is_lifted_by base size behind.now item.now }
{
    match *item {
        Item::Place { base: b, size: n } => {
            !ranges_meet(b, n, base, size) || has_lift(behind, b, n)
        }
        Item::Put { .. } | Item::Lift { .. } => true,
    }
}

/// Whether each Place among the items that meets the range has its Lift behind it.
fn are_places_lifted(items: &[Item], base: u32, size: u32) -> bool
    ensures { result ≡ places_lifted base size items.now }
{
    for k in 0..items.len() {
        if !is_lifted_by(&items[k], &items[k + 1..], base, size) {
            return false;
        }
    }
    true
}

/// Whether no Place in the buffers meets the range.
fn are_unplaced(buffers: &[Buffer], base: u32, size: u32) -> bool
    ensures { result ≡ list_all (λ b. unplaced base size b.items) buffers.now }
{
    buffers.iter().all(|b| is_unplaced(b.items(), base, size))
}

/// Whether each pending Place that meets the range stands in the buffer of the thread, with its
/// Lift behind it.
fn is_pending_ok(buffers: &[Buffer], thread: usize, base: u32, size: u32) -> bool
    requires { thread < length buffers.now }
    ensures { result ≡ pending_ok base size thread (map (λ b. b.items) buffers.now) }
{
    if !are_unplaced(&buffers[..thread], base, size) {
        return false;
    }
    if !are_places_lifted(buffers[thread].items(), base, size) {
        return false;
    }
    are_unplaced(&buffers[thread + 1..], base, size)
}

/// Whether a range may hold an object of a stack.
fn is_fit(base: u32, size: u32, align: u32) -> bool
    ensures { result ≡ is_fit base size align }
{
    size > 0
        && align > 0
        && base % align == 0
        && STACKS_BEGIN <= u64::from(base)
        && u64::from(base) + u64::from(size) <= STACKS_END
}

/// Whether the thread at this position of `buffers` may place an object of `size` bytes at `base`:
/// the range has at least one byte, its base is a multiple of `align`, it lies in the stacks'
/// range, each live object that it meets has its Lift in the thread's buffer, and each pending
/// Place that it meets stands in the thread's buffer with its Lift behind it.
///
/// It costs a walk over the objects and all buffers.
pub fn place_ok(
    m: &Memory,
    buffers: &[Buffer],
    thread: usize,
    base: u32,
    size: u32,
    align: u32,
) -> bool
    requires { thread < length buffers.now }
    ensures { result ≡ is_place_allowed (memory_of m.now).objects (map (λ b. b.items) buffers.now) thread base size align }
{
    if !is_fit(base, size, align) {
        return false;
    }
    are_objects_lifted(m.objects(), buffers[thread].items(), base, size)
        && is_pending_ok(buffers, thread, base, size)
}
