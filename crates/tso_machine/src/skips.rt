//! Ranges of free addresses, found by leaps: from an address to the first multiple of 16 behind
//! what stands in the way, so that a search costs a few walks over the objects and the buffers,
//! and none over the addresses.

ghost use Rattle.std.specs.Prelude.{◌≡◌, ◌+◌, ◌-◌, ◌^◌, ◌%◌, ◌<◌, ◌≤◌, ◌==◌, ◌&&◌, ◌||◌, not, true, length, map, drop, slice_index_or, []};
ghost use Rattle.std.specs.List.{list_any, list_all};
ghost use Rattle.tso_memory.specs.Buffer.{is_lift, is_place, objects_lifted, unplaced, places_lifted, pending_ok};
ghost use Rattle.tso_memory.specs.Kept.{memory_of};
ghost use Rattle.tso_memory.specs.Memory.{meets};
ghost use Rattle.tso_memory.specs.Through.{is_lifted_by};
ghost use Rattle.tso_core.specs.Least.{Skips};

use tso_memory::{Buffer, Item, Memory, Object};

/// The first multiple of 16 from an address on.
fn round_up(x: u64) -> u64
    requires { x ≤ 2 ^ 33 }
    ensures multiple { result % 16 ≡ 0 }
    ensures high { x ≤ result }
    ensures near { result < x + 16 }
{
    (x + 15) / 16 * 16
}

/// Whether the bytes from `base` on and those from `x` on share an address.
fn do_meet(base: u32, size: u32, x: u64, length: u32) -> bool
    requires { x ≤ 2 ^ 33 }
    ensures { result ≡ meets base size x length }
{
    u64::from(base) < x + u64::from(length) && x < u64::from(base) + u64::from(size)
}

/// Whether an item is the Lift of a whole range.
fn is_lift(item: &Item, base: u32, size: u32) -> bool
    ensures { result ≡ is_lift base size item.now }
{
    match *item {
        Item::Lift { base: b, size: n } => b == base && n == size,
        _ => false,
    }
}

/// Whether the Lift of a whole range is among the items.
fn has_lift(items: &[Item], base: u32, size: u32) -> bool
    ensures { result ≡ list_any (is_lift base size) items.now }
{
    items.iter().any(|item| is_lift(item, base, size))
}

/// Leaps behind a range, where it meets the `size` bytes from `x` on.
fn behind_range(base: u32, length: u32, x: u64, size: u32) -> u64
    requires { x ≤ 2 ^ 33 }
    ensures skips { Skips (λ y. not (meets base length y size)) x result }
    ensures low { result ≤ 2 ^ 33 }
{
    if !do_meet(base, length, x, size) {
        return x;
    }
    round_up(u64::from(base) + u64::from(length))
}

/// Leaps behind a range, where it meets the `size` bytes from `x` on and its Lift is not among the
/// items.
fn behind_unlifted(items: &[Item], base: u32, length: u32, x: u64, size: u32) -> u64
    requires { x ≤ 2 ^ 33 }
    ensures skips { Skips (λ y. not (meets base length y size) || list_any (is_lift base length) items.now) x result }
    ensures low { result ≤ 2 ^ 33 }
{
    if !do_meet(base, length, x, size) {
        return x;
    }
    if has_lift(items, base, length) {
        return x;
    }
    behind_range(base, length, x, size)
}

/// Leaps behind each object that stands in the way in its turn, and whose Lift is not among the
/// own items.
pub fn skip_objects(objects: &[Object], own: &[Item], x: u64, size: u32) -> u64
    requires { x ≤ 2 ^ 33 }
    ensures skips { Skips (λ y. objects_lifted y size own.now objects.now) x result }
    ensures low { result ≤ 2 ^ 33 }
{
    let mut at = x;
    for k in 0..objects.len() {
        let o = objects[k];
        at = behind_unlifted(own, o.base, o.size, at, size);
    }
    at
}

/// Leaps behind an item of another thread.
fn behind_item(item: &Item, x: u64, size: u32) -> u64
    requires { x ≤ 2 ^ 33 }
    ensures skips { Skips (λ y. not (is_place y size item.now)) x result }
    ensures low { result ≤ 2 ^ 33 }
{
    match *item {
        Item::Place { base, size: length } => behind_range(base, length, x, size),
        Item::Put { .. } | Item::Lift { .. } => x,
    }
}

/// Leaps behind an own item, where its Lift is not among the items behind it.
fn behind_own(item: &Item, rest: &[Item], x: u64, size: u32) -> u64
    requires { x ≤ 2 ^ 33 }
    ensures skips { Skips (λ y. is_lifted_by y size rest.now item.now) x result }
    ensures low { result ≤ 2 ^ 33 }
{
    match *item {
        Item::Place { base, size: length } => behind_unlifted(rest, base, length, x, size),
        Item::Put { .. } | Item::Lift { .. } => x,
    }
}

/// Leaps behind each item of another thread that stands in the way in its turn.
fn skip_items(items: &[Item], x: u64, size: u32) -> u64
    requires { x ≤ 2 ^ 33 }
    ensures skips { Skips (λ y. unplaced y size items.now) x result }
    ensures low { result ≤ 2 ^ 33 }
{
    let mut at = x;
    for k in 0..items.len() {
        at = behind_item(&items[k], at, size);
    }
    at
}

/// Leaps behind each own item that stands in the way in its turn, the newest first.
fn skip_own(items: &[Item], x: u64, size: u32) -> u64
    requires { x ≤ 2 ^ 33 }
    ensures skips { Skips (λ y. places_lifted y size items.now) x result }
    ensures low { result ≤ 2 ^ 33 }
{
    let mut at = x;
    let mut k = items.len();
    while k > 0 {
        k -= 1;
        at = behind_own(&items[k], &items[k + 1..], at, size);
    }
    at
}

/// Leaps behind the items of other threads' buffers that stand in the way in their turn.
fn skip_others(buffers: &[Buffer], x: u64, size: u32) -> u64
    requires { x ≤ 2 ^ 33 }
    ensures skips { Skips (λ y. list_all (λ b. unplaced y size b.items) buffers.now) x result }
    ensures low { result ≤ 2 ^ 33 }
{
    let mut at = x;
    for k in 0..buffers.len() {
        at = skip_items(buffers[k].items(), at, size);
    }
    at
}

/// Leaps behind the Places in all buffers that stand in the way in their turn.
pub fn skip_pending(buffers: &[Buffer], thread: usize, x: u64, size: u32) -> u64
    requires start { x ≤ 2 ^ 33 }
    requires thread { thread < length buffers.now }
    ensures skips { Skips (λ y. pending_ok y size thread (map (λ b. b.items) buffers.now)) x result }
    ensures low { result ≤ 2 ^ 33 }
{
    let front = skip_others(&buffers[..thread], x, size);
    let own = skip_own(buffers[thread].items(), front, size);
    skip_others(&buffers[thread + 1..], own, size)
}

/// Goes on to a multiple of the alignment, but not behind `end`.
pub fn skip_to_aligned(x: u64, align: u32, end: u64) -> u64
    requires start { x % 16 ≡ 0 }
    requires some { 1 ≤ align }
    requires before { x < end }
    requires small { end ≤ 2 ^ 32 }
    ensures skips { Skips (λ y. y % align == 0) x result }
    ensures low { result ≤ 2 ^ 33 }
{
    let align = u64::from(align);
    let mut at = x;
    while at % align != 0 && at < end {
        at += 16;
    }
    at
}
