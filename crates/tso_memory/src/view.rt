//! What a thread sees of memory: its loads read behind the items of its own buffer.
ghost use Rattle.std.specs.Prelude.{◌≡◌, ℕ, ◌+◌, ◌≤◌, Some, None, MatchResult, true, length, take};
ghost use Rattle.std.specs.List.{find, list_any, list_all};
ghost use Rattle.tso_memory.specs.Memory.{is_right, holds};
ghost use Rattle.tso_memory.specs.Buffer.{view, loaded, AreSoundItems, IsSoundItem};
ghost use Rattle.tso_memory.specs.Kept.{memory_of, kept_at};
ghost use Rattle.tso_memory.specs.Through.{holder_after, holder_through, cell_after, cell_through, objects_after, is_right_item, is_store, all_right};

use crate::buffer::{Buffer, Item};
use crate::memory::{Memory, WrongAccess};
use crate::object::{Kind, Object};
use tso_words::{Cell, Chunk, Val, bytes_of, size_of_chunk, val_of};

/// The object with a range after an item, where `holder` is the one before it.
fn holder_after(item: &Item, base: u32, size: u32, holder: Option<Object>) -> Option<Object>
    ensures { result ≡ holder_after item.now base size holder }
{
    match *item {
        Item::Put { .. } => holder,
        Item::Place { base: b, size: n } => {
            let kind = Kind::Local;
            let o = Object {
                base: b,
                size: n,
                kind,
            };
            if o.holds(base, size) {
                return Some(o);
            }
            match holder {
                Some(o) if !o.meets(b, n) => Some(o),
                _ => None,
            }
        }
        Item::Lift { base: b, size: n } => match holder {
            Some(o) if !o.is_at(b, n) => Some(o),
            _ => None,
        },
    }
}

/// The cell at an address after a store, where `cell` is the one before it.
fn cell_after_put(chunk: Chunk, addr: Val, val: Val, x: u32, cell: Cell) -> Cell
    ensures { result ≡ cell_after (Item.Put chunk addr val) x cell }
{
    let Val::Word(a) = addr else {
        return cell;
    };
    if x < a || x - a >= size_of_chunk(chunk) {
        return cell;
    }
    bytes_of(chunk, val)[(x - a) as usize]
}

/// The cell at an address after an item, where `cell` is the one before it.
fn cell_after(item: &Item, x: u32, cell: Cell) -> Cell
    ensures { result ≡ cell_after item.now x cell }
{
    match *item {
        Item::Put { chunk, addr, val } => cell_after_put(chunk, addr, val, x, cell),
        Item::Place { base, size } if base <= x && x - base < size => Cell::Blank,
        _ => cell,
    }
}

/// Whether an access is right in the view behind these items.
fn is_right_behind(m: &Memory, items: &[Item], chunk: Chunk, addr: Val) -> bool
    requires { AreSoundItems items.now }
    ensures { result ≡ is_right (objects_after m.now.objects items.now) chunk addr }
{
    let Val::Word(base) = addr else {
        return false;
    };
    let size = size_of_chunk(chunk);
    if base % size != 0 {
        return false;
    }
    let mut holder = m.holder(base, size);
    for item in items {
        holder = holder_after(item, base, size, holder);
    }
    match holder {
        Some(_) => true,
        None => false,
    }
}

/// Whether an item is no store, or one that is right behind these items.
fn is_right_item(m: &Memory, front: &[Item], item: &Item) -> bool
    requires { AreSoundItems front.now }
    ensures { result ≡ is_right_item (objects_after m.now.objects front.now) item.now }
{
    match *item {
        Item::Put { chunk, addr, .. } => is_right_behind(m, front, chunk, addr),
        Item::Place { .. } | Item::Lift { .. } => true,
    }
}

/// Whether an item is a store.
fn is_store(item: &Item) -> bool
    ensures { result ≡ is_store item.now }
{
    match *item {
        Item::Put { .. } => true,
        Item::Place { .. } | Item::Lift { .. } => false,
    }
}

/// How many stores stand in front of the first item that begins or ends an object.
fn count_front_stores(items: &[Item]) -> usize
    ensures bound { result ≤ length items.now }
    ensures stores { list_all is_store (take result items.now) ≡ true }
{
    for k in 0..items.len() {
        if !is_store(&items[k]) {
            return k;
        }
    }
    items.len()
}

/// Whether each store among the items is right in its turn, where those among the first `known`
/// are. A store in front of the first Place or Lift is tried among the live objects, another one
/// by a walk from there.
fn are_right_from(m: &Memory, items: &[Item], known: usize) -> bool
    requires sound { AreSoundItems items.now }
    requires within { known ≤ length items.now }
    requires right { all_right m.now.objects (take known items.now) ≡ true }
    ensures { result ≡ all_right m.now.objects items.now }
{
    let stores = count_front_stores(items);
    for k in known..items.len() {
        if !is_right_item(m, &items[stores.min(k)..k], &items[k]) {
            return false;
        }
    }
    true
}

/// The cell at an address in the view behind these items, where it is live there.
fn cell_behind(m: &Memory, items: &[Item], x: u32) -> Cell
    ensures { result ≡ cell_through items.now x (kept_at m.now x) }
{
    let mut cell = m.cell(x);
    for item in items {
        cell = cell_after(item, x, cell);
    }
    cell
}

/// Whether a thread has a view: each store in its buffer is right in its turn. Those among the
/// first `known` items are not tried again.
///
/// It costs a walk over the buffer, and for each store behind the first `known` items a search
/// among the objects and a walk from the first Place or Lift up to the store.
pub fn is_view_right(m: &Memory, b: &Buffer, known: usize) -> bool
    requires within { known ≤ length b.now.items }
    requires right { all_right m.now.objects (take known b.now.items) ≡ true }
    ensures { result ≡ all_right m.now.objects b.now.items }
{
    are_right_from(m, b.items(), known)
}

/// The value that a load of a thread finds, where each store in its buffer is right in its turn:
/// that of the memory after all items of the buffer. It is refused where the access is not right
/// there.
///
/// It costs a few walks over the buffer and a search among the objects.
pub fn load_in_view(m: &Memory, b: &Buffer, chunk: Chunk, addr: Val) -> Result<Val, WrongAccess>
    requires { all_right m.now.objects b.now.items ≡ true }
    ensures { MatchResult result (λ v. loaded (view (memory_of m.now) b.now.items) chunk addr ≡ Some v) (λ _. loaded (view (memory_of m.now) b.now.items) chunk addr ≡ None) }
{
    let items = b.items();
    if !is_right_behind(m, items, chunk, addr) {
        return Err(WrongAccess);
    }
    let Val::Word(x) = addr else {
        return Err(WrongAccess);
    };
    Ok(match chunk {
        Chunk::I8s | Chunk::I8u => val_of(chunk, &[cell_behind(m, items, x)]),
        Chunk::I16s | Chunk::I16u => val_of(
            chunk,
            &[cell_behind(m, items, x), cell_behind(m, items, x + 1)],
        ),
        Chunk::I32 => val_of(
            chunk,
            &[
                cell_behind(m, items, x),
                cell_behind(m, items, x + 1),
                cell_behind(m, items, x + 2),
                cell_behind(m, items, x + 3),
            ],
        ),
    })
}

/// The value that a load of a thread finds: that of the memory after all items of its buffer. It
/// is refused where a store among the items is not right in its turn, or the access is not right
/// there.
///
/// It costs what `is_view_right` and `load_in_view` cost where nothing is known of the items: at
/// worst the square of the buffer's length.
pub fn view_load(m: &Memory, b: &Buffer, chunk: Chunk, addr: Val) -> Result<Val, WrongAccess>
    ensures { MatchResult result (λ v. loaded (view (memory_of m.now) b.now.items) chunk addr ≡ Some v) (λ _. loaded (view (memory_of m.now) b.now.items) chunk addr ≡ None) }
{
    if !is_view_right(m, b, 0) {
        return Err(WrongAccess);
    }
    load_in_view(m, b, chunk, addr)
}
