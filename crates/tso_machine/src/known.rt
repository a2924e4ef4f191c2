//! How much is known of the buffers: the number of first items of each that are right in their
//! turn, so that no load tries an item twice.

ghost use Rattle.std.specs.Prelude.{◌≡◌, ◌<◌, ◌∷◌, true, List, length, map, None, Some, MatchResult, slice_get, slice_set};
ghost use Rattle.tso_core.specs.Shared.{items_or_none};
ghost use Rattle.tso_memory.specs.declared.object.Object.{Object};
ghost use Rattle.tso_memory.specs.declared.buffer.Item.{Item as Change};
ghost use Rattle.tso_memory.specs.Buffer.{loaded, view};
ghost use Rattle.tso_memory.specs.Kept.{memory_of};
ghost use Rattle.tso_memory.specs.Through.{objects_at};
ghost use Rattle.tso_machine.specs.Known.{are_known};

use tso_memory::{Buffer, Item, Memory, WrongAccess, is_view_right, load_in_view};
use tso_words::{Chunk, Val};

/// The value that a load of the thread at a place finds. It tries the items of the thread's buffer
/// that are not known to be right, and they are known from then on, unless one is wrong.
pub fn load_at(
    memory: &Memory,
    buffers: &[Buffer],
    known: &mut Vec<usize>,
    i: usize,
    chunk: Chunk,
    addr: Val,
) -> Result<Val, WrongAccess>
    requires buffer { i < length buffers.now }
    requires count { i < length known.old.items }
    requires known { are_known memory.now.objects (map (λ b. b.items) buffers.now) known.old.items ≡ true }
    ensures known { are_known memory.now.objects (map (λ b. b.items) buffers.now) known.new.items ≡ true }
    ensures as_many { length known.new.items ≡ length known.old.items }
    ensures value { MatchResult result (λ v. loaded (view (memory_of memory.now) (items_or_none (slice_get (map (λ b. b.items) buffers.now) i))) chunk addr ≡ Some v) (λ _. loaded (view (memory_of memory.now) (items_or_none (slice_get (map (λ b. b.items) buffers.now) i))) chunk addr ≡ None) }
{
    let buffer = &buffers[i];
    if !is_view_right(memory, buffer, known[i]) {
        return Err(WrongAccess);
    }
    known[i] = buffer.items().len();
    load_in_view(memory, buffer, chunk, addr)
}

/// Nothing is known of any buffer: an object begins or ends.
pub fn forget(known: &mut Vec<usize>)
    ensures none { (os : List Object) (bs : List (List Change)) → length known.old.items ≡ length bs → are_known os bs known.new.items ≡ true }
    ensures as_many { length known.new.items ≡ length known.old.items }
{
    known.fill(0);
}

/// The oldest item of the buffer at a place reaches memory. What is known of the items behind it
/// stays; what is known of other buffers stays where the item is a store.
pub fn count_drained(known: &mut Vec<usize>, i: usize, item: &Item)
    requires { i < length known.old.items }
    ensures known { (os : List Object) (bs : List (List Change)) (rest : List Change) → length known.old.items ≡ length bs → slice_get bs i ≡ Some (item.now ∷ rest) → are_known os bs known.old.items ≡ true → are_known (objects_at item.now os) (slice_set bs i rest) known.new.items ≡ true }
    ensures as_many { length known.new.items ≡ length known.old.items }
{
    let own = known[i].saturating_sub(1);
    match *item {
        Item::Put { .. } => known[i] = own,
        Item::Place { .. } | Item::Lift { .. } => {
            forget(known);
            known[i] = own;
        }
    }
}
