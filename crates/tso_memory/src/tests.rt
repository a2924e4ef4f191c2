//! Worked examples, with values by hand.
ghost use Rattle.std.specs.Prelude.{◌≡◌, ◌==◌, IsTrue, true};
ghost use Rattle.std.specs.List.{list_any};
ghost use Rattle.tso_memory.specs.Buffer.{IsSoundItem};

use crate::*;
use std::alloc::Global;
use std::test::Fail;
use tso_words::{Chunk, Val};

/// Whether the range of a Place is sound.
fn is_sound(item: &Item) -> bool
    ensures { IsTrue result → IsSoundItem item.now }
{
    match *item {
        Item::Place { base, size } => size >= 1 && u64::from(base) + u64::from(size) <= 1 << 32,
        Item::Put { .. } | Item::Lift { .. } => true,
    }
}

fn memory_after(alloc: Global, items: &[Item]) -> Result<Memory, Fail> {
    let mut m = Memory::new(alloc);
    m.reserve()?;
    for item in items {
        if is_sound(item) {
            m.apply(item)?;
        }
    }
    Ok(m)
}

fn buffer_of(alloc: Global, items: &[Item]) -> Result<Buffer, Fail> {
    let mut b = Buffer::new(alloc);
    b.reserve()?;
    for item in items {
        if is_sound(item) {
            b.push(*item)?;
        }
    }
    Ok(b)
}

fn put(chunk: Chunk, addr: u32, val: u32) -> Item {
    Item::Put {
        chunk,
        addr: Val::Word(addr),
        val: Val::Word(val),
    }
}

fn place(base: u32, size: u32) -> Item {
    Item::Place { base, size }
}

fn lift(base: u32, size: u32) -> Item {
    Item::Lift { base, size }
}

/// Whether a live object has this base.
fn is_base(m: &Memory, base: u32) -> bool
    ensures { IsTrue result → list_any (λ o. o.base == base) m.now.objects ≡ true }
{
    m.objects().iter().any(|o| o.base == base)
}

/// Whether the buffer gives these items first, in this order.
fn pops_are(b: &mut Buffer, items: &[Item]) -> bool {
    for item in items {
        if b.pop() != Some(*item) {
            return false;
        }
    }
    true
}

/// Whether each load answers as its row says.
fn loads_are(m: &Memory, rows: &[(Chunk, u32, Option<Val>)]) -> bool {
    for &(chunk, addr, wanted) in rows {
        if m.load(chunk, Val::Word(addr)).ok() != wanted {
            return false;
        }
    }
    true
}

/// Whether a load of a word answers as each row says, through a buffer with its items.
fn views_are(
    alloc: Global,
    m: &Memory,
    addr: u32,
    rows: &[([Item; 3], Option<Val>)],
) -> Result<bool, Fail> {
    for (items, wanted) in rows {
        let b = buffer_of(alloc, items)?;
        if view_load(m, &b, Chunk::I32, Val::Word(addr)).ok() != *wanted {
            return Ok(false);
        }
    }
    Ok(true)
}

/// The word at an address behind the items of a buffer, which are right, and one item more; `None`
/// where that one is not right, or the load is not.
fn word_behind(m: &Memory, b: &mut Buffer, item: Item, addr: u32) -> Result<Option<Val>, Fail> {
    let known = b.items().len();
    if !is_sound(&item) || !is_view_right(m, b, 0) {
        return Ok(None);
    }
    b.push(item)?;
    if !is_view_right(m, b, known) {
        return Ok(None);
    }
    Ok(load_in_view(m, b, Chunk::I32, Val::Word(addr)).ok())
}

/// Whether `place_ok` answers as each row says.
fn places_are(m: &Memory, buffers: &[Buffer], rows: &[(usize, u32, u32, u32, bool)]) -> bool {
    for &(thread, base, size, align, wanted) in rows {
        if thread >= buffers.len() || place_ok(m, buffers, thread, base, size, align) != wanted {
            return false;
        }
    }
    true
}

fn add_zeros(m: &mut Memory, base: u32, size: u32) -> Result<(), Fail> {
    if m.is_apart(base, size) && 0 < size && size < 1 << 28 && base < 1 << 30 {
        let kind = Kind::Static;
        m.add_zeroed(Object { base, size, kind })?;
    }
    Ok(())
}

static WORD_LOADS: [(Chunk, u32, Option<Val>); 10] = [
    (Chunk::I8u, 0x9000_0004, Some(Val::Word(0x84))),
    (Chunk::I8s, 0x9000_0004, Some(Val::Word(0xFFFF_FF84))),
    (Chunk::I8u, 0x9000_0005, Some(Val::Word(0x03))),
    (Chunk::I16s, 0x9000_0006, Some(Val::Word(0xFFFF_8182))),
    (Chunk::I16u, 0x9000_0006, Some(Val::Word(0x8182))),
    (Chunk::I32, 0x9000_0004, Some(Val::Word(0x8182_0384))),
    (Chunk::I32, 0x9000_0000, Some(Val::Undef)),
    (Chunk::I16u, 0x9000_0005, None),
    (Chunk::I32, 0x9000_0008, None),
    (Chunk::I8u, 0x8FFF_FFFF, None),
];

static GLOBAL_LOADS: [(Chunk, u32, Option<Val>); 6] = [
    (Chunk::I32, 0x20AB_CDEC, Some(Val::Word(0))),
    (Chunk::I32, 0x20FF_FFFC, Some(Val::Word(0))),
    (Chunk::I32, 0x2100_0000, Some(Val::Word(0))),
    (Chunk::I32, 0x2100_0004, None),
    (Chunk::I8u, 0x4000_000F, Some(Val::Undef)),
    (Chunk::I8u, 0x4000_0010, None),
];

static LOADS_WITHOUT_THE_BLOCK: [(Chunk, u32, Option<Val>); 2] = [
    (Chunk::I8u, 0x4000_000F, None),
    (Chunk::I32, 0x2100_0000, Some(Val::Word(0))),
];

static PLACES: [(usize, u32, u32, u32, bool); 11] = [
    (0, 0x9000_0000, 4, 4, true),
    (1, 0x9000_0000, 4, 4, false),
    (0, 0x9000_0010, 4, 4, false),
    (0, 0x9000_0018, 8, 8, true),
    (0, 0x9000_0020, 4, 4, false),
    (1, 0x9000_0020, 4, 4, true),
    (0, 0x9000_0002, 4, 4, false),
    (0, 0x9000_0000, 0, 4, false),
    (0, 0x8FFF_FFFC, 4, 4, false),
    (0, 0xEFFF_FFFC, 4, 4, true),
    (0, 0xEFFF_FFFC, 8, 4, false),
];

#[test]
fn bytes_in_a_word(rt: HostRuntime) -> Result<(), Fail> {
    let items = [
        place(0x9000_0000, 8),
        put(Chunk::I32, 0x9000_0004, 0x8182_0384),
    ];
    let m = memory_after(rt.alloc(), &items)?;
    assert!(rt; loads_are(&m, &WORD_LOADS));
    Ok(())
}

/// A global of 16 MiB and one of four bytes behind it, and a block of the heap.
#[test]
fn globals_and_a_block(rt: HostRuntime) -> Result<(), Fail> {
    let mut m = Memory::new(rt.alloc());
    add_zeros(&mut m, 0x2000_0000, 0x0100_0000)?;
    add_zeros(&mut m, 0x2100_0000, 4)?;
    if m.is_apart(0x4000_0000, 16) {
        let kind = Kind::Heap;
        m.add(Object {
            base: 0x4000_0000,
            size: 16,
            kind,
        })?;
    }
    assert!(rt; loads_are(&m, &GLOBAL_LOADS));
    if is_base(&m, 0x4000_0000) {
        m.remove(0x4000_0000);
    }
    assert!(rt; loads_are(&m, &LOADS_WITHOUT_THE_BLOCK));
    Ok(())
}

/// The list of the items is cut at the third pop.
#[test]
fn the_oldest_item_comes_first(rt: HostRuntime) -> Result<(), Fail> {
    let x = 0x9000_0000;
    let items = [
        place(x, 4),
        put(Chunk::I32, x, 1),
        put(Chunk::I32, x, 2),
        lift(x, 4),
    ];
    let mut b = buffer_of(rt.alloc(), &items)?;
    assert!(rt; pops_are(&mut b, &items[..3]));
    b.push(Item::Lift { base: 8, size: 1 })?;
    assert!(rt; pops_are(&mut b, &[lift(x, 4), lift(8, 1)]));
    assert!(rt; b.pop().is_none());
    Ok(())
}

#[test]
fn own_items_are_seen(rt: HostRuntime) -> Result<(), Fail> {
    let x = 0x9000_0000;
    let items = [place(x, 8), put(Chunk::I32, x, 1)];
    let m = memory_after(rt.alloc(), &items)?;
    let two = put(Chunk::I32, x, 2);
    let three = put(Chunk::I32, x, 3);
    let byte = put(Chunk::I8u, x + 1, 4);
    let rows = [
        ([two, three, byte], Some(Val::Word(0x0403))),
        ([byte, three, two], Some(Val::Word(2))),
        ([two, three, lift(x, 8)], None),
        ([two, three, lift(x, 4)], Some(Val::Word(3))),
        ([lift(x, 8), two, place(x, 8)], None),
        ([lift(x, 8), place(x, 8), byte], Some(Val::Undef)),
        ([lift(x, 8), place(x, 4), three], Some(Val::Word(3))),
    ];
    assert!(rt; views_are(rt.alloc(), &m, x, &rows)?);
    Ok(())
}

/// Only the last item is tried behind the others.
#[test]
fn items_known_to_be_right(rt: HostRuntime) -> Result<(), Fail> {
    let x = 0x9000_0000;
    let m = memory_after(rt.alloc(), &[place(x, 8)])?;
    let one = put(Chunk::I32, x, 1);
    let rows = [
        ([one, one], put(Chunk::I32, x, 2), Some(Val::Word(2))),
        ([one, one], put(Chunk::I32, x + 8, 2), None),
        ([one, lift(x, 8)], put(Chunk::I32, x + 4, 2), None),
        (
            [one, place(x, 4)],
            put(Chunk::I32, x, 3),
            Some(Val::Word(3)),
        ),
        ([one, place(x, 4)], put(Chunk::I32, x + 4, 3), None),
    ];
    for (items, item, wanted) in rows {
        let mut b = buffer_of(rt.alloc(), &items)?;
        assert!(rt; word_behind(&m, &mut b, item, x)? == wanted);
    }
    Ok(())
}

#[test]
fn places_and_lifts(rt: HostRuntime) -> Result<(), Fail> {
    let x = 0x9000_0000;
    let m = memory_after(rt.alloc(), &[place(x, 8)])?;
    let own = buffer_of(rt.alloc(), &[lift(x, 8), place(0x9000_0010, 8)])?;
    let other = [place(0x9000_0020, 8), lift(0x9000_0020, 8)];
    let buffers = [own, buffer_of(rt.alloc(), &other)?];
    assert!(rt; places_are(&m, &buffers, &PLACES));
    Ok(())
}
