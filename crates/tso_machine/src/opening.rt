//! The opening of a machine: its globals in memory, and main alone with an empty buffer.

ghost use Rattle.std.specs.Prelude.{◌≡◌, ◌+◌, ◌^◌, ◌≤◌, length, true, [], ◌∷◌, IfOk, OnOk};
ghost use Rattle.std.specs.List.{list_any};
ghost use Rattle.tso_core.specs.Language.{Language};
ghost use Rattle.tso_core.specs.Machine.{open_machine};
ghost use Rattle.tso_core.specs.Placing.{base_of};
ghost use Rattle.tso_core.specs.Runs.{IsProper, with_global, opening_memory};
ghost use Rattle.tso_core.specs.Stated.{globals_of, object_of};
ghost use Rattle.tso_memory.specs.Kept.{memory_of};
ghost use Rattle.tso_memory.specs.Memory.{IsSound, IsApart, holds};
ghost use Rattle.tso_machine.specs.Bytes.{with_bytes};
ghost use Rattle.tso_machine.specs.State.{core_state};

use crate::keep::Core;
use std::alloc::Global as Heap;
use tso_core::language::ThreadLang;
use tso_core::offer::Now;
use tso_core::placement::{Global, Globals, Placement};
use tso_memory::{Buffer, Item, Kind, Memory, Object};
use tso_words::{Chunk, Name, NoMemory, Val};

/// The address of a name; 0 where it has none.
fn base_of(at: &Placement, name: &Name) -> u32
    ensures { result ≡ base_of at.now name.now }
{
    at.find(name).unwrap_or(0)
}

/// Writes a byte of a live object.
fn write_byte(memory: &mut Memory, x: u32, byte: u8) -> Result<(), NoMemory>
    requires { list_any (λ o. holds o x 1) memory.old.objects ≡ true }
    ensures { OnOk result (memory_of memory.new ≡ with_bytes x (byte ∷ []) (memory_of memory.old)) }
{
    let item = Item::Put {
        chunk: Chunk::I8u,
        addr: Val::Word(x),
        val: Val::Word(u32::from(byte)),
    };
    match memory.apply(&item) {
        Ok(()) => Ok(()),
        Err(_) => Err(NoMemory),
    }
}

/// Writes bytes of a live object, from an address on.
fn write_bytes(memory: &mut Memory, base: u32, bytes: &[u8]) -> Result<(), NoMemory>
    requires held { list_any (λ o. holds o base (length bytes.now)) memory.old.objects ≡ true }
    requires fits { base + length bytes.now ≤ 2 ^ 32 }
    ensures { OnOk result (memory_of memory.new ≡ with_bytes base bytes.now (memory_of memory.old)) }
{
    for k in 0..bytes.len() {
        let x = base + k as u32;
        let byte = bytes[k];
        write_byte(memory, x, byte)?;
    }
    Ok(())
}

/// Begins the object of a global: its first bytes, and zeros behind them. Nothing is written for
/// the zeros, however many there are.
fn add_global(memory: &mut Memory, at: &Placement, global: &Global) -> Result<(), NoMemory>
    requires sound { IsSound (base_of at.now global.now.name) global.now.size }
    requires apart { IsApart (base_of at.now global.now.name) global.now.size memory.old.objects }
    ensures { OnOk result (memory_of memory.new ≡ with_global at.now (memory_of memory.old) (object_of global.now)) }
{
    let base = base_of(at, &global.name);
    memory.add_zeroed(Object {
        base,
        size: global.size,
        kind: Kind::Static,
    })?;
    write_bytes(memory, base, &global.start)
}

/// The memory in which a program begins.
fn opening_memory(alloc: Heap, globals: &Globals, at: &Placement) -> Result<Memory, NoMemory>
    requires { IsProper (globals_of globals.now) at.now }
    ensures { IfOk result (λ m. memory_of m ≡ opening_memory (globals_of globals.now) at.now) }
{
    let mut memory = Memory::new(alloc);
    for global in &globals.objects {
        add_global(&mut memory, at, global)?;
    }
    Ok(memory)
}

/// A list with one element.
fn list_of_one<T: Drop>(alloc: Heap, x: T) -> Result<Vec<T>, NoMemory>
    ensures { IfOk result (λ list. list.items ≡ x ∷ []) }
{
    let mut list = Vec::new(alloc);
    match list.push(x) {
        Ok(()) => Ok(list),
        Err(_) => Err(NoMemory),
    }
}

/// What a machine keeps as a program begins: main alone, with an empty buffer.
pub fn opened<L: ThreadLang>(
    alloc: Heap,
    p: &L::Program,
    at: &Placement,
) -> Result<Core<L::Thread>, NoMemory>
    requires { IsProper (L.language p.now).globals at.now }
    ensures { IfOk result (λ core. core_state L.state_of at.now core ≡ (open_machine (L.language p.now)).opening at.now) }
{
    let memory = opening_memory(alloc, L::globals(p), at)?;
    let buffers = list_of_one(alloc, Buffer::new(alloc))?;
    let known = list_of_one(alloc, 0)?;
    let ended = list_of_one(alloc, false)?;
    let threads = list_of_one(alloc, L::first(alloc, p, at)?)?;
    Ok(Core {
        memory,
        buffers,
        known,
        ended,
        threads,
        now: Now::Running,
    })
}
