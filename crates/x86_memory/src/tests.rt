//! Bytes, and what a thread sees through its buffer.

use crate::buffer::{Buffer, Write};
use crate::memory::Memory;
use std::test::Fail;
use x86_steps::access::Size;

const WORD: u32 = 0x2000_3ffc;

#[test]
fn bytes_and_writes(rt: HostRuntime) -> Result<(), Fail> {
    let mut memory = Memory::new(rt.alloc());
    memory.reserve()?;
    memory.put(Write {
        address: WORD,
        size: Size::Word,
        value: 0x4433_2211,
    })?;
    memory.put(Write {
        address: WORD + 2,
        size: Size::Half,
        value: 0xaabb_6655,
    })?;
    memory.put(Write {
        address: 0xefff_ffff,
        size: Size::Byte,
        value: 0x177,
    })?;
    let rows = [
        (Size::Word, WORD, 0x6655_2211),
        (Size::Half, WORD, 0x2211),
        (Size::Byte, WORD + 3, 0x66),
        (Size::Byte, 0xefff_ffff, 0x77),
        (Size::Word, WORD + 4, 0),
        (Size::Word, 0x9000_0000, 0),
    ];
    for (size, address, word) in rows {
        assert!(rt; loaded(&memory, &[], size, address) == word);
    }
    Ok(())
}

#[test]
fn buffers(rt: HostRuntime) -> Result<(), Fail> {
    let memory = Memory::new(rt.alloc());
    let mut buffer = Buffer::new(rt.alloc());
    buffer.reserve()?;
    buffer.push(Write {
        address: WORD,
        size: Size::Word,
        value: 0x4433_2211,
    })?;
    buffer.push(Write {
        address: WORD,
        size: Size::Byte,
        value: 0x99,
    })?;
    buffer.push(Write {
        address: WORD,
        size: Size::Byte,
        value: 0x88,
    })?;
    assert!(rt; loaded(&memory, buffer.writes(), Size::Word, WORD) == 0x4433_2288);
    let oldest = buffer.pop();
    assert!(rt; oldest.map(|write| write.value) == Some(0x4433_2211));
    assert!(rt; loaded(&memory, buffer.writes(), Size::Word, WORD) == 0x88);
    assert!(rt; buffer.pop().is_some());
    assert!(rt; buffer.pop().is_some());
    assert!(rt; buffer.pop().is_none());
    Ok(())
}

fn loaded(memory: &Memory, writes: &[Write], size: Size, address: u32) -> u32 {
    if address % 4 == 0 {
        memory.load(writes, size, address)
    } else if size == Size::Byte {
        memory.load(writes, Size::Byte, address)
    } else {
        0
    }
}
