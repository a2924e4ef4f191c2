//! The address map, and blocks of the heap.

use crate::address_map::{STACKS_START, is_right, is_stack_allowed};
use crate::heap::{add_block, block_at, block_size, is_block_allowed, remove_block};
use crate::thread::Thread;
use std::test::Fail;
use x86_steps::access::Size;

#[test]
fn accesses(rt: HostRuntime) {
    let main = Thread::new(rt.alloc(), 0x0800_0000, STACKS_START);
    let rows = [
        (Size::Word, 0x2000_0004, true),
        (Size::Word, 0x2000_0008, false),
        (Size::Half, 0x2000_0008, true),
        (Size::Half, 0x2000_0007, false),
        (Size::Word, 0x1fff_fffc, false),
        (Size::Word, 0x3000_0000, true),
        (Size::Word, 0x8fff_fffc, true),
        (Size::Byte, 0x900f_ffff, true),
        (Size::Byte, 0x9010_0000, false),
    ];
    for (size, address, right) in rows {
        assert!(rt; is_right(10, &[], size, address) == (right && address < 0x9000_0000));
    }
    assert!(rt; main.is_on_stack(0x9010_0000));
    assert!(rt; !main.is_on_stack(0x9010_0001));
    assert!(rt; !main.is_on_stack(0x8fff_ffff));
    assert!(rt; is_stack_allowed(&[], 0xeff0_0000));
    assert!(rt; !is_stack_allowed(&[], 0xeff0_0010));
    assert!(rt; !is_stack_allowed(&[], 0x9000_0008));
}

#[test]
fn blocks(rt: HostRuntime) -> Result<(), Fail> {
    let mut blocks = Vec::new(rt.alloc());
    add_block(&mut blocks, 0x3000_0010, 8)?;
    add_block(&mut blocks, 0x3000_0000, block_size(0))?;
    assert!(rt; block_at(&blocks, 0x3000_0000) == Some(1));
    assert!(rt; block_at(&blocks, 0x3000_0010) == Some(8));
    let rows = [
        (0x3000_0000, 1, false),
        (0x3000_0020, 8, true),
        (0x3000_0018, 8, false),
        (0x2fff_fff0, 8, false),
        (0x8fff_fff0, 16, true),
        (0x8fff_fff0, 17, false),
    ];
    for (base, bytes, allowed) in rows {
        assert!(rt; is_block_allowed(&blocks, base, bytes) == allowed);
    }
    remove_block(&mut blocks, 0x3000_0000);
    assert!(rt; block_at(&blocks, 0x3000_0000).is_none());
    assert!(rt; is_block_allowed(&blocks, 0x3000_0000, 16));
    Ok(())
}
