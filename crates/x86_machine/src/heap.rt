//! The live blocks of the heap.
ghost use Rattle.std.specs.Prelude.{◌≡◌, ◌<◌, OnOk, OnErr, IsOk, length, ◌≤◌, not, is_some, vec_len, vec_capacity};
ghost use Rattle.std.specs.List.{list_all};
ghost use Rattle.x86_machine.specs.Target.{block_at, block_size, is_block_allowed, with_block, without_block, meets};
ghost use Rattle.x86_machine.specs.Tables.{count_below};

use crate::address_map::{HEAP_START, STACKS_START, lies_in, ranges_meet};
use tso_words::NoMemory;

/// The bytes of a block that was asked for.
pub fn block_size(asked: u32) -> u32
    ensures { result ≡ block_size asked }
{
    asked.max(1)
}

/// The size of the live block with this base.
pub fn block_at(blocks: &[(u32, u32)], base: u32) -> Option<u32>
    ensures { result ≡ block_at blocks.now base }
{
    let mut rest = blocks;
    while let [(first, size), after @ ..] = rest {
        if *first == base {
            return Some(*size);
        }
        rest = after;
    }
    None
}

/// Whether a live block has this base.
pub fn is_block(blocks: &[(u32, u32)], base: u32) -> bool
    ensures { result ≡ is_some (block_at blocks.now base) }
{
    block_at(blocks, base).is_some()
}

/// Whether a block may begin there.
pub fn is_block_allowed(blocks: &[(u32, u32)], base: u32, bytes: u32) -> bool
    ensures { result ≡ is_block_allowed blocks.now base bytes }
{
    base % 16 == 0
        && lies_in(
            HEAP_START,
            STACKS_START - HEAP_START,
            u64::from(base),
            bytes,
        )
        && is_apart(blocks, base, bytes)
}

// Whether a block would meet none of the blocks.
fn is_apart(blocks: &[(u32, u32)], base: u32, bytes: u32) -> bool
    ensures { result ≡ list_all (λ b. not (meets b.0 b.1 base bytes)) blocks.now }
{
    blocks
        .iter()
        .all(|(first, size)| !ranges_meet(*first, *size, base, bytes))
}

// How many of the first blocks begin below a base.
fn count_below(blocks: &[(u32, u32)], base: u32) -> usize
    ensures value { result ≡ count_below base blocks.now }
    ensures within { result ≤ length blocks.now }
{
    let mut count = 0;
    let mut rest = blocks;
    while let [(first, _), after @ ..] = rest {
        if *first >= base {
            return count;
        }
        count += 1;
        rest = after;
    }
    count
}

/// Adds a block at its place by base.
pub fn add_block(blocks: &mut Vec<(u32, u32)>, base: u32, bytes: u32) -> Result<(), NoMemory>
    ensures ok { OnOk result (blocks.new.items ≡ with_block base bytes blocks.old.items) }
    ensures err { OnErr result (blocks.new.items ≡ blocks.old.items) }
    ensures room { vec_len blocks.old < vec_capacity blocks.old → IsOk result }
{
    let place = count_below(blocks, base);
    match blocks.insert(place, (base, bytes)) {
        Ok(()) => Ok(()),
        Err(_) => Err(NoMemory),
    }
}

/// Takes off the block with a base.
pub fn remove_block(blocks: &mut Vec<(u32, u32)>, base: u32)
    ensures { blocks.new.items ≡ without_block base blocks.old.items }
{
    blocks.retain(|(first, _)| *first != base);
}
