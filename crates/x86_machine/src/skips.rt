//! Free addresses, found by leaps: from an address to the first multiple of 16 behind what stands
//! in the way, so that a search costs a few walks over the blocks or the stacks.
ghost use Rattle.std.specs.Prelude.{◌≡◌, ◌+◌, ◌^◌, ◌%◌, ◌<◌, ◌≤◌, not};
ghost use Rattle.std.specs.List.{list_all};
ghost use Rattle.x86_lang.specs.Assembly.{heap_start};
ghost use Rattle.x86_machine.specs.Kept.{threads_of};
ghost use Rattle.x86_machine.specs.Target.{meets, is_block_allowed, is_stack_allowed, stacks_start, stack_size};
ghost use Rattle.x86_machine.specs.Choices.{IsLeastOrZero};
ghost use Rattle.tso_core.specs.Least.{Skips};

use crate::address_map::{HEAP_START, STACKS_END, STACKS_START};
use crate::thread::{STACK_SIZE, Thread};

// The first multiple of 16 from an address on.
fn round_up(x: u64) -> u64
    requires { x ≤ 2 ^ 33 }
    ensures multiple { result % 16 ≡ 0 }
    ensures high { x ≤ result }
    ensures near { result < x + 16 }
{
    (x + 15) / 16 * 16
}

// Leaps behind a range, where it meets the `size` bytes from `x` on.
fn behind_range(base: u32, length: u32, x: u64, size: u32) -> u64
    requires { x ≤ 2 ^ 33 }
    ensures skips { Skips (λ y. not (meets base length y size)) x result }
    ensures low { result ≤ 2 ^ 33 }
{
    let end = u64::from(base) + u64::from(length);
    if u64::from(base) < x + u64::from(size) && x < end {
        round_up(end)
    } else {
        x
    }
}

// Leaps behind each block that stands in the way in its turn.
fn skip_blocks(blocks: &[(u32, u32)], x: u64, size: u32) -> u64
    requires { x ≤ 2 ^ 33 }
    ensures skips { Skips (λ y. list_all (λ b. not (meets b.0 b.1 y size)) blocks.now) x result }
    ensures low { result ≤ 2 ^ 33 }
{
    let mut at = x;
    for k in 0..blocks.len() {
        let (base, length) = blocks[k];
        at = behind_range(base, length, at, size);
    }
    at
}

// Leaps behind each stack that stands in the way in its turn.
fn skip_stacks(threads: &[Thread], x: u64) -> u64
    requires { x ≤ 2 ^ 33 }
    ensures skips { Skips (λ y. list_all (λ t. not (meets t.stack stack_size y stack_size)) (threads_of threads.now)) x result }
    ensures low { result ≤ 2 ^ 33 }
{
    let mut at = x;
    for k in 0..threads.len() {
        at = behind_range(threads[k].stack, STACK_SIZE, at, STACK_SIZE);
    }
    at
}

/// The least base of a block that is allowed, and 0 where there is none.
pub fn least_block(blocks: &[(u32, u32)], size: u32) -> u32
    ensures { IsLeastOrZero heap_start (λ x. is_block_allowed blocks.now x size) result }
{
    let mut x = u64::from(HEAP_START);
    while x + u64::from(size) <= u64::from(STACKS_START) {
        let next = skip_blocks(blocks, x, size);
        if next == x {
            return x as u32;
        }
        x = next;
    }
    0
}

/// The least base of a stack that is allowed, and 0 where there is none.
pub fn least_stack(threads: &[Thread]) -> u32
    ensures { IsLeastOrZero stacks_start (is_stack_allowed (threads_of threads.now)) result }
{
    let mut x = u64::from(STACKS_START);
    while x + u64::from(STACK_SIZE) <= u64::from(STACKS_END) {
        let next = skip_stacks(threads, x);
        if next == x {
            return x as u32;
        }
        x = next;
    }
    0
}
