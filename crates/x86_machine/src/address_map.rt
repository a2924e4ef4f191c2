//! The address map: where an access is right, and where a stack may begin.
ghost use Rattle.std.specs.Prelude.{◌≡◌, ◌+◌, ◌≤◌, not};
ghost use Rattle.std.specs.Bool.{OnTrue};
ghost use Rattle.std.specs.List.{list_any, list_all};
ghost use Rattle.x86_lang.specs.Assembly.{data_start, heap_start};
ghost use Rattle.x86_memory.specs.Bytes.{IsAligned};
ghost use Rattle.x86_machine.specs.Kept.{threads_of};
ghost use Rattle.x86_machine.specs.Target.{lies_in, meets, is_right_among, is_stack_allowed, stack_size};

use crate::thread::{STACK_SIZE, Thread};
use x86_steps::access::Size;

const DATA_START: u32 = 0x2000_0000;

/// Where the heap begins.
pub const HEAP_START: u32 = 0x3000_0000;

/// Where the heap ends and the stacks begin.
pub const STACKS_START: u32 = 0x9000_0000;

/// Where the stacks end.
pub const STACKS_END: u32 = 0xf000_0000;

/// Whether a range lies in another. Its address may lie past the last one.
pub fn lies_in(base: u32, bytes: u32, x: u64, n: u32) -> bool
    ensures { result ≡ lies_in base bytes x n }
{
    let end = u64::from(base) + u64::from(bytes);
    u64::from(base) <= x && x <= end && u64::from(n) <= end - x
}

/// Whether two ranges share an address.
pub fn ranges_meet(base1: u32, size1: u32, base2: u32, size2: u32) -> bool
    ensures { result ≡ meets base1 size1 base2 size2 }
{
    u64::from(base1) < u64::from(base2) + u64::from(size2)
        && u64::from(base2) < u64::from(base1) + u64::from(size1)
}

// Whether a range lies in one of the stacks.
fn lies_in_stack(threads: &[Thread], x: u64, n: u32) -> bool
    ensures { result ≡ list_any (λ t. lies_in t.stack stack_size x n) (threads_of threads.now) }
{
    is_some_stack_around(threads, x, n)
}

fn is_some_stack_around(threads: &[Thread], x: u64, n: u32) -> bool
    ensures { result ≡ list_any (λ t. lies_in t.stack stack_size x n) threads.now }
{
    threads
        .iter()
        .any(|thread| lies_in(thread.stack, STACK_SIZE, x, n))
}

// Whether a new stack would meet none of the stacks.
fn is_apart(threads: &[Thread], base: u32) -> bool
    ensures { result ≡ list_all (λ t. not (meets t.stack stack_size base stack_size)) (threads_of threads.now) }
{
    is_each_stack_apart(threads, base)
}

fn is_each_stack_apart(threads: &[Thread], base: u32) -> bool
    ensures { result ≡ list_all (λ t. not (meets t.stack stack_size base stack_size)) threads.now }
{
    threads.iter().all(|thread| !ranges_meet(thread.stack, STACK_SIZE, base, STACK_SIZE))
}

/// Whether an access is right, where the data has so many bytes. None is past the last address.
pub fn is_right(bytes: u32, threads: &[Thread], size: Size, address: u64) -> bool
    requires { data_start + bytes ≤ heap_start }
    ensures value { result ≡ is_right_among bytes (threads_of threads.now) size address }
    ensures aligned { OnTrue result (IsAligned address size) }
{
    let n = size.bytes();
    address % u64::from(n) == 0
        && (lies_in(DATA_START, bytes, address, n)
            || lies_in(HEAP_START, STACKS_START - HEAP_START, address, n)
            || lies_in_stack(threads, address, n))
}

/// Whether a new stack may begin there.
pub fn is_stack_allowed(threads: &[Thread], base: u32) -> bool
    ensures { result ≡ is_stack_allowed (threads_of threads.now) base }
{
    base % 16 == 0
        && lies_in(
            STACKS_START,
            STACKS_END - STACKS_START,
            u64::from(base),
            STACK_SIZE,
        )
        && is_apart(threads, base)
}
