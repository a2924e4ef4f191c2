//! Threads of the machine.
ghost use Rattle.std.specs.Prelude.{◌+◌, ◌≤◌, ◌^◌};

use std::alloc::Global;
use x86_memory::buffer::Buffer;
use x86_steps::flags::Flags;
use x86_steps::registers::Registers;

/// The bytes of a stack.
pub const STACK_SIZE: u32 = 0x0010_0000;

/// A thread. Its stack ends at or below the last address.
#[derive(Drop)]
pub struct Thread {
    pub registers: Registers,
    pub flags: Flags,
    /// The address of its next instruction, or of the call of the outside for which it waits.
    pub place: u32,
    /// Where its stack begins.
    pub stack: u32,
    /// A call of the outside has not returned.
    pub waits: bool,
    pub ended: bool,
    /// Its writes that have not reached memory.
    pub buffer: Buffer,
    ghost stack_fits: { stack + 1048576 ≤ 2 ^ 32 },
}

impl Thread {
    ghost use Rattle.std.specs.Prelude.{◌≡◌};
    ghost use Rattle.x86_machine.specs.Kept.{thread_of};
    ghost use Rattle.x86_machine.specs.Target.{is_on_stack};
    ghost use Rattle.x86_machine.specs.X86Tso.{new_thread};

    /// A thread that begins at an address, with its stack pointer near the top of its stack.
    pub fn new(alloc: Global, place: u32, stack: u32) -> Thread
        requires { stack + 1048576 ≤ 2 ^ 32 }
        ensures { thread_of result ≡ new_thread place stack }
    {
        Thread {
            registers: Registers {
                eax: 0,
                ebx: 0,
                ecx: 0,
                edx: 0,
                esi: 0,
                edi: 0,
                ebp: 0,
                esp: stack + (STACK_SIZE - 8),
            },
            flags: Flags::unknown(),
            place,
            stack,
            waits: false,
            ended: false,
            buffer: Buffer::new(alloc),
        }
    }

    /// Whether the stack pointer may stand there.
    pub fn is_on_stack(&self, esp: u32) -> bool
        ensures { result ≡ is_on_stack (thread_of self.now) esp }
    {
        self.stack <= esp && u64::from(esp) <= u64::from(self.stack) + u64::from(STACK_SIZE)
    }
}
