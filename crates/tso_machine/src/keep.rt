//! What a machine keeps of its run.

ghost use Rattle.std.specs.Prelude.{◌≡◌, map, true, vec_len};
ghost use Rattle.tso_machine.specs.Known.{are_known};

use tso_core::offer::Now;
use tso_memory::{Buffer, Memory};

/// Memory, and the threads in order of creation, each with its buffer and whether it has ended.
#[derive(Drop)]
pub struct Core<T> {
    pub memory: Memory,
    pub buffers: Vec<Buffer>,
    /// How many first items of each buffer are known to be right in their turn.
    pub known: Vec<usize>,
    pub ended: Vec<bool>,
    pub threads: Vec<T>,
    pub now: Now,
    ghost buffer_each: { vec_len buffers ≡ vec_len threads },
    ghost count_each: { vec_len known ≡ vec_len threads },
    ghost flag_each: { vec_len ended ≡ vec_len threads },
    ghost known_right: { are_known memory.objects (map (λ b. b.items) buffers.items) known.items ≡ true },
}
