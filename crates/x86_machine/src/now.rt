//! What the machine has come to, and what a step of it gives.

use tso_core::Event;

/// Whether the machine runs, or how it has ended.
#[derive(Clone, Copy, Debug, PartialEq, Eq)]
pub enum X86Now {
    Running,
    /// The program ended.
    Exited,
    /// A step had no meaning, as an access that is not right.
    Fault,
    /// A stack pointer left its stack, or no stack was there for a thread.
    NoStack,
    /// No block of the heap was there.
    NoHeap,
}

/// What an enabled step gives: the event that it shows, and whether the machine runs after it.
#[derive(PartialEq, Eq, Debug, Drop)]
pub struct X86Out {
    pub event: Option<Event>,
    pub now: X86Now,
}
