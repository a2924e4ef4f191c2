//! The target's memory: bytes in pages, the buffer of writes of a thread, and loads through it.
//!
//! A memory costs the pages of 16 KiB that are written. A write takes a look-up; a load takes one
//! for each byte, and goes over the thread's own buffer from its newest write on. A buffer takes
//! and gives a write in constant time over all calls.
#![tactic(auto)]

pub mod buffer;
pub mod memory;
#[cfg(test)]
mod tests;
