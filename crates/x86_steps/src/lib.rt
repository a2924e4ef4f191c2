//! What each instruction of the table does, one step of a thread at a time: registers, flags, the
//! next place and the access to memory.
//!
//! The definition is that of Intel's manual of the IA-32 architecture, but that a flag of which the
//! manual, or the table, says nothing is unknown, and that a condition on an unknown flag is a
//! fault. An instruction stands at an address and takes one address. Memory, buffers and stops are
//! the machine's.
#![tactic(auto)]

pub mod access;
pub mod arithmetic;
pub mod execution;
pub mod flags;
pub mod registers;
#[cfg(test)]
mod tests;
