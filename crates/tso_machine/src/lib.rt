//! The machine over a thread language: it runs the threads of a program one step at a time over
//! shared memory and a store buffer for each thread.
//!
//! What a step costs, beside the calls of the language: a silent step, a store, a Lift, a fence, a
//! call, a return, an end and a start take constant time over all steps; an atomic step and the
//! drain of a store a binary search among the objects. A load takes that search and a few walks
//! over the thread's own buffer; for each item there that no load has tried since the objects
//! changed last, that search and a walk more. `malloc`, `free` and the drain of a Place or a Lift
//! walk over the objects and the threads, and a Place walks over the objects and all buffers. A
//! default choice costs a few such walks more, and none over the addresses.
#![tactic(auto)]

mod atomics;
mod calls;
mod choices;
mod effects;
mod heap;
mod keep;
mod known;
pub mod machine;
mod opening;
mod parts;
mod resuming;
mod skips;
mod steps;
mod threads;

pub use machine::Machine;
