//! The outside of the compiler: a store of named files and a sink of bytes.
//!
//! Both are traits whose calls may fail and which count their faults, so that each answer of the
//! compiler about the outside has a cause that a contract can name. `MemStore` and `MemSink` keep
//! everything in memory and fail at the calls that they are told to; `SteadyStore` and
//! `SteadySink` never fail.
#![tactic(auto)]

mod files;
mod mem_sink;
mod mem_store;
mod outside;
mod steady;
#[cfg(test)]
mod tests;

pub use mem_sink::MemSink;
pub use mem_store::MemStore;
pub use outside::{Failed, Sink, Store};
pub use steady::{SteadySink, SteadyStore};
