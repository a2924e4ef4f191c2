//! The x86-TSO machine of Owens, Sarkar and Sewell (2009) over an assembly: registers, flags, a
//! buffer of writes for each thread, one memory of bytes, the heap, and the services.
//!
//! `specs/X86Tso.antt` has the machine as the laws of refinement see it.
#![tactic(auto)]

pub mod address_map;
pub mod choices;
mod data;
pub mod examples;
pub mod heap;
pub mod machine;
pub mod now;
mod opening;
pub mod program;
mod run;
pub mod services;
mod skips;
mod steps;
pub mod table;
pub mod target;
#[cfg(test)]
mod tests;
pub mod thread;
pub mod traced;

pub use machine::X86Machine;
