//! ClightTSO: C with threads, atomics and fences over store buffers, as a thread language.
#![tactic(auto)]

pub mod clight;
pub mod due;
pub mod expression;
pub mod frame;
pub mod function;
pub mod leading;
pub mod next;
pub mod offering;
pub mod placing;
pub mod program;
pub mod resuming;
pub mod returning;
pub mod statement;
pub mod thread;

pub use clight::Clight;
pub use placing::default_placement;
pub use program::{GROWTH, Program};
pub use returning::program_returning;

#[cfg(test)]
mod tests;
