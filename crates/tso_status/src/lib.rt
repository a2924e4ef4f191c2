//! How a call of the compiler ends: the statuses, the number of each and the line that it prints.
//!
//! `specs/Statuses.antt` has both as tables. A line is made on the stack, so that want of memory
//! can be told.
#![tactic(auto)]

mod status;
#[cfg(test)]
mod tests;

pub use status::{LINE_SIZE, Status};
