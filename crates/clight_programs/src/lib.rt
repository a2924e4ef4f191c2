//! The program of a file without faults, and the check that gives it, or the first fault of a file, or
//! the first count that it passes.
//!
//! The definitions are those of `clight_meaning`'s `specs/Meaning`; `specs/` here says which of their
//! values the values of the code are, and what those functions give that do a part of their work.
#![tactic(auto)]

pub mod checks;
pub mod functions;
pub mod globals;
pub mod locals;
pub mod locations;
pub mod ordered;
pub mod programs;
pub mod types;

pub use checks::{CheckRefusal, check};
pub use programs::program_meant;
