//! Two passes between small languages, each a simulation of threads, and what follows for the one
//! behind the other from the laws of refinement alone.
#![tactic(auto)]

pub mod meeting;
pub mod pipeline;
pub mod ties;

pub use pipeline::{both, first_pass, second_pass};
