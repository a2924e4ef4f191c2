//! What holds of each tree that is read from a file.
#![tactic(auto)]

pub mod laws;
