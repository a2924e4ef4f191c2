//! What holds of each program that a file means.
#![tactic(auto)]

pub mod laws;
