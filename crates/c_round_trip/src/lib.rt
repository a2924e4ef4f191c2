//! What is printed of a file's tree reads as the tree again, places aside.
#![tactic(auto)]

pub mod laws;
