//! The printed form of instructions.
//!
//! `specs/Printed.antt` has the printed form. What is printed is a line of the grammar of
//! `x86_lines`.
#![tactic(auto)]

pub mod printing;
#[cfg(test)]
mod tests;
pub mod view;
