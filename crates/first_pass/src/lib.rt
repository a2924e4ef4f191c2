//! The first pass onto x86: from a program whose main returns a number to its assembly on the
//! x86-TSO machine.
//!
//! `assembly` makes the two instructions and promises that they refine the program; `laws` that
//! their printed form is the seven lines of `specs/Assembled.antt`. Whole files of C are to come
//! here by way of the languages between; until then this is the one pass of the compiler.
#![tactic(auto)]

pub mod assembling;
pub mod laws;
#[cfg(test)]
mod tests;

pub use assembling::assembly;
