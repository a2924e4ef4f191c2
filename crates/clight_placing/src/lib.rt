//! What the statements of a function do as statements of ClightTSO, once it is known where each of
//! its locals is.
//!
//! `specs/Placing` has the definitions: expressions, assignments and calls, and statements.
#![tactic(auto)]

pub mod deeds;
pub mod expressions;
pub mod inner;
pub mod lists;
pub mod statements;

pub use inner::{Inner, Location};

#[cfg(test)]
mod tests;
