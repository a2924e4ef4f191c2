//! What each operator of C makes of its operands: what the expression stands for, its meaning as an
//! expression of ClightTSO, and the first fault at its node.
#![tactic(auto)]

pub mod applied;
pub mod assignments;
pub mod operands;
pub mod prefixed;
pub mod typed;

pub use typed::{Allowed, Callee, Deed, Naming, Source, Typed};
