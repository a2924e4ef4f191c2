//! Names, members and calls in expressions: what each stands for, its meaning as an expression of
//! ClightTSO, and the first fault at its node.
#![tactic(auto)]

pub mod arguments;
pub mod atomics;
pub mod builtins;
pub mod calls;
pub mod members;
pub mod names;
