//! The faults and the meaning of expressions, and of the types, specifiers and declarators that
//! stand in them, up to the first fault.
#![tactic(auto)]

pub mod typing;
