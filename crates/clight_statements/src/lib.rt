//! The faults and the meaning of the statements of a function, up to the first fault.
//!
//! The definitions are those of `clight_typing`'s `specs/Statements`; `MadeOf` of `clight_made` and
//! `specs/StatementsOf` say which of their values the values of the code are.
#![tactic(auto)]

pub mod around;
pub mod effects;
pub mod labels;
pub mod locals;
pub mod making;
pub mod meanings;
pub mod returns;
pub mod statements;

pub use around::Around;
