//! The faults of the declarations of a file, and what is known behind each of them: objects with
//! their first bytes, functions and typedef names.
//!
//! `specs/Globals` has the definitions, and `specs/GlobalsOf` says which of their values the values
//! of the code are.
#![tactic(auto)]

pub mod bytes;
pub mod clashes;
pub mod declarators;
pub mod initializers;
pub mod known;
pub mod lists;
pub mod slots;
pub mod storage;
