//! The front end: from the bytes of a C file to its program.
//!
//! The bytes of a file are exactly one of five: the bytes of a program, of a file that breaks a rule
//! first at a place, of one that breaks none and passes a count, of one that is no file of the
//! grammar, or of one that nests too deep (`specs/Fronts`, and the laws). `front` says which.
#![tactic(auto)]

mod fronts;
pub mod laws;

pub use fronts::{FrontRefusal, front};
