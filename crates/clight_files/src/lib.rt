//! The faults of a file, in its order, and what it declares and defines, up to the first fault.
//!
//! `specs/Files` has the definitions, and `specs/FilesOf` says which of their values the values of
//! the code are.
#![tactic(auto)]

pub mod definitions;
pub mod externals;
pub mod files;
pub mod made;
pub mod parameters;

pub use made::{FileMade, FunctionMade};
