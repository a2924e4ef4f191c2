//! What the statements of a function do, as trees without types and names: what is made of a
//! function's body once it is judged, and what its program is made from.
//!
//! The definitions are those of `clight_typing`'s `specs/Statements`; `specs/MadeOf` says which of
//! their trees a tree of the code is.
#![tactic(auto)]

pub mod made;

pub use made::{Made, MadeGroup};
