//! Files that are read and written whole, and lines that are put whole, over any store and any sink.
//!
//! `specs/Whole.antt` says what each call leads to, and which fault of the outside a refusal has as
//! its cause.
#![tactic(auto)]

#[cfg(test)]
mod tests;
mod whole;

pub use whole::{ReadRefusal, put_whole, read_whole, write_whole};
