//! The reader of C files, from the bytes to the tree or the exact place of the fault.
//!
//! `read_file` is the one call. `c_reading` defines the reader token by token and proves that its
//! answer is the grammar's; `c_states` has the states inside expressions and declarations, this
//! crate those of statements.
#![tactic(auto)]

mod feed;
mod file;
mod initializer;
mod items;
mod statement;

pub use file::{NESTING_LIMIT, ReadFileRefusal, read_file};
