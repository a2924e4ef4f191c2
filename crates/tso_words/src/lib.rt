//! Words, values, chunks of memory, the operators and names: what every language of the compiler
//! and both machines compute with.
//!
//! A value is a word of 32 bits or not known. The operators are exact: `eval_op` answers what the
//! table of `specs/Operators.antt` answers over numbers. A name is seen by contracts as its bytes.
//! `specs/Below.antt` has the order in which less is known, and `laws` what holds of all these.
//! Nothing here allocates but the making and cloning of `Name` and `Words`.
#![tactic(auto)]

pub mod bytes;
pub mod evaluation;
pub mod laws;
pub mod name;
pub mod operator;
pub mod value;

pub use bytes::{bytes_of, size_of_chunk, val_of};
pub use evaluation::{eval_cond, eval_op};
pub use name::{Name, NoMemory, Words};
pub use operator::{Cond, Op};
pub use value::{Cell, Chunk, Val};

#[cfg(test)]
mod tests;
