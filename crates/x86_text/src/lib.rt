//! Printing and reading of assembly texts.
//!
//! `specs/Text.antt` says which bytes are a text of which assembly; `specs/Printed.antt` has the
//! printed form.
#![tactic(auto)]

pub mod assembling;
pub mod cutting;
pub mod gathering;
pub mod laws;
pub mod line;
pub mod line_reading;
pub mod naming;
pub mod printing;
pub mod reading;
#[cfg(test)]
mod tests;

pub use printing::print_asm;
pub use reading::{ReadAsmRefusal, read_asm};
