//! Lines of assembly text that are instructions: their pieces, their operands, and their reading.
//!
//! `specs/Grammar.antt` says which lists of pieces are an instruction.
#![tactic(auto)]

pub mod bits;
pub mod instr_reading;
pub mod number;
pub mod operand_reading;
pub mod piece;
pub mod register_names;
#[cfg(test)]
mod tests;
