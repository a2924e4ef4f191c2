//! The instruction table of 32-bit assembly, with the types of whole instructions.
//!
//! `table::FORMS` has each form of an instruction; `instruction::form_of` and `operands_of` lead from
//! an instruction to its row and operands, and `of_operands::instr_of` back. Printing, reading and
//! stepping go by this one table.
#![tactic(auto)]

pub mod instruction;
pub mod mnemonic;
pub mod of_operands;
pub mod operand;
pub mod register;
pub mod table;
#[cfg(test)]
mod table_tests;
