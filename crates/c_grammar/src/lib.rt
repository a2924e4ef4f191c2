//! The grammar of C files: which derivation spells a list of tokens, and the machine that reads it.
#![tactic(auto)]

pub mod laws;
