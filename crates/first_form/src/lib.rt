//! The first form of file that is compiled: `int main(void) { return N; }`, with any blanks,
//! comments and line markers between its ten words.
//!
//! `specs/Form.antt` says which bytes are of the form. `laws` says that they are those whose tokens
//! are the ten words, and that such a file is one of the grammar. `constant_of` tells the form by
//! the tokens.
#![tactic(auto)]

mod form;
pub mod laws;
#[cfg(test)]
mod tests;

pub use form::constant_of;
