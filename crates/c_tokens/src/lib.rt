//! The tokens of a C file: the longest matches in order, up to the first byte that begins none.
//!
//! `tokens` answers exactly what `specs/Tokens.antt` says of a file's bytes, where
//! `specs/Lexemes.antt` says which strings are identifiers, keywords, constants and punctuators.
//! `specs/Scanning.antt` has what the private functions compute, over lists.
#![tactic(auto)]

mod class;
mod constant;
mod gap;
pub mod laws;
mod lexeme;
mod list;
pub mod token;
mod value;

pub use constant::{IntegerConstant, character_constant, integer_constant};
pub use list::{TokenList, tokens};
pub use token::{Token, TokenKind};

#[cfg(test)]
mod tests;
