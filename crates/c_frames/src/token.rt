//! Tokens as the reader takes them.

use c_reading::token::Kind;
use tso_words::Name;

/// A token of a file.
#[derive(Drop)]
pub struct Token {
    /// The byte of the file at which it begins.
    pub at: u32,
    pub kind: Kind,
    /// Its bytes, where it is a name; else any.
    pub name: Name,
}
