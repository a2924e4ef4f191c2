//! A token: its kind and its place in the file.

/// The kinds of tokens of the profile. A keyword is never an identifier.
#[derive(Clone, Copy, PartialEq, Eq, Debug)]
pub enum TokenKind {
    Identifier,
    Keyword,
    Integer,
    Character,
    Punctuator,
}

/// A token: the bytes from `from` up to `to` of the file.
#[derive(Clone, Copy, PartialEq, Eq, Debug)]
pub struct Token {
    pub kind: TokenKind,
    pub from: u32,
    pub to: u32,
}
