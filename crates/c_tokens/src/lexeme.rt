//! The longest lexeme at a place, and whether it is a token there.
ghost use Rattle.std.specs.Prelude.{◌≡◌, [], map, option_copied};
ghost use Rattle.c_tokens.specs.Scanning.{
  among,
  behind_character,
  behind_digits,
  behind_escape,
  behind_first,
  behind_inside,
  behind_lexeme,
  behind_suffix,
  behind_zero,
  is_only,
  is_token,
  kind_of,
};

use crate::class::{Class, begins, behind, behind_byte, behind_one, contains};
use crate::token::TokenKind;
use crate::value::{character_value, integer_value};

const KEYWORDS: [&[u8]; 37] = [
    b"auto",
    b"break",
    b"case",
    b"char",
    b"const",
    b"continue",
    b"default",
    b"do",
    b"double",
    b"else",
    b"enum",
    b"extern",
    b"float",
    b"for",
    b"goto",
    b"if",
    b"inline",
    b"int",
    b"long",
    b"register",
    b"restrict",
    b"return",
    b"short",
    b"signed",
    b"sizeof",
    b"static",
    b"struct",
    b"switch",
    b"typedef",
    b"union",
    b"unsigned",
    b"void",
    b"volatile",
    b"while",
    b"_Bool",
    b"_Complex",
    b"_Imaginary",
];

// The longest first.
const PUNCTUATORS: [&[u8]; 45] = [
    b"<<=", b">>=", b"->", b"++", b"--", b"<<", b">>", b"<=", b">=", b"==", b"!=", b"&&", b"||",
    b"*=", b"/=", b"%=", b"+=", b"-=", b"&=", b"^=", b"|=", b";", b"(", b")", b",", b"*", b"=",
    b"{", b"}", b"[", b"]", b".", b"&", b"+", b"-", b"~", b"!", b"/", b"%", b"<", b">", b"^", b"|",
    b"?", b":",
];

// Whether the word is one of the table.
fn is_among(mut table: &[&[u8]], word: &[u8]) -> bool
    ensures { result ≡ among (map (λ w. w.now) table.entry.now) word.now }
{
    while let [entry, rest @ ..] = table {
        if *entry == word {
            return true;
        }
        table = rest;
    }
    false
}

// What stands behind the first of the table's words that begins the text.
fn behind_first<'a>(mut table: &[&[u8]], bytes: &'a [u8]) -> Option<&'a [u8]>
    ensures { option_copied result ≡ behind_first (map (λ w. w.now) table.entry.now) bytes.now }
{
    while let [entry, rest @ ..] = table {
        if let Some(after) = bytes.strip_prefix(*entry) {
            return Some(after);
        }
        table = rest;
    }
    None
}

// What stands behind the digits after a '0'.
fn behind_zero(bytes: &[u8]) -> &[u8]
    ensures { result.now ≡ behind_zero bytes.now }
{
    match bytes {
        [first, digits @ ..] => {
            if contains(Class::HexadecimalMark, *first) && begins(Class::Hexadecimal, digits) {
                behind(Class::Hexadecimal, digits)
            } else {
                behind(Class::Octal, bytes)
            }
        }
        [] => bytes,
    }
}

// What stands behind the digits of an integer constant.
fn behind_digits(bytes: &[u8]) -> &[u8]
    ensures { result.now ≡ behind_digits bytes.now }
{
    match bytes {
        [first, after @ ..] => {
            if *first == 48 {
                behind_zero(after)
            } else {
                behind(Class::Decimal, bytes)
            }
        }
        [] => bytes,
    }
}

// What stands behind the suffix of an integer constant.
fn behind_suffix(bytes: &[u8]) -> &[u8]
    ensures { result.now ≡ behind_suffix bytes.now }
{
    match bytes {
        [first, after @ ..] => {
            if contains(Class::UnsignedMark, *first) {
                behind_one(Class::LongMark, after)
            } else if contains(Class::LongMark, *first) {
                behind_one(Class::UnsignedMark, after)
            } else {
                bytes
            }
        }
        [] => bytes,
    }
}

// What stands behind an escape whose backslash has been read.
fn behind_escape(bytes: &[u8]) -> Option<&[u8]>
    ensures { option_copied result ≡ behind_escape bytes.now }
{
    match bytes {
        [first, after @ ..] => {
            if contains(Class::Escape, *first) {
                Some(after)
            } else if *first == 120 {
                if begins(Class::Hexadecimal, after) {
                    Some(behind(Class::Hexadecimal, after))
                } else {
                    None
                }
            } else if contains(Class::Octal, *first) {
                Some(behind_one(Class::Octal, behind_one(Class::Octal, after)))
            } else {
                None
            }
        }
        [] => None,
    }
}

// What stands behind what is between the quotes of a character constant.
fn behind_inside(bytes: &[u8]) -> Option<&[u8]>
    ensures { option_copied result ≡ behind_inside bytes.now }
{
    match bytes {
        [first, after @ ..] => {
            if *first == 92 {
                behind_escape(after)
            } else if contains(Class::Plain, *first) {
                Some(after)
            } else {
                None
            }
        }
        [] => None,
    }
}

// What stands behind a character constant whose first quote has been read.
fn behind_character(bytes: &[u8]) -> Option<&[u8]>
    ensures { option_copied result ≡ behind_character bytes.now }
{
    behind_byte(39, behind_inside(bytes)?)
}

/// What stands behind the longest lexeme at the front.
pub fn behind_lexeme(bytes: &[u8]) -> Option<&[u8]>
    ensures { option_copied result ≡ behind_lexeme bytes.now }
{
    match bytes {
        [first, after @ ..] => {
            if contains(Class::Letter, *first) {
                Some(behind(Class::LetterOrDigit, bytes))
            } else if contains(Class::Decimal, *first) {
                Some(behind_suffix(behind_digits(bytes)))
            } else if *first == 39 {
                behind_character(after)
            } else {
                behind_first(&PUNCTUATORS, bytes)
            }
        }
        [] => None,
    }
}

/// The kind of a lexeme.
pub fn kind_of(word: &[u8]) -> TokenKind
    ensures { result ≡ kind_of word.now }
{
    match word {
        [first, ..] => {
            if contains(Class::Letter, *first) {
                if is_among(&KEYWORDS, word) {
                    TokenKind::Keyword
                } else {
                    TokenKind::Identifier
                }
            } else if contains(Class::Decimal, *first) {
                TokenKind::Integer
            } else if *first == 39 {
                TokenKind::Character
            } else {
                TokenKind::Punctuator
            }
        }
        [] => TokenKind::Punctuator,
    }
}

// Whether the word is this one byte.
fn is_only(byte: u8, word: &[u8]) -> bool
    ensures { result ≡ is_only byte word.now }
{
    match word {
        [only] => *only == byte,
        _ => false,
    }
}

fn is_integer_token(word: &[u8], after: &[u8]) -> bool
    ensures { result ≡ is_token TokenKind.Integer word.now after.now }
{
    if begins(Class::GoesOn, after) {
        false
    } else {
        integer_value(word).is_some()
    }
}

fn is_character_token(word: &[u8]) -> bool
    ensures { result ≡ is_token TokenKind.Character word.now [] }
{
    match character_value(word) {
        Some(number) => number <= 255,
        None => false,
    }
}

fn is_punctuator_token(word: &[u8], after: &[u8]) -> bool
    ensures { result ≡ is_token TokenKind.Punctuator word.now after.now }
{
    if is_only(46, word) {
        !begins(Class::Decimal, after)
    } else if is_only(47, word) {
        behind_byte(42, after).is_none()
    } else {
        true
    }
}

/// Whether a lexeme is a token where such bytes follow.
pub fn is_token(kind: TokenKind, word: &[u8], after: &[u8]) -> bool
    ensures { result ≡ is_token kind word.now after.now }
{
    match kind {
        TokenKind::Identifier => word.len() <= 127,
        TokenKind::Keyword => true,
        TokenKind::Integer => is_integer_token(word, after),
        TokenKind::Character => is_character_token(word),
        TokenKind::Punctuator => is_punctuator_token(word, after),
    }
}
