//! What the words of a file stand for.
ghost use Rattle.std.specs.List.{list_any};
ghost use Rattle.std.specs.Prelude.{◌≡◌};
ghost use Rattle.c_tokens.specs.Constants.{IsCharacterIn, IsIntegerOf, IsWord, is_unsigned_mark};
ghost use Rattle.c_tokens.specs.Scanning.{is_decimal_word};
ghost use Rattle.c_tokens.specs.declared.token.TokenKind.TheVariants.{Character, Integer};

use crate::class::{Class, begins, contains};
use crate::value::{character_value, integer_value};

/// An integer constant. An `l` in its suffix says nothing: `long` is `int`.
#[derive(Clone, Copy, PartialEq, Eq, Debug)]
pub struct IntegerConstant {
    pub value: u32,
    /// Written in decimal: `0`, or with no `0` in front.
    pub is_decimal: bool,
    /// With a `u` or `U` in its suffix.
    pub is_unsigned: bool,
}

// Whether an integer constant is decimal.
fn is_decimal_word(word: &[u8]) -> bool
    ensures { result ≡ is_decimal_word word.now }
{
    match word {
        [first, after @ ..] => {
            if *first == 48 {
                !(begins(Class::HexadecimalMark, after) || begins(Class::Octal, after))
            } else {
                true
            }
        }
        [] => true,
    }
}

// Whether a 'u' or 'U' stands in the word.
fn has_unsigned_mark(word: &[u8]) -> bool
    ensures { result ≡ list_any is_unsigned_mark word.now }
{
    word.iter().any(|byte| contains(Class::UnsignedMark, *byte))
}

/// The integer constant that a token writes.
pub fn integer_constant(word: &[u8]) -> IntegerConstant
    requires { IsWord Integer word.now }
    ensures { IsIntegerOf word.now result }
{
    let value = integer_value(word).unwrap();
    let is_decimal = is_decimal_word(word);
    let is_unsigned = has_unsigned_mark(word);
    IntegerConstant {
        value,
        is_decimal,
        is_unsigned,
    }
}

/// The number, up to 255, of the character constant that a token writes. The constant's value is
/// that byte as a signed char.
pub fn character_constant(word: &[u8]) -> u8
    requires { IsWord Character word.now }
    ensures { IsCharacterIn word.now result }
{
    let number = character_value(word).unwrap();
    number as u8
}
