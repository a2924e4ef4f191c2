//! The numbers that constants write.
ghost use Rattle.std.specs.Prelude.{◌≡◌, ◌≤◌, ◌<◌, IsTrue, MatchOption};
ghost use Rattle.c_tokens.specs.Lexemes.{digit_value as digit_number};
ghost use Rattle.c_tokens.specs.Scanning.{
  character_number,
  escape_number,
  inside_number,
  integer_number,
  members,
  number_behind_zero,
  number_from,
  simple_number,
};

use crate::class::{Class, contains};

const fn digit_value(byte: u8) -> u32
    requires { IsTrue (members Class.Hexadecimal byte) }
    ensures value { result ≡ digit_number byte }
    ensures small { result < 16 }
{
    if byte <= 57 {
        byte as u32 - 48
    } else if byte <= 70 {
        byte as u32 - 55
    } else {
        byte as u32 - 87
    }
}

// The number that the digits at the front write in a base, if it is below 2^32.
fn number(base: u32, bytes: &[u8]) -> Option<u32>
    requires low { 1 ≤ base }
    requires high { base ≤ 16 }
    ensures { MatchOption result (4294967295 < number_from base 0 bytes.now) (λ n. n ≡ number_from base 0 bytes.now) }
{
    let mut number: u32 = 0;
    let mut rest = bytes;
    while let [first, after @ ..] = rest {
        if !contains(Class::Hexadecimal, *first) {
            return Some(number);
        }
        let next = u64::from(base) * u64::from(number) + u64::from(digit_value(*first));
        if next > 4_294_967_295 {
            return None;
        }
        number = next as u32;
        rest = after;
    }
    Some(number)
}

fn number_behind_zero(bytes: &[u8]) -> Option<u32>
    ensures { MatchOption result (4294967295 < number_behind_zero bytes.now) (λ n. n ≡ number_behind_zero bytes.now) }
{
    match bytes {
        [first, after @ ..] => {
            if contains(Class::HexadecimalMark, *first) {
                number(16, after)
            } else {
                number(8, bytes)
            }
        }
        [] => Some(0),
    }
}

/// The value of an integer constant, if it is below 2^32.
pub fn integer_value(word: &[u8]) -> Option<u32>
    ensures { MatchOption result (4294967295 < integer_number word.now) (λ n. n ≡ integer_number word.now) }
{
    match word {
        [first, after @ ..] => {
            if *first == 48 {
                number_behind_zero(after)
            } else {
                number(10, word)
            }
        }
        [] => Some(0),
    }
}

const fn simple_number(byte: u8) -> u8
    ensures { result ≡ simple_number byte }
{
    if byte == 110 {
        10
    } else if byte == 116 {
        9
    } else if byte == 114 {
        13
    } else if byte == 97 {
        7
    } else if byte == 98 {
        8
    } else if byte == 102 {
        12
    } else if byte == 118 {
        11
    } else {
        byte
    }
}

fn escape_number(bytes: &[u8]) -> Option<u32>
    ensures { MatchOption result (4294967295 < escape_number bytes.now) (λ n. n ≡ escape_number bytes.now) }
{
    match bytes {
        [first, after @ ..] => {
            if *first == 120 {
                number(16, after)
            } else if contains(Class::Octal, *first) {
                number(8, bytes)
            } else {
                Some(u32::from(simple_number(*first)))
            }
        }
        [] => Some(0),
    }
}

/// The number of a character constant, if it is below 2^32.
pub fn character_value(word: &[u8]) -> Option<u32>
    ensures { MatchOption result (4294967295 < character_number word.now) (λ n. n ≡ character_number word.now) }
{
    match word {
        [_, inside @ ..] => inside_number(inside),
        [] => Some(0),
    }
}

fn inside_number(inside: &[u8]) -> Option<u32>
    ensures { MatchOption result (4294967295 < inside_number inside.now) (λ n. n ≡ inside_number inside.now) }
{
    match inside {
        [first, after @ ..] => {
            if *first == 92 {
                escape_number(after)
            } else {
                Some(u32::from(*first))
            }
        }
        [] => Some(0),
    }
}
