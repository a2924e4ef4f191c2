//! What numbers stand for: the bits of a width, and counts.
ghost use Rattle.std.specs.Prelude.{◌≡◌, ◌+◌, ◌^◌, ◌<◌, ◌≤◌, IfSome, MatchOption, ℕ};
ghost use Rattle.x86_lines.specs.Finding.{bits_in, count_in};
ghost use Rattle.x86_lines.specs.Fitting.{count_kept, width_in, width_kept};
ghost use Rattle.x86_lines.specs.Numbers.{IsBits, IsCount};

use crate::number::{Number, found_number};

// The bits of a number of this size in a width whose sign bit is `half`.
fn fitted(half: u32, negative: bool, size: u128) -> Option<u32>
    requires some { 1 ≤ half }
    requires small { half ≤ 2147483648 }
    ensures exact { result ≡ width_in half negative size }
    ensures within { IfSome result (λ n. n < half + half) }
{
    let whole = u128::from(half) + u128::from(half);
    if negative {
        if size <= u128::from(half) {
            Some(((whole - size) % whole) as u32)
        } else {
            None
        }
    } else {
        if size < whole {
            Some(size as u32)
        } else {
            None
        }
    }
}

// The bits of a number in a width whose sign bit is `half`.
fn number_bits(half: u32, number: Number) -> Option<u32>
    requires some { 1 ≤ half }
    requires small { half ≤ 2147483648 }
    ensures exact { result ≡ width_kept half number.negative number.size }
    ensures within { IfSome result (λ n. n < half + half) }
{
    match number.size {
        Some(size) => fitted(half, number.negative, size),
        None => None,
    }
}

/// The same as `bits_of`, in the order in which it is looked for.
pub fn found_bits(half: u32, word: &[u8]) -> Option<u32>
    requires some { 1 ≤ half }
    requires small { half ≤ 2147483648 }
    ensures exact { result ≡ bits_in half word.now }
    ensures within { IfSome result (λ n. n < half + half) }
{
    match found_number(word) {
        Some(number) => number_bits(half, number),
        None => None,
    }
}

/// The bits that a piece stands for in a width whose sign bit is `half`; None where it is no number
/// of that width.
pub fn bits_of(half: u32, word: &[u8]) -> Option<u32>
    requires some { 1 ≤ half }
    requires small { half ≤ 2147483648 }
    ensures { MatchOption result ((n : ℕ) → ¬ IsBits half word.now n) (λ n. IsBits half word.now n) }
{
    found_bits(half, word)
}

// A number that is not below 0.
fn number_count(number: Number) -> Option<u128>
    ensures { result ≡ count_kept number.negative number.size }
{
    match number.size {
        Some(size) => {
            if number.negative && size != 0 {
                None
            } else {
                Some(size)
            }
        }
        None => None,
    }
}

/// The same as `count_of`, in the order in which it is looked for.
pub fn found_count(word: &[u8]) -> Option<u128>
    ensures { result ≡ count_in word.now }
{
    match found_number(word) {
        Some(number) => number_count(number),
        None => None,
    }
}

/// The number that a piece stands for; None where it is none from 0 to 2^128 - 1.
pub fn count_of(word: &[u8]) -> Option<u128>
    ensures { MatchOption result ((n : ℕ) → n < 2 ^ 128 → ¬ IsCount word.now n) (λ n. IsCount word.now n × (n < 2 ^ 128)) }
{
    found_count(word)
}
