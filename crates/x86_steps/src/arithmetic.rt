//! What the operations on registers give.
ghost use Rattle.std.specs.Prelude.{◌≡◌, ◌<◌, ◌^◌, FitsSigned};
ghost use Rattle.std.specs.Int.{w32};
ghost use Rattle.tso_words.specs.Operators.{word_of as word_in};
ghost use Rattle.tso_words.specs.Words.{extend_sign};
ghost use Rattle.x86_steps.specs.Arithmetic.{combined as combined_in, flags_of_combined as flags_in, shifted as shifted_in, extended as extended_in, divided as divided_in, divided_unsigned as divided_unsigned_in, divided_signed as divided_signed_in};

use crate::flags::Flags;
use x86_table::instruction::{Operator, Shift, Sign, Width};

/// A quotient with its remainder, as words.
#[derive(Clone, Copy, Debug, PartialEq, Eq)]
pub struct Division {
    pub quotient: u32,
    pub remainder: u32,
}

/// `a operator b`, modulo 2 ^ 32.
pub fn combined(operator: Operator, a: u32, b: u32) -> u32
    ensures { result ≡ combined_in operator a b }
{
    match operator {
        Operator::Add => a.wrapping_add(b),
        Operator::Subtract => a.wrapping_sub(b),
        Operator::Multiply => a.wrapping_mul(b),
        Operator::And => a & b,
        Operator::Or => a | b,
        Operator::Xor => a ^ b,
    }
}

/// The flags that `a operator b` leaves.
pub fn flags_of_combined(operator: Operator, a: u32, b: u32) -> Flags
    ensures { result ≡ flags_in operator a b }
{
    match operator {
        Operator::Add => Flags::of_sum(a, b),
        Operator::Subtract => Flags::of_difference(a, b),
        Operator::Multiply => Flags::unknown(),
        Operator::And => Flags::of_bits(a & b),
        Operator::Or => Flags::of_bits(a | b),
        Operator::Xor => Flags::of_bits(a ^ b),
    }
}

/// A word shifted by a count modulo 32.
pub fn shifted(shift: Shift, word: u32, count: u32) -> u32
    ensures { result ≡ shifted_in shift word count }
{
    match shift {
        Shift::Left => word.wrapping_shl(count),
        Shift::Right => word.wrapping_shr(count),
        Shift::Arithmetic => word.cast_signed().wrapping_shr(count).cast_unsigned(),
    }
}

/// The lowest byte or half of a word, extended to a word.
pub fn extended(width: Width, sign: Sign, word: u32) -> u32
    ensures { result ≡ extended_in width sign word }
{
    match (width, sign) {
        (Width::Byte, Sign::Signed) => extended_byte(word % 256),
        (Width::Byte, Sign::Unsigned) => word % 256,
        (Width::Half, Sign::Signed) => extended_half(word % 65536),
        (Width::Half, Sign::Unsigned) => word % 65536,
    }
}

fn extended_byte(byte: u32) -> u32
    requires { byte < 2 ^ 8 }
    ensures { result ≡ extend_sign 8 byte }
{
    if byte < 0x80 {
        byte
    } else {
        byte + 0xffff_ff00
    }
}

fn extended_half(half: u32) -> u32
    requires { half < 2 ^ 16 }
    ensures { result ≡ extend_sign 16 half }
{
    if half < 0x8000 {
        half
    } else {
        half + 0xffff_0000
    }
}

/// The double word `high:low` by a word; `None` is a fault, where the divisor is 0 or the quotient
/// is no word of this sign.
pub fn divided(sign: Sign, high: u32, low: u32, divisor: u32) -> Option<Division>
    ensures { result ≡ divided_in sign high low divisor }
{
    match sign {
        Sign::Signed => divided_signed(
            i64::from(high.cast_signed()) * 0x1_0000_0000 + i64::from(low),
            divisor,
        ),
        Sign::Unsigned => divided_unsigned(
            u64::from(high) * 0x1_0000_0000 + u64::from(low),
            divisor,
        ),
    }
}

fn divided_unsigned(dividend: u64, divisor: u32) -> Option<Division>
    ensures { result ≡ divided_unsigned_in dividend divisor }
{
    let quotient = dividend.checked_div(u64::from(divisor))?;
    if quotient > 0xffff_ffff {
        return None;
    }
    let remainder = dividend % u64::from(divisor);
    Some(Division {
        quotient: quotient as u32,
        remainder: remainder as u32,
    })
}

fn divided_signed(dividend: i64, divisor: u32) -> Option<Division>
    ensures { result ≡ divided_signed_in dividend divisor }
{
    let divisor = i64::from(divisor.cast_signed());
    let quotient = dividend.checked_div(divisor)?;
    if quotient < -0x8000_0000 || quotient > 0x7fff_ffff {
        return None;
    }
    let remainder = dividend % divisor;
    Some(Division {
        quotient: word_of(quotient),
        remainder: word_of(remainder),
    })
}

// A signed number as a word.
fn word_of(number: i64) -> u32
    requires { FitsSigned w32 number }
    ensures { result ≡ word_in number }
{
    (number as i32).cast_unsigned()
}
