//! Tokens, each with what stands behind it, at the end of a text.
ghost use Rattle.std.specs.Char.{digit_char};
ghost use Rattle.std.specs.Prelude.{◌≡◌, ◌++◌, ◌<◌, OnOk, codes};
ghost use Rattle.c_tree.specs.Printing.{character, closed, hexadecimal, number_text, opened, put_line, put_word, separated};
ghost use Rattle.c_tree.specs.Shape.{number_of};

use crate::word::Number;
use itoa::Buffer;
use tso_words::NoMemory;

/// A token with a blank behind it.
pub fn write_word(out: &mut Vec<u8>, word: &[u8]) -> Result<(), NoMemory>
    ensures { OnOk result (out.new.items ≡ put_word word.now out.old.items) }
{
    out.extend_from_slice(word)?;
    out.extend_from_slice(b" ")?;
    Ok(())
}

/// A token that ends a line.
pub fn write_line(out: &mut Vec<u8>, word: &[u8]) -> Result<(), NoMemory>
    ensures { OnOk result (out.new.items ≡ put_line word.now out.old.items) }
{
    out.extend_from_slice(word)?;
    out.extend_from_slice(b"\n")?;
    Ok(())
}

/// `(`, if it is needed.
pub fn write_open(out: &mut Vec<u8>, is_needed: bool) -> Result<(), NoMemory>
    ensures { OnOk result (out.new.items ≡ opened is_needed out.old.items) }
{
    if is_needed {
        write_word(out, b"(")
    } else {
        Ok(())
    }
}

/// `)`, if it is needed.
pub fn write_close(out: &mut Vec<u8>, is_needed: bool) -> Result<(), NoMemory>
    ensures { OnOk result (out.new.items ≡ closed is_needed out.old.items) }
{
    if is_needed {
        write_word(out, b")")
    } else {
        Ok(())
    }
}

/// The comma before an item that is not the first.
pub fn write_comma(out: &mut Vec<u8>, is_first: bool) -> Result<(), NoMemory>
    ensures { OnOk result (out.new.items ≡ separated is_first out.old.items) }
{
    if is_first {
        Ok(())
    } else {
        write_word(out, b",")
    }
}

const fn hexadecimal_digit(digit: u32) -> u8
    requires { digit < 16 }
    ensures { result ≡ digit_char digit }
{
    if digit < 10 {
        48 + digit as u8
    } else {
        87 + digit as u8
    }
}

// A number in eight hexadecimal digits.
const fn hexadecimal(number: u32) -> [u8; 10]
    ensures { result ≡ hexadecimal number }
{
    [
        48,
        120,
        hexadecimal_digit(number / 268_435_456),
        hexadecimal_digit(number / 16_777_216 % 16),
        hexadecimal_digit(number / 1_048_576 % 16),
        hexadecimal_digit(number / 65_536 % 16),
        hexadecimal_digit(number / 4096 % 16),
        hexadecimal_digit(number / 256 % 16),
        hexadecimal_digit(number / 16 % 16),
        hexadecimal_digit(number % 16),
    ]
}

fn write_character(out: &mut Vec<u8>, byte: u8) -> Result<(), NoMemory>
    ensures { OnOk result (out.new.items ≡ put_word (character byte) out.old.items) }
{
    if 32 <= byte && byte <= 126 && byte != 39 && byte != 92 {
        write_word(out, &[39, byte, 39])
    } else {
        let escape = [39, 92, 48 + byte / 64, 48 + byte / 8 % 8, 48 + byte % 8, 39];
        write_word(out, &escape)
    }
}

fn write_unsigned(out: &mut Vec<u8>, digits: &[u8]) -> Result<(), NoMemory>
    ensures { OnOk result (out.new.items ≡ put_word (digits.now ++ codes "u") out.old.items) }
{
    out.extend_from_slice(digits)?;
    write_word(out, b"u")
}

/// A constant.
pub fn write_number(out: &mut Vec<u8>, number: Number) -> Result<(), NoMemory>
    ensures { OnOk result (out.new.items ≡ put_word (number_text (number_of number)) out.old.items) }
{
    let mut buffer = Buffer::new();
    match number {
        Number::Decimal(value) => write_word(out, buffer.format(value).as_bytes()),
        Number::OctalOrHexadecimal(value) => write_word(out, &hexadecimal(value)),
        Number::DecimalUnsigned(value) => write_unsigned(out, buffer.format(value).as_bytes()),
        Number::OtherUnsigned(value) => write_unsigned(out, &hexadecimal(value)),
        Number::Character(byte) => write_character(out, byte),
    }
}
