//! The bytes that a constant gives an object.

ghost use Rattle.std.specs.Prelude.{◌≡◌, ◌++◌, OnOk, IfOk};
ghost use Rattle.clight_globals.specs.Globals.{word_bytes, constant_word, stored_constant, constant_bytes, is_known};

use clight_specifiers::built::push;
use clight_types::constants::{chunk_of, constant_as};
use clight_types::{Constant, Value};
use std::alloc::Global;
use tso_words::{NoMemory, size_of_chunk};

/// So many bytes of a word behind others, the lowest first.
fn put_word(bytes: &mut Vec<u8>, word: u32, count: u32) -> Result<(), NoMemory>
    ensures { OnOk result (bytes.new.items ≡ bytes.old.items ++ word_bytes word count) }
{
    let mut left = word;
    for _ in 0..count {
        push(bytes, (left % 256) as u8)?;
        left /= 256;
    }
    Ok(())
}

/// Whether the value of the constant is known.
pub fn is_known(constant: Constant) -> bool
    ensures { result ≡ is_known constant }
{
    matches!(constant, Constant::Known(_))
}

fn constant_word(constant: Constant) -> u32
    ensures { result ≡ constant_word constant }
{
    match constant {
        Constant::Known(word) => word,
        Constant::No | Constant::WithoutValue => 0,
    }
}

/// A constant as a value of a type: a pointer keeps its word.
fn stored_constant(to: Value, constant: Constant) -> Constant
    ensures { result ≡ stored_constant to constant }
{
    match to {
        Value::Integer(_) => constant_as(to, constant),
        Value::Pointer(_) | Value::Struct | Value::Void => constant,
    }
}

/// The bytes of a constant as a value of a type, behind others.
pub fn put_constant(bytes: &mut Vec<u8>, to: Value, constant: Constant) -> Result<(), NoMemory>
    ensures { OnOk result (bytes.new.items ≡ bytes.old.items ++ constant_bytes to constant) }
{
    let word = constant_word(stored_constant(to, constant));
    put_word(bytes, word, size_of_chunk(chunk_of(to)))
}

/// The bytes of a constant as a value of a type.
pub fn constant_bytes(alloc: Global, to: Value, constant: Constant) -> Result<Vec<u8>, NoMemory>
    ensures { IfOk result (λ bytes. bytes.items ≡ constant_bytes to constant) }
{
    let mut bytes = Vec::new(alloc);
    put_constant(&mut bytes, to, constant)?;
    Ok(bytes)
}
