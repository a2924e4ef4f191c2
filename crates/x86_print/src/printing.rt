//! The printed form of instructions.
ghost use Rattle.std.specs.Prelude.{◌≡◌, [], ◌∷◌, ◌++◌, ◌+◌, ◌≤◌, ◌<◌, OnOk, option_copied, vec_len};
ghost use Rattle.std.specs.Fmt.{decimal};
ghost use Rattle.x86_table.specs.Instruction.{mnemonic_of};
ghost use Rattle.x86_table.specs.Mnemonic.{text_of};
ghost use Rattle.x86_print.specs.Printed.{
  back_text,
  displacement_text,
  front_text,
  index_text,
  instr_text,
  operand_text,
  operands_at,
  plus_text,
  second_text,
  signed_text,
  word_text,
};
ghost use Rattle.x86_print.specs.Views.{seen};

use crate::view::{View, views_of};
use itoa::Buffer;
use tso_words::{Name, NoMemory};
use x86_lines::register_names::{byte_text, factor, half_text, index_register, register_text};
use x86_table::instruction::{Instr, form_of};
use x86_table::operand::{Address, Index, Symbol};
use x86_table::register::Register;
use x86_table::table::FORMS;

/// Adds these bytes.
pub fn put(out: &mut Vec<u8>, bytes: &[u8]) -> Result<(), NoMemory>
    ensures { OnOk result (out.new.items ≡ out.old.items ++ bytes.now) }
{
    out.extend_from_slice(bytes)?;
    Ok(())
}

/// Adds a number in decimal.
pub fn put_decimal(out: &mut Vec<u8>, number: u128) -> Result<(), NoMemory>
    ensures { OnOk result (out.new.items ≡ out.old.items ++ decimal number) }
{
    let mut buffer = Buffer::new();
    put(out, buffer.format(number).as_bytes())
}

/// Adds a signed decimal of a width whose sign bit is `half`.
pub fn put_signed(out: &mut Vec<u8>, half: u32, number: u32) -> Result<(), NoMemory>
    requires { number ≤ half + half }
    ensures { OnOk result (out.new.items ≡ out.old.items ++ signed_text half number) }
{
    if number < half {
        return put_decimal(out, u128::from(number));
    }
    put(out, b"-")?;
    put_decimal(out, u128::from(half - (number - half)))
}

// Adds a word as a signed decimal.
fn put_word(out: &mut Vec<u8>, number: u32) -> Result<(), NoMemory>
    ensures { OnOk result (out.new.items ≡ out.old.items ++ word_text number) }
{
    put_signed(out, 2_147_483_648, number)
}

// Adds what is added to a label.
fn put_plus(out: &mut Vec<u8>, number: u32) -> Result<(), NoMemory>
    ensures { OnOk result (out.new.items ≡ out.old.items ++ plus_text number) }
{
    if number == 0 {
        return Ok(());
    }
    put(out, b"+")?;
    put_word(out, number)
}

// Adds an index with its scale.
fn put_index(out: &mut Vec<u8>, index: Index) -> Result<(), NoMemory>
    ensures { OnOk result (out.new.items ≡ out.old.items ++ index_text index) }
{
    put(out, b",")?;
    put(out, register_text(index_register(index.register)))?;
    put(out, b",")?;
    put_decimal(out, u128::from(factor(index.scale)))
}

// Adds the parentheses of a memory operand.
fn put_back(out: &mut Vec<u8>, base: Option<Register>, index: Option<Index>) -> Result<(), NoMemory>
    ensures { OnOk result (out.new.items ≡ out.old.items ++ back_text base index) }
{
    match (base, index) {
        (None, None) => Ok(()),
        (Some(base), None) => {
            put(out, b"(")?;
            put(out, register_text(base))?;
            put(out, b")")
        }
        (None, Some(index)) => {
            put(out, b"(")?;
            put_index(out, index)?;
            put(out, b")")
        }
        (Some(base), Some(index)) => {
            put(out, b"(")?;
            put(out, register_text(base))?;
            put_index(out, index)?;
            put(out, b")")
        }
    }
}

// Adds the number that stands before the parentheses.
fn put_displacement(
    out: &mut Vec<u8>,
    number: u32,
    base: Option<Register>,
    index: Option<Index>,
) -> Result<(), NoMemory>
    ensures { OnOk result (out.new.items ≡ out.old.items ++ displacement_text number base index) }
{
    match (base, index) {
        (None, None) => put_word(out, number),
        _ => {
            if number == 0 {
                Ok(())
            } else {
                put_word(out, number)
            }
        }
    }
}

// Adds a memory operand.
fn put_address(out: &mut Vec<u8>, address: &Address) -> Result<(), NoMemory>
    ensures { OnOk result (out.new.items ≡ out.old.items ++ (front_text address.now.label address.now.displacement address.now.base address.now.index ++ back_text address.now.base address.now.index)) }
{
    match &address.label {
        None => put_displacement(out, address.displacement, address.base, address.index)?,
        Some(name) => {
            put(out, name.bytes())?;
            put_plus(out, address.displacement)?;
        }
    }
    put_back(out, address.base, address.index)
}

// Adds a label with what is added to it.
fn put_symbol(out: &mut Vec<u8>, symbol: &Symbol) -> Result<(), NoMemory>
    ensures { OnOk result (out.new.items ≡ out.old.items ++ (36 ∷ symbol.now.name ++ plus_text symbol.now.plus)) }
{
    put(out, b"$")?;
    put(out, symbol.name.bytes())?;
    put_plus(out, symbol.plus)
}

// Adds an operand.
fn put_operand(out: &mut Vec<u8>, view: View<'_>) -> Result<(), NoMemory>
    ensures { OnOk result (out.new.items ≡ out.old.items ++ operand_text (seen view.entry)) }
{
    match view {
        View::Absent => Ok(()),
        View::Word(register) => put(out, register_text(register)),
        View::Byte(register) => put(out, byte_text(register)),
        View::Half(register) => put(out, half_text(register)),
        View::Number(number) => {
            put(out, b"$")?;
            put_word(out, number)
        }
        View::Symbol(symbol) => put_symbol(out, symbol),
        View::Memory(address) => put_address(out, address),
        View::Bare(name) => put(out, name.bytes()),
        View::Through(register) => {
            put(out, b"*")?;
            put(out, register_text(register))
        }
    }
}

// Adds a second operand behind its comma, where there is one.
fn put_second(out: &mut Vec<u8>, view: View<'_>) -> Result<(), NoMemory>
    ensures { OnOk result (out.new.items ≡ out.old.items ++ second_text (seen view.entry)) }
{
    match view {
        View::Absent => Ok(()),
        _ => {
            put(out, b", ")?;
            put_operand(out, view)
        }
    }
}

// Adds the operands behind the mnemonic, where there are any.
fn put_operands(out: &mut Vec<u8>, first: View<'_>, second: View<'_>) -> Result<(), NoMemory>
    ensures { OnOk result (out.new.items ≡ out.old.items ++ operands_at (seen first.entry) (seen second.entry)) }
{
    match first {
        View::Absent => Ok(()),
        _ => {
            put(out, b" ")?;
            put_operand(out, first)?;
            put_second(out, second)
        }
    }
}

/// The text of an instruction's mnemonic.
pub fn mnemonic_text(instr: &Instr) -> &'static [u8]
    ensures { result.now ≡ text_of (mnemonic_of instr.now) }
{
    FORMS[form_of(instr)].mnemonic.text()
}

/// Adds an instruction in its printed form, without the line's end.
pub fn put_instr(out: &mut Vec<u8>, instr: &Instr) -> Result<(), NoMemory>
    ensures { OnOk result (out.new.items ≡ out.old.items ++ instr_text instr.now) }
{
    put(out, b"\t")?;
    put(out, mnemonic_text(instr))?;
    let views = views_of(instr);
    put_operands(out, views.first, views.second)
}
