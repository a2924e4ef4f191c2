//! Instructions from the pieces of a line.
ghost use Rattle.std.specs.Prelude.{◌≡◌, ◌↔◌, IfOk, IsTrue, List, MatchOption, ℕ, Some, slice_get};
ghost use Rattle.std.specs.Option.{option_map};
ghost use Rattle.x86_table.specs.declared.instruction.Instr.{Instr};
ghost use Rattle.x86_lines.specs.Choosing.{HasRow, IsAfter, IsBehind, IsChosen};
ghost use Rattle.x86_table.specs.declared.mnemonic.Mnemonic.{Mnemonic};
ghost use Rattle.x86_lines.specs.Grammar.{HasShortShift, IsInstr};
ghost use Rattle.x86_lines.specs.Pieces.{pieces};
ghost use Rattle.x86_lines.specs.Spelled.{operand_of};
ghost use Rattle.x86_lines.specs.Taking.{locked, split_at, two_of};

use crate::operand_reading::{Spelled, SpelledOperands, operands_in};
use crate::piece::next_piece;
use std::alloc::Global;
use tso_words::{Name, NoMemory};
use x86_table::instruction::Instr;
use x86_table::mnemonic::Mnemonic;
use x86_table::of_operands::instr_of;
use x86_table::operand::{Address, Operand, Operands, Symbol};
use x86_table::table::{FORMS, Form, Pattern, find};

// The operand that a text spells.
fn operand_made(alloc: Global, spelled: Spelled<'_>) -> Result<Operand, NoMemory>
    ensures { IfOk result (λ o. o ≡ operand_of spelled.entry) }
{
    match spelled {
        Spelled::Absent => Ok(Operand::Absent),
        Spelled::Word(register) => Ok(Operand::Word(register)),
        Spelled::Byte(register) => Ok(Operand::Byte(register)),
        Spelled::Half(register) => Ok(Operand::Half(register)),
        Spelled::Number(number) => Ok(Operand::Number(number)),
        Spelled::Symbol(name, plus) => {
            let name = Name::made(alloc, name)?;
            Ok(Operand::Symbol(Symbol { name, plus }))
        }
        Spelled::Labelled(name, displacement, base, index) => {
            let name = Name::made(alloc, name)?;
            Ok(Operand::Memory(Address {
                label: Some(name),
                displacement,
                base,
                index,
            }))
        }
        Spelled::Memory(displacement, base, index) => Ok(Operand::Memory(Address {
            label: None,
            displacement,
            base,
            index,
        })),
        Spelled::Through(register) => Ok(Operand::Through(register)),
    }
}

// Whether the number that a shift goes by is at most 31.
fn has_short_shift(instr: &Instr) -> bool
    ensures { IsTrue result ↔ HasShortShift instr.now }
{
    match instr {
        Instr::ShiftByNumber { count, .. } => *count <= 31,
        _ => true,
    }
}

// The instruction, where its shift is short.
fn shortened(instr: Option<Instr>) -> Option<Instr>
    ensures { MatchOption result ((i : Instr) → instr ≡ Some i → ¬ HasShortShift i) (λ i. (instr ≡ Some i) × HasShortShift i) }
{
    match instr {
        None => None,
        Some(instr) => {
            if has_short_shift(&instr) {
                Some(instr)
            } else {
                None
            }
        }
    }
}

// The mnemonic of a row.
fn mnemonic_at(table: &[Form], row: usize) -> Option<Mnemonic>
    ensures { result ≡ option_map (λ form. form.mnemonic) (slice_get table.now row) }
{
    match table.get(row) {
        None => None,
        Some(form) => Some(form.mnemonic),
    }
}

// The mnemonic of the row that has this text and takes operands of these shapes.
fn mnemonic_in(text: &[u8], pattern: &Pattern) -> Option<Mnemonic>
    ensures { MatchOption result ((m : Mnemonic) → ¬ HasRow text.now pattern.now m) (λ m. HasRow text.now pattern.now m) }
{
    match find(&FORMS, text, pattern) {
        None => None,
        Some(row) => mnemonic_at(&FORMS, row),
    }
}

// The instruction of a mnemonic's text and operands.
fn chosen(text: &[u8], operands: Operands, pattern: &Pattern) -> Option<Instr>
    ensures { MatchOption result ((i : Instr) → ¬ IsChosen text.now operands pattern.now i) (λ i. IsChosen text.now operands pattern.now i) }
{
    match mnemonic_in(text, pattern) {
        None => None,
        Some(mnemonic) => shortened(instr_of(mnemonic, operands)),
    }
}

// The operands that a text spells.
fn operands_made(alloc: Global, spelled: SpelledOperands<'_>) -> Result<Operands, NoMemory>
    ensures { IfOk result (λ o. o ≡ two_of (operand_of spelled.entry.first) (operand_of spelled.entry.second)) }
{
    let first = operand_made(alloc, spelled.first)?;
    let second = operand_made(alloc, spelled.second)?;
    Ok(Operands { first, second })
}

// The instruction of a mnemonic's text and the operands behind it.
fn instr_behind(alloc: Global, text: &[u8], line: &[u8]) -> Result<Option<Instr>, NoMemory>
    ensures { IfOk result (λ r. MatchOption r ((i : Instr) → ¬ IsBehind text.now (pieces line.now) i) (λ i. IsBehind text.now (pieces line.now) i)) }
{
    match operands_in(line) {
        None => Ok(None),
        Some(spelled) => {
            let operands = operands_made(alloc, spelled)?;
            Ok(chosen(text, operands, &spelled.pattern))
        }
    }
}

// The instruction behind the prefix.
fn locked_instr(alloc: Global, line: &[u8]) -> Result<Option<Instr>, NoMemory>
    ensures { IfOk result (λ r. MatchOption r ((i : Instr) → ¬ IsAfter (locked (pieces line.now)) i) (λ i. IsAfter (locked (pieces line.now)) i)) }
{
    match next_piece(line) {
        None => Ok(None),
        Some(name) => {
            let mut text = Vec::from_slice(alloc, b"lock ")?;
            text.extend_from_slice(name.word)?;
            instr_behind(alloc, text.as_slice(), name.rest)
        }
    }
}

// The instruction of a line from its first piece on.
fn instr_at(alloc: Global, word: &[u8], rest: &[u8]) -> Result<Option<Instr>, NoMemory>
    ensures { IfOk result (λ r. MatchOption r ((i : Instr) → ¬ IsAfter (split_at word.now (pieces rest.now)) i) (λ i. IsAfter (split_at word.now (pieces rest.now)) i)) }
{
    if word == b"lock".as_slice() {
        locked_instr(alloc, rest)
    } else {
        instr_behind(alloc, word, rest)
    }
}

/// The instruction of a line; None where it is none.
pub fn instr_in(alloc: Global, line: &[u8]) -> Result<Option<Instr>, NoMemory>
    ensures { IfOk result (λ r. MatchOption r ((i : Instr) → ¬ IsInstr (pieces line.now) i) (λ i. IsInstr (pieces line.now) i)) }
{
    match next_piece(line) {
        None => Ok(None),
        Some(first) => instr_at(alloc, first.word, first.rest),
    }
}

/// A line is at most one instruction.
pub fn a_line_is_one_instruction()
    ensures { (line : List (List ℕ)) (i j : Instr) → IsInstr line i → IsInstr line j → i ≡ j }
{}
