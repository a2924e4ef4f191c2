//! The tables of an assembly: for each instruction its line and the address of its name, and how
//! many words each external takes.
ghost use Rattle.std.specs.Prelude.{◌≡◌, ◌++◌, ◌+◌, ◌<◌, IfOk, OnOk, OnSome, MatchOption, Some, length, slice_get};
ghost use Rattle.x86_table.specs.declared.instruction.Instr.{Instr as InstrMeaning};
ghost use Rattle.x86_lang.specs.declared.assembly.CodeLine.TheVariants as code;
ghost use Rattle.x86_lang.specs.Assembly.{code_start};
ghost use Rattle.x86_machine.specs.Target.{address_or_zero, name_of};
ghost use Rattle.x86_machine.specs.Tables.{entry_at, entry_of, entries_of, Knows};

use indexmap::IndexMap;
use std::alloc::{AllocError, Global};
use tso_core::placement::Placement;
use tso_words::{Name, NoMemory};
use x86_lang::placing::CODE_START;
use x86_lang::{Asm, CodeLine};
use x86_table::instruction::Instr;

/// Where an instruction stands among the lines of code, and the address of its name.
#[derive(Clone, Copy, Debug, PartialEq, Eq)]
pub struct Placed {
    pub line: usize,
    pub label: u32,
}

fn address_or_zero(places: &Placement, name: &Option<Name>) -> u32
    ensures { result ≡ address_or_zero places.now name.now }
{
    match name {
        None => 0,
        Some(name) => places.find(name).unwrap_or(0),
    }
}

// The address of the name that an instruction has, 0 where it has none.
fn label_of(places: &Placement, instr: &Instr) -> u32
    ensures { result ≡ address_or_zero places.now (name_of instr.now) }
{
    match instr {
        Instr::MoveSymbol { symbol, .. } => places.find(&symbol.name).unwrap_or(0),
        Instr::Load { from, .. } | Instr::LoadExtended { from, .. } => {
            address_or_zero(places, &from.label)
        }
        Instr::Store { to, .. }
        | Instr::StoreNumber { to, .. }
        | Instr::StoreByte { to, .. }
        | Instr::StoreHalf { to, .. } => address_or_zero(places, &to.label),
        Instr::LoadAddress { address, .. } => address_or_zero(places, &address.label),
        Instr::CompareExchange { at, .. }
        | Instr::ExchangeAdd { at, .. }
        | Instr::Exchange { at, .. } => address_or_zero(places, &at.label),
        Instr::JumpIf { label, .. } | Instr::Jump { label } => places.find(label).unwrap_or(0),
        Instr::Call { name } => places.find(name).unwrap_or(0),
        _ => 0,
    }
}

// Adds the entry of a line, if it is an instruction.
fn add_entry(
    table: &mut Vec<Placed>,
    places: &Placement,
    line: usize,
    code: &CodeLine,
) -> Result<(), NoMemory>
    ensures { OnOk result (table.new.items ≡ table.old.items ++ entry_of places.now line code.now) }
{
    match code {
        CodeLine::Label(_) => Ok(()),
        CodeLine::Op(instr) => {
            let label = label_of(places, instr);
            match table.push(Placed { line, label }) {
                Ok(()) => Ok(()),
                Err(_) => Err(NoMemory),
            }
        }
    }
}

/// The entries of all instructions, in order; `places` are the addresses of the labels.
pub fn table_of(
    alloc: Global,
    lines: &[CodeLine],
    places: &Placement,
) -> Result<Vec<Placed>, NoMemory>
    ensures { IfOk result (λ t. t.items ≡ entries_of places.now 0 lines.now) }
{
    let mut table = Vec::new(alloc);
    let mut rest = lines;
    let mut number = 0;
    while let [line, after @ ..] = rest {
        add_entry(&mut table, places, number, line)?;
        number += 1;
        rest = after;
    }
    Ok(table)
}

/// The entry of an address.
pub fn entry_of_place(table: &[Placed], place: u64) -> Option<Placed>
    ensures entry { result ≡ entry_at table.now place }
    ensures bound { OnSome result (place < code_start + length table.now) }
{
    let first = u64::from(CODE_START);
    if place < first {
        return None;
    }
    table.get((place - first) as usize).copied()
}

/// The instruction of a line.
pub fn instr_of_line<'a>(asm: &'a Asm, line: usize) -> Option<&'a Instr>
    ensures { MatchOption result ((i : InstrMeaning) → slice_get asm.now.code line ≡ Some (code.Op i) → ⊥) (λ i. slice_get asm.now.code line ≡ Some (code.Op i.now)) }
{
    match asm.parts().code.as_slice().get(line) {
        Some(CodeLine::Op(instr)) => Some(instr),
        Some(CodeLine::Label(_)) => None,
        None => None,
    }
}

/// How many words each external takes, by its name; the first where a name stands twice.
pub fn words_by_name(
    alloc: Global,
    externs: &[(Name, u32)],
) -> Result<IndexMap<Name, u32>, NoMemory>
    ensures { IfOk result (λ words. Knows words externs.now) }
{
    let mut words = IndexMap::new(alloc);
    let mut left = externs.len();
    while left > 0 {
        left -= 1;
        let (name, count) = &externs[left];
        words
            .insert(name.clone()?, *count)
            .map_err(AllocError::from)?;
    }
    Ok(words)
}
