//! The addresses of the labels of an assembly.
ghost use Rattle.std.specs.Prelude.{◌≡◌, [], ◌∷◌, ◌++◌, ◌+◌, ◌≤◌, IfOk, OnOk};
ghost use Rattle.x86_lang.specs.Assembly.{
  code_end,
  code_label,
  code_labels,
  code_size,
  code_start,
  data_end,
  data_label,
  data_labels,
  data_start,
  heap_start,
  labels_of,
  size_at,
};
ghost use Rattle.x86_lang.specs.Whole.{IsAlignment};
ghost use Rattle.x86_table.specs.Names.{AllOf};

use crate::assembly::{Asm, CodeLine, Parts, StaticLine};
use std::alloc::Global;
use tso_core::placement::Placement;
use tso_words::{Name, NoMemory};

/// The address of the first instruction.
pub const CODE_START: u32 = 0x0800_0000;

/// The address of the first byte of the data.
pub const DATA_START: u32 = 0x2000_0000;

/// The address behind the last byte that the data may have.
pub const HEAP_START: u32 = 0x3000_0000;

// Adds a name with its address.
fn add(places: &mut Vec<(Name, u32)>, name: &Name, at: u32) -> Result<(), NoMemory>
    ensures { OnOk result (places.new.items ≡ places.old.items ++ (name.now, at) ∷ []) }
{
    let name = name.clone()?;
    match places.push((name, at)) {
        Ok(()) => Ok(()),
        Err(_) => Err(NoMemory),
    }
}

// The addresses that a line takes.
fn code_size(line: &CodeLine) -> u32
    ensures { result ≡ code_size line.now }
{
    match line {
        CodeLine::Label(_) => 0,
        CodeLine::Op(_) => 1,
    }
}

/// The number of bytes of a line of data that begins at this address.
pub fn size_at(at: u32, line: &StaticLine) -> u32
    requires { IsAlignment line.now }
    ensures { result ≡ size_at at line.now }
{
    match line {
        StaticLine::Label(_) => 0,
        StaticLine::Byte(_) => 1,
        StaticLine::Short(_) => 2,
        StaticLine::Long(_) => 4,
        StaticLine::Zero(n) => *n,
        StaticLine::Balign(n) => (*n - at % *n) % *n,
    }
}

// Adds the label of a line of code, if it is one.
fn add_code_label(places: &mut Vec<(Name, u32)>, at: u32, line: &CodeLine) -> Result<(), NoMemory>
    ensures { OnOk result (places.new.items ≡ places.old.items ++ code_label at line.now) }
{
    match line {
        CodeLine::Label(name) => add(places, name, at),
        CodeLine::Op(_) => Ok(()),
    }
}

// Adds the label of a line of data, if it is one.
fn add_data_label(places: &mut Vec<(Name, u32)>, at: u32, line: &StaticLine) -> Result<(), NoMemory>
    ensures { OnOk result (places.new.items ≡ places.old.items ++ data_label at line.now) }
{
    match line {
        StaticLine::Label(name) => add(places, name, at),
        _ => Ok(()),
    }
}

// Adds the labels of code.
fn add_code_labels(places: &mut Vec<(Name, u32)>, lines: &[CodeLine]) -> Result<(), NoMemory>
    requires { code_end code_start lines.now ≤ data_start }
    ensures { OnOk result (places.new.items ≡ places.old.items ++ code_labels code_start lines.now) }
{
    let mut at = CODE_START;
    let mut rest = lines;
    while let [line, after @ ..] = rest {
        add_code_label(places, at, line)?;
        at += code_size(line);
        rest = after;
    }
    Ok(())
}

// Adds the labels of data.
fn add_data_labels(places: &mut Vec<(Name, u32)>, lines: &[StaticLine]) -> Result<(), NoMemory>
    requires ends { data_end data_start lines.now ≤ heap_start }
    requires aligned { AllOf IsAlignment lines.now }
    ensures { OnOk result (places.new.items ≡ places.old.items ++ data_labels data_start lines.now) }
{
    let mut at = DATA_START;
    let mut rest = lines;
    while let [line, after @ ..] = rest {
        add_data_label(places, at, line)?;
        at += size_at(at, line);
        rest = after;
    }
    Ok(())
}

// The labels of these parts with their addresses.
fn labels_of(alloc: Global, parts: &Parts) -> Result<Vec<(Name, u32)>, NoMemory>
    requires code { code_end code_start parts.now.code ≤ data_start }
    requires ends { data_end data_start parts.now.statics ≤ heap_start }
    requires aligned { AllOf IsAlignment parts.now.statics }
    ensures { IfOk result (λ places. places.items ≡ labels_of parts.now) }
{
    let mut places = Vec::new(alloc);
    add_code_labels(&mut places, parts.code.as_slice())?;
    add_data_labels(&mut places, parts.statics.as_slice())?;
    Ok(places)
}

// Where lines of data end, the first of which begins where the data does.
fn data_end(lines: &[StaticLine]) -> u32
    requires ends { data_end data_start lines.now ≤ heap_start }
    requires aligned { AllOf IsAlignment lines.now }
    ensures value { result ≡ data_end data_start lines.now }
    ensures behind { data_start ≤ result }
{
    let mut at = DATA_START;
    let mut rest = lines;
    while let [line, after @ ..] = rest {
        at += size_at(at, line);
        rest = after;
    }
    at
}

/// The number of bytes of the data.
pub fn data_size(a: &Asm) -> u32
    ensures size { data_start + result ≡ data_end data_start a.now.statics }
    ensures fits { data_start + result ≤ heap_start }
{
    data_end(a.parts().statics.as_slice()) - DATA_START
}

/// Where the labels stand: a label of code at the instruction that follows it, instruction i at
/// 0x08000000 + i; a label of data at the byte that follows it, from 0x20000000 on.
pub fn placement_of(alloc: Global, a: &Asm) -> Result<Placement, NoMemory>
    ensures { IfOk result (λ p. p ≡ labels_of a.now) }
{
    let places = labels_of(alloc, a.parts())?;
    Placement::made(alloc, places)
}
