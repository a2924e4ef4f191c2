//! Memory as the machine opens it: the bytes of the data.
ghost use Rattle.std.specs.Prelude.{◌≡◌, ℕ, List, [], ◌∷◌, ◌++◌, ◌+◌, ◌≤◌, ◌<◌, ◌^◌, length, IfOk, OnOk};
ghost use Rattle.x86_lang.specs.Assembly.{bytes_at, bytes_from, data_start, data_end, heap_start, little_endian, size_at};
ghost use Rattle.x86_lang.specs.Whole.{IsAlignment};
ghost use Rattle.x86_memory.specs.Kept.{bytes_in};
ghost use Rattle.x86_table.specs.Names.{AllOf};
ghost use Rattle.x86_machine.specs.X86Tso.{data_bytes};

use std::alloc::Global;
use tso_words::NoMemory;
use x86_lang::placing::{DATA_START, size_at};
use x86_lang::{Asm, StaticLine};
use x86_memory::buffer::Write;
use x86_memory::memory::Memory;
use x86_steps::access::Size;

// Adds a byte behind the others.
fn add_byte(memory: &mut Memory, at: u32, byte: u32) -> Result<(), NoMemory>
    requires byte { byte < 256 }
    requires fits { at < heap_start }
    ensures { (before : List ℕ) → data_start + length before ≡ at → bytes_in memory.old ≡ data_bytes before → OnOk result (bytes_in memory.new ≡ data_bytes (before ++ byte ∷ [])) }
{
    memory.put(Write {
        address: at,
        size: Size::Byte,
        value: byte,
    })
}

// Adds the two bytes of a number behind the others, the lower first.
fn add_half(memory: &mut Memory, at: u32, half: u32) -> Result<(), NoMemory>
    requires half { half < 65536 }
    requires fits { at + 2 ≤ heap_start }
    ensures { (before : List ℕ) → data_start + length before ≡ at → bytes_in memory.old ≡ data_bytes before → OnOk result (bytes_in memory.new ≡ data_bytes (before ++ little_endian 2 half)) }
{
    add_byte(memory, at, half % 256)?;
    add_byte(memory, at + 1, half / 256)
}

// Adds the four bytes of a number behind the others, the lowest first.
fn add_word(memory: &mut Memory, at: u32, word: u32) -> Result<(), NoMemory>
    requires { at + 4 ≤ heap_start }
    ensures { (before : List ℕ) → data_start + length before ≡ at → bytes_in memory.old ≡ data_bytes before → OnOk result (bytes_in memory.new ≡ data_bytes (before ++ little_endian 4 word)) }
{
    add_half(memory, at, word % 65536)?;
    add_half(memory, at + 2, word / 65536)
}

// Adds the bytes of a line behind the others. Those that are 0 are there already.
fn add_line(memory: &mut Memory, at: u32, line: &StaticLine) -> Result<(), NoMemory>
    requires aligned { IsAlignment line.now }
    requires fits { at + size_at at line.now ≤ heap_start }
    ensures { (before : List ℕ) → data_start + length before ≡ at → bytes_in memory.old ≡ data_bytes before → OnOk result (bytes_in memory.new ≡ data_bytes (before ++ bytes_at at line.now)) }
{
    match line {
        StaticLine::Byte(number) => add_byte(memory, at, u32::from(*number)),
        StaticLine::Short(number) => add_half(memory, at, u32::from(*number)),
        StaticLine::Long(number) => add_word(memory, at, *number),
        StaticLine::Label(_) => Ok(()),
        StaticLine::Zero(_) => Ok(()),
        StaticLine::Balign(_) => Ok(()),
    }
}

// Adds the bytes of lines of data.
fn add_lines(memory: &mut Memory, lines: &[StaticLine]) -> Result<(), NoMemory>
    requires ends { data_end data_start lines.now ≤ heap_start }
    requires aligned { AllOf IsAlignment lines.now }
    requires empty { bytes_in memory.old ≡ data_bytes [] }
    ensures { OnOk result (bytes_in memory.new ≡ data_bytes (bytes_from data_start lines.now)) }
{
    let mut at = DATA_START;
    let mut rest = lines;
    while let [line, after @ ..] = rest {
        add_line(memory, at, line)?;
        at += size_at(at, line);
        rest = after;
    }
    Ok(())
}

/// Memory with the bytes of the data, and zeros elsewhere.
pub fn data_memory(alloc: Global, asm: &Asm) -> Result<Memory, NoMemory>
    ensures { IfOk result (λ m. bytes_in m ≡ data_bytes (bytes_from data_start asm.now.statics)) }
{
    let mut memory = Memory::new(alloc);
    add_lines(&mut memory, asm.parts().statics.as_slice())?;
    Ok(memory)
}
