//! What a line says.

use tso_words::Name;
use x86_lang::StaticLine;
use x86_table::instruction::Instr;

/// A line of a text.
#[derive(Drop)]
pub enum Line {
    /// blanks or a comment
    Nothing,
    /// `# pace 5`
    Pace(u128),
    /// `# extern NAME 5`
    Extern(Name, u32),
    /// `.text`
    Text,
    /// `.data`
    Data,
    /// `.globl NAME`
    Export(Name),
    /// `NAME:`
    Label(Name),
    /// a directive of data
    Datum(StaticLine),
    Op(Instr),
}
