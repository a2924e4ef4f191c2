//! An assembly as data.
ghost use Rattle.std.specs.Prelude.{◌≡◌};

use sqlite_items::Items;
use std::marker::Model;
use tso_words::Name;
use x86_table::instruction::Instr;

/// A line of the section `.text` that is kept.
#[derive(Drop)]
pub enum CodeLine {
    /// `NAME:`
    Label(Name),
    Op(Instr),
}

/// A line of the section `.data` that is kept. A number is taken modulo its width.
#[derive(Drop)]
pub enum StaticLine {
    /// `NAME:`
    Label(Name),
    /// `.byte 5`
    Byte(u8),
    /// `.short 5`
    Short(u16),
    /// `.long 5`
    Long(u32),
    /// `.zero 5`: so many bytes that are 0
    Zero(u32),
    /// `.balign 4`: bytes that are 0, up to the next multiple
    Balign(u32),
}

/// The parts of an assembly, each in the order of its lines.
#[derive(Drop)]
pub struct Parts {
    /// The number of the line `# pace`: for each step of a thread of the source the text takes at
    /// most so many.
    pub pace: u128,
    /// The external functions, each with the number of words that it takes.
    pub externs: Items<(Name, u32)>,
    /// The names of the lines `.globl`.
    pub exports: Items<Name>,
    pub code: Items<CodeLine>,
    pub statics: Items<StaticLine>,
}

/// An assembly: parts that some text has.
#[derive(Drop)]
pub struct Asm {
    parts: Parts,
}

impl Model for Asm {
    ghost use Rattle.x86_lang.specs.declared.assembly.Parts.{Parts};
    ghost use Rattle.x86_lang.specs.Whole.{IsWhole};

    ghost Value = { Parts };

    ghost view = { λ a. a.parts };

    ghost invariant = { λ a. IsWhole a.parts };
}

impl Asm {
    ghost use Rattle.x86_lang.specs.Whole.{IsWhole};

    /// The assembly with these parts.
    pub fn made(parts: Parts) -> Asm
        requires { IsWhole parts }
        ensures { result ≡ parts }
    {
        Asm { parts }
    }

    /// Its parts.
    pub fn parts(&self) -> &Parts
        ensures same { result.now ≡ self.now }
        ensures whole { IsWhole result.now }
    {
        &self.parts
    }

    /// The parts that it was made of.
    pub fn into_parts(self) -> Parts
        ensures same { result ≡ self }
        ensures whole { IsWhole result }
    {
        let Asm { parts } = self;
        parts
    }
}
