//! An assembly with the table by which it is run.

use crate::table::{Placed, entry_of_place, instr_of_line, table_of, words_by_name};
use indexmap::IndexMap;
use std::alloc::Global;
use std::marker::Model;
use tso_core::placement::Placement;
use tso_words::{Name, NoMemory};
use x86_lang::Asm;
use x86_lang::placing::{CODE_START, data_size};
use x86_table::instruction::Instr;

/// An assembly with its table. Contracts see it as the parts of the assembly.
#[derive(Drop)]
pub struct Program<'a> {
    asm: &'a Asm,
    table: Vec<Placed>,
    /// How many words each external takes.
    words: IndexMap<Name, u32>,
    /// The bytes of the data.
    bytes: u32,
}

impl<'a> Model for Program<'a> {
    ghost use Rattle.x86_lang.specs.declared.assembly.Parts.{Parts};
    ghost use Rattle.x86_machine.specs.Programs.{IsProgram};

    ghost Value = { Parts };

    ghost view = { λ p. p.asm.now };

    ghost invariant = { λ p. IsProgram p.asm.now p.table.items p.words p.bytes };
}

impl<'a> Program<'a> {
    ghost use Rattle.std.specs.Prelude.{◌≡◌, IfOk, Some, None, MatchOption, OnSome, ⊤, length, ◌+◌, ◌<◌, ◌^◌, ◌≤◌};
    ghost use Rattle.std.specs.Bool.{OnTrue};
    ghost use Rattle.x86_lang.specs.Assembly.{assembly_of, labels_of, bytes_from, data_start, heap_start};
    ghost use Rattle.x86_machine.specs.Target.{instruction_at, is_code, label_of as label_in, words_of};

    /// An assembly with its table; `places` are the addresses of its labels.
    pub fn made(alloc: Global, asm: &'a Asm, places: &Placement) -> Result<Program<'a>, NoMemory>
        requires { places.now ≡ labels_of asm.now }
        ensures { IfOk result (λ p. p ≡ asm.now) }
    {
        let table = table_of(alloc, asm.parts().code.as_slice(), places)?;
        let words = words_by_name(alloc, asm.parts().externs.as_slice())?;
        Ok(Program {
            asm,
            table,
            words,
            bytes: data_size(asm),
        })
    }

    /// The number of bytes of the data.
    pub fn bytes(&self) -> u32
        ensures value { result ≡ length (bytes_from data_start self.now.statics) }
        ensures fits { data_start + result ≤ heap_start }
    {
        self.bytes
    }

    /// The instruction at an address, with the address of its name.
    pub fn at(&self, place: u64) -> Option<(&'a Instr, u32)>
        ensures there { MatchOption result (instruction_at (assembly_of self.now) place ≡ None) (λ r. instruction_at (assembly_of self.now) place ≡ Some r.0.now) }
        ensures room { OnSome result (place + 1 < 2 ^ 32) }
        ensures label { MatchOption result ⊤ (λ r. r.1 ≡ label_in (assembly_of self.now) r.0.now) }
    {
        match entry_of_place(&self.table, place) {
            None => None,
            Some(placed) => match instr_of_line(self.asm, placed.line) {
                Some(instr) => Some((instr, placed.label)),
                None => None,
            },
        }
    }

    /// Whether an instruction stands at an address.
    pub fn is_code(&self, place: u64) -> bool
        ensures value { result ≡ is_code (assembly_of self.now) place }
        ensures fits { OnTrue result (place + 1 < 2 ^ 32) }
    {
        match self.at(place) {
            Some(_) => true,
            None => false,
        }
    }

    /// How many words an external takes, where the name is that of one.
    pub fn words_of(&self, name: &Name) -> Option<u32>
        ensures { result ≡ words_of (assembly_of self.now).externs name.now }
    {
        self.words.get(name).copied()
    }
}
