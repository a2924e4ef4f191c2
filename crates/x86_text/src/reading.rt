//! The assembly of a text.
ghost use Rattle.std.specs.Prelude.{◌≡◌, IfErr, IfOk, ℕ};
ghost use Rattle.x86_lang.specs.Whole.{IsWhole};
ghost use Rattle.x86_lang.specs.declared.assembly.Parts.{Parts};
ghost use Rattle.x86_text.specs.Bad.{IsBadText};
ghost use Rattle.x86_text.specs.Judging.{IsOutcomeOf};
ghost use Rattle.x86_text.specs.Reading.{IsRefused, ReadsAs, RefusesAt};
ghost use Rattle.x86_text.specs.Printed.{printed};
ghost use Rattle.x86_text.specs.Text.{AsmOf};

use crate::assembling::{Outcome, outcome_of};
use crate::naming::names_of;
use std::alloc::Global;
use thiserror::Error;
use tso_words::NoMemory;
use x86_lang::Asm;

/// Why a text was not read as an assembly.
#[derive(Clone, Copy, PartialEq, Eq, Debug, Error)]
pub enum ReadAsmRefusal {
    /// The first bad line, counted from 1; the line behind the last where no label of code is
    /// `main`.
    #[error("bad text: line {line}")]
    BadText { line: u64 },
    /// The allocator had no memory.
    #[error("no memory")]
    NoMemory,
}

// The parts that a text says, or its first bad line: the names that its lines make first, then
// line by line.
fn outcome(alloc: Global, text: &[u8]) -> Result<Outcome, NoMemory>
    ensures { IfOk result (λ outcome. IsOutcomeOf text.now outcome) }
{
    let table = names_of(alloc, text)?;
    outcome_of(alloc, &table, text)
}

/// The assembly of a text, or the text's first bad line. The printed form of an assembly is read
/// back to that assembly.
pub fn read_asm(alloc: Global, text: &[u8]) -> Result<Asm, ReadAsmRefusal>
    ensures asm { IfOk result (λ a. AsmOf text.now a) }
    ensures refused { IfErr result (λ refusal. IsRefused text.now refusal) }
    ensures reads { (a : Parts) → AsmOf text.now a → ReadsAs a result }
    ensures refuses { (n : ℕ) → IsBadText text.now n → RefusesAt n result }
    ensures printed { (a : Parts) → IsWhole a → text.now ≡ printed a → ReadsAs a result }
{
    match outcome(alloc, text) {
        Ok(Outcome::Whole(parts)) => Ok(Asm::made(parts)),
        Ok(Outcome::BadLine(line)) => Err(ReadAsmRefusal::BadText { line }),
        Err(NoMemory) => Err(ReadAsmRefusal::NoMemory),
    }
}
