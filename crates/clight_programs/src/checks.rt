//! The check of a file: its program, or why it has none.

ghost use Rattle.c_tree.specs.FileShape.{file_of};
ghost use Rattle.c_shapes.specs.Shaped.{IsShaped};
ghost use Rattle.clight_programs.specs.Answers.{Checks};

use crate::programs::program_meant;
use c_tree::File;
use clight_counts::{Count, Excess, Passed, counts_kept};
use clight_files::files::file_judged;
use clight_lang::Program;
use clight_types::{Fault, Refusal};
use std::alloc::Global;
use tso_words::NoMemory;

/// Why a file has no program.
#[derive(Clone, Copy, PartialEq, Eq, Debug)]
pub enum CheckRefusal {
    /// The first rule that it breaks.
    Faulty(Fault),
    /// It breaks no rule, and this is the first count that it passes, with the byte at which it does.
    Passed { count: Count, at: u32 },
    NoMemory,
}

impl From<NoMemory> for CheckRefusal {
    ghost use Rattle.std.specs.Prelude.{◌≡◌};
    ghost use Rattle.clight_programs.specs.declared.checks.CheckRefusal.{CheckRefusal};

    ghost from_gives = { λ _ r. r ≡ CheckRefusal.NoMemory };

    fn from(_: NoMemory) -> CheckRefusal {
        CheckRefusal::NoMemory
    }
}

impl From<Refusal> for CheckRefusal {
    ghost use Rattle.std.specs.Prelude.{◌≡◌};
    ghost use Rattle.clight_programs.specs.Refusals.{fault_refused};

    ghost from_gives = { λ x r. r ≡ fault_refused x };

    fn from(refusal: Refusal) -> CheckRefusal {
        match refusal {
            Refusal::Faulty(fault) => CheckRefusal::Faulty(fault),
            Refusal::NoMemory => CheckRefusal::NoMemory,
        }
    }
}

impl From<Excess> for CheckRefusal {
    ghost use Rattle.std.specs.Prelude.{◌≡◌};
    ghost use Rattle.clight_programs.specs.Refusals.{count_refused};

    ghost from_gives = { λ x r. r ≡ count_refused x };

    fn from(excess: Excess) -> CheckRefusal {
        match excess {
            Excess::Passed(Passed { count, at }) => CheckRefusal::Passed { count, at },
            Excess::NoMemory => CheckRefusal::NoMemory,
        }
    }
}

/// The program of a file of a length in bytes.
///
/// # Errors
///
/// The first fault of the file, in its order; where it has none, the first count that it passes; or
/// `NoMemory`.
pub fn check(alloc: Global, length: u32, file: &File) -> Result<Program, CheckRefusal>
    requires { IsShaped (file_of file.now) }
    ensures { Checks length (file_of file.now) result }
{
    let made = file_judged(alloc, length, file)?;
    let sizes = counts_kept(alloc, length, file, &made)?;
    let program = program_meant(alloc, &made, &sizes)?;
    Ok(program)
}
