// From the bytes of a C file to its program.
ghost use Rattle.std.specs.Prelude.{◌≤◌, length};
ghost use Rattle.clight_front.specs.Fronts.{Fronts};

use c_reader::{ReadFileRefusal, read_file};
use clight_lang::Program;
use clight_programs::{CheckRefusal, check};
use clight_types::Fault;
use std::alloc::Global;
use thiserror::Error;

/// Why the bytes of a file have no program; `at` is a byte of the file, counted from 0.
#[derive(Clone, Copy, PartialEq, Eq, Debug, Error)]
pub enum FrontRefusal {
    /// The file is not of the grammar: no file goes on at this byte as it does.
    #[error("syntax: byte {at}")]
    Syntax { at: u32 },
    /// The token at this byte nests too deep.
    #[error("too deep: byte {at}")]
    TooDeep { at: u32 },
    /// The file breaks this rule of types at this byte: the first that it breaks, in its order.
    #[error("types: rule {rule}, byte {at}")]
    Types { rule: u8, at: u32 },
    /// The file breaks no rule, but passes this count at this byte: the first that it passes.
    #[error("too large: count {count}, byte {at}")]
    TooLarge { count: u8, at: u32 },
    #[error("no memory")]
    NoMemory,
}

impl From<ReadFileRefusal> for FrontRefusal {
    ghost use Rattle.std.specs.Prelude.{◌≡◌};
    ghost use Rattle.clight_front.specs.Refusals.{unread};

    ghost from_gives = { λ x r. r ≡ unread x };

    fn from(refusal: ReadFileRefusal) -> FrontRefusal {
        match refusal {
            ReadFileRefusal::Syntax { at } => FrontRefusal::Syntax { at },
            ReadFileRefusal::TooDeep { at } => FrontRefusal::TooDeep { at },
            ReadFileRefusal::NoMemory => FrontRefusal::NoMemory,
        }
    }
}

impl From<CheckRefusal> for FrontRefusal {
    ghost use Rattle.std.specs.Prelude.{◌≡◌};
    ghost use Rattle.clight_front.specs.Refusals.{unchecked};

    ghost from_gives = { λ x r. r ≡ unchecked x };

    fn from(refusal: CheckRefusal) -> FrontRefusal {
        match refusal {
            CheckRefusal::Faulty(Fault { rule, at }) => FrontRefusal::Types {
                rule: rule.number(),
                at,
            },
            CheckRefusal::Passed { count, at } => FrontRefusal::TooLarge {
                count: count.number(),
                at,
            },
            CheckRefusal::NoMemory => FrontRefusal::NoMemory,
        }
    }
}

/// The program of the bytes of a C file of at most 4,194,304 bytes.
///
/// # Errors
///
/// Exactly one of the four causes for which bytes have no program, with its place; or `NoMemory`.
pub fn front(alloc: Global, bytes: &[u8]) -> Result<Program, FrontRefusal>
    requires { length bytes.now ≤ 4194304 }
    ensures { Fronts bytes.now result }
{
    let file = read_file(alloc, bytes)?;
    let program = check(alloc, bytes.len() as u32, &file)?;
    Ok(program)
}
