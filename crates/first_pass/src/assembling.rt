//! From a program to its assembly.
ghost use Rattle.std.specs.Prelude.{◌≡◌, IfOk};
ghost use Rattle.tso_core.specs.Machine.{machine, open_machine};
ghost use Rattle.tso_core.specs.Refinement.{Refines};
ghost use Rattle.clight_lang.specs.Meaning.{language, open_language, program_of};
ghost use Rattle.clight_lang.specs.MainAlone.{returned};
ghost use Rattle.x86_lang.specs.Assembly.{assembly_of};
ghost use Rattle.x86_machine.specs.X86Tso.{x86_machine, x86_system};
ghost use Rattle.first_pass.specs.Assembled.{parts_returning, returning};
ghost use Rattle.first_pass.specs.Stages.{Stands, number_of};
ghost use Rattle.first_pass.specs.Tied.{ReturnPair, returned_tied};

use clight_lang::Program;
use sqlite_items::Items;
use std::alloc::Global;
use tso_core::laws::{MachineTie, tie_refines};
use tso_words::{Name, NoMemory};
use x86_lang::{Asm, CodeLine, Parts};
use x86_table::instruction::Instr;
use x86_table::register::Register;

/// The tie of a program with its two instructions.
pub struct ReturnTie;

impl MachineTie for ReturnTie {
    type Source = Program;

    type Target = Asm;

    ghost source = { λ p. open_machine (open_language (program_of p)) };

    ghost target = { λ asm. x86_system (assembly_of asm) };

    ghost IsPair = { λ p asm. ReturnPair (program_of p) (assembly_of asm) };

    ghost related = { λ p asm s t owed. Stands (number_of (program_of p)) s t owed };

    ghost bound = { 1 };

    ghost tied = { λ p asm pair. returned_tied (program_of p) (assembly_of asm) pair };
}

// The lines of main.
fn code_returning(alloc: Global, number: u32) -> Result<Items<CodeLine>, NoMemory>
    ensures { IfOk result (λ code. code ≡ (parts_returning number).code) }
{
    let mut code = Items::new(alloc);
    code.push(CodeLine::Label(Name::made(alloc, b"main")?))?;
    code.push(CodeLine::Op(Instr::MoveNumber {
        number,
        to: Register::Eax,
    }))?;
    code.push(CodeLine::Op(Instr::Return))?;
    Ok(code)
}

// All its parts: main is exported, and there is no data.
fn parts_returning(alloc: Global, number: u32) -> Result<Parts, NoMemory>
    ensures { IfOk result (λ parts. parts ≡ parts_returning number) }
{
    let mut exports = Items::new(alloc);
    exports.push(Name::made(alloc, b"main")?)?;
    Ok(Parts {
        pace: 1,
        externs: Items::new(alloc),
        exports,
        code: code_returning(alloc, number)?,
        statics: Items::new(alloc),
    })
}

/// The assembly of a program that returns a number: the number is moved into EAX, and returned.
pub fn assembly(alloc: Global, program: &Program, number: u32) -> Result<Asm, NoMemory>
    requires { program_of program.now ≡ returned number }
    ensures parts { IfOk result (λ asm. asm ≡ parts_returning number) }
    ensures code { IfOk result (λ asm. assembly_of asm ≡ returning number) }
    ensures refines { IfOk result (λ asm. Refines (machine (language (program_of program.now))) (x86_machine (assembly_of asm)) 1) }
{
    let asm = Asm::made(parts_returning(alloc, number)?);
    tie_refines::<ReturnTie>(program, &asm);
    Ok(asm)
}
