//! The state in which the machine opens.
ghost use Rattle.std.specs.Prelude.{◌≡◌, IfOk, codes};
ghost use Rattle.tso_core.specs.Placing.{base_of};
ghost use Rattle.x86_lang.specs.Assembly.{assembly_of};
ghost use Rattle.x86_machine.specs.Kept.{state_of};
ghost use Rattle.x86_machine.specs.Target.{stacks_start};
ghost use Rattle.x86_machine.specs.X86Tso.{begun, unthreaded};

use crate::address_map::STACKS_START;
use crate::data::data_memory;
use crate::now::X86Now;
use crate::target::Target;
use std::alloc::Global;
use tso_core::placement::Placement;
use tso_words::{Name, NoMemory};
use x86_lang::Asm;

/// The address of main.
pub fn main_of(alloc: Global, places: &Placement) -> Result<u32, NoMemory>
    ensures { IfOk result (λ at. at ≡ base_of places.now (codes "main")) }
{
    let main = Name::made(alloc, b"main")?;
    Ok(places.find(&main).unwrap_or(0))
}

/// The data in memory, and one thread that begins at an address.
pub fn opened(alloc: Global, asm: &Asm, main: u32) -> Result<Target, NoMemory>
    ensures { IfOk result (λ m. state_of m ≡ begun (unthreaded (assembly_of asm.now)) main 0 stacks_start) }
{
    let mut target = Target {
        status: X86Now::Running,
        memory: data_memory(alloc, asm)?,
        blocks: Vec::new(alloc),
        threads: Vec::new(alloc),
    };
    target.begin(alloc, main, 0, STACKS_START)?;
    Ok(target)
}
