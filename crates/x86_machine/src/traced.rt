//! The machine with its program, as the laws of refinement see it.
ghost use Rattle.x86_lang.specs.Assembly.{assembly_of};
ghost use Rattle.x86_machine.specs.X86Tso.{x86_machine};

use tso_core::traced::Traced;
use x86_lang::Asm;

/// The x86-TSO machine that runs assemblies, for the laws alone: `X86Machine` steps it.
pub struct X86Tso;

impl Traced for X86Tso {
    type Program = Asm;

    ghost system = { λ a. x86_machine (assembly_of a) };
}
