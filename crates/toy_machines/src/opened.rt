//! Programs on their machines, with their names in one place.

ghost use Rattle.std.specs.Prelude.{◌≡◌, ◌∷◌, [], IfOk};
ghost use Rattle.toy_machines.specs.Meaning.{language};
ghost use Rattle.toy_machines.specs.Placed.{x_placed};
ghost use Rattle.tso_core.specs.Machine.{open_machine};
ghost use Rattle.tso_machine.specs.Machines.{machine_state};

use crate::script::{Script, Scripts};
use std::alloc::Global;
use tso_core::placement::Placement;
use tso_machine::Machine;
use tso_words::{Name, NoMemory};

/// One name at an address.
fn one_name(alloc: Global, name: Name, addr: u32) -> Result<Placement, NoMemory>
    ensures { IfOk result (λ at. at ≡ (name, addr) ∷ []) }
{
    let mut list = Vec::new(alloc);
    match list.push((name, addr)) {
        Ok(()) => Placement::made(alloc, list),
        Err(_) => Err(NoMemory),
    }
}

/// The global of scripts at the first address of data.
fn x_placed(alloc: Global) -> Result<Placement, NoMemory>
    ensures { IfOk result (λ at. at ≡ x_placed) }
{
    let name = Name::made(alloc, b"x")?;
    one_name(alloc, name, 0x2000_0000)
}

/// A script on its machine, as it opens.
pub fn script_machine(alloc: Global, script: &Script) -> Result<Machine<'_, Scripts>, NoMemory>
    ensures { IfOk result (λ m. machine_state (λ t. t) m ≡ (open_machine (language script.now)).opening x_placed) }
{
    let at = x_placed(alloc)?;
    Machine::made(alloc, script, at)
}
