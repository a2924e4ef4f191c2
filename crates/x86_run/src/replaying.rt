//! Replays of assemblies from their beginning.

ghost use Rattle.std.specs.Prelude.{◌≡◌};
ghost use Rattle.x86_lang.specs.Assembly.{assembly_of};
ghost use Rattle.x86_run.specs.Target.{IsReplayOf};

use crate::target::Target;
use schedule_text::{Replay, ReplayRefusal, Schedule, replay};
use std::alloc::Global;
use x86_lang::Asm;
use x86_machine::X86Machine;

/// Plays a schedule on an assembly, from its beginning: its replay, or the first line whose step is
/// not enabled with the replay of the lines before it.
pub fn replay_target(alloc: Global, a: &Asm, s: &Schedule) -> Result<Replay, ReplayRefusal>
    ensures { IsReplayOf (assembly_of a.now) s.now.lines.items result }
{
    match X86Machine::made(alloc, a) {
        Ok(machine) => replay(alloc, &mut Target { machine }, s),
        Err(_) => Err(ReplayRefusal::NoMemory),
    }
}
