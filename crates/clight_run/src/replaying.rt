//! Replays of programs from their beginning.

ghost use Rattle.std.specs.Prelude.{◌≡◌, IfOk};
ghost use Rattle.tso_core.specs.Stated.{globals_of};
ghost use Rattle.clight_lang.specs.Meaning.{program_of};
ghost use Rattle.clight_lang.specs.Placed.{AreWithin};
ghost use Rattle.clight_run.specs.Source.{IsReplayOf, opening_of};
ghost use Rattle.clight_run.specs.Standing.{source_of};

use crate::source::Source;
use clight_lang::{Program, default_placement};
use schedule_text::{Replay, ReplayRefusal, Schedule, replay};
use std::alloc::Global;
use tso_core::offer::Now;
use tso_machine::Machine;
use tso_words::NoMemory;

/// The machine of a program as it begins.
fn opened(alloc: Global, p: &Program) -> Result<Source<'_>, NoMemory>
    requires { AreWithin (globals_of p.now.globals) }
    ensures { IfOk result (λ source. source_of source ≡ opening_of (program_of p.now)) }
{
    let at = default_placement(alloc, p)?;
    let machine = Machine::made(alloc, p, at)?;
    Ok(Source {
        machine,
        now: Now::Running,
    })
}

/// Plays a schedule on a program, from its beginning with its names at their default places: its
/// replay, or the first line whose step is not enabled with the replay of the lines before it.
pub fn replay_source(alloc: Global, p: &Program, s: &Schedule) -> Result<Replay, ReplayRefusal>
    requires { AreWithin (globals_of p.now.globals) }
    ensures { IsReplayOf (program_of p.now) s.now.lines.items result }
{
    match opened(alloc, p) {
        Ok(mut source) => replay(alloc, &mut source, s),
        Err(_) => Err(ReplayRefusal::NoMemory),
    }
}
