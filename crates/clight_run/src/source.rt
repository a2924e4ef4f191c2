//! The machine of a program as a replay sees it.

ghost use Rattle.std.specs.Prelude.{◌≡◌};
ghost use Rattle.clight_lang.specs.State.{state_of};
ghost use Rattle.tso_machine.specs.Machines.{machine_state};

use crate::ends::end_with;
use clight_lang::Clight;
use schedule_text::{End, Replayed};
use tso_core::offer::{Now, StepRefusal};
use tso_core::{Event, Step};
use tso_machine::Machine;

/// A program on its machine, and whether the machine runs.
pub struct Source<'a> {
    pub machine: Machine<'a, Clight>,
    pub now: Now,
    ghost told: { now ≡ (machine_state state_of machine).shared.now },
}

impl<'a> Drop for Source<'a> {
    fn drop(self) {
        let Source { machine: _, now: _ } = self;
    }
}

impl<'a> Replayed for Source<'a> {
    ghost use Rattle.clight_run.specs.Source.{Source as SourceOf, SourceGives, end_of_source};
    ghost use Rattle.clight_run.specs.Standing.{source_of};

    ghost State = { SourceOf };

    ghost state_of = { source_of };

    ghost steps = { SourceGives };

    ghost end_of = { end_of_source };

    ghost is_ready = { λ s. Unit {0} };

    fn step(&mut self, s: &Step) -> Result<Option<Event>, StepRefusal> {
        let out = self.machine.step(s)?;
        self.now = out.now;
        Ok(out.event)
    }

    fn end(&self) -> End {
        end_with(self.now)
    }
}
