//! The machine of an assembly as a replay sees it.

use crate::ends::end_with;
use schedule_text::{End, Replayed};
use tso_core::offer::StepRefusal;
use tso_core::{Event, Step};
use x86_machine::X86Machine;

/// An assembly on its machine.
#[derive(Drop)]
pub struct Target<'a> {
    pub machine: X86Machine<'a>,
}

impl<'a> Replayed for Target<'a> {
    ghost use Rattle.x86_run.specs.Target.{Target as TargetOf, TargetGives, end_of_target};
    ghost use Rattle.x86_run.specs.Standing.{target_of};

    ghost State = { TargetOf };

    ghost state_of = { target_of };

    ghost steps = { TargetGives };

    ghost end_of = { end_of_target };

    ghost is_ready = { λ s. Unit {0} };

    fn step(&mut self, s: &Step) -> Result<Option<Event>, StepRefusal> {
        let out = self.machine.step(s)?;
        Ok(out.event)
    }

    fn end(&self) -> End {
        end_with(self.machine.now())
    }
}
