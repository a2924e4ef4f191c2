//! How machines end.

ghost use Rattle.std.specs.Prelude.{◌≡◌};
ghost use Rattle.clight_run.specs.Source.{end_with};

use schedule_text::End;
use tso_core::offer::Now;

/// What a replay tells of a machine's end.
pub fn end_with(now: Now) -> End
    ensures { result ≡ end_with now }
{
    match now {
        Now::Running => End::Running,
        Now::Exited => End::Exited,
        Now::Wrong => End::Wrong,
        Now::NoHeap => End::NoHeap,
    }
}
