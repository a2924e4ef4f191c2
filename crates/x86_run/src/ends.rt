//! How machines end.

ghost use Rattle.std.specs.Prelude.{◌≡◌};
ghost use Rattle.x86_run.specs.Target.{end_with};

use schedule_text::End;
use x86_machine::now::X86Now;

/// What a replay tells of a machine's end.
pub fn end_with(now: X86Now) -> End
    ensures { result ≡ end_with now }
{
    match now {
        X86Now::Running => End::Running,
        X86Now::Exited => End::Exited,
        X86Now::Fault => End::Fault,
        X86Now::NoStack => End::NoStack,
        X86Now::NoHeap => End::NoHeap,
    }
}
