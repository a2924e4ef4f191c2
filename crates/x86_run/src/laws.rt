//! What holds of replays of assemblies.

ghost use Rattle.schedule_text.specs.Laws.{IsFunctional};
ghost use Rattle.x86_run.specs.Laws.{HaveOneReplay, ReplaysAreRuns};
ghost use Rattle.x86_run.specs.Target.{TargetGives};

/// A step of a schedule gives one thing at a state, so a schedule has one replay on an assembly.
pub const fn target_replays_are_unique()
    ensures one_step { IsFunctional TargetGives }
    ensures one_replay { HaveOneReplay }
{}

/// A replay is that of a run of the assembly's machine: its events, its count and its end.
pub const fn target_replays_are_runs()
    ensures { ReplaysAreRuns }
{}
