//! What holds of replays of programs.

ghost use Rattle.schedule_text.specs.Laws.{IsFunctional};
ghost use Rattle.clight_run.specs.Laws.{HaveOneReplay, ReplaysAreRuns};
ghost use Rattle.clight_run.specs.Source.{SourceGives};

/// A step of a schedule gives one thing at a state, so a schedule has one replay on a program.
pub const fn source_replays_are_unique()
    ensures one_step { IsFunctional SourceGives }
    ensures one_replay { HaveOneReplay }
{}

/// A replay is that of a run of the program's machine: its events, its count and its end.
pub const fn source_replays_are_runs()
    ensures { ReplaysAreRuns }
{}
