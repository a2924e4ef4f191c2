//! What holds of the definitions of schedules and replays.
ghost use Rattle.std.specs.Prelude.{◌≡◌, ℕ, List, Option, Result};
ghost use Rattle.schedule_text.specs.declared.schedule.Line.{Line as LineOf};
ghost use Rattle.schedule_text.specs.declared.played.Replay.{Replay as ReplayOf};
ghost use Rattle.schedule_text.specs.declared.played.ReplayRefusal.{ReplayRefusal as RefusalOf};
ghost use Rattle.schedule_text.specs.Schedules.{IsFirstBad, ScheduleOf};
ghost use Rattle.schedule_text.specs.Laws.{IsFunctional, IsRead, SameAnswer};
ghost use Rattle.schedule_text.specs.Plays.{Replays};

use crate::playing::Replayed;

/// Each text has a schedule or a first bad line, not both, and no second one.
pub const fn texts_are_read_in_one_way()
    ensures read { (bytes : List ℕ) → IsRead bytes }
    ensures one_schedule { (bytes : List ℕ) (lines others : List LineOf) → ScheduleOf bytes lines → ScheduleOf bytes others → lines ≡ others }
    ensures one_bad_line { (bytes : List ℕ) (number other : ℕ) → IsFirstBad bytes number → IsFirstBad bytes other → number ≡ other }
    ensures not_both { (bytes : List ℕ) (lines : List LineOf) (number : ℕ) → ScheduleOf bytes lines → IsFirstBad bytes number → ⊥ }
{}

/// On a machine whose steps give one thing each, a schedule has one replay.
pub const fn replays_are_unique<M: Replayed>()
    ensures { IsFunctional M.steps → (lines : List LineOf) (s end other : M.State) (a b : Result ReplayOf RefusalOf) → Replays M.steps M.end_of lines s end a → Replays M.steps M.end_of lines s other b → SameAnswer a b }
{}
