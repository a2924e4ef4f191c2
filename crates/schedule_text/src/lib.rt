//! Schedules and replays: the text of a schedule, how a schedule is played on a machine, and what
//! a replay prints.
//!
//! `read_schedule` answers exactly what `specs/Schedules.antt` says of a text.
#![tactic(auto)]

pub mod laws;
mod line;
mod number;
pub mod played;
pub mod playing;
mod printing;
mod reading;
pub mod schedule;
mod split;

pub use played::{End, Replay, ReplayRefusal};
pub use playing::{Replayed, replay};
pub use printing::{print_not_a_run, print_replay};
pub use reading::read_schedule;
pub use schedule::{Directive, Line, Schedule, ScheduleRefusal};

#[cfg(test)]
mod tests;
#[cfg(test)]
mod toy;
