//! Replays of schedules on programs of ClightTSO.
//!
//! `replay_source` plays a schedule on the machine of a program, from its beginning at the default
//! placement; `specs/Source.antt` says which replay that is, and `laws` that there is one.
#![tactic(auto)]

mod ends;
pub mod laws;
mod replaying;
mod source;

pub use replaying::replay_source;

#[cfg(test)]
mod tests;
