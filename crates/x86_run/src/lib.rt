//! Replays of schedules on assemblies.
//!
//! `replay_target` plays a schedule on the x86-TSO machine of an assembly, from its beginning;
//! `specs/Target.antt` says which replay that is, and `laws` that there is one.
#![tactic(auto)]

mod ends;
pub mod laws;
mod replaying;
mod target;
#[cfg(test)]
mod tests;

pub use replaying::replay_target;
