//! A small thread language of scripts, in which each step of the machine over thread languages is
//! tried.
#![tactic(auto)]

pub mod opened;
pub mod script;
#[cfg(test)]
mod tests;
