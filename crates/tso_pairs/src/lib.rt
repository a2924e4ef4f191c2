//! What the passes that relate two machines state by state have in common: buffers that are related
//! group by group, drains of one buffer one after another, and simulations of threads in which the
//! first program lags behind. All of it is laws: nothing here runs.
#![tactic(auto)]

pub mod laws;
