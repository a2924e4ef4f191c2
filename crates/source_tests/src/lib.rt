//! Rows of the command `source`: a C file, a schedule, the status and the lines that are printed. Expected values
//! are worked out by hand from the rules of the language and the machine, and agree with a second reading of them.
//! The rows stand in a crate of their own so that the top call, whose proofs are long, is proved once and not a
//! second time with them.
#![tactic(auto)]

#[cfg(test)]
mod counts;
#[cfg(test)]
mod faults;
#[cfg(test)]
mod memory;
#[cfg(test)]
mod refused;
#[cfg(test)]
mod replayed;
#[cfg(test)]
mod schedules;
#[cfg(test)]
mod statements;
#[cfg(test)]
mod threads;
#[cfg(test)]
mod wrong_runs;
