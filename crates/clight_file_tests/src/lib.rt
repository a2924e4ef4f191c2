//! Files that `clight_programs` gives programs of, or refuses for a rule or a count, row by row. They
//! stand in a crate of their own so that the check, whose proofs are long, is proved once and not a
//! second time with its tests.
#![tactic(auto)]

#[cfg(test)]
mod accepted;
#[cfg(test)]
mod answers;
#[cfg(test)]
mod counts;
#[cfg(test)]
mod programs;
#[cfg(test)]
mod refused_declarations;
#[cfg(test)]
mod refused_expressions;
