//! Files that `c_reader` reads or refuses, row by row. They stand in a crate of their own so that the
//! reader, whose proofs are long, is proved once and not a second time with its tests.
#![tactic(auto)]

#[cfg(test)]
mod tests;
