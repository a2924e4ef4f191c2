//! The faults and the meaning of a file: what it declares and defines, its counts and its program.
//!
//! `specs/` has the definitions: `Files` the declarations and definitions of a file, `Counts` its
//! nodes, and `Meaning` its program.
#![tactic(auto)]
