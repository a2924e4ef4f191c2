//! What the typing of C files says of expressions and of statements: the faults of each, in the
//! order of the file, and its meaning.
//!
//! `specs/` has the definitions: `Typing` the expressions and the types in them, `Statements` the
//! statements of a function.
#![tactic(auto)]
