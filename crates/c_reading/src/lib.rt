//! The reader of C files, from the tokens to the tree or the exact place of the fault.
//!
//! `specs/Words.antt` says which tokens of the grammar a file's tokens are. `specs/Code.antt` is the
//! reader token by token, over the parts of `specs/Parts.antt` and the frames of
//! `specs/Frames.antt`; `laws` says what it answers, in the words of the grammar.
#![tactic(auto)]

pub mod laws;
pub mod listed;
pub mod token;
