//! The counts that a file keeps to: of each function its parameters, the bytes of its parameters and
//! locals, its nodes and the labels of its largest `switch`; of the file its functions, its nodes and
//! the bytes of its objects.
//!
//! The definitions are those of `clight_meaning`'s `specs/Counts`; `specs/CountsOf` and
//! `specs/PassedOf` say which of their values the values of the code are.
#![tactic(auto)]

pub mod counts;
pub mod limits;
pub mod sizes;
pub mod texts;

pub use counts::counts_kept;
pub use limits::{Count, Excess, Passed};
pub use sizes::{Size, Sizes};
