//! The types of C files in the profile: their table and layout, what operators and conversions take
//! and give, and the faults that a file can have, each with its rule and its place.
#![tactic(auto)]

pub mod constants;
pub mod conversions;
pub mod declarators;
pub mod kind;
pub mod laid;
pub mod layout;
pub mod rule;
pub mod types;

pub use kind::{Alignment, Constant, Denoted, Integer, Value};
pub use laid::{Laid, Member};
pub use rule::{Fault, Refusal, Rule, owed};
pub use types::{Body, Shape, Types};
