//! What types and declarations are made of: type words, tags, enumerators, the names of
//! declarators, and types, members and parameters by the parts of their declarators; and the
//! operators before an operand, of which one takes an address.
#![tactic(auto)]

pub mod addresses;
pub mod built;
pub mod enumerators;
pub mod named;
pub mod tags;
pub mod words;
