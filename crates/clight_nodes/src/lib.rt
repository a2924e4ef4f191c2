//! How many nodes a part of a C file has, and how many labels its largest `switch`.
//!
//! A node is a statement, an expression (each operator, call, member, index, cast, `sizeof`, name and
//! constant, also those that stand in types), or a declared local. Parentheses and types are none.
//! The limits of a file are stated in nodes.
#![tactic(auto)]

mod count;
mod expressions;
mod labels;
mod statements;

pub use expressions::{count_declarator, count_exprs, count_specifiers};
pub use labels::most_labels;
pub use statements::{count_decl, count_items};

#[cfg(test)]
mod tests;
