//! The trees of C files: what the grammar of the profile reads, without parentheses, each node with
//! its place in the file.
//!
//! `specs/Trees.antt` has the same trees without pointers, which contracts speak of;
//! `specs/Shape.antt` says which of them a value of the types here is, and `specs/Reading.antt`
//! which one a derivation of the grammar gives.
#![tactic(auto)]

mod expr;
mod file;
mod print;
mod print_expr;
mod spell;
mod stmt;
#[cfg(test)]
mod tests;
mod text;
mod word;

pub use expr::{
    Declarator, Direct, Enumerator, Expr, Member, Parameter, Specifier, Suffix, Tag, TypeName,
};
pub use file::{Decl, External, File, FunctionDefinition, InitDeclarator, Initializer};
pub use print::print_file;
pub use print_expr::precedence;
pub use stmt::{ForFirst, Group, Item, Label, Stmt};
pub use word::{
    Access, AssignmentOperator, BinaryOperator, CompositeWord, Increment, Number, Qualifier,
    StorageClass, TypeWord, UnaryOperator,
};
