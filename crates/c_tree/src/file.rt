//! Declarations and files.

use crate::expr::{Declarator, Expr, Specifier};
use crate::stmt::Item;

/// A declaration. Specifiers alone, as of a struct, have no declarator.
#[derive(Drop)]
pub struct Decl {
    pub at: u32,
    pub specifiers: Vec<Specifier>,
    pub declarators: Vec<InitDeclarator>,
}

/// A declarator with its initializer.
#[derive(Drop)]
pub struct InitDeclarator {
    pub declarator: Declarator,
    pub initializer: Option<Initializer>,
}

/// An initializer behind its `=`.
#[derive(Drop)]
pub enum Initializer {
    Value(Expr),
    List { at: u32, values: Vec<Expr> },
}

/// A function definition.
#[derive(Drop)]
pub struct FunctionDefinition {
    pub at: u32,
    pub specifiers: Vec<Specifier>,
    pub declarator: Declarator,
    pub body_at: u32,
    pub body: Vec<Item>,
}

/// What stands in a file.
#[derive(Drop)]
pub enum External {
    Decl(Decl),
    Function(FunctionDefinition),
}

/// A file.
#[derive(Drop)]
pub struct File {
    pub externals: Vec<External>,
}
