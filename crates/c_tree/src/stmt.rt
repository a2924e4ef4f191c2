//! Statements.

use crate::expr::Expr;
use crate::file::Decl;

/// A statement. `at` is the byte of its first token.
#[cycle(stmt)]
#[derive(Drop)]
pub enum Stmt {
    Block {
        at: u32,
        items: Vec<Item>,
    },
    Empty {
        at: u32,
    },
    Expr {
        at: u32,
        expr: Expr,
    },
    If {
        at: u32,
        condition: Expr,
        if_true: Box<Stmt>,
        if_false: Option<Box<Stmt>>,
    },
    While {
        at: u32,
        condition: Expr,
        body: Box<Stmt>,
    },
    Do {
        at: u32,
        body: Box<Stmt>,
        condition: Expr,
    },
    For {
        at: u32,
        first: ForFirst,
        condition: Option<Expr>,
        update: Option<Expr>,
        body: Box<Stmt>,
    },
    Switch {
        at: u32,
        selector: Expr,
        groups: Vec<Group>,
    },
    Break {
        at: u32,
    },
    Continue {
        at: u32,
    },
    Return {
        at: u32,
        value: Option<Expr>,
    },
}

/// The first part of a `for`.
#[derive(Drop)]
pub enum ForFirst {
    Nothing,
    Expr(Expr),
    Decl(Decl),
}

/// What stands in a block, or behind the labels of a group.
#[cycle(stmt)]
#[derive(Drop)]
pub enum Item {
    Decl(Decl),
    Stmt(Stmt),
}

/// The labels of a `switch` that stand together, and what follows them.
#[cycle(stmt)]
#[derive(Drop)]
pub struct Group {
    pub labels: Vec<Label>,
    pub items: Vec<Item>,
}

/// A label of a `switch`.
#[derive(Drop)]
pub enum Label {
    Case { at: u32, value: Expr },
    Default { at: u32 },
}
