//! Expressions: what a statement computes before it does anything.

use tso_words::{Chunk, Name, Op};

/// An expression. `LocalAddr` is the address of a memory parameter or local, by its number among
/// these; conversions, scaling and the offsets of members are operators.
#[derive(Drop)]
pub enum Expr {
    Const(u32),
    Temp(usize),
    LocalAddr(usize),
    GlobalAddr(Name),
    Read(Chunk, Box<Expr>),
    Unary(Op, Box<Expr>),
    Binary(Op, Box<Expr>, Box<Expr>),
    AndAlso(Box<Expr>, Box<Expr>),
    OrElse(Box<Expr>, Box<Expr>),
    Choose(Box<Expr>, Box<Expr>, Box<Expr>),
}
