//! What is known of an expression that has been gone through.

use c_tree::BinaryOperator;
use clight_lang::expression::Expr;
use clight_lang::statement::Builtin;
use clight_types::{Constant, Denoted, Value};
use tso_words::Name;

/// Which effects may stand at a place: none, a call, or also an assignment.
#[derive(Clone, Copy, PartialEq, Eq, Debug)]
pub enum Allowed {
    NoEffect,
    Call,
    Effect,
}

/// What a lone name names, as far as `&` and calls ask. A local has its number among the parameters
/// and locals of the function; a parameter of a declaration has none.
#[derive(Drop)]
pub enum Naming {
    Nothing,
    Local(Option<usize>),
    External(Name),
    Builtin(Builtin),
}

/// Whom a call calls: the function at an address, by the number of its type; an external function
/// of a type; a builtin.
#[derive(Drop)]
pub enum Callee {
    Inside(usize, Expr),
    Outside(Name, usize),
    Provided(Builtin),
}

/// The right side of an assignment: a value as it is stored, or a call with its arguments and the
/// type of its value.
#[derive(Drop)]
pub enum Source {
    Value(Expr),
    Call(Callee, Vec<Expr>, Value),
}

/// What an expression with an effect does.
#[derive(Drop)]
pub enum Deed {
    /// A call with its arguments and the type of its value.
    Call(Callee, Vec<Expr>, Value),
    /// An assignment to a place of a type.
    Assign(Expr, Value, Source),
    /// An operator on the value at a place of a type, with the other operand and the type of what
    /// it gives.
    Update {
        place: Expr,
        value: Value,
        operator: BinaryOperator,
        other: Value,
        operand: Expr,
        given: Value,
    },
}

/// An expression, without faults. Its meaning is its value, and its address where it stands for an
/// object or a function. Few expressions do something, so what they do is apart.
#[derive(Drop)]
pub struct Typed {
    pub at: u32,
    pub denoted: Denoted,
    pub constant: Constant,
    pub naming: Naming,
    pub meaning: Expr,
    pub deed: Option<Box<Deed>>,
}
