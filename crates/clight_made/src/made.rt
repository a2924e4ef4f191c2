//! What a statement does, as a tree without types and names.

use clight_lang::expression::Expr;
use clight_operands::typed::{Callee, Deed};
use clight_types::Value;

/// What a statement does. The locals stand in it by their numbers among the parameters and locals
/// of the function, as if all were in memory.
#[cycle(made)]
#[derive(Drop)]
pub enum Made {
    Nothing,
    /// An expression whose value is not used.
    Evaluated(Expr),
    Deed(Deed),
    Block(Vec<Made>),
    Branch(Expr, Box<Made>, Box<Made>),
    While(Expr, Box<Made>),
    Do(Box<Made>, Expr),
    For {
        first: Vec<Made>,
        condition: Option<Expr>,
        update: Box<Made>,
        body: Box<Made>,
    },
    Switch(Expr, Vec<MadeGroup>),
    Break,
    Continue,
    Return(Option<Expr>),
    /// The value of a call with these arguments, of one type, as one of another.
    ReturnCall(Callee, Vec<Expr>, Value, Value),
}

/// The statements behind the labels of a `switch` that stand together: the numbers of these, and
/// whether `default` is among them.
#[cycle(made)]
#[derive(Drop)]
pub struct MadeGroup {
    pub numbers: Vec<u32>,
    pub is_default: bool,
    pub statements: Vec<Made>,
}
