//! Expressions of ClightTSO for what the operators and conversions of C mean.

ghost use Rattle.std.specs.Prelude.{◌≡◌, IfOk, if◌then◌else◌};
ghost use Rattle.clight_lang.specs.Syntax.{expression_of, Unary, Binary, AndAlso, OrElse};
ghost use Rattle.c_tree.specs.Shape.{binary_of};
ghost use Rattle.clight_types.specs.Table.{types_of};
ghost use Rattle.clight_operands.specs.Applied.{cast_by, is_integer, converted, scaled, sum_of, difference_of, applied, moved};

use c_tree::BinaryOperator;
use clight_lang::expression::Expr;
use clight_types::constants::{cast_to, word_operator};
use clight_types::{Integer, Types, Value};
use std::alloc::{AllocError, Global};
use tso_words::{NoMemory, Op};

/// An operator on one expression.
pub fn unary(alloc: Global, op: Op, e: Expr) -> Result<Expr, NoMemory>
    ensures { IfOk result (λ r. expression_of r ≡ Unary op (expression_of e)) }
{
    let operand = Box::new(alloc, e).map_err(AllocError::from)?;
    Ok(Expr::Unary(op, operand))
}

/// An operator between two.
pub fn binary(alloc: Global, op: Op, a: Expr, b: Expr) -> Result<Expr, NoMemory>
    ensures { IfOk result (λ r. expression_of r ≡ Binary op (expression_of a) (expression_of b)) }
{
    let left = Box::new(alloc, a).map_err(AllocError::from)?;
    let right = Box::new(alloc, b).map_err(AllocError::from)?;
    Ok(Expr::Binary(op, left, right))
}

fn cast_by(alloc: Global, op: Option<Op>, e: Expr) -> Result<Expr, NoMemory>
    ensures { IfOk result (λ r. expression_of r ≡ cast_by op (expression_of e)) }
{
    match op {
        Some(op) => unary(alloc, op, e),
        None => Ok(e),
    }
}

fn is_integer(j: Integer, x: Value) -> bool
    ensures { result ≡ is_integer j x }
{
    match x {
        Value::Integer(i) => clight_types::conversions::same_integer(i, j),
        Value::Pointer(_) | Value::Struct | Value::Void => false,
    }
}

/// A value of one type as one of another.
pub fn converted(alloc: Global, from: Value, to: Value, e: Expr) -> Result<Expr, NoMemory>
    ensures { IfOk result (λ r. expression_of r ≡ converted from to (expression_of e)) }
{
    match to {
        Value::Integer(j) => {
            if is_integer(j, from) {
                Ok(e)
            } else {
                cast_by(alloc, cast_to(j), e)
            }
        }
        Value::Pointer(_) | Value::Struct | Value::Void => Ok(e),
    }
}

fn scaled(alloc: Global, types: &Types, t: usize, e: Expr) -> Result<Expr, NoMemory>
    ensures { IfOk result (λ r. expression_of r ≡ scaled (types_of types.now) t (expression_of e)) }
{
    let size = types.size(t);
    if size == 1 {
        Ok(e)
    } else {
        binary(alloc, Op::Mul, e, Expr::Const(size))
    }
}

fn sum(alloc: Global, types: &Types, a: Value, b: Value, x: Expr, y: Expr) -> Result<Expr, NoMemory>
    ensures { IfOk result (λ r. expression_of r ≡ sum_of (types_of types.now) a b (expression_of x) (expression_of y)) }
{
    match (a, b) {
        (Value::Pointer(t), _) => {
            let index = scaled(alloc, types, t, y)?;
            binary(alloc, Op::Add, x, index)
        }
        (_, Value::Pointer(u)) => {
            let index = scaled(alloc, types, u, x)?;
            binary(alloc, Op::Add, index, y)
        }
        _ => binary(alloc, Op::Add, x, y),
    }
}

fn difference(
    alloc: Global,
    types: &Types,
    a: Value,
    b: Value,
    x: Expr,
    y: Expr,
) -> Result<Expr, NoMemory>
    ensures { IfOk result (λ r. expression_of r ≡ difference_of (types_of types.now) a b (expression_of x) (expression_of y)) }
{
    match (a, b) {
        (Value::Pointer(t), Value::Pointer(_)) => {
            let bytes = binary(alloc, Op::Sub, x, y)?;
            binary(alloc, Op::DivS, bytes, Expr::Const(types.size(t)))
        }
        (Value::Pointer(t), _) => {
            let index = scaled(alloc, types, t, y)?;
            binary(alloc, Op::Sub, x, index)
        }
        _ => binary(alloc, Op::Sub, x, y),
    }
}

fn logical(alloc: Global, and: bool, x: Expr, y: Expr) -> Result<Expr, NoMemory>
    ensures { IfOk result (λ r. expression_of r ≡ (if and then AndAlso (expression_of x) (expression_of y) else OrElse (expression_of x) (expression_of y))) }
{
    let left = Box::new(alloc, x).map_err(AllocError::from)?;
    let right = Box::new(alloc, y).map_err(AllocError::from)?;
    if and {
        Ok(Expr::AndAlso(left, right))
    } else {
        Ok(Expr::OrElse(left, right))
    }
}

/// An operator of C between two values: indexes are scaled, and the operator on words hangs on the
/// values' types.
pub fn applied(
    alloc: Global,
    types: &Types,
    operator: BinaryOperator,
    a: Value,
    b: Value,
    x: Expr,
    y: Expr,
) -> Result<Expr, NoMemory>
    ensures { IfOk result (λ r. expression_of r ≡ applied (types_of types.now) (binary_of operator) a b (expression_of x) (expression_of y)) }
{
    match operator {
        BinaryOperator::Plus => sum(alloc, types, a, b, x, y),
        BinaryOperator::Minus => difference(alloc, types, a, b, x, y),
        BinaryOperator::LogicalAnd => logical(alloc, true, x, y),
        BinaryOperator::LogicalOr => logical(alloc, false, x, y),
        other => binary(alloc, word_operator(other, a, b), x, y),
    }
}

/// The place of a member.
pub fn moved(alloc: Global, offset: u32, e: Expr) -> Result<Expr, NoMemory>
    ensures { IfOk result (λ r. expression_of r ≡ moved offset (expression_of e)) }
{
    if offset == 0 {
        Ok(e)
    } else {
        binary(alloc, Op::Add, e, Expr::Const(offset))
    }
}
