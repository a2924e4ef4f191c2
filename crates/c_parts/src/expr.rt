//! Expressions.

ghost use Rattle.std.specs.Prelude.{◌≡◌, IfOk};
ghost use Rattle.c_reading.specs.Parts as part;
ghost use Rattle.c_parts.specs.Views.{arguments_part_of, expr_part_of, maybe_part_of, type_part_of};
ghost use Rattle.c_tree.specs.Shape.{access_of, assignment_of, binary_of, number_of, step_of, unary_of};

use crate::height::deeper;
use crate::memory::{boxed, extended};
use c_tree::{
    Access, AssignmentOperator, BinaryOperator, Expr, Increment, Number, TypeName, UnaryOperator,
    precedence,
};
use std::alloc::Global;
use tso_words::{Name, NoMemory};

/// An expression: its tree, the byte of its first token, how tightly it binds, from 1 to 15, and its
/// height: the marked parts above its deepest token, at most 255.
#[derive(Drop)]
pub struct ExprPart {
    pub tree: Expr,
    pub start: u32,
    pub level: u8,
    pub height: u8,
}

/// The arguments of a call, or the values of a list.
#[derive(Drop)]
pub struct ArgumentsPart {
    pub trees: Vec<Expr>,
    pub height: u8,
}

/// A type name.
#[derive(Drop)]
pub struct TypePart {
    pub tree: TypeName,
    pub height: u8,
}

/// An expression that may be left out: the length of an array, the value of an enumerator.
#[derive(Drop)]
pub struct MaybePart {
    pub tree: Option<Box<Expr>>,
    pub height: u8,
}

/// A name.
pub fn name_part(at: u32, name: Name) -> ExprPart
    ensures { expr_part_of result ≡ part.name_part at name }
{
    ExprPart {
        tree: Expr::Name { at, name },
        start: at,
        level: 15,
        height: 0,
    }
}

/// A constant.
pub fn constant_part(at: u32, number: Number) -> ExprPart
    ensures { expr_part_of result ≡ part.constant_part at (number_of number) }
{
    ExprPart {
        tree: Expr::Constant { at, number },
        start: at,
        level: 15,
        height: 0,
    }
}

/// `(inner)`.
pub fn parentheses_part(at: u32, inner: ExprPart) -> ExprPart
    ensures { expr_part_of result ≡ part.parentheses_part at (expr_part_of inner) }
{
    ExprPart {
        tree: inner.tree,
        start: at,
        level: 15,
        height: deeper(inner.height),
    }
}

/// `array[index]`.
pub fn index_part(
    alloc: Global,
    array: ExprPart,
    at: u32,
    index: ExprPart,
) -> Result<ExprPart, NoMemory>
    ensures { IfOk result (λ whole. expr_part_of whole ≡ part.index_part (expr_part_of array) at (expr_part_of index)) }
{
    Ok(ExprPart {
        start: array.start,
        level: 15,
        height: deeper(array.height.max(index.height)),
        tree: Expr::Index {
            at: array.start,
            op_at: at,
            array: boxed(alloc, array.tree)?,
            index: boxed(alloc, index.tree)?,
        },
    })
}

/// No arguments.
pub fn no_argument(alloc: Global) -> ArgumentsPart
    ensures { arguments_part_of result ≡ part.no_argument }
{
    ArgumentsPart {
        trees: Vec::new(alloc),
        height: 0,
    }
}

/// One argument more.
#[tactic(auto, using(crate::proofs::Ends::exprs_end))]
pub fn add_argument(arguments: ArgumentsPart, argument: ExprPart) -> Result<ArgumentsPart, NoMemory>
    ensures { IfOk result (λ longer. arguments_part_of longer ≡ part.add_argument (arguments_part_of arguments) (expr_part_of argument)) }
{
    Ok(ArgumentsPart {
        height: arguments.height.max(argument.height),
        trees: extended(arguments.trees, argument.tree)?,
    })
}

/// `callee(arguments)`.
#[tactic(auto, using(crate::proofs::Shapes::call_shape))]
pub fn call_part(
    alloc: Global,
    callee: ExprPart,
    at: u32,
    arguments: ArgumentsPart,
) -> Result<ExprPart, NoMemory>
    ensures { IfOk result (λ whole. expr_part_of whole ≡ part.call_part (expr_part_of callee) at (arguments_part_of arguments)) }
{
    Ok(ExprPart {
        start: callee.start,
        level: 15,
        height: deeper(callee.height.max(arguments.height)),
        tree: Expr::Call {
            at: callee.start,
            op_at: at,
            callee: boxed(alloc, callee.tree)?,
            arguments: arguments.trees,
        },
    })
}

/// `object.name` and `object->name`.
pub fn member_part(
    alloc: Global,
    object: ExprPart,
    at: u32,
    access: Access,
    name_at: u32,
    name: Name,
) -> Result<ExprPart, NoMemory>
    ensures { IfOk result (λ whole. expr_part_of whole ≡ part.member_part (expr_part_of object) at (access_of access) name_at name) }
{
    Ok(ExprPart {
        start: object.start,
        level: 15,
        height: deeper(object.height),
        tree: Expr::Member {
            at: object.start,
            op_at: at,
            object: boxed(alloc, object.tree)?,
            access,
            name_at,
            name,
        },
    })
}

/// `operand++` and `operand--`.
pub fn step_after_part(
    alloc: Global,
    operand: ExprPart,
    at: u32,
    step: Increment,
) -> Result<ExprPart, NoMemory>
    ensures { IfOk result (λ whole. expr_part_of whole ≡ part.step_after_part (expr_part_of operand) at (step_of step)) }
{
    Ok(ExprPart {
        start: operand.start,
        level: 15,
        height: deeper(operand.height),
        tree: Expr::StepAfter {
            at: operand.start,
            op_at: at,
            operand: boxed(alloc, operand.tree)?,
            step,
        },
    })
}

/// `++operand` and `--operand`.
pub fn step_before_part(
    alloc: Global,
    at: u32,
    step: Increment,
    operand: ExprPart,
) -> Result<ExprPart, NoMemory>
    ensures { IfOk result (λ whole. expr_part_of whole ≡ part.step_before_part at (step_of step) (expr_part_of operand)) }
{
    Ok(ExprPart {
        start: at,
        level: 14,
        height: deeper(operand.height),
        tree: Expr::StepBefore {
            at,
            step,
            operand: boxed(alloc, operand.tree)?,
        },
    })
}

/// An operator before its operand.
pub fn unary_part(
    alloc: Global,
    at: u32,
    operator: UnaryOperator,
    operand: ExprPart,
) -> Result<ExprPart, NoMemory>
    ensures { IfOk result (λ whole. expr_part_of whole ≡ part.unary_part at (unary_of operator) (expr_part_of operand)) }
{
    Ok(ExprPart {
        start: at,
        level: 14,
        height: deeper(operand.height),
        tree: Expr::Unary {
            at,
            operator,
            operand: boxed(alloc, operand.tree)?,
        },
    })
}

/// `sizeof operand`.
pub fn sizeof_part(alloc: Global, at: u32, operand: ExprPart) -> Result<ExprPart, NoMemory>
    ensures { IfOk result (λ whole. expr_part_of whole ≡ part.sizeof_part at (expr_part_of operand)) }
{
    Ok(ExprPart {
        start: at,
        level: 14,
        height: deeper(operand.height),
        tree: Expr::SizeofExpr {
            at,
            operand: boxed(alloc, operand.tree)?,
        },
    })
}

/// `sizeof (type_name)`.
#[tactic(auto, using(crate::proofs::Shapes::sizeof_shape))]
pub fn sizeof_type_part(alloc: Global, at: u32, type_name: TypePart) -> Result<ExprPart, NoMemory>
    ensures { IfOk result (λ whole. expr_part_of whole ≡ part.sizeof_type_part at (type_part_of type_name)) }
{
    Ok(ExprPart {
        start: at,
        level: 14,
        height: deeper(type_name.height),
        tree: Expr::SizeofType {
            at,
            type_name: boxed(alloc, type_name.tree)?,
        },
    })
}

/// `(type_name) operand`.
#[tactic(auto, using(crate::proofs::Shapes::cast_shape))]
pub fn cast_part(
    alloc: Global,
    at: u32,
    type_name: TypePart,
    operand: ExprPart,
) -> Result<ExprPart, NoMemory>
    ensures { IfOk result (λ whole. expr_part_of whole ≡ part.cast_part at (type_part_of type_name) (expr_part_of operand)) }
{
    Ok(ExprPart {
        start: at,
        level: 13,
        height: deeper(type_name.height.max(operand.height)),
        tree: Expr::Cast {
            at,
            type_name: boxed(alloc, type_name.tree)?,
            operand: boxed(alloc, operand.tree)?,
        },
    })
}

/// An operator between two operands.
pub fn binary_part(
    alloc: Global,
    left: ExprPart,
    at: u32,
    operator: BinaryOperator,
    right: ExprPart,
) -> Result<ExprPart, NoMemory>
    ensures { IfOk result (λ whole. expr_part_of whole ≡ part.binary_part (expr_part_of left) at (binary_of operator) (expr_part_of right)) }
{
    Ok(ExprPart {
        start: left.start,
        level: precedence(operator),
        height: deeper(left.height.max(right.height)),
        tree: Expr::Binary {
            at: left.start,
            op_at: at,
            operator,
            left: boxed(alloc, left.tree)?,
            right: boxed(alloc, right.tree)?,
        },
    })
}

/// `condition ? if_true : if_false`.
pub fn conditional_part(
    alloc: Global,
    condition: ExprPart,
    at: u32,
    if_true: ExprPart,
    if_false: ExprPart,
) -> Result<ExprPart, NoMemory>
    ensures { IfOk result (λ whole. expr_part_of whole ≡ part.conditional_part (expr_part_of condition) at (expr_part_of if_true) (expr_part_of if_false)) }
{
    Ok(ExprPart {
        start: condition.start,
        level: 2,
        height: deeper(condition.height.max(if_true.height.max(if_false.height))),
        tree: Expr::Cond {
            at: condition.start,
            op_at: at,
            condition: boxed(alloc, condition.tree)?,
            if_true: boxed(alloc, if_true.tree)?,
            if_false: boxed(alloc, if_false.tree)?,
        },
    })
}

/// `target = value` and the compound assignments.
pub fn assignment_part(
    alloc: Global,
    target: ExprPart,
    at: u32,
    operator: AssignmentOperator,
    value: ExprPart,
) -> Result<ExprPart, NoMemory>
    ensures { IfOk result (λ whole. expr_part_of whole ≡ part.assignment_part (expr_part_of target) at (assignment_of operator) (expr_part_of value)) }
{
    Ok(ExprPart {
        start: target.start,
        level: 1,
        height: deeper(target.height.max(value.height)),
        tree: Expr::Assign {
            at: target.start,
            op_at: at,
            operator,
            target: boxed(alloc, target.tree)?,
            value: boxed(alloc, value.tree)?,
        },
    })
}

/// An expression that is left out.
pub fn left_out_part() -> MaybePart
    ensures { maybe_part_of result ≡ part.left_out_part }
{
    MaybePart {
        tree: None,
        height: 0,
    }
}

/// An expression that is stated.
pub fn stated_part(alloc: Global, value: ExprPart) -> Result<MaybePart, NoMemory>
    ensures { IfOk result (λ stated. maybe_part_of stated ≡ part.stated_part (expr_part_of value)) }
{
    Ok(MaybePart {
        height: value.height,
        tree: Some(boxed(alloc, value.tree)?),
    })
}
