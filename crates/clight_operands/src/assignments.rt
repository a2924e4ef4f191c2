//! `?:`, and the assignments that may stand as a statement.

ghost use Rattle.std.specs.Prelude.{◌≡◌, IfOk};
ghost use Rattle.std.specs.Option.{option_map};
ghost use Rattle.c_tree.specs.Shape.{assignment_of, binary_of, step_of};
ghost use Rattle.clight_lang.specs.Syntax.{expression_of, Choose};
ghost use Rattle.clight_types.specs.Judged.{Judges};
ghost use Rattle.clight_types.specs.Table.{types_of};
ghost use Rattle.clight_operands.specs.Operands.{choice_typed, assign_typed, update_typed, step_typed, assigned_by, assignment_operator, allowed_right, doing, may_stand, source_of as source_in};
ghost use Rattle.clight_operands.specs.Shown.{typed_of, allowed_of, source_of, deed_of};

use crate::applied::converted;
use crate::operands::{
    as_value, converts_to, is_scalar_expression, is_scalar_object, is_struct_expression,
    operated_in, plain, read_of, refused, value_of,
};
use crate::typed::{Allowed, Deed, Naming, Source, Typed};
use c_tree::{AssignmentOperator, BinaryOperator, Increment};
use clight_lang::expression::Expr;
use clight_types::constants::constant_choice;
use clight_types::conversions::{INT, joined, keeps_kind};
use clight_types::{Constant, Denoted, Refusal, Rule, Types, Value, owed};
use std::alloc::{AllocError, Global};
use tso_words::NoMemory;

/// Whether an effect may stand at a place.
pub fn may_stand(allowed: Allowed, is_call: bool) -> bool
    ensures { result ≡ may_stand (allowed_of allowed) is_call }
{
    match allowed {
        Allowed::NoEffect => false,
        Allowed::Call => is_call,
        Allowed::Effect => true,
    }
}

/// `?:`.
pub fn choice_typed(
    alloc: Global,
    types: &Types,
    at: u32,
    op_at: u32,
    c: Typed,
    a: Typed,
    b: Typed,
) -> Result<Typed, Refusal>
    ensures { Judges (choice_typed (types_of types.now) at op_at (typed_of c) (typed_of a) (typed_of b)) typed_of result }
{
    let left = value_of(types, a.denoted);
    let right = value_of(types, b.denoted);
    match joined(types, left, a.constant, right, b.constant) {
        None => Err(refused(Rule::Operands, op_at)),
        Some(value) => {
            owed(is_scalar_expression(types, &c), Rule::Condition, c.at)?;
            let constant = constant_choice(c.constant, a.constant, b.constant);
            let test = read_of(alloc, types, c.denoted, c.meaning)?;
            let x = as_value(alloc, types, value, a)?;
            let y = as_value(alloc, types, value, b)?;
            let meaning = choice(alloc, test, x, y)?;
            Ok(plain(at, Denoted::Value(value), constant, meaning))
        }
    }
}

fn choice(alloc: Global, test: Expr, x: Expr, y: Expr) -> Result<Expr, NoMemory>
    ensures { IfOk result (λ r. expression_of r ≡ Choose (expression_of test) (expression_of x) (expression_of y)) }
{
    let test = Box::new(alloc, test).map_err(AllocError::from)?;
    let x = Box::new(alloc, x).map_err(AllocError::from)?;
    let y = Box::new(alloc, y).map_err(AllocError::from)?;
    Ok(Expr::Choose(test, x, y))
}

/// An expression with an effect.
pub fn doing(alloc: Global, at: u32, value: Value, deed: Deed) -> Result<Typed, NoMemory>
    ensures { IfOk result (λ r. typed_of r ≡ doing at value (deed_of deed)) }
{
    let deed = Box::new(alloc, deed).map_err(AllocError::from)?;
    Ok(Typed {
        at,
        denoted: Denoted::Value(value),
        constant: Constant::No,
        naming: Naming::Nothing,
        meaning: Expr::Const(0),
        deed: Some(deed),
    })
}

/// What an assignment stores: a call keeps its arguments, and its value is converted when it comes.
pub fn source_of(alloc: Global, types: &Types, to: Value, b: Typed) -> Result<Source, NoMemory>
    ensures { IfOk result (λ s. source_of s ≡ source_in (types_of types.now) to (typed_of b) (typed_of b).deed) }
{
    let Typed {
        at: _,
        denoted,
        constant: _,
        naming: _,
        meaning,
        deed,
    } = b;
    if let Some(deed) = deed {
        if let Deed::Call(callee, arguments, value) = Box::into_inner(deed) {
            return Ok(Source::Call(callee, arguments, value));
        }
    }
    let from = value_of(types, denoted);
    let read = read_of(alloc, types, denoted, meaning)?;
    Ok(Source::Value(converted(alloc, from, to, read)?))
}

/// `=`.
pub fn assign_typed(
    alloc: Global,
    types: &Types,
    allowed: Allowed,
    at: u32,
    op_at: u32,
    a: Typed,
    b: Typed,
) -> Result<Typed, Refusal>
    ensures { Judges (assign_typed (types_of types.now) (allowed_of allowed) at op_at (typed_of a) (typed_of b)) typed_of result }
{
    let to = value_of(types, a.denoted);
    owed(!is_struct_expression(types, &b), Rule::StructValue, b.at)?;
    owed(
        is_scalar_object(types, a.denoted),
        Rule::NotAssignable,
        op_at,
    )?;
    owed(converts_to(types, to, &b), Rule::NeedsCast, b.at)?;
    owed(may_stand(allowed, false), Rule::EffectPlace, op_at)?;
    let source = source_of(alloc, types, to, b)?;
    Ok(doing(alloc, at, to, Deed::Assign(a.meaning, to, source))?)
}

/// A compound assignment.
pub fn update_typed(
    alloc: Global,
    types: &Types,
    allowed: Allowed,
    at: u32,
    op_at: u32,
    operator: BinaryOperator,
    a: Typed,
    b: Typed,
) -> Result<Typed, Refusal>
    ensures { Judges (update_typed (types_of types.now) (allowed_of allowed) at op_at (binary_of operator) (typed_of a) (typed_of b)) typed_of result }
{
    let value = value_of(types, a.denoted);
    let other = value_of(types, b.denoted);
    let given = operated_in(types, operator, &a, &b);
    owed(keeps_kind(given, value), Rule::Operands, op_at)?;
    owed(
        is_scalar_object(types, a.denoted),
        Rule::NotAssignable,
        op_at,
    )?;
    owed(may_stand(allowed, false), Rule::EffectPlace, op_at)?;
    let operand = read_of(alloc, types, b.denoted, b.meaning)?;
    let deed = Deed::Update {
        place: a.meaning,
        value,
        operator,
        other,
        operand,
        given: given.unwrap_or(value),
    };
    Ok(doing(alloc, at, value, deed)?)
}

/// `++` and `--`.
pub fn step_typed(
    alloc: Global,
    types: &Types,
    allowed: Allowed,
    at: u32,
    op_at: u32,
    step: Increment,
    a: Typed,
) -> Result<Typed, Refusal>
    ensures { Judges (step_typed (types_of types.now) (allowed_of allowed) at op_at (step_of step) (typed_of a)) typed_of result }
{
    let one = plain(at, Denoted::Value(INT), Constant::Known(1), Expr::Const(1));
    let operator = match step {
        Increment::Increase => BinaryOperator::Plus,
        Increment::Decrease => BinaryOperator::Minus,
    };
    update_typed(alloc, types, allowed, at, op_at, operator, a, one)
}

/// The operator of a compound assignment.
fn assignment_operator(operator: AssignmentOperator) -> Option<BinaryOperator>
    ensures { option_map binary_of result ≡ assignment_operator (assignment_of operator) }
{
    match operator {
        AssignmentOperator::Assign => None,
        AssignmentOperator::Times => Some(BinaryOperator::Times),
        AssignmentOperator::Divide => Some(BinaryOperator::Divide),
        AssignmentOperator::Remainder => Some(BinaryOperator::Remainder),
        AssignmentOperator::Plus => Some(BinaryOperator::Plus),
        AssignmentOperator::Minus => Some(BinaryOperator::Minus),
        AssignmentOperator::ShiftLeft => Some(BinaryOperator::ShiftLeft),
        AssignmentOperator::ShiftRight => Some(BinaryOperator::ShiftRight),
        AssignmentOperator::BitAnd => Some(BinaryOperator::BitAnd),
        AssignmentOperator::BitXor => Some(BinaryOperator::BitXor),
        AssignmentOperator::BitOr => Some(BinaryOperator::BitOr),
    }
}

/// Which effects may stand on the right of an assignment: a call behind `=`.
pub fn allowed_right(operator: AssignmentOperator) -> Allowed
    ensures { allowed_of result ≡ allowed_right (assignment_of operator) }
{
    match operator {
        AssignmentOperator::Assign => Allowed::Call,
        _ => Allowed::NoEffect,
    }
}

/// An assignment.
pub fn assigned(
    alloc: Global,
    types: &Types,
    allowed: Allowed,
    at: u32,
    op_at: u32,
    operator: AssignmentOperator,
    a: Typed,
    b: Typed,
) -> Result<Typed, Refusal>
    ensures { Judges (assigned_by (types_of types.now) (allowed_of allowed) at op_at (assignment_operator (assignment_of operator)) (typed_of a) (typed_of b)) typed_of result }
{
    match assignment_operator(operator) {
        Some(operator) => update_typed(alloc, types, allowed, at, op_at, operator, a, b),
        None => assign_typed(alloc, types, allowed, at, op_at, a, b),
    }
}
