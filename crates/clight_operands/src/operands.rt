//! What each operator makes of its operands.

ghost use Rattle.std.specs.Prelude.{◌≡◌, IfOk};
ghost use Rattle.c_tree.specs.Shape.{binary_of, number_of};
ghost use Rattle.clight_lang.specs.Syntax.{expression_of};
ghost use Rattle.clight_types.specs.Judged.{Judges, fault_at};
ghost use Rattle.clight_operands.specs.Applied.{applied as means};
ghost use Rattle.clight_types.specs.Table.{types_of};
ghost use Rattle.clight_operands.specs.Operands.{plain, denoted_value, read_of, value_in, read_in, as_value, converts_to, is_struct_expression, is_scalar_expression, is_scalar_object, number_typed, sizeof_typed, cast_typed, not_typed, binary_typed, operated_in, index_typed};
ghost use Rattle.clight_operands.specs.Shown.{typed_of};

use crate::applied::{applied, binary, converted};
use crate::typed::{Naming, Typed};
use c_tree::{BinaryOperator, Number};
use clight_lang::expression::Expr;
use clight_types::constants::{
    chunk_of, constant_as, constant_operated, is_allowed_number, negated, type_of_number,
    word_of_number,
};
use clight_types::conversions::{INT, converts, is_scalar_value, is_struct_value, operated};
use clight_types::{Constant, Denoted, Integer, Refusal, Rule, Types, Value, owed};
use std::alloc::{AllocError, Global};
use tso_words::{Cond, NoMemory, Op};

/// An expression that is no name and does nothing.
pub fn plain(at: u32, denoted: Denoted, constant: Constant, meaning: Expr) -> Typed
    ensures { typed_of result ≡ plain at denoted constant (expression_of meaning) }
{
    Typed {
        at,
        denoted,
        constant,
        naming: Naming::Nothing,
        meaning,
        deed: None,
    }
}

/// The value of an expression: an object's is what is read of it.
pub fn value_of(types: &Types, denoted: Denoted) -> Value
    ensures { result ≡ denoted_value (types_of types.now) denoted }
{
    match denoted {
        Denoted::Value(x) => x,
        Denoted::Object(t) => types.value(t),
        Denoted::Function(t) => Value::Pointer(t),
    }
}

/// A scalar object is read; an array, a struct and a function are their addresses.
pub fn read_of(
    alloc: Global,
    types: &Types,
    denoted: Denoted,
    meaning: Expr,
) -> Result<Expr, NoMemory>
    ensures { IfOk result (λ r. expression_of r ≡ read_of (types_of types.now) denoted (expression_of meaning)) }
{
    match denoted {
        Denoted::Object(t) => {
            if types.is_scalar(t) {
                let address = Box::new(alloc, meaning).map_err(AllocError::from)?;
                Ok(Expr::Read(chunk_of(types.value(t)), address))
            } else {
                Ok(meaning)
            }
        }
        Denoted::Value(_) | Denoted::Function(_) => Ok(meaning),
    }
}

/// An expression as a value of another type.
pub fn as_value(alloc: Global, types: &Types, to: Value, e: Typed) -> Result<Expr, NoMemory>
    ensures { IfOk result (λ r. expression_of r ≡ as_value (types_of types.now) to (typed_of e)) }
{
    let from = value_of(types, e.denoted);
    let read = read_of(alloc, types, e.denoted, e.meaning)?;
    converted(alloc, from, to, read)
}

/// Whether the expression converts to a type without a cast.
pub fn converts_to(types: &Types, to: Value, e: &Typed) -> bool
    ensures { result ≡ converts_to (types_of types.now) to (typed_of e.now) }
{
    converts(types, value_of(types, e.denoted), e.constant, to)
}

/// Whether the value of the expression is a struct.
pub fn is_struct_expression(types: &Types, e: &Typed) -> bool
    ensures { result ≡ is_struct_expression (types_of types.now) (typed_of e.now) }
{
    is_struct_value(value_of(types, e.denoted))
}

/// Whether the value of the expression is an integer or a pointer.
pub fn is_scalar_expression(types: &Types, e: &Typed) -> bool
    ensures { result ≡ is_scalar_expression (types_of types.now) (typed_of e.now) }
{
    is_scalar_value(value_of(types, e.denoted))
}

/// Whether what is denoted is an object that is an integer or a pointer.
pub fn is_scalar_object(types: &Types, denoted: Denoted) -> bool
    ensures { result ≡ is_scalar_object (types_of types.now) denoted }
{
    match denoted {
        Denoted::Object(t) => types.is_scalar(t),
        Denoted::Value(_) | Denoted::Function(_) => false,
    }
}

/// A constant as it is written.
pub fn number_typed(at: u32, number: Number) -> Result<Typed, Refusal>
    ensures { Judges (number_typed at (number_of number)) typed_of result }
{
    owed(is_allowed_number(number), Rule::LargeDecimal, at)?;
    let word = word_of_number(number);
    let value = Value::Integer(type_of_number(number));
    Ok(plain(
        at,
        Denoted::Value(value),
        Constant::Known(word),
        Expr::Const(word),
    ))
}

/// `sizeof`, where there is something of this size.
pub fn sizeof_typed(at: u32, sized: bool, size: u32) -> Result<Typed, Refusal>
    ensures { Judges (sizeof_typed at sized size) typed_of result }
{
    owed(sized, Rule::Incomplete, at)?;
    let value = Value::Integer(Integer::UnsignedInt);
    Ok(plain(
        at,
        Denoted::Value(value),
        Constant::Known(size),
        Expr::Const(size),
    ))
}

/// A cast to a type.
pub fn cast_typed(
    alloc: Global,
    types: &Types,
    at: u32,
    t: usize,
    a: Typed,
) -> Result<Typed, Refusal>
    ensures { Judges (cast_typed (types_of types.now) at t (typed_of a)) typed_of result }
{
    owed(
        types.is_scalar(t) && is_scalar_expression(types, &a),
        Rule::Operands,
        at,
    )?;
    let to = types.value(t);
    let constant = constant_as(to, a.constant);
    let meaning = as_value(alloc, types, to, a)?;
    Ok(plain(at, Denoted::Value(to), constant, meaning))
}

/// `!`.
pub fn not_typed(alloc: Global, types: &Types, at: u32, a: Typed) -> Result<Typed, Refusal>
    ensures { Judges (not_typed (types_of types.now) at (typed_of a)) typed_of result }
{
    owed(is_scalar_expression(types, &a), Rule::Operands, at)?;
    let constant = negated(a.constant);
    let read = read_of(alloc, types, a.denoted, a.meaning)?;
    let meaning = binary(alloc, Op::Cmp(Cond::Eq), read, Expr::Const(0))?;
    Ok(plain(at, Denoted::Value(INT), constant, meaning))
}

/// What an operator between two expressions gives.
pub fn operated_in(types: &Types, operator: BinaryOperator, a: &Typed, b: &Typed) -> Option<Value>
    ensures { result ≡ operated_in (types_of types.now) (binary_of operator) (typed_of a.now) (typed_of b.now) }
{
    let left = value_of(types, a.denoted);
    let right = value_of(types, b.denoted);
    operated(types, operator, left, a.constant, right, b.constant)
}

fn operands_applied(
    alloc: Global,
    types: &Types,
    operator: BinaryOperator,
    a: Typed,
    b: Typed,
) -> Result<Expr, NoMemory>
    ensures { IfOk result (λ r. expression_of r ≡ means (types_of types.now) (binary_of operator) (value_in (types_of types.now) (typed_of a)) (value_in (types_of types.now) (typed_of b)) (read_in (types_of types.now) (typed_of a)) (read_in (types_of types.now) (typed_of b))) }
{
    let left = value_of(types, a.denoted);
    let right = value_of(types, b.denoted);
    let x = read_of(alloc, types, a.denoted, a.meaning)?;
    let y = read_of(alloc, types, b.denoted, b.meaning)?;
    applied(alloc, types, operator, left, right, x, y)
}

/// An operator between two expressions.
pub fn binary_typed(
    alloc: Global,
    types: &Types,
    at: u32,
    op_at: u32,
    operator: BinaryOperator,
    a: Typed,
    b: Typed,
) -> Result<Typed, Refusal>
    ensures { Judges (binary_typed (types_of types.now) at op_at (binary_of operator) (typed_of a) (typed_of b)) typed_of result }
{
    match operated_in(types, operator, &a, &b) {
        None => Err(refused(Rule::Operands, op_at)),
        Some(value) => {
            let left = value_of(types, a.denoted);
            let right = value_of(types, b.denoted);
            let constant = constant_operated(operator, left, right, a.constant, b.constant);
            let meaning = operands_applied(alloc, types, operator, a, b)?;
            Ok(plain(at, Denoted::Value(value), constant, meaning))
        }
    }
}

/// The refusal for a fault.
pub fn refused(rule: Rule, at: u32) -> Refusal
    ensures { result ≡ Refusal.Faulty (fault_at rule at) }
{
    Refusal::Faulty(clight_types::Fault { rule, at })
}

/// An index.
pub fn index_typed(
    alloc: Global,
    types: &Types,
    at: u32,
    op_at: u32,
    a: Typed,
    b: Typed,
) -> Result<Typed, Refusal>
    ensures { Judges (index_typed (types_of types.now) at op_at (typed_of a) (typed_of b)) typed_of result }
{
    match operated_in(types, BinaryOperator::Plus, &a, &b) {
        Some(Value::Pointer(t)) => {
            let meaning = operands_applied(alloc, types, BinaryOperator::Plus, a, b)?;
            Ok(plain(at, Denoted::Object(t), Constant::No, meaning))
        }
        Some(Value::Integer(_) | Value::Struct | Value::Void) | None => {
            Err(refused(Rule::Operands, op_at))
        }
    }
}
