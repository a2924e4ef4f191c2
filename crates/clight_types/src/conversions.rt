//! Which values conversions and operators take, and what they give.

ghost use Rattle.std.specs.Prelude.{◌≡◌};
ghost use Rattle.c_tree.specs.Shape.{binary_of};
ghost use Rattle.clight_types.specs.Table.{types_of};
ghost use Rattle.clight_types.specs.Types.{same_integer};
ghost use Rattle.clight_types.specs.Conversions.{promoted, common_of, is_scalar_value, is_integer_value, is_struct_value, is_null, meet_as_void, converts, to_pointer, on_kinds, comparing, adding, subtracting, joining, on_integers_alone, operated, keeps_kind, promoted_value};

use crate::kind::{Constant, Integer, Value};
use crate::types::Types;
use c_tree::BinaryOperator;

/// The number of `void` in each table of types.
pub const VOID: usize = 0;

/// The value of an `int`.
pub const INT: Value = Value::Integer(Integer::Int);

/// The integer promotion.
pub fn promoted(i: Integer) -> Integer
    ensures { result ≡ promoted i }
{
    match i {
        Integer::UnsignedInt => Integer::UnsignedInt,
        _ => Integer::Int,
    }
}

/// The common type of two integers.
pub fn common(i: Integer, j: Integer) -> Integer
    ensures { result ≡ common_of i j }
{
    match i {
        Integer::UnsignedInt => Integer::UnsignedInt,
        _ => promoted(j),
    }
}

/// Whether the value is an integer or a pointer.
pub fn is_scalar_value(x: Value) -> bool
    ensures { result ≡ is_scalar_value x }
{
    matches!(x, Value::Integer(_) | Value::Pointer(_))
}

/// Whether the value is an integer.
pub fn is_integer_value(x: Value) -> bool
    ensures { result ≡ is_integer_value x }
{
    matches!(x, Value::Integer(_))
}

/// Whether the value is a struct.
pub fn is_struct_value(x: Value) -> bool
    ensures { result ≡ is_struct_value x }
{
    matches!(x, Value::Struct)
}

/// Whether the expression is a null constant.
pub fn is_null(c: Constant) -> bool
    ensures { result ≡ is_null c }
{
    match c {
        Constant::Known(word) => word == 0,
        Constant::No | Constant::WithoutValue => false,
    }
}

/// Whether one of two pointers is a `void *` and both point to objects or `void`.
fn meet_as_void(types: &Types, t: usize, u: usize) -> bool
    ensures { result ≡ meet_as_void (types_of types.now) t u }
{
    !types.is_function(t) && !types.is_function(u) && (types.is_void(t) || types.is_void(u))
}

fn to_pointer(types: &Types, from: Value, c: Constant, u: usize) -> bool
    ensures { result ≡ to_pointer (types_of types.now) from c u }
{
    match from {
        Value::Pointer(t) => t == u || meet_as_void(types, t, u),
        Value::Integer(_) => is_null(c),
        Value::Struct | Value::Void => false,
    }
}

/// Whether a value converts to the type of another without a cast. The constant is that of the
/// expression that has the value.
pub fn converts(types: &Types, from: Value, c: Constant, to: Value) -> bool
    ensures { result ≡ converts (types_of types.now) from c to }
{
    match to {
        Value::Integer(_) => is_integer_value(from),
        Value::Pointer(u) => to_pointer(types, from, c, u),
        Value::Struct | Value::Void => false,
    }
}

fn compared(types: &Types, a: Value, c: Constant, b: Value, d: Constant) -> Option<Value>
    ensures { result ≡ on_kinds (comparing (types_of types.now)) a c b d }
{
    match (a, b) {
        (Value::Integer(_), Value::Integer(_)) => Some(INT),
        (Value::Integer(_), Value::Pointer(_)) => is_null(c).then_some(INT),
        (Value::Pointer(_), Value::Integer(_)) => is_null(d).then_some(INT),
        (Value::Pointer(t), Value::Pointer(u)) => {
            (t == u || (types.is_void(t) || types.is_void(u))).then_some(INT)
        }
        _ => None,
    }
}

fn added(types: &Types, a: Value, c: Constant, b: Value, d: Constant) -> Option<Value>
    ensures { result ≡ on_kinds (adding (types_of types.now)) a c b d }
{
    match (a, b) {
        (Value::Integer(i), Value::Integer(j)) => Some(Value::Integer(common(i, j))),
        (Value::Integer(_), Value::Pointer(u)) => types.is_complete(u).then_some(Value::Pointer(u)),
        (Value::Pointer(t), Value::Integer(_)) => types.is_complete(t).then_some(Value::Pointer(t)),
        _ => None,
    }
}

fn subtracted(types: &Types, a: Value, c: Constant, b: Value, d: Constant) -> Option<Value>
    ensures { result ≡ on_kinds (subtracting (types_of types.now)) a c b d }
{
    match (a, b) {
        (Value::Integer(i), Value::Integer(j)) => Some(Value::Integer(common(i, j))),
        (Value::Pointer(t), Value::Integer(_)) => types.is_complete(t).then_some(Value::Pointer(t)),
        (Value::Pointer(t), Value::Pointer(u)) => (t == u && types.is_complete(t)).then_some(INT),
        _ => None,
    }
}

/// What the last two operands of `?:` give; `None` where it does not take them.
pub fn joined(types: &Types, a: Value, c: Constant, b: Value, d: Constant) -> Option<Value>
    ensures { result ≡ on_kinds (joining (types_of types.now)) a c b d }
{
    match (a, b) {
        (Value::Integer(i), Value::Integer(j)) => Some(Value::Integer(common(i, j))),
        (Value::Integer(_), Value::Pointer(u)) => is_null(c).then_some(Value::Pointer(u)),
        (Value::Pointer(t), Value::Integer(_)) => is_null(d).then_some(Value::Pointer(t)),
        (Value::Pointer(t), Value::Pointer(u)) => joined_pointers(types, t, u),
        _ => None,
    }
}

fn joined_pointers(types: &Types, t: usize, u: usize) -> Option<Value>
    ensures { result ≡ (joining (types_of types.now)).pointers t u }
{
    if t == u {
        Some(Value::Pointer(t))
    } else {
        meet_as_void(types, t, u).then_some(Value::Pointer(VOID))
    }
}

fn in_common(a: Value, c: Constant, b: Value, d: Constant) -> Option<Value>
    ensures { result ≡ on_kinds (on_integers_alone common_of) a c b d }
{
    match (a, b) {
        (Value::Integer(i), Value::Integer(j)) => Some(Value::Integer(common(i, j))),
        _ => None,
    }
}

fn shifted(a: Value, c: Constant, b: Value, d: Constant) -> Option<Value>
    ensures { result ≡ on_kinds (on_integers_alone (λ i j. promoted i)) a c b d }
{
    match (a, b) {
        (Value::Integer(i), Value::Integer(_)) => Some(Value::Integer(promoted(i))),
        _ => None,
    }
}

/// What an operator between two values gives; `None` where it does not take them. The constants are
/// those of the operands.
pub fn operated(
    types: &Types,
    operator: BinaryOperator,
    a: Value,
    c: Constant,
    b: Value,
    d: Constant,
) -> Option<Value>
    ensures { result ≡ operated (types_of types.now) (binary_of operator) a c b d }
{
    match operator {
        BinaryOperator::LogicalOr | BinaryOperator::LogicalAnd => {
            (is_scalar_value(a) && is_scalar_value(b)).then_some(INT)
        }
        BinaryOperator::Equal
        | BinaryOperator::NotEqual
        | BinaryOperator::Less
        | BinaryOperator::Greater
        | BinaryOperator::LessEqual
        | BinaryOperator::GreaterEqual => compared(types, a, c, b, d),
        BinaryOperator::ShiftLeft | BinaryOperator::ShiftRight => shifted(a, c, b, d),
        BinaryOperator::Plus => added(types, a, c, b, d),
        BinaryOperator::Minus => subtracted(types, a, c, b, d),
        BinaryOperator::BitOr
        | BinaryOperator::BitXor
        | BinaryOperator::BitAnd
        | BinaryOperator::Times
        | BinaryOperator::Divide
        | BinaryOperator::Remainder => in_common(a, c, b, d),
    }
}

/// Whether a compound assignment gives a value of its target's kind.
pub fn keeps_kind(given: Option<Value>, target: Value) -> bool
    ensures { result ≡ keeps_kind given target }
{
    match (given, target) {
        (Some(Value::Integer(_)), Value::Integer(_)) => true,
        (Some(Value::Pointer(_)), Value::Pointer(_)) => true,
        _ => false,
    }
}

/// The value with the integer promotion, where it is an integer.
pub fn promoted_value(x: Value) -> Value
    ensures { result ≡ promoted_value x }
{
    match x {
        Value::Integer(i) => Value::Integer(promoted(i)),
        other => other,
    }
}

/// Whether two integer types are one.
pub fn same_integer(i: Integer, j: Integer) -> bool
    ensures { result ≡ same_integer i j }
{
    i == j
}
