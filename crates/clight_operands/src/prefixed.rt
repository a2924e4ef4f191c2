//! The operators before an operand.

ghost use Rattle.std.specs.Prelude.{◌≡◌};
ghost use Rattle.c_tree.specs.Shape.{unary_of};
ghost use Rattle.clight_types.specs.Judged.{Judges};
ghost use Rattle.clight_types.specs.Table.{types_of};
ghost use Rattle.clight_types.specs.Constants.{constant_one};
ghost use Rattle.clight_lang.specs.Syntax.{Unary};
ghost use Rattle.clight_operands.specs.Operands.{address_typed, addressed_by, pointed_to, dereferenced, sign_typed, read_in, value_in, unary_typed, has_size, denoted_size, value_size};
ghost use Rattle.clight_operands.specs.Shown.{typed_of, naming_of};

use crate::applied::unary;
use crate::operands::{not_typed, plain, read_of, refused, value_of};
use crate::typed::{Naming, Typed};
use c_tree::UnaryOperator;
use clight_types::constants::constant_one;
use clight_types::conversions::{is_integer_value, is_scalar_value, promoted_value};
use clight_types::types::size_of_integer;
use clight_types::{Constant, Denoted, Refusal, Rule, Types, Value, owed};
use std::alloc::Global;
use tso_words::Op;

/// `&`: the address of an object.
pub fn address_typed(at: u32, a: Typed) -> Result<Typed, Refusal>
    ensures { Judges (address_typed at (typed_of a) a.denoted) typed_of result }
{
    match a.denoted {
        Denoted::Object(t) => Ok(plain(
            at,
            Denoted::Value(Value::Pointer(t)),
            Constant::No,
            a.meaning,
        )),
        Denoted::Value(_) | Denoted::Function(_) => Err(refused(Rule::NoObject, at)),
    }
}

fn pointed_to(types: &Types, t: usize) -> Denoted
    ensures { result ≡ pointed_to (types_of types.now) t }
{
    if types.is_function(t) {
        Denoted::Function(t)
    } else {
        Denoted::Object(t)
    }
}

/// `*`: the object or the function that a pointer points to.
pub fn dereferenced(alloc: Global, types: &Types, at: u32, a: Typed) -> Result<Typed, Refusal>
    ensures { Judges (dereferenced (types_of types.now) at (typed_of a) (value_in (types_of types.now) (typed_of a))) typed_of result }
{
    match value_of(types, a.denoted) {
        Value::Pointer(t) => {
            owed(!types.is_void(t), Rule::Operands, at)?;
            let meaning = read_of(alloc, types, a.denoted, a.meaning)?;
            Ok(plain(at, pointed_to(types, t), Constant::No, meaning))
        }
        Value::Integer(_) | Value::Struct | Value::Void => Err(refused(Rule::Operands, at)),
    }
}

/// `-` and `~`, by their operator on words.
pub fn computed(alloc: Global, types: &Types, at: u32, op: Op, a: Typed) -> Result<Typed, Refusal>
    ensures { Judges (sign_typed (types_of types.now) at (typed_of a) (constant_one op a.constant) (Unary op (read_in (types_of types.now) (typed_of a)))) typed_of result }
{
    let value = value_of(types, a.denoted);
    owed(is_integer_value(value), Rule::Operands, at)?;
    let constant = constant_one(op, a.constant);
    let read = read_of(alloc, types, a.denoted, a.meaning)?;
    let meaning = unary(alloc, op, read)?;
    Ok(plain(at, Denoted::Value(promoted_value(value)), constant, meaning))
}

/// `+`: the promoted operand.
pub fn promoted(alloc: Global, types: &Types, at: u32, a: Typed) -> Result<Typed, Refusal>
    ensures { Judges (sign_typed (types_of types.now) at (typed_of a) a.constant (read_in (types_of types.now) (typed_of a))) typed_of result }
{
    let value = value_of(types, a.denoted);
    owed(is_integer_value(value), Rule::Operands, at)?;
    let constant = a.constant;
    let read = read_of(alloc, types, a.denoted, a.meaning)?;
    Ok(plain(at, Denoted::Value(promoted_value(value)), constant, read))
}

/// An operator before an operand.
pub fn unary_typed(
    alloc: Global,
    types: &Types,
    at: u32,
    operator: UnaryOperator,
    a: Typed,
) -> Result<Typed, Refusal>
    ensures { Judges (unary_typed (types_of types.now) at (unary_of operator) (typed_of a)) typed_of result }
{
    match operator {
        UnaryOperator::AddressOf => address_typed(at, a),
        UnaryOperator::Dereference => dereferenced(alloc, types, at, a),
        UnaryOperator::Plus => promoted(alloc, types, at, a),
        UnaryOperator::Minus => computed(alloc, types, at, Op::Neg, a),
        UnaryOperator::Complement => computed(alloc, types, at, Op::Not, a),
        UnaryOperator::Not => not_typed(alloc, types, at, a),
    }
}

/// The local that a lone name names.
pub fn addressed_by(naming: &Naming) -> Option<usize>
    ensures { result ≡ addressed_by (naming_of naming.now) }
{
    match naming {
        Naming::Local(number) => *number,
        Naming::Nothing | Naming::External(_) | Naming::Builtin(_) => None,
    }
}

/// Whether an object or a value has a size.
pub fn has_size(types: &Types, denoted: Denoted) -> bool
    ensures { result ≡ has_size (types_of types.now) denoted }
{
    match denoted {
        Denoted::Object(t) => types.is_complete(t),
        Denoted::Function(_) => false,
        Denoted::Value(x) => is_scalar_value(x),
    }
}

fn value_size(x: Value) -> u32
    ensures { result ≡ value_size x }
{
    match x {
        Value::Integer(i) => size_of_integer(i),
        Value::Pointer(_) => 4,
        Value::Struct | Value::Void => 0,
    }
}

/// The size of an object or a value in bytes; 0 where it has none.
pub fn denoted_size(types: &Types, denoted: Denoted) -> u32
    ensures { result ≡ denoted_size (types_of types.now) denoted }
{
    match denoted {
        Denoted::Object(t) => types.size(t),
        Denoted::Function(_) => 0,
        Denoted::Value(x) => value_size(x),
    }
}
