//! Constant expressions and their values.

ghost use Rattle.std.specs.Prelude.{◌≡◌, if◌then◌else◌};
ghost use Rattle.c_tree.specs.Shape.{binary_of, number_of};
ghost use Rattle.clight_types.specs.WordOperators.{word_operator, are_unsigned, shifted_unsigned, integer_cast, integer_chunk, value_chunk};
ghost use Rattle.clight_types.specs.Constants.{answered, constant_one, constant_two, truth_of, negated, constant_and, constant_or, constant_choice, constant_operated, constant_as, number_type, number_word, is_allowed_number};

use crate::conversions::common;
use crate::kind::{Constant, Integer, Value};
use c_tree::{BinaryOperator, Number};
use tso_words::{Chunk, Cond, Op, Val, eval_op};

/// The chunk in which an integer is kept.
pub fn chunk_of_integer(i: Integer) -> Chunk
    ensures { result ≡ integer_chunk i }
{
    match i {
        Integer::Char => Chunk::I8s,
        Integer::UnsignedChar => Chunk::I8u,
        Integer::Short => Chunk::I16s,
        Integer::UnsignedShort => Chunk::I16u,
        Integer::Int | Integer::UnsignedInt => Chunk::I32,
    }
}

/// The chunk in which a scalar is kept.
pub fn chunk_of(x: Value) -> Chunk
    ensures { result ≡ value_chunk x }
{
    match x {
        Value::Integer(i) => chunk_of_integer(i),
        Value::Pointer(_) | Value::Struct | Value::Void => Chunk::I32,
    }
}

/// The cast to an integer type; none to a type of four bytes.
pub fn cast_to(i: Integer) -> Option<Op>
    ensures { result ≡ integer_cast i }
{
    match i {
        Integer::Char => Some(Op::Cast8s),
        Integer::UnsignedChar => Some(Op::Cast8u),
        Integer::Short => Some(Op::Cast16s),
        Integer::UnsignedShort => Some(Op::Cast16u),
        Integer::Int | Integer::UnsignedInt => None,
    }
}

/// Whether two values are compared and divided as unsigned.
fn are_unsigned(a: Value, b: Value) -> bool
    ensures { result ≡ are_unsigned a b }
{
    match (a, b) {
        (Value::Integer(i), Value::Integer(j)) => matches!(common(i, j), Integer::UnsignedInt),
        _ => true,
    }
}

/// Whether a shift to the right of the value brings in zeros.
fn is_shifted_unsigned(a: Value) -> bool
    ensures { result ≡ shifted_unsigned a }
{
    match a {
        Value::Integer(i) => matches!(i, Integer::UnsignedInt),
        _ => true,
    }
}

fn by_sign(unsigned: bool, u: Op, s: Op) -> Op
    ensures { result ≡ (if unsigned then u else s) }
{
    if unsigned { u } else { s }
}

fn compare_by_sign(unsigned: bool, u: Cond, s: Cond) -> Op
    ensures { result ≡ Op.Cmp (if unsigned then u else s) }
{
    if unsigned { Op::Cmp(u) } else { Op::Cmp(s) }
}

/// The operator on words of an operator between two values.
pub fn word_operator(operator: BinaryOperator, a: Value, b: Value) -> Op
    ensures { result ≡ word_operator (binary_of operator) a b }
{
    let unsigned = are_unsigned(a, b);
    match operator {
        BinaryOperator::Plus => Op::Add,
        BinaryOperator::Minus => Op::Sub,
        BinaryOperator::Times => Op::Mul,
        BinaryOperator::BitAnd | BinaryOperator::LogicalAnd => Op::And,
        BinaryOperator::BitOr | BinaryOperator::LogicalOr => Op::Or,
        BinaryOperator::BitXor => Op::Xor,
        BinaryOperator::Divide => by_sign(unsigned, Op::DivU, Op::DivS),
        BinaryOperator::Remainder => by_sign(unsigned, Op::ModU, Op::ModS),
        BinaryOperator::ShiftLeft => Op::Shl,
        BinaryOperator::ShiftRight => by_sign(is_shifted_unsigned(a), Op::ShrU, Op::ShrS),
        BinaryOperator::Equal => Op::Cmp(Cond::Eq),
        BinaryOperator::NotEqual => Op::Cmp(Cond::Ne),
        BinaryOperator::Less => compare_by_sign(unsigned, Cond::LtU, Cond::LtS),
        BinaryOperator::LessEqual => compare_by_sign(unsigned, Cond::LeU, Cond::LeS),
        BinaryOperator::Greater => compare_by_sign(unsigned, Cond::GtU, Cond::GtS),
        BinaryOperator::GreaterEqual => compare_by_sign(unsigned, Cond::GeU, Cond::GeS),
    }
}

fn answered(answer: Option<Val>) -> Constant
    ensures { result ≡ answered answer }
{
    match answer {
        Some(Val::Word(word)) => Constant::Known(word),
        Some(Val::Undef) | None => Constant::WithoutValue,
    }
}

/// An operator on one constant.
pub fn constant_one(op: Op, c: Constant) -> Constant
    ensures { result ≡ constant_one op c }
{
    match c {
        Constant::Known(a) => answered(eval_op(op, &[Val::Word(a)])),
        other => other,
    }
}

/// An operator between two constants.
pub fn constant_two(op: Op, c: Constant, d: Constant) -> Constant
    ensures { result ≡ constant_two op c d }
{
    match (c, d) {
        (Constant::No, _) | (_, Constant::No) => Constant::No,
        (Constant::Known(a), Constant::Known(b)) => {
            answered(eval_op(op, &[Val::Word(a), Val::Word(b)]))
        }
        _ => Constant::WithoutValue,
    }
}

/// 1 for each word but 0.
fn truth(c: Constant) -> Constant
    ensures { result ≡ truth_of c }
{
    match c {
        Constant::Known(0) => Constant::Known(0),
        Constant::Known(_) => Constant::Known(1),
        other => other,
    }
}

/// 1 for 0 alone.
pub fn negated(c: Constant) -> Constant
    ensures { result ≡ negated c }
{
    match c {
        Constant::Known(0) => Constant::Known(1),
        Constant::Known(_) => Constant::Known(0),
        other => other,
    }
}

fn constant_and(c: Constant, d: Constant) -> Constant
    ensures { result ≡ constant_and c d }
{
    match (c, d) {
        (Constant::No, _) | (_, Constant::No) => Constant::No,
        (Constant::WithoutValue, _) => Constant::WithoutValue,
        (Constant::Known(0), _) => Constant::Known(0),
        (Constant::Known(_), other) => truth(other),
    }
}

fn constant_or(c: Constant, d: Constant) -> Constant
    ensures { result ≡ constant_or c d }
{
    match (c, d) {
        (Constant::No, _) | (_, Constant::No) => Constant::No,
        (Constant::WithoutValue, _) => Constant::WithoutValue,
        (Constant::Known(0), other) => truth(other),
        (Constant::Known(_), _) => Constant::Known(1),
    }
}

/// The constant of `c ? a : b`.
pub fn constant_choice(c: Constant, a: Constant, b: Constant) -> Constant
    ensures { result ≡ constant_choice c a b }
{
    match (c, a, b) {
        (Constant::No, _, _) | (_, Constant::No, _) | (_, _, Constant::No) => Constant::No,
        (Constant::WithoutValue, _, _) => Constant::WithoutValue,
        (Constant::Known(0), _, other) => other,
        (Constant::Known(_), other, _) => other,
    }
}

/// The constant of an operator between two values.
pub fn constant_operated(
    operator: BinaryOperator,
    a: Value,
    b: Value,
    c: Constant,
    d: Constant,
) -> Constant
    ensures { result ≡ constant_operated (binary_of operator) a b c d }
{
    match operator {
        BinaryOperator::LogicalAnd => constant_and(c, d),
        BinaryOperator::LogicalOr => constant_or(c, d),
        other => constant_two(word_operator(other, a, b), c, d),
    }
}

/// A constant as a value of another type: none but an integer type has constants.
pub fn constant_as(to: Value, c: Constant) -> Constant
    ensures { result ≡ constant_as to c }
{
    match to {
        Value::Integer(i) => match cast_to(i) {
            Some(op) => constant_one(op, c),
            None => c,
        },
        Value::Pointer(_) | Value::Struct | Value::Void => Constant::No,
    }
}

fn int_if_it_fits(word: u32) -> Integer
    ensures { result ≡ number_type (number_of (Number.OctalOrHexadecimal word)) }
{
    if word <= 2_147_483_647 {
        Integer::Int
    } else {
        Integer::UnsignedInt
    }
}

/// The type of a constant as it is written.
pub fn type_of_number(n: Number) -> Integer
    ensures { result ≡ number_type (number_of n) }
{
    match n {
        Number::Decimal(_) | Number::Character(_) => Integer::Int,
        Number::OctalOrHexadecimal(word) => int_if_it_fits(word),
        Number::DecimalUnsigned(_) | Number::OtherUnsigned(_) => Integer::UnsignedInt,
    }
}

/// The word of a constant as it is written; a character is a signed char.
pub fn word_of_number(n: Number) -> u32
    ensures { result ≡ number_word (number_of n) }
{
    match n {
        Number::Decimal(word)
        | Number::OctalOrHexadecimal(word)
        | Number::DecimalUnsigned(word)
        | Number::OtherUnsigned(word) => word,
        Number::Character(byte) => i32::from(byte.cast_signed()).cast_unsigned(),
    }
}

/// Whether a constant may stand: a decimal without `u` has to be an `int`.
pub fn is_allowed_number(n: Number) -> bool
    ensures { result ≡ is_allowed_number (number_of n) }
{
    match n {
        Number::Decimal(word) => word <= 2_147_483_647,
        _ => true,
    }
}
