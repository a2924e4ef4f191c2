//! What operators and comparisons answer, computed with the machine's operations on 32 bits.
ghost use Rattle.std.specs.Prelude.{◌≡◌, ◌%◌, ◌^◌, option_map};
ghost use Rattle.tso_words.specs.Words.{extend_sign};
ghost use Rattle.tso_words.specs.Operators.{operate, operate_one, operate_two, compare, holds};

use crate::operator::{Cond, Op};
use crate::value::Val;

/// What the operator answers. `None` is a wrong operation: another number of operands than the
/// operator takes, a division by 0, a signed one of -2147483648 by -1, a count of 32 or more, or a
/// dividend, divisor or count that is not known. It allocates nothing.
pub fn eval_op(op: Op, args: &[Val]) -> Option<Val>
    ensures { result ≡ operate op args.now }
{
    match args {
        [a] => one_operand(op, *a),
        [a, b] => two_operands(op, *a, *b),
        _ => None,
    }
}

/// Whether the comparison holds; `None` where one of the values is not known.
pub fn eval_cond(c: Cond, a: Val, b: Val) -> Option<bool>
    ensures { result ≡ compare c a b }
{
    match (a, b) {
        (Val::Word(a), Val::Word(b)) => Some(word_cond(c, a, b)),
        _ => None,
    }
}

fn word_cond(c: Cond, a: u32, b: u32) -> bool
    ensures { result ≡ holds c a b }
{
    match c {
        Cond::Eq => a == b,
        Cond::Ne => a != b,
        Cond::LtS => a.cast_signed() < b.cast_signed(),
        Cond::LeS => a.cast_signed() <= b.cast_signed(),
        Cond::GtS => a.cast_signed() > b.cast_signed(),
        Cond::GeS => a.cast_signed() >= b.cast_signed(),
        Cond::LtU => a < b,
        Cond::LeU => a <= b,
        Cond::GtU => a > b,
        Cond::GeU => a >= b,
    }
}

fn one_operand(op: Op, a: Val) -> Option<Val>
    ensures { result ≡ operate_one op a }
{
    match a {
        Val::Undef => match op {
            Op::Neg | Op::Not | Op::Cast8s | Op::Cast8u | Op::Cast16s | Op::Cast16u => {
                Some(Val::Undef)
            }
            _ => None,
        },
        Val::Word(a) => match op {
            Op::Neg => Some(Val::Word(a.wrapping_neg())),
            Op::Not => Some(Val::Word(!a)),
            Op::Cast8s => Some(Val::Word(sign_extended_8(a))),
            Op::Cast8u => Some(Val::Word(a & 0xff)),
            Op::Cast16s => Some(Val::Word(sign_extended_16(a))),
            Op::Cast16u => Some(Val::Word(a & 0xffff)),
            _ => None,
        },
    }
}

fn sign_extended_8(a: u32) -> u32
    ensures { result ≡ extend_sign 8 (a % 2 ^ 8) }
{
    let low = (a & 0xff) as u8;
    i32::from(low.cast_signed()).cast_unsigned()
}

fn sign_extended_16(a: u32) -> u32
    ensures { result ≡ extend_sign 16 (a % 2 ^ 16) }
{
    let low = (a & 0xffff) as u16;
    i32::from(low.cast_signed()).cast_unsigned()
}

fn two_operands(op: Op, a: Val, b: Val) -> Option<Val>
    ensures { result ≡ operate_two op a b }
{
    match (a, b) {
        (Val::Word(a), Val::Word(b)) => Some(Val::Word(two_words(op, a, b)?)),
        (Val::Undef, Val::Word(count)) => unknown_first(op, count),
        (_, Val::Undef) => unknown_second(op),
    }
}

/// The answer where the first operand is not known: a shift needs its count alone.
fn unknown_first(op: Op, b: u32) -> Option<Val>
    ensures { result ≡ operate_two op Val.Undef (Val.Word b) }
{
    match op {
        Op::Shl | Op::ShrS | Op::ShrU if b < 32 => Some(Val::Undef),
        Op::Shl | Op::ShrS | Op::ShrU => None,
        _ => unknown_second(op),
    }
}

/// The answer where the second operand is not known.
fn unknown_second(op: Op) -> Option<Val>
    ensures { (a : Val) → result ≡ operate_two op a Val.Undef }
{
    match op {
        Op::Add | Op::Sub | Op::Mul | Op::And | Op::Or | Op::Xor | Op::Cmp(_) => Some(Val::Undef),
        _ => None,
    }
}

fn two_words(op: Op, a: u32, b: u32) -> Option<u32>
    ensures { option_map Val.Word result ≡ operate_two op (Val.Word a) (Val.Word b) }
{
    match op {
        Op::Add => Some(a.wrapping_add(b)),
        Op::Sub => Some(a.wrapping_sub(b)),
        Op::Mul => Some(a.wrapping_mul(b)),
        Op::And => Some(a & b),
        Op::Or => Some(a | b),
        Op::Xor => Some(a ^ b),
        Op::DivS => Some(
            a.cast_signed()
                .checked_div(b.cast_signed())?
                .cast_unsigned(),
        ),
        Op::ModS => Some(
            a.cast_signed()
                .checked_rem(b.cast_signed())?
                .cast_unsigned(),
        ),
        Op::DivU => a.checked_div(b),
        Op::ModU => a.checked_rem(b),
        Op::Shl => a.checked_shl(b),
        Op::ShrS => Some(a.cast_signed().checked_shr(b)?.cast_unsigned()),
        Op::ShrU => a.checked_shr(b),
        Op::Cmp(c) => Some(u32::from(word_cond(c, a, b))),
        Op::Neg | Op::Not | Op::Cast8s | Op::Cast8u | Op::Cast16s | Op::Cast16u => None,
    }
}
