//! Calls and assignments. Each takes the first fresh temporary, and gives the first behind its own.

ghost use Rattle.std.specs.Prelude.{◌≡◌, ◌+◌, IfOk, map};
ghost use Rattle.c_tree.specs.Shape.{binary_of};
ghost use Rattle.clight_lang.specs.Syntax.{expression_of, statement_of, Set, Read, Temp};
ghost use Rattle.clight_operands.specs.Shown.{callee_of, source_of, deed_of};
ghost use Rattle.clight_operands.specs.Operands.{FromValue, FromCall};
ghost use Rattle.clight_placing.specs.Placing.{placed, call_into, assigned, updated_value, updated, deed_meant};
ghost use Rattle.clight_placing.specs.InnerOf.{inner_of};
ghost use Rattle.clight_placing.specs.Listed.{meant_of};

use crate::expressions::{placed, placed_all, temp_of};
use crate::inner::Inner;
use crate::lists::{behind, block_three, block_two, set, store};
use c_tree::BinaryOperator;
use clight_calls::names::copied;
use clight_lang::expression::Expr;
use clight_lang::leading::shared;
use clight_lang::statement::Stmt;
use clight_operands::applied::{applied, converted};
use clight_operands::typed::{Callee, Deed, Source};
use clight_types::Value;
use clight_types::constants::chunk_of;
use std::alloc::{AllocError, Global};
use std::rc::Rc;
use tso_words::{Chunk, NoMemory};

/// A call into a temporary.
pub fn call_into(
    alloc: Global,
    inner: &Inner,
    temp: usize,
    callee: &Callee,
    arguments: &[Expr],
) -> Result<Rc<Stmt>, NoMemory>
    ensures { IfOk result (λ s. statement_of s.value ≡ call_into (inner_of inner.now) temp (callee_of callee.now) (map expression_of arguments.now)) }
{
    let arguments = placed_all(alloc, inner, arguments)?;
    match callee {
        Callee::Inside(t, f) => {
            let f = placed(alloc, inner, f)?;
            shared(alloc, Stmt::Call(temp, inner.type_number(*t), f, arguments))
        }
        Callee::Outside(name, t) => {
            let name = copied(name)?;
            shared(
                alloc,
                Stmt::External(temp, name, inner.type_number(*t), arguments),
            )
        }
        Callee::Provided(builtin) => shared(alloc, Stmt::Builtin(temp, *builtin, arguments)),
    }
}

/// The value of an expression becomes that of a temporary.
pub fn set_placed(alloc: Global, inner: &Inner, temp: usize, e: &Expr) -> Result<Rc<Stmt>, NoMemory>
    ensures { IfOk result (λ s. statement_of s.value ≡ Set temp (placed (inner_of inner.now) (expression_of e.now))) }
{
    let e = placed(alloc, inner, e)?;
    set(alloc, temp, e)
}

/// `x = e`.
fn value_assigned(
    alloc: Global,
    inner: &Inner,
    next: usize,
    temp: Option<usize>,
    place: &Expr,
    to: Value,
    e: &Expr,
) -> Result<(Rc<Stmt>, usize), NoMemory>
    ensures { IfOk result (λ r. meant_of r ≡ assigned (inner_of inner.now) next temp (expression_of place.now) to (FromValue (expression_of e.now))) }
{
    match temp {
        Some(x) => Ok((set_placed(alloc, inner, x, e)?, next)),
        None => {
            let place = placed(alloc, inner, place)?;
            let e = placed(alloc, inner, e)?;
            Ok((store(alloc, to, place, e)?, next))
        }
    }
}

/// `x = f(..)`: the place is found before the call, and the value is converted when it comes.
fn call_assigned(
    alloc: Global,
    inner: &Inner,
    next: usize,
    temp: Option<usize>,
    place: &Expr,
    to: Value,
    callee: &Callee,
    arguments: &[Expr],
    from: Value,
) -> Result<(Rc<Stmt>, usize), NoMemory>
    ensures { IfOk result (λ r. meant_of r ≡ assigned (inner_of inner.now) next temp (expression_of place.now) to (FromCall (callee_of callee.now) (map expression_of arguments.now) from)) }
{
    let second = behind(next)?;
    match temp {
        Some(x) => {
            let call = call_into(alloc, inner, next, callee, arguments)?;
            let value = converted(alloc, from, to, Expr::Temp(next))?;
            let set = set(alloc, x, value)?;
            Ok((block_two(alloc, call, set)?, second))
        }
        None => {
            let third = behind(second)?;
            let set = set_placed(alloc, inner, next, place)?;
            let call = call_into(alloc, inner, second, callee, arguments)?;
            let value = converted(alloc, from, to, Expr::Temp(second))?;
            let store = store(alloc, to, Expr::Temp(next), value)?;
            Ok((block_three(alloc, set, call, store)?, third))
        }
    }
}

fn assigned(
    alloc: Global,
    inner: &Inner,
    next: usize,
    temp: Option<usize>,
    place: &Expr,
    to: Value,
    source: &Source,
) -> Result<(Rc<Stmt>, usize), NoMemory>
    ensures { IfOk result (λ r. meant_of r ≡ assigned (inner_of inner.now) next temp (expression_of place.now) to (source_of source.now)) }
{
    match source {
        Source::Value(e) => value_assigned(alloc, inner, next, temp, place, to, e),
        Source::Call(callee, arguments, from) => call_assigned(
            alloc, inner, next, temp, place, to, callee, arguments, *from,
        ),
    }
}

/// What `x op= e` stores: the operator on the old value, as a value of the place's type.
fn updated_value(
    alloc: Global,
    inner: &Inner,
    to: Value,
    operator: BinaryOperator,
    other: Value,
    operand: &Expr,
    given: Value,
    old: Expr,
) -> Result<Expr, NoMemory>
    ensures { IfOk result (λ r. expression_of r ≡ updated_value (inner_of inner.now) to (binary_of operator) other (expression_of operand.now) given (expression_of old)) }
{
    let operand = placed(alloc, inner, operand)?;
    let value = applied(alloc, inner.types, operator, to, other, old, operand)?;
    converted(alloc, given, to, value)
}

fn read_temp(alloc: Global, chunk: Chunk, temp: usize) -> Result<Expr, NoMemory>
    ensures { IfOk result (λ r. expression_of r ≡ Read chunk (Temp temp)) }
{
    let address = Box::new(alloc, Expr::Temp(temp)).map_err(AllocError::from)?;
    Ok(Expr::Read(chunk, address))
}

/// `x op= e`: the place is found once.
fn updated(
    alloc: Global,
    inner: &Inner,
    next: usize,
    temp: Option<usize>,
    place: &Expr,
    to: Value,
    operator: BinaryOperator,
    other: Value,
    operand: &Expr,
    given: Value,
) -> Result<(Rc<Stmt>, usize), NoMemory>
    ensures { IfOk result (λ r. meant_of r ≡ updated (inner_of inner.now) next temp (expression_of place.now) to (binary_of operator) other (expression_of operand.now) given) }
{
    match temp {
        Some(x) => {
            let old = Expr::Temp(x);
            let value = updated_value(alloc, inner, to, operator, other, operand, given, old)?;
            Ok((set(alloc, x, value)?, next))
        }
        None => {
            let after = behind(next)?;
            let set = set_placed(alloc, inner, next, place)?;
            let old = read_temp(alloc, chunk_of(to), next)?;
            let value = updated_value(alloc, inner, to, operator, other, operand, given, old)?;
            let store = store(alloc, to, Expr::Temp(next), value)?;
            Ok((block_two(alloc, set, store)?, after))
        }
    }
}

/// What an expression with an effect does, as a statement, and the first temporary behind its own.
pub fn deed_meant(
    alloc: Global,
    inner: &Inner,
    next: usize,
    deed: &Deed,
) -> Result<(Rc<Stmt>, usize), NoMemory>
    ensures { IfOk result (λ r. meant_of r ≡ deed_meant (inner_of inner.now) next (deed_of deed.now)) }
{
    match deed {
        Deed::Call(callee, arguments, _) => {
            let after = behind(next)?;
            Ok((call_into(alloc, inner, next, callee, arguments)?, after))
        }
        Deed::Assign(place, to, source) => {
            let temp = temp_of(inner, place);
            assigned(alloc, inner, next, temp, place, *to, source)
        }
        Deed::Update {
            place,
            value,
            operator,
            other,
            operand,
            given,
        } => {
            let temp = temp_of(inner, place);
            updated(
                alloc, inner, next, temp, place, *value, *operator, *other, operand, *given,
            )
        }
    }
}
