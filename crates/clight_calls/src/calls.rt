//! Calls of functions.

ghost use Rattle.std.specs.Prelude.{◌≡◌, IfOk, map};
ghost use Rattle.clight_types.specs.Judged.{Judges};
ghost use Rattle.clight_types.specs.Types.{shape_at, value_at};
ghost use Rattle.clight_types.specs.Table.{types_of};
ghost use Rattle.clight_calls.specs.Calls.{results_at, parameters_at, called_value, callee_in, call_by, typed_call};
ghost use Rattle.clight_lang.specs.Syntax.{expression_of};
ghost use Rattle.clight_operands.specs.Operands.{Inside, read_of as read_in_place};
ghost use Rattle.clight_operands.specs.Shown.{typed_of, all_typed, allowed_of, callee_of};

use crate::arguments::{arguments, refuse_conversions, refuse_structs};
use clight_lang::expression::Expr;
use clight_operands::assignments::{doing, may_stand};
use clight_operands::operands::{read_of, refused};
use clight_operands::typed::{Allowed, Callee, Deed, Naming, Typed};
use clight_types::{Denoted, Refusal, Rule, Shape, Types, Value, owed};
use std::alloc::{AllocError, Global};
use tso_words::NoMemory;

fn result_of(types: &Types, t: usize) -> usize
    ensures { result ≡ results_at (shape_at (types_of types.now) t) }
{
    match types.shape(t) {
        Some(Shape::Function { result, .. }) => *result,
        Some(
            Shape::Void
            | Shape::Integer(_)
            | Shape::Pointer(_)
            | Shape::Array { .. }
            | Shape::Struct(_),
        )
        | None => 0,
    }
}

fn parameters_of(types: &Types, t: usize) -> &[usize]
    ensures { result.now ≡ parameters_at (shape_at (types_of types.now) t) }
{
    match types.shape(t) {
        Some(Shape::Function { parameters, .. }) => parameters.as_slice(),
        Some(
            Shape::Void
            | Shape::Integer(_)
            | Shape::Pointer(_)
            | Shape::Array { .. }
            | Shape::Struct(_),
        )
        | None => &[],
    }
}

fn values_of(alloc: Global, types: &Types, numbers: &[usize]) -> Result<Vec<Value>, NoMemory>
    ensures { IfOk result (λ values. values.items ≡ map (value_at (types_of types.now)) numbers.now) }
{
    let mut values = Vec::new(alloc);
    for t in numbers {
        values.push(types.value(*t)).map_err(AllocError::from)?;
    }
    Ok(values)
}

/// The number of the type of the function that a value calls.
pub fn called_value(types: &Types, value: Value) -> Option<usize>
    ensures { result ≡ called_value (types_of types.now) value }
{
    match value {
        Value::Pointer(t) => { if types.is_function(t) { Some(t) } else { None } }
        Value::Integer(_) | Value::Struct | Value::Void => None,
    }
}

/// The function at the address that an expression gives.
fn inside(
    alloc: Global,
    types: &Types,
    t: usize,
    denoted: Denoted,
    meaning: Expr,
) -> Result<Callee, NoMemory>
    ensures { IfOk result (λ r. callee_of r ≡ Inside t (read_in_place (types_of types.now) denoted (expression_of meaning))) }
{
    let address = read_of(alloc, types, denoted, meaning)?;
    Ok(Callee::Inside(t, address))
}

fn callee_of(alloc: Global, types: &Types, t: usize, f: Typed) -> Result<Callee, NoMemory>
    ensures { IfOk result (λ r. callee_of r ≡ callee_in (types_of types.now) t (typed_of f).naming (typed_of f)) }
{
    let Typed {
        at: _,
        denoted,
        constant: _,
        naming,
        meaning,
        deed: _,
    } = f;
    match naming {
        Naming::Builtin(builtin) => Ok(Callee::Provided(builtin)),
        Naming::External(name) => Ok(Callee::Outside(name, t)),
        Naming::Nothing => inside(alloc, types, t, denoted, meaning),
        Naming::Local(_) => inside(alloc, types, t, denoted, meaning),
    }
}

/// A call of a function that takes and gives these values.
fn call_by(
    alloc: Global,
    types: &Types,
    allowed: Allowed,
    at: u32,
    op_at: u32,
    f: Typed,
    args: Vec<Typed>,
    t: usize,
    gives: Value,
    takes: &[Value],
) -> Result<Typed, Refusal>
    ensures { Judges (call_by (types_of types.now) (allowed_of allowed) at op_at (typed_of f) (all_typed args.items) t gives takes.now) typed_of result }
{
    refuse_structs(types, &args)?;
    refuse_conversions(types, &args, takes)?;
    owed(args.len() == takes.len(), Rule::Call, f.at)?;
    owed(may_stand(allowed, true), Rule::EffectPlace, op_at)?;
    let callee = callee_of(alloc, types, t, f)?;
    let values = arguments(alloc, types, args, takes)?;
    Ok(doing(alloc, at, gives, Deed::Call(callee, values, gives))?)
}

/// A call of a function of a type, where it is one.
pub fn typed_call(
    alloc: Global,
    types: &Types,
    allowed: Allowed,
    at: u32,
    op_at: u32,
    f: Typed,
    args: Vec<Typed>,
    called: Option<usize>,
) -> Result<Typed, Refusal>
    ensures { Judges (typed_call (types_of types.now) (allowed_of allowed) at op_at (typed_of f) (all_typed args.items) called) typed_of result }
{
    match called {
        Some(t) => {
            let takes = values_of(alloc, types, parameters_of(types, t))?;
            let gives = types.value(result_of(types, t));
            call_by(alloc, types, allowed, at, op_at, f, args, t, gives, &takes)
        }
        None => {
            refuse_structs(types, &args)?;
            Err(refused(Rule::Call, f.at))
        }
    }
}
