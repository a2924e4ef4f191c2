//! Calls of atomics, and calls of all kinds.

ghost use Rattle.std.specs.Prelude.{◌≡◌, [], ◌∷◌, IfOk, MatchOption, map, replicate};
ghost use Rattle.clight_lang.specs.Syntax.{expression_of};
ghost use Rattle.clight_types.specs.Judged.{Judges};
ghost use Rattle.clight_types.specs.Table.{types_of};
ghost use Rattle.clight_operands.specs.Operands.{read_in};
ghost use Rattle.clight_operands.specs.Shown.{typed_of, all_typed, allowed_of};
ghost use Rattle.clight_calls.specs.Builtins.{atomic_arguments};
ghost use Rattle.clight_calls.specs.Calls.{no_structs, arguments_of, is_atomic_scalar, atomic_target, atomic_of, atomic_by, atomic_typed, builtin_call, call_typed};

use crate::arguments::{arguments_behind, refuse_conversions, refuse_structs};
use crate::builtins::{atomic_arguments, builtin_type};
use crate::calls::{called_value, typed_call};
use clight_lang::expression::Expr;
use clight_lang::statement::Builtin;
use clight_operands::assignments::{doing, may_stand};
use clight_operands::operands::{is_struct_expression, read_of, refused, value_of};
use clight_operands::typed::{Allowed, Callee, Deed, Naming, Typed};
use clight_types::{Integer, Refusal, Rule, Types, Value, owed};
use std::alloc::{AllocError, Global};
use tso_words::NoMemory;

fn is_atomic_scalar(builtin: Builtin, value: Value) -> bool
    ensures { result ≡ is_atomic_scalar builtin value }
{
    match value {
        Value::Integer(Integer::Int | Integer::UnsignedInt) => true,
        Value::Pointer(_) => !matches!(builtin, Builtin::AtomicAdd),
        Value::Integer(_) | Value::Struct | Value::Void => false,
    }
}

/// What the first argument of an atomic points to, where the atomic takes it.
fn atomic_target(types: &Types, builtin: Builtin, value: Value) -> Option<Value>
    ensures { result ≡ atomic_target (types_of types.now) builtin value }
{
    match value {
        Value::Pointer(t) => {
            let target = types.value(t);
            if types.is_scalar(t) && is_atomic_scalar(builtin, target) {
                Some(target)
            } else {
                None
            }
        }
        Value::Integer(_) | Value::Struct | Value::Void => None,
    }
}

/// The first argument and those behind it.
#[tactic(auto, using(crate::proofs::Front::front_removed))]
fn split_first(args: Vec<Typed>) -> Option<(Typed, Vec<Typed>)>
    ensures { MatchOption result (args.items ≡ []) (λ split. args.items ≡ split.0 ∷ split.1.items) }
{
    let mut others = args;
    if others.is_empty() {
        None
    } else {
        let first = others.remove(0);
        Some((first, others))
    }
}

/// A type so many times.
fn repeated(alloc: Global, value: Value, count: usize) -> Result<Vec<Value>, NoMemory>
    ensures { IfOk result (λ values. values.items ≡ replicate count value) }
{
    let mut values = Vec::new(alloc);
    values.resize(count, value)?;
    Ok(values)
}

/// What an atomic is passed: its pointer, and the others as values of their types.
fn passed(
    alloc: Global,
    types: &Types,
    pointer: Typed,
    others: Vec<Typed>,
    takes: &[Value],
) -> Result<Vec<Expr>, NoMemory>
    ensures { IfOk result (λ es. map expression_of es.items ≡ read_in (types_of types.now) (typed_of pointer) ∷ arguments_of (types_of types.now) (all_typed others.items) takes.now) }
{
    let read = read_of(alloc, types, pointer.denoted, pointer.meaning)?;
    let mut made = Vec::new(alloc);
    made.push(read).map_err(AllocError::from)?;
    arguments_behind(alloc, types, made, others, takes)
}

/// A call of an atomic on values of a type, which takes these types behind its pointer.
fn atomic_of(
    alloc: Global,
    types: &Types,
    allowed: Allowed,
    at: u32,
    op_at: u32,
    f_at: u32,
    builtin: Builtin,
    count: usize,
    pointer: Typed,
    others: Vec<Typed>,
    target: Value,
    takes: &[Value],
) -> Result<Typed, Refusal>
    ensures { Judges (atomic_of (types_of types.now) (allowed_of allowed) at op_at f_at builtin count (typed_of pointer) (all_typed others.items) target takes.now) typed_of result }
{
    refuse_conversions(types, &others, takes)?;
    owed(others.len() == count, Rule::Call, f_at)?;
    owed(may_stand(allowed, true), Rule::EffectPlace, op_at)?;
    let values = passed(alloc, types, pointer, others, takes)?;
    let deed = Deed::Call(Callee::Provided(builtin), values, target);
    Ok(doing(alloc, at, target, deed)?)
}

/// A call of an atomic, by what its pointer points to.
fn atomic_by(
    alloc: Global,
    types: &Types,
    allowed: Allowed,
    at: u32,
    op_at: u32,
    f_at: u32,
    builtin: Builtin,
    count: usize,
    pointer: Typed,
    others: Vec<Typed>,
    target: Option<Value>,
) -> Result<Typed, Refusal>
    ensures { Judges (atomic_by (types_of types.now) (allowed_of allowed) at op_at f_at builtin count (typed_of pointer) (all_typed others.items) target) typed_of result }
{
    match target {
        Some(target) => {
            let takes = repeated(alloc, target, count)?;
            atomic_of(
                alloc, types, allowed, at, op_at, f_at, builtin, count, pointer, others, target,
                &takes,
            )
        }
        None => {
            owed(others.len() == count, Rule::Call, f_at)?;
            owed(may_stand(allowed, true), Rule::EffectPlace, op_at)?;
            Err(refused(Rule::AtomicPlace, f_at))
        }
    }
}

/// A call of an atomic on a first argument and those behind it.
fn atomic_behind(
    alloc: Global,
    types: &Types,
    allowed: Allowed,
    at: u32,
    op_at: u32,
    f_at: u32,
    builtin: Builtin,
    count: usize,
    pointer: Typed,
    others: Vec<Typed>,
) -> Result<Typed, Refusal>
    ensures { Judges (atomic_typed (types_of types.now) (allowed_of allowed) at op_at f_at builtin count (typed_of pointer ∷ all_typed others.items)) typed_of result }
{
    owed(
        !is_struct_expression(types, &pointer),
        Rule::StructValue,
        pointer.at,
    )?;
    refuse_structs(types, &others)?;
    let target = atomic_target(types, builtin, value_of(types, pointer.denoted));
    atomic_by(
        alloc, types, allowed, at, op_at, f_at, builtin, count, pointer, others, target,
    )
}

/// A call of an atomic that takes so many arguments behind its first one.
fn atomic_typed(
    alloc: Global,
    types: &Types,
    allowed: Allowed,
    at: u32,
    op_at: u32,
    f_at: u32,
    builtin: Builtin,
    count: usize,
    args: Vec<Typed>,
) -> Result<Typed, Refusal>
    ensures { Judges (atomic_typed (types_of types.now) (allowed_of allowed) at op_at f_at builtin count (all_typed args.items)) typed_of result }
{
    match split_first(args) {
        Some((pointer, others)) => atomic_behind(
            alloc, types, allowed, at, op_at, f_at, builtin, count, pointer, others,
        ),
        None => Err(refused(Rule::Call, f_at)),
    }
}

fn builtin_call(
    alloc: Global,
    types: &Types,
    allowed: Allowed,
    at: u32,
    op_at: u32,
    f: Typed,
    args: Vec<Typed>,
    builtin: Builtin,
) -> Result<Typed, Refusal>
    ensures { Judges (builtin_call (types_of types.now) (allowed_of allowed) at op_at (typed_of f) (all_typed args.items) builtin (atomic_arguments builtin)) typed_of result }
{
    match atomic_arguments(builtin) {
        Some(count) => atomic_typed(alloc, types, allowed, at, op_at, f.at, builtin, count, args),
        None => {
            let called = builtin_type(builtin);
            typed_call(alloc, types, allowed, at, op_at, f, args, called)
        }
    }
}

/// A call: of a builtin by its name, and of any other function by its type.
pub fn call_typed(
    alloc: Global,
    types: &Types,
    allowed: Allowed,
    at: u32,
    op_at: u32,
    f: Typed,
    args: Vec<Typed>,
) -> Result<Typed, Refusal>
    ensures { Judges (call_typed (types_of types.now) (allowed_of allowed) at op_at (typed_of f) (all_typed args.items)) typed_of result }
{
    if let Naming::Builtin(builtin) = &f.naming {
        let builtin = *builtin;
        return builtin_call(alloc, types, allowed, at, op_at, f, args, builtin);
    }
    let called = called_value(types, value_of(types, f.denoted));
    typed_call(alloc, types, allowed, at, op_at, f, args, called)
}
