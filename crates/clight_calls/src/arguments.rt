//! The arguments of a call.

ghost use Rattle.std.specs.Prelude.{◌≡◌, ◌++◌, IfOk, map};
ghost use Rattle.clight_lang.specs.Syntax.{expression_of};
ghost use Rattle.clight_types.specs.Table.{types_of};
ghost use Rattle.clight_calls.specs.Calls.{no_structs, all_convert, arguments_of};
ghost use Rattle.clight_operands.specs.Shown.{all_typed};
ghost use Rattle.clight_calls.specs.Passing.{Passes};

use clight_lang::expression::Expr;
use clight_operands::operands::{as_value, converts_to, is_struct_expression};
use clight_operands::typed::Typed;
use clight_types::{Refusal, Rule, Types, Value, owed};
use std::alloc::{AllocError, Global};
use tso_words::NoMemory;

/// No argument is a struct.
pub fn refuse_structs(types: &Types, args: &[Typed]) -> Result<(), Refusal>
    ensures { Passes (no_structs (types_of types.now) (all_typed args.now)) result }
{
    for arg in args {
        owed(!is_struct_expression(types, arg), Rule::StructValue, arg.at)?;
    }
    Ok(())
}

/// Each argument converts to its parameter, as far as there are both.
pub fn refuse_conversions(
    types: &Types,
    args: &[Typed],
    parameters: &[Value],
) -> Result<(), Refusal>
    ensures { Passes (all_convert (types_of types.now) (all_typed args.now) parameters.now) result }
{
    let mut rest = parameters;
    for arg in args {
        let [to, others @ ..] = rest else {
            return Ok(());
        };
        owed(
            is_struct_expression(types, arg) || converts_to(types, *to, arg),
            Rule::NeedsCast,
            arg.at,
        )?;
        rest = others;
    }
    Ok(())
}

/// The arguments as values of their parameters, as far as there are both.
pub fn arguments(
    alloc: Global,
    types: &Types,
    args: Vec<Typed>,
    parameters: &[Value],
) -> Result<Vec<Expr>, NoMemory>
    ensures { IfOk result (λ es. map expression_of es.items ≡ arguments_of (types_of types.now) (all_typed args.items) parameters.now) }
{
    arguments_behind(alloc, types, Vec::new(alloc), args, parameters)
}

/// The same behind those that are made already.
pub fn arguments_behind(
    alloc: Global,
    types: &Types,
    made: Vec<Expr>,
    args: Vec<Typed>,
    parameters: &[Value],
) -> Result<Vec<Expr>, NoMemory>
    ensures { IfOk result (λ es. map expression_of es.items ≡ map expression_of made.items ++ arguments_of (types_of types.now) (all_typed args.items) parameters.now) }
{
    let mut made = made;
    let mut rest = parameters;
    for arg in args {
        let [to, others @ ..] = rest else {
            return Ok(made);
        };
        let value = as_value(alloc, types, *to, arg)?;
        made.push(value).map_err(AllocError::from)?;
        rest = others;
    }
    Ok(made)
}
