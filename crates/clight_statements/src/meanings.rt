//! What an expression does that stands in a statement, once it is judged.

ghost use Rattle.std.specs.Prelude.{◌≡◌, IfOk};
ghost use Rattle.clight_lang.specs.Syntax.{expression_of};
ghost use Rattle.clight_types.specs.Table.{types_of};
ghost use Rattle.clight_operands.specs.Applied.{converted};
ghost use Rattle.clight_operands.specs.Operands.{denoted_value, read_of as read_in_place};
ghost use Rattle.clight_operands.specs.Shown.{typed_of};
ghost use Rattle.clight_typing.specs.Statements.{statement_made, return_made};
ghost use Rattle.clight_made.specs.MadeOf.{made_of};

use clight_lang::expression::Expr;
use clight_made::Made;
use clight_operands::applied::converted;
use clight_operands::operands::{read_of, value_of};
use clight_operands::{Deed, Typed};
use clight_types::{Denoted, Types, Value};
use std::alloc::Global;
use tso_words::NoMemory;

/// What is denoted, as a value of another type.
fn read_as(
    alloc: Global,
    types: &Types,
    to: Value,
    denoted: Denoted,
    meaning: Expr,
) -> Result<Expr, NoMemory>
    ensures { IfOk result (λ r. expression_of r ≡ converted (denoted_value (types_of types.now) denoted) to (read_in_place (types_of types.now) denoted (expression_of meaning))) }
{
    let from = value_of(types, denoted);
    let read = read_of(alloc, types, denoted, meaning)?;
    converted(alloc, from, to, read)
}

/// What an expression does as a statement: its effect, or nothing with its value.
#[tactic(auto, using(crate::proofs::Deeds::deed_kept))]
pub fn statement_made(alloc: Global, types: &Types, e: Typed) -> Result<Made, NoMemory>
    ensures { IfOk result (λ m. made_of m ≡ statement_made (types_of types.now) (typed_of e) (typed_of e).deed) }
{
    let Typed {
        at: _,
        denoted,
        constant: _,
        naming: _,
        meaning,
        deed,
    } = e;
    match deed {
        Some(deed) => Ok(Made::Deed(Box::into_inner(deed))),
        None => Ok(Made::Evaluated(read_of(alloc, types, denoted, meaning)?)),
    }
}

/// What `return` does with an expression: the value of a call is converted when it comes.
pub fn return_made(alloc: Global, types: &Types, t: usize, e: Typed) -> Result<Made, NoMemory>
    ensures { IfOk result (λ m. made_of m ≡ return_made (types_of types.now) t (typed_of e) (typed_of e).deed) }
{
    let to = types.value(t);
    let Typed {
        at: _,
        denoted,
        constant: _,
        naming: _,
        meaning,
        deed,
    } = e;
    if let Some(deed) = deed {
        if let Deed::Call(callee, arguments, value) = Box::into_inner(deed) {
            return Ok(Made::ReturnCall(callee, arguments, value, to));
        }
    }
    let value = read_as(alloc, types, to, denoted, meaning)?;
    Ok(Made::Return(Some(value)))
}
