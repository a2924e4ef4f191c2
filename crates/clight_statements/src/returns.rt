//! `return`.

ghost use Rattle.c_tree.specs.FileShape.{optional_of};
ghost use Rattle.clight_types.specs.Judged.{Judges};
ghost use Rattle.clight_types.specs.Table.{types_of};
ghost use Rattle.clight_scopes.specs.SceneOf.{scene_of};
ghost use Rattle.clight_operands.specs.Shown.{typed_of};
ghost use Rattle.clight_typing.specs.Statements.{value_returned, return_judged};
ghost use Rattle.clight_made.specs.MadeOf.{made_of};

use crate::meanings::return_made;
use c_tree::Expr;
use clight_expressions::typing::typed;
use clight_made::Made;
use clight_operands::operands::{converts_to, is_struct_expression};
use clight_operands::{Allowed, Typed};
use clight_scopes::Scene;
use clight_types::{Refusal, Rule, Types, owed};
use std::alloc::Global;

/// A value is returned: it converts to the type of the function's result, which is not `void`.
fn value_returned(
    alloc: Global,
    types: &Types,
    at: u32,
    t: usize,
    e: Typed,
) -> Result<Made, Refusal>
    ensures { Judges (value_returned (types_of types.now) at t (typed_of e)) made_of result }
{
    let is_void = types.is_void(t);
    let converts = converts_to(types, types.value(t), &e);
    owed(!is_struct_expression(types, &e), Rule::StructValue, e.at)?;
    owed(is_void || converts, Rule::NeedsCast, e.at)?;
    owed(!is_void, Rule::Return, at)?;
    Ok(return_made(alloc, types, t, e)?)
}

/// `return`, with a value where the function gives one.
pub fn return_judged(
    alloc: Global,
    scene: &mut Scene,
    at: u32,
    t: usize,
    value: &Option<Expr>,
) -> Result<Made, Refusal>
    ensures { Judges (return_judged (scene_of scene.old) at t (optional_of value.now)) (λ m. (scene_of scene.new, made_of m)) result }
{
    match value {
        Some(expr) => {
            let e = typed(alloc, scene, Allowed::Call, false, expr)?;
            let made = value_returned(alloc, &scene.types, at, t, e)?;
            Ok(made)
        }
        None => {
            owed(scene.types.is_void(t), Rule::Return, at)?;
            Ok(Made::Return(None))
        }
    }
}
