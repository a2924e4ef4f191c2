//! Operators before an operand, of which `&` takes the address of a local.

ghost use Rattle.std.specs.Prelude.{◌≡◌, OnOk};
ghost use Rattle.c_tree.specs.Shape.{unary_of};
ghost use Rattle.clight_types.specs.Judged.{Judges};
ghost use Rattle.clight_types.specs.Table.{types_of};
ghost use Rattle.clight_scopes.specs.SceneOf.{scene_of};
ghost use Rattle.clight_operands.specs.Operands.{unary_typed as operand_typed};
ghost use Rattle.clight_operands.specs.Shown.{typed_of, naming_of};
ghost use Rattle.clight_calls.specs.Names.{scene_behind, is_ampersand};
ghost use Rattle.clight_typing.specs.Typing.{beside};
ghost use Rattle.clight_specifiers.specs.TypingOf.{noted_local};

use c_tree::UnaryOperator;
use clight_operands::Typed;
use clight_operands::prefixed::{addressed_by, unary_typed};
use clight_operands::typed::Naming;
use clight_scopes::Scene;
use clight_types::Refusal;
use std::alloc::Global;

/// The local whose address the operator takes.
fn noted_local(operator: UnaryOperator, naming: &Naming) -> Option<usize>
    ensures { result ≡ noted_local (unary_of operator) (naming_of naming.now) }
{
    match operator {
        UnaryOperator::AddressOf => addressed_by(naming),
        UnaryOperator::Dereference
        | UnaryOperator::Plus
        | UnaryOperator::Minus
        | UnaryOperator::Complement
        | UnaryOperator::Not => None,
    }
}

/// An operator before an operand, also where it is not evaluated.
pub fn unary_judged(
    alloc: Global,
    scene: &mut Scene,
    at: u32,
    operator: UnaryOperator,
    a: Typed,
) -> Result<Typed, Refusal>
    ensures { Judges (beside (scene_behind (scene_of scene.old) (unary_of operator) (typed_of a)) (operand_typed (types_of scene.old.types) at (unary_of operator) (typed_of a))) (λ r. (scene_of scene.new, typed_of r)) result }
{
    let local = noted_local(operator, &a.naming);
    let made = unary_typed(alloc, &scene.types, at, operator, a)?;
    scene.put_addressed(local)?;
    Ok(made)
}
