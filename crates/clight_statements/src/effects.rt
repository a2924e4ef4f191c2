//! Expressions in statements: those whose values are not used, conditions and selectors.

ghost use Rattle.std.specs.Prelude.{◌≡◌};
ghost use Rattle.std.specs.Option.{option_map};
ghost use Rattle.c_tree.specs.FileShape.{first_of_for, optional_of};
ghost use Rattle.c_tree.specs.Shape.{expr_of};
ghost use Rattle.clight_lang.specs.Syntax.{expression_of};
ghost use Rattle.clight_types.specs.Judged.{Judges};
ghost use Rattle.clight_scopes.specs.SceneOf.{scene_of};
ghost use Rattle.clight_typing.specs.Statements.{effect_judged, condition_judged, optional_condition, optional_effect, first_judged, selector_judged};
ghost use Rattle.clight_made.specs.MadeOf.{made_of, made_list};
ghost use Rattle.clight_statements.specs.StatementsOf.{head_judged, head_of};

use crate::locals::decl_judged;
use crate::making::alone;
use crate::meanings::statement_made;
use c_tree::{Expr, ForFirst};
use clight_expressions::typing::typed;
use clight_lang::expression::Expr as Meaning;
use clight_made::Made;
use clight_operands::Allowed;
use clight_operands::operands::{is_scalar_expression, is_struct_expression, read_of, value_of};
use clight_scopes::Scene;
use clight_types::conversions::is_integer_value;
use clight_types::{Refusal, Rule, owed};
use std::alloc::Global;

/// What stands in the parentheses of a `for`.
#[derive(Drop)]
pub struct ForHead {
    pub first: Vec<Made>,
    pub condition: Option<Meaning>,
    pub update: Made,
}

/// An expression whose value is not used: any effect, and no struct.
#[tactic(auto, using(clight_specifiers::proofs::Faults::stopped))]
pub fn effect_judged(alloc: Global, scene: &mut Scene, expr: &Expr) -> Result<Made, Refusal>
    ensures { Judges (effect_judged (scene_of scene.old) (expr_of expr.now)) (λ m. (scene_of scene.new, made_of m)) result }
{
    let e = typed(alloc, scene, Allowed::Effect, false, expr)?;
    owed(
        !is_struct_expression(&scene.types, &e),
        Rule::StructValue,
        e.at,
    )?;
    Ok(statement_made(alloc, &scene.types, e)?)
}

/// A condition is a scalar.
#[tactic(auto, using(clight_specifiers::proofs::Faults::stopped))]
pub fn condition_judged(alloc: Global, scene: &mut Scene, expr: &Expr) -> Result<Meaning, Refusal>
    ensures { Judges (condition_judged (scene_of scene.old) (expr_of expr.now)) (λ e. (scene_of scene.new, expression_of e)) result }
{
    let e = typed(alloc, scene, Allowed::NoEffect, false, expr)?;
    owed(
        is_scalar_expression(&scene.types, &e),
        Rule::Condition,
        e.at,
    )?;
    Ok(read_of(alloc, &scene.types, e.denoted, e.meaning)?)
}

/// What a `switch` selects by is an integer.
#[tactic(auto, using(clight_specifiers::proofs::Faults::stopped))]
pub fn selector_judged(alloc: Global, scene: &mut Scene, expr: &Expr) -> Result<Meaning, Refusal>
    ensures { Judges (selector_judged (scene_of scene.old) (expr_of expr.now)) (λ e. (scene_of scene.new, expression_of e)) result }
{
    let e = typed(alloc, scene, Allowed::NoEffect, false, expr)?;
    owed(
        is_integer_value(value_of(&scene.types, e.denoted)),
        Rule::Label,
        e.at,
    )?;
    Ok(read_of(alloc, &scene.types, e.denoted, e.meaning)?)
}

/// A condition that may be left out.
#[tactic(auto, using(clight_specifiers::proofs::Faults::stopped))]
fn optional_condition(
    alloc: Global,
    scene: &mut Scene,
    condition: &Option<Expr>,
) -> Result<Option<Meaning>, Refusal>
    ensures { Judges (optional_condition (scene_of scene.old) (optional_of condition.now)) (λ e. (scene_of scene.new, option_map expression_of e)) result }
{
    match condition {
        Some(expr) => Ok(Some(condition_judged(alloc, scene, expr)?)),
        None => Ok(None),
    }
}

/// An expression whose value is not used and that may be left out.
fn optional_effect(alloc: Global, scene: &mut Scene, effect: &Option<Expr>) -> Result<Made, Refusal>
    ensures { Judges (optional_effect (scene_of scene.old) (optional_of effect.now)) (λ m. (scene_of scene.new, made_of m)) result }
{
    match effect {
        Some(expr) => effect_judged(alloc, scene, expr),
        None => Ok(Made::Nothing),
    }
}

/// The first part of a `for`.
#[tactic(auto, using(clight_specifiers::proofs::Faults::stopped))]
fn first_judged(alloc: Global, scene: &mut Scene, first: &ForFirst) -> Result<Vec<Made>, Refusal>
    ensures { Judges (first_judged (scene_of scene.old) (first_of_for first.now)) (λ ms. (scene_of scene.new, made_list ms.items)) result }
{
    match first {
        ForFirst::Nothing => Ok(alone(alloc, Made::Nothing)?),
        ForFirst::Expr(expr) => {
            let effect = effect_judged(alloc, scene, expr)?;
            Ok(alone(alloc, effect)?)
        }
        ForFirst::Decl(decl) => decl_judged(alloc, scene, decl),
    }
}

/// The three parts in the parentheses of a `for`, in the block that it opens.
pub fn head_judged(
    alloc: Global,
    scene: &mut Scene,
    first: &ForFirst,
    condition: &Option<Expr>,
    update: &Option<Expr>,
) -> Result<ForHead, Refusal>
    ensures { Judges (head_judged (scene_of scene.old) (first_of_for first.now) (optional_of condition.now) (optional_of update.now)) (λ h. (scene_of scene.new, head_of h)) result }
{
    scene.open(alloc)?;
    let first = first_judged(alloc, scene, first)?;
    let condition = optional_condition(alloc, scene, condition)?;
    let update = optional_effect(alloc, scene, update)?;
    Ok(ForHead {
        first,
        condition,
        update,
    })
}
