//! Statements.

ghost use Rattle.std.specs.Prelude.{◌≡◌};
ghost use Rattle.c_tree.specs.FileShape.{stmt_of, items_of, groups_of, else_of};
ghost use Rattle.clight_types.specs.Judged.{Judges};
ghost use Rattle.clight_scopes.specs.SceneOf.{scene_of};
ghost use Rattle.clight_typing.specs.Statements.{no_labels, stmt_judged, items_judged, groups_judged};
ghost use Rattle.clight_made.specs.MadeOf.{made_of, made_list, made_groups};
ghost use Rattle.clight_statements.specs.StatementsOf.{around_of, else_judged, item_judged, behind};

use crate::around::Around;
use crate::effects::{condition_judged, effect_judged, head_judged, selector_judged};
use crate::labels::{labels_judged, nothing_seen};
use crate::locals::decl_judged;
use crate::making::{append, branch, do_loop, for_loop, while_loop};
use crate::returns::return_judged;
use c_tree::{Group, Item, Stmt};
use clight_made::{Made, MadeGroup};
use clight_scopes::Scene;
use clight_specifiers::built::push;
use clight_types::{Refusal, Rule, owed};
use std::alloc::Global;

/// A statement: what it does. A refusal has the first fault, in the order of the file.
#[cycle(statements)]
pub fn stmt_judged(
    alloc: Global,
    scene: &mut Scene,
    around: Around,
    stmt: &Stmt,
) -> Result<Made, Refusal>
    ensures { Judges (stmt_judged (around_of around) (scene_of scene.old) (stmt_of stmt.now)) (λ m. (scene_of scene.new, made_of m)) result }
{
    match stmt {
        Stmt::Block { items, .. } => {
            scene.open(alloc)?;
            let list = items_judged(alloc, scene, around, items)?;
            scene.close();
            Ok(Made::Block(list))
        }
        Stmt::Empty { .. } => Ok(Made::Nothing),
        Stmt::Expr { expr, .. } => effect_judged(alloc, scene, expr),
        Stmt::If {
            condition,
            if_true,
            if_false,
            ..
        } => {
            let condition = condition_judged(alloc, scene, condition)?;
            let a = stmt_judged(alloc, scene, around, if_true)?;
            let b = else_judged(alloc, scene, around, if_false)?;
            Ok(branch(alloc, condition, a, b)?)
        }
        Stmt::While {
            condition,
            body,
            ..
        } => {
            let condition = condition_judged(alloc, scene, condition)?;
            let body = stmt_judged(alloc, scene, around.in_loop(), body)?;
            Ok(while_loop(alloc, condition, body)?)
        }
        Stmt::Do {
            body,
            condition,
            ..
        } => {
            let body = stmt_judged(alloc, scene, around.in_loop(), body)?;
            let condition = condition_judged(alloc, scene, condition)?;
            Ok(do_loop(alloc, body, condition)?)
        }
        Stmt::For {
            first,
            condition,
            update,
            body,
            ..
        } => {
            let head = head_judged(alloc, scene, first, condition, update)?;
            let body = stmt_judged(alloc, scene, around.in_loop(), body)?;
            scene.close();
            Ok(for_loop(alloc, head, body)?)
        }
        Stmt::Switch {
            selector,
            groups,
            ..
        } => {
            let selector = selector_judged(alloc, scene, selector)?;
            scene.open(alloc)?;
            let groups = groups_judged(alloc, scene, around.in_switch(), groups)?;
            scene.close();
            Ok(Made::Switch(selector, groups))
        }
        Stmt::Break { at } => {
            owed(around.breaks, Rule::Jump, *at)?;
            Ok(Made::Break)
        }
        Stmt::Continue { at } => {
            owed(around.continues, Rule::Jump, *at)?;
            Ok(Made::Continue)
        }
        Stmt::Return { at, value } => {
            return_judged(alloc, scene, *at, around.result_type, value)
        }
    }
}

/// The other branch of an `if`, where there is one.
#[cycle(statements)]
fn else_judged(
    alloc: Global,
    scene: &mut Scene,
    around: Around,
    other: &Option<Box<Stmt>>,
) -> Result<Made, Refusal>
    ensures { Judges (else_judged (around_of around) (scene_of scene.old) (else_of other.now)) (λ m. (scene_of scene.new, made_of m)) result }
{
    match other {
        Some(stmt) => stmt_judged(alloc, scene, around, stmt),
        None => Ok(Made::Nothing),
    }
}

/// What stands in a block: what it does, behind what is done before it.
#[cycle(statements)]
fn item_judged(
    alloc: Global,
    scene: &mut Scene,
    around: Around,
    item: &Item,
    made: &mut Vec<Made>,
) -> Result<(), Refusal>
    ensures { Judges (behind (made_list made.old.items) (item_judged (around_of around) (scene_of scene.old) item.now)) (λ u. (scene_of scene.new, made_list made.new.items)) result }
{
    match item {
        Item::Decl(decl) => {
            let locals = decl_judged(alloc, scene, decl)?;
            append(made, locals)?;
            Ok(())
        }
        Item::Stmt(stmt) => {
            let statement = stmt_judged(alloc, scene, around, stmt)?;
            push(made, statement)?;
            Ok(())
        }
    }
}

/// The items of a block, in order.
#[cycle(statements)]
pub fn items_judged(
    alloc: Global,
    scene: &mut Scene,
    around: Around,
    list: &[Item],
) -> Result<Vec<Made>, Refusal>
    ensures { Judges (items_judged (around_of around) (scene_of scene.old) (items_of list.now)) (λ ms. (scene_of scene.new, made_list ms.items)) result }
{
    let mut made = Vec::new(alloc);
    for item in list {
        item_judged(alloc, scene, around, item, &mut made)?;
    }
    Ok(made)
}

/// The groups of a `switch`.
#[cycle(statements)]
fn groups_judged(
    alloc: Global,
    scene: &mut Scene,
    around: Around,
    list: &[Group],
) -> Result<Vec<MadeGroup>, Refusal>
    ensures { Judges (groups_judged (around_of around) (scene_of scene.old) no_labels (groups_of list.now)) (λ gs. (scene_of scene.new, made_groups gs.items)) result }
{
    let mut seen = nothing_seen(alloc);
    let mut made = Vec::new(alloc);
    for group in list {
        let labels = labels_judged(alloc, scene, &mut seen, &group.labels)?;
        let statements = items_judged(alloc, scene, around, &group.items)?;
        push(
            &mut made,
            MadeGroup {
                numbers: labels.numbers,
                is_default: labels.is_default,
                statements,
            },
        )?;
    }
    Ok(made)
}
